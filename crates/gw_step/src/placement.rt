//! Where a transaction is placed.

use gw_object::Link;

/// An assembly that begins.
#[derive(Clone, Copy, PartialEq, Eq)]
pub struct Assembling {
    /// The block at which the first of the set waits, by its number from 1.
    pub block: u16,
    /// The number of the assembly set.
    pub set: u64,
    /// How many are still to come.
    pub missing: u16,
}

/// Where the active transaction is placed once it has entered its block, or was refused by it (GPSS World Reference
/// Manual, "The Transaction Scheduler").
#[derive(Clone, Copy, PartialEq, Eq)]
pub enum Placement {
    /// It stays active.
    StaysActive,
    /// It rests on the future events chain until a clock time.
    RestsUntil(i64),
    /// It joins the delay list of an entity, by its number from 0, behind its peers.
    JoinsDelayList(u16),
    /// It joins the retry list, at its end.
    JoinsRetryList,
    /// It rests on the current events chain, ahead of its peers.
    RestsAhead,
    /// It rests on the current events chain, behind its peers.
    RestsBehind,
    /// It waits for the rest of its assembly set.
    AwaitsSet(Assembling),
    /// It joins a user chain.
    JoinsChain(Link),
    /// It is destroyed.
    LeavesModel,
}
