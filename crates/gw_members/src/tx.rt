//! Transactions as chains hold them.

/// The most members that the lists of several entities have together: more than memory can hold, and as many as a value can be.
pub const MOST: usize = 1 << 62;

/// A transaction.
#[derive(Clone, Copy, PartialEq, Eq)]
pub struct Tx {
    /// Its place in the machine's slab.
    pub place: usize,
    /// Its number, from 1, in order of creation.
    pub number: u64,
}

/// A member of a list that is kept by priority.
#[derive(Clone, Copy, PartialEq, Eq)]
pub struct Member {
    /// The transaction.
    pub tx: Tx,
    /// Its priority when it joined; a higher one goes first.
    pub priority: i32,
}

/// A member of the future events chain.
#[derive(Clone, Copy, PartialEq, Eq)]
pub struct Event {
    /// The transaction.
    pub tx: Tx,
    /// The clock time for which it is scheduled, in clock units.
    pub time: i64,
}
