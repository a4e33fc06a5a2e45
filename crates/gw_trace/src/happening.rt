//! What a step did, by what was seen before it and is seen after it.

ghost use Rattle.std.specs.Prelude.{◌≡◌};
ghost use Rattle.gw_trace.specs.Happenings as model;

use crate::sight::{Candidate, Choice, Sight};
use gw_scan::Sim;

/// What a step did.
#[derive(Clone, Copy, PartialEq, Eq)]
pub enum Happening {
    /// The first of the current events chain became active.
    Activation,
    /// The clock moved to the first time of the future events chain.
    ClockMove,
    /// The active transaction entered the block of this number, from 1.
    Entry(u16),
    /// The block that it tried to enter refused it, or both did, and it rests.
    Refusal,
    /// Nothing but the end of the run: nobody was left to move, or a value couldn't be had.
    Stop,
}

/// What a step did that began with nobody active.
fn without_active(before: &Sight, sim: &Sim) -> Happening
    ensures { result ≡ model.without_active before.now sim.now.state }
{
    if sim.active().is_some() {
        Happening::Activation
    } else if sim.future_events() < before.future_events {
        Happening::ClockMove
    } else {
        Happening::Stop
    }
}

/// The number of a block, if it was entered since.
fn entered_since(before: Candidate, sim: &Sim) -> Option<u16>
    ensures { result ≡ model.entered_since before sim.now.state }
{
    if before.entries < sim.entries_at(before.block) {
        Some(before.block)
    } else {
        None
    }
}

/// The number of the first of two blocks that was entered since, if one was.
fn either_entered(before: Choice, sim: &Sim) -> Option<u16>
    ensures { result ≡ model.either_entered before sim.now.state }
{
    match entered_since(before.first, sim) {
        Some(block) => Some(block),
        None => entered_since(before.second, sim),
    }
}

/// The number of the block that was entered by who had entered the TRANSFER BOTH of this number, if it entered one. Who is still
/// active is in it. Of the two blocks more than one may have been entered, by waiters too, but not where it rests now.
fn entered_from(both: u16, before: Choice, sim: &Sim) -> Option<u16>
    ensures { result ≡ model.entered_from both before sim.now.state }
{
    match sim.active_transaction() {
        None => either_entered(before, sim),
        Some(transaction) => {
            if transaction.current == both {
                None
            } else {
                Some(transaction.current)
            }
        }
    }
}

/// The number of the block that the active transaction entered, if it entered one.
fn entered(before: &Sight, sim: &Sim) -> Option<u16>
    ensures { result ≡ model.entered_block before.now sim.now.state }
{
    match before.choice {
        None => entered_since(before.next, sim),
        Some(choice) => entered_from(before.next.block, choice, sim),
    }
}

/// What a step did that began with an active transaction.
fn with_active(before: &Sight, sim: &Sim) -> Happening
    ensures { result ≡ model.with_active before.now sim.now.state }
{
    match entered(before, sim) {
        Some(block) => Happening::Entry(block),
        None => {
            if sim.active().is_some() {
                Happening::Stop
            } else {
                Happening::Refusal
            }
        }
    }
}

/// What the step did that led to the state that a job is in.
pub(crate) fn what_happened(before: &Sight, sim: &Sim) -> Happening
    ensures { result ≡ model.what_happened before.now sim.now.state }
{
    match before.active {
        None => without_active(before, sim),
        Some(_) => with_active(before, sim),
    }
}

/// Whether the active transaction came onto a delay list, and not onto the retry list, where a block refused it.
pub(crate) fn is_delayed(before: &Sight, sim: &Sim) -> bool
    ensures { result ≡ model.is_delayed before.now sim.now.state }
{
    before.delayed < sim.delayed_len()
}

/// How many waiters a facility or a storage was given to, which then left its delay list.
pub(crate) fn let_in(before: &Sight, sim: &Sim) -> usize
    ensures { result ≡ model.let_in before.now sim.now.state }
{
    before.delayed.saturating_sub(sim.delayed_len())
}

/// How many the step woke of those who were on the retry list.
pub(crate) fn woken(before: &Sight, sim: &Sim, happening: Happening) -> usize
    ensures { result ≡ model.woken_members before.now sim.now.state happening }
{
    let joined = matches!(happening, Happening::Refusal) && !is_delayed(before, sim);
    let left = sim.retry_len().saturating_sub(usize::from(joined));
    before.retrying.saturating_sub(left)
}
