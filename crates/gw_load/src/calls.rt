//! Calls of users, and whether the replies are the model's. The table is in hand, so a poll before the call says how the job
//! stands at the call.

use crate::counts::{Tally, count};
use crate::row::Row;
use crate::samples::Sample;
use gw_jobs::{JobFault, Pass, Reply, State};
use gw_object::Memory;
use gw_pool::Shared;
use gw_scan::Spec;
use std::alloc::Global;
use std::sync::ledger::Ledger;

/// Polls a job, and takes note: how it stands, where that may be told of it.
fn state_of<R: Ledger, S: Ledger>(
    table: &Shared<R, S>,
    samples: &[Sample],
    slice: u64,
    row: &mut Row,
) -> Option<State> {
    let sample = samples.get(row.sample)?;
    let told = table.poll(&row.pass).ok()?;
    if !row.may_be_told(sample, slice, told) {
        return None;
    }
    row.note(told);
    Some(told.state)
}

/// Polls a job.
pub fn poll<R: Ledger, S: Ledger>(
    table: &Shared<R, S>,
    samples: &[Sample],
    slice: u64,
    row: &mut Row,
    tally: &mut Tally,
) {
    match state_of(table, samples, slice, row) {
        Some(_) => count(&mut tally.replies.polled),
        None => count(&mut tally.differences.polls),
    }
}

/// Whether a job may run, which is polled if it might.
fn may_run<R: Ledger, S: Ledger>(
    table: &Shared<R, S>,
    samples: &[Sample],
    slice: u64,
    row: &mut Row,
    tally: &mut Tally,
) -> bool {
    if !row.may_run() {
        return false;
    }
    poll(table, samples, slice, row, tally);
    row.may_run()
}

/// How many jobs of a user run.
pub fn running_of<R: Ledger, S: Ledger>(
    table: &Shared<R, S>,
    samples: &[Sample],
    slice: u64,
    user: u64,
    rows: &mut [Row],
    tally: &mut Tally,
) -> u64 {
    let mut running = 0;
    for row in rows.iter_mut() {
        if row.pass.user() == user && may_run(table, samples, slice, row, tally) {
            count(&mut running);
        }
    }
    running
}

/// The refusal of a collect of a job that stands so.
fn collect_fault(state: Option<State>) -> Option<JobFault> {
    match state? {
        State::Ready | State::Out => Some(JobFault::NotEnded),
        State::Cancelled => Some(JobFault::Cancelled),
        State::Ended => None,
    }
}

/// The refusal of a cancel of a job that stands so.
fn cancel_fault(state: Option<State>) -> Option<JobFault> {
    match state? {
        State::Ready | State::Out => None,
        State::Cancelled => Some(JobFault::Cancelled),
        State::Ended => Some(JobFault::AlreadyEnded),
    }
}

/// Whether what was collected is what the lone run of the sample comes to.
fn is_lone(sample: &Sample, reply: &Reply) -> bool {
    match &sample.lone {
        Some(lone) => {
            reply.end == lone.end
                && reply.steps == lone.steps
                && reply.report.as_slice() == lone.report.as_slice()
                && reply.spec == sample.spec
        }
        None => false,
    }
}

/// Whether this may be collected of a job that stands so.
fn may_be_collected(samples: &[Sample], row: &Row, state: Option<State>, reply: &Reply) -> bool {
    match samples.get(row.sample) {
        Some(sample) => state == Some(State::Ended) && is_lone(sample, reply),
        None => false,
    }
}

/// Whether a refusal is the one that was due; then it is counted.
fn judge(tally: &mut Tally, fault: JobFault, due: Option<JobFault>) -> bool {
    if due == Some(fault) {
        tally.replies.count_refusal(fault);
        return true;
    }
    false
}

/// Collects a job.
pub fn collect<R: Ledger, S: Ledger>(
    alloc: Global,
    table: &Shared<R, S>,
    samples: &[Sample],
    slice: u64,
    row: &mut Row,
    tally: &mut Tally,
) {
    let state = state_of(table, samples, slice, row);
    let is_right = match table.collect(alloc, &row.pass) {
        Ok(reply) => {
            let is_right = may_be_collected(samples, row, state, &reply);
            drop(reply);
            if is_right {
                count(&mut tally.replies.collected);
            }
            is_right
        }
        Err(fault) => judge(tally, fault, collect_fault(state)),
    };
    if !is_right {
        count(&mut tally.differences.collects);
    }
}

/// Takes note that a job was cancelled that stood so: whether it could be.
fn note_cancel(row: &mut Row, state: Option<State>, tally: &mut Tally) -> bool {
    match state {
        Some(state) => {
            row.note_cancel(state);
            count(&mut tally.replies.cancelled);
            state == State::Ready || state == State::Out
        }
        None => false,
    }
}

/// Cancels a job.
pub fn cancel<R: Ledger, S: Ledger>(
    table: &mut Shared<R, S>,
    samples: &[Sample],
    slice: u64,
    row: &mut Row,
    tally: &mut Tally,
) {
    let state = state_of(table, samples, slice, row);
    let is_right = match table.cancel(&row.pass) {
        Ok(()) => note_cancel(row, state, tally),
        Err(fault) => judge(tally, fault, cancel_fault(state)),
    };
    if !is_right {
        count(&mut tally.differences.cancels);
    }
}

/// A pass that is made up.
#[derive(Clone, Copy)]
pub enum Guess {
    /// For another user.
    OtherUser,
    /// For a slot that no service has.
    NoSlot,
    /// For another job.
    OtherJob,
    /// The user's own, made once more.
    Own,
}

/// What the job runs for which a pass is made up so.
fn guessed_spec<'a>(samples: &'a [Sample], row: &'a Row, guess: Guess) -> Result<&'a Spec, Memory> {
    match guess {
        Guess::OtherUser | Guess::NoSlot | Guess::Own => Ok(row.pass.spec()),
        Guess::OtherJob => {
            let other = samples
                .get(row.sample ^ 1)
                .or(samples.get(0))
                .ok_or(Memory)?;
            Ok(&other.spec)
        }
    }
}

/// The pass for a job that is made up so.
fn guessed(samples: &[Sample], row: &Row, guess: Guess) -> Result<Pass, Memory> {
    let user = row.pass.user();
    let slot = row.pass.slot();
    let spec = guessed_spec(samples, row, guess)?.share()?;
    Ok(match guess {
        Guess::OtherUser => Pass::of(user ^ 1, slot, spec),
        Guess::NoSlot => Pass::of(user, slot.saturating_add(1024), spec),
        Guess::OtherJob | Guess::Own => Pass::of(user, slot, spec),
    })
}

/// The refusal of each call by a pass that is made up so.
fn guess_fault(guess: Guess) -> Option<JobFault> {
    match guess {
        Guess::OtherUser | Guess::NoSlot => Some(JobFault::NotYours),
        Guess::OtherJob => Some(JobFault::Stranger),
        Guess::Own => None,
    }
}

/// Whether a collect by a pass is refused so.
fn is_collect_refused<R: Ledger, S: Ledger>(
    alloc: Global,
    table: &Shared<R, S>,
    pass: &Pass,
    due: JobFault,
) -> bool {
    match table.collect(alloc, pass) {
        Ok(reply) => {
            drop(reply);
            false
        }
        Err(fault) => fault == due,
    }
}

/// Whether a poll, a collect and a cancel by a pass are refused so.
fn is_refused<R: Ledger, S: Ledger>(
    alloc: Global,
    table: &mut Shared<R, S>,
    pass: &Pass,
    due: JobFault,
) -> bool {
    let is_poll_refused = table.poll(pass) == Err(due);
    let is_cancel_refused = table.cancel(pass) == Err(due);
    is_poll_refused && is_cancel_refused && is_collect_refused(alloc, table, pass, due)
}

/// Polls, collects and cancels by a pass that is made up. One that is the user's own is polled alone.
pub fn call_by_guess<R: Ledger, S: Ledger>(
    alloc: Global,
    table: &mut Shared<R, S>,
    samples: &[Sample],
    row: &Row,
    guess: Guess,
    tally: &mut Tally,
) -> Result<(), Memory> {
    let pass = guessed(samples, row, guess)?;
    let is_right = match guess_fault(guess) {
        Some(due) => is_refused(alloc, table, &pass, due) && judge(tally, due, Some(due)),
        None => table.poll(&pass) == table.poll(&row.pass),
    };
    drop(pass);
    if !is_right {
        count(&mut tally.differences.passes);
    }
    Ok(())
}
