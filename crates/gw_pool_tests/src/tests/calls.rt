//! What users and workers do with a table, and what they are told.

use super::jobs::spec_of;
use gw_jobs::{JobFault, Pass, Returned, State, Table, Task};
use gw_scan::Spec;
use std::alloc::Global;

/// The slot of a job, or why there is none.
pub(super) fn slot_of(submitted: Result<Pass, (Spec, JobFault)>) -> Result<u32, JobFault> {
    match submitted {
        Ok(pass) => Ok(pass.slot()),
        Err((spec, fault)) => {
            drop(spec);
            Err(fault)
        }
    }
}

/// Submits the job of an object: its slot, or why there is none.
pub(super) fn submit(
    alloc: Global,
    table: &mut Table,
    user: u64,
    bytes: &[u8],
) -> Result<u32, JobFault> {
    match spec_of(alloc, bytes) {
        Ok(spec) => slot_of(table.submit(alloc, user, spec)),
        Err(_) => Err(JobFault::Memory),
    }
}

/// The next task, if a job is ready.
pub(super) fn next_task(table: &mut Table) -> Option<Task> {
    table.take().ok()?
}

/// The slot, the user, the steps, and whether the row is ended and was cancelled.
pub(super) type Told = (u32, u64, u64, bool, bool);

/// What a receipt tells.
fn parts_of(returned: &Returned) -> Told {
    (
        returned.slot(),
        returned.user(),
        returned.steps(),
        returned.is_ended(),
        returned.is_cancelled(),
    )
}

/// What is told of a task that is given back, or nothing where it comes back.
pub(super) fn told(table: &mut Table, task: Task) -> Option<Told> {
    Some(parts_of(&table.give_back(task).ok()?))
}

/// Makes a slice of so many steps; where memory is wanting, the fewer steps are told.
pub(super) fn make_slice(task: &mut Task, steps: u32) {
    let _ = task.run_slice(steps);
}

/// What is told of a task that is given back after a slice.
pub(super) fn told_after(table: &mut Table, mut task: Task, steps: u32) -> Option<Told> {
    make_slice(&mut task, steps);
    told(table, task)
}

/// How the job of a pass stands, and its steps; or why that isn't told.
pub(super) fn polled(table: &Table, pass: &Pass) -> Result<(State, u64), JobFault> {
    let progress = table.poll(pass)?;
    Ok((progress.state, progress.steps))
}

/// Cancels the job of a pass: why it isn't, if it isn't.
pub(super) fn cancel(table: &mut Table, pass: &Pass) -> Option<JobFault> {
    table.cancel(pass).err()
}

/// Makes a slice of so many steps of the next task and gives it back: whether a job is ready, and is taken back.
pub(super) fn work(table: &mut Table, steps: u32) -> bool {
    match next_task(table) {
        Some(task) => told_after(table, task, steps).is_some(),
        None => false,
    }
}

/// Whether the next task of another table has made no step, and comes back from this one.
pub(super) fn comes_back(table: &mut Table, other: &mut Table) -> Option<bool> {
    let stray = next_task(other)?;
    let is_new = stray.steps() == 0;
    Some(told(table, stray).is_none() && is_new)
}
