//! A job that is cancelled while it is out, one that ends before it is cancelled, and the task of another table.

use super::calls::{cancel, comes_back, next_task, polled, submit, told_after};
use super::jobs::pass_for;
use gw_jobs::{JobFault, Pass, State, Table, Task};
use gw_object::Memory;
use gw_samples::{QUEUEING, THREE_BLOCKS, first_wrong};
use std::alloc::Global;
use std::test::Fail;

/// The place of the first that is told wrong while this task is out, the task of another table comes for the same slot, and the
/// job is cancelled; and once the task is back with the 5 steps that it made.
fn wrong_while_out(table: &mut Table, other: &mut Table, pass: &Pass, task: Task) -> Option<usize> {
    first_wrong(&[
        comes_back(table, other) == Some(true),
        cancel(table, pass).is_none(),
        table.out() == 1,
        told_after(table, task, 5) == Some((0, 1, 5, false, true)),
        table.out() == 0,
        table.steps() == 5,
    ])
}

/// Whether that is told right of the next task.
fn is_cancelled_while_out(table: &mut Table, other: &mut Table, pass: &Pass) -> Option<bool> {
    let task = next_task(table)?;
    Some(wrong_while_out(table, other, pass, task).is_none())
}

/// Whether what is told of the next task is right, which runs to its end in slot 1.
fn is_ended(table: &mut Table) -> Option<bool> {
    let task = next_task(table)?;
    Some(told_after(table, task, 100) == Some((1, 1, 23, true, false)))
}

/// The place of the first that is told wrong of the jobs of user 1 in one table, of which the first is cancelled while it is out,
/// and the second ends.
fn wrong_of_both(
    alloc: Global,
    table: &mut Table,
    other: &mut Table,
    first: &Pass,
    second: &Pass,
) -> Option<usize> {
    first_wrong(&[
        is_cancelled_while_out(table, other, first) == Some(true),
        polled(table, first) == Ok((State::Cancelled, 5)),
        table.collect(alloc, first).err() == Some(JobFault::Cancelled),
        cancel(table, first) == Some(JobFault::Cancelled),
        is_ended(table) == Some(true),
        polled(table, second) == Ok((State::Ended, 23)),
        cancel(table, second) == Some(JobFault::AlreadyEnded),
        table.steps() == 28,
    ])
}

/// Whether user 1 gets the slots 0 and 1 in one table, and user 2 slot 0 in another.
fn are_submitted(alloc: Global, table: &mut Table, other: &mut Table) -> bool {
    submit(alloc, table, 1, THREE_BLOCKS) == Ok(0)
        && submit(alloc, table, 1, QUEUEING) == Ok(1)
        && submit(alloc, other, 2, QUEUEING) == Ok(0)
}

/// Whether nothing is told wrong in these tables.
fn is_right(alloc: Global, table: &mut Table, other: &mut Table) -> Result<bool, Memory> {
    let first = pass_for(alloc, 1, 0, THREE_BLOCKS)?;
    let second = pass_for(alloc, 1, 1, QUEUEING)?;
    Ok(
        are_submitted(alloc, table, other)
            && wrong_of_both(alloc, table, other, &first, &second).is_none(),
    )
}

#[test]
fn job_that_is_out_is_cancelled_and_one_that_ended_is_not(rt: HostRuntime) -> Result<(), Fail> {
    let mut table = Table::new(rt.alloc())?;
    let mut other = Table::new(rt.alloc())?;
    assert!(rt; is_right(rt.alloc(), &mut table, &mut other)?);
    Ok(())
}
