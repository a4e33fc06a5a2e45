//! A journal that has no place left.

use super::calls::{cancel, next_task, polled, submit, told_after, work};
use super::jobs::pass_for;
use gw_jobs::{JobFault, Pass, State, Table, Task};
use gw_object::Memory;
use gw_samples::{THREE_BLOCKS, first_wrong};
use std::alloc::Global;
use std::test::Fail;

/// So many takes and returns come before the last: two submits and 524,287 takes and returns are 2^20 events, all that a journal
/// has.
const TURNS: u32 = 524_286;

/// Takes the next task so many times, and gives it back after a slice of no steps: whether each is taken back.
fn turn(table: &mut Table, times: u32) -> bool {
    for _ in 0..times {
        if !work(table, 0) {
            return false;
        }
    }
    true
}

/// Why no task is taken, if none is for a reason.
fn take_fault(table: &mut Table) -> Option<JobFault> {
    table.take().err()
}

/// Why the job of a pass isn't collected, if it isn't.
fn collect_fault(alloc: Global, table: &Table, pass: &Pass) -> Option<JobFault> {
    table.collect(alloc, pass).err()
}

/// Whether a submit finds no place.
fn refuses_submit(alloc: Global, table: &mut Table) -> bool {
    submit(alloc, table, 3, THREE_BLOCKS) == Err(JobFault::JournalFull)
}

/// Whether a submit finds no place while this task is out, the last, which is taken back then.
fn keeps_last_place(alloc: Global, table: &mut Table, last: Task) -> bool {
    let refused = refuses_submit(alloc, table) && table.out() == 1;
    told_after(table, last, 0) == Some((0, 1, 0, false, false)) && refused
}

/// Whether that is so of the next task.
fn takes_the_last(alloc: Global, table: &mut Table) -> bool {
    match next_task(table) {
        Some(last) => keeps_last_place(alloc, table, last),
        None => false,
    }
}

/// Whether the job of a pass is ready, with no step, and is neither collected nor cancelled.
fn is_stuck(alloc: Global, table: &mut Table, pass: &Pass) -> bool {
    polled(table, pass) == Ok((State::Ready, 0))
        && collect_fault(alloc, table, pass) == Some(JobFault::NotEnded)
        && cancel(table, pass) == Some(JobFault::JournalFull)
}

/// The place of the first that isn't as it must be while the jobs of two users fill the journal, and once it is full.
fn wrong_when_full(alloc: Global, table: &mut Table, first: &Pass, second: &Pass) -> Option<usize> {
    first_wrong(&[
        submit(alloc, table, 1, THREE_BLOCKS) == Ok(0),
        submit(alloc, table, 2, THREE_BLOCKS) == Ok(1),
        turn(table, TURNS),
        takes_the_last(alloc, table),
        take_fault(table) == Some(JobFault::JournalFull),
        refuses_submit(alloc, table),
        is_stuck(alloc, table, first),
        is_stuck(alloc, table, second),
        table.steps() == 0,
        table.out() == 0,
    ])
}

/// Whether nothing is wrong in this table.
fn is_right(alloc: Global, table: &mut Table) -> Result<bool, Memory> {
    let first = pass_for(alloc, 1, 0, THREE_BLOCKS)?;
    let second = pass_for(alloc, 2, 1, THREE_BLOCKS)?;
    Ok(wrong_when_full(alloc, table, &first, &second).is_none())
}

#[test]
fn full_journal_takes_the_last_return_and_no_more(rt: HostRuntime) -> Result<(), Fail> {
    let mut table = Table::new(rt.alloc())?;
    assert!(rt; is_right(rt.alloc(), &mut table)?);
    Ok(())
}
