//! A job in slices, beside that of another user.

use super::calls::{submit, work};
use super::jobs::pass_for;
use gw_jobs::{Pass, Table};
use gw_object::Memory;
use gw_samples::{QUEUEING, QUEUEING_REPORT, THREE_BLOCKS, THREE_BLOCKS_REPORT};
use std::alloc::Global;
use std::test::Fail;

/// The steps of slices.
const SLICES: [u32; 3] = [1, 7, 1_000_000];

/// More slices than both jobs take.
const AMPLE: u32 = 100;

/// Makes slices of so many steps until no job is ready.
fn work_all(table: &mut Table, steps: u32) {
    for _ in 0..AMPLE {
        if !work(table, steps) {
            return;
        }
    }
}

/// Whether the job of a pass is collected with these steps and this report.
fn is_told(alloc: Global, table: &Table, pass: &Pass, steps: u64, report: &[u8]) -> bool {
    match table.collect(alloc, pass) {
        Ok(reply) => reply.steps == steps && reply.report.as_slice() == report,
        Err(_) => false,
    }
}

/// Whether user 1 gets slot 0 for a job, and user 2 slot 1 for another.
fn are_submitted(alloc: Global, table: &mut Table) -> bool {
    submit(alloc, table, 1, QUEUEING) == Ok(0) && submit(alloc, table, 2, THREE_BLOCKS) == Ok(1)
}

/// Whether slices of so many steps bring both jobs to the reports of their lone runs.
fn are_told(alloc: Global, table: &mut Table, steps: u32) -> Result<bool, Memory> {
    let first = pass_for(alloc, 1, 0, QUEUEING)?;
    let second = pass_for(alloc, 2, 1, THREE_BLOCKS)?;
    let submitted = are_submitted(alloc, table);
    work_all(table, steps);
    Ok(
        submitted
            && is_told(alloc, table, &first, 23, QUEUEING_REPORT)
            && is_told(alloc, table, &second, 14, THREE_BLOCKS_REPORT),
    )
}

/// Whether that is so of a new table.
fn are_told_anew(alloc: Global, steps: u32) -> Result<bool, Memory> {
    let mut table = Table::new(alloc)?;
    are_told(alloc, &mut table, steps)
}

/// The place of the first length of slices with which it isn't.
fn wrong_slice(alloc: Global) -> Result<Option<usize>, Memory> {
    for i in 0..SLICES.len() {
        if !are_told_anew(alloc, SLICES[i])? {
            return Ok(Some(i));
        }
    }
    Ok(None)
}

#[test]
fn slices_give_the_report_of_the_lone_run(rt: HostRuntime) -> Result<(), Fail> {
    assert!(rt; wrong_slice(rt.alloc())?.is_none());
    Ok(())
}
