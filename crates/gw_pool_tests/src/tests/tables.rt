//! What shares do with a table, and whether it comes out as it must.

ghost use Rattle.std.specs.Prelude.{◌≡◌, ◌<◌, ◌≤◌, OnOk};
ghost use Rattle.gw_pool.specs.Shares.{AreWhole};

use super::boards::wrong_of_returns;
use super::jobs::spec_of;
use super::shares::wrong_of_counts;
use gw_jobs::{Returned, Task};
use gw_object::Memory;
use gw_pool::{Share, Shared, new_shared};
use gw_samples::THREE_BLOCKS;
use std::alloc::Global;
use std::marker::Brand;
use std::sync::Wait;
use std::sync::ledger::{Blank, Ledger};
use std::thread::Threads;

/// What is tried with a new table.
#[derive(Clone, Copy)]
pub(super) enum Trial {
    /// Two shares count.
    Shares,
    /// A seat publishes.
    Returns,
}

/// The place, from 0, of the first that isn't as it must be in a new table.
fn wrong_in_table<R: Ledger, S: Ledger, W: Threads + Wait + Sync>(
    rt: &W,
    alloc: Global,
    rows: Blank,
    steps: Blank,
    trial: Trial,
) -> Result<Option<usize>, Memory>
    requires names { (rows.name ≡ R.name) × (steps.name ≡ S.name) }
    requires parts { (rows.parts ≡ R.parts) × (steps.parts ≡ S.parts) }
    requires whole { AreWhole rows.parts steps.parts }
{
    let (mut shared, mut share) = new_shared::<R, S>(alloc, rows, steps)?;
    match trial {
        Trial::Shares => Ok(wrong_of_counts(alloc, &mut shared, &mut share)),
        Trial::Returns => wrong_of_returns(rt, alloc, &mut shared, &mut share),
    }
}

/// The same of ledgers of its own.
pub(super) fn wrong_of<W: Threads + Wait + Sync>(
    rt: &W,
    alloc: Global,
    trial: Trial,
) -> Result<Option<usize>, Memory> {
    wrong_in_table::<Brand, Brand, W>(rt, alloc, Blank::new(17), Blank::new(17), trial)
}

/// Adds a job of a user, which is done after 14 steps.
pub(super) fn submit<R: Ledger, S: Ledger>(
    alloc: Global,
    shared: &mut Shared<R, S>,
    user: u64,
) -> Result<(), Memory> {
    let spec = spec_of(alloc, THREE_BLOCKS)?;
    shared.submit(alloc, user, spec).ok().ok_or(Memory)?;
    Ok(())
}

/// The task that is next, taken by a share. A job is ready: if there is no task, memory is wanting.
fn next_task<R: Ledger, S: Ledger>(
    shared: &mut Shared<R, S>,
    share: &mut Share<R, S>,
) -> Result<Task, Memory>
    requires { 0 < share.old.parts }
    ensures parts { share.new.parts ≡ share.old.parts }
    ensures rows { OnOk result (1 ≤ share.new.rows) }
{
    match shared.take_as(share) {
        Ok(task) => match task {
            Some(task) => Ok(task),
            None => Err(Memory),
        },
        Err(_) => Err(Memory),
    }
}

/// Makes 7 steps with the next task and gives it back, both by a share. Answers what is told of it, and the rows that the share
/// has meanwhile.
pub(super) fn make_7<R: Ledger, S: Ledger>(
    shared: &mut Shared<R, S>,
    share: &mut Share<R, S>,
) -> Result<(Returned, u32), Memory>
    requires { 0 < share.old.parts }
    ensures { share.new.parts ≡ share.old.parts }
{
    let mut task = next_task(shared, share)?;
    let rows = share.rows();
    let _ = task.run_slice(7);
    let returned = shared.give_back_as(task, share).ok().ok_or(Memory)?;
    Ok((returned, rows))
}
