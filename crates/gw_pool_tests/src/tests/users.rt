//! Users of a table, and of a service, who look at its table under the lock.

use super::calls::submit;
use super::jobs::pass_for;
use super::services::{Fixture, Trial, wrong_of};
use gw_jobs::{JobFault, Table};
use gw_samples::{QUEUEING, THREE_BLOCKS, first_wrong};
use std::alloc::Global;
use std::sync::Wait;
use std::sync::ledger::Ledger;
use std::test::Fail;

/// How many jobs of a user may run.
const MOST_RUNNING: u32 = 16;

impl<R: Ledger, S: Ledger, W: Wait> Fixture<'_, R, S, W> {
    /// Whether the first 16 jobs of a user get the slots in order.
    fn fills_slots(&self) -> bool {
        for slot in 0..MOST_RUNNING {
            if self.new_slot(1) != Ok(slot) {
                return false;
            }
        }
        true
    }

    /// What a user is told who collects the job of an object in slot 0.
    fn collect_first(&self, user: u64, bytes: &[u8]) -> Result<bool, JobFault> {
        match pass_for(self.alloc, user, 0, bytes) {
            Ok(pass) => self.collect_report(&pass),
            Err(_) => Err(JobFault::Memory),
        }
    }

    /// A 17th job of a user is refused, and another user's first job gets the next slot. The first job of user 1 isn't
    /// collected by another user, by its own user since it isn't ended, or with another spec.
    pub(super) fn wrong_of_users(&self) -> Option<usize> {
        first_wrong(&[
            self.fills_slots(),
            self.new_slot(1) == Err(JobFault::UserFull),
            self.new_slot(2) == Ok(MOST_RUNNING),
            self.collect_first(2, THREE_BLOCKS) == Err(JobFault::NotYours),
            self.collect_first(1, THREE_BLOCKS) == Err(JobFault::NotEnded),
            self.collect_first(1, QUEUEING) == Err(JobFault::Stranger),
        ])
    }
}

#[test]
fn users_and_strangers_are_told_apart(rt: HostRuntime) -> Result<(), Fail> {
    assert!(rt; wrong_of(&rt, rt.alloc(), Trial::Users)?.is_none());
    Ok(())
}

/// Whether the first 16 jobs of user 1 get the slots of a table in order.
fn fill_slots(alloc: Global, table: &mut Table) -> bool {
    for slot in 0..MOST_RUNNING {
        if submit(alloc, table, 1, THREE_BLOCKS) != Ok(slot) {
            return false;
        }
    }
    true
}

/// A 17th job of a user is refused by a table, and another user's first job gets the next slot.
fn wrong_of_table(alloc: Global, table: &mut Table) -> Option<usize> {
    first_wrong(&[
        fill_slots(alloc, table),
        submit(alloc, table, 1, THREE_BLOCKS) == Err(JobFault::UserFull),
        submit(alloc, table, 2, THREE_BLOCKS) == Ok(MOST_RUNNING),
    ])
}

#[test]
fn seventeenth_job_of_a_user_is_refused(rt: HostRuntime) -> Result<(), Fail> {
    let mut table = Table::new(rt.alloc())?;
    assert!(rt; wrong_of_table(rt.alloc(), &mut table).is_none());
    Ok(())
}
