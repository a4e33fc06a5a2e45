//! What the users of a thread did and were told.

use crate::calls::running_of;
use crate::counts::{Tally, count};
use crate::row::Row;
use crate::samples::Sample;
use gw_jobs::{JobFault, Pass};
use gw_num::Stream;
use gw_object::Memory;
use gw_pool::Shared;
use gw_scan::Spec;
use std::alloc::Global;
use std::sync::ledger::Ledger;

/// So many users call from one thread.
const USERS: u32 = 4;

/// At most so many jobs of a user run.
const MOST_RUNNING: u64 = 16;

/// A service has at most so many jobs.
pub const MOST_JOBS: u64 = 1024;

/// What the users of a thread did and were told: the model of that part of the table which is theirs.
#[derive(Drop)]
pub struct Diary {
    /// The number of the first of these users; the others follow.
    first: u64,
    /// What they do next is drawn from it.
    draws: Stream,
    /// Their jobs, in the order of submits.
    pub rows: Vec<Row>,
    /// What was counted.
    pub tally: Tally,
    /// Whether they were told that the service has had all its jobs.
    pub was_full: bool,
    /// Whether they stopped for want of memory.
    pub was_short: bool,
}

impl Diary {
    /// That of users who did nothing yet.
    pub fn new(alloc: Global, thread: u32, draws: Stream) -> Diary {
        Diary {
            first: u64::from(thread).saturating_mul(u64::from(USERS)),
            draws,
            rows: Vec::new(alloc),
            tally: Tally::new(),
            was_full: false,
            was_short: false,
        }
    }

    /// Draws a number below this one; 0 where there is none.
    pub fn draw(&mut self, below: u32) -> u32 {
        self.draws.next().checked_rem(below).unwrap_or(0)
    }

    /// Draws one of the users.
    pub fn draw_user(&mut self) -> u64 {
        self.first.saturating_add(u64::from(self.draw(USERS)))
    }

    /// Draws one of the jobs, by its place.
    pub fn draw_row(&mut self) -> usize {
        (self.draws.next() as usize)
            .checked_rem(self.rows.len())
            .unwrap_or(0)
    }

    /// How many jobs of a user run.
    pub fn running_jobs<R: Ledger, S: Ledger>(
        &mut self,
        table: &Shared<R, S>,
        samples: &[Sample],
        slice: u64,
        user: u64,
    ) -> u64 {
        running_of(
            table,
            samples,
            slice,
            user,
            self.rows.as_mut_slice(),
            &mut self.tally,
        )
    }

    /// Whether a pass may be that of the next job, of this user: its slot is behind those of all jobs before.
    fn may_be_next(&self, user: u64, pass: &Pass) -> bool {
        let is_behind = match self.rows.last() {
            Some(last) => last.pass.slot() < pass.slot(),
            None => true,
        };
        is_behind && pass.user() == user && u64::from(pass.slot()) < MOST_JOBS
    }

    /// Takes note of a job that was submitted, of which so many of its user ran when it was there.
    pub fn admit(
        &mut self,
        user: u64,
        sample: usize,
        pass: Pass,
        running: u64,
    ) -> Result<(), Memory> {
        if self.may_be_next(user, &pass) && running < MOST_RUNNING && !self.was_full {
            count(&mut self.tally.replies.submitted);
        } else {
            count(&mut self.tally.differences.submits);
        }
        self.rows.push(Row::new(pass, sample))?;
        Ok(())
    }

    /// Takes note of a submit that was refused, with the spec that came back. So many jobs of the user ran before it, and so many
    /// after it.
    pub fn note_refusal(
        &mut self,
        sample: &Sample,
        spec: &Spec,
        fault: JobFault,
        before: u64,
        after: u64,
    ) {
        let is_due = match fault {
            JobFault::UserFull => before >= MOST_RUNNING,
            JobFault::ServiceFull => after < MOST_RUNNING,
            _ => false,
        };
        if fault == JobFault::ServiceFull {
            self.was_full = true;
        }
        if is_due && *spec == sample.spec {
            self.tally.replies.count_refusal(fault);
        } else {
            count(&mut self.tally.differences.submits);
        }
    }
}
