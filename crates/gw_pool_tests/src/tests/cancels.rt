//! A job that its user cancels while a worker has it.

use super::jobs::pass_for;
use super::services::{Fixture, Shift, Trial, cancel, run, wrong_of};
use gw_jobs::{JobFault, Pass, State};
use gw_object::Memory;
use gw_pool::{Gate, Service};
use gw_samples::{THREE_BLOCKS, first_wrong};
use std::sync::Wait;
use std::sync::ledger::Ledger;
use std::test::Fail;
use std::thread::Threads;

/// Cancels the job of a pass as soon as a worker has it. It takes the lock for that, so it is passed outside the lock.
#[derive(Drop)]
struct Canceller<'a, R: Ledger, S: Ledger, W: Wait> {
    rt: &'a W,
    service: &'a Service<R, S>,
    pass: &'a Pass,
}

impl<R: Ledger, S: Ledger, W: Wait> Gate for Canceller<'_, R, S, W> {
    fn before(&self, _worker: u32, slot: u32) {
        if slot == self.pass.slot() {
            let _ = cancel(self.rt, &self.service, self.pass);
        }
    }
}

impl<R: Ledger + Send + Sync, S: Ledger + Send + Sync, W: Threads + Wait + Sync> Fixture<
    '_,
    R,
    S,
    W,
> {
    /// Whether a job is cancelled for good, after 7 steps.
    fn is_cancelled(&self, pass: &Pass) -> bool {
        self.stands(pass, State::Cancelled, 7)
            && self.collect_report(pass) == Err(JobFault::Cancelled)
            && self.collect_report(pass) == Err(JobFault::Cancelled)
            && cancel(self.rt, &self.service, pass) == Err(JobFault::Cancelled)
    }

    /// Whether the job of user 1 in slot 1 can't be cancelled, since it ended.
    fn has_second_ended(&self) -> Result<bool, Memory> {
        let pass = pass_for(self.alloc, 1, 1, THREE_BLOCKS)?;
        Ok(cancel(self.rt, &self.service, &pass) == Err(JobFault::AlreadyEnded))
    }

    /// Whether one worker makes 3 slices of 7 steps, the first of them with a job that is cancelled then.
    fn runs_past(&mut self, pass: &Pass) -> bool {
        let gate = Canceller {
            rt: self.rt,
            service: &self.service,
            pass,
        };
        let shift = Shift {
            workers: 1,
            slice: 7,
            slices: 3,
            steps: 21,
        };
        let outcome = run(
            self.rt,
            self.alloc,
            &self.service,
            &mut self.crew,
            &gate,
            shift,
        );
        outcome == Ok(true)
    }

    /// A worker, in slices of 7 steps, makes one with the job of a pass, which is cancelled then, and runs another to its end.
    fn wrong_past(&mut self, pass: &Pass) -> Option<usize> {
        first_wrong(&[
            self.new_slot(1) == Ok(0),
            self.new_slot(1) == Ok(1),
            self.runs_past(pass),
            self.counts_are(21),
            self.is_cancelled(pass),
            self.has_second_ended() == Ok(true),
        ])
    }

    /// The same of the first job of user 1.
    pub(super) fn wrong_of_cancel(&mut self) -> Result<Option<usize>, Memory> {
        let pass = pass_for(self.alloc, 1, 0, THREE_BLOCKS)?;
        Ok(self.wrong_past(&pass))
    }
}

#[test]
fn a_job_is_cancelled_while_a_worker_has_it(rt: HostRuntime) -> Result<(), Fail> {
    assert!(rt; wrong_of(&rt, rt.alloc(), Trial::Cancel)?.is_none());
    Ok(())
}
