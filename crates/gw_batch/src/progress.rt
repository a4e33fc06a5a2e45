//! How far a batch is, on standard error.

use crate::ticket::Ticket;
use gw_jobs::State;
use gw_pool::{Gate, Shared};
use std::collections::VecDeque;
use std::io::Eprint;
use std::sync::atomic::{AtomicU64, Ordering};
use std::sync::ledger::Ledger;
use std::sync::{Mutex, Wait};
use std::time::Clock;

/// Between two lines there are so many milliseconds, or more.
const BETWEEN_LINES: u64 = 1_000;

/// The time on a clock, in milliseconds; 0 where it can't be read.
fn milliseconds<W: Clock>(rt: &W) -> u64 {
    match rt.monotonic() {
        Ok(time) => u64::try_from(time.as_millis()).unwrap_or(u64::MAX),
        Err(_) => 0,
    }
}

/// How far a batch is, and when that is told next.
#[derive(Drop)]
pub(crate) struct Progress {
    is_shown: bool,
    jobs: usize,
    ended: usize,
    steps: u128,
    next: AtomicU64,
}

impl Progress {
    /// That of a batch of so many entries, of which none is told yet.
    pub(crate) fn new<W: Clock>(rt: &W, is_shown: bool, jobs: usize) -> Progress {
        Progress {
            is_shown,
            jobs,
            ended: 0,
            steps: 0,
            next: AtomicU64::new(milliseconds(rt).saturating_add(BETWEEN_LINES)),
        }
    }

    /// Whether a line is due; then the next is due later.
    fn is_due<W: Clock>(&self, rt: &W) -> bool {
        if !self.is_shown {
            return false;
        }
        let now = milliseconds(rt);
        let next = self.next.load(Ordering::SeqCst);
        let later = now.saturating_add(BETWEEN_LINES);
        now >= next
            && self
                .next
                .compare_exchange(next, later, Ordering::SeqCst, Ordering::SeqCst)
                .is_ok()
    }

    /// Tells that so many jobs more have ended, and so many steps more are made, than at the last [`Progress::add`].
    fn show<W: Eprint>(&self, rt: &W, ended: usize, steps: u128) {
        let ended = self.ended.saturating_add(ended);
        let steps = self.steps.saturating_add(steps);
        let _ = eprintln!(rt; "{ended} of {} jobs, {steps} steps", self.jobs);
    }

    /// Adds jobs that ended, and the steps that were made of them.
    pub(crate) fn add(&mut self, ended: usize, steps: u128) {
        self.ended = self.ended.saturating_add(ended);
        self.steps = self.steps.saturating_add(steps);
    }

    /// Tells how far the batch is at its end.
    pub(crate) fn finish<W: Eprint>(&self, rt: &W) {
        if self.is_shown {
            self.show(rt, 0, 0);
        }
    }
}

/// Whoever watches workers at their gate, and tells now and then how far they are.
#[derive(Drop)]
pub(crate) struct Watch<'a, R: Ledger, S: Ledger, W: Wait + Eprint + Clock> {
    /// The handle by which it reads the clock, waits for the lock, and tells.
    pub(crate) rt: &'a W,
    /// Where it looks for jobs that ended.
    pub(crate) table: &'a Mutex<Shared<R, S>>,
    /// The tickets of the jobs that the workers run.
    pub(crate) tickets: &'a VecDeque<Ticket>,
    /// How far the batch was before.
    pub(crate) progress: &'a Progress,
}

impl<R: Ledger, S: Ledger, W: Wait + Eprint + Clock> Watch<'_, R, S, W> {
    /// Whether nothing is to be made any more of a ticket's job.
    fn has_ended(&self, ticket: &Ticket) -> bool {
        match ticket {
            Ticket::Submitted(pass) => match self.table.lock(self.rt).poll(pass) {
                Ok(progress) => progress.state == State::Ended,
                Err(_) => true,
            },
            Ticket::Refused(_) | Ticket::Broken(_) => true,
        }
    }

    /// How many jobs have ended.
    fn ended(&self) -> usize {
        let mut ended = 0usize;
        for ticket in self.tickets.iter() {
            if self.has_ended(ticket) {
                ended = ended.saturating_add(1);
            }
        }
        ended
    }
}

impl<R: Ledger, S: Ledger, W: Wait + Eprint + Clock> Gate for Watch<'_, R, S, W> {
    fn before(&self, _worker: u32, _slot: u32) {
        if self.progress.is_due(self.rt) {
            let steps = self.table.lock(self.rt).steps();
            self.progress.show(self.rt, self.ended(), steps);
        }
    }
}
