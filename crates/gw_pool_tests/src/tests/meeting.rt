//! Two workers that meet, each with a job.

use super::jobs::pass_for;
use super::services::{Fixture, Shift, Trial, run, wrong_of};
use gw_jobs::State;
use gw_pool::Gate;
use gw_samples::{THREE_BLOCKS, first_wrong};
use std::sync::Wait;
use std::sync::atomic::{AtomicU64, Ordering};
use std::sync::ledger::Ledger;
use std::test::Fail;
use std::thread;
use std::thread::Threads;

/// How often a worker yields at most while it waits for the other.
const YIELDS: u32 = 1_000_000;

/// Holds each of two jobs until the other was taken too, and counts who waited in vain.
#[derive(Drop)]
struct Meeting {
    first: AtomicU64,
    second: AtomicU64,
    misses: AtomicU64,
}

impl Meeting {
    /// A gate that nobody has passed.
    fn new() -> Meeting {
        Meeting {
            first: AtomicU64::new(0),
            second: AtomicU64::new(0),
            misses: AtomicU64::new(0),
        }
    }
}

/// Whether a flag is set before so many yields.
fn is_awaited(flag: &AtomicU64) -> bool {
    for _ in 0..YIELDS {
        if flag.load(Ordering::SeqCst) == 1 {
            return true;
        }
        thread::yield_now();
    }
    false
}

impl Gate for Meeting {
    fn before(&self, _worker: u32, slot: u32) {
        let (own, other) = if slot == 0 {
            (&self.first, &self.second)
        } else {
            (&self.second, &self.first)
        };
        own.store(1, Ordering::SeqCst);
        if !is_awaited(other) {
            self.misses.fetch_add(1, Ordering::SeqCst);
        }
    }
}

impl<R: Ledger + Send + Sync, S: Ledger + Send + Sync, W: Threads + Wait + Sync> Fixture<
    '_,
    R,
    S,
    W,
> {
    /// Whether the job of a user in a slot ended after 14 steps, with its report.
    fn is_told(&self, user: u64, slot: u32) -> bool {
        match pass_for(self.alloc, user, slot, THREE_BLOCKS) {
            Ok(pass) => {
                self.stands(&pass, State::Ended, 14) && self.collect_report(&pass) == Ok(true)
            }
            Err(_) => false,
        }
    }

    /// Whether two slots are said to have made 14 steps, and a third none.
    fn is_published(&mut self) -> bool {
        let first = self.service.board().progress(&mut self.seat, 0);
        let second = self.service.board().progress(&mut self.seat, 1);
        let idle = self.service.board().progress(&mut self.seat, 5);
        first == 14 && second == 14 && idle == 0
    }

    /// Whether two workers make 4 slices of 7 steps.
    fn runs_two(&mut self, gate: &Meeting) -> bool {
        let shift = Shift {
            workers: 2,
            slice: 7,
            slices: 4,
            steps: 28,
        };
        let outcome = run(
            self.rt,
            self.alloc,
            &self.service,
            &mut self.crew,
            gate,
            shift,
        );
        outcome == Ok(true)
    }

    /// Two workers run a job each, and neither waits for the other in vain.
    pub(super) fn wrong_of_meeting(&mut self) -> Option<usize> {
        let gate = Meeting::new();
        first_wrong(&[
            self.new_slot(1) == Ok(0),
            self.new_slot(2) == Ok(1),
            self.runs_two(&gate),
            gate.misses.load(Ordering::SeqCst) == 0,
            self.counts_are(28),
            self.is_told(1, 0),
            self.is_told(2, 1),
            self.is_published(),
        ])
    }
}

#[test]
fn two_workers_run_side_by_side(rt: HostRuntime) -> Result<(), Fail> {
    assert!(rt; wrong_of(&rt, rt.alloc(), Trial::Meeting)?.is_none());
    Ok(())
}
