//! The workers of a service, which are run again and again.

ghost use Rattle.std.specs.Prelude.{◌≡◌};

use crate::counts::count;
use crate::shift::Shift;
use gw_pool::{Crew, OpenGate, Service, Totals};
use std::alloc::Global;
use std::sync::Wait;
use std::sync::atomic::{AtomicU64, Ordering};
use std::sync::ledger::Ledger;
use std::thread;
use std::thread::Threads;

/// What the runs of a service's workers did, all together.
#[derive(Clone, Copy)]
pub struct Works {
    /// The slices.
    pub slices: u64,
    /// The steps.
    pub steps: u128,
    /// Runs that were refused, ran short of memory, or left a stray.
    pub faults: u64,
}

impl Works {
    /// There was no run.
    pub fn new() -> Works {
        Works {
            slices: 0,
            steps: 0,
            faults: 0,
        }
    }

    /// Counts a run.
    fn add(&mut self, totals: &Totals) {
        self.slices = self.slices.saturating_add(totals.slices);
        self.steps = self.steps.saturating_add(totals.steps);
        if totals.short > 0 || !totals.strays.is_empty() {
            count(&mut self.faults);
        }
    }
}

/// Runs workers until no job is ready.
pub fn run_once<R: Ledger + Send + Sync, S: Ledger + Send + Sync, W: Threads + Wait + Sync>(
    rt: &W,
    alloc: Global,
    service: &Service<R, S>,
    crew: &mut Crew<R, S>,
    shift: Shift,
    works: &mut Works,
)
    requires { crew.old.board ≡ service.now }
    ensures { crew.new.board ≡ crew.old.board }
{
    let Shift { workers, slice, .. } = shift;
    match service.run_jobs(rt, alloc, crew, workers, slice, &OpenGate) {
        Ok(totals) => {
            works.add(&totals);
            drop(totals);
        }
        Err(_) => count(&mut works.faults),
    }
}

/// Runs workers again and again until so many threads of users are through, and once more then.
pub fn run_until<R: Ledger + Send + Sync, S: Ledger + Send + Sync, W: Threads + Wait + Sync>(
    rt: &W,
    alloc: Global,
    service: &Service<R, S>,
    crew: &mut Crew<R, S>,
    shift: Shift,
    through: &AtomicU64,
    threads: u64,
) -> Works
    requires { crew.old.board ≡ service.now }
    ensures { crew.new.board ≡ crew.old.board }
{
    let mut works = Works::new();
    for _ in rt.forever() {
        let is_last = through.load(Ordering::SeqCst) >= threads;
        run_once(rt, alloc, service, crew, shift, &mut works);
        if is_last {
            break;
        }
        thread::yield_now();
    }
    works
}
