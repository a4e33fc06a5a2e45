//! How many workers are run, and in which slices.

use super::services::{Fixture, Shift, Trial, run, wrong_of};
use gw_pool::{OpenGate, PoolFault, range_fault};
use gw_samples::first_wrong;
use std::sync::Wait;
use std::sync::ledger::Ledger;
use std::test::Fail;
use std::thread::Threads;

/// Workers and the steps of a slice that are out of range, and how they are refused.
const OUT_OF_RANGE: [(u32, u32, PoolFault); 6] = [
    (0, 7, PoolFault::Workers),
    (17, 7, PoolFault::Workers),
    (u32::MAX, 0, PoolFault::Workers),
    (0, 0, PoolFault::Workers),
    (2, 0, PoolFault::Slice),
    (16, (1 << 20) + 1, PoolFault::Slice),
];

/// The most workers and the longest slices, of which a job takes one.
const MOST: Shift = Shift {
    workers: 16,
    slice: 1 << 20,
    slices: 1,
    steps: 14,
};

/// A worker who finds nothing to do.
const IDLE: Shift = Shift {
    workers: 1,
    slice: 1,
    slices: 0,
    steps: 0,
};

impl<R: Ledger + Send + Sync, S: Ledger + Send + Sync, W: Threads + Wait + Sync> Fixture<
    '_,
    R,
    S,
    W,
> {
    /// How the workers of a shift do whom no gate holds.
    fn run_freely(&mut self, shift: Shift) -> Result<bool, PoolFault> {
        run(
            self.rt,
            self.alloc,
            &self.service,
            &mut self.crew,
            &OpenGate,
            shift,
        )
    }

    /// Whether all that is out of range is refused as it must be.
    fn refuses_all(&mut self) -> bool {
        for (workers, slice, fault) in OUT_OF_RANGE {
            let shift = Shift {
                workers,
                slice,
                ..IDLE
            };
            if self.run_freely(shift) != Err(fault) {
                return false;
            }
        }
        true
    }

    /// With a job of 14 steps, out of range nothing is done, 16 workers with the longest slices do it, and one worker finds
    /// nothing left to do.
    pub(super) fn wrong_of_ranges(&mut self) -> Option<usize> {
        first_wrong(&[
            self.new_slot(1) == Ok(0),
            self.refuses_all(),
            self.counts_are(0),
            self.run_freely(MOST) == Ok(true),
            self.run_freely(IDLE) == Ok(true),
            self.counts_are(14),
        ])
    }
}

#[test]
fn numbers_out_of_range_are_refused(rt: HostRuntime) -> Result<(), Fail> {
    assert!(rt; range_fault(0, 0) == Some(PoolFault::Workers));
    assert!(rt; range_fault(16, 1 << 20).is_none());
    assert!(rt; wrong_of(&rt, rt.alloc(), Trial::Ranges)?.is_none());
    Ok(())
}
