//! What stands once all users are through and nobody works any more, compared with what they were told.

ghost use Rattle.std.specs.Prelude.{◌≡◌};

use crate::calls::collect;
use crate::counts::{Tally, add, count};
use crate::diary::{Diary, MOST_JOBS};
use crate::row::Row;
use crate::samples::Sample;
use crate::works::Works;
use gw_object::Memory;
use gw_pool::{Crew, Seat, Service};
use std::alloc::Global;
use std::sync::Wait;
use std::sync::ledger::Ledger;

/// What a service's jobs come to together.
#[derive(Drop)]
struct Sums {
    /// How often each slot was given to a job.
    slots: Vec<u8>,
    /// The jobs.
    jobs: u64,
    /// The steps.
    steps: u128,
    /// The slices that they took.
    slices: u64,
    /// Whether a user was told that there were all that there may be.
    was_full: bool,
}

/// The slices that so many steps take.
fn slices_of(steps: u64, slice: u64) -> u64 {
    if slice == 0 {
        return 0;
    }
    steps.div_ceil(slice)
}

impl Sums {
    /// Those of no job.
    fn new(alloc: Global) -> Result<Sums, Memory> {
        let mut slots = Vec::with_capacity(alloc, MOST_JOBS as usize)?;
        for _ in 0..MOST_JOBS {
            slots.push(0u8)?;
        }
        Ok(Sums {
            slots,
            jobs: 0,
            steps: 0,
            slices: 0,
            was_full: false,
        })
    }

    /// Counts a job.
    fn add(&mut self, row: &Row, slice: u64) {
        if let Some(times) = self.slots.get_mut(row.pass.slot() as usize) {
            *times = times.saturating_add(1);
        }
        count(&mut self.jobs);
        self.steps = self.steps.saturating_add(u128::from(row.steps));
        self.slices = self.slices.saturating_add(slices_of(row.steps, slice));
    }

    /// Whether the slots of the jobs are those from 0 on, each once, and all that there may be where a user was told so.
    fn has_all_slots(&self) -> bool {
        for slot in 0..self.slots.len() {
            if self.slots[slot] != u8::from((slot as u64) < self.jobs) {
                return false;
            }
        }
        !self.was_full || self.jobs == MOST_JOBS
    }
}

/// Collects a job, which has to be ended or cancelled, with its steps published.
fn settle_row<R: Ledger, S: Ledger, W: Wait>(
    rt: &W,
    alloc: Global,
    service: &Service<R, S>,
    seat: &mut Seat,
    samples: &[Sample],
    slice: u64,
    row: &mut Row,
    tally: &mut Tally,
)
    requires { seat.old.board ≡ service.now }
    ensures { seat.new.board ≡ seat.old.board }
{
    collect(alloc, &service.table().lock(rt), samples, slice, row, tally);
    if row.may_run() {
        count(&mut tally.differences.jobs);
    }
    let slot = row.pass.slot();
    if slot < 1024 && service.board().progress(seat, slot) != row.steps {
        count(&mut tally.differences.published);
    }
}

/// Collects each job of a thread's users, and counts them all.
fn settle_diary<R: Ledger, S: Ledger, W: Wait>(
    rt: &W,
    alloc: Global,
    service: &Service<R, S>,
    seat: &mut Seat,
    samples: &[Sample],
    slice: u64,
    diary: &mut Diary,
    sums: &mut Sums,
)
    requires { seat.old.board ≡ service.now }
    ensures { seat.new.board ≡ seat.old.board }
{
    for row in diary.rows.iter_mut() {
        settle_row(
            rt,
            alloc,
            service,
            seat,
            samples,
            slice,
            row,
            &mut diary.tally,
        );
        sums.add(row, slice);
    }
    sums.was_full |= diary.was_full;
}

/// Whether the table, the crew and all runs of workers count the steps of the jobs, and no row that is out.
fn are_counted<R: Ledger, S: Ledger, W: Wait>(
    rt: &W,
    service: &Service<R, S>,
    crew: &mut Crew<R, S>,
    works: Works,
    steps: u128,
) -> bool {
    service.audit(rt, crew) == (steps, 0)
        && crew.steps() == steps
        && crew.rows() == 0
        && works.steps == steps
}

/// Want of memory, where the users of a thread stopped for it.
fn all_did_all(diaries: &[Diary]) -> Result<(), Memory> {
    for diary in diaries {
        if diary.was_short {
            return Err(Memory);
        }
    }
    Ok(())
}

/// Collects each job, and compares what they come to together with what the service and its workers count.
pub fn settle<R: Ledger, S: Ledger, W: Wait>(
    rt: &W,
    alloc: Global,
    service: &Service<R, S>,
    crew: &mut Crew<R, S>,
    seat: &mut Seat,
    samples: &[Sample],
    slice: u64,
    works: Works,
    diaries: &mut Vec<Diary>,
    tally: &mut Tally,
) -> Result<(), Memory>
    requires { seat.old.board ≡ service.now }
{
    let mut sums = Sums::new(alloc)?;
    for diary in diaries.iter_mut() {
        settle_diary(rt, alloc, service, seat, samples, slice, diary, &mut sums);
        tally.add(diary.tally);
    }
    if !sums.has_all_slots() {
        count(&mut tally.differences.slots);
    }
    if !are_counted(rt, service, crew, works, sums.steps) {
        count(&mut tally.differences.steps);
    }
    if works.slices != sums.slices {
        count(&mut tally.differences.slices);
    }
    add(&mut tally.differences.runs, works.faults);
    all_did_all(diaries.as_slice())
}
