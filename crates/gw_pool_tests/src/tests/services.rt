//! What users and workers do with a service, and whether it comes out as it must.

ghost use Rattle.std.specs.Prelude.{◌≡◌};
ghost use Rattle.gw_pool.specs.Shares.{AreWhole};

use super::calls::slot_of;
use super::jobs::spec_of;
use gw_jobs::{JobFault, Pass, Progress, State};
use gw_object::Memory;
use gw_pool::{Crew, Gate, PoolFault, Seat, Service, Totals};
use gw_samples::{THREE_BLOCKS, THREE_BLOCKS_REPORT};
use std::alloc::Global;
use std::marker::Brand;
use std::sync::Wait;
use std::sync::ledger::{Blank, Ledger};
use std::thread::Threads;

/// A service with its crew and a seat of its board, and what runs it.
#[derive(Drop)]
pub(super) struct Fixture<'a, R: Ledger, S: Ledger, W: Wait> {
    pub(super) rt: &'a W,
    pub(super) alloc: Global,
    pub(super) service: Service<R, S>,
    pub(super) crew: Crew<R, S>,
    pub(super) seat: Seat,
    ghost crewed: { crew.board ≡ service },
    ghost seated: { seat.board ≡ service },
}

/// What is tried with a new service.
#[derive(Clone, Copy)]
pub(super) enum Trial {
    /// Two workers meet.
    Meeting,
    /// A job is cancelled while a worker has it.
    Cancel,
    /// Numbers are out of range.
    Ranges,
    /// Several users have jobs.
    Users,
}

/// The place, from 0, of the first that isn't as it must be in a new service.
fn wrong_in_service<R: Ledger + Send + Sync, S: Ledger + Send + Sync, W: Threads + Wait + Sync>(
    rt: &W,
    alloc: Global,
    rows: Blank,
    steps: Blank,
    trial: Trial,
) -> Result<Option<usize>, Memory>
    requires names { (rows.name ≡ R.name) × (steps.name ≡ S.name) }
    requires parts { (rows.parts ≡ R.parts) × (steps.parts ≡ S.parts) }
    requires whole { AreWhole rows.parts steps.parts }
{
    let (service, crew, seat) = Service::<R, S>::new(alloc, rows, steps)?;
    let mut fixture = Fixture {
        rt,
        alloc,
        service,
        crew,
        seat,
    };
    match trial {
        Trial::Meeting => Ok(fixture.wrong_of_meeting()),
        Trial::Cancel => fixture.wrong_of_cancel(),
        Trial::Ranges => Ok(fixture.wrong_of_ranges()),
        Trial::Users => Ok(fixture.wrong_of_users()),
    }
}

/// The same of ledgers of its own.
pub(super) fn wrong_of<W: Threads + Wait + Sync>(
    rt: &W,
    alloc: Global,
    trial: Trial,
) -> Result<Option<usize>, Memory> {
    wrong_in_service::<Brand, Brand, W>(rt, alloc, Blank::new(17), Blank::new(17), trial)
}

impl<R: Ledger, S: Ledger, W: Wait> Fixture<'_, R, S, W> {
    /// The slot of a new job of a user, which is done after 14 steps, or why there is none.
    pub(super) fn new_slot(&self, user: u64) -> Result<u32, JobFault> {
        let spec = match spec_of(self.alloc, THREE_BLOCKS) {
            Ok(spec) => spec,
            Err(_) => return Err(JobFault::Memory),
        };
        let table = self.service.table();
        slot_of(table.lock(self.rt).submit(self.alloc, user, spec))
    }

    /// Whether a job stands so, after so many steps.
    pub(super) fn stands(&self, pass: &Pass, state: State, steps: u64) -> bool {
        let progress = self.service.table().lock(self.rt).poll(pass);
        progress == Ok(Progress { state, steps })
    }

    /// Collects a job: whether its report is that of one that is done, or why it isn't collected.
    pub(super) fn collect_report(&self, pass: &Pass) -> Result<bool, JobFault> {
        let reply = self.service.table().lock(self.rt).collect(self.alloc, pass);
        match reply {
            Ok(reply) => Ok(reply.report.as_slice() == THREE_BLOCKS_REPORT),
            Err(fault) => Err(fault),
        }
    }

    /// Whether the table and the crew count these steps, and no row that is out.
    pub(super) fn counts_are(&mut self, steps: u128) -> bool {
        let (table_steps, out) = self.service.audit(self.rt, &mut self.crew);
        table_steps == steps && out == 0 && self.crew.steps() == steps && self.crew.rows() == 0
    }
}

/// Workers and the steps of a slice, and the slices and the steps that come of it.
#[derive(Clone, Copy)]
pub(super) struct Shift {
    pub(super) workers: u32,
    pub(super) slice: u32,
    pub(super) slices: u64,
    pub(super) steps: u128,
}

/// Runs the workers of a shift: whether just that comes of it, and none of them runs short or leaves a stray; or why they aren't
/// run.
pub(super) fn run<
    R: Ledger + Send + Sync,
    S: Ledger + Send + Sync,
    W: Threads + Wait + Sync,
    G: Gate + Sync,
>(
    rt: &W,
    alloc: Global,
    service: &Service<R, S>,
    crew: &mut Crew<R, S>,
    gate: &G,
    shift: Shift,
) -> Result<bool, PoolFault>
    requires { crew.old.board ≡ service.now }
    ensures { crew.new.board ≡ crew.old.board }
{
    match service.run_workers(rt, alloc, crew, shift.workers, shift.slice, gate) {
        Ok(totals) => Ok(totals_are(&totals, shift)),
        Err(fault) => Err(fault),
    }
}

/// Whether workers' totals are those of a shift, and none of them ran short or left a stray.
fn totals_are(totals: &Totals, shift: Shift) -> bool {
    totals.workers == shift.workers
        && totals.slices == shift.slices
        && totals.steps == shift.steps
        && totals.short == 0
        && totals.strays.is_empty()
}

/// Cancels a job of a service.
pub(super) fn cancel<R: Ledger, S: Ledger, W: Wait>(
    rt: &W,
    service: &Service<R, S>,
    pass: &Pass,
) -> Result<(), JobFault> {
    let cancelled = service.table().lock(rt).cancel(pass);
    cancelled
}
