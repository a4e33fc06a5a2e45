//! A service that threads share, and its workers.

ghost use Rattle.std.specs.Prelude.{◌≡◌, ◌+◌, ◌≤◌, ◌<◌, vec_len, None, IfOk, IfErr, OnErr};
ghost use Rattle.atomic_table.specs.Seated.{TableId};
ghost use Rattle.gw_pool.specs.Board.{empty_view};
ghost use Rattle.gw_pool.specs.Shares.{AreWhole};
ghost use Rattle.gw_pool.specs.Workers as model;
ghost use Rattle.gw_pool.specs.Workers.{crew_of, RefusesRun};

use crate::board::{Board, Seat};
use crate::crew::Crew;
use crate::faults::PoolFault;
use crate::gate::Gate;
use crate::runs::run_while_short;
use crate::shared::{Shared, new_shared};
use crate::threads::run_all;
use crate::totals::Totals;
use gw_object::Memory;
use std::alloc::Global;
use std::marker::Model;
use std::sync::ledger::{Blank, Ledger};
use std::sync::{Mutex, Wait};
use std::thread::Threads;

/// At most so many workers are run.
const MOST_WORKERS: u32 = 16;

/// A slice has at most so many steps.
const MOST_SLICE: u32 = 1 << 20;

/// A table (docs/service.md) under one lock, for users and workers in many threads, and a progress board beside it. Contracts
/// see it as its board.
#[derive(Drop)]
pub struct Service<R: Ledger, S: Ledger> {
    table: Mutex<Shared<R, S>>,
    board: Board,
}

impl<R: Ledger, S: Ledger> Model for Service<R, S> {
    ghost use Rattle.atomic_table.specs.Seated.{TableId};

    ghost Value = { TableId };

    ghost view = { λ s. s.board };
}

/// The first number out of its range: that of the workers, else that of the steps of a slice.
pub fn range_fault(workers: u32, slice: u32) -> Option<PoolFault>
    ensures { result ≡ model.range_fault workers slice }
{
    if workers == 0 || workers > MOST_WORKERS {
        Some(PoolFault::Workers)
    } else if slice == 0 || slice > MOST_SLICE {
        Some(PoolFault::Slice)
    } else {
        None
    }
}

impl<R: Ledger, S: Ledger> Service<R, S> {
    /// A service without a job, the crew of its workers, and a seat of its board. A fresh blank of 17 parts is handed in for
    /// each of two ledgers that the type parameters name; want of memory drops both.
    pub fn new(
        alloc: Global,
        rows: Blank,
        steps: Blank,
    ) -> Result<(Service<R, S>, Crew<R, S>, Seat), Memory>
        requires names { (rows.name ≡ R.name) × (steps.name ≡ S.name) }
        requires parts { (rows.parts ≡ R.parts) × (steps.parts ≡ S.parts) }
        requires whole { AreWhole rows.parts steps.parts }
        ensures crew { IfOk result (λ r. r.1 ≡ crew_of r.0 0 0) }
        ensures board { IfOk result (λ r. r.2.board ≡ r.0) }
        ensures view { IfOk result (λ r. r.2.view ≡ empty_view) }
    {
        let (board, mut seat) = Board::new(alloc)?;
        let other = board.split_off(&mut seat);
        let (shared, share) = new_shared::<R, S>(alloc, rows, steps)?;
        let table = Mutex::new(shared);
        Ok((Service { table, board }, Crew { share, seat }, other))
    }

    /// The table, for whoever takes its lock. It takes no memory.
    pub fn table(&self) -> &Mutex<Shared<R, S>> {
        &self.table
    }

    /// The progress board. It takes no memory.
    pub fn board(&self) -> &Board
        ensures { result.now ≡ self.now }
    {
        &self.board
    }

    /// The steps that were given back, and how many rows are out: the table tells both, and they are just what the crew counts.
    /// The crew stays as it was. It waits for the lock, and takes no memory.
    pub fn audit<W: Wait>(&self, rt: &W, crew: &mut Crew<R, S>) -> (u128, u32)
        ensures steps { result.0 ≡ crew.old.steps }
        ensures rows { result.1 ≡ crew.old.rows }
        ensures same { crew.new ≡ crew.old }
    {
        crew.audit(&mut self.table.lock(rt))
    }
}

impl<R: Ledger + Send + Sync, S: Ledger + Send + Sync> Service<R, S> {
    /// Runs n workers, numbered from 0, each in a thread of its own, and returns once all have ended. Each takes the job that
    /// is next under the lock, passes the gate, makes a slice of so many steps outside the lock, and the report of a job that
    /// has ended then, gives the job back under it, and publishes the job's steps. It ends where nothing is ready, where the journal is full, where memory is refused (its
    /// task is given back first), and where the table doesn't take its task back. One whose thread can't be made is left out.
    ///
    /// Refused by the first of `Workers`, `Slice`, and then `Memory` or `Spawn`; then no slice was made, and the crew is as it
    /// was.
    pub fn run_workers<G: Gate + Sync, W: Threads + Wait + Sync>(
        &self,
        rt: &W,
        alloc: Global,
        crew: &mut Crew<R, S>,
        n: u32,
        slice: u32,
        gate: &G,
    ) -> Result<Totals, PoolFault>
        requires { crew.old.board ≡ self.now }
        ensures board { crew.new.board ≡ crew.old.board }
        ensures rows { IfOk result (λ t. crew.new.rows ≡ crew.old.rows + vec_len t.strays) }
        ensures steps { IfOk result (λ t. crew.new.steps ≡ crew.old.steps + t.steps) }
        ensures workers { IfOk result (λ t. (0 < t.workers) × (t.workers ≤ n)) }
        ensures endings { IfOk result (λ t. t.short + vec_len t.strays ≤ t.workers) }
        ensures in_range { IfOk result (λ _. model.range_fault n slice ≡ None) }
        ensures refused { IfErr result (RefusesRun (model.range_fault n slice)) }
        ensures same { OnErr result (crew.new ≡ crew.old) }
    {
        if let Some(fault) = range_fault(n, slice) {
            return Err(fault);
        }
        let strays = match Vec::with_capacity(alloc, n as usize) {
            Ok(strays) => strays,
            Err(_) => return Err(PoolFault::Memory),
        };
        self.table.lock(rt).audit(&mut crew.share);
        let share = crew.share.split(u64::from(n));
        let seat = self.board.split_off(&mut crew.seat);
        let gathered = run_all(rt, alloc, self, gate, slice, n, share, seat, strays);
        gathered.settle(&mut crew.share)
    }

    /// Runs n workers as `run_workers` does, and again as long as the run before made steps and left workers short of memory, so
    /// that what memory held up goes on once there is some. It ends too where the table didn't take a task back, and where the
    /// next run is refused, which then counts for nothing.
    ///
    /// `slices` and `steps` are of all runs; `workers`, `short` and `strays` of the last that was made.
    ///
    /// Refused as the first run is; then no slice was made, and the crew is as it was.
    pub fn run_jobs<G: Gate + Sync, W: Threads + Wait + Sync>(
        &self,
        rt: &W,
        alloc: Global,
        crew: &mut Crew<R, S>,
        n: u32,
        slice: u32,
        gate: &G,
    ) -> Result<Totals, PoolFault>
        requires { crew.old.board ≡ self.now }
        ensures board { crew.new.board ≡ crew.old.board }
        ensures rows { IfOk result (λ t. crew.new.rows ≡ crew.old.rows + vec_len t.strays) }
        ensures steps { IfOk result (λ t. crew.new.steps ≡ crew.old.steps + t.steps) }
        ensures workers { IfOk result (λ t. (0 < t.workers) × (t.workers ≤ n)) }
        ensures endings { IfOk result (λ t. t.short + vec_len t.strays ≤ t.workers) }
        ensures in_range { IfOk result (λ _. model.range_fault n slice ≡ None) }
        ensures refused { IfErr result (RefusesRun (model.range_fault n slice)) }
        ensures same { OnErr result (crew.new ≡ crew.old) }
    {
        let mut totals = self.run_workers(rt, alloc, crew, n, slice, gate)?;
        run_while_short(rt, alloc, self, crew, n, slice, gate, &mut totals);
        Ok(totals)
    }
}
