//! A job that is out, and the slices of steps that its worker makes.

ghost use Rattle.std.specs.Prelude.{◌≡◌, ◌+◌, ◌≤◌, IfOk, is_some};
ghost use Rattle.gw_step.specs.Job.{IsReached};
ghost use Rattle.gw_scan.specs.Answers.{IsSlice, StaysPaid};
ghost use Rattle.gw_jobs.specs.Passes.{steps_made};

use crate::conclusion::{Conclusion, conclude};
use gw_object::Memory;
use gw_scan::{Sim, Slice, Spec, Status};
use std::alloc::Global;
use std::marker::Model;
use std::mem;

/// A job that a worker owns, with its state, which is the one that the job's lone run has after as many steps. It is made by
/// `Table::take` alone.
#[derive(Drop)]
pub struct Task {
    pub(crate) slot: u32,
    pub(crate) sim: Sim,
    /// What is kept of it, once that is made.
    pub(crate) conclusion: Option<Conclusion>,
}

impl Model for Task {
    ghost use Rattle.gw_jobs.specs.Passes as passes;

    ghost Value = { passes.Task };

    ghost view = { passes.task_of };

    ghost invariant = { passes.IsTask };
}

impl Task {
    /// The slot of its row, from 0.
    pub fn slot(&self) -> u32
        ensures { result ≡ self.now.slot }
    {
        self.slot
    }

    /// What the job runs.
    pub fn spec(&self) -> &Spec
        ensures { result.now ≡ self.now.sim.job }
    {
        self.sim.spec()
    }

    /// The steps that the job has made in all. The job's lone run has its state after as many.
    pub fn steps(&self) -> u64
        ensures steps { result ≡ steps_made self.now }
        ensures reached { IsReached self.now.sim }
    {
        self.sim.steps()
    }

    /// Makes exactly that many steps, or fewer where the job is ended then: `made` is by how many `steps` rises. It needs no
    /// lock, and goes on where the last slice left off. On `Memory` the steps made before stand, as `steps` tells, and the
    /// slice may be tried again.
    ///
    /// While the clock stands, what the state weighs and the entries made so far are together at most what they were.
    pub fn run_slice(&mut self, steps: u32) -> Result<Slice, Memory>
        ensures slot { self.new.slot ≡ self.old.slot }
        ensures job { self.new.sim.job ≡ self.old.sim.job }
        ensures made { IfOk result (λ s. steps_made self.new ≡ steps_made self.old + s.made) }
        ensures all { IfOk result (IsSlice steps) }
        ensures ended { IfOk result (λ slice. slice.ended ≡ is_some self.new.sim.state.ended) }
        ensures rise { steps_made self.old ≤ steps_made self.new }
        ensures most { steps_made self.new ≤ steps_made self.old + steps }
        ensures reached { IsReached self.new.sim }
        ensures moment { StaysPaid self.old.sim self.new.sim }
    {
        drop(mem::replace(&mut self.conclusion, None));
        self.sim.run_slice(steps)
    }

    /// Makes the report of a job that has ended, so that its row need not keep the state when the task is given back. It needs
    /// no lock, and nothing that is told of the task or of the job changes. On `Memory` the row keeps the state, and the
    /// report is made each time it is collected.
    pub fn conclude(&mut self, alloc: Global) -> Result<(), Memory>
        ensures { self.new ≡ self.old }
    {
        if let Status::Ended(end) = self.sim.status() {
            let conclusion = conclude(alloc, &self.sim, end)?;
            drop(mem::replace(&mut self.conclusion, Some(conclusion)));
        }
        Ok(())
    }
}
