//! Slices: many steps of a job in one call.

ghost use Rattle.std.specs.Prelude.{◌≡◌, ◌+◌, ◌≤◌, ◌^◌, min, IfOk, OnOk, is_some, None};
ghost use Rattle.gw_machine.specs.Slots.{greatest_set};
ghost use Rattle.gw_step.specs.Job.{IsReached};
ghost use Rattle.gw_scan.specs.Answers.{Advances, IsSlice, StaysPaid, MakesSliceOn};
ghost use Rattle.gw_scan.specs.SimView.{progress_on};

use crate::both::nothing_before;
use crate::scan::step_past_budget;
use crate::sim::Sim;
use crate::spec::Spec;
use gw_machine::Machine;
use gw_members::Memory;

/// What a slice came to.
#[derive(Clone, Copy, PartialEq, Eq)]
pub struct Slice {
    /// The steps that it made.
    pub made: u32,
    /// Whether the job is ended now.
    pub ended: bool,
}

/// How many steps a job has made at the most after so many more, where it has made `first`: its budget allows no more.
fn most_after(first: u64, steps: u32, budget: u64) -> u64
    requires { first ≤ 2 ^ 40 }
    ensures { result ≡ min (first + steps) budget }
{
    (first + u64::from(steps)).min(budget)
}

/// Makes steps of a job until it has made so many in all, which its budget allows, or is ended. On `Memory` the steps made
/// before stand.
fn run_until(spec: &Spec, machine: &mut Machine, until: u64) -> Result<(), Memory>
    requires reached { IsReached (progress_on spec.now machine.old) }
    requires slots { machine.old.last ≡ greatest_set spec.now.parts.blocks }
    requires later { machine.old.steps ≤ until }
    requires allowed { until ≤ spec.now.budget }
    ensures all { OnOk result (machine.new.ended ≡ None → machine.new.steps ≡ until) }
    ensures reached { IsReached (progress_on spec.now machine.new) }
    ensures slots { machine.new.last ≡ machine.old.last }
    ensures rise { machine.old.steps ≤ machine.new.steps }
    ensures most { machine.new.steps ≤ until }
{
    let verified = spec.verified_object();
    let decoded = spec.decoded();
    let mut before = nothing_before(machine.streams());
    if machine.named_end().is_some() {
        return Ok(());
    }
    while machine.steps() < until {
        if step_past_budget(machine, verified, decoded, &mut before)? {
            return Ok(());
        }
    }
    machine.end_at_budget(spec.budget());
    Ok(())
}

/// Makes so many steps of a job, or fewer where it is ended then. On `Memory` the steps made before stand.
fn run(spec: &Spec, machine: &mut Machine, steps: u32) -> Result<Slice, Memory>
    requires reached { IsReached (progress_on spec.now machine.old) }
    requires slots { machine.old.last ≡ greatest_set spec.now.parts.blocks }
    ensures made { IfOk result (MakesSliceOn spec.now steps machine.old machine.new) }
    ensures advances { Advances steps
        (progress_on spec.now machine.old) (progress_on spec.now machine.new) }
    ensures slots { machine.new.last ≡ machine.old.last }
{
    let first = machine.steps();
    let until = most_after(first, steps, spec.budget());
    run_until(spec, machine, until)?;
    let made = (machine.steps() - first) as u32;
    let ended = machine.named_end().is_some();
    Ok(Slice { made, ended })
}

impl Sim {
    /// Makes exactly that many steps, or fewer where the job is ended then: `made` is by how many `steps` rises. On `Memory`
    /// the steps made before stand, as `steps` tells, and the slice may be tried again.
    ///
    /// While the clock stands, what the state weighs and the entries made so far are together at most what they were.
    pub fn run_slice(&mut self, steps: u32) -> Result<Slice, Memory>
        ensures job { self.new.job ≡ self.old.job }
        ensures made { IfOk result (λ s. self.new.state.steps ≡ self.old.state.steps + s.made) }
        ensures all { IfOk result (IsSlice steps) }
        ensures ended { IfOk result (λ slice. slice.ended ≡ is_some self.new.state.ended) }
        ensures rise { self.old.state.steps ≤ self.new.state.steps }
        ensures most { self.new.state.steps ≤ self.old.state.steps + steps }
        ensures reached { IsReached self.new }
        ensures moment { StaysPaid self.old self.new }
    {
        run(&self.spec, &mut self.machine, steps)
    }
}
