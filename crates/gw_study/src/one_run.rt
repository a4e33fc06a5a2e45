//! One run of a study.

ghost use Rattle.std.specs.Prelude.{◌≡◌, ◌⊎◌, ◌<◌, ◌≤◌, ◌<ℤ◌, ◌≤ℤ◌, pos, None, Some, true, false, IfOk, OnOk, length, ◌^◌};
ghost use Rattle.gw_step.specs.Job.{IsFinal, IsReached, Step};
ghost use Rattle.gw_report.specs.Figures.{figures_of};
ghost use Rattle.gw_figures.specs.Labels.{labels, labels_of};
ghost use Rattle.gw_study.specs.Runs as model;
ghost use Rattle.gw_study.specs.Runs.{IsBeforeCount, IsFirstWith, IsLast, IsRunOf, IsKept, run_job};

use crate::seeds::seeds_of;
use crate::streams::overdraws_of;
use gw_answers::{BUDGET, run_to_end};
use gw_figures::{Figure, Run, Window, changes, values};
use gw_object::{Memory, Parts};
use gw_report::Figures;
use gw_scan::{End, Sim, Spec, Status};
use std::alloc::Global;

/// Whether a run goes on and has more than this left to count.
fn goes_on(sim: &Sim, left: u64) -> bool
    ensures on { result ≡ true → (sim.now.state.ended ≡ None) × (pos left <ℤ sim.now.state.count) }
    ensures over { result ≡ false → (sim.now.state.count ≤ℤ pos left) ⊎ IsFinal sim.now.state }
    ensures reached { IsReached sim.now }
{
    match sim.status() {
        Status::Running => i128::from(left) < i128::from(sim.count()),
        Status::Ended(_) => false,
    }
}

/// Makes the next step of a run that goes on.
fn step_on(sim: &mut Sim) -> Result<(), Memory>
    requires { sim.old.state.ended ≡ None }
    ensures made { OnOk result (Step sim.old.job sim.old.state sim.new.state) }
    ensures job { sim.new.job ≡ sim.old.job }
{
    sim.step()?;
    Ok(())
}

/// Makes steps until no more than this is left to count, or a named end stands. Before its state more was left.
fn count_down(sim: &mut Sim, left: u64) -> Result<(), Memory>
    requires { IsBeforeCount sim.old.job left sim.old.state.steps }
    ensures job { sim.new.job ≡ sim.old.job }
    ensures first { OnOk result (IsFirstWith sim.old.job left sim.new.state) }
{
    while goes_on(sim, left) {
        step_on(sim)?;
    }
    Ok(())
}

/// The named end that stands.
fn end_of(sim: &Sim) -> End
    requires { IsFinal sim.now.state }
    ensures { sim.now.state.ended ≡ Some result }
{
    match sim.status() {
        Status::Ended(end) => end,
        Status::Running => unreachable!(),
    }
}

/// The figures of the states of a run with which its window begins, is half over and ends.
#[derive(Drop)]
struct Stops {
    start: Figures,
    middle: Figures,
    last: Figures,
}

/// What is kept of a run that ended so, by these states.
fn kept(
    alloc: Global,
    parts: &Parts,
    figures: &[Figure],
    whole: bool,
    end: End,
    stops: &Stops,
) -> Result<Run, Memory>
    requires { length parts.now.blocks ≤ 2 ^ 32 }
    ensures { IfOk result (IsKept parts.now (labels figures.now) whole end stops.now) }
{
    let whole_window = Window {
        whole,
        start: &stops.start,
        end: &stops.last,
    };
    let first_half = Window {
        whole,
        start: &stops.start,
        end: &stops.middle,
    };
    let second_half = Window {
        whole,
        start: &stops.middle,
        end: &stops.last,
    };
    let before = values(alloc, parts, &first_half)?;
    let after = values(alloc, parts, &second_half)?;
    let trend = changes(alloc, figures, &before, &after)?;
    let values = values(alloc, parts, &whole_window)?;
    let steps = stops.last.steps();
    let overdraws = overdraws_of(alloc, parts, steps, &values)?;
    Ok(Run {
        end,
        steps,
        values,
        trend,
        overdraws,
    })
}

/// Makes the steps of a run, and what is kept of it.
fn run_through(alloc: Global, sim: &mut Sim, figures: &[Figure], from: u64) -> Result<Run, Memory>
    requires budget { sim.old.job.budget ≡ BUDGET }
    requires starts { sim.old.state.steps ≡ 0 }
    requires figures { labels figures.now ≡ labels_of sim.old.job.parts }
    ensures { IfOk result (IsRunOf sim.old.job from) }
{
    let rest = sim.spec().count().saturating_sub(from);
    count_down(sim, rest)?;
    let start = Figures::of(alloc, sim)?;
    count_down(sim, rest / 2)?;
    let middle = Figures::of(alloc, sim)?;
    run_to_end(sim)?;
    let last = Figures::of(alloc, sim)?;
    let stops = Stops {
        start,
        middle,
        last,
    };
    let parts = sim.spec().verified_object().object().parts();
    kept(alloc, parts, figures, from == 0, end_of(sim), &stops)
}

/// Runs a job, whose budget is that of a run, and answers what is kept of it.
fn run_of(alloc: Global, spec: Spec, figures: &[Figure], from: u64) -> Result<Run, Memory>
    requires budget { spec.budget ≡ BUDGET }
    requires figures { labels figures.now ≡ labels_of spec.parts }
    ensures { IfOk result (IsRunOf spec from) }
{
    match Sim::start(alloc, spec) {
        Ok(mut sim) => {
            let run = run_through(alloc, &mut sim, figures, from);
            drop(sim);
            run
        }
        Err((spec, _)) => {
            drop(spec);
            Err(Memory)
        }
    }
}

/// The run of a number of a job's object.
pub(crate) fn numbered_run(
    alloc: Global,
    spec: &Spec,
    figures: &[Figure],
    number: u32,
    from: u64,
) -> Result<Run, Memory>
    requires number { number < 512 }
    requires budget { spec.now.budget ≡ BUDGET }
    requires figures { labels figures.now ≡ labels_of spec.now.parts }
    ensures { IfOk result (IsRunOf (run_job spec.now number) from) }
{
    let seeds = seeds_of(number);
    match spec.reseed(&seeds, spec.count()) {
        Ok(spec) => run_of(alloc, spec, figures, from),
        Err(_) => Err(Memory),
    }
}
