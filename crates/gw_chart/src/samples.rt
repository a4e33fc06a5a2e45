//! A run, looked at 500 times, and what it was like in between.

ghost use Rattle.std.specs.Prelude.{◌≡◌, ◌≤◌, ◌≤ℤ◌, Some, IfOk, OnOk};
ghost use Rattle.gw_step.specs.Job.{IsReached, start_of};
ghost use Rattle.gw_answers.specs.Running.{AreStillAt, IsOver};
ghost use Rattle.gw_chart.specs.Samples as model;
ghost use Rattle.gw_chart.specs.Looks.{HasLooked};

use crate::bands::{Band, bands_now, widen};
use crate::contents::contents;
use crate::window::{Window, moment};
use gw_answers::{BUDGET, Time, is_over, run_past};
use gw_object::{Items, Memory};
use gw_scan::Sim;
use std::alloc::Global;

/// What was seen of a run in a window.
#[derive(Drop)]
pub(crate) struct Samples {
    /// What stood in each entity at each moment.
    pub(crate) rows: Vec<Items<i64>>,
    /// The least and the greatest of what stood in each entity from each moment to the next.
    pub(crate) bands: Vec<Items<Band>>,
}

/// What stands in each entity when the clock has gone past a time, or the run has ended.
fn sample(alloc: Global, sim: &mut Sim, time: Time) -> Result<Items<i64>, Memory>
    requires budget { sim.old.job.budget ≡ BUDGET }
    requires still { AreStillAt sim.old.job time.0 0 sim.old.state.steps }
    ensures stood { IfOk result (model.StoodAt sim.old.job time.0) }
    ensures still { OnOk result (AreStillAt sim.old.job time.0 0 sim.new.state.steps) }
    ensures job { sim.new.job ≡ sim.old.job }
{
    run_past(time, sim)?;
    contents(alloc, sim)
}

/// The time at which the clock stands.
fn now(sim: &Sim) -> Time
    ensures { result.0 ≡ sim.now.state.clock }
{
    Time(sim.clock())
}

/// Makes steps until the clock has moved, or the run has ended.
fn run_on(sim: &mut Sim) -> Result<(), Memory>
    requires budget { sim.old.job.budget ≡ BUDGET }
    ensures job { sim.new.job ≡ sim.old.job }
    ensures over { OnOk result (IsOver sim.old.state.clock sim.new.state) }
    ensures still { OnOk result (AreStillAt sim.old.job sim.old.state.clock sim.old.state.steps
        sim.new.state.steps) }
    ensures reached { OnOk result (IsReached sim.new) }
{
    let time = now(sim);
    run_past(time, sim)
}

/// Looks on from a time to another: after each time at which the clock stood.
fn look_on(from: Time, to: Time, sim: &mut Sim, bands: &mut Vec<Band>) -> Result<(), Memory>
    requires budget { sim.old.job.budget ≡ BUDGET }
    requires looked { HasLooked sim.old.job from.0 to.0 sim.old.state bands.old.items }
    ensures looked { OnOk result
        (HasLooked sim.old.job from.0 to.0 sim.new.state bands.new.items) }
    ensures over { OnOk result (IsOver to.0 sim.new.state) }
    ensures job { sim.new.job ≡ sim.old.job }
{
    for _ in 0..BUDGET {
        if is_over(to, sim) {
            return Ok(());
        }
        run_on(sim)?;
        widen(bands, sim);
    }
    Ok(())
}

/// The least and the greatest of what stands in each entity from one time to another, both included.
fn look(alloc: Global, sim: &mut Sim, from: Time, to: Time) -> Result<Items<Band>, Memory>
    requires budget { sim.old.job.budget ≡ BUDGET }
    requires still { AreStillAt sim.old.job from.0 0 sim.old.state.steps }
    requires order { from.0 ≤ℤ to.0 }
    ensures bands { IfOk result (model.AreBands sim.old.job from.0 to.0) }
    ensures still { OnOk result (AreStillAt sim.old.job to.0 0 sim.new.state.steps) }
    ensures job { sim.new.job ≡ sim.old.job }
{
    run_past(from, sim)?;
    let mut bands = bands_now(alloc, sim)?;
    look_on(from, to, sim, &mut bands)?;
    Ok(Items::from_vec(bands))
}

/// What is seen of a run from its start in a window.
pub(crate) fn take_samples(alloc: Global, sim: &mut Sim, window: Window) -> Result<Samples, Memory>
    requires budget { sim.old.job.budget ≡ BUDGET }
    requires start { start_of sim.old.job ≡ Some sim.old.state }
    ensures sampled { IfOk result (λ seen. model.AreSamples sim.old.job window seen.rows.items) }
    ensures between { IfOk result (λ seen. model.AreAllBands sim.old.job window seen.bands.items) }
    ensures job { sim.new.job ≡ sim.old.job }
{
    let mut rows = Vec::new(alloc);
    let mut bands = Vec::new(alloc);
    rows.push(sample(alloc, sim, moment(window, 0))?)?;
    for number in 0..499 {
        let from = moment(window, number);
        let to = moment(window, number + 1);
        bands.push(look(alloc, sim, from, to)?)?;
        rows.push(sample(alloc, sim, to)?)?;
    }
    Ok(Samples { rows, bands })
}
