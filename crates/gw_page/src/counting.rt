//! Whether a run is short enough, by making it.

ghost use Rattle.std.specs.Prelude.{◌≡◌, ◌≤◌, ◌<◌, IfOk};
ghost use Rattle.gw_step.specs.Job.{IsReached};
ghost use Rattle.gw_page.specs.Counting.{EndsOrSteps, IsCounted};

use gw_answers::{Time, is_over};
use gw_object::Memory;
use gw_scan::{Sim, Spec};
use std::alloc::Global;

/// At most so many steps are made before it is looked whether the run is over.
const SLICE: u64 = 16_384;

/// The end of any run: no clock is past it.
pub(crate) const END: Time = Time(i64::MAX);

/// Makes some more steps, until so many are made at the most. It answers whether the run is ended; else it has made one at least.
fn step_on(sim: &mut Sim, most: u64) -> Result<bool, Memory>
    requires { sim.old.state.steps < most }
    ensures job { sim.new.job ≡ sim.old.job }
    ensures most { sim.new.state.steps ≤ most }
    ensures reached { IsReached sim.new }
    ensures ended { IfOk result (EndsOrSteps sim.old.state sim.new.state) }
{
    let left = (most - sim.steps()).min(SLICE);
    let slice = sim.run_slice(left as u32)?;
    Ok(slice.ended)
}

/// Whether a run is ended, or past a time, after so many steps at the most. It makes them.
fn is_over_within(sim: &mut Sim, time: Time, most: u64) -> Result<bool, Memory>
    requires { sim.old.state.steps ≤ most }
    ensures { IfOk result (IsCounted time.0 most sim.old.job) }
{
    while sim.steps() < most {
        if is_over(time, sim) {
            return Ok(true);
        }
        if step_on(sim, most)? {
            return Ok(true);
        }
    }
    Ok(is_over(time, sim))
}

/// Whether the run of a job is ended, or past a time, after so many steps at the most.
pub(crate) fn is_short(alloc: Global, spec: Spec, time: Time, most: u64) -> Result<bool, Memory>
    ensures { IfOk result (IsCounted time.0 most spec) }
{
    match Sim::start(alloc, spec) {
        Ok(mut sim) => {
            let short = is_over_within(&mut sim, time, most);
            drop(sim);
            short
        }
        Err((spec, _)) => {
            drop(spec);
            Err(Memory)
        }
    }
}
