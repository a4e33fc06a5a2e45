//! How far a run is asked for.

ghost use Rattle.std.specs.Prelude.{◌≡◌, OnOk, None, true, false};
ghost use Rattle.gw_step.specs.Job.{IsReached, Step};
ghost use Rattle.gw_answers.specs.Running.{AreStillAt, IsOver, IsStillAt};

use crate::BUDGET;
use gw_object::Memory;
use gw_scan::{Sim, Status};

/// A time of the clock, in clock units.
#[derive(Clone, Copy, PartialEq, Eq)]
pub struct Time(pub i64);

/// Whether a named end stands, or the clock is past a time.
pub fn is_over(time: Time, sim: &Sim) -> bool
    ensures over { result ≡ true → IsOver time.0 sim.now.state }
    ensures not_yet { result ≡ false → IsStillAt time.0 sim.now.state }
    ensures reached { IsReached sim.now }
{
    match sim.status() {
        Status::Running => time.0 < sim.clock(),
        Status::Ended(_) => true,
    }
}

/// Makes the next step of a run that goes on.
fn step_on(sim: &mut Sim) -> Result<(), Memory>
    requires { sim.old.state.ended ≡ None }
    ensures made { OnOk result (Step sim.old.job sim.old.state sim.new.state) }
    ensures job { sim.new.job ≡ sim.old.job }
    ensures reached { IsReached sim.new }
{
    sim.step()?;
    Ok(())
}

/// Makes steps until a named end stands or the clock is past a time, in a job with the budget of a run.
pub fn run_past(time: Time, sim: &mut Sim) -> Result<(), Memory>
    requires { sim.old.job.budget ≡ BUDGET }
    ensures job { sim.new.job ≡ sim.old.job }
    ensures over { OnOk result (IsOver time.0 sim.new.state) }
    ensures still { OnOk result
        (AreStillAt sim.old.job time.0 sim.old.state.steps sim.new.state.steps) }
    ensures reached { OnOk result (IsReached sim.new) }
{
    for _ in 0..BUDGET {
        if is_over(time, sim) {
            return Ok(());
        }
        step_on(sim)?;
    }
    Ok(())
}
