//! From a job to the trace of its run.

ghost use Rattle.std.specs.Prelude.{◌≡◌, OnOk, IfOk, None, Some};
ghost use Rattle.gw_writing.specs.Text.{Puts};
ghost use Rattle.gw_step.specs.Job.{Alone, IsReached, Step, start_of};
ghost use Rattle.gw_answers.specs.Status.{end_status};
ghost use Rattle.gw_answers.specs.Running.{IsOver};
ghost use Rattle.gw_trace.specs.Trace.{sight_line, window_line, heading, AnswersTrace, HasTraced, IsTrace};

use crate::line::put_line;
use crate::sight::Sight;
use gw_answers::status::ENDED;
use gw_answers::{Answer, BUDGET, Time, is_over};
use gw_object::Memory;
use gw_scan::{Sim, Spec};
use gw_writing::put;
use std::alloc::Global;

/// What the columns are: the clock in clock units, the transaction's and the block's number, how many are then on the
/// current events chain, the future events chain, delay lists and the retry list, and what happened.
const HEADING: &str = "       CLOCK    XACT  BLOCK    CEC    FEC  DELAY  RETRY  WHAT\n";

/// The times between which steps are shown, both included, in clock units.
#[derive(Clone, Copy, PartialEq, Eq)]
pub struct Window {
    /// The first.
    pub from: Time,
    /// The last.
    pub to: Time,
}

/// The line of a step, where the clock is within the window.
fn put_line_within(
    out: &mut Vec<u8>,
    window: Window,
    before: &Sight,
    sim: &Sim,
) -> Result<(), Memory>
    ensures { Puts result out.old out.new (sight_line window before.now sim.now) }
{
    if window.from.0 <= sim.clock() && sim.clock() <= window.to.0 {
        put_line(out, before, sim)
    } else {
        Ok(())
    }
}

/// Makes a step, and puts its line where the clock is then within the window.
fn trace_step(out: &mut Vec<u8>, window: Window, sim: &mut Sim) -> Result<(), Memory>
    requires { sim.old.state.ended ≡ None }
    ensures made { OnOk result (Step sim.old.job sim.old.state sim.new.state) }
    ensures line { Puts result out.old out.new (window_line window sim.old sim.new) }
    ensures job { sim.new.job ≡ sim.old.job }
    ensures reached { IsReached sim.new }
{
    let before = Sight::of(sim);
    sim.step()?;
    put_line_within(out, window, &before, sim)
}

/// Makes steps until it is over, and puts their lines.
fn trace_steps(out: &mut Vec<u8>, window: Window, sim: &mut Sim) -> Result<(), Memory>
    requires budget { sim.old.job.budget ≡ BUDGET }
    requires start { start_of sim.old.job ≡ Some sim.old.state }
    requires heading { out.old.items ≡ heading }
    ensures job { sim.new.job ≡ sim.old.job }
    ensures traced { OnOk result (HasTraced window.from.0 window.to.0 sim.new out.new.items) }
    ensures over { OnOk result (IsOver window.to.0 sim.new.state) }
    ensures alone { OnOk result (Alone sim.new.job sim.new.state.steps sim.new.state) }
{
    for _ in 0..BUDGET {
        if is_over(window.to, sim) {
            return Ok(());
        }
        trace_step(out, window, sim)?;
    }
    Ok(())
}

/// The trace of a job that has started.
#[tactic(auto, unfolding(crate::specs::Trace::heading))]
fn trace_of_run(alloc: Global, sim: &mut Sim, window: Window) -> Result<Answer, Memory>
    requires budget { sim.old.job.budget ≡ BUDGET }
    requires start { start_of sim.old.job ≡ Some sim.old.state }
    ensures { IfOk result (AnswersTrace window sim.old.job) }
{
    let mut text = Vec::new(alloc);
    put(&mut text, HEADING)?;
    trace_steps(&mut text, window, sim)?;
    Ok(Answer {
        text,
        status: ENDED,
    })
}

/// The trace of a job within a window.
fn trace_within(alloc: Global, spec: Spec, window: Window) -> Result<Answer, Memory>
    requires { spec.budget ≡ BUDGET }
    ensures { IfOk result (AnswersTrace window spec) }
{
    match Sim::start(alloc, spec) {
        Ok(mut sim) => {
            let answer = trace_of_run(alloc, &mut sim, window);
            drop(sim);
            answer
        }
        Err((spec, _)) => {
            drop(spec);
            Err(Memory)
        }
    }
}

/// The trace of a job, whose budget is that of a run, from one time of the clock to another, both included, in clock units: what
/// the columns are, and a line for each step after which the clock lies there, in order.
///
/// It fails for want of memory.
pub fn trace(alloc: Global, spec: Spec, from: i64, to: i64) -> Result<Answer, Memory>
    requires { spec.budget ≡ BUDGET }
    ensures { IfOk result (λ a. (a.status ≡ end_status) × IsTrace from to spec a.text.items) }
{
    let window = Window {
        from: Time(from),
        to: Time(to),
    };
    trace_within(alloc, spec, window)
}
