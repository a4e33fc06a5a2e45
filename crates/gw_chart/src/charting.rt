//! From a model text to the charts of its run.

ghost use Rattle.std.specs.Prelude.{◌≡◌, Some, IfOk};
ghost use Rattle.gw_step.specs.Job.{Alone, IsFinal, start_of};
ghost use Rattle.gw_answers.specs.Status.{end_status as ended_status};
ghost use Rattle.gw_chart.specs.Samples.{AreSamples, AreAllBands};
ghost use Rattle.gw_chart.specs.Windows.{clip as clipped_to};
ghost use Rattle.gw_chart.specs.Charts.{EndsAt, IsChart, IsSheet, Shows};

use crate::document::put_document;
use crate::samples::{Samples, take_samples};
use crate::sheet::put_sheet;
use crate::window::{Window, clip};
use gw_answers::status::ENDED;
use gw_answers::{Answer, BUDGET, Time, run_to_end};
use gw_object::Memory;
use gw_scan::{Sim, Spec};
use std::alloc::Global;

/// In which form a run is shown.
#[derive(Clone, Copy)]
pub enum Form<'a> {
    /// As a picture, under the name of what is run; it may be empty.
    Picture(&'a [u8]),
    /// As records.
    Sheet,
}

/// The clock at the end of a run.
fn end_of_run(sim: &mut Sim) -> Result<Time, Memory>
    requires { sim.old.job.budget ≡ BUDGET }
    ensures { IfOk result (λ end. EndsAt sim.old.job end.0) }
{
    run_to_end(sim)?;
    Ok(Time(sim.clock()))
}

/// The clock at the end of a job's run.
fn end_of(alloc: Global, spec: Spec) -> Result<Time, Memory>
    requires { spec.budget ≡ BUDGET }
    ensures { IfOk result (λ end. EndsAt spec end.0) }
{
    match Sim::start(alloc, spec) {
        Ok(mut sim) => {
            let end = end_of_run(&mut sim);
            drop(sim);
            end
        }
        Err((spec, _)) => {
            drop(spec);
            Err(Memory)
        }
    }
}

/// The picture of a run that has ended, under a name, by what stood in each entity at each moment of a window.
fn pictured(
    alloc: Global,
    sim: &Sim,
    seen: &Samples,
    window: Window,
    name: &[u8],
) -> Result<Answer, Memory>
    requires alone { Alone sim.now.job sim.now.state.steps sim.now.state }
    requires over { IsFinal sim.now.state }
    requires sampled { AreSamples sim.now.job (clipped_to window sim.now.state.clock)
        seen.now.rows.items }
    requires between { AreAllBands sim.now.job (clipped_to window sim.now.state.clock)
        seen.now.bands.items }
    ensures { IfOk result (λ a. (a.status ≡ ended_status)
        × IsChart window name.now sim.now.job a.text.items) }
{
    let mut text = Vec::new(alloc);
    let shown = clip(window, Time(sim.clock()));
    put_document(&mut text, name, shown, sim, seen)?;
    Ok(Answer {
        text,
        status: ENDED,
    })
}

/// The same as records.
fn tabled(alloc: Global, sim: &Sim, seen: &Samples, window: Window) -> Result<Answer, Memory>
    requires alone { Alone sim.now.job sim.now.state.steps sim.now.state }
    requires over { IsFinal sim.now.state }
    requires sampled { AreSamples sim.now.job (clipped_to window sim.now.state.clock)
        seen.now.rows.items }
    requires between { AreAllBands sim.now.job (clipped_to window sim.now.state.clock)
        seen.now.bands.items }
    ensures { IfOk result (λ a. (a.status ≡ ended_status)
        × IsSheet window sim.now.job a.text.items) }
{
    let mut text = Vec::new(alloc);
    let shown = clip(window, Time(sim.clock()));
    put_sheet(alloc, &mut text, shown, sim, seen)?;
    Ok(Answer {
        text,
        status: ENDED,
    })
}

/// What is shown of a run that has ended, by what stood in each entity at each moment of a window.
fn shown(
    alloc: Global,
    sim: &Sim,
    seen: &Samples,
    window: Window,
    form: Form<'_>,
) -> Result<Answer, Memory>
    requires alone { Alone sim.now.job sim.now.state.steps sim.now.state }
    requires over { IsFinal sim.now.state }
    requires sampled { AreSamples sim.now.job (clipped_to window sim.now.state.clock)
        seen.now.rows.items }
    requires between { AreAllBands sim.now.job (clipped_to window sim.now.state.clock)
        seen.now.bands.items }
    ensures { IfOk result (λ a. (a.status ≡ ended_status)
        × Shows form.entry window sim.now.job a.text.items) }
{
    match form {
        Form::Picture(name) => pictured(alloc, sim, seen, window, name),
        Form::Sheet => tabled(alloc, sim, seen, window),
    }
}

/// What is shown of a run, whose end is at this clock.
fn shown_of_run(
    alloc: Global,
    sim: &mut Sim,
    end: Time,
    window: Window,
    form: Form<'_>,
) -> Result<Answer, Memory>
    requires budget { sim.old.job.budget ≡ BUDGET }
    requires start { start_of sim.old.job ≡ Some sim.old.state }
    requires end { EndsAt sim.old.job end.0 }
    ensures { IfOk result (λ a. (a.status ≡ ended_status)
        × Shows form.entry window sim.old.job a.text.items) }
{
    let seen = take_samples(alloc, sim, clip(window, end))?;
    run_to_end(sim)?;
    shown(alloc, sim, &seen, window, form)
}

/// What is shown of a job, whose run ends at this clock.
fn shown_to(
    alloc: Global,
    spec: Spec,
    end: Time,
    window: Window,
    form: Form<'_>,
) -> Result<Answer, Memory>
    requires budget { spec.budget ≡ BUDGET }
    requires end { EndsAt spec end.0 }
    ensures { IfOk result (λ a. (a.status ≡ ended_status) × Shows form.entry window spec a.text.items) }
{
    match Sim::start(alloc, spec) {
        Ok(mut sim) => {
            let answer = shown_of_run(alloc, &mut sim, end, window, form);
            drop(sim);
            answer
        }
        Err((spec, _)) => {
            drop(spec);
            Err(Memory)
        }
    }
}

/// What is shown of a job.
fn shown_of_job(alloc: Global, spec: Spec, window: Window, form: Form<'_>) -> Result<Answer, Memory>
    requires { spec.budget ≡ BUDGET }
    ensures { IfOk result (λ a. (a.status ≡ ended_status) × Shows form.entry window spec a.text.items) }
{
    let end = match spec.share() {
        Ok(shared) => end_of(alloc, shared),
        Err(memory) => Err(memory),
    };
    match end {
        Ok(end) => shown_to(alloc, spec, end, window, form),
        Err(memory) => {
            drop(spec);
            Err(memory)
        }
    }
}

/// The charts of a job, whose budget is that of a run, under a name, which may be empty: an SVG document with what was in each
/// facility, storage, queue, switch, user chain and savevalue over a window of its run, and with the classes of each table.
///
/// It fails for want of memory.
pub fn chart(alloc: Global, spec: Spec, window: Window, name: &[u8]) -> Result<Answer, Memory>
    requires { spec.budget ≡ BUDGET }
    ensures { IfOk result (λ a. (a.status ≡ ended_status) × IsChart window name.now spec a.text.items) }
{
    shown_of_job(alloc, spec, window, Form::Picture(name))
}

/// The points of these lines as records, in the form of RFC 4180.
///
/// It fails for want of memory.
pub fn points(alloc: Global, spec: Spec, window: Window) -> Result<Answer, Memory>
    requires { spec.budget ≡ BUDGET }
    ensures { IfOk result (λ a. (a.status ≡ ended_status) × IsSheet window spec a.text.items) }
{
    shown_of_job(alloc, spec, window, Form::Sheet)
}
