//! Jobs: their runs, and what there is to see of them on the way.

use crate::objects::{Source, verified_of};
use crate::rows::put_number;
use crate::stop::Stop;
use gw_answers::Refusal;
use gw_report::report;
use gw_rules::Verified;
use gw_scan::{Sim, Spec, StartFault, Status};
use std::alloc::{AllocError, Global};

/// How a job is made of a case's object.
#[derive(Clone, Copy, PartialEq, Eq)]
pub struct Making {
    /// The one seed; 0 means the object's own seeds.
    pub seed: u32,
    /// The termination count; 0 means the object's own.
    pub count: u64,
    /// At most how many steps it makes.
    pub budget: u64,
}

/// The job of an accepted object.
fn spec_of(alloc: Global, verified: Verified, making: Making) -> Result<Spec, Stop> {
    let given = [making.seed];
    let seeds: &[u32] = if making.seed == 0 { &[] } else { &given };
    match Spec::new(alloc, verified, seeds, making.count, making.budget) {
        Ok(spec) => Ok(spec),
        Err((verified, StartFault::Memory)) => {
            drop(verified);
            Err(Stop::Memory)
        }
        Err((verified, fault)) => {
            drop(verified);
            Err(stop_of(fault))
        }
    }
}

/// The refusal of a job.
fn stop_of(fault: StartFault) -> Stop {
    let Refusal(fault) = Refusal::from(fault);
    Stop::Refused(fault)
}

/// The job of a case, before its first step.
pub fn job_of(alloc: Global, source: &Source, making: Making) -> Result<Sim, Stop> {
    let verified = verified_of(alloc, source)?;
    let spec = spec_of(alloc, verified, making)?;
    match Sim::start(alloc, spec) {
        Ok(sim) => Ok(sim),
        Err((spec, _)) => {
            drop(spec);
            Err(Stop::Memory)
        }
    }
}

/// Makes at most so many steps, as long as the job runs.
pub fn go_on(sim: &mut Sim, most: u64) -> Result<(), AllocError> {
    for _ in 0..most {
        if sim.step()? != Status::Running {
            break;
        }
    }
    Ok(())
}

/// Whether a line begins with a word.
fn begins_with(line: &[u8], word: &[u8]) -> bool {
    match line.iter().position(|byte| *byte == b' ') {
        Some(end) => &line[..end] == word,
        None => line == word,
    }
}

/// Whether a line begins with one of these words; where there are none, each line does.
fn is_asked(line: &[u8], words: &[&[u8]]) -> bool {
    words.is_empty() || words.iter().any(|word| begins_with(line, word))
}

/// Appends those lines of a text that are asked for.
fn put_asked(out: &mut Vec<u8>, text: &[u8], words: &[&[u8]]) -> Result<(), AllocError> {
    for line in text.split(|byte| *byte == b'\n') {
        if !line.is_empty() && is_asked(line, words) {
            out.extend_from_slice(line)?;
            out.push(b'\n')?;
        }
    }
    Ok(())
}

/// Appends the lines of a job's report that are asked for.
pub fn put_report(
    alloc: Global,
    out: &mut Vec<u8>,
    sim: &Sim,
    words: &[&[u8]],
) -> Result<(), AllocError> {
    let text = report(alloc, sim)?;
    put_asked(out, text.as_slice(), words)
}

/// Appends who is active: its number, or `none`.
fn put_active(alloc: Global, out: &mut Vec<u8>, sim: &Sim) -> Result<(), AllocError> {
    match sim.active() {
        Some(number) => put_number(alloc, out, b"ACTIVE ", number),
        None => out.extend_from_slice(b"ACTIVE none"),
    }
}

/// Appends what the state weighs.
fn put_weight(alloc: Global, out: &mut Vec<u8>, sim: &Sim) -> Result<(), AllocError> {
    let weight = sim.weight();
    let digits = format!(in alloc; " WEIGHT {weight}")?;
    out.extend_from_slice(digits.as_bytes())
}

/// Appends one line of how a job stands: steps, clock, entries, weight and who is active.
fn put_state(alloc: Global, out: &mut Vec<u8>, sim: &Sim) -> Result<(), AllocError> {
    put_number(alloc, out, b"STEP ", sim.steps())?;
    let clock = sim.clock();
    let digits = format!(in alloc; " CLOCK {clock}")?;
    out.extend_from_slice(digits.as_bytes())?;
    put_number(alloc, out, b" ENTRIES ", sim.entries())?;
    put_weight(alloc, out, sim)?;
    out.push(b' ')?;
    put_active(alloc, out, sim)?;
    out.push(b'\n')?;
    Ok(())
}

/// Appends the lines of the state after so many steps: those of the report, one of how the job stands, which begins with STEP,
/// and one of who is active.
pub fn put_view(
    alloc: Global,
    out: &mut Vec<u8>,
    sim: &Sim,
    words: &[&[u8]],
) -> Result<(), AllocError> {
    let mut text = report(alloc, sim)?;
    put_state(alloc, &mut text, sim)?;
    put_active(alloc, &mut text, sim)?;
    put_asked(out, text.as_slice(), words)
}

/// Appends a line of how the job stands after each of so many steps.
pub fn put_trace(
    alloc: Global,
    out: &mut Vec<u8>,
    sim: &mut Sim,
    steps: u64,
) -> Result<(), AllocError> {
    for _ in 0..steps {
        sim.step()?;
        put_state(alloc, out, sim)?;
    }
    Ok(())
}
