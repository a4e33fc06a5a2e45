//! The calls that ask for memory, each made once more where that was refused.

use crate::refusals::{Refusals, count};
use gw_assemble::assemble;
use gw_object::{Fault, Memory, Object, codes};
use gw_object_bytes::{read, write};
use gw_report::report;
use gw_rules::Verified;
use gw_scan::{Sim, Spec, StartFault, Status};
use gw_text::{Model, parse};
use gw_verify::verify;
use std::alloc::Global;

/// At most how many steps a job makes here.
const BUDGET: u64 = 10_000;

/// Whether an answer is want of memory.
fn lacks_memory<T>(answer: &Result<T, Fault>) -> bool {
    matches!(answer, Err(fault) if fault.code == codes::MEMORY)
}

/// The statements of a text.
pub fn model_of(alloc: Global, text: &[u8], refusals: &mut Refusals) -> Result<Model, Fault> {
    let first = parse(alloc, text);
    if !lacks_memory(&first) {
        return first;
    }
    drop(first);
    count(&mut refusals.parse);
    parse(alloc, text)
}

/// The accepted object that a text becomes.
pub fn assemble_model(
    alloc: Global,
    model: &Model,
    refusals: &mut Refusals,
) -> Result<Verified, Fault> {
    let first = assemble(alloc, model);
    if !lacks_memory(&first) {
        return first;
    }
    drop(first);
    count(&mut refusals.assemble);
    assemble(alloc, model)
}

/// The spelling of an object.
pub fn bytes_of(
    alloc: Global,
    object: &Object,
    refusals: &mut Refusals,
) -> Result<Vec<u8>, Memory> {
    match write(alloc, object) {
        Ok(bytes) => Ok(bytes),
        Err(_) => {
            count(&mut refusals.write);
            write(alloc, object)
        }
    }
}

/// The object that these bytes spell.
pub fn object_of(alloc: Global, bytes: &[u8], refusals: &mut Refusals) -> Result<Object, Fault> {
    let first = read(alloc, bytes);
    if !lacks_memory(&first) {
        return first;
    }
    drop(first);
    count(&mut refusals.read);
    read(alloc, bytes)
}

/// The object, accepted.
pub fn verify_object(
    alloc: Global,
    object: Object,
    refusals: &mut Refusals,
) -> Result<Verified, Fault> {
    match verify(alloc, object) {
        Ok(verified) => Ok(verified),
        Err((object, fault)) => {
            if fault.code != codes::MEMORY {
                drop(object);
                return Err(fault);
            }
            count(&mut refusals.verify);
            match verify(alloc, object) {
                Ok(verified) => Ok(verified),
                Err((object, fault)) => {
                    drop(object);
                    Err(fault)
                }
            }
        }
    }
}

/// The job of an accepted object.
pub fn job_of(alloc: Global, verified: Verified, refusals: &mut Refusals) -> Result<Spec, Memory> {
    match Spec::new(alloc, verified, &[], 0, BUDGET) {
        Ok(spec) => Ok(spec),
        Err((verified, StartFault::Memory)) => {
            count(&mut refusals.spec);
            match Spec::new(alloc, verified, &[], 0, BUDGET) {
                Ok(spec) => Ok(spec),
                Err((verified, _)) => {
                    drop(verified);
                    Err(Memory)
                }
            }
        }
        Err((verified, _)) => {
            drop(verified);
            Err(Memory)
        }
    }
}

/// The job before its first step.
pub fn start_job(alloc: Global, spec: Spec, refusals: &mut Refusals) -> Result<Sim, Memory> {
    match Sim::start(alloc, spec) {
        Ok(sim) => Ok(sim),
        Err((spec, _)) => {
            count(&mut refusals.start);
            match Sim::start(alloc, spec) {
                Ok(sim) => Ok(sim),
                Err((spec, _)) => {
                    drop(spec);
                    Err(Memory)
                }
            }
        }
    }
}

/// What there is to see of a job without its report.
#[derive(Clone, Copy, PartialEq, Eq)]
struct Sight {
    clock: i64,
    count: i64,
    steps: u64,
    entries: u64,
    weight: u128,
    active: Option<u64>,
}

/// What there is to see of a job.
fn sight_of(sim: &Sim) -> Sight {
    Sight {
        clock: sim.clock(),
        count: sim.count(),
        steps: sim.steps(),
        entries: sim.entries(),
        weight: sim.weight(),
        active: sim.active(),
    }
}

/// One step. One that is refused memory changes nothing.
fn step(sim: &mut Sim, refusals: &mut Refusals) -> Result<Status, Memory> {
    let before = sight_of(sim);
    match sim.step() {
        Ok(status) => Ok(status),
        Err(_) => {
            count(&mut refusals.step);
            if sight_of(sim) != before {
                count(&mut refusals.moved);
            }
            sim.step()
        }
    }
}

/// Makes steps until a named end stands.
pub fn run_to_end(sim: &mut Sim, refusals: &mut Refusals) -> Result<(), Memory> {
    let mut status = sim.status();
    for _ in 0..BUDGET {
        if status != Status::Running {
            break;
        }
        status = step(sim, refusals)?;
    }
    Ok(())
}

/// The report of a job.
pub fn write_report(alloc: Global, sim: &Sim, refusals: &mut Refusals) -> Result<Vec<u8>, Memory> {
    match report(alloc, sim) {
        Ok(text) => Ok(text),
        Err(_) => {
            count(&mut refusals.report);
            report(alloc, sim)
        }
    }
}
