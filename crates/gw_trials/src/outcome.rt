//! What becomes of bytes that should be an object.

ghost use Rattle.std.specs.Prelude.{IfOk};
ghost use Rattle.gw_trials.specs.Outcome.{IsVerdict, IsOutcome};

use gw_object::{Fault, Memory, Object, codes};
use gw_object_bytes::{read, write};
use gw_report::report;
use gw_rules::Verified;
use gw_scan::{Sim, Spec, StartFault, Status};
use gw_verify::verify;
use std::alloc::Global;

/// At most how many steps an object that is accepted makes here.
const BUDGET: u64 = 10_000;

/// What becomes of bytes that should be an object.
#[derive(Clone, Copy, PartialEq, Eq)]
pub enum Outcome {
    /// They are refused as they are read.
    Unreadable(Fault),
    /// The object that they spell is refused by the verifier.
    Refused(Fault),
    /// The object is accepted. Whether its spelling is these bytes, and it ran to a report.
    Accepted {
        /// Whether it is written as it came, runs to a named end and is reported.
        is_right: bool,
    },
}

/// Runs an accepted object to a named end, and answers whether its report begins with that.
fn runs(alloc: Global, verified: Verified) -> Result<bool, Memory> {
    match Spec::new(alloc, verified, &[], 0, BUDGET) {
        Ok(spec) => ends(alloc, spec),
        Err((verified, StartFault::Memory)) => {
            drop(verified);
            Err(Memory)
        }
        Err((verified, _)) => {
            drop(verified);
            Ok(false)
        }
    }
}

/// Starts a job, and makes steps until a named end stands.
fn ends(alloc: Global, spec: Spec) -> Result<bool, Memory> {
    match Sim::start(alloc, spec) {
        Ok(mut sim) => {
            let is_right = reports(alloc, &mut sim);
            drop(sim);
            is_right
        }
        Err((spec, _)) => {
            drop(spec);
            Err(Memory)
        }
    }
}

/// Makes steps until a named end stands, and answers whether the report begins with that.
fn reports(alloc: Global, sim: &mut Sim) -> Result<bool, Memory> {
    let mut status = sim.status();
    for _ in 0..BUDGET {
        if status != Status::Running {
            break;
        }
        status = sim.step()?;
    }
    let text = report(alloc, sim)?;
    Ok(status != Status::Running && text.as_slice().starts_with(b"END "))
}

/// Whether an object's spelling is these bytes.
fn is_spelling(alloc: Global, object: &Object, bytes: &[u8]) -> Result<bool, Memory> {
    let spelled = write(alloc, object)?;
    Ok(spelled.as_slice() == bytes)
}

/// What becomes of an object that these bytes spell.
fn outcome_of_object(alloc: Global, object: Object, bytes: &[u8]) -> Result<Outcome, Memory>
    ensures { IfOk result (IsVerdict object) }
{
    let is_spelled = match is_spelling(alloc, &object, bytes) {
        Ok(is_spelled) => is_spelled,
        Err(memory) => {
            drop(object);
            return Err(memory);
        }
    };
    match verify(alloc, object) {
        Ok(verified) => {
            let is_right = runs(alloc, verified)? && is_spelled;
            Ok(Outcome::Accepted { is_right })
        }
        Err((object, fault)) => {
            drop(object);
            if fault.code == codes::MEMORY {
                return Err(Memory);
            }
            Ok(Outcome::Refused(fault))
        }
    }
}

/// What becomes of these bytes.
pub fn outcome_of(alloc: Global, bytes: &[u8]) -> Result<Outcome, Memory>
    ensures { IfOk result (IsOutcome bytes.now) }
{
    match read(alloc, bytes) {
        Ok(object) => outcome_of_object(alloc, object, bytes),
        Err(fault) if fault.code == codes::MEMORY => Err(Memory),
        Err(fault) => Ok(Outcome::Unreadable(fault)),
    }
}
