//! From the parts of an object to one that the verifier accepts.

ghost use Rattle.std.specs.Prelude.{◌≡◌, IfOk, IfErr};
ghost use Rattle.gw_rules.specs.Pass.{KindsPass};
ghost use Rattle.gw_rules.specs.PlusChecks.{PlusPasses};
ghost use Rattle.gw_rules.specs.Flow.{own_table, FlowPasses};
ghost use Rattle.gw_slopes.specs.Found.{IsWeighed};
ghost use Rattle.gw_assemble.specs.Completion.{IsAccepted, IsCompletion, IsUnweighed, HasNoCompletion, fault_without};

use gw_object::codes::MEMORY;
use gw_object::{Fault, Object, Parts, Place};
use gw_object_bytes::build;
use gw_rules::Verified;
use gw_settle::settle;
use gw_slopes::{Refusal, weigh_with_slopes};
use gw_verify::{check_first, verify};
use std::alloc::Global;

/// What the assembler makes passes a limit of the object format.
const LIMIT: u16 = 82;

/// That memory ran out.
const OUT_OF_MEMORY: Fault = Fault {
    code: MEMORY,
    place: Place::Nowhere,
};

/// That a limit of the object format is passed.
const PAST_LIMIT: Fault = Fault {
    code: LIMIT,
    place: Place::Nowhere,
};

/// The fault of an object that gets no weights.
fn fault_without_weights(refusal: Refusal) -> Fault
    ensures { result ≡ fault_without refusal }
{
    match refusal {
        Refusal::OutOfMemory => OUT_OF_MEMORY,
        Refusal::PastLimit => PAST_LIMIT,
    }
}

/// A settled object with the weights and the slopes that it gets, if it is accepted; else no weights pass in it, or it is too
/// long with the slopes that help.
fn weighed(alloc: Global, settled: Object) -> Result<Verified, Fault>
    requires kinds { KindsPass settled }
    requires code { PlusPasses settled }
    requires flow { FlowPasses settled (own_table settled) }
    ensures accepted { IfOk result (λ v. IsWeighed settled v) }
    ensures verified { IfOk result IsAccepted }
    ensures refused { IfErr result (IsUnweighed settled) }
{
    match weigh_with_slopes(alloc, settled) {
        Ok(object) => match verify(alloc, object) {
            Ok(verified) => Ok(verified),
            Err((object, fault)) => {
                drop(object);
                Err(fault)
            }
        },
        Err(refusal) => Err(fault_without_weights(refusal)),
    }
}

/// An object of which kinds and PLUS code pass, with the state table, the weights and the slopes that it gets, if it is
/// accepted.
fn settled(alloc: Global, object: Object) -> Result<Verified, Fault>
    requires kinds { KindsPass object }
    requires code { PlusPasses object }
    ensures accepted { IfOk result (λ v. IsCompletion object v) }
    ensures verified { IfOk result IsAccepted }
    ensures refused { IfErr result (HasNoCompletion object) }
{
    match settle(alloc, object) {
        Ok(object) => weighed(alloc, object),
        Err((object, fault)) => {
            drop(object);
            Err(fault)
        }
    }
}

/// An object with the state table, the weights and the slopes that it gets, if it is accepted.
fn completed(alloc: Global, object: Object) -> Result<Verified, Fault>
    ensures accepted { IfOk result (λ v. IsCompletion object v) }
    ensures verified { IfOk result IsAccepted }
    ensures refused { IfErr result (HasNoCompletion object) }
{
    match check_first(&object) {
        Ok(()) => settled(alloc, object),
        Err(fault) => {
            drop(object);
            Err(fault)
        }
    }
}

/// The object of these parts with the assembler's state table, weights and slopes, if it is accepted.
pub(crate) fn finish(alloc: Global, parts: Parts) -> Result<Verified, Fault>
    ensures accepted { IfOk result (λ v. IsCompletion parts v) }
    ensures verified { IfOk result IsAccepted }
    ensures refused { IfErr result (HasNoCompletion parts) }
{
    match build(parts) {
        Ok(object) => completed(alloc, object),
        Err((parts, _)) => {
            drop(parts);
            Err(PAST_LIMIT)
        }
    }
}
