//! The checks in their order, and what passes them all.

ghost use Rattle.std.specs.Prelude.{◌≡◌, IfOk, IfErr};
ghost use Rattle.gw_rules.specs.Flow.{MayFind};
ghost use Rattle.gw_rules.specs.Checks.{Finds};
ghost use Rattle.gw_rules.specs.Pass.{KindsPass};
ghost use Rattle.gw_rules.specs.PlusChecks.{PlusPasses};
ghost use Rattle.gw_rules.specs.Accepted.{Accepted, IsRefusedFor, TellsFirst, all_checks, checks, first_checks};

use gw_code_flow::check_plus;
use gw_flow::check_flow;
use gw_kinds::check_kinds;
use gw_object::{Fault, Object};
use gw_rules::Verified;
use gw_weights::check_weights;
use std::alloc::Global;

/// The first fault of kinds and of PLUS code, if there is one: kinds (10 to 15) before PLUS code (30 to 35), in order. It
/// takes no memory (ours: docs/refusals.md).
pub fn check_first(object: &Object) -> Result<(), Fault>
    ensures found { Finds result (first_checks object.now) }
    ensures kinds { IfOk result (λ _. KindsPass object.now) }
    ensures code { IfOk result (λ _. PlusPasses object.now) }
{
    check_kinds(object)?;
    check_plus(object)
}

/// The first fault of kinds, of PLUS code and of flow, if there is one: kinds before PLUS code, and that before flow.
#[tactic(auto, unfolding(gw_rules::specs::Accepted::checks))]
fn check_through_flow(alloc: Global, object: &Object) -> Result<(), Fault>
    ensures found { MayFind result (checks object.now) }
    ensures first { TellsFirst object.now (λ e. e) result }
    ensures kinds { IfOk result (λ _. KindsPass object.now) }
{
    check_first(object)?;
    check_flow(alloc, object)
}

/// The first fault of an object, if there is one: weights after all else.
fn check_all(alloc: Global, object: &Object) -> Result<(), Fault>
    ensures found { MayFind result (all_checks object.now) }
    ensures first { TellsFirst object.now (λ e. e) result }
{
    check_through_flow(alloc, object)?;
    check_weights(object)
}

/// Accepts an object exactly where every check holds of it; else hands it back with the first fault: kinds (10 to 15)
/// before PLUS code (30 to 35) before flow (20 to 28) before weights (40 to 42), and block by block; or with 8 Memory, at
/// Nowhere (ours: docs/refusals.md).
#[tactic(auto, unfolding(gw_rules::specs::Accepted::fault_of))]
pub fn verify(alloc: Global, object: Object) -> Result<Verified, (Object, Fault)>
    ensures accepted { IfOk result (λ v. (v ≡ object) × Accepted object) }
    ensures refused { IfErr result (λ e. (e.0 ≡ object) × IsRefusedFor object e.1) }
    // Kinds and PLUS code are checked without memory: a fault of theirs is told, whatever the memory.
    ensures first { TellsFirst object (λ e. e.1) result }
{
    match check_all(alloc, &object) {
        Ok(()) => Ok(Verified::new(object)),
        Err(fault) => Err((object, fault)),
    }
}
