//! The weights and the slopes of an object.

ghost use Rattle.std.specs.Prelude.{◌≡◌, IfOk, IfErr, true, false};
ghost use Rattle.gw_object.specs.Grammar.{HasSpelling};
ghost use Rattle.gw_rules.specs.Pass.{KindsPass};
ghost use Rattle.gw_slopes.specs.Aside.{without_slopes, own_of, with_own};
ghost use Rattle.gw_slopes.specs.Found as model;

use crate::search::search;
use gw_object::{Items, Object, Parts, Slope};
use gw_object_bytes::build;
use gw_rules::weights_codes::WEIGHT_EDGE;
use gw_weighing::weigh;
use gw_weights::check_weights;
use std::alloc::Global;
use std::mem;

/// Why an object got no weights.
#[derive(Clone, Copy, PartialEq, Eq)]
pub enum Refusal {
    /// Memory ran out.
    OutOfMemory,
    /// With the first slopes that help it is longer than an object may be.
    PastLimit,
}

/// What parts have of their own while slopes are tried in them.
#[derive(Drop)]
struct Own {
    /// The version.
    version: u16,
    /// The weights of the blocks.
    weights: Items<u32>,
    /// Their slopes.
    slopes: Items<Option<Slope>>,
    /// The weights of the user chains.
    chain_weights: Items<u32>,
}

/// Puts aside what parts have of their own.
fn put_aside(alloc: Global, parts: &mut Parts) -> Own
    ensures parts { parts.new ≡ without_slopes parts.old }
    ensures own { result ≡ own_of parts.old }
{
    Own {
        version: parts.version,
        weights: mem::replace(&mut parts.weights, Items::from_vec(Vec::new(alloc))),
        slopes: mem::replace(&mut parts.slopes, Items::from_vec(Vec::new(alloc))),
        chain_weights: mem::replace(&mut parts.chain_weights, Items::from_vec(Vec::new(alloc))),
    }
}

/// Puts it back.
fn put_back(parts: &mut Parts, own: Own)
    ensures { parts.new ≡ with_own parts.old own }
{
    let Own {
        version,
        weights,
        slopes,
        chain_weights,
    } = own;
    parts.version = version;
    parts.weights = weights;
    parts.slopes = slopes;
    parts.chain_weights = chain_weights;
}

/// The object of these parts, if it isn't too long.
fn finished(parts: Parts) -> Result<Object, Refusal>
    ensures made { IfOk result (λ o. (o ≡ parts) × HasSpelling parts) }
    ensures refused { IfErr result (λ refusal. (refusal ≡ model.past_limit) × (HasSpelling parts → ⊥)) }
{
    match build(parts) {
        Ok(object) => Ok(object),
        Err((parts, _)) => {
            drop(parts);
            Err(Refusal::PastLimit)
        }
    }
}

/// The object of which these parts were.
fn made_again(parts: Parts) -> Object
    requires { HasSpelling parts }
    ensures { result ≡ parts }
{
    match build(parts) {
        Ok(object) => object,
        Err(_) => unreachable!(),
    }
}

/// An object with the first slopes that help; as it was, where none do.
fn with_slopes(alloc: Global, object: Object) -> Result<Object, Refusal>
    requires kinds { KindsPass object }
    ensures tried { IfOk result (λ o. model.AreTried object o) }
    ensures refused { IfErr result (model.IsUntried object) }
{
    let mut parts = object.into_parts();
    let own = put_aside(alloc, &mut parts);
    match search(alloc, &mut parts) {
        Ok(true) => {
            drop(own);
            finished(parts)
        }
        Ok(false) => {
            put_back(&mut parts, own);
            Ok(made_again(parts))
        }
        Err(_) => {
            drop(own);
            drop(parts);
            Err(Refusal::OutOfMemory)
        }
    }
}

/// Whether the first fault of the weights of an object is that of an edge.
fn fails_at_edge(object: &Object) -> bool
    requires kinds { KindsPass object.now }
    ensures fails { result ≡ true → model.HasEdgeFault object.now }
    ensures other { result ≡ false → model.FailsAtNoEdge object.now }
{
    match check_weights(object) {
        Ok(()) => false,
        Err(fault) => fault.code == WEIGHT_EDGE,
    }
}

/// An object with the least weights, as it is, unless these fail at an edge; else with the first slopes that help.
fn with_slopes_if_needed(alloc: Global, object: Object) -> Result<Object, Refusal>
    requires kinds { KindsPass object }
    ensures ended { IfOk result (λ o. model.IsEnded object o) }
    ensures refused { IfErr result (model.IsEndedBy object) }
{
    if fails_at_edge(&object) {
        return with_slopes(alloc, object);
    }
    Ok(object)
}

/// An object with the least weights; where these fail at an edge, and the slopes on a parameter that some LOOP uses help, with
/// those for the first such parameter, and with the least weights for them. Slopes are put on each LOOP on the parameter and on
/// what leads to one at once, and each is as steep as there are blocks (ours: docs/weights.md). The version is 2 then; all else
/// stays. Kinds have to pass before. It is refused for want of memory, and where the object is too long with the first slopes
/// that help.
pub fn weigh_with_slopes(alloc: Global, object: Object) -> Result<Object, Refusal>
    requires kinds { KindsPass object }
    ensures weighed { IfOk result (λ o. model.IsWeighed object o) }
    ensures refused { IfErr result (model.IsRefusal object) }
{
    match weigh(alloc, object) {
        Ok(object) => with_slopes_if_needed(alloc, object),
        Err((object, _)) => {
            drop(object);
            Err(Refusal::OutOfMemory)
        }
    }
}
