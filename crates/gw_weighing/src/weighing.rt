//! An object with other weights.

ghost use Rattle.std.specs.Prelude.{◌≡◌, IfOk, IfErr, All, length};
ghost use Rattle.gw_object.specs.Entities.{chains_in as chains_among};
ghost use Rattle.gw_rules.specs.Pass.{KindsPass};
ghost use Rattle.gw_least_weights.specs.Rules.{IsWeight};
ghost use Rattle.gw_weighing.specs.Certificates.{DifferInWeights, HasLeastWeights, AreLeast, IsCounted, MayBeSpelled};

use crate::layout::Layout;
use crate::rules::rules_of;
use gw_least_weights::least_weights;
use gw_object::{Items, Memory, Object, Parts};
use gw_object_bytes::build;
use std::alloc::Global;

/// The weights of the blocks and of the user chains of an object.
#[derive(Drop)]
pub struct Weights {
    /// Of the blocks, in order.
    pub blocks: Vec<u32>,
    /// Of the user chains, in the order of the entities.
    pub chains: Vec<u32>,
}

/// The least weights that the rules of parts ask for, with the slopes that they have: where they are those of an object, but for
/// the weights that they have, and any weights pass in it, these do, and each is at most the other's (ours: docs/weights.md).
/// They may be too long for an object. For want of memory there are none.
pub fn weights_of(alloc: Global, parts: &Parts) -> Result<Weights, Memory>
    requires { IsCounted parts.now }
    ensures { IfOk result (λ w. MayBeSpelled parts.now → AreLeast parts.now w.blocks.items w.chains.items) }
{
    let layout = Layout::of(parts);
    let rules = rules_of(alloc, parts, layout)?;
    let mut blocks = least_weights(alloc, rules, layout.counted(), layout.places())?;
    let chains = Vec::from_slice(alloc, &blocks[layout.blocks as usize..layout.counted()])?;
    blocks.truncate(layout.blocks as usize);
    Ok(Weights { blocks, chains })
}

/// The least weights that the rules of an object ask for.
fn weights_in(alloc: Global, object: &Object) -> Result<Weights, Memory>
    ensures { IfOk result (λ w. AreLeast object.now w.blocks.items w.chains.items) }
{
    weights_of(alloc, object.parts())
}

/// An object with these weights in the place of its own.
fn with_weights(object: Object, weights: Vec<u32>, chain_weights: Vec<u32>) -> Object
    requires blocks { length weights.items ≡ length object.blocks }
    requires chains { length chain_weights.items ≡ chains_among object.entities }
    requires range { All IsWeight weights.items }
    requires chain_range { All IsWeight chain_weights.items }
    ensures { result ≡ record object { weights = weights.items; chain_weights = chain_weights.items } }
{
    let mut parts = object.into_parts();
    parts.weights = Items::from_vec(weights);
    parts.chain_weights = Items::from_vec(chain_weights);
    match build(parts) {
        Ok(object) => object,
        Err(_) => unreachable!(),
    }
}

/// An object with weights in the place of its own, each from 1 to 1,000,000,000; all else stays as it is. Where any weights
/// pass, these do, and each is at most the other's. They are raised from the least on, in one pass behind what the rules of
/// weights count, where there is an order for that; else in rounds, in each of them the blocks in order and then the user
/// chains, until one raises nothing, or for as many as there are blocks and user chains, and one more (ours: docs/weights.md).
/// Kinds have to pass before. For want of memory the object comes back as it was.
pub fn weigh(alloc: Global, object: Object) -> Result<Object, (Object, Memory)>
    requires kinds { KindsPass object }
    ensures rest { IfOk result (λ o. DifferInWeights object o) }
    ensures least { IfOk result HasLeastWeights }
    ensures refused { IfErr result (λ e. e.0 ≡ object) }
{
    match weights_in(alloc, &object) {
        Ok(weights) => {
            let Weights { blocks, chains } = weights;
            Ok(with_weights(object, blocks, chains))
        }
        Err(memory) => Err((object, memory)),
    }
}
