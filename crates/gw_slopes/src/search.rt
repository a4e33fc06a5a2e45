//! The search for a parameter whose slopes help.

ghost use Rattle.std.specs.Prelude.{◌≡◌, ◌≤◌, IfOk, length};
ghost use Rattle.gw_rules.specs.Seen.{HaveNext};
ghost use Rattle.gw_weighing.specs.Certificates.{IsCounted, with_weights};
ghost use Rattle.gw_slopes.specs.Found as model;

use crate::marks::counts;
use crate::slopes::slopes_of;
use crate::sources::Sources;
use gw_object::{Items, MOST_PARAMETERS, Memory, Parts, Slope};
use gw_weighing::{Weights, weights_of};
use gw_weights::{check_parts, own_row};
use std::alloc::Global;

/// The version of the object format that has slopes.
const WITH_SLOPES: u16 = 2;

/// Whether a LOOP that has a row of the state table uses a parameter.
fn is_tried(parts: &Parts, parameter: u8) -> bool
    requires { length parts.now.blocks ≤ 4096 }
    ensures { result ≡ model.is_tried parts.now parameter }
{
    let blocks = parts.blocks.as_slice();
    for i in 0..blocks.len() {
        if counts(&blocks[i], parameter) && own_row(parts, (i + 1) as u16).is_some() {
            return true;
        }
    }
    false
}

/// Puts slopes in the place of those of parts.
fn put_slopes(parts: &mut Parts, slopes: Vec<Option<Slope>>)
    ensures { parts.new ≡ model.with_slopes parts.old slopes.items }
{
    parts.version = WITH_SLOPES;
    parts.slopes = Items::from_vec(slopes);
}

/// Puts weights in the place of those of parts.
fn put_weights(parts: &mut Parts, weights: Weights)
    ensures { parts.new ≡ with_weights parts.old weights.blocks.items weights.chains.items }
{
    let Weights { blocks, chains } = weights;
    parts.weights = Items::from_vec(blocks);
    parts.chain_weights = Items::from_vec(chains);
}

/// Puts the slopes on a parameter into parts, and the least weights for these, and tells whether they pass.
fn passes_with(
    alloc: Global,
    parts: &mut Parts,
    sources: &Sources,
    parameter: u8,
) -> Result<bool, Memory>
    requires counted { IsCounted parts.old }
    requires next { HaveNext parts.old.returns }
    ensures tried { IfOk result (model.IsTrial parts.old parts.new parameter) }
{
    let slopes = slopes_of(alloc, parts, sources, parameter)?;
    put_slopes(parts, slopes);
    let weights = weights_of(alloc, parts)?;
    put_weights(parts, weights);
    Ok(check_parts(parts).is_ok())
}

/// Tries the slopes on a parameter, if a LOOP uses it, and tells whether they help.
fn helps(alloc: Global, parts: &mut Parts, sources: &Sources, parameter: u8) -> Result<bool, Memory>
    requires counted { IsCounted parts.old }
    requires next { HaveNext parts.old.returns }
    ensures { IfOk result (model.IsStep parts.old parts.new parameter) }
{
    if !is_tried(parts, parameter) {
        return Ok(false);
    }
    passes_with(alloc, parts, sources, parameter)
}

/// Tries the slopes on each parameter that a LOOP uses, in ascending order, until they help, and tells whether some did.
pub(crate) fn search(alloc: Global, parts: &mut Parts) -> Result<bool, Memory>
    requires counted { IsCounted parts.old }
    requires next { HaveNext parts.old.returns }
    ensures { IfOk result (model.IsSearched parts.old parts.new) }
{
    let sources = Sources::of(alloc, parts)?;
    for parameter in 1..MOST_PARAMETERS as u8 + 1 {
        if helps(alloc, parts, &sources, parameter)? {
            return Ok(true);
        }
    }
    Ok(false)
}
