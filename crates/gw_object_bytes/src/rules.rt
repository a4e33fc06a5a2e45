//! Whether parts keep the rules of the object format.

ghost use Rattle.std.specs.Prelude.{◌≡◌, ◌↔◌, ◌≤◌, length, IsTrue, MatchOption};
ghost use Rattle.std.specs.List.{All};
ghost use Rattle.gw_object.specs.Limits.{most_bytes, greatest_seed};
ghost use Rattle.gw_object.specs.Grammar.{HasLetters, HasSpelling, IsCanonical, IsWithinLimits, Refuses, spelling, weight};
ghost use Rattle.gw_object.specs.Grammar as model;

use crate::certificate::{are_slopes_of_version, slopes_fit};
use crate::entities::{are_lettered, entities_ascend, entities_fit, names_are_own};
use crate::returns::{return_rows_ascend, return_rows_fit};
use crate::states::{states_ascend, states_fit};
use crate::writing::room_after_parts;
use gw_block_bytes::{are_of_version, blocks_fit};
use gw_code_bytes::{procedures_ascend, procedures_fit};
use gw_object::codes::{LIMIT, NOT_CANONICAL, TAG};
use gw_object::{
    GREATEST_COUNT, GREATEST_SEED, GREATEST_WEIGHT, MOST_BLOCKS, MOST_BYTES, MOST_ENTITIES,
    MOST_PROCEDURES, MOST_RETURN_ROWS, MOST_SEEDS, Parts, chains_in,
};

/// Whether each seed is in range.
fn seeds_fit(seeds: &[u32]) -> bool
    ensures { IsTrue result ↔ All (λ seed. seed ≤ greatest_seed) seeds.now }
{
    seeds.iter().all(|seed| *seed <= GREATEST_SEED)
}

/// Whether each weight is in range.
fn weights_fit(weights: &[u32]) -> bool
    ensures { IsTrue result ↔ All weight.Fits weights.now }
{
    weights
        .iter()
        .all(|weight| 1 <= *weight && *weight <= GREATEST_WEIGHT)
}

/// Whether a number is that of a version.
pub fn is_version(number: u16) -> bool
    ensures { result ≡ model.is_version number }
{
    number == 1 || number == 2
}

/// Whether the version, each byte of a name and the tag of each block are among those that their fields list, and the version
/// has each slope of a weight.
fn has_letters(parts: &Parts) -> bool
    ensures { IsTrue result ↔ HasLetters parts.now }
{
    is_version(parts.version)
        && are_lettered(parts.entities.as_slice())
        && are_of_version(parts.version, parts.blocks.as_slice())
        && are_slopes_of_version(parts.version, parts.slopes.as_slice())
}

/// Whether the spelling of parts is at most 1 MiB: its bytes are counted, and not written.
fn size_fits(parts: &Parts) -> bool
    ensures { IsTrue result ↔ (length (spelling parts.now) ≤ most_bytes) }
{
    room_after_parts(parts, MOST_BYTES).is_some()
}

/// Whether parts keep the limits of the format.
fn is_within_limits(parts: &Parts) -> bool
    ensures { IsTrue result ↔ IsWithinLimits parts.now }
{
    let seeds = parts.seeds.as_slice();
    let entities = parts.entities.as_slice();
    let procedures = parts.procedures.as_slice();
    let blocks = parts.blocks.as_slice();
    let returns = parts.returns.as_slice();
    let states = parts.states.as_slice();
    let chain_states = parts.chain_states.as_slice();
    let weights = parts.weights.as_slice();
    let chain_weights = parts.chain_weights.as_slice();
    if seeds.len() > MOST_SEEDS || entities.len() > MOST_ENTITIES || blocks.len() > MOST_BLOCKS {
        return false;
    }
    if procedures.len() > MOST_PROCEDURES || returns.len() > MOST_RETURN_ROWS {
        return false;
    }
    if states.len() != blocks.len() || weights.len() != blocks.len() {
        return false;
    }
    if parts.slopes.as_slice().len() != blocks.len() {
        return false;
    }
    let chains = chains_in(entities);
    if chain_states.len() != chains || chain_weights.len() != chains {
        return false;
    }
    if parts.count < 1 || parts.count > GREATEST_COUNT {
        return false;
    }
    seeds_fit(seeds)
        && entities_fit(entities)
        && procedures_fit(procedures)
        && blocks_fit(blocks)
        && return_rows_fit(returns)
        && states_fit(states)
        && states_fit(chain_states)
        && weights_fit(weights)
        && slopes_fit(parts.slopes.as_slice())
        && weights_fit(chain_weights)
        && size_fits(parts)
}

/// Whether parts are the one form of what they say: the last seed isn't 0, each entity has a name of its own, and
/// what has to ascend does.
fn is_canonical(parts: &Parts) -> bool
    ensures { IsTrue result ↔ IsCanonical parts.now }
{
    let entities = parts.entities.as_slice();
    let returns = parts.returns.as_slice();
    if !entities_ascend(entities) || !procedures_ascend(parts.procedures.as_slice()) {
        return false;
    }
    if !return_rows_ascend(returns) || !states_ascend(parts.states.as_slice()) {
        return false;
    }
    if !states_ascend(parts.chain_states.as_slice()) {
        return false;
    }
    parts.seeds.as_slice().last() != Some(&0) && names_are_own(entities)
}

/// The lowest code that applies anywhere in parts that have no spelling.
pub fn broken_rule(parts: &Parts) -> Option<u16>
    ensures { MatchOption result (HasSpelling parts.now) (λ code. Refuses code parts.now) }
{
    if !has_letters(parts) {
        return Some(TAG);
    }
    if !is_within_limits(parts) {
        return Some(LIMIT);
    }
    if !is_canonical(parts) {
        return Some(NOT_CANONICAL);
    }
    None
}
