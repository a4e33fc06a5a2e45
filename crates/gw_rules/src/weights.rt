//! The weights of an object: how many block entries each place is worth until time passes.

ghost use Rattle.std.specs.Prelude.{◌≡◌};
ghost use Rattle.gw_rules.specs.Weights as model;

use crate::chain_rows::chain_place;
use gw_object::Parts;

/// The weight of the block of this number, from 1, where these are the weights of all blocks; 0 where there is no such block
/// (ours: docs/weights.md).
pub fn weight_at(weights: &[u32], number: u16) -> u32
    ensures { result ≡ model.weight_at weights.now number }
{
    if number == 0 {
        return 0;
    }
    weights.get(number as usize - 1).copied().unwrap_or(0)
}

/// The weight of the user chain that is the entity of this number, from 0 (ours: docs/weights.md).
pub fn chain_weight(parts: &Parts, chain: u16) -> u32
    ensures { result ≡ model.chain_weight parts.now chain }
{
    let place = chain_place(parts.entities.as_slice(), chain);
    parts
        .chain_weights
        .as_slice()
        .get(place)
        .copied()
        .unwrap_or(0)
}
