//! The rows of user chains in a state table.

ghost use Rattle.std.specs.Prelude.{◌≡◌, option_map};
ghost use Rattle.gw_rules.specs.Kinds as model;

use gw_object::{Entity, Parts, TableState, chains_in};

/// How many user chains come before the entity of this number, from 0: where its row of the state table and its weight
/// stand among those of all user chains, if it is one itself.
pub fn chain_place(entities: &[Entity], entity: u16) -> usize
    ensures { result ≡ model.chain_place entities.now entity }
{
    chains_in(&entities[..(entity as usize).min(entities.len())])
}

/// The row of the state table of the user chain that is the entity of this number, from 0, if it has one.
pub fn chain_row(parts: &Parts, entity: u16) -> Option<&TableState>
    ensures { option_map (λ row. row.now) result ≡ model.chain_row parts.now entity }
{
    let place = chain_place(parts.entities.as_slice(), entity);
    parts.chain_states.as_slice().get(place)?.as_ref()
}
