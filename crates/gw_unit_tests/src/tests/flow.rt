//! Flow: what leaves a block of an object, by what is known of the transactions that come to it.

ghost use Rattle.std.specs.Prelude.{◌≡◌, ◌≤◌, ◌^◌, List, is_some, IsTrue, All};
ghost use Rattle.gw_object.specs.declared.parts.ReturnRow.{ReturnRow};
ghost use Rattle.gw_rules.specs.Rows.{HasRoom};
ghost use Rattle.gw_flow.specs.Known.{known_row};
ghost use Rattle.gw_rules.specs.Kinds.{block_at};

use gw_flow::{AbsState, Amount, Edge, StateParts, out_edges};
use gw_object::{Items, Object};
use gw_object_bytes::read;
use gw_rules::Target;
use gw_samples::QUEUEING;
use std::alloc::Global;
use std::test::Fail;

/// The facility of the object that `QUEUEING` spells, by its number.
const FACILITY: u16 = 1;

/// Whether there is a block of this number.
fn is_block(object: &Object, number: u16) -> bool
    ensures { result ≡ is_some (block_at object.now.blocks number) }
{
    number != 0 && number as usize <= object.parts().blocks.as_slice().len()
}

/// Whether there is room for what a block adds to amounts.
fn have_room(amounts: &[Amount]) -> bool
    ensures { IsTrue result → All (λ (a : Amount). a.number ≤ 2 ^ 62) amounts.now }
{
    amounts.iter().all(|amount| amount.number <= 1 << 62)
}

/// Whether a state knows no parameter, and has room for what a block adds to it.
fn has_room(state: &AbsState) -> bool
    ensures { IsTrue result → (rows : List ReturnRow) → HasRoom (known_row rows state.now) }
{
    let parts = state.parts();
    parts.parameters.as_slice().is_empty() && have_room(parts.units.as_slice())
}

/// The parts of a state that holds nothing.
fn nothing(alloc: Global) -> StateParts {
    StateParts {
        parameters: Items::from_vec(Vec::new(alloc)),
        facilities: Items::from_vec(Vec::new(alloc)),
        units: Items::from_vec(Vec::new(alloc)),
    }
}

/// Whether these edges are one, to block 4, on which the facility is owned, and nothing else is held.
fn is_seized(edges: &[Edge]) -> bool {
    let [edge] = edges else { return false };
    let state = edge.state.parts();
    edge.target == Target::Block(4)
        && state.parameters.as_slice().is_empty()
        && state.facilities.as_slice() == [FACILITY].as_slice()
        && state.units.as_slice().is_empty()
}

/// Whether the third block of an object, a SEIZE, has that edge alone in this state.
fn seizes(alloc: Global, object: &Object, state: &AbsState) -> bool {
    if !is_block(object, 3) || !has_room(state) {
        return false;
    }
    match out_edges(alloc, object, 3, state).ok() {
        Some(edges) => is_seized(&edges),
        None => false,
    }
}

/// Whether a SEIZE adds its facility to a state that holds nothing.
fn adds_facility(alloc: Global, object: &Object) -> bool {
    match AbsState::build(nothing(alloc)).ok() {
        Some(state) => seizes(alloc, object, &state),
        None => false,
    }
}

#[test]
fn a_seize_adds_its_facility(rt: HostRuntime) -> Result<(), Fail> {
    let object = read(rt.alloc(), QUEUEING).ok().ok_or("an object")?;
    assert!(rt; adds_facility(rt.alloc(), &object));
    Ok(())
}
