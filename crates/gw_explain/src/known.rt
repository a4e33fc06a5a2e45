//! What is known of a transaction, in words, where a model or an object is refused by flow (docs/object-format.md).

use gw_object::{
    Block, Entity, Fault, Kind, Memory, Parts, Place, Split, TableKind, TableParameter, TableState,
    Units,
};
use gw_rules::chain_row;
use gw_rules::flow_codes::CHAIN_STATE;
use gw_writing::{put, put_number};
use indexmap::IndexMap;
use std::alloc::Global;

/// What an object has, and what is known of its transactions.
#[derive(Clone, Copy)]
pub(crate) struct Flow<'a> {
    /// The entities and the blocks, and the state table.
    pub(crate) parts: &'a Parts,
    /// The parameters that have names.
    pub(crate) names: &'a IndexMap<String, u8>,
}

/// The name of an entity, by its number.
pub(crate) fn put_name(out: &mut Vec<u8>, entities: &[Entity], number: u16) -> Result<(), Memory> {
    match entities.get(number as usize) {
        Some(entity) => out.extend_from_slice(entity.name.as_slice()),
        None => Ok(()),
    }
}

/// What stands before one of several: nothing before the first.
fn put_comma(out: &mut Vec<u8>, place: usize) -> Result<(), Memory> {
    if place == 0 { Ok(()) } else { put(out, ", ") }
}

/// Which facilities are owned.
fn put_facilities(
    out: &mut Vec<u8>,
    entities: &[Entity],
    facilities: &[u16],
) -> Result<(), Memory> {
    if facilities.is_empty() {
        return put(out, "owns no facility");
    }
    put(
        out,
        if facilities.len() == 1 {
            "owns facility "
        } else {
            "owns facilities "
        },
    )?;
    for i in 0..facilities.len() {
        put_comma(out, i)?;
        put_name(out, entities, facilities[i])?;
    }
    Ok(())
}

/// The name of a parameter, if it has one.
pub(crate) fn name_of(names: &IndexMap<String, u8>, number: u8) -> Option<&String> {
    for (name, named) in names.iter() {
        if *named == number {
            return Some(name);
        }
    }
    None
}

/// The parameter of a number, as a text speaks of its value.
pub(crate) fn put_parameter_of(
    out: &mut Vec<u8>,
    names: &IndexMap<String, u8>,
    number: u8,
) -> Result<(), Memory> {
    match name_of(names, number) {
        Some(name) => {
            put(out, "P$")?;
            put(out, name)
        }
        None => put_number(out, "P", number),
    }
}

/// A parameter, and whether it is where a subroutine goes back to.
fn put_parameter(
    out: &mut Vec<u8>,
    names: &IndexMap<String, u8>,
    parameter: &TableParameter,
) -> Result<(), Memory> {
    put_parameter_of(out, names, parameter.number)?;
    match parameter.kind {
        TableKind::Num => Ok(()),
        TableKind::Ret(_) => put(out, " (where a subroutine goes back to)"),
    }
}

/// Which parameters are sure to be set.
fn put_parameters(
    out: &mut Vec<u8>,
    names: &IndexMap<String, u8>,
    parameters: &[TableParameter],
) -> Result<(), Memory> {
    if parameters.is_empty() {
        return put(out, "has no parameter");
    }
    put(out, "has ")?;
    for i in 0..parameters.len() {
        put_comma(out, i)?;
        put_parameter(out, names, &parameters[i])?;
    }
    Ok(())
}

/// Of which kind an entity is whose units are held, by its number.
fn put_kind(out: &mut Vec<u8>, entities: &[Entity], number: u16) -> Result<(), Memory> {
    match entities.get(number as usize).map(|entity| &entity.kind) {
        Some(Kind::Storage(_)) => put(out, "storage "),
        Some(Kind::Queue) => put(out, "queue "),
        _ => Ok(()),
    }
}

/// Which units are sure to be held.
fn put_units(out: &mut Vec<u8>, entities: &[Entity], units: &[Units]) -> Result<(), Memory> {
    if units.is_empty() {
        return put(out, "holds no units");
    }
    put(out, "holds at least ")?;
    for i in 0..units.len() {
        put_comma(out, i)?;
        put_number(out, "", units[i].number)?;
        put(out, " of ")?;
        put_kind(out, entities, units[i].entity)?;
        put_name(out, entities, units[i].entity)?;
    }
    Ok(())
}

/// A row of the state table.
fn put_row(out: &mut Vec<u8>, flow: Flow<'_>, row: &TableState) -> Result<(), Memory> {
    let entities = flow.parts.entities.as_slice();
    put_facilities(out, entities, row.facilities.as_slice())?;
    put(out, "; ")?;
    put_parameters(out, flow.names, row.parameters.as_slice())?;
    put(out, "; ")?;
    put_units(out, entities, row.units.as_slice())?;
    put(out, "\n")
}

/// The row of a block, by its number from 1.
fn row_of(rows: &[Option<TableState>], block: u16) -> Option<&TableState> {
    if block == 0 {
        return None;
    }
    match rows.get(block as usize - 1) {
        Some(Some(row)) => Some(row),
        Some(None) | None => None,
    }
}

/// A block, by its number from 1.
pub(crate) fn block_of(blocks: &[Block], number: u16) -> Option<&Block> {
    if number == 0 {
        None
    } else {
        blocks.get(number as usize - 1)
    }
}

/// What is known of a transaction that comes to a block.
pub(crate) fn put_at_block(out: &mut Vec<u8>, flow: Flow<'_>, number: u16) -> Result<(), Memory> {
    match row_of(flow.parts.states.as_slice(), number) {
        Some(row) => {
            put_number(out, "known: a transaction that comes to block ", number)?;
            put(out, " ")?;
            put_row(out, flow, row)
        }
        None => Ok(()),
    }
}

/// The facilities of these but one.
fn facilities_without(
    alloc: Global,
    facilities: &[u16],
    facility: u16,
) -> Result<Vec<u16>, Memory> {
    let mut left = Vec::new(alloc);
    for i in 0..facilities.len() {
        if facilities[i] != facility {
            left.push(facilities[i])?;
        }
    }
    Ok(left)
}

/// Whether who goes from the block of a number to another is a copy that a SPLIT makes there: it goes where copies go, or the
/// transaction itself may go to the next block with what it owns.
fn is_copy(split: &Split, from: u16, to: u16, may_go: bool) -> bool {
    let is_next = to as u32 == from as u32 + 1;
    if is_next {
        may_go
    } else {
        split.target == Some(to)
    }
}

/// The facilities of who has passed a block with these, and goes to another where these are known to be owned: a copy owns
/// nothing.
fn facilities_after(
    alloc: Global,
    block: &Block,
    facilities: &[u16],
    from: u16,
    to: u16,
    there: &[u16],
) -> Result<Vec<u16>, Memory> {
    match block {
        Block::Seize(facility) => {
            let mut all = Vec::from_slice(alloc, facilities)?;
            all.push(*facility)?;
            Ok(all)
        }
        Block::Release(facility) => facilities_without(alloc, facilities, *facility),
        Block::Split(split) if is_copy(split, from, to, facilities == there) => {
            Ok(Vec::new(alloc))
        }
        _ => Vec::from_slice(alloc, facilities),
    }
}

/// Which facilities who goes from a block to another owns, and which who comes there by another way.
fn put_ways(
    out: &mut Vec<u8>,
    flow: Flow<'_>,
    from: u16,
    to: u16,
    going: &[u16],
    there: &[u16],
) -> Result<(), Memory> {
    let entities = flow.parts.entities.as_slice();
    put_number(out, "known: a transaction that goes from block ", from)?;
    put_number(out, " to block ", to)?;
    put(out, " ")?;
    put_facilities(out, entities, going)?;
    put_number(out, "; one that comes to block ", to)?;
    put(out, " by another way ")?;
    put_facilities(out, entities, there)?;
    put(out, "\n")
}

/// What is known of members of a user chain, and of others.
fn put_members(
    out: &mut Vec<u8>,
    flow: Flow<'_>,
    chain: u16,
    members: &[u16],
    others: &str,
    there: &[u16],
) -> Result<(), Memory> {
    let entities = flow.parts.entities.as_slice();
    put(out, "known: a member of ")?;
    put_name(out, entities, chain)?;
    put(out, " ")?;
    put_facilities(out, entities, members)?;
    put(out, others)?;
    put_facilities(out, entities, there)?;
    put(out, "\n")
}

/// The facilities by a row, if there is one.
fn facilities_by(row: Option<&TableState>) -> &[u16] {
    match row {
        Some(row) => row.facilities.as_slice(),
        None => &[],
    }
}

/// What is known of who goes from a block to another, and of who comes there by another way.
fn put_on_edge(
    alloc: Global,
    out: &mut Vec<u8>,
    flow: Flow<'_>,
    from: u16,
    to: u16,
) -> Result<(), Memory> {
    let rows = flow.parts.states.as_slice();
    match block_of(flow.parts.blocks.as_slice(), from) {
        Some(block) => {
            let before = facilities_by(row_of(rows, from));
            let there = facilities_by(row_of(rows, to));
            let going = facilities_after(alloc, block, before, from, to, there)?;
            put_ways(out, flow, from, to, &going, there)
        }
        None => Ok(()),
    }
}

/// What is known of the members of a user chain, and of who joins them at a block, or comes another way to where they go.
fn put_at_chain(out: &mut Vec<u8>, flow: Flow<'_>, from: u16, to: u16) -> Result<(), Memory> {
    let there = facilities_by(row_of(flow.parts.states.as_slice(), to));
    match block_of(flow.parts.blocks.as_slice(), from) {
        Some(Block::Link(link)) => {
            let members = facilities_by(chain_row(flow.parts, link.chain));
            let others = "; a transaction that joins it here ";
            put_members(out, flow, link.chain, members, others, there)
        }
        Some(Block::Unlink(unlink)) => {
            let members = facilities_by(chain_row(flow.parts, unlink.chain));
            let others = "; a transaction that comes by another way to where they go ";
            put_members(out, flow, unlink.chain, members, others, there)
        }
        _ => Ok(()),
    }
}

/// What is known at the place of a fault of flow.
pub(crate) fn put_at(
    alloc: Global,
    out: &mut Vec<u8>,
    flow: Flow<'_>,
    fault: Fault,
) -> Result<(), Memory> {
    match fault.place {
        Place::Block(number) => put_at_block(out, flow, number),
        Place::Edge(from, to) if fault.code == CHAIN_STATE => put_at_chain(out, flow, from, to),
        Place::Edge(from, to) => put_on_edge(alloc, out, flow, from, to),
        _ => Ok(()),
    }
}
