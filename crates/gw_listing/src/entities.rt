//! Entities, and the rows of the state table.

use crate::operands::{put_name, put_operand, put_units};
use gw_object::{
    Entity, Function, Kind, Memory, ReturnRow, Table, TableKind, TableParameter, TableState, Units,
};
use gw_writing::{put, put_number};

/// The word of an entity's kind.
fn kind_word(kind: &Kind) -> &'static str {
    match kind {
        Kind::Facility => "FACILITY",
        Kind::Storage(_) => "STORAGE",
        Kind::Queue => "QUEUE",
        Kind::Switch(_) => "SWITCH",
        Kind::Savevalue(_) => "SAVEVALUE",
        Kind::Table(_) => "TABLE",
        Kind::Chain => "CHAIN",
        Kind::Variable(_) => "VARIABLE",
        Kind::BooleanVariable(_) => "BVARIABLE",
        Kind::Function(_) => "FUNCTION",
    }
}

fn put_table(out: &mut Vec<u8>, entities: &[Entity], table: &Table) -> Result<(), Memory> {
    put(out, " ")?;
    put_operand(out, entities, table.argument)?;
    put_number(out, ",", table.limit)?;
    put_number(out, ",", table.width)?;
    put_number(out, ",", table.classes)
}

fn put_function(out: &mut Vec<u8>, entities: &[Entity], function: &Function) -> Result<(), Memory> {
    put(out, " ")?;
    put_operand(out, entities, function.argument)?;
    for point in function.points.as_slice() {
        put_number(out, " ", point.x)?;
        put_number(out, ",", point.y)?;
    }
    Ok(())
}

/// What its kind has beside the name.
fn put_fields(out: &mut Vec<u8>, entities: &[Entity], kind: &Kind) -> Result<(), Memory> {
    match kind {
        Kind::Facility | Kind::Queue | Kind::Chain => Ok(()),
        Kind::Storage(capacity) => put_number(out, " ", *capacity),
        Kind::Switch(set) => put(out, if *set { " set" } else { " reset" }),
        Kind::Savevalue(value) => put_number(out, " ", *value),
        Kind::Table(table) => put_table(out, entities, table),
        Kind::Variable(procedure) | Kind::BooleanVariable(procedure) => {
            put_number(out, " procedure ", *procedure)
        }
        Kind::Function(function) => put_function(out, entities, function),
    }
}

/// An entity: its kind, its name, and what else it has.
pub(crate) fn put_entity(
    out: &mut Vec<u8>,
    entities: &[Entity],
    entity: &Entity,
) -> Result<(), Memory> {
    put(out, kind_word(&entity.kind))?;
    put(out, " ")?;
    out.extend_from_slice(entity.name.as_slice())?;
    put_fields(out, entities, &entity.kind)
}

/// A parameter that is set; one that holds a return names its row.
fn put_parameter(out: &mut Vec<u8>, parameter: &TableParameter) -> Result<(), Memory> {
    put_number(out, " P", parameter.number)?;
    match parameter.kind {
        TableKind::Num => Ok(()),
        TableKind::Ret(row) => put_number(out, " of return row ", row),
    }
}

/// The parameters that are set.
fn put_parameters(out: &mut Vec<u8>, parameters: &[TableParameter]) -> Result<(), Memory> {
    for parameter in parameters {
        put_parameter(out, parameter)?;
    }
    Ok(())
}

/// The facilities that are owned.
fn put_facilities(
    out: &mut Vec<u8>,
    entities: &[Entity],
    facilities: &[u16],
) -> Result<(), Memory> {
    for facility in facilities {
        put(out, " owns ")?;
        put_name(out, entities, *facility)?;
    }
    Ok(())
}

/// The units that are held.
fn put_held(out: &mut Vec<u8>, entities: &[Entity], units: &[Units]) -> Result<(), Memory> {
    for held in units {
        put(out, " holds ")?;
        put_units(out, entities, *held)?;
    }
    Ok(())
}

/// A row of the state table, or that nobody comes there.
pub(crate) fn put_state(
    out: &mut Vec<u8>,
    entities: &[Entity],
    state: Option<&Option<TableState>>,
) -> Result<(), Memory> {
    match state {
        Some(Some(state)) => {
            put_parameters(out, state.parameters.as_slice())?;
            put_facilities(out, entities, state.facilities.as_slice())?;
            put_held(out, entities, state.units.as_slice())
        }
        _ => put(out, " nobody comes here"),
    }
}

/// The blocks of a return row.
pub(crate) fn put_return_row(out: &mut Vec<u8>, row: &ReturnRow) -> Result<(), Memory> {
    for block in row.blocks.as_slice() {
        put_number(out, " ", *block)?;
    }
    Ok(())
}
