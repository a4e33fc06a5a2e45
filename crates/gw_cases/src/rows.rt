//! Rows of the state table, and weights, in words.

use crate::stop::Stop;
use crate::words::{number_in, number_u16};
use gw_object::{
    Entity, Kind, Object, Parts, ReturnRow, TableKind, TableParameter, TableState, Units,
};
use std::alloc::{AllocError, Global};

/// Appends a text and a number.
pub fn put_number(
    alloc: Global,
    out: &mut Vec<u8>,
    text: &[u8],
    number: u64,
) -> Result<(), AllocError> {
    let digits = format!(in alloc; "{number}")?;
    out.extend_from_slice(text)?;
    out.extend_from_slice(digits.as_bytes())
}

/// Appends numbers, each behind a blank.
fn put_numbers(alloc: Global, out: &mut Vec<u8>, numbers: &[u32]) -> Result<(), AllocError> {
    for number in numbers {
        put_number(alloc, out, b" ", u64::from(*number))?;
    }
    Ok(())
}

/// Appends the weights of blocks, and of user chains where there are some.
pub fn put_weights(alloc: Global, out: &mut Vec<u8>, parts: &Parts) -> Result<(), AllocError> {
    out.extend_from_slice(b"weights")?;
    put_numbers(alloc, out, parts.weights.as_slice())?;
    let chains = parts.chain_weights.as_slice();
    if !chains.is_empty() {
        out.extend_from_slice(b", chains")?;
        put_numbers(alloc, out, chains)?;
    }
    out.push(b'\n')?;
    Ok(())
}

/// Appends the name of an entity, or its number where there is none.
fn put_name(
    alloc: Global,
    out: &mut Vec<u8>,
    entities: &[Entity],
    number: u16,
) -> Result<(), AllocError> {
    match entities.get(number as usize) {
        Some(entity) => {
            out.push(b' ')?;
            out.extend_from_slice(entity.name.as_slice())
        }
        None => put_number(alloc, out, b" ", u64::from(number)),
    }
}

/// Appends what a parameter holds.
fn put_kind(
    alloc: Global,
    out: &mut Vec<u8>,
    returns: &[ReturnRow],
    kind: TableKind,
) -> Result<(), AllocError> {
    match kind {
        TableKind::Num => out.extend_from_slice(b" number"),
        TableKind::Ret(row) => {
            out.extend_from_slice(b" return")?;
            match returns.get(row as usize) {
                Some(row) => put_blocks(alloc, out, row.blocks.as_slice()),
                None => Ok(()),
            }
        }
    }
}

/// Appends the numbers of blocks, each behind a blank.
fn put_blocks(alloc: Global, out: &mut Vec<u8>, blocks: &[u16]) -> Result<(), AllocError> {
    for block in blocks {
        put_number(alloc, out, b" ", u64::from(*block))?;
    }
    Ok(())
}

/// Appends a line for each parameter of a row.
fn put_parameters(
    alloc: Global,
    out: &mut Vec<u8>,
    returns: &[ReturnRow],
    parameters: &[TableParameter],
) -> Result<(), AllocError> {
    for parameter in parameters {
        put_number(alloc, out, b"parameter ", u64::from(parameter.number))?;
        put_kind(alloc, out, returns, parameter.kind)?;
        out.push(b'\n')?;
    }
    Ok(())
}

/// Appends a line for each facility of a row.
fn put_facilities(
    alloc: Global,
    out: &mut Vec<u8>,
    entities: &[Entity],
    facilities: &[u16],
) -> Result<(), AllocError> {
    for facility in facilities {
        out.extend_from_slice(b"facility")?;
        put_name(alloc, out, entities, *facility)?;
        out.push(b'\n')?;
    }
    Ok(())
}

/// Appends a line for each entity of which a row has units.
fn put_units(
    alloc: Global,
    out: &mut Vec<u8>,
    entities: &[Entity],
    units: &[Units],
) -> Result<(), AllocError> {
    for held in units {
        put_number(alloc, out, b"units ", u64::from(held.number))?;
        put_name(alloc, out, entities, held.entity)?;
        out.push(b'\n')?;
    }
    Ok(())
}

/// Appends the lines of a row; of one that says nothing `empty`, and of none `none`.
fn put_row(
    alloc: Global,
    out: &mut Vec<u8>,
    parts: &Parts,
    row: &Option<TableState>,
) -> Result<(), AllocError> {
    match row {
        None => out.extend_from_slice(b"none\n"),
        Some(row) => {
            let begin = out.len();
            put_parameters(
                alloc,
                out,
                parts.returns.as_slice(),
                row.parameters.as_slice(),
            )?;
            put_facilities(
                alloc,
                out,
                parts.entities.as_slice(),
                row.facilities.as_slice(),
            )?;
            put_units(alloc, out, parts.entities.as_slice(), row.units.as_slice())?;
            if out.len() == begin {
                out.extend_from_slice(b"empty\n")?;
            }
            Ok(())
        }
    }
}

/// The place of a user chain among the user chains.
pub fn chain_place(entities: &[Entity], name: &[u8]) -> Option<usize> {
    let mut chains: usize = 0;
    for entity in entities {
        if matches!(entity.kind, Kind::Chain) {
            if entity.name.as_slice() == name {
                return Some(chains);
            }
            chains = chains.saturating_add(1);
        }
    }
    None
}

/// The row of a block, which is given by its number from 1, or of a user chain, which is given by its name.
fn row_at<'a>(parts: &'a Parts, name: &[u8]) -> Result<&'a Option<TableState>, Stop> {
    let row = match number_in(name) {
        Some(_) => match usize::from(number_u16(name)?).checked_sub(1) {
            Some(place) => parts.states.as_slice().get(place),
            None => None,
        },
        None => match chain_place(parts.entities.as_slice(), name) {
            Some(place) => parts.chain_states.as_slice().get(place),
            None => None,
        },
    };
    row.ok_or(Stop::Unknown)
}

/// Appends the lines of the row of a block or of a user chain.
pub fn put_row_at(
    alloc: Global,
    out: &mut Vec<u8>,
    object: &Object,
    name: &[u8],
) -> Result<(), Stop> {
    let parts = object.parts();
    let row = row_at(parts, name)?;
    put_row(alloc, out, parts, row)?;
    Ok(())
}
