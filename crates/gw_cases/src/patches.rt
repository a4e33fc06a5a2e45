//! Changes of an object's parts, by the names of fields, and of its spelling, by places.

use crate::bytes::put_words;
use crate::rows::chain_place;
use crate::stop::Stop;
use crate::words::{
    behind_word, first_meaning, first_of, number, number_in, number_u8, number_u16, number_u32,
    only_of, place,
};
use gw_block_bytes::read_block;
use gw_code_bytes::CodeFormat;
use gw_field_bytes::Spelled;
use gw_object::{
    Block, Entity, Items, Parts, Procedure, ReturnRow, TableKind, TableParameter, TableState, Units,
};
use std::alloc::{AllocError, Global};
use std::mem;

/// Puts a value at a place of a list.
fn set_at<T: Drop>(
    alloc: Global,
    items: &mut Items<T>,
    place: usize,
    value: T,
) -> Result<(), Stop> {
    let mut list = mem::replace(items, Items::from_vec(Vec::new(alloc))).into_vec();
    let found = set_in(&mut list, place, value);
    drop(mem::replace(items, Items::from_vec(list)));
    found
}

/// Puts a value at a place.
fn set_in<T: Drop>(list: &mut Vec<T>, place: usize, value: T) -> Result<(), Stop> {
    match list.get_mut(place) {
        Some(slot) => {
            drop(mem::replace(slot, value));
            Ok(())
        }
        None => Err(Stop::Unknown),
    }
}

/// Puts a value behind a list.
fn push<T: Drop>(alloc: Global, items: &mut Items<T>, value: T) -> Result<(), AllocError> {
    let mut list = mem::replace(items, Items::from_vec(Vec::new(alloc))).into_vec();
    let found = list.push(value).map_err(AllocError::from);
    drop(mem::replace(items, Items::from_vec(list)));
    found
}

/// The number of the first entity that has a name; or the number that the name spells.
fn entity_number(entities: &[Entity], name: &[u8]) -> Result<u16, Stop> {
    match entities
        .iter()
        .position(|entity| entity.name.as_slice() == name)
    {
        Some(place) => u16::try_from(place).map_err(|_| Stop::Unknown),
        None => number_u16(name),
    }
}

/// The place of a block, by its number from 1.
fn block_place(word: &[u8]) -> Result<usize, Stop> {
    place(word)?.checked_sub(1).ok_or(Stop::Unknown)
}

/// The value that words spell, wholly.
fn spelled<Format, T: Spelled<Format>>(alloc: Global, words: &[&[u8]]) -> Result<T, Stop> {
    let mut bytes = Vec::new(alloc);
    put_words(&mut bytes, words)?;
    match T::read(alloc, bytes.as_slice()) {
        Ok((value, [])) => Ok(value),
        Ok(_) => Err(Stop::Unknown),
        Err(_) => Err(Stop::Unknown),
    }
}

/// The block that words spell, wholly, in version 2, which has all blocks.
fn spelled_block(alloc: Global, words: &[&[u8]]) -> Result<Block, Stop> {
    let mut bytes = Vec::new(alloc);
    put_words(&mut bytes, words)?;
    match read_block(alloc, 2, bytes.as_slice()) {
        Ok((block, [])) => Ok(block),
        Ok(_) => Err(Stop::Unknown),
        Err(_) => Err(Stop::Unknown),
    }
}

/// What a line of a script changes of a block.
#[derive(Clone, Copy)]
enum OfBlock {
    /// Its weight.
    Weight,
    /// The slope of its weight.
    Slope,
    /// The block itself, by its spelling.
    Bytes,
}

/// The words that say what is changed of a block.
const OF_BLOCK: &[(&[u8], OfBlock)] = &[
    (b"weight", OfBlock::Weight),
    (b"slope", OfBlock::Slope),
    (b"bytes", OfBlock::Bytes),
];

/// Changes a block's weight.
fn set_weight(alloc: Global, parts: &mut Parts, block: usize, words: &[&[u8]]) -> Result<(), Stop> {
    let weight = number_u32(only_of(words)?)?;
    set_at(alloc, &mut parts.weights, block, weight)
}

/// Changes a block's slope.
fn set_slope(alloc: Global, parts: &mut Parts, block: usize, words: &[&[u8]]) -> Result<(), Stop> {
    let (parameter, rest) = first_of(words)?;
    let value = only_of(rest)?;
    let slope = Some((number_u8(parameter)?, number_u32(value)?));
    set_at(alloc, &mut parts.slopes, block, slope)
}

/// Changes a block: `B weight W`, `B slope P N` or `B bytes HEX ..`.
fn patch_block(alloc: Global, parts: &mut Parts, words: &[&[u8]]) -> Result<(), Stop> {
    let (block, rest) = first_of(words)?;
    let block = block_place(block)?;
    let (changed, rest) = first_meaning(OF_BLOCK, rest)?;
    match changed {
        OfBlock::Weight => set_weight(alloc, parts, block, rest),
        OfBlock::Slope => set_slope(alloc, parts, block, rest),
        OfBlock::Bytes => {
            let value = spelled_block(alloc, rest)?;
            set_at(alloc, &mut parts.blocks, block, value)
        }
    }
}

/// A row that says nothing.
fn empty_row(alloc: Global) -> TableState {
    TableState {
        parameters: Items::from_vec(Vec::new(alloc)),
        facilities: Items::from_vec(Vec::new(alloc)),
        units: Items::from_vec(Vec::new(alloc)),
    }
}

/// What a parameter of a row holds.
fn table_kind(words: &[&[u8]]) -> Result<TableKind, Stop> {
    let (first, rest) = first_of(words)?;
    if first == b"number".as_slice() && rest.is_empty() {
        return Ok(TableKind::Num);
    }
    let row = only_of(behind_word(b"return", words)?)?;
    Ok(TableKind::Ret(number_u16(row)?))
}

/// What a line of a script adds to a row.
#[derive(Clone, Copy)]
enum Addition {
    /// A facility that is owned.
    Facility,
    /// Units of an entity.
    Units,
    /// A parameter, and what it holds.
    Parameter,
}

/// The words that say what is added to a row.
const ADDITIONS: &[(&[u8], Addition)] = &[
    (b"facility", Addition::Facility),
    (b"units", Addition::Units),
    (b"parameter", Addition::Parameter),
];

/// Adds a facility to a row.
fn add_facility(
    alloc: Global,
    row: &mut TableState,
    entities: &[Entity],
    words: &[&[u8]],
) -> Result<(), Stop> {
    let facility = entity_number(entities, only_of(words)?)?;
    push(alloc, &mut row.facilities, facility)?;
    Ok(())
}

/// Adds units to a row.
fn add_units(
    alloc: Global,
    row: &mut TableState,
    entities: &[Entity],
    words: &[&[u8]],
) -> Result<(), Stop> {
    let (units, rest) = first_of(words)?;
    let entity = entity_number(entities, only_of(rest)?)?;
    let number = number_u32(units)?;
    push(alloc, &mut row.units, Units { entity, number })?;
    Ok(())
}

/// Adds a parameter to a row.
fn add_parameter(alloc: Global, row: &mut TableState, words: &[&[u8]]) -> Result<(), Stop> {
    let (parameter, kind) = first_of(words)?;
    let number = number_u8(parameter)?;
    let kind = table_kind(kind)?;
    push(alloc, &mut row.parameters, TableParameter { number, kind })?;
    Ok(())
}

/// Adds what a row says: `facility NAME`, `units N NAME`, `parameter P number` or `parameter P return R`.
fn add_to_row(
    alloc: Global,
    row: &mut TableState,
    entities: &[Entity],
    words: &[&[u8]],
) -> Result<(), Stop> {
    let (addition, rest) = first_meaning(ADDITIONS, words)?;
    match addition {
        Addition::Facility => add_facility(alloc, row, entities, rest),
        Addition::Units => add_units(alloc, row, entities, rest),
        Addition::Parameter => add_parameter(alloc, row, rest),
    }
}

/// Makes a row none, or an empty one, as a word says.
fn put_bare_row(alloc: Global, slot: &mut Option<TableState>, word: &[u8]) -> Result<(), Stop> {
    if word == b"none".as_slice() {
        drop(mem::replace(slot, None));
        Ok(())
    } else if word == b"empty".as_slice() {
        drop(mem::replace(slot, Some(empty_row(alloc))));
        Ok(())
    } else {
        Err(Stop::Unknown)
    }
}

/// Makes a row what a line of a script says: none, an empty one, or what it was with one thing more.
fn change_row(
    alloc: Global,
    slot: &mut Option<TableState>,
    entities: &[Entity],
    words: &[&[u8]],
) -> Result<(), Stop> {
    match words {
        [word] => put_bare_row(alloc, slot, word),
        _ => match slot {
            Some(row) => add_to_row(alloc, row, entities, words),
            None => Err(Stop::Unknown),
        },
    }
}

/// Changes the row at a place.
fn patch_row(
    alloc: Global,
    rows: &mut Items<Option<TableState>>,
    place: usize,
    entities: &[Entity],
    words: &[&[u8]],
) -> Result<(), Stop> {
    let mut list = mem::replace(rows, Items::from_vec(Vec::new(alloc))).into_vec();
    let found = match list.get_mut(place) {
        Some(slot) => change_row(alloc, slot, entities, words),
        None => Err(Stop::Unknown),
    };
    drop(mem::replace(rows, Items::from_vec(list)));
    found
}

/// Changes the row of a block, which is given by its number, or of a user chain, which is given by its name.
fn patch_state(alloc: Global, parts: &mut Parts, words: &[&[u8]]) -> Result<(), Stop> {
    let (name, rest) = first_of(words)?;
    let entities = parts.entities.as_slice();
    match number_in(name) {
        Some(_) => patch_row(alloc, &mut parts.states, block_place(name)?, entities, rest),
        None => {
            let chain = chain_place(entities, name).ok_or(Stop::Unknown)?;
            patch_row(alloc, &mut parts.chain_states, chain, entities, rest)
        }
    }
}

/// The numbers that words spell, 16 bits each.
fn numbers_u16(alloc: Global, words: &[&[u8]]) -> Result<Vec<u16>, Stop> {
    let mut numbers = Vec::new(alloc);
    for word in words {
        numbers.push(number_u16(word)?)?;
    }
    Ok(numbers)
}

/// The numbers that words spell, 32 bits each.
fn numbers_u32(alloc: Global, words: &[&[u8]]) -> Result<Vec<u32>, Stop> {
    let mut numbers = Vec::new(alloc);
    for word in words {
        numbers.push(number_u32(word)?)?;
    }
    Ok(numbers)
}

/// Changes a user chain's weight: `NAME weight W`.
fn patch_chain(alloc: Global, parts: &mut Parts, words: &[&[u8]]) -> Result<(), Stop> {
    let (name, rest) = first_of(words)?;
    let value = only_of(behind_word(b"weight", rest)?)?;
    let chain = chain_place(parts.entities.as_slice(), name).ok_or(Stop::Unknown)?;
    let weight = number_u32(value)?;
    set_at(alloc, &mut parts.chain_weights, chain, weight)
}

/// Changes a procedure: `P bytes HEX ..`.
fn patch_procedure(alloc: Global, parts: &mut Parts, words: &[&[u8]]) -> Result<(), Stop> {
    let (procedure, rest) = first_of(words)?;
    let value = spelled::<CodeFormat, Procedure>(alloc, behind_word(b"bytes", rest)?)?;
    match place(procedure) {
        Ok(place) => set_at(alloc, &mut parts.procedures, place, value),
        Err(stop) => {
            drop(value);
            Err(stop)
        }
    }
}

/// Changes the version.
fn set_version(parts: &mut Parts, words: &[&[u8]]) -> Result<(), Stop> {
    parts.version = number_u16(only_of(words)?)?;
    Ok(())
}

/// Changes the termination count.
fn set_count(parts: &mut Parts, words: &[&[u8]]) -> Result<(), Stop> {
    parts.count = number(only_of(words)?)?;
    Ok(())
}

/// Changes the seeds.
fn set_seeds(alloc: Global, parts: &mut Parts, words: &[&[u8]]) -> Result<(), Stop> {
    let seeds = Items::from_vec(numbers_u32(alloc, words)?);
    drop(mem::replace(&mut parts.seeds, seeds));
    Ok(())
}

/// Puts so many slopes that aren't there in the place of all slopes.
fn set_slopes(alloc: Global, parts: &mut Parts, words: &[&[u8]]) -> Result<(), Stop> {
    let number = place(only_of(words)?)?;
    let slopes = Items::from_vec(vec![in alloc; None; number]?);
    drop(mem::replace(&mut parts.slopes, slopes));
    Ok(())
}

/// Adds a return row.
fn add_return(alloc: Global, parts: &mut Parts, words: &[&[u8]]) -> Result<(), Stop> {
    let blocks = Items::from_vec(numbers_u16(alloc, words)?);
    push(alloc, &mut parts.returns, ReturnRow { blocks })?;
    Ok(())
}

/// What a line of a script changes.
#[derive(Clone, Copy)]
enum Change {
    /// The version.
    Version,
    /// The termination count.
    Count,
    /// The seeds.
    Seeds,
    /// How many slopes there are.
    Slopes,
    /// A block, its weight or its slope.
    Block,
    /// The weight of a user chain.
    Chain,
    /// A procedure.
    Procedure,
    /// The return rows: there is one more.
    Return,
    /// The row of a block or of a user chain.
    State,
}

/// The words with which such lines begin.
const CHANGES: &[(&[u8], Change)] = &[
    (b"version", Change::Version),
    (b"count", Change::Count),
    (b"seeds", Change::Seeds),
    (b"slopes", Change::Slopes),
    (b"block", Change::Block),
    (b"chain", Change::Chain),
    (b"procedure", Change::Procedure),
    (b"return", Change::Return),
    (b"state", Change::State),
];

/// Changes parts as a line of a script says:
///
/// - `version N`: the version;
/// - `count N`: the termination count;
/// - `seeds N ..`: the seeds;
/// - `block B weight W`, `chain NAME weight W`: a weight;
/// - `block B slope P N`: the slope of a block's weight; `slopes N`: so many slopes, of which none is there;
/// - `block B bytes HEX ..`, `procedure P bytes HEX ..`: a block or a procedure, by its spelling;
/// - `return B ..`: one more return row;
/// - `state PLACE none`, `state PLACE empty`, `state PLACE facility NAME`, `state PLACE units N NAME`, `state PLACE parameter P
///   number`, `state PLACE parameter P return R`: the row of a block or of a user chain, of which the last four add to it.
pub fn apply(alloc: Global, parts: &mut Parts, words: &[&[u8]]) -> Result<(), Stop> {
    let (change, rest) = first_meaning(CHANGES, words)?;
    match change {
        Change::Version => set_version(parts, rest),
        Change::Count => set_count(parts, rest),
        Change::Seeds => set_seeds(alloc, parts, rest),
        Change::Slopes => set_slopes(alloc, parts, rest),
        Change::Block => patch_block(alloc, parts, rest),
        Change::Chain => patch_chain(alloc, parts, rest),
        Change::Procedure => patch_procedure(alloc, parts, rest),
        Change::Return => add_return(alloc, parts, rest),
        Change::State => patch_state(alloc, parts, rest),
    }
}

/// Puts the bytes that words spell in the place of those from one place to another: `6 7 ff 00` puts two bytes in the place of
/// the one at 6.
pub fn splice(alloc: Global, bytes: &mut Vec<u8>, words: &[&[u8]]) -> Result<(), Stop> {
    match words {
        [from, to, rest @ ..] => {
            let from = place(from)?;
            let to = place(to)?;
            if from > to || to > bytes.len() {
                return Err(Stop::Unknown);
            }
            let behind = Vec::from_slice(alloc, &bytes.as_slice()[to..])?;
            bytes.truncate(from);
            put_words(bytes, rest)?;
            bytes.extend_from_slice(behind.as_slice())?;
            Ok(())
        }
        _ => Err(Stop::Unknown),
    }
}
