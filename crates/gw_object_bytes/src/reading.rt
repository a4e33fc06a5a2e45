//! Reading an object from left to right, up to the first fault.

ghost use Rattle.std.specs.Prelude.{◌≡◌, ◌≤◌, ◌<◌, ◌^◌, IfOk, Ok, Err, length};
ghost use Rattle.gw_object.specs.declared.parts.Parts.{Parts};
ghost use Rattle.gw_object.specs.Grammar.{head, tables, object, Spells};
ghost use Rattle.gw_fields.specs.Answers.{Gives};
ghost use Rattle.gw_object.specs.Limits.{most_bytes};
ghost use Rattle.gw_object.specs.Reading.{whole_read, fault_of_bad, too_long, first_fault};
ghost use Rattle.gw_object_bytes.specs.Laws.{AnswersUnlessMemory};

use crate::ObjectFormat;
use crate::certificate::read_certificate;
use crate::entities::Entities;
use crate::lists::{Seeds, Weights};
use crate::rules::is_version;
use gw_block_bytes::read_blocks;
use gw_code_bytes::CodeFormat;
use gw_field_bytes::{IfAny, Plain, Spelled, read_elements, read_listed, read_ranged_u64};
use gw_fields::{Bad, Items, ReadError, fault};
use gw_object::codes::{LIMIT, MAGIC, MEMORY, TRAILING, VERSION};
use gw_object::{
    Fault, GREATEST_COUNT, MOST_BLOCKS, MOST_BYTES, MOST_ENTITIES, MOST_PROCEDURES,
    MOST_RETURN_ROWS, MOST_SEEDS, Object, Parts, Place, Procedure, ReturnRow, Slope, TableState,
    chains_in,
};
use std::alloc::Global;

/// The letters `GPSO`.
const LETTERS: u32 = 0x4750_534f;

/// The letters `GPSO` and the version.
#[tactic(auto, unfolding(gw_object::specs::Grammar::head))]
fn read_head(alloc: Global, bytes: &[u8]) -> Result<(u16, &[u8]), ReadError>
    ensures { Gives (λ x. ((tt, x.0), x.1.now)) result (head.read bytes.now) }
{
    let (letters, rest) = u32::read(alloc, bytes)?;
    if letters != LETTERS {
        return Err(fault(MAGIC, bytes));
    }
    let (version, after) = u16::read(alloc, rest)?;
    if !is_version(version) {
        return Err(fault(VERSION, rest));
    }
    Ok((version, after))
}

/// What stands for each block, or for each user chain, of an object: its row of the state table.
type Rows = Items<Option<TableState>>;

/// The weights of the blocks, and their slopes.
type Certificate = (Items<u32>, Items<Option<Slope>>);

/// The return rows, the rows of the state table, the weights of the blocks with their slopes, and the weights of the user
/// chains.
type Tables = (Items<ReturnRow>, (Rows, (Rows, (Certificate, Items<u32>))));

/// The return rows, and what stands for each of so many blocks and each of so many user chains: its row of the state table,
/// and its weight, a block's with its slope.
#[tactic(auto, unfolding(gw_object::specs::Grammar::tables))]
fn read_tables(
    alloc: Global,
    version: u16,
    blocks: usize,
    chains: usize,
    bytes: &[u8],
) -> Result<(Tables, &[u8]), ReadError>
    ensures { Gives (λ x. (x.0, x.1.now)) result ((tables version blocks chains).read bytes.now) }
{
    let (returns, rest) = read_listed::<Plain<ObjectFormat, ReturnRow>>(
        alloc,
        bytes,
        0,
        MOST_RETURN_ROWS,
    )?;
    let (states, rest) = read_elements::<Plain<IfAny<ObjectFormat>, Option<TableState>>>(
        alloc, blocks, rest,
    )?;
    let (chain_states, rest) = read_elements::<Plain<IfAny<ObjectFormat>, Option<TableState>>>(
        alloc, chains, rest,
    )?;
    let (weights, rest) = read_certificate(alloc, version, blocks, rest)?;
    let (chain_weights, rest) = read_elements::<Weights>(alloc, chains, rest)?;
    let weights = (weights, Items::from_vec(chain_weights));
    let states = (
        Items::from_vec(states),
        (Items::from_vec(chain_states), weights),
    );
    Ok(((Items::from_vec(returns), states), rest))
}

/// The parts of an object, and the bytes after it.
#[tactic(auto, unfolding(gw_object::specs::Grammar::object))]
fn read_parts(alloc: Global, bytes: &[u8]) -> Result<(Parts, &[u8]), ReadError>
    ensures { Gives (λ x. (x.0, x.1.now)) result (object.read bytes.now) }
{
    let (version, rest) = read_head(alloc, bytes)?;
    let (seeds, rest) = read_listed::<Seeds>(alloc, rest, 0, MOST_SEEDS)?;
    let (count, rest) = read_ranged_u64(alloc, rest, 1, GREATEST_COUNT)?;
    let (entities, rest) = read_listed::<Entities>(alloc, rest, 0, MOST_ENTITIES)?;
    let (procedures, rest) = read_listed::<Plain<CodeFormat, Procedure>>(
        alloc,
        rest,
        0,
        MOST_PROCEDURES,
    )?;
    let (blocks, rest) = read_blocks(alloc, version, rest, MOST_BLOCKS)?;
    let chains = chains_in(&entities);
    let (tables, rest) = read_tables(alloc, version, blocks.len(), chains, rest)?;
    let (returns, (states, (chain_states, ((weights, slopes), chain_weights)))) = tables;
    let parts = Parts {
        version,
        seeds: Items::from_vec(seeds),
        count,
        entities: Items::from_vec(entities),
        procedures: Items::from_vec(procedures),
        blocks: Items::from_vec(blocks),
        returns,
        states,
        chain_states,
        weights,
        slopes,
        chain_weights,
    };
    Ok((parts, rest))
}

/// The parts that all of the bytes spell.
#[tactic(auto, unfolding(gw_object::specs::Reading::whole_read))]
fn read_whole(alloc: Global, bytes: &[u8]) -> Result<Parts, ReadError>
    ensures { Gives (λ parts. parts) result (whole_read bytes.now) }
{
    let (parts, rest) = read_parts(alloc, bytes)?;
    if !rest.is_empty() {
        return Err(fault(TRAILING, rest));
    }
    Ok(parts)
}

/// A fault in so many bytes, by its field's first byte.
fn placed_fault(total: usize, fault: Bad) -> Fault
    requires within { fault.left ≤ total }
    requires short { total < 2 ^ 32 }
    ensures { result ≡ fault_of_bad total fault }
{
    Fault {
        code: fault.code,
        place: Place::Byte((total - fault.left) as u32),
    }
}

/// The object that the bytes spell, or the first fault.
#[tactic(auto, unfolding(gw_object::specs::Reading::first_fault))]
fn read_object(alloc: Global, bytes: &[u8]) -> Result<Object, Fault>
    ensures exact { AnswersUnlessMemory (first_fault bytes.now) result }
    ensures long { most_bytes < length bytes.now → result ≡ Err too_long }
{
    if bytes.len() > MOST_BYTES {
        return Err(Fault {
            code: LIMIT,
            place: Place::Byte(0),
        });
    }
    match read_whole(alloc, bytes) {
        Ok(parts) => Ok(Object::of(parts)),
        Err(ReadError::OutOfMemory) => Err(Fault {
            code: MEMORY,
            place: Place::Nowhere,
        }),
        Err(ReadError::Wrong(fault)) => Err(placed_fault(bytes.len(), fault)),
    }
}

/// The object that the bytes spell, all of the bytes. Else the first fault from the left: its code, the lowest
/// that applies to its field, and the field's first byte. More than 1 MiB are 5 at byte 0 before all else.
/// 8 Memory at Nowhere where memory runs out.
pub fn read(alloc: Global, bytes: &[u8]) -> Result<Object, Fault>
    // What is read is spelled so.
    ensures found { IfOk result (λ p. Spells bytes.now p) }
    // What is spelled so is read.
    ensures only { (p : Parts) → Spells bytes.now p → AnswersUnlessMemory (Ok p) result }
    // A refusal names the first fault.
    ensures exact { AnswersUnlessMemory (first_fault bytes.now) result }
    // What is too long is refused before memory is asked for.
    ensures long { most_bytes < length bytes.now → result ≡ Err too_long }
{
    read_object(alloc, bytes)
}
