//! The parts of the object that a model text becomes.

ghost use Rattle.std.specs.Prelude.{◌≡◌, [], replicate, None, IfOk, IfErr, OnOk};
ghost use Rattle.gw_object.specs.Reading.{out_of_memory};
ghost use Rattle.gw_pieces.specs.Making as making;
ghost use Rattle.gw_pieces.specs.Pieces.{IsDraft, IsMadeOf};
ghost use Rattle.gw_pieces.specs.Plans as plans;
ghost use Rattle.gw_pieces.specs.Settings.{seeds_in};
ghost use Rattle.gw_pieces.specs.Versions as versions;

use crate::blocks::blocks_of;
use crate::compiling::procedures_of;
use crate::entities::entities_of;
use crate::plan::Plan;
use crate::planning::plan_of;
use crate::settings::{count_of, seeds_of};
use crate::versions::version_of;
use gw_names::Ledger;
use gw_object::codes::MEMORY;
use gw_object::{Block, Entity, Fault, Items, Parts, Place, Procedure, TableState, chains_in};
use gw_text::Model;
use std::alloc::{AllocError, Global};
use std::mem;

/// That memory ran out.
const OUT_OF_MEMORY: Fault = Fault {
    code: MEMORY,
    place: Place::Nowhere,
};

/// The procedures and the blocks that are made of a model text.
#[derive(Drop)]
struct Code {
    procedures: Vec<Procedure>,
    blocks: Vec<Block>,
}

/// The procedures and the blocks by a plan that has its entities. What can't be made is noted.
fn code_by(alloc: Global, plan: &Plan<'_>, ledger: &mut Ledger) -> Result<Code, AllocError>
    ensures made { IfOk result (making.MakesCode plan.now ledger.old ledger.new) }
    ensures notes { OnOk result (plans.NotesCodeAndBlocks plan.now ledger.old ledger.new) }
{
    let procedures = procedures_of(alloc, plan, ledger)?;
    let blocks = blocks_of(alloc, plan, ledger)?;
    Ok(Code { procedures, blocks })
}

/// What is made of a model text.
#[derive(Drop)]
struct Pieces {
    entities: Vec<Entity>,
    procedures: Vec<Procedure>,
    blocks: Vec<Block>,
}

/// The names of a plan get their entities.
fn give_entities(plan: &mut Plan<'_>, entities: Vec<Entity>)
    ensures { making.GetsEntities plan.old entities plan.new }
{
    drop(mem::replace(&mut plan.names.list, entities));
}

/// The entities of a plan's names, which are taken from them.
fn take_entities(alloc: Global, plan: &mut Plan<'_>) -> Vec<Entity>
    ensures { result ≡ plan.old.names.list }
{
    mem::replace(&mut plan.names.list, Vec::new(alloc))
}

/// What is made by a plan, which gets its entities first; they are taken from it in the end. What can't be made is noted.
fn pieces_by(alloc: Global, plan: &mut Plan<'_>, ledger: &mut Ledger) -> Result<Pieces, AllocError>
    ensures made { IfOk result (making.MakesPieces plan.old ledger.old ledger.new) }
    ensures notes { OnOk result (making.NotesPlan plan.old ledger.old ledger.new) }
{
    let entities = entities_of(alloc, plan, ledger)?;
    give_entities(plan, entities);
    let Code { procedures, blocks } = code_by(alloc, plan, ledger)?;
    let entities = take_entities(alloc, plan);
    Ok(Pieces {
        entities,
        procedures,
        blocks,
    })
}

/// What is made of a model text. What can't be made is noted.
fn pieces_of(alloc: Global, text: &Model, ledger: &mut Ledger) -> Result<Pieces, AllocError>
    ensures made { IfOk result (making.Makes text.now ledger.old ledger.new) }
    ensures notes { OnOk result (making.NotesAll text.now ledger.old ledger.new) }
{
    match plan_of(alloc, text, ledger) {
        Ok(mut plan) => {
            let pieces = pieces_by(alloc, &mut plan, ledger);
            drop(plan);
            pieces
        }
        Err(AllocError) => Err(AllocError),
    }
}

/// So many rows of a state table, none of which is there.
fn no_rows(alloc: Global, count: usize) -> Result<Vec<Option<TableState>>, AllocError>
    ensures { IfOk result (λ rows. rows.items ≡ replicate count None) }
{
    let mut rows = Vec::with_capacity(alloc, count)?;
    for _ in 0..count {
        rows.push(None).map_err(|_| AllocError)?;
    }
    Ok(rows)
}

/// What an object has beside the pieces: its seeds, and for blocks and user chains rows of which none is there and the least
/// weights, without slopes.
#[derive(Drop)]
struct Rest {
    seeds: Vec<u32>,
    states: Vec<Option<TableState>>,
    chain_states: Vec<Option<TableState>>,
    weights: Vec<u32>,
    slopes: Vec<Option<(u8, u32)>>,
    chain_weights: Vec<u32>,
}

/// What an object of so many blocks and user chains has beside its pieces.
fn rest_of(alloc: Global, text: &Model, blocks: usize, chains: usize) -> Result<Rest, AllocError>
    ensures seeds { IfOk result (λ rest. rest.seeds.items ≡ seeds_in text.now.statements.items) }
    ensures states { IfOk result (λ rest. rest.states.items ≡ replicate blocks None) }
    ensures chain_states { IfOk result (λ rest. rest.chain_states.items ≡ replicate chains None) }
    ensures weights { IfOk result (λ rest. rest.weights.items ≡ replicate blocks 1) }
    ensures slopes { IfOk result (λ rest. rest.slopes.items ≡ replicate blocks None) }
    ensures chain_weights { IfOk result (λ rest. rest.chain_weights.items ≡ replicate chains 1) }
{
    Ok(Rest {
        seeds: seeds_of(alloc, text.statements.as_slice())?,
        weights: vec![in alloc; 1; blocks]?,
        slopes: vec![in alloc; None; blocks]?,
        chain_weights: vec![in alloc; 1; chains]?,
        states: no_rows(alloc, blocks)?,
        chain_states: no_rows(alloc, chains)?,
    })
}

/// The parts of an object of these pieces.
fn parts_with(alloc: Global, count: u64, pieces: Pieces, rest: Rest) -> Parts
    ensures version { result.version ≡ versions.version_of pieces.blocks.items }
    ensures count { result.count ≡ count }
    ensures seeds { result.seeds ≡ rest.seeds.items }
    ensures entities { result.entities ≡ pieces.entities.items }
    ensures procedures { result.procedures ≡ pieces.procedures.items }
    ensures blocks { result.blocks ≡ pieces.blocks.items }
    ensures returns { result.returns ≡ [] }
    ensures states { result.states ≡ rest.states.items }
    ensures chain_states { result.chain_states ≡ rest.chain_states.items }
    ensures weights { result.weights ≡ rest.weights.items }
    ensures slopes { result.slopes ≡ rest.slopes.items }
    ensures chain_weights { result.chain_weights ≡ rest.chain_weights.items }
{
    Parts {
        version: version_of(pieces.blocks.as_slice()),
        seeds: Items::from_vec(rest.seeds),
        count,
        entities: Items::from_vec(pieces.entities),
        procedures: Items::from_vec(pieces.procedures),
        blocks: Items::from_vec(pieces.blocks),
        returns: Items::from_vec(Vec::new(alloc)),
        states: Items::from_vec(rest.states),
        chain_states: Items::from_vec(rest.chain_states),
        weights: Items::from_vec(rest.weights),
        slopes: Items::from_vec(rest.slopes),
        chain_weights: Items::from_vec(rest.chain_weights),
    }
}

/// The parts of an object of a text's pieces.
fn completed(alloc: Global, text: &Model, pieces: Pieces) -> Result<Parts, Fault>
    requires { making.AreNamedPieces text.now pieces }
    ensures made { IfOk result (IsMadeOf text.now.statements.items) }
    ensures draft { IfOk result IsDraft }
    ensures refused { IfErr result (λ fault. fault ≡ out_of_memory) }
{
    let blocks = pieces.blocks.len();
    let chains = chains_in(pieces.entities.as_slice());
    let count = count_of(text.statements.as_slice());
    match rest_of(alloc, text, blocks, chains) {
        Ok(rest) => Ok(parts_with(alloc, count, pieces, rest)),
        Err(AllocError) => {
            drop(pieces);
            Err(OUT_OF_MEMORY)
        }
    }
}

/// The parts of the object that a model text becomes: its version, the least that has its blocks, its seeds and count,
/// entities, procedures and blocks, without a state table, and with the least weights. A text of which some can't be made is
/// refused at the first line at fault, with the lowest code there: 80 Name, 81 Storage, 82 Limit (ours: docs/refusals.md); or
/// with 8 Memory, at Nowhere.
pub fn parts_of(alloc: Global, text: &Model) -> Result<Parts, Fault>
    ensures made { IfOk result (IsMadeOf text.now.statements.items) }
    ensures draft { IfOk result IsDraft }
    ensures refused { IfErr result (making.IsNotMade text.now.statements.items) }
{
    let mut ledger = Ledger::new();
    match pieces_of(alloc, text, &mut ledger) {
        Ok(pieces) => match ledger.first() {
            Some(fault) => {
                drop(pieces);
                Err(fault)
            }
            None => completed(alloc, text, pieces),
        },
        Err(AllocError) => Err(OUT_OF_MEMORY),
    }
}
