//! The figures of a model.

ghost use Rattle.std.specs.Prelude.{◌≡◌, ◌≤◌, ◌<◌, ◌++◌, [], ◌∷◌, IfOk, OnOk, length};
ghost use Rattle.gw_figures.specs.Labels as model;
ghost use Rattle.gw_figures.specs.Labels.{AddsFigures, labels, plain};

use crate::entity_labels::put_entity;
use crate::figure::{Figure, put_detail, put_plain};
use gw_object::{Block, Entity, Memory, Parts};
use gw_report::block_word;
use gw_writing::{put, put_number};
use std::alloc::Global;

/// Adds a figure of how the run ended.
fn put_of_end(alloc: Global, out: &mut Vec<Figure>, what: &str) -> Result<(), Memory>
    ensures { AddsFigures result out.old out.new (plain [] what.now ∷ []) }
{
    put_plain(alloc, out, &[], what)
}

fn put_end(alloc: Global, out: &mut Vec<Figure>) -> Result<(), Memory>
    ensures { AddsFigures result out.old out.new model.end_labels }
{
    put_of_end(alloc, out, "CLOCK")?;
    put_of_end(alloc, out, "STEPS")?;
    put_of_end(alloc, out, "ENTRIES")?;
    put_of_end(alloc, out, "COUNT")
}

/// What the figures of the block at a place begin with: its number, its word, and a blank.
fn front_of(alloc: Global, place: usize, block: &Block) -> Result<Vec<u8>, Memory>
    requires { place < 65535 }
    ensures { IfOk result (λ front. front.items ≡ model.block_front place block.now) }
{
    let mut front = Vec::new(alloc);
    put_number(&mut front, "BLOCK ", place + 1)?;
    put(&mut front, " ")?;
    put(&mut front, block_word(block))?;
    put(&mut front, " ")?;
    Ok(front)
}

fn put_block(
    alloc: Global,
    out: &mut Vec<Figure>,
    place: usize,
    block: &Block,
) -> Result<(), Memory>
    requires { place < 65535 }
    ensures { AddsFigures result out.old out.new (model.block_labels place block.now) }
{
    let front = front_of(alloc, place, block)?;
    put_detail(alloc, out, &front, "ENTRIES")?;
    put_detail(alloc, out, &front, "HERE")
}

/// The figures of each block, in order.
#[tactic(auto, unfolding(crate::specs::Labels::blocks_labels))]
fn put_blocks(alloc: Global, out: &mut Vec<Figure>, blocks: &[Block]) -> Result<(), Memory>
    requires { length blocks.now ≤ 65535 }
    ensures { AddsFigures result out.old out.new (model.blocks_labels 0 blocks.now) }
{
    for i in 0..blocks.len() {
        put_block(alloc, out, i, &blocks[i])?;
    }
    Ok(())
}

/// The figures of each entity, in order.
#[tactic(auto, unfolding(crate::specs::Labels::entities_labels))]
fn put_entities(alloc: Global, out: &mut Vec<Figure>, entities: &[Entity]) -> Result<(), Memory>
    ensures { AddsFigures result out.old out.new (model.entities_labels entities.now) }
{
    for i in 0..entities.len() {
        put_entity(alloc, out, &entities[i])?;
    }
    Ok(())
}

/// The figures of a model of these parts, in their order: those of how a run ends, of each block, and of each entity.
pub fn figures(alloc: Global, parts: &Parts) -> Result<Vec<Figure>, Memory>
    requires { length parts.now.blocks ≤ 65535 }
    ensures { IfOk result (λ figures. labels figures.items ≡ model.labels_of parts.now) }
{
    let mut out = Vec::new(alloc);
    put_end(alloc, &mut out)?;
    put_blocks(alloc, &mut out, parts.blocks.as_slice())?;
    put_entities(alloc, &mut out, parts.entities.as_slice())?;
    Ok(out)
}
