//! Blocks that join a queue, depart from it, or count.

ghost use Rattle.std.specs.Prelude.{◌≡◌};
ghost use Rattle.std.specs.List.{list_any};
ghost use Rattle.gw_notes.specs.Flowing as model;

use crate::drawing::is_zero;
use gw_object::{Block, Parts};

/// Whether a block joins the queue of an entity.
fn joins(block: &Block, entity: u16) -> bool
    ensures { result ≡ model.joins block.now entity }
{
    match block {
        Block::Queue(units) => units.entity == entity,
        _ => false,
    }
}

/// Whether a block departs from the queue of an entity.
fn departs(block: &Block, entity: u16) -> bool
    ensures { result ≡ model.departs block.now entity }
{
    match block {
        Block::Depart(units) => units.entity == entity,
        _ => false,
    }
}

/// Whether some of these blocks join the queue of an entity.
fn some_join(blocks: &[Block], entity: u16) -> bool
    ensures { result ≡ list_any (λ block. model.joins block entity) blocks.now }
{
    blocks.iter().any(|block| joins(block, entity))
}

/// Whether some of these blocks depart from the queue of an entity.
fn some_depart(blocks: &[Block], entity: u16) -> bool
    ensures { result ≡ list_any (λ block. model.departs block entity) blocks.now }
{
    blocks.iter().any(|block| departs(block, entity))
}

/// Whether an entity is joined as a queue, and nobody departs from it.
pub(crate) fn only_grows(parts: &Parts, entity: u16) -> bool
    ensures { result ≡ model.only_grows parts.now entity }
{
    let blocks = parts.blocks.as_slice();
    some_join(blocks, entity) && !some_depart(blocks, entity)
}

/// Whether a block may let the termination count fall.
fn counts(block: &Block) -> bool
    ensures { result ≡ model.counts block.now }
{
    match block {
        Block::Terminate(by) => !is_zero(*by),
        _ => false,
    }
}

/// Whether some of these blocks may let the termination count fall.
fn some_count(blocks: &[Block]) -> bool
    ensures { result ≡ list_any model.counts blocks.now }
{
    blocks.iter().any(|block| counts(block))
}

/// Whether no block lets the termination count fall.
pub(crate) fn nothing_counts(parts: &Parts) -> bool
    ensures { result ≡ model.nothing_counts parts.now }
{
    !some_count(parts.blocks.as_slice())
}
