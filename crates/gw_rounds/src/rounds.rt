//! Whether blocks are a round on which no time passes.

ghost use Rattle.std.specs.Prelude.{◌≡◌, suc};
ghost use Rattle.std.specs.List.{list_any};
ghost use Rattle.gw_rules.specs.Seen.{row_meaning};
ghost use Rattle.gw_rounds.specs.Rounds as model;

use crate::graph::block_at;
use gw_object::{Block, Parts, TableState};
use gw_rules::{Exit, Way, chain_row, exits};
use gw_weights::{blocks_read, goes_at_once, own_row};

/// Whether a way leads from the block of this number to that one.
fn is_way_to(number: u16, way: Way, next: u16) -> bool
    ensures { result ≡ model.is_way_to number way next }
{
    match way {
        Way::Falls => number as u32 + 1 == next as u32,
        Way::Goes(target) => target == next,
    }
}

/// Whether one of these exits of the block of this number leads to that one, and no time passes on it.
fn has_exit_to(number: u16, exits: &[Exit], next: u16) -> bool
    ensures { result ≡ list_any (model.is_exit_to number next) exits.now }
{
    for exit in exits {
        if goes_at_once(*exit) && is_way_to(number, exit.way, next) {
            return true;
        }
    }
    false
}

/// Whether a block stands behind one of these callers.
fn is_behind(callers: &[u16], next: u16) -> bool
    ensures { result ≡ list_any (λ caller. model.is_behind caller next) callers.now }
{
    for caller in callers {
        if *caller as u32 + 1 == next as u32 {
            return true;
        }
    }
    false
}

/// Whether a block is an UNLINK from a user chain to the block of this number.
fn is_unlink(block: &Block, chain: u16, next: u16) -> bool
    ensures { result ≡ model.is_unlink chain next block.now }
{
    match block {
        Block::Unlink(unlink) => unlink.chain == chain && unlink.target == next,
        _ => false,
    }
}

/// Whether the block at a place, from 0, has a row of the state table.
fn has_row(parts: &Parts, place: usize) -> bool
    ensures { result ≡ model.has_row parts.now (suc place) }
{
    matches!(parts.states.as_slice().get(place), Some(Some(_)))
}

/// Whether one of the blocks that have a row of the state table is such an UNLINK.
fn is_unlinked(parts: &Parts, chain: u16, next: u16) -> bool
    ensures { result ≡ model.is_unlinked parts.now chain next }
{
    let blocks = parts.blocks.as_slice();
    for i in 0..blocks.len() {
        if is_unlink(&blocks[i], chain, next) && has_row(parts, i) {
            return true;
        }
    }
    false
}

/// Whether members of a user chain may go on to the block of this number.
fn lets_go(parts: &Parts, chain: u16, next: u16) -> bool
    ensures { result ≡ model.lets_go parts.now chain next }
{
    chain_row(parts, chain).is_some() && is_unlinked(parts, chain, next)
}

/// Whether somebody may go from a block, with this row of the state table, to that one while no time passes.
fn goes_in(parts: &Parts, number: u16, block: &Block, row: &TableState, next: u16) -> bool
    ensures { result ≡ model.goes_in parts.now number next block.now (row_meaning parts.now.returns row.now) }
{
    match block {
        Block::Link(link) => lets_go(parts, link.chain, next),
        Block::TransferByParameter(held) => {
            is_behind(blocks_read(parts.returns.as_slice(), row, *held), next)
        }
        _ => has_exit_to(number, &exits(block), next),
    }
}

/// Whether somebody may go from the block of a number, from 1, to that one while no time passes.
fn goes_to(parts: &Parts, number: u16, next: u16) -> bool
    ensures { result ≡ model.goes_to parts.now number next }
{
    match (block_at(parts, number), own_row(parts, number)) {
        (Some(block), Some(row)) => goes_in(parts, number, block, row, next),
        _ => false,
    }
}

/// Whether somebody may go so from a block to each of the others in turn, and from the last of them to the first one.
fn comes_round(parts: &Parts, number: u16, others: &[u16], first: u16) -> bool
    ensures { result ≡ model.comes_round parts.now number others.now first }
{
    match others {
        [] => goes_to(parts, number, first),
        [next, rest @ ..] => {
            goes_to(parts, number, *next) && comes_round(parts, *next, rest, first)
        }
    }
}

/// Whether these blocks are a round on which no time passes.
pub(crate) fn is_round(parts: &Parts, blocks: &[u16]) -> bool
    ensures { result ≡ model.is_round parts.now blocks.now }
{
    match blocks {
        [] => false,
        [first, others @ ..] => comes_round(parts, *first, others, *first),
    }
}
