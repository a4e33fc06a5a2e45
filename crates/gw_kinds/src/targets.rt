//! Where transactions go on to: the blocks there.

ghost use Rattle.std.specs.Prelude.{◌≡◌, ◌≤◌, ◌+◌, Some};
ghost use Rattle.gw_rules.specs.Kinds as model;

use crate::entities::needed_for;
use gw_object::{Block, Numbered, Operand};
use gw_rules::{Way, exits, leads_to, other_way, values};

/// Whether there is a block of this number, from 1.
pub(crate) fn is_block(blocks: &[Block], number: u16) -> bool
    ensures { result ≡ model.is_block blocks.now number }
{
    number != 0 && number as usize <= blocks.len()
}

/// Whether a block is a GENERATE.
fn is_generate(block: &Block) -> bool
    ensures { result ≡ model.is_generate (Some block.now) }
{
    matches!(block, Block::Generate(_))
}

/// Whether there is a GENERATE block of this number, from 1.
fn is_generate_at(blocks: &[Block], number: u16) -> bool
    ensures { result ≡ model.is_generate (model.block_at blocks.now number) }
{
    number != 0 && blocks.get(number as usize - 1).is_some_and(is_generate)
}

/// The number by which a way leads to a block, if it does by a number.
fn number_of(way: Way) -> Option<u16>
    ensures { result ≡ model.number_of way }
{
    match way {
        Way::Falls => None,
        Way::Goes(target) => Some(target),
    }
}

/// The block that an attribute with a number names, if it does: that of an attribute that needs no entity.
pub(crate) fn block_named(of: Numbered) -> Option<u16>
    ensures { result ≡ model.block_named of }
{
    match needed_for(of.attribute) {
        Some(_) => None,
        None => Some(of.number),
    }
}

/// The block that an operand names, if it does.
pub(crate) fn block_of(operand: &Operand) -> Option<u16>
    ensures { result ≡ model.block_of operand.now }
{
    match operand {
        Operand::OfEntity(of) => block_named(*of),
        _ => None,
    }
}

/// Whether the blocks that a block names by their numbers are there.
pub(crate) fn has_named_blocks(blocks: &[Block], block: &Block) -> bool
    ensures { result ≡ model.has_named_blocks blocks.now block.now }
{
    let exits = exits(block);
    let values = values(block);
    let other = other_way(block);
    let on = exits.iter().map(|exit| exit.way);
    let others = other.as_slice().iter().map(|way| *way);
    let targets = on.chain(others).filter_map(number_of);
    let read = values.as_slice().iter().filter_map(block_of);
    targets.chain(read).all(|named| is_block(blocks, named))
}

/// Whether a way from the block of this number leads to no GENERATE.
fn leads_to_no_generate(blocks: &[Block], number: u16, way: Way) -> bool
    requires { number ≤ 4096 }
    ensures { result ≡ model.leads_to_no_generate blocks.now number way }
{
    !is_generate_at(blocks, leads_to(number, way))
}

/// Whether no way on from the block of this number leads to a GENERATE.
pub(crate) fn enters_no_generate(blocks: &[Block], number: u16, block: &Block) -> bool
    requires { number ≤ 4096 }
    ensures { result ≡ model.enters_no_generate blocks.now number block.now }
{
    let exits = exits(block);
    let other = other_way(block);
    let on = exits.iter().map(|exit| exit.way);
    let others = other.as_slice().iter().map(|way| *way);
    on.chain(others)
        .all(|way| leads_to_no_generate(blocks, number, way))
}

/// Whether a way falls from the block of this number to a block that is there, if it falls.
fn stays_inside(blocks: &[Block], number: u16, way: Way) -> bool
    requires { number ≤ 4096 }
    ensures { result ≡ model.stays_inside blocks.now number way }
{
    match way {
        Way::Falls => is_block(blocks, number + 1),
        Way::Goes(_) => true,
    }
}

/// Whether no way on from the block of this number falls off the last block.
pub(crate) fn never_falls_off(blocks: &[Block], number: u16, block: &Block) -> bool
    requires { number ≤ 4096 }
    ensures { result ≡ model.never_falls_off blocks.now number block.now }
{
    let exits = exits(block);
    let other = other_way(block);
    let on = exits.iter().map(|exit| exit.way);
    let others = other.as_slice().iter().map(|way| *way);
    on.chain(others)
        .all(|way| stays_inside(blocks, number, way))
}
