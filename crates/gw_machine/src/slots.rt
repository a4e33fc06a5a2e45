//! How many slots each transaction has for parameters.

ghost use Rattle.std.specs.Prelude.{◌≡◌};
ghost use Rattle.gw_machine.specs.Slots as model;

use gw_object::Block;

/// The parameter that a block sets, by its number; 0 where it sets none.
fn set_by(block: &Block) -> u8
    ensures { result ≡ model.set_by block.now }
{
    match block {
        Block::Assign(assign) => assign.parameter,
        Block::Loop(l) => l.parameter,
        Block::Mark(parameter) => parameter.unwrap_or(0),
        Block::Plus(plus) => plus.parameter.unwrap_or(0),
        Block::TransferToSubroutine(call) => call.parameter,
        _ => 0,
    }
}

/// The greatest number of a parameter that blocks set; 0 where they set none.
pub(crate) fn greatest_set(blocks: &[Block]) -> u8
    ensures { result ≡ model.greatest_set blocks.now }
{
    let mut greatest = 0;
    for i in 0..blocks.len() {
        greatest = greatest.max(set_by(&blocks[i]));
    }
    greatest
}
