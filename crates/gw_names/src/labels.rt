//! The numbers of blocks.

ghost use Rattle.std.specs.Prelude.{◌≡◌, IfOk};
ghost use Rattle.gw_names.specs.Places as model;
ghost use Rattle.gw_names.specs.Places.{Sets, block_label};

use crate::maps::set_label;
use gw_text::Statement;
use indexmap::IndexMap;
use std::alloc::AllocError;

/// The number behind this one; the last one that 16 bits hold stays.
#[tactic(auto, unfolding(crate::specs::Places::next_block))]
fn next_block(number: u16) -> u16
    ensures { result ≡ model.next_block number }
{
    if number < 65535 { number + 1 } else { 65535 }
}

/// Counts a statement, if it is a block, and gives its number to its label.
pub(crate) fn count(
    blocks: &mut IndexMap<String, u16>,
    number: u16,
    statement: &Statement,
) -> Result<u16, AllocError>
    ensures counted { IfOk result (λ after. after ≡ model.blocks_up_to number statement.now) }
    ensures added { Sets result blocks.old blocks.new (block_label number statement.now) }
{
    if statement.word.is_block() {
        let number = next_block(number);
        set_label(blocks, &statement.label, number)?;
        Ok(number)
    } else {
        Ok(number)
    }
}
