//! The lines of the blocks.

ghost use Rattle.std.specs.Prelude.{◌<◌, ◌≤◌, length};
ghost use Rattle.gw_writing.specs.Text.{Puts};
ghost use Rattle.gw_report.specs.Report.{block_line, block_lines};

use crate::figures::Figures;
use gw_object::{Block, Memory, block_word};
use gw_writing::{put, put_number};

fn put_block_line(
    out: &mut Vec<u8>,
    figures: &Figures,
    place: usize,
    block: &Block,
) -> Result<(), Memory>
    requires { place < 65535 }
    ensures { Puts result out.old out.new (block_line figures.now place block.now) }
{
    let here = figures.block(place);
    put_number(out, "BLOCK ", place + 1)?;
    put(out, " ")?;
    put(out, block_word(block))?;
    put_number(out, " ", here.entries)?;
    put_number(out, " ", here.here)?;
    put(out, "\n")
}

/// A line for each block, in order.
#[tactic(auto, unfolding(crate::specs::Report::block_lines))]
pub(crate) fn put_block_lines(
    out: &mut Vec<u8>,
    figures: &Figures,
    blocks: &[Block],
) -> Result<(), Memory>
    requires { length blocks.now ≤ 65535 }
    ensures { Puts result out.old out.new (block_lines figures.now 0 blocks.now) }
{
    for i in 0..blocks.len() {
        put_block_line(out, figures, i, &blocks[i])?;
    }
    Ok(())
}
