//! The checks of a weight certificate, in order.

ghost use Rattle.std.specs.Prelude.{◌≡◌, ◌≤◌, length};
ghost use Rattle.gw_rules.specs.Checks.{Finds};
ghost use Rattle.gw_rules.specs.Pass.{KindsPass};
ghost use Rattle.gw_rules.specs.Flow.{own_row as row_of};
ghost use Rattle.gw_rules.specs.Seen.{HaveNext};
ghost use Rattle.gw_rules.specs.Weights as model;

use crate::arrivals::check_arrivals;
use crate::chains::check_chain;
use crate::exits::{check_exits, check_returns};
use crate::returns::blocks_read;
use crate::slopes::check_slope_in;
use gw_object::{Block, Fault, Object, Parts, TableState};
use gw_rules::exits;

/// The row of the state table of the block of this number, from 1, if it has one (ours: docs/object-format.md).
pub fn own_row(parts: &Parts, number: u16) -> Option<&TableState>
    ensures { model.meaning_of parts.now result ≡ row_of parts.now number }
{
    if number == 0 {
        return None;
    }
    parts.states.as_slice().get(number as usize - 1)?.as_ref()
}

/// The first fault of the exits of the block of this number in its row of the state table, if there is one.
fn check_exits_in(parts: &Parts, number: u16, block: &Block, row: &TableState) -> Result<(), Fault>
    requires number { number ≤ 4096 }
    requires next { HaveNext parts.now.returns }
    ensures { Finds result (model.exits_checks_in parts.now number block.now row.now) }
{
    match block {
        Block::TransferByParameter(parameter) => {
            let blocks = blocks_read(parts.returns.as_slice(), row, *parameter);
            check_returns(parts, number, block, blocks)
        }
        _ => check_exits(parts, number, block, &exits(block)),
    }
}

/// The first fault of the block of this number in its row of the state table, if there is one: of its user chain, then of
/// its exits.
fn check_in(parts: &Parts, number: u16, block: &Block, row: &TableState) -> Result<(), Fault>
    requires number { number ≤ 4096 }
    requires next { HaveNext parts.now.returns }
    ensures { Finds result (model.row_checks_in parts.now number block.now row.now) }
{
    check_chain(parts, number, block)?;
    check_exits_in(parts, number, block, row)
}

/// The first fault of the block of this number in its row of the state table, if it has one.
fn check_row(parts: &Parts, number: u16, block: &Block) -> Result<(), Fault>
    requires number { number ≤ 4096 }
    requires next { HaveNext parts.now.returns }
    ensures { Finds result (model.row_checks parts.now number block.now (row_of parts.now number)) }
{
    match own_row(parts, number) {
        Some(row) => check_in(parts, number, block, row),
        None => Ok(()),
    }
}

/// The fault of the slope of the block of this number in its row of the state table, if it has both.
fn check_slope(parts: &Parts, number: u16) -> Result<(), Fault>
    ensures { Finds result (model.slope_checks parts.now number (row_of parts.now number)) }
{
    match own_row(parts, number) {
        Some(row) => check_slope_in(parts, number, row),
        None => Ok(()),
    }
}

/// The first fault of the block of this number, if there is one: of its slope, of its arrivals, then in its row of the state
/// table.
fn check_block(parts: &Parts, number: u16, block: &Block) -> Result<(), Fault>
    requires number { number ≤ 4096 }
    requires next { HaveNext parts.now.returns }
    ensures { Finds result (model.checks_at parts.now number block.now) }
{
    check_slope(parts, number)?;
    check_arrivals(number, block)?;
    check_row(parts, number, block)
}

/// The first fault of the weights and slopes of parts, if there is one: what `check_weights` finds in an object, of parts that
/// needn't be those of one, as they may be too long for it.
#[tactic(auto, unfolding(gw_rules::specs::Weights::weight_checks))]
pub fn check_parts(parts: &Parts) -> Result<(), Fault>
    requires few { length parts.now.blocks ≤ 4096 }
    requires next { HaveNext parts.now.returns }
    ensures { Finds result (model.weight_checks parts.now) }
{
    let blocks = parts.blocks.as_slice();
    for i in 0..blocks.len() {
        check_block(parts, (i + 1) as u16, &blocks[i])?;
    }
    Ok(())
}

/// Accepts an object exactly where its weights and slopes are a certificate that no transaction goes on for ever in one clock
/// moment: each block with a row of the state table pays for an entry and for all that follows from it at once, whatever the
/// parameters hold. Else the first fault: the blocks in ascending order, and of one block its slope, then its arrivals, then
/// its user chain, then its exits in order.
///
/// 43 SlopeParam is of a block with a row and a slope, where the row doesn't say that the slope's parameter is a number. 42
/// ArrivalWeight is of a GENERATE, with a row or without, whose interval isn't known to be 1 or more and that has no limit. 41
/// ChainWeight is of a LINK that doesn't weigh 1 more than its user chain, and of an UNLINK whose members go to a block with a
/// slope, or whose user chain has a row and weighs less than the block to which they go. 40 WeightEdge, at the edge, is of an
/// exit along which somebody goes at once, where the block doesn't pay for the block there: without a slope there it weighs 1
/// more than that. Where there is a slope the block has one on the same parameter, at least as steep, and weighs 1 more; but an
/// ASSIGN of a constant to the parameter needs none, and weighs 1 more than all that the slope makes of the constant; a LOOP on
/// it needs to weigh less by what the slope makes of 1 where it jumps, and needs no slope where it falls; and no other block
/// that changes the parameter pays. A SPLIT's copies are of the second kind of edge: the block weighs 1 more than the next block
/// and, for each copy, the block to which that goes, and its slope is on the parameters of both, and as steep as all of theirs
/// together (ours: docs/weights.md). Kinds have to pass before. It takes no memory.
pub fn check_weights(object: &Object) -> Result<(), Fault>
    requires kinds { KindsPass object.now }
    ensures { Finds result (model.weight_checks object.now) }
{
    check_parts(object.parts())
}
