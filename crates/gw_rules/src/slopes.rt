//! Slopes: what a weight of a block adds for the value of a parameter, and what blocks do to that.

ghost use Rattle.std.specs.Prelude.{◌≡◌};
ghost use Rattle.gw_rules.specs.Weights as model;

use crate::ways::Way;
use gw_object::{Assign, Block, Mode, Operand, Slope};

/// What a block does to a parameter on a way of it (ours: docs/weights.md).
#[derive(Clone, Copy, PartialEq, Eq)]
pub enum Treatment {
    /// It leaves it as it is.
    Keeps,
    /// It sets it to this constant.
    SetsTo(i64),
    /// It lowers it by 1, and it stays above 0.
    Lowers,
    /// It lowers it by 1, and it comes to 0 or below.
    RunsOut,
    /// It changes it in another way.
    Changes,
}

/// The slope of the block of this number, from 1, where these are the slopes of all blocks, if it has one (ours:
/// docs/weights.md).
pub fn slope_at(slopes: &[Option<Slope>], number: u16) -> Option<Slope>
    ensures { result ≡ model.slope_at slopes.now number }
{
    if number == 0 {
        return None;
    }
    slopes.get(number as usize - 1).copied().unwrap_or(None)
}

/// How far a value is above 0 (ours: docs/weights.md).
pub fn above(value: i64) -> u64
    ensures { result ≡ model.above value }
{
    value.max(0) as u64
}

/// The parameter that a block changes, if it changes one.
pub fn changed_parameter(block: &Block) -> Option<u8>
    ensures { result ≡ model.changed_parameter block.now }
{
    match block {
        Block::Assign(assign) => Some(assign.parameter),
        Block::TransferToSubroutine(call) => Some(call.parameter),
        Block::Loop(counted) => Some(counted.parameter),
        Block::Mark(parameter) => *parameter,
        Block::Plus(plus) => plus.parameter,
        _ => None,
    }
}

/// What an ASSIGN does to its parameter: a constant sets it, where nothing is added to it or taken from it.
fn assigned(assign: &Assign) -> Treatment
    ensures { result ≡ model.assigns assign.now.mode assign.now.value }
{
    match assign.mode {
        Mode::Set => match assign.value {
            Operand::Constant(value) => Treatment::SetsTo(value),
            _ => Treatment::Changes,
        },
        Mode::Add | Mode::Subtract => Treatment::Changes,
    }
}

/// What a block does on a way of it to the parameter that it changes.
fn own_treatment(block: &Block, way: Way) -> Treatment
    ensures { result ≡ model.treatment block.now way }
{
    match block {
        Block::Assign(assign) => assigned(assign),
        Block::Loop(_) => match way {
            Way::Falls => Treatment::RunsOut,
            Way::Goes(_) => Treatment::Lowers,
        },
        _ => Treatment::Changes,
    }
}

/// What a block does to the parameter of this number on a way of it (ours: docs/weights.md).
pub fn treats(block: &Block, way: Way, parameter: u8) -> Treatment
    ensures { result ≡ model.treats block.now way parameter }
{
    match changed_parameter(block) {
        Some(changed) if changed == parameter => own_treatment(block, way),
        Some(_) | None => Treatment::Keeps,
    }
}
