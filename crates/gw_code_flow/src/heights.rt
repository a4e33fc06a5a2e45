//! The heights of the stack that are known while a procedure is checked.

ghost use Rattle.std.specs.Prelude.{◌≡◌, ◌<◌, ◌≤◌, length, Some, None, true};
ghost use Rattle.gw_num.specs.Table.{at, put};
ghost use Rattle.gw_rules.specs.Code.{leads_well, targets};
ghost use Rattle.gw_rules.specs.PlusChecks as model;

use gw_object::{Instruction, MOST_INSTRUCTIONS};

/// The most values on the stack of an activation.
const MOST_VALUES: u16 = 64;

/// The height of the stack before each instruction of a procedure, as far as it is known.
pub(crate) type Heights = [Option<u8>; MOST_INSTRUCTIONS];

/// The height before the instruction at a position, if it is known.
pub(crate) fn height_at(heights: &Heights, position: usize) -> Option<u8>
    ensures { result ≡ at None heights.now position }
{
    match heights.get(position) {
        Some(height) => *height,
        None => None,
    }
}

/// Whether a height that comes to an instruction is the one that it already has, if it has one.
fn agrees(heights: &Heights, height: u16, target: usize) -> bool
    ensures { result ≡ model.agrees height (at None heights.now target) }
{
    match height_at(heights, target) {
        Some(known) => u16::from(known) == height,
        None => true,
    }
}

/// Whether a height agrees with what is known where the instruction at a position leads.
fn agrees_ahead(heights: &Heights, height: u16, position: u16, instruction: Instruction) -> bool
    ensures { result ≡ model.agrees_ahead heights.now height position instruction }
{
    match instruction {
        Instruction::Jump(target) => agrees(heights, height, target as usize),
        Instruction::JumpIfZero(target) => {
            agrees(heights, height, position as usize + 1)
                && agrees(heights, height, target as usize)
        }
        Instruction::Back(back) => agrees(heights, height, back.target as usize),
        Instruction::Return => true,
        _ => agrees(heights, height, position as usize + 1),
    }
}

/// Whether the stack holds so many values, and that agrees with what is known where the instruction at a position leads.
pub(crate) fn fits_ahead(
    heights: &Heights,
    height: u16,
    position: u16,
    instruction: Instruction,
) -> bool
    ensures { result ≡ model.fits_ahead heights.now height position instruction }
{
    height <= MOST_VALUES && agrees_ahead(heights, height, position, instruction)
}

/// An instruction has this height.
fn mark(heights: &mut Heights, height: u8, target: usize)
    requires { target < 4096 }
    ensures { heights.new ≡ put None heights.old target (Some height) }
{
    heights[target] = Some(height);
}

/// Each instruction to which the instruction at a position of a code of this length leads has this height.
pub(crate) fn mark_ahead(
    heights: &mut Heights,
    height: u8,
    length: usize,
    position: u16,
    instruction: Instruction,
)
    requires place { position < length }
    requires limit { length ≤ 4096 }
    requires leads { leads_well length position instruction ≡ true }
    ensures { heights.new ≡ model.spread heights.old height (targets position instruction) }
{
    match instruction {
        Instruction::Jump(target) => mark(heights, height, target as usize),
        Instruction::JumpIfZero(target) => {
            mark(heights, height, position as usize + 1);
            mark(heights, height, target as usize);
        }
        Instruction::Back(back) => mark(heights, height, back.target as usize),
        Instruction::Return => {}
        _ => mark(heights, height, position as usize + 1),
    }
}
