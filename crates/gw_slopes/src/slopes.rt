//! The slopes of the blocks of an object on a parameter.

ghost use Rattle.std.specs.Prelude.{◌≡◌, ◌≤◌, IfOk, length, map};
ghost use Rattle.gw_slopes.specs.Sloped as model;

use crate::marks::marks_of;
use crate::sources::Sources;
use gw_object::{Memory, Parts, Slope};
use std::alloc::Global;

/// The slope of a block, by its mark.
fn slope_by(is_marked: bool, parameter: u8, per: u32) -> Option<Slope>
    ensures { result ≡ model.slope_by parameter per is_marked }
{
    if is_marked {
        return Some((parameter, per));
    }
    None
}

/// The slopes of blocks, by their marks.
fn slopes_by(
    alloc: Global,
    marks: &[bool],
    parameter: u8,
    per: u32,
) -> Result<Vec<Option<Slope>>, Memory>
    ensures { IfOk result (λ slopes. slopes.items ≡ map (model.slope_by parameter per) marks.now) }
{
    let mut slopes = Vec::with_capacity(alloc, marks.len())?;
    for i in 0..marks.len() {
        slopes.push(slope_by(marks[i], parameter, per))?;
    }
    Ok(slopes)
}

/// The slopes on a parameter, as steep as there are blocks, of the blocks that get one; none of the others (ours:
/// docs/weights.md).
pub(crate) fn slopes_of(
    alloc: Global,
    parts: &Parts,
    sources: &Sources,
    parameter: u8,
) -> Result<Vec<Option<Slope>>, Memory>
    requires { length parts.now.blocks ≤ 4096 }
    ensures { IfOk result (λ slopes. model.AreSlopes parts.now parameter slopes.items) }
{
    let marks = marks_of(alloc, parts, sources, parameter)?;
    slopes_by(
        alloc,
        &marks,
        parameter,
        parts.blocks.as_slice().len() as u32,
    )
}
