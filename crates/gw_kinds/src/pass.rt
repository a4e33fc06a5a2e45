//! The checks of kinds, in order.

ghost use Rattle.gw_object.specs.Grammar.{HasSpelling};
ghost use Rattle.gw_rules.specs.Checks.{Finds};
ghost use Rattle.gw_rules.specs.Pass.{kinds_checks};

use crate::blocks::Blocks;
use crate::checks::check_each;
use crate::operands::Entities;
use crate::procedures::Procedures;
use crate::returns::Returns;
use crate::rows::{Chains, Rows};
use gw_object::{Fault, Object, Parts};

/// The first fault, if there is one: of the entities, of the procedures, of the return rows, of the state table's rows of
/// blocks, of those of user chains, and of the blocks.
fn check_parts(parts: &Parts) -> Result<(), Fault>
    requires { HasSpelling parts.now }
    ensures { Finds result (kinds_checks parts.now) }
{
    check_each(&Entities, parts, 0, parts.entities.as_slice())?;
    check_each(&Procedures, parts, 0, parts.procedures.as_slice())?;
    check_each(&Returns, parts, 0, parts.returns.as_slice())?;
    check_each(&Rows, parts, 1, parts.states.as_slice())?;
    check_each(&Chains, parts, 0, parts.entities.as_slice())?;
    check_each(&Blocks, parts, 1, parts.blocks.as_slice())
}

/// Accepts an object exactly where its numbers name what they must; else the first fault: of the entities, then of the
/// procedures, then of the return rows, then of the state table's rows, those of blocks before those of user chains, then
/// of the blocks, each in ascending order, and in one place the lowest code.
///
/// 10 WrongKind is of an entity of another kind than what names it needs; of a procedure with arguments that an operand
/// calls; of a function's value as the argument of a function, or as half the range of a time; of an instruction that
/// reads a function whose argument is drawn; and of a return row's block that isn't there or calls no subroutine.
/// 11 NoEntity is of an entity, a procedure or a return row that isn't there, and 12 NoBlock of a block that isn't there;
/// operands that are evaluated for entities, instructions and blocks name them, and rows of the state table. 13
/// EntersGenerate and 14 FallsOff are of where transactions go on, and 15 BadConstant is of a constant, a local or a count
/// of jumps back (ours: docs/refusals.md). It takes no memory.
pub fn check_kinds(object: &Object) -> Result<(), Fault>
    ensures { Finds result (kinds_checks object.now) }
{
    check_parts(object.parts())
}
