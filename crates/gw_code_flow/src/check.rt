//! The checks of PLUS code, in order (docs/plus-code.md). They take no memory.

ghost use Rattle.std.specs.Prelude.{◌≡◌, ◌<◌, ◌≤◌, length, All, Some, None, [], ◌∷◌, IfOk, OnOk};
ghost use Rattle.gw_num.specs.Table.{at};
ghost use Rattle.gw_object.specs.CodeGrammar.{ProcedureFits};
ghost use Rattle.gw_rules.specs.Checks.{Finds};
ghost use Rattle.gw_rules.specs.Code.{most_values, cost_of_code};
ghost use Rattle.gw_rules.specs.PlusChecks as model;
ghost use Rattle.gw_code_flow.specs.AtInstruction as at_instruction;
ghost use Rattle.gw_rules.specs.PlusChecks.{procedure_checks, cost_of};

use crate::costs::cost_of_code;
use crate::heights::{Heights, fits_ahead, height_at, mark_ahead};
use crate::instructions::{called_in, calls_lower, finds_values, height_after, leads_well};
use crate::parameters::asks_for_needs;
use arrayvec::ArrayVec;
use gw_object::{
    Fault, Instruction, MOST_INSTRUCTIONS, MOST_PROCEDURES, Object, Parts, Place, Procedure,
};
use gw_rules::check;
use gw_rules::plus_codes::*;

/// An instruction of a procedure of an object, at its position.
#[derive(Clone, Copy)]
pub(crate) struct InstructionAt<'a> {
    /// The object.
    pub parts: &'a Parts,
    /// The number of the procedure.
    pub number: u16,
    /// The procedure.
    pub procedure: &'a Procedure,
    /// The position of the instruction.
    pub position: u16,
    /// The instruction.
    pub instruction: Instruction,
}

/// The first fault of an instruction with this height before it, if there is one; else the height after it.
fn check_at_height(here: InstructionAt<'_>, heights: &Heights, height: u8) -> Result<u16, Fault>
    ensures checks { Finds result (at_instruction.checks_with here.entry heights.now (Some height)) }
    ensures after { IfOk result (λ after. after ≡ at_instruction.height_behind here.entry height) }
    ensures room { IfOk result (λ after. after ≤ most_values) }
{
    let InstructionAt {
        parts,
        number,
        procedure,
        position,
        instruction,
    } = here;
    let place = Place::Code(number, position);
    let length = procedure.code.as_slice().len();
    check(BAD_JUMP, place, leads_well(length, position, instruction))?;
    let called = called_in(parts.entities.as_slice(), instruction);
    check(CALL_ORDER, place, calls_lower(number, called))?;
    let needs = procedure.needs.as_slice();
    check(
        NEEDS_PARAM,
        place,
        asks_for_needs(parts, needs, instruction),
    )?;
    check(STACK_EMPTY, place, finds_values(parts, instruction, height))?;
    let after = height_after(parts, instruction, height);
    let fits = fits_ahead(heights, after, position, instruction);
    check(STACK_HEIGHT, place, fits)?;
    Ok(after)
}

/// The first fault of an instruction, if there is one; else each instruction to which it leads has the height after it.
fn check_instruction(here: InstructionAt<'_>, heights: &mut Heights) -> Result<(), Fault>
    requires place { here.position < length here.procedure.now.code }
    requires limit { length here.procedure.now.code ≤ 4096 }
    ensures checks { Finds result (at_instruction.checks_at here.entry heights.old) }
    ensures heights { OnOk result (heights.new ≡ at_instruction.heights_behind here.entry heights.old) }
{
    match height_at(heights, here.position as usize) {
        Some(height) => {
            let after = check_at_height(here, heights, height)?;
            let length = here.procedure.code.as_slice().len();
            mark_ahead(
                heights,
                after as u8,
                length,
                here.position,
                here.instruction,
            );
            Ok(())
        }
        None => Err(Fault {
            code: STACK_HEIGHT,
            place: Place::Code(here.number, here.position),
        }),
    }
}

/// The first fault of the instructions of the procedure of a number, if there is one. The stack is empty before the
/// first; each instruction tells its height to those to which it leads.
fn check_code(parts: &Parts, number: u16, procedure: &Procedure) -> Result<(), Fault>
    requires { length procedure.now.code ≤ 4096 }
    ensures { Finds result (model.body_checks parts.now number procedure.now) }
{
    let mut heights: Heights = [None; MOST_INSTRUCTIONS];
    heights[0] = Some(0);
    let code = procedure.code.as_slice();
    for i in 0..code.len() {
        let here = InstructionAt {
            parts,
            number,
            procedure,
            position: i as u16,
            instruction: code[i],
        };
        check_instruction(here, &mut heights)?;
    }
    Ok(())
}

/// Whether there are instructions.
fn has_code(code: &[Instruction]) -> bool
    ensures { result ≡ model.has_code code.now }
{
    !code.is_empty()
}

/// The fault of the code of the procedure of a number as a whole, by the costs of those below, if there is one; else its
/// cost.
fn check_cost(parts: &Parts, costs: &[u32], number: u16, code: &[Instruction]) -> Result<u32, Fault>
    requires { length code.now ≤ 4096 }
    ensures checks { Finds result (model.whole_checks parts.now costs.now number code.now) }
    ensures cost { IfOk result (λ cost. cost ≡ cost_of_code parts.now.entities costs.now code.now) }
{
    let place = Place::Code(number, 0);
    check(BAD_JUMP, place, has_code(code))?;
    match cost_of_code(parts.entities.as_slice(), costs, code) {
        Some(cost) => Ok(cost),
        None => Err(Fault {
            code: TOO_COSTLY,
            place,
        }),
    }
}

/// The first fault of the procedure of a number, by the costs of those below, if there is one; else its cost.
fn check_procedure(
    parts: &Parts,
    costs: &[u32],
    number: u16,
    procedure: &Procedure,
) -> Result<u32, Fault>
    requires { length procedure.now.code ≤ 4096 }
    ensures checks { Finds result (procedure_checks parts.now costs.now number procedure.now) }
    ensures cost { IfOk result (λ cost. cost ≡ cost_of parts.now costs.now procedure.now) }
{
    check_code(parts, number, procedure)?;
    check_cost(parts, costs, number, procedure.code.as_slice())
}

/// The first fault of the procedures, if there is one: one after the other, each with the costs of those below.
fn check_procedures(parts: &Parts) -> Result<(), Fault>
    requires few { length parts.now.procedures ≤ 256 }
    requires each { All ProcedureFits parts.now.procedures }
    ensures { Finds result (model.plus_checks parts.now) }
{
    let procedures = parts.procedures.as_slice();
    let mut costs: ArrayVec<u32, MOST_PROCEDURES> = ArrayVec::new();
    for i in 0..procedures.len() {
        let cost = check_procedure(parts, costs.as_slice(), i as u16, &procedures[i])?;
        costs.push(cost);
    }
    Ok(())
}

/// Accepts an object exactly where its PLUS code passes; else the first fault, at a procedure and its instruction: of the
/// procedures in ascending order, and in each of its instructions in ascending order. Of an instruction, in this order:
/// 30 StackHeight where no height of the stack is known before it, 32 BadJump, 33 CallOrder, 35 NeedsParam, 31 StackEmpty,
/// and 30 where the stack is too high after it or two heights meet. Then 32 of a procedure without instructions, and 34
/// TooCostly of one that may take more than 1,000,000,000 instructions (ours: docs/refusals.md). Code that passes never
/// gets stuck. It takes no memory.
pub fn check_plus(object: &Object) -> Result<(), Fault>
    ensures { Finds result (model.plus_checks object.now) }
{
    check_procedures(object.parts())
}
