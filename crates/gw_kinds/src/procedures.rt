//! The entities, the procedures, the blocks and the numbers that instructions name.

ghost use Rattle.std.specs.Prelude.{◌≡◌};
ghost use Rattle.gw_rules.specs.Procedures as model;

use crate::calls::is_procedure;
use crate::checks::{NumberedChecks, check_each};
use crate::entities::{entity_of, is_no_other_kind, is_there};
use crate::targets::{block_of, is_block};
use gw_object::{Entity, Fault, Instruction, Parts, Place, Procedure};
use gw_rules::kinds_codes::{BAD_CONSTANT, NO_BLOCK, NO_ENTITY, WRONG_KIND};
use gw_rules::{Named, argument_in, as_operand, check, is_drawn};

/// The most times that a jump back may be taken.
const MOST_TURNS: u32 = 1_000_000;

/// The entity that an instruction names, if it does.
fn entity_in(instruction: Instruction) -> Option<Named>
    ensures { result ≡ model.entity_in instruction }
{
    match instruction {
        Instruction::Value(sna) => entity_of(&as_operand(sna)),
        _ => None,
    }
}

/// The procedure that an instruction names, if it does.
fn procedure_in(instruction: Instruction) -> Option<u16>
    ensures { result ≡ model.procedure_in instruction }
{
    match instruction {
        Instruction::Call(procedure) => Some(procedure),
        _ => None,
    }
}

/// The block that an instruction names, if it does.
fn block_in(instruction: Instruction) -> Option<u16>
    ensures { result ≡ model.block_in instruction }
{
    match instruction {
        Instruction::Value(sna) => block_of(&as_operand(sna)),
        _ => None,
    }
}

/// Whether an instruction draws nothing: it reads no function whose argument is drawn.
fn draws_nothing(entities: &[Entity], instruction: Instruction) -> bool
    ensures { result ≡ model.draws_nothing entities.now instruction }
{
    match instruction {
        Instruction::Value(sna) => !is_drawn(argument_in(entities, as_operand(sna))),
        _ => true,
    }
}

/// Whether a local is one of so many, and a jump back is taken from 1 to 1,000,000 times.
fn has_good_numbers(locals: u8, instruction: Instruction) -> bool
    ensures { result ≡ model.has_good_numbers locals instruction }
{
    match instruction {
        Instruction::Get(local) | Instruction::Set(local) => local < locals,
        Instruction::Back(back) => 1 <= back.count && back.count <= MOST_TURNS,
        _ => true,
    }
}

/// The checks of the instructions of a procedure.
#[derive(Drop)]
struct Instructions {
    /// The procedure's number, from 0.
    procedure: u16,
    /// How many locals it has.
    locals: u8,
}

impl NumberedChecks<Instruction> for Instructions {
    ghost checks = { λ c p. model.instruction_checks p c.procedure c.locals };

    fn check_one(&self, parts: &Parts, number: u16, element: &Instruction) -> Result<(), Fault> {
        let place = Place::Code(self.procedure, number);
        let entities = parts.entities.as_slice();
        let named = entity_in(*element);
        let is_right = named.is_none_or(|named| is_no_other_kind(entities, named));
        check(
            WRONG_KIND,
            place,
            is_right && draws_nothing(entities, *element),
        )?;
        let entity_is_there = named.is_none_or(|named| is_there(entities, named));
        let procedures = parts.procedures.as_slice();
        let called = procedure_in(*element);
        let called_is_there = called.is_none_or(|called| is_procedure(procedures, called));
        check(NO_ENTITY, place, entity_is_there && called_is_there)?;
        let blocks = parts.blocks.as_slice();
        let block_is_there = block_in(*element).is_none_or(|named| is_block(blocks, named));
        check(NO_BLOCK, place, block_is_there)?;
        check(BAD_CONSTANT, place, has_good_numbers(self.locals, *element))
    }
}

/// The checks of procedures.
pub(crate) struct Procedures;

impl NumberedChecks<Procedure> for Procedures {
    ghost use Rattle.gw_object.specs.CodeGrammar.{ProcedureFits};

    ghost checks = { λ _. model.procedure_checks };

    ghost can_check = { ProcedureFits };

    fn check_one(&self, parts: &Parts, number: u16, element: &Procedure) -> Result<(), Fault> {
        let instructions = Instructions {
            procedure: number,
            locals: element.locals,
        };
        check_each::<Instruction, Instructions>(&instructions, parts, 0, element.code.as_slice())
    }
}
