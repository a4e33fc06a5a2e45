//! What an instruction takes, leaves and needs, and where it leads (docs/plus-code.md).

ghost use Rattle.std.specs.Prelude.{◌≡◌, ◌≤◌, nat_le};
ghost use Rattle.std.specs.Option.{option_copied};
ghost use Rattle.gw_rules.specs.Sources.{procedure_named};
ghost use Rattle.gw_rules.specs.Code as model;
ghost use Rattle.gw_rules.specs.PlusChecks.{height_after};

use gw_object::{Entity, Instruction, Operand, Parts, Procedure};
use gw_rules::{as_operand, procedure_at, source_of};

/// How many arguments a procedure takes; none where it isn't there.
fn arguments_of(procedure: Option<&Procedure>) -> u8
    ensures { result ≡ model.arguments_of (option_copied procedure.entry) }
{
    match procedure {
        Some(procedure) => procedure.arguments,
        None => 0,
    }
}

/// How many values an instruction takes from the stack.
fn takes(parts: &Parts, instruction: Instruction) -> u8
    ensures { result ≡ model.takes parts.now instruction }
{
    match instruction {
        Instruction::Binary(_) => 2,
        Instruction::Set(_)
        | Instruction::Unary(_)
        | Instruction::Pop
        | Instruction::JumpIfZero(_)
        | Instruction::Return => 1,
        Instruction::Call(procedure) => arguments_of(procedure_at(parts, procedure)),
        _ => 0,
    }
}

/// Whether there are as many values on the stack as an instruction takes.
pub(crate) fn finds_values(parts: &Parts, instruction: Instruction, height: u8) -> bool
    ensures { result ≡ nat_le (model.takes parts.now instruction) height }
{
    takes(parts, instruction) <= height
}

/// How many values an instruction leaves on the stack.
fn leaves(instruction: Instruction) -> u8
    ensures { result ≡ model.leaves instruction }
{
    match instruction {
        Instruction::Push(_)
        | Instruction::Get(_)
        | Instruction::Value(_)
        | Instruction::Binary(_)
        | Instruction::Unary(_)
        | Instruction::Call(_) => 1,
        _ => 0,
    }
}

/// The height of the stack after an instruction that has this one before it.
pub(crate) fn height_after(parts: &Parts, instruction: Instruction, height: u8) -> u16
    requires { model.takes parts.now instruction ≤ height }
    ensures { result ≡ height_after parts.now instruction height }
{
    u16::from(height - takes(parts, instruction)) + u16::from(leaves(instruction))
}

/// Whether an instruction at a position of a code of this length leads where it may: a jump leads to a later instruction,
/// a jump back to itself or an earlier one, and no other than a RET is the last one.
pub(crate) fn leads_well(length: usize, position: u16, instruction: Instruction) -> bool
    ensures { result ≡ model.leads_well length position instruction }
{
    match instruction {
        Instruction::Jump(target) | Instruction::JumpIfZero(target) => {
            position < target && (target as usize) < length
        }
        Instruction::Back(back) => back.target <= position,
        Instruction::Return => true,
        _ => (position as usize) + 1 < length,
    }
}

/// The procedure that an operand calls, if it is a call.
fn procedure_named(operand: Operand) -> Option<u16>
    ensures { result ≡ procedure_named operand }
{
    match operand {
        Operand::Procedure(procedure) => Some(procedure),
        _ => None,
    }
}

/// The procedure that an instruction calls, if it does: by CALL, or for the attribute that it reads.
pub(crate) fn called_in(entities: &[Entity], instruction: Instruction) -> Option<u16>
    ensures { result ≡ model.called_in entities.now instruction }
{
    match instruction {
        Instruction::Call(procedure) => Some(procedure),
        Instruction::Value(sna) => procedure_named(source_of(entities, as_operand(sna))),
        _ => None,
    }
}

/// Whether the procedure that is called, if one is, is lower than this one.
pub(crate) fn calls_lower(procedure: u16, called: Option<u16>) -> bool
    ensures { result ≡ model.calls_lower procedure called }
{
    match called {
        Some(called) => called < procedure,
        None => true,
    }
}
