//! Procedures, with their instructions.

ghost use Rattle.std.specs.Prelude.{◌∷◌, [], Some, None, slice_get};
ghost use Rattle.gw_writing.specs.Text.{Puts};
ghost use Rattle.gw_listing.specs.Lines.{Front, PutsLines};
ghost use Rattle.gw_listing.specs.Shape.{procedure_front, procedure_head, takes_front, takes_opening, code_openings};

use crate::operands::{put_attribute, put_numbered};
use crate::sections::{Section, put_section};
use crate::text::end_line;
use gw_num::{Binary, Unary};
use gw_object::{Back, Entity, Instruction, Memory, Parts, Procedure, Sna};
use gw_writing::{put, put_number};
use std::alloc::Global;

/// The word of an operator between two values.
fn binary_word(operator: Binary) -> &'static str {
    match operator {
        Binary::Power => "POW",
        Binary::Multiply => "MUL",
        Binary::Divide => "DIV",
        Binary::Remainder => "REM",
        Binary::Add => "ADD",
        Binary::Subtract => "SUB",
        Binary::Greater => "GT",
        Binary::GreaterOrEqual => "GE",
        Binary::Less => "LT",
        Binary::LessOrEqual => "LE",
        Binary::Equal => "EQ",
        Binary::NotEqual => "NE",
        Binary::And => "AND",
        Binary::Or => "OR",
    }
}

/// The word of an operator before a value.
fn unary_word(operator: Unary) -> &'static str {
    match operator {
        Unary::Negate => "NEG",
        Unary::Not => "NOT",
    }
}

/// An attribute that code reads.
fn put_sna(out: &mut Vec<u8>, entities: &[Entity], sna: Sna) -> Result<(), Memory> {
    put(out, "VALUE ")?;
    match sna {
        Sna::Parameter(number) => put_number(out, "P", number),
        Sna::Attribute(attribute) => put_attribute(out, attribute),
        Sna::OfEntity(numbered) => put_numbered(out, entities, numbered),
    }
}

/// A jump back.
fn put_back(out: &mut Vec<u8>, back: Back) -> Result<(), Memory> {
    put_number(out, "BACK ", back.target)?;
    put_number(out, " at most ", back.count)
}

/// An instruction, with its operands.
pub(crate) fn put_instruction(
    out: &mut Vec<u8>,
    entities: &[Entity],
    instruction: Instruction,
) -> Result<(), Memory> {
    match instruction {
        Instruction::Push(number) => put_number(out, "PUSH ", number),
        Instruction::Get(local) => put_number(out, "GET ", local),
        Instruction::Set(local) => put_number(out, "SET ", local),
        Instruction::Value(sna) => put_sna(out, entities, sna),
        Instruction::Binary(operator) => put(out, binary_word(operator)),
        Instruction::Unary(operator) => put(out, unary_word(operator)),
        Instruction::Pop => put(out, "POP"),
        Instruction::Jump(target) => put_number(out, "JUMP ", target),
        Instruction::JumpIfZero(target) => put_number(out, "JZ ", target),
        Instruction::Back(back) => put_back(out, back),
        Instruction::Call(procedure) => put_number(out, "CALL procedure ", procedure),
        Instruction::Return => put(out, "RET"),
    }
}

/// The parameters that have to be set, if there are any.
fn put_needs(out: &mut Vec<u8>, needs: &[u8]) -> Result<(), Memory> {
    for number in needs {
        put_number(out, " needs P", *number)?;
    }
    Ok(())
}

/// What a procedure has besides its arguments: its locals, and the parameters that have to be set.
fn takes_words(alloc: Global, procedure: &Procedure) -> Result<Vec<u8>, Memory> {
    let mut words = Vec::new(alloc);
    put_number(&mut words, "locals ", procedure.locals)?;
    put_needs(&mut words, procedure.needs.as_slice())?;
    Ok(words)
}

/// What the line of what a procedure takes begins with.
fn put_takes_front(out: &mut Vec<u8>, arguments: u8) -> Result<(), Memory>
    ensures { Puts result out.old out.new (takes_front arguments) }
{
    put_number(out, "    arguments ", arguments)?;
    put(out, " ")
}

/// The line of what a procedure takes.
#[tactic(auto, using(crate::proofs::Adding::fronted))]
fn put_takes(alloc: Global, out: &mut Vec<u8>, procedure: &Procedure) -> Result<(), Memory>
    ensures { PutsLines result out.old out.new (takes_opening procedure.now.arguments) }
{
    let words = takes_words(alloc, procedure)?;
    put_takes_front(out, procedure.arguments)?;
    end_line(alloc, out, &words)
}

/// What a procedure takes, and below that a line for each of its instructions.
pub(crate) fn put_code(
    alloc: Global,
    out: &mut Vec<u8>,
    parts: &Parts,
    procedure: &Procedure,
) -> Result<(), Memory>
    ensures { PutsLines result out.old out.new (code_openings (Some procedure.now)) }
{
    put_takes(alloc, out, procedure)?;
    let instructions = Section::Instructions(procedure.code.as_slice());
    put_section(alloc, out, parts, &instructions)
}

/// The line of a number of a text, without blanks at its ends; none where there is no such line.
fn source(text: &[u8], number: u32) -> &[u8] {
    if number == 0 {
        return &[];
    }
    match text.split(|byte| *byte == b'\n').nth(number as usize - 1) {
        Some(line) => line.trim_ascii(),
        None => &[],
    }
}

/// What the first line of a procedure of a text begins with.
fn put_procedure_front(out: &mut Vec<u8>, number: usize, line: u32) -> Result<(), Memory>
    ensures { Puts result out.old out.new (procedure_front number line) }
{
    put_number(out, "PROCEDURE ", number)?;
    put_number(out, " line ", line)?;
    put(out, " | ")
}

/// The first line of a procedure that comes from this line of a text: its number, the line, and what stands in it.
#[tactic(auto, using(crate::proofs::Adding::fronted))]
fn put_head_of_text(
    alloc: Global,
    out: &mut Vec<u8>,
    text: &[u8],
    number: usize,
    line: u32,
) -> Result<(), Memory>
    ensures { PutsLines result out.old out.new (procedure_head number (Some line) ∷ []) }
{
    put_procedure_front(out, number, line)?;
    end_line(alloc, out, source(text, line))
}

/// The first line of a procedure of an object: its number.
#[tactic(auto, using(crate::proofs::Adding::whole))]
fn put_head_alone(out: &mut Vec<u8>, number: usize) -> Result<(), Memory>
    ensures { PutsLines result out.old out.new (procedure_head number None ∷ []) }
{
    put_number(out, "PROCEDURE ", number)?;
    put(out, "\n")
}

/// The first line of a procedure, by the lines of all.
pub(crate) fn put_head(
    alloc: Global,
    out: &mut Vec<u8>,
    text: &[u8],
    lines: &[u32],
    number: usize,
) -> Result<(), Memory>
    ensures { PutsLines result out.old out.new (procedure_head number (slice_get lines.now number) ∷ []) }
{
    match lines.get(number) {
        Some(line) => put_head_of_text(alloc, out, text, number, *line),
        None => put_head_alone(out, number),
    }
}
