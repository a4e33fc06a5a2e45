//! The blocks of a model text.

ghost use Rattle.std.specs.Prelude.{◌≡◌, ◌++◌, ◌∷◌, [], OnOk, IfOk, IsSome};
ghost use Rattle.std.specs.Prelude.{option_to_list, string_bytes};
ghost use Rattle.gw_names.specs.Numbers.{numbers_of};
ghost use Rattle.gw_pieces.specs.Clear.{StaysClear};
ghost use Rattle.gw_pieces.specs.Notes.{NotesUnless, or_missing};
ghost use Rattle.gw_pieces.specs.Origins as numbers;
ghost use Rattle.gw_pieces.specs.Plans as plans;

use crate::origins::{Origin, expression_at, is_variable, place_of, whole_call};
use crate::plan::Plan;
use gw_compile::{Callee, Numbering};
use gw_names::{Ledger, Names, codes};
use gw_object::Block;
use gw_object_records::record_of;
use gw_text::{Body, Expression, Statement};
use std::alloc::{AllocError, Global};

/// The numbers of the procedures that the operands of a statement become which are expressions: those stand at the first
/// two positions.
#[derive(Clone, Copy)]
pub(crate) struct Numbers {
    /// Of the first operand.
    pub(crate) first: Option<u16>,
    /// Of the second.
    pub(crate) second: Option<u16>,
}

/// A number that 16 bits hold.
fn in_16_bits(place: usize) -> Option<u16>
    ensures { result ≡ numbers.in_16_bits place }
{
    u16::try_from(place).ok()
}

/// The number of the procedure that comes from a position of a statement.
fn own_number(order: &[Origin], statement: usize, operand: usize) -> Option<u16>
    ensures { result ≡ numbers.own_number order.now statement operand }
{
    match place_of(order, Origin { statement, operand }) {
        Some(place) => in_16_bits(place),
        None => None,
    }
}

/// The number of a procedure without arguments.
fn if_without_arguments(callee: Callee) -> Option<u16>
    ensures { result ≡ numbers.if_without_arguments callee }
{
    if callee.arguments == 0 {
        Some(callee.number)
    } else {
        None
    }
}

/// The number of the PROCEDURE that is called as a whole, without arguments.
fn number_called(names: &Names, name: &String) -> Option<u16>
    ensures { result ≡ numbers.number_called (numbers_of names.now) (string_bytes name.now) }
{
    match names.procedure(name) {
        Some(callee) => if_without_arguments(callee),
        None => None,
    }
}

/// The number of the procedure of an expression: that of a PROCEDURE that it calls as a whole, or its own.
fn number_by(
    names: &Names,
    own: Option<u16>,
    is_variable: bool,
    expression: &Expression,
) -> Option<u16>
    ensures { result ≡ numbers.number_of_tree names.now own is_variable expression.now }
{
    if is_variable {
        return own;
    }
    match whole_call(expression) {
        Some(name) => number_called(names, name),
        None => own,
    }
}

/// The number of the procedure that the operand at a position of a statement becomes.
fn number_for(plan: &Plan<'_>, statement: &Statement, number: usize, position: usize) -> Option<u16>
    ensures { result ≡ plans.number_for plan.now statement.now number position }
{
    let own = own_number(&plan.order, number, position);
    let is_variable = is_variable(statement.word);
    match &statement.body {
        Body::Procedure(_) => None,
        _ => match expression_at(statement, position) {
            Some(expression) => number_by(&plan.names, own, is_variable, expression),
            None => None,
        },
    }
}

/// The numbers of the procedures that the operands of a statement become.
pub(crate) fn numbers_for(plan: &Plan<'_>, statement: &Statement, number: usize) -> Numbers
    ensures { result.first ∷ result.second ∷ [] ≡ plans.numbers_for plan.now statement.now number }
{
    Numbers {
        first: number_for(plan, statement, number, 0),
        second: number_for(plan, statement, number, 1),
    }
}

/// The record of a block statement.
fn record_at(plan: &Plan<'_>, statement: &Statement, number: usize) -> Option<Block>
    ensures { result ≡ plans.record_at plan.now statement.now number }
{
    let Numbers { first, second } = numbers_for(plan, statement, number);
    let procedures = [first, second];
    record_of(&plan.names, &procedures, statement)
}

/// Takes note that nothing can be made of the statement on a line. (Where a name isn't known, that was noted when the names
/// were looked at.)
pub(crate) fn note_none(ledger: &mut Ledger, line: u32)
    ensures clear { StaysClear ledger.old ledger.new ⊥ }
    ensures notes { ledger.new.least ≡ or_missing ledger.old.least line }
{
    if ledger.is_clear() {
        ledger.note(line, codes::NAME);
    }
}

/// The record of a block statement, behind others; one of which there is none is noted.
fn put_record(
    blocks: &mut Vec<Block>,
    block: Option<Block>,
    statement: &Statement,
    ledger: &mut Ledger,
) -> Result<(), AllocError>
    ensures blocks { OnOk result (blocks.new.items ≡ blocks.old.items ++ option_to_list block) }
    ensures ledger { OnOk result (StaysClear ledger.old ledger.new (IsSome block)) }
    ensures notes { OnOk result (NotesUnless block statement.now.line ledger.old ledger.new) }
{
    match block {
        Some(block) => blocks.push(block).map_err(|_| AllocError),
        None => {
            note_none(ledger, statement.line);
            Ok(())
        }
    }
}

/// A statement's record, if it is a block, behind others; one of which there is none is noted.
fn put_block(
    blocks: &mut Vec<Block>,
    plan: &Plan<'_>,
    statement: &Statement,
    number: usize,
    ledger: &mut Ledger,
) -> Result<(), AllocError>
    ensures blocks { OnOk result (plans.AddsBlock plan.now statement.now number blocks.old blocks.new) }
    ensures ledger { OnOk result (plans.Records plan.now statement.now number ledger.old ledger.new) }
    ensures notes { OnOk result (plans.NotesBlock plan.now statement.now number ledger.old ledger.new) }
{
    if statement.word.is_block() {
        put_record(
            blocks,
            record_at(plan, statement, number),
            statement,
            ledger,
        )
    } else {
        Ok(())
    }
}

/// The records of the block statements, in order; those of which there is none are noted.
pub(crate) fn blocks_of(
    alloc: Global,
    plan: &Plan<'_>,
    ledger: &mut Ledger,
) -> Result<Vec<Block>, AllocError>
    ensures blocks { IfOk result (plans.AreBlocks plan.now) }
    ensures ledger { OnOk result (plans.RecordsAll plan.now ledger.old ledger.new) }
    ensures notes { OnOk result (plans.NotesBlocks plan.now ledger.old ledger.new) }
{
    let mut blocks = Vec::new(alloc);
    for number in 0..plan.text.statements.len() {
        put_block(
            &mut blocks,
            plan,
            &plan.text.statements[number],
            number,
            ledger,
        )?;
    }
    Ok(blocks)
}
