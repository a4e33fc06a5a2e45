//! What of a model text becomes procedures.

ghost use Rattle.std.specs.Prelude.{◌≡◌, OnOk, IfOk, option_map, string_bytes};
ghost use Rattle.std.specs.Option.{option_copied};
ghost use Rattle.gw_names.specs.Known.{found_in};
ghost use Rattle.gw_names.specs.Places.{label_of};
ghost use Rattle.gw_pieces.specs.Order as order;
ghost use Rattle.gw_pieces.specs.Origins as model;

use gw_names::{Known, is_equ, value_of_name};
use gw_text::{Body, Expression, Model, Operand, Statement, Word};
use std::alloc::{AllocError, Global};

/// Where a procedure comes from: a PROCEDURE, or an operand that is an expression.
#[derive(Clone, Copy)]
pub(crate) struct Origin {
    /// Its statement, from 0.
    pub(crate) statement: usize,
    /// The position of the operand, from 0; 0 of a PROCEDURE.
    pub(crate) operand: usize,
}

/// Whether a word is VARIABLE or BVARIABLE.
pub(crate) fn is_variable(word: Word) -> bool
    ensures { result ≡ model.is_variable word }
{
    matches!(word, Word::Variable | Word::BVariable)
}

/// The name of the PROCEDURE that an expression calls as a whole, without arguments: no procedure of its own is made of it.
pub(crate) fn whole_call(expression: &Expression) -> Option<&String>
    ensures { option_map (λ name. string_bytes name.now) result ≡ model.whole_call expression.now }
{
    match expression {
        Expression::Call(name, arguments) => {
            if arguments.is_empty() {
                Some(name)
            } else {
                None
            }
        }
        _ => None,
    }
}

/// The expression at a position of a statement.
pub(crate) fn expression_at(statement: &Statement, operand: usize) -> Option<&Expression>
    ensures { option_copied result ≡ model.expression_at statement.now operand }
{
    match statement.operands.get(operand) {
        Some(Operand::Expression(expression)) => Some(expression),
        _ => None,
    }
}

/// Whether a statement has the name of a number.
fn is_number(known: &Known, statement: &Statement) -> bool
    ensures { result ≡ order.is_number (found_in known.now.equ_numbers) (label_of statement.now) }
{
    match &statement.label {
        Some(name) => value_of_name(&known.equ_numbers, name).is_some(),
        None => false,
    }
}

/// Whether an operand is an expression, but no whole call without arguments.
fn is_own(statement: &Statement, operand: usize) -> bool
    ensures { result ≡ order.is_own (model.expression_at statement.now operand) }
{
    match expression_at(statement, operand) {
        Some(expression) => whole_call(expression).is_none(),
        None => false,
    }
}

/// Whether a procedure comes from this position of a statement that has no PROCEDURE.
fn is_operand_origin(known: &Known, statement: &Statement, operand: usize) -> bool
    ensures { result ≡ order.is_known_origin known.now statement.now operand }
{
    if is_equ(statement.word) {
        operand == 0 && !is_number(known, statement) && expression_at(statement, operand).is_some()
    } else if is_variable(statement.word) {
        expression_at(statement, operand).is_some()
    } else {
        is_own(statement, operand)
    }
}

/// Whether a procedure comes from this position of a statement.
fn is_origin(known: &Known, statement: &Statement, operand: usize) -> bool
    ensures { result ≡ order.is_origin (found_in known.now.equ_numbers) statement.now operand }
{
    match &statement.body {
        Body::Procedure(_) => operand == 0,
        Body::Nothing | Body::Points(_) => is_operand_origin(known, statement, operand),
    }
}

/// The origin at a position of a statement, if it is one, behind others.
fn put_origin(
    origins: &mut Vec<Origin>,
    known: &Known,
    statement: &Statement,
    number: usize,
    operand: usize,
) -> Result<(), AllocError>
    ensures { OnOk result (order.AddsOrigin known.now statement.now number operand origins.old origins.new) }
{
    if is_origin(known, statement, operand) {
        let origin = Origin {
            statement: number,
            operand,
        };
        origins.push(origin).map_err(|_| AllocError)
    } else {
        Ok(())
    }
}

/// The origins in a statement, behind others: expressions are its first two operands.
fn put_origins(
    origins: &mut Vec<Origin>,
    known: &Known,
    statement: &Statement,
    number: usize,
) -> Result<(), AllocError>
    ensures { OnOk result (order.AddsOrigins known.now statement.now number origins.old origins.new) }
{
    put_origin(origins, known, statement, number, 0)?;
    put_origin(origins, known, statement, number, 1)
}

/// The origins of procedures in a model text, in the order of the text.
pub(crate) fn origins_of(
    alloc: Global,
    known: &Known,
    model: &Model,
) -> Result<Vec<Origin>, AllocError>
    ensures { IfOk result (order.AreOrigins known.now model.now) }
{
    let mut origins = Vec::new(alloc);
    for number in 0..model.statements.len() {
        put_origins(&mut origins, known, &model.statements[number], number)?;
    }
    Ok(origins)
}

/// The same origin.
fn is_same(a: Origin, b: Origin) -> bool
    ensures { result ≡ model.same_origin a b }
{
    a.statement == b.statement && a.operand == b.operand
}

/// The place of an origin among others, from 0.
pub(crate) fn place_of(origins: &[Origin], origin: Origin) -> Option<usize>
    ensures { result ≡ model.place_in origins.now origin }
{
    for place in 0..origins.len() {
        if is_same(origins[place], origin) {
            return Some(place);
        }
    }
    None
}
