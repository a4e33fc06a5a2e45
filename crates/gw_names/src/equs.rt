//! EQUs that are numbers.

ghost use Rattle.std.specs.Prelude.{◌≡◌, OnOk};
ghost use Rattle.gw_names.specs.Known.{Finds, found_in};
ghost use Rattle.gw_names.specs.Places as model;
ghost use Rattle.gw_names.specs.Places.{number_below};

use crate::maps::{set, value_of_name};
use gw_text::{Expression, Operand, Statement, Word};
use indexmap::IndexMap;
use std::alloc::AllocError;

/// The number that an EQU is, where these above are numbers: a whole number, or the name of one above that is a number.
fn number_of(numbers: &IndexMap<String, i64>, operand: &Operand) -> Option<i64>
    ensures { result ≡ model.number_of (found_in numbers.now) operand.now }
{
    match operand {
        Operand::Whole(number) => Some(*number),
        Operand::Expression(Expression::Name(name)) => value_of_name(numbers, name),
        _ => None,
    }
}

/// The number of a statement, if it is an EQU of a number.
fn equ_number_in(numbers: &IndexMap<String, i64>, word: Word, operands: &[Operand]) -> Option<i64>
    ensures { result ≡ model.equ_number_in (found_in numbers.now) word operands.now }
{
    match operands {
        [operand] => match word {
            Word::Equ => number_of(numbers, operand),
            _ => None,
        },
        _ => None,
    }
}

/// Keeps the number of a statement, if it is an EQU of a number.
pub(crate) fn keep(
    numbers: &mut IndexMap<String, i64>,
    statement: &Statement,
) -> Result<(), AllocError>
    ensures { OnOk result (Finds (number_below (found_in numbers.old) statement.now) numbers.new) }
{
    match (
        equ_number_in(numbers, statement.word, &statement.operands),
        &statement.label,
    ) {
        (Some(number), Some(label)) => set(numbers, label, number),
        _ => Ok(()),
    }
}
