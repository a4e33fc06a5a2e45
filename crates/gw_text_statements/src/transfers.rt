//! TRANSFER, in its forms (GPSS World Reference Manual, chapter 7).

ghost use Rattle.gw_text_expressions.specs.Reading.{KeepsNames};

use crate::fields::Field;
use crate::model::Operand;
use crate::operands::{computed, cut_next, operands_of, value_of};
use gw_text_expressions::expressions::Expressions;
use gw_text_tokens::faults::{Lowest, Refusal, Stop};
use gw_text_tokens::is_spelled;
use gw_text_tokens::tokens::{Decimal, Token};
use std::alloc::{AllocError, Global};

/// The forms of TRANSFER.
#[derive(Clone, Copy)]
enum Form {
    /// To a block.
    Always,
    /// By a fraction.
    Fraction(u16),
    /// To one block, or where that refuses to another.
    Both,
    /// To a subroutine, which returns by a parameter.
    Subroutine,
    /// Back from a subroutine, by a parameter.
    Return,
}

const TO: [Field; 1] = [Field::Target];

const TO_ONE_OF_TWO: [Field; 2] = [Field::OptionalTarget, Field::Target];

const TO_SUBROUTINE: [Field; 2] = [Field::Target, Field::Parameter];

const BACK: [Field; 1] = [Field::Parameter];

/// The forms of GPSS World that are left out.
const OTHER_FORMS: [&[u8]; 4] = [b"ALL", b"PICK", b"FN", b"SIM"];

/// The operands of TRANSFER: what stands first, then those of its form. Refusals are noted.
pub(crate) fn transfer_of(
    reader: &mut Expressions,
    lowest: &mut Lowest,
    tokens: &[Token<'_>],
) -> Result<Vec<Operand>, AllocError>
    ensures { KeepsNames reader.old reader.new }
{
    let (first, left) = cut_next(tokens);
    let alloc = reader.alloc;
    match form_of(reader, first) {
        Ok(form) => {
            let (mut operands, left) = operands_of(reader, lowest, fields_of(form), left)?;
            operands.insert(0, first_of(alloc, form)?)?;
            check_end(reader, lowest, form, left)?;
            Ok(operands)
        }
        Err(stop) => {
            lowest.keep(Err(stop), ())?;
            Ok(Vec::new(alloc))
        }
    }
}

/// The form that the first operand asks for.
fn form_of(reader: &mut Expressions, tokens: &[Token<'_>]) -> Result<Form, Stop>
    ensures { KeepsNames reader.old reader.new }
{
    match tokens {
        [] => Ok(Form::Always),
        [Token::Decimal(fraction)] => Ok(fraction_of(*fraction)?),
        [Token::Whole(_)] => Err(Stop::Refused(Refusal::LeftOut)),
        [Token::Name(word)] => Ok(form_by_word(word)?),
        _ => Err(computed(reader, Refusal::Operand, tokens)),
    }
}

/// The form that a word asks for.
fn form_by_word(word: &[u8]) -> Result<Form, Refusal> {
    if is_spelled(word, b"SBR") {
        Ok(Form::Subroutine)
    } else if is_spelled(word, b"P") {
        Ok(Form::Return)
    } else if is_spelled(word, b"BOTH") {
        Ok(Form::Both)
    } else {
        Err(other_form(word))
    }
}

/// A fraction in thousandths: a point and one to three digits.
fn fraction_of(fraction: Decimal) -> Result<Form, Refusal> {
    if fraction.whole.is_some() || fraction.places > 3 || fraction.millionths >= 1000000 {
        return Err(Refusal::LeftOut);
    }
    Ok(Form::Fraction((fraction.millionths / 1000) as u16))
}

/// How a word that is no form is refused.
fn other_form(word: &[u8]) -> Refusal {
    for other in &OTHER_FORMS {
        if is_spelled(word, other) {
            return Refusal::LeftOut;
        }
    }
    Refusal::Operand
}

/// What the operands behind the first one may be.
fn fields_of(form: Form) -> &'static [Field] {
    match form {
        Form::Always => &TO,
        Form::Fraction(_) | Form::Both => &TO_ONE_OF_TWO,
        Form::Subroutine => &TO_SUBROUTINE,
        Form::Return => &BACK,
    }
}

/// The first operand of a form.
fn first_of(alloc: Global, form: Form) -> Result<Operand, AllocError> {
    match form {
        Form::Always => Ok(Operand::Missing),
        Form::Fraction(thousandths) => Ok(Operand::Fraction(thousandths)),
        Form::Both => Ok(Operand::Both),
        Form::Subroutine => Ok(Operand::Name(String::from_str(alloc, "SBR")?)),
        Form::Return => Ok(Operand::Name(String::from_str(alloc, "P")?)),
    }
}

/// What stands behind the operands of a form: nothing, or the 1 of the way back. A refusal is noted.
fn check_end(
    reader: &mut Expressions,
    lowest: &mut Lowest,
    form: Form,
    left: &[Token<'_>],
) -> Result<(), AllocError>
    ensures { KeepsNames reader.old reader.new }
{
    if let Form::Return = form {
        let (offset, surplus) = cut_next(left);
        lowest.keep(check_offset(reader, offset), ())?;
        check_surplus(lowest, surplus);
    } else {
        check_surplus(lowest, left);
    }
    Ok(())
}

/// Notes that something is left behind the operands.
fn check_surplus(lowest: &mut Lowest, surplus: &[Token<'_>]) {
    if !surplus.is_empty() {
        lowest.note(Refusal::Operand);
    }
}

/// The way back leads to the block behind: the offset is 1. GPSS World has others, too.
fn check_offset(reader: &mut Expressions, tokens: &[Token<'_>]) -> Result<(), Stop>
    ensures { KeepsNames reader.old reader.new }
{
    match value_of(reader, tokens)? {
        Operand::Whole(1) => Ok(()),
        _ => Err(Stop::Refused(Refusal::LeftOut)),
    }
}
