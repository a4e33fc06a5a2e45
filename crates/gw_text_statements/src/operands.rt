//! Operands, each read as what its place asks for.

ghost use Rattle.gw_text_expressions.specs.Reading.{KeepsNames};

use crate::fields::{Field, Number};
use crate::model::{Modifier, Operand};
use gw_text_expressions::expressions::{Expressions, Kind, expression_of};
use gw_text_expressions::snas::{class_of, sna_by_name, sna_of};
use gw_text_expressions::{EntityValue, Sna};
use gw_text_tokens::faults::{Lowest, Refusal, Stop};
use gw_text_tokens::is_spelled;
use gw_text_tokens::names::{name_of, numeral};
use gw_text_tokens::tokens::Token;
use std::alloc::{AllocError, Global};

/// The tokens up to the first comma outside parentheses, and those from that comma on.
pub(crate) fn cut<'t, 'a>(tokens: &'t [Token<'a>]) -> (&'t [Token<'a>], &'t [Token<'a>]) {
    let mut open: usize = 0;
    for (i, token) in tokens.iter().enumerate() {
        if open == 0 && matches!(token, Token::Comma) {
            return tokens.split_at(i);
        }
        open = nesting_after(open, *token);
    }
    tokens.split_at(tokens.len())
}

/// The tokens of the next operand, and what is left behind it. What is left begins with what stands before the next operand:
/// the word, the operator or a comma.
pub(crate) fn cut_next<'t, 'a>(left: &'t [Token<'a>]) -> (&'t [Token<'a>], &'t [Token<'a>]) {
    match left {
        [_, tokens @ ..] => cut(tokens),
        [] => cut(left),
    }
}

/// The operands that these fields ask for, and what is left. Refusals are noted.
pub(crate) fn operands_of<'t, 'a>(
    reader: &mut Expressions,
    lowest: &mut Lowest,
    fields: &[Field],
    tokens: &'t [Token<'a>],
) -> Result<(Vec<Operand>, &'t [Token<'a>]), AllocError>
    ensures { KeepsNames reader.old reader.new }
{
    let mut operands = Vec::new(reader.alloc);
    for (i, field) in fields.iter().enumerate() {
        let (operand, _) = cut_next(left_from(tokens, i));
        let operand = operand_of(reader, *field, operand);
        operands.push(lowest.keep(operand, Operand::Missing)?)?;
    }
    Ok((operands, left_from(tokens, fields.len())))
}

/// What is left before the operand of a number, from 0; nothing where there are fewer.
fn left_from<'t, 'a>(tokens: &'t [Token<'a>], number: usize) -> &'t [Token<'a>] {
    let mut open: usize = 0;
    let mut begun: usize = 0;
    for (i, token) in tokens.iter().enumerate() {
        let separates = i == 0 || (open == 0 && matches!(token, Token::Comma));
        if separates && begun == number {
            return tokens.split_at(i).1;
        }
        if separates {
            begun = begun.saturating_add(1);
        }
        open = nesting_after(open, *token);
    }
    tokens.split_at(tokens.len()).1
}

/// How many parentheses are open behind a token.
fn nesting_after(open: usize, token: Token<'_>) -> usize {
    match token {
        Token::Open => open.saturating_add(1),
        Token::Close => open.saturating_sub(1),
        _ => open,
    }
}

/// One operand.
fn operand_of(reader: &mut Expressions, field: Field, tokens: &[Token<'_>]) -> Result<Operand, Stop>
    ensures { KeepsNames reader.old reader.new }
{
    match field {
        Field::Value => value_of(reader, tokens),
        Field::Spread => spread_of(reader, tokens),
        Field::Entity => entity_of(reader, tokens),
        Field::ChangedEntity => entity_of(reader, without_sign(tokens)),
        Field::Parameter => parameter_of(reader, tokens),
        Field::ChangedParameter => parameter_of(reader, without_sign(tokens)),
        Field::Target => target_of(reader, tokens),
        Field::Number(number) => number_of(reader, number, tokens),
        Field::Order => order_of(reader, tokens),
        Field::Behind => behind_of(reader, tokens),
        Field::Count => count_of(reader, tokens),
        Field::OptionalParameter | Field::OptionalTarget if tokens.is_empty() => {
            Ok(Operand::Missing)
        }
        Field::OptionalParameter => parameter_of(reader, tokens),
        Field::OptionalTarget => target_of(reader, tokens),
    }
}

/// A value: a whole number, an attribute, the name of an EQU, a call, or an expression in parentheses. A missing one is 0.
pub(crate) fn value_of(reader: &mut Expressions, tokens: &[Token<'_>]) -> Result<Operand, Stop>
    ensures { KeepsNames reader.old reader.new }
{
    match tokens {
        [] => Ok(Operand::Missing),
        [Token::Whole(_)] | [Token::Minus, Token::Whole(_)] => Ok(Operand::Whole(whole_of(
            tokens,
        )?)),
        [Token::Name(name)] => named_value(reader.alloc, name),
        [Token::Name(class), Token::Dollar, Token::Name(name)] => {
            let name = name_of(reader.alloc, name)?;
            Ok(Operand::Sna(sna_by_name(class_of(class), name)?))
        }
        [Token::Open, ..] | [Token::Name(_), Token::Open, ..] => group_of(reader, tokens),
        _ => Err(refused(tokens)),
    }
}

/// A name where a value is asked: an attribute such as `Q1`, or the name of an EQU.
fn named_value(alloc: Global, spelling: &[u8]) -> Result<Operand, Stop> {
    let name = name_of(alloc, spelling)?;
    match sna_of(alloc, spelling)? {
        Some(sna) => Ok(Operand::Sna(sna)),
        None => Ok(Operand::Name(name)),
    }
}

/// A value that is no FN.
fn spread_of(reader: &mut Expressions, tokens: &[Token<'_>]) -> Result<Operand, Stop>
    ensures { KeepsNames reader.old reader.new }
{
    match value_of(reader, tokens)? {
        Operand::Sna(Sna::OfEntity(EntityValue::Function, _)) => {
            Err(Stop::Refused(Refusal::LeftOut))
        }
        value => Ok(value),
    }
}

/// An expression in parentheses, or a call, with nothing behind it.
fn group_of(reader: &mut Expressions, tokens: &[Token<'_>]) -> Result<Operand, Stop>
    ensures { KeepsNames reader.old reader.new }
{
    if goes_on(tokens) {
        return Err(refused(tokens));
    }
    Ok(Operand::Expression(expression_of(reader, Kind::Full, tokens)?))
}

/// Whether something stands behind the parenthesis that closes the first one.
fn goes_on(tokens: &[Token<'_>]) -> bool {
    let mut open: usize = 0;
    for (i, token) in tokens.iter().enumerate() {
        match token {
            Token::Open => open = open.saturating_add(1),
            Token::Close if open <= 1 => return i + 1 < tokens.len(),
            Token::Close => open -= 1,
            _ => {}
        }
    }
    false
}

/// A whole number with or without a `-`: 76 Limit where it is past 64 bits, 72 Operand where it is none.
fn whole_of(tokens: &[Token<'_>]) -> Result<i64, Stop> {
    match tokens {
        [Token::Whole(number)] => signed(false, *number),
        [Token::Minus, Token::Whole(number)] => signed(true, *number),
        _ => Err(refused(tokens)),
    }
}

/// A whole number of this sign; 76 Limit where it is past 64 bits.
pub(crate) fn signed(is_negative: bool, number: u64) -> Result<i64, Stop> {
    match i64::try_from(number) {
        Ok(number) if is_negative => Ok(-number),
        Ok(number) => Ok(number),
        Err(_) if is_negative && number == 1 << 63 => Ok(i64::MIN),
        Err(_) => Err(Stop::Refused(Refusal::Limit)),
    }
}

/// An entity: a name, or a whole number that stands for one.
pub(crate) fn entity_of(reader: &mut Expressions, tokens: &[Token<'_>]) -> Result<Operand, Stop>
    ensures { KeepsNames reader.old reader.new }
{
    match tokens {
        [Token::Name(name)] => Ok(Operand::Name(name_of(reader.alloc, name)?)),
        [Token::Whole(number)] => Ok(Operand::Name(numeral(reader.alloc, *number)?)),
        _ => Err(computed(reader, Refusal::LeftOut, tokens)),
    }
}

/// A parameter: a name, or a number from 1 to 64.
pub(crate) fn parameter_of(reader: &mut Expressions, tokens: &[Token<'_>]) -> Result<Operand, Stop>
    ensures { KeepsNames reader.old reader.new }
{
    match tokens {
        [Token::Name(name)] => Ok(Operand::Name(name_of(reader.alloc, name)?)),
        [Token::Whole(number)] => match signed(false, *number)? {
            number if 1 <= number && number <= 64 => Ok(Operand::Whole(number)),
            _ => Err(Stop::Refused(Refusal::Operand)),
        },
        _ => Err(computed(reader, Refusal::LeftOut, tokens)),
    }
}

/// The label of a block.
pub(crate) fn target_of(reader: &mut Expressions, tokens: &[Token<'_>]) -> Result<Operand, Stop>
    ensures { KeepsNames reader.old reader.new }
{
    match tokens {
        [Token::Name(name)] => Ok(Operand::Name(name_of(reader.alloc, name)?)),
        _ => Err(computed(reader, Refusal::Operand, tokens)),
    }
}

/// A whole number that may stand for this. A missing one is 0.
pub(crate) fn number_of(
    reader: &mut Expressions,
    number: Number,
    tokens: &[Token<'_>],
) -> Result<Operand, Stop>
    ensures { KeepsNames reader.old reader.new }
{
    let (least, greatest) = number.range();
    match tokens {
        [] if least <= 0 => Ok(Operand::Missing),
        [Token::Whole(_)] | [Token::Minus, Token::Whole(_)] => {
            let value = whole_of(tokens)?;
            if value < least || greatest < value {
                return Err(Stop::Refused(Refusal::Operand));
            }
            Ok(Operand::Whole(value))
        }
        [Token::Name(name)] => match sna_of(reader.alloc, name)? {
            Some(_) => Err(Stop::Refused(number.computed())),
            None => Err(Stop::Refused(Refusal::Operand)),
        },
        [Token::Name(_), Token::Dollar, Token::Name(_)] if number.is_plain() => {
            Err(Stop::Refused(number.computed()))
        }
        _ => Err(computed(reader, number.computed(), tokens)),
    }
}

/// FIFO or LIFO, or nothing. GPSS World may also order by a parameter.
fn order_of(reader: &mut Expressions, tokens: &[Token<'_>]) -> Result<Operand, Stop>
    ensures { KeepsNames reader.old reader.new }
{
    match tokens {
        [] => Ok(Operand::Missing),
        [Token::Name(name)] if is_spelled(name, b"FIFO") || is_spelled(name, b"LIFO") => {
            Ok(Operand::Name(name_of(reader.alloc, name)?))
        }
        [Token::Name(_)] | [Token::Whole(_)] => Err(Stop::Refused(Refusal::LeftOut)),
        _ => Err(computed(reader, Refusal::LeftOut, tokens)),
    }
}

/// BU, or nothing.
fn behind_of(reader: &mut Expressions, tokens: &[Token<'_>]) -> Result<Operand, Stop>
    ensures { KeepsNames reader.old reader.new }
{
    match tokens {
        [] => Ok(Operand::Missing),
        [Token::Name(name)] if is_spelled(name, b"BU") => {
            Ok(Operand::Name(name_of(reader.alloc, name)?))
        }
        _ => Err(computed(reader, Refusal::Operand, tokens)),
    }
}

/// A whole number, or ALL or nothing, which are both missing.
fn count_of(reader: &mut Expressions, tokens: &[Token<'_>]) -> Result<Operand, Stop>
    ensures { KeepsNames reader.old reader.new }
{
    match tokens {
        [Token::Name(name)] if is_spelled(name, b"ALL") => Ok(Operand::Missing),
        _ => number_of(reader, Number::Count, tokens),
    }
}

/// How an operand is refused where something is asked that can't be computed: attributes and expressions by this refusal, but
/// 75 LeftOut where the class of an attribute is one that is left out.
pub(crate) fn computed(reader: &mut Expressions, refusal: Refusal, tokens: &[Token<'_>]) -> Stop
    ensures { KeepsNames reader.old reader.new }
{
    match tokens {
        [Token::Name(class), Token::Dollar, Token::Name(_)] => match class_of(class) {
            Some(_) => Stop::Refused(refusal),
            None => Stop::Refused(Refusal::LeftOut),
        },
        [Token::Open, ..] | [Token::Name(_), Token::Open, ..] => match group_of(reader, tokens) {
            Ok(_) => Stop::Refused(refusal),
            Err(stop) => stop,
        },
        _ => refused(tokens),
    }
}

/// How tokens are refused that are none of what is asked: 75 LeftOut where they are another form of GPSS World, else 72 Operand.
pub(crate) fn refused(tokens: &[Token<'_>]) -> Stop {
    Stop::Refused(refusal_of(tokens))
}

/// The refusal of tokens that are none of what is asked.
pub(crate) fn refusal_of(tokens: &[Token<'_>]) -> Refusal {
    let is_left_out = match tokens {
        [Token::Text] | [Token::Decimal(_)] | [Token::Minus, Token::Decimal(_)] => true,
        [Token::Star, Token::Name(_) | Token::Whole(_)] => true,
        [
            Token::Name(class),
            Token::Star,
            Token::Name(_) | Token::Whole(_),
        ] => { class_of(class).is_some() }
        _ => tokens.iter().any(|token| matches!(token, Token::Slash)),
    };
    if is_left_out {
        Refusal::LeftOut
    } else {
        Refusal::Operand
    }
}

/// The sign behind what ASSIGN and SAVEVALUE change, if there is one.
pub(crate) fn sign_of(tokens: &[Token<'_>]) -> Option<Modifier> {
    match cut_next(tokens).0 {
        [.., Token::Plus] => Some(Modifier::Plus),
        [.., Token::Minus] => Some(Modifier::Minus),
        _ => None,
    }
}

/// The tokens before a sign.
fn without_sign<'t, 'a>(tokens: &'t [Token<'a>]) -> &'t [Token<'a>] {
    match tokens {
        [front @ .., Token::Plus | Token::Minus] => front,
        _ => tokens,
    }
}
