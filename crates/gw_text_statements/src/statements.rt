//! Statements on one line.

ghost use Rattle.gw_text_expressions.specs.Reading.{KeepsNames};
ghost use Rattle.gw_text_expressions.specs.Stops.{StopsLabel};
ghost use Rattle.gw_text_tokens.specs.Heads.{head_word, word_behind};
ghost use Rattle.gw_text_statements.specs.Heads.{HasWord};
ghost use Rattle.gw_text_tokens.specs.Tokens.{name_in};
ghost use Rattle.std.specs.Prelude.{◌≡◌, ◌⊎◌, IfErr};
ghost use Rattle.gw_text_tokens.specs.declared.faults.Refusal.TheVariants as refusals;

use crate::fields::{Number, fields_of};
use crate::model::{Gate, Modifier, Operand, Switching, Test};
use crate::operands::{cut_next, number_of, operands_of, refused, sign_of, signed};
use crate::transfers::transfer_of;
use gw_text_expressions::expressions::{Expressions, Kind, expression_of};
use gw_text_expressions::snas::{Class, class_of, sna_by_name, sna_of};
use gw_text_expressions::{EntityValue, Sna};
use gw_text_tokens::faults::{Lowest, Refusal, Stop};
use gw_text_tokens::is_spelled;
use gw_text_tokens::names::{name_of, numeral};
use gw_text_tokens::tokens::{Token, next_token};
use gw_text_tokens::words::{Known, Word, known_word};
use std::alloc::{AllocError, Global};

/// What stands at the head of a line: the word, the token before it, and the line from the word on.
#[derive(Clone, Copy)]
pub struct Head<'a> {
    /// The token before the word: a name or a whole number.
    pub label: Option<Token<'a>>,
    /// The word.
    pub word: Word,
    /// The line from the word on.
    pub rest: &'a [u8],
}

/// The head of a line; 71 Word, or 75 LeftOut where the word is one of GPSS World that is left out.
pub fn head_of(line: &[u8]) -> Result<Head<'_>, Refusal>
    ensures word { HasWord (head_word line.now) result }
    ensures refused { IfErr result (λ found. (found ≡ refusals.Word) ⊎ (found ≡ refusals.LeftOut)) }
{
    match next_token(line) {
        Some((Token::Name(first), rest)) => match known_word(first) {
            Known::Word(word) => Ok(Head {
                label: None,
                word,
                rest: line,
            }),
            Known::LeftOut => labelled(Token::Name(first), rest, Refusal::LeftOut),
            Known::Other => labelled(Token::Name(first), rest, Refusal::Word),
        },
        Some((Token::Whole(number), rest)) => {
            labelled(Token::Whole(number), rest, Refusal::Word)
        }
        _ => Err(Refusal::Word),
    }
}

/// The head of a line that begins with a label, which this follows; `refusal` where no word follows.
fn labelled<'a>(label: Token<'a>, line: &'a [u8], refusal: Refusal) -> Result<Head<'a>, Refusal>
    ensures word { HasWord (word_behind (name_in label.entry) line.now) result }
    ensures refused { IfErr result (λ found. (found ≡ refusal) ⊎ (found ≡ refusals.LeftOut)) }
{
    let Some((Token::Name(second), _)) = next_token(line) else {
        return Err(refusal);
    };
    match known_word(second) {
        Known::Word(word) if word.names_entity() || matches!(label, Token::Name(_)) => Ok(Head {
            label: Some(label),
            word,
            rest: line,
        }),
        Known::LeftOut => Err(Refusal::LeftOut),
        _ => Err(refusal),
    }
}

/// A label as it is kept.
pub fn label_of(alloc: Global, token: Token<'_>) -> Result<String, Stop>
    ensures { IfErr result StopsLabel }
{
    match token {
        Token::Name(spelling) => name_of(alloc, spelling),
        Token::Whole(number) => numeral(alloc, number),
        _ => Err(Stop::Refused(Refusal::Word)),
    }
}

/// The operator or the sign, and the tokens from the word or the operator on. A refusal is noted.
pub fn modifier_of<'t, 'a>(
    lowest: &mut Lowest,
    word: Word,
    tokens: &'t [Token<'a>],
) -> (Option<Modifier>, &'t [Token<'a>]) {
    let [_, operands @ ..] = tokens else {
        return (None, tokens);
    };
    match (word, operands) {
        (Word::Assign | Word::Savevalue, _) => (sign_of(tokens), tokens),
        (Word::Test | Word::Gate | Word::Logic, [Token::Name(operator), ..]) => {
            (operator_noted(lowest, word, operator), operands)
        }
        (Word::Test | Word::Gate | Word::Logic, _) => {
            lowest.note(Refusal::Operand);
            (None, tokens)
        }
        (Word::Unlink, [Token::Name(operator), Token::Name(_), ..]) => {
            lowest.note(condition_of(operator));
            (None, operands)
        }
        _ => (None, tokens),
    }
}

/// The operator of TEST, GATE or LOGIC that is spelled so. A refusal is noted.
fn operator_noted(lowest: &mut Lowest, word: Word, spelling: &[u8]) -> Option<Modifier> {
    match operator_of(word, spelling) {
        Ok(modifier) => Some(modifier),
        Err(refusal) => {
            lowest.note(refusal);
            None
        }
    }
}

/// The operator of TEST, GATE or LOGIC that is spelled so.
fn operator_of(word: Word, spelling: &[u8]) -> Result<Modifier, Refusal> {
    match word {
        Word::Test => test_of(spelling),
        Word::Gate => gate_of(spelling),
        _ => switching_of(spelling),
    }
}

const TESTS: [(&[u8], Test); 6] = [
    (b"E", Test::Equal),
    (b"NE", Test::NotEqual),
    (b"G", Test::Greater),
    (b"GE", Test::GreaterOrEqual),
    (b"L", Test::Less),
    (b"LE", Test::LessOrEqual),
];

fn test_of(spelling: &[u8]) -> Result<Modifier, Refusal> {
    for entry in &TESTS {
        if is_spelled(spelling, entry.0) {
            return Ok(Modifier::Test(entry.1));
        }
    }
    Err(Refusal::Operand)
}

const GATES: [(&[u8], Gate); 8] = [
    (b"LS", Gate::Set),
    (b"LR", Gate::Reset),
    (b"U", Gate::InUse),
    (b"NU", Gate::NotInUse),
    (b"SF", Gate::Full),
    (b"SE", Gate::Empty),
    (b"SNF", Gate::NotFull),
    (b"SNE", Gate::NotEmpty),
];

/// What GATE asks in GPSS World and not here: interrupts, matches and availability.
const OTHER_GATES: [&[u8]; 8] = [b"I", b"NI", b"M", b"NM", b"FV", b"FNV", b"SV", b"SNV"];

fn gate_of(spelling: &[u8]) -> Result<Modifier, Refusal> {
    for entry in &GATES {
        if is_spelled(spelling, entry.0) {
            return Ok(Modifier::Gate(entry.1));
        }
    }
    for other in &OTHER_GATES {
        if is_spelled(spelling, other) {
            return Err(Refusal::LeftOut);
        }
    }
    Err(Refusal::Operand)
}

fn switching_of(spelling: &[u8]) -> Result<Modifier, Refusal> {
    if is_spelled(spelling, b"S") {
        Ok(Modifier::Logic(Switching::Set))
    } else if is_spelled(spelling, b"R") {
        Ok(Modifier::Logic(Switching::Reset))
    } else if is_spelled(spelling, b"I") {
        Ok(Modifier::Logic(Switching::Invert))
    } else {
        Err(Refusal::Operand)
    }
}

/// How the operator of an UNLINK is refused: those of GPSS World are left out.
fn condition_of(spelling: &[u8]) -> Refusal {
    match test_of(spelling) {
        Ok(_) => Refusal::LeftOut,
        Err(_) if is_spelled(spelling, b"MIN") || is_spelled(spelling, b"MAX") => Refusal::LeftOut,
        Err(refusal) => refusal,
    }
}

/// The operands of a word, but those of FUNCTION and PROCEDURE, of the tokens from the word or its operator on. Refusals are
/// noted.
pub fn operands_by_word(
    reader: &mut Expressions,
    lowest: &mut Lowest,
    word: Word,
    tokens: &[Token<'_>],
) -> Result<Vec<Operand>, AllocError>
    ensures { KeepsNames reader.old reader.new }
{
    match word {
        Word::Variable | Word::BVariable | Word::Equ => {
            let operand = formula_of(reader, word, tokens);
            one(reader.alloc, lowest.keep(operand, Operand::Missing)?)
        }
        Word::Initial => initial_of(reader, lowest, tokens),
        Word::Transfer => transfer_of(reader, lowest, tokens),
        _ if fields_of(word).is_empty() => {
            if tokens.len() > 1 {
                lowest.note(Refusal::Operand);
            }
            Ok(Vec::new(reader.alloc))
        }
        _ => {
            let (operands, left) = operands_of(reader, lowest, fields_of(word), tokens)?;
            if !left.is_empty() {
                lowest.note(surplus_of(word, left));
            }
            Ok(operands)
        }
    }
}

/// A list of one operand.
fn one(alloc: Global, operand: Operand) -> Result<Vec<Operand>, AllocError> {
    let mut operands = Vec::new(alloc);
    operands.push(operand)?;
    Ok(operands)
}

/// How operands behind the last one are refused: START, LINK and UNLINK have more in GPSS World.
fn surplus_of(word: Word, tokens: &[Token<'_>]) -> Refusal {
    let is_written = tokens.iter().any(|token| !matches!(token, Token::Comma));
    if is_written && matches!(word, Word::Start | Word::Link | Word::Unlink) {
        Refusal::LeftOut
    } else {
        Refusal::Operand
    }
}

/// What follows VARIABLE, BVARIABLE or EQU: an expression, or the one number that an EQU is.
fn formula_of(reader: &mut Expressions, word: Word, tokens: &[Token<'_>]) -> Result<Operand, Stop>
    ensures { KeepsNames reader.old reader.new }
{
    let [_, formula @ ..] = tokens else {
        return Err(Stop::Refused(Refusal::Expression));
    };
    match (word, formula) {
        (Word::Equ, [Token::Whole(number)]) => Ok(Operand::Whole(signed(false, *number)?)),
        (Word::Equ, [Token::Minus, Token::Whole(number)]) => {
            Ok(Operand::Whole(signed(true, *number)?))
        }
        (Word::Equ, _) => Ok(Operand::Expression(expression_of(reader, Kind::OfNumbers, formula)?)),
        _ => Ok(Operand::Expression(expression_of(reader, Kind::Full, formula)?)),
    }
}

/// The operands of INITIAL: a savevalue and its value, or a switch and its state. Refusals are noted.
fn initial_of(
    reader: &mut Expressions,
    lowest: &mut Lowest,
    tokens: &[Token<'_>],
) -> Result<Vec<Operand>, AllocError>
    ensures { KeepsNames reader.old reader.new }
{
    let (first, left) = cut_next(tokens);
    let (second, surplus) = cut_next(left);
    let entity = initialized(reader.alloc, first);
    let number = match &entity {
        Ok(Sna::OfEntity(EntityValue::Switch, _)) => Number::State,
        _ => Number::Any,
    };
    let mut operands = Vec::new(reader.alloc);
    operands.push(Operand::Sna(lowest.keep(entity, Sna::Clock)?))?;
    let value = number_of(reader, number, second);
    operands.push(lowest.keep(value, Operand::Missing)?)?;
    if !surplus.is_empty() {
        lowest.note(Refusal::Operand);
    }
    Ok(operands)
}

/// What INITIAL sets: `X$A`, `X1`, `LS$A` or `LS1`. A bare name is a matrix in GPSS World.
fn initialized(alloc: Global, tokens: &[Token<'_>]) -> Result<Sna, Stop> {
    match tokens {
        [Token::Name(class), Token::Dollar, Token::Name(name)] => {
            let name = name_of(alloc, name)?;
            match class_of(class) {
                Some(Class::Entity(EntityValue::Savevalue | EntityValue::Switch)) | None => {
                    sna_by_name(class_of(class), name)
                }
                Some(_) => Err(Stop::Refused(Refusal::Operand)),
            }
        }
        [Token::Name(name)] => match sna_of(alloc, name)? {
            Some(Sna::OfEntity(EntityValue::Savevalue, name)) => {
                Ok(Sna::OfEntity(EntityValue::Savevalue, name))
            }
            Some(Sna::OfEntity(EntityValue::Switch, name)) => {
                Ok(Sna::OfEntity(EntityValue::Switch, name))
            }
            _ => Err(Stop::Refused(Refusal::LeftOut)),
        },
        _ => Err(refused(tokens)),
    }
}
