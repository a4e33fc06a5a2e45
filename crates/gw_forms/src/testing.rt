//! Whether a piece of a line is what a form asks for.

use crate::form::Test;
use crate::line::{Line, is_abbreviation};
use gw_text_tokens::is_spelled;
use gw_text_tokens::tokens::Token;
use gw_text_tokens::words::is_library;

/// The classes of attributes with `$` that this language has.
const CLASSES: &[u8] = b"F S R Q X LS CH V BV FN N W P";

/// Whether a name is one of these, between which blanks stand, in upper or lower case.
pub fn is_among(name: &[u8], names: &[u8]) -> bool {
    names
        .split(|byte| *byte == b' ')
        .any(|it| is_spelled(name, it))
}

/// How many letters stand at the front of a name.
fn letters(name: &[u8]) -> usize {
    name.iter()
        .position(|byte| !byte.is_ascii_alphabetic())
        .unwrap_or(name.len())
}

/// The letters of a name that has nothing but a number behind them, if it has one.
pub fn class_of_numbered(name: &[u8]) -> Option<&[u8]> {
    let count = letters(name);
    if count >= name.len() || count == 0 {
        return None;
    }
    let (class, digits) = name.split_at(count);
    digits
        .iter()
        .all(|byte| byte.is_ascii_digit())
        .then_some(class)
}

/// The class of the attribute at a place, if one stands there, and where it ends.
fn class_at<'a>(line: &Line<'a>, place: usize) -> Option<(&'a [u8], usize)> {
    let Some(Token::Name(name)) = line.token(place) else {
        return None;
    };
    if leads_to_labels(line) && !matches!(line.next(place), Some(Token::Dollar)) {
        return None;
    }
    if matches!(line.next(place), Some(Token::Dollar)) {
        return Some((
            name,
            line.end(place.saturating_add(2))
                .max(line.end(place.saturating_add(1))),
        ));
    }
    Some((class_of_numbered(name)?, line.end(place)))
}

/// Whether a token is a sign between values.
fn is_sign(token: Option<Token<'_>>) -> bool {
    matches!(
        token,
        Some(
            Token::Operator(_)
                | Token::Plus
                | Token::Minus
                | Token::Slash
                | Token::Star
                | Token::Equals
        )
    )
}

/// Whether a token ends a value.
fn ends_value(token: Option<Token<'_>>) -> bool {
    matches!(
        token,
        Some(Token::Name(_) | Token::Whole(_) | Token::Decimal(_) | Token::Close)
    )
}

/// The end of a piece, where this holds.
fn end_if(holds: bool, line: &Line<'_>, place: usize) -> Option<usize> {
    if holds { Some(line.end(place)) } else { None }
}

/// Whether the names among the operands of the statement are labels.
fn leads_to_labels(line: &Line<'_>) -> bool {
    match line.token(line.word) {
        Some(Token::Name(word)) => is_among(word, b"TRANSFER LOOP SPLIT UNLINK"),
        _ => false,
    }
}

/// Whether the statement has a word or sign behind its own word, before its operands.
fn has_two_words(line: &Line<'_>) -> bool {
    match line.token(line.word) {
        Some(Token::Name(word)) => is_among(word, b"LOGIC GATE TEST"),
        _ => false,
    }
}

/// Where a name ends, where it is what is asked.
fn name_end(line: &Line<'_>, place: usize, name: &[u8], test: Test) -> Option<usize> {
    let opens = matches!(line.next(place), Some(Token::Open));
    let is_attribute = matches!(line.next(place), Some(Token::Dollar));
    let holds = match test {
        Test::Call(names) => opens && is_among(name, names),
        Test::Library => opens && is_library(name),
        Test::Name(names) => !is_attribute && is_among(name, names),
        Test::NameAlone => !is_attribute,
        Test::Letter(letter) =>
            matches!(name, [first, digit, ..] if first.eq_ignore_ascii_case(&letter) && digit.is_ascii_digit()),
        Test::Abbreviation => place == line.word && is_abbreviation(name),
        _ => false,
    };
    end_if(holds, line, place)
}

/// Where an attribute ends, where it is what is asked.
fn attribute_end(line: &Line<'_>, place: usize, test: Test) -> Option<usize> {
    let (class, end) = class_at(line, place)?;
    let is_attribute = matches!(line.next(place), Some(Token::Dollar));
    let holds = match test {
        Test::Class(classes) => is_among(class, classes),
        Test::OtherClass => is_attribute && !is_among(class, CLASSES),
        Test::RandomWithin => {
            is_among(class, b"RN")
                && (is_sign(line.next(place))
                    || is_sign(line.before(place))
                    || matches!(line.before(place), Some(Token::Open)))
        }
        _ => false,
    };
    if holds { Some(end) } else { None }
}

/// Where a sign ends, where it is what is asked.
fn sign_end(line: &Line<'_>, place: usize, test: Test) -> Option<usize> {
    let token = line.token(place)?;
    let is_star = matches!(token, Token::Star);
    let holds = match test {
        Test::Decimal => matches!(token, Token::Decimal(_)),
        Test::Text => matches!(token, Token::Text),
        Test::Slash => matches!(token, Token::Slash),
        Test::Equals => matches!(token, Token::Equals),
        Test::Whole => matches!(token, Token::Whole(_)) && line.begins_operand(place),
        Test::Power => {
            is_star && matches!(line.next(place), Some(Token::Star)) || is_percent(line, place)
        }
        Test::StarBetween => {
            is_star && ends_value(line.before(place)) && !line.begins_operand(place)
        }
        Test::Operator => {
            is_sign(Some(token))
                && line.depth(place) == 0
                && ends_value(line.before(place))
                && !matches!(line.next(place), Some(Token::Comma))
        }
        Test::StarLine => is_star && place == 0,
        _ => false,
    };
    end_if(holds, line, place)
}

/// Whether a piece is `%`.
fn is_percent(line: &Line<'_>, place: usize) -> bool {
    match line.pieces.get(place) {
        Some(piece) => line.bytes.get(piece.from) == Some(&b'%'),
        None => false,
    }
}

/// Where an operand, or what stands behind all of them, ends, where it is what is asked.
fn operand_end(line: &Line<'_>, place: usize, test: Test) -> Option<usize> {
    let token = line.token(place)?;
    let first = line.begins_operand(place) && !matches!(token, Token::Comma);
    let is_computed = matches!(token, Token::Star | Token::Open)
        || matches!(token, Token::Name(_)) && matches!(line.next(place), Some(Token::Dollar));
    match test {
        Test::First if first => Some(line.end_of_operand(place)),
        Test::Further if first && line.operand(place) > 0 => Some(line.end_of_operand(place)),
        Test::Computed if is_computed && place > line.word && line.operand(place) == 0 => {
            Some(line.end_of_operand(place))
        }
        Test::StarFirst
            if matches!(token, Token::Star) && (first || !ends_value(line.before(place))) => {
            Some(line.end(place.saturating_add(1)).max(line.end(place)))
        }
        Test::Behind if stands_behind(line, place, token) => Some(line.end_of_pieces()),
        _ => None,
    }
}

/// Whether a piece is the first of what stands behind the operands.
pub fn stands_behind(line: &Line<'_>, place: usize, token: Token<'_>) -> bool {
    let operands = if has_two_words(line) { 2 } else { 1 };
    matches!(token, Token::Name(_) | Token::Whole(_))
        && place > line.word.saturating_add(operands)
        && line.depth(place) == 0
        && ends_value(line.before(place))
        && line.stands_apart(place)
}

/// Where a label that is none ends, where it is what is asked.
fn label_end(line: &Line<'_>, place: usize, test: Test) -> Option<usize> {
    let joined = !line.stands_apart(1);
    let holds = place == 0
        && joined
        && match (test, line.token(0), line.token(1)) {
            (Test::LabelPoint, Some(Token::Name(_)), Some(Token::Decimal(_) | Token::Unknown)) => {
                true
            }
            (Test::LabelDigit, Some(Token::Whole(_)), Some(Token::Name(_))) => true,
            _ => false,
        };
    end_if(holds, line, 1)
}

/// Where the piece at a place, with what belongs to it, ends, where it is what is asked.
pub(crate) fn end_of_match(line: &Line<'_>, place: usize, test: Test) -> Option<usize> {
    if let Test::Word = test {
        return end_if(place == line.word, line, place);
    }
    if let Some(Token::Name(name)) = line.token(place) {
        if let Some(end) = name_end(line, place, name, test) {
            return Some(end);
        }
        if let Some(end) = attribute_end(line, place, test) {
            return Some(end);
        }
    }
    sign_end(line, place, test)
        .or(operand_end(line, place, test))
        .or(label_end(line, place, test))
}
