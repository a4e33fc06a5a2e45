//! Which form that is left out stands on a line, and where.

ghost use Rattle.std.specs.Prelude.{◌<◌, ◌≤◌, length, IfOk, IfSome};
ghost use Rattle.gw_forms.specs.Places.{IsWithin};

use crate::attributes::ATTRIBUTES;
use crate::form::Form;
use crate::line::{Line, pieces_of, place_of_word};
use crate::numbers::NUMBERS;
use crate::signs::SIGNS;
use crate::statements::STATEMENTS;
use crate::testing::{end_of_match, is_among};
use crate::ways::WAYS;
use gw_text_tokens::tokens::Token;
use std::alloc::{AllocError, Global};

/// A form that is left out, and where it stands on a line.
#[derive(Clone, Copy)]
pub struct Found {
    /// The form.
    pub form: Form,
    /// The place of its first byte on the line, from 0.
    pub from: usize,
    /// The place behind its last byte.
    pub to: usize,
}

/// Whether a line is of a statement in which a form stands.
fn is_of_statement(line: &Line<'_>, form: &Form) -> bool {
    match line.token(line.word) {
        Some(Token::Name(word)) => form.words.is_empty() || is_among(word, form.words),
        _ => form.words.is_empty(),
    }
}

/// A form at a place of a line, if it stands there.
fn found_at(line: &Line<'_>, form: &Form, place: usize) -> Option<Found>
    ensures { IfSome result (λ f. IsWithin f.from f.to line.now.bytes.now) }
{
    let piece = line.pieces.get(place)?;
    if let Some(operand) = form.operand
        && (piece.operand != operand || place <= line.word)
    {
        return None;
    }
    let to = end_of_match(line, place, form.test)?;
    let from = piece.from;
    if from < to && to <= line.bytes.len() {
        Some(Found {
            form: *form,
            from,
            to,
        })
    } else {
        None
    }
}

/// The first place of a line at which a form stands, if there is one.
fn found_on(line: &Line<'_>, form: &Form) -> Option<Found>
    ensures { IfSome result (λ f. IsWithin f.from f.to line.now.bytes.now) }
{
    if !is_of_statement(line, form) {
        return None;
    }
    for place in 0..line.pieces.len() {
        if let Some(found) = found_at(line, form, place) {
            return Some(found);
        }
    }
    None
}

/// The first of these forms that leads to a refusal of this code and stands on a line, if there is one.
fn found_among(line: &Line<'_>, forms: &[Form], code: u16) -> Option<Found>
    ensures { IfSome result (λ f. IsWithin f.from f.to line.now.bytes.now) }
{
    for form in forms {
        if form.codes.contains(&code)
            && let Some(found) = found_on(line, form)
        {
            return Some(found);
        }
    }
    None
}

fn found_in_numbers(line: &Line<'_>, code: u16) -> Option<Found>
    ensures { IfSome result (λ f. IsWithin f.from f.to line.now.bytes.now) }
{
    found_among(line, NUMBERS, code)
}

fn found_in_statements(line: &Line<'_>, code: u16) -> Option<Found>
    ensures { IfSome result (λ f. IsWithin f.from f.to line.now.bytes.now) }
{
    found_among(line, STATEMENTS, code)
}

fn found_in_ways(line: &Line<'_>, code: u16) -> Option<Found>
    ensures { IfSome result (λ f. IsWithin f.from f.to line.now.bytes.now) }
{
    found_among(line, WAYS, code)
}

fn found_in_attributes(line: &Line<'_>, code: u16) -> Option<Found>
    ensures { IfSome result (λ f. IsWithin f.from f.to line.now.bytes.now) }
{
    found_among(line, ATTRIBUTES, code)
}

fn found_in_signs(line: &Line<'_>, code: u16) -> Option<Found>
    ensures { IfSome result (λ f. IsWithin f.from f.to line.now.bytes.now) }
{
    found_among(line, SIGNS, code)
}

/// A kind of forms that are left out.
#[derive(Clone, Copy)]
enum Kind {
    Numbers,
    Statements,
    Ways,
    Attributes,
    Signs,
}

/// The kinds, in the order in which their forms are looked for.
const KINDS: [Kind; 5] = [
    Kind::Statements,
    Kind::Numbers,
    Kind::Ways,
    Kind::Attributes,
    Kind::Signs,
];

/// The first form of a kind that leads to a refusal of this code and stands on a line, if there is one.
fn found_of_kind(line: &Line<'_>, kind: Kind, code: u16) -> Option<Found>
    ensures { IfSome result (λ f. IsWithin f.from f.to line.now.bytes.now) }
{
    match kind {
        Kind::Numbers => found_in_numbers(line, code),
        Kind::Statements => found_in_statements(line, code),
        Kind::Ways => found_in_ways(line, code),
        Kind::Attributes => found_in_attributes(line, code),
        Kind::Signs => found_in_signs(line, code),
    }
}

/// The first form of any kind that leads to a refusal of this code and stands on a line, if there is one.
fn found_by(line: &Line<'_>, code: u16) -> Option<Found>
    ensures { IfSome result (λ f. IsWithin f.from f.to line.now.bytes.now) }
{
    for kind in KINDS {
        if let Some(found) = found_of_kind(line, kind, code) {
            return Some(found);
        }
    }
    None
}

/// The first form, of all that are left out, that leads to a refusal of this code and stands on a line, and where it stands; none
/// where no form is known there. `Err` where memory runs out.
pub fn find_form(alloc: Global, bytes: &[u8], code: u16) -> Result<Option<Found>, AllocError>
    ensures { IfOk result (λ found. IfSome found (λ f. IsWithin f.from f.to bytes.now)) }
{
    let pieces = pieces_of(alloc, bytes)?;
    let line = Line {
        bytes,
        pieces: &pieces,
        word: place_of_word(&pieces),
    };
    Ok(found_by(&line, code))
}
