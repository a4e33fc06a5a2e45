//! A text with another number on the line of a name.

ghost use Rattle.std.specs.Prelude.{◌≡◌, ◌<◌, ◌++◌, ◌∷◌, [], map, length, slice_index_or, is_some, IfOk, OnOk};
ghost use Rattle.std.specs.Str.Lines.{lines as lines_of_text};
ghost use Rattle.gw_parameters.specs.Operands.{operand_of as operand, with_number_between};
ghost use Rattle.gw_parameters.specs.Refusals.{Makes};
ghost use Rattle.gw_parameters.specs.Texts as model;
ghost use Rattle.gw_parameters.specs.Texts.{text_with_value};

use crate::fault::{NoAnswer, ParameterFault, no_point};
use crate::operands::{cut_of, operand_of};
use gw_object::Memory;
use gw_text_tokens::lines::{line_at, lines_of};
use gw_writing::put_number;
use std::alloc::Global;

/// Whether a line gives a name a number.
fn is_line_of(line: &[u8], name: &[u8]) -> bool
    ensures { result ≡ is_some (operand name.now line.now) }
{
    operand_of(line, name).is_some()
}

/// The one line of a name, by its number from 0; or why there isn't one.
#[tactic(auto, unfolding(crate::specs::Texts::lines_of))]
fn number_of(lines: &[&[u8]], name: &[u8]) -> Result<usize, ParameterFault>
    ensures one { model.IsOne name.now (map (λ l. l.now) lines.now) result }
    ensures within { IfOk result (λ number. number < length lines.now) }
{
    let mut found = None;
    for i in 0..lines.len() {
        if is_line_of(lines[i], name) {
            if found.is_some() {
                return Err(ParameterFault::Doubled(i + 1));
            }
            found = Some(i);
        }
    }
    match found {
        Some(number) => Ok(number),
        None => Err(ParameterFault::Unknown),
    }
}

/// A line and its end.
fn put_line(out: &mut Vec<u8>, line: &[u8]) -> Result<(), Memory>
    ensures { OnOk result (out.new.items ≡ out.old.items ++ (line.now ++ 10 ∷ [])) }
{
    out.extend_from_slice(line)?;
    out.extend_from_slice(b"\n")
}

/// What stands before a number, the number, and what follows it.
fn joined_line(alloc: Global, before: &[u8], rest: &[u8], value: i64) -> Result<Vec<u8>, Memory>
    ensures { IfOk result (λ line. line.items ≡ with_number_between value (before.now, rest.now)) }
{
    let mut line = Vec::new(alloc);
    line.extend_from_slice(before)?;
    put_number(&mut line, "", value)?;
    line.extend_from_slice(rest)?;
    Ok(line)
}

/// A line by its number, or the other that stands in its place.
fn line_or<'a>(i: usize, number: usize, other: &'a [u8], line: &'a [u8]) -> &'a [u8]
    ensures { result.now ≡ model.line_or i number other.now line.now }
{
    if i == number { other } else { line }
}

/// All lines, each with its end, where that of a number is another.
#[tactic(auto, unfolding(crate::specs::Texts::text_from))]
fn put_lines(out: &mut Vec<u8>, lines: &[&[u8]], number: usize, other: &[u8]) -> Result<(), Memory>
    ensures { OnOk result
        (out.new.items ≡ out.old.items ++ model.text_with_line number other.now lines.now) }
{
    for i in 0..lines.len() {
        put_line(out, line_or(i, number, other, lines[i]))?;
    }
    Ok(())
}

/// The text of these lines, where that of a number is cut at a number that becomes another.
fn text_of(
    alloc: Global,
    lines: &[&[u8]],
    number: usize,
    before: &[u8],
    rest: &[u8],
    value: i64,
) -> Result<Vec<u8>, Memory>
    ensures { IfOk result (λ t.
        t.items ≡ text_with_value number value (before.now, rest.now) lines.now) }
{
    let other = joined_line(alloc, before, rest, value)?;
    let mut text = Vec::new(alloc);
    put_lines(&mut text, lines, number, &other)?;
    Ok(text)
}

/// The same, or want of memory.
fn text_if_room(
    alloc: Global,
    lines: &[&[u8]],
    number: usize,
    before: &[u8],
    rest: &[u8],
    value: i64,
) -> Result<Vec<u8>, NoAnswer>
    ensures { Makes (text_with_value number value (before.now, rest.now) lines.now) result }
{
    match text_of(alloc, lines, number, before, rest, value) {
        Ok(text) => Ok(text),
        Err(Memory) => Err(NoAnswer::Memory),
    }
}

/// The text of these lines with another number on the line of a name, which has this number from 0.
fn text_at(
    alloc: Global,
    lines: &[&[u8]],
    number: usize,
    name: &[u8],
    value: i64,
) -> Result<Vec<u8>, NoAnswer>
    requires within { number < length lines.now }
    requires one { model.lines_of name.now 0 (map (λ l. l.now) lines.now) ≡ number ∷ [] }
    ensures { model.IsTextWith (map (λ l. l.now) lines.now) name.now value result }
{
    match cut_of(line_at(lines, number), name) {
        Some((before, rest)) => text_if_room(alloc, lines, number, before, rest, value),
        None => Err(no_point(alloc, name, ParameterFault::NotPlain(number + 1))),
    }
}

/// The text of these lines with another number on the one line of a name.
fn text_of_lines(
    alloc: Global,
    lines: &[&[u8]],
    name: &[u8],
    value: i64,
) -> Result<Vec<u8>, NoAnswer>
    ensures { model.IsTextWith (map (λ l. l.now) lines.now) name.now value result }
{
    match number_of(lines, name) {
        Ok(number) => text_at(alloc, lines, number, name, value),
        Err(fault) => Err(no_point(alloc, name, fault)),
    }
}

/// A text with another number on the one line of a name, `NAME STORAGE`, `NAME EQU` or `INITIAL X$NAME,`: each line as it
/// is, and that one with the number in the place of its own, which has to be a whole number with nothing but a comment behind
/// it. Each line ends by a line feed.
///
/// A name that no line or more than one gives a number is refused (83 Parameter), and so is another operand than a number.
pub fn text_with(alloc: Global, text: &[u8], name: &[u8], value: i64) -> Result<Vec<u8>, NoAnswer>
    ensures { model.IsTextWith (lines_of_text text.now) name.now value result }
{
    match lines_of(alloc, text) {
        Ok(lines) => text_of_lines(alloc, &lines, name, value),
        Err(_) => Err(NoAnswer::Memory),
    }
}
