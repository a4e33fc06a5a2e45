//! Pieces of a line, and its end.

ghost use Rattle.std.specs.Prelude.{slice_get, IfOk, OnOk};
ghost use Rattle.gw_writing.specs.Text.{Puts};
ghost use Rattle.gw_listing.specs.Lines.{AreWords, EndsLine};
ghost use Rattle.gw_listing.specs.Shape.{word_with_number, slope_words, slope_part};

use gw_object::Memory;
use gw_writing::{put, put_number};
use itoa::Integer;
use std::alloc::Global;

/// A word, and a number after it, where there is one.
pub(crate) fn put_optional<I: Integer + Copy>(
    out: &mut Vec<u8>,
    text: &str,
    number: Option<I>,
) -> Result<(), Memory> {
    match number {
        Some(number) => put_number(out, text, number),
        None => Ok(()),
    }
}

/// A word, and after it the number at a place of these, where there is one.
pub(crate) fn put_told(
    out: &mut Vec<u8>,
    text: &str,
    numbers: &[u32],
    place: usize,
) -> Result<(), Memory>
    ensures { Puts result out.old out.new (word_with_number text.now (slice_get numbers.now place)) }
{
    match numbers.get(place) {
        Some(number) => put_number(out, text, *number),
        None => Ok(()),
    }
}

/// The slope of a weight, if there is one: its parameter, and what each 1 of that adds.
fn put_slope(out: &mut Vec<u8>, slope: Option<(u8, u32)>) -> Result<(), Memory>
    ensures { Puts result out.old out.new (slope_words slope) }
{
    match slope {
        Some((parameter, growth)) => {
            put_number(out, " slope P", parameter)?;
            put_number(out, " ", growth)
        }
        None => Ok(()),
    }
}

/// The slope at a place of these, if there is one.
pub(crate) fn put_slope_at(
    out: &mut Vec<u8>,
    slopes: &[Option<(u8, u32)>],
    place: usize,
) -> Result<(), Memory>
    ensures { Puts result out.old out.new (slope_part slopes.now place) }
{
    put_slope(out, slopes.get(place).copied().unwrap_or(None))
}

/// A byte behind words, unless it ends a line.
fn put_within(words: &mut Vec<u8>, byte: u8) -> Result<(), Memory>
    requires { AreWords words.old.items }
    ensures { OnOk result (AreWords words.new.items) }
{
    if byte == b'\n' {
        Ok(())
    } else {
        words.push(byte).map_err(|_| Memory)
    }
}

/// Words, without an end of a line among them.
fn one_line(alloc: Global, words: &[u8]) -> Result<Vec<u8>, Memory>
    ensures { IfOk result (λ line. AreWords line.items) }
{
    let mut line = Vec::new(alloc);
    for byte in words {
        put_within(&mut line, *byte)?;
    }
    Ok(line)
}

/// Words, and the end of the line, behind what there is.
#[tactic(auto, using(crate::proofs::Adding::ended))]
pub(crate) fn end_line(alloc: Global, out: &mut Vec<u8>, words: &[u8]) -> Result<(), Memory>
    ensures { OnOk result (EndsLine out.old.items out.new.items) }
{
    let line = one_line(alloc, words)?;
    out.extend_from_slice(&line)?;
    put(out, "\n")
}
