//! The lines of a text.

ghost use Rattle.std.specs.Prelude.{◌≡◌, ◌<◌, ◌==◌, ◌∷◌, [], map, length, slice_index_or, IfOk, IfSome, OnOk, MatchOption, Ok, Err, if◌then◌else◌, nat_le};
ghost use Rattle.std.specs.List.{position_or_len};
ghost use Rattle.std.specs.Str.Lines.{lines, strip_carriage_return};
ghost use Rattle.gw_text_tokens.specs.declared.faults.Refusal.TheVariants.{Length};
ghost use Rattle.gw_text_tokens.specs.Lines.{IsShort, holds_nothing, is_skipped};

use crate::characters::after_blanks;
use crate::faults::Refusal;
use std::alloc::{AllocError, Global};

/// The most bytes of a line, without what ends it.
const LONGEST: usize = 1000;

/// The lines of a text.
pub fn lines_of(alloc: Global, text: &[u8]) -> Result<Vec<&[u8]>, AllocError>
    ensures { IfOk result (λ found. map (λ l. l.now) found.items ≡ lines text.now) }
{
    let mut found = Vec::new(alloc);
    let mut left = text;
    while let Some((line, rest)) = cut_line(left) {
        found.push(line)?;
        left = rest;
    }
    Ok(found)
}

/// The first line of a text, and what follows it.
#[tactic(auto, using(crate::proofs::FirstLine::lines_cut, crate::proofs::FirstLine::lines_last))]
fn cut_line(text: &[u8]) -> Option<(&[u8], &[u8])>
    ensures cut { MatchOption result (lines text.now ≡ []) (λ x. lines text.now ≡ x.0.now ∷ lines x.1.now) }
    ensures shorter { IfSome result (λ x. length x.1.now < length text.now) }
{
    let end = end_of_line(text);
    if end < text.len() {
        let (line, _) = text.split_at(end);
        let (_, rest) = text.split_at(end + 1);
        Some((without_return(line), rest))
    } else if text.is_empty() {
        None
    } else {
        Some((text, &[]))
    }
}

/// Where the first line feed of a text stands, or the length of the text.
fn end_of_line(text: &[u8]) -> usize
    ensures { result ≡ position_or_len (λ byte. byte == 10) text.now }
{
    for end in 0..text.len() {
        if text[end] == b'\n' {
            return end;
        }
    }
    text.len()
}

/// A line without the carriage return before its line feed.
fn without_return(line: &[u8]) -> &[u8]
    ensures { result.now ≡ strip_carriage_return line.now }
{
    let length = line.len();
    if length > 0 && line[length - 1] == b'\r' {
        &line[..length - 1]
    } else {
        line
    }
}

/// A line, by its number from 0.
pub fn line_at<'a>(lines: &[&'a [u8]], i: usize) -> &'a [u8]
    requires { i < length lines.now }
    ensures { result.now ≡ slice_index_or (map (λ l. l.now) lines.now) i [] }
{
    lines[i]
}

/// 70 Length where a line has more than 1,000 bytes.
pub fn check_length(line: &[u8]) -> Result<(), Refusal>
    ensures checked { result ≡ (if nat_le (length line.now) 1000 then Ok tt else Err Length) }
    ensures short { OnOk result (IsShort line.now) }
{
    if line.len() > LONGEST {
        Err(Refusal::Length)
    } else {
        Ok(())
    }
}

/// Whether a line holds no statement: it is blank, or a comment.
pub fn is_skipped(line: &[u8]) -> bool
    ensures { result ≡ is_skipped line.now }
{
    match line {
        [b'*', ..] => true,
        _ => is_empty(line),
    }
}

/// Whether nothing but blanks and a comment is left of a line.
pub fn is_empty(line: &[u8]) -> bool
    ensures { result ≡ holds_nothing line.now }
{
    matches!(after_blanks(line), [] | [b';', ..])
}
