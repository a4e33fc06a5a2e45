//! The lines of a PROCEDURE.

ghost use Rattle.std.specs.Prelude.{◌≡◌, ◌<◌, length, map, IfOk, OnOk, MatchResult};
ghost use Rattle.gw_text_tokens.specs.Lines.{IsShort, AreShort};
ghost use Rattle.gw_text_expressions.specs.Stops.{EndsWithin};

use crate::model::Procedure;
use crate::plus::{Plus, Taken};
use gw_text_expressions::expressions::Expressions;
use gw_text_tokens::faults::{Refusal, Stop, Where};
use gw_text_tokens::lines::{check_length, is_empty, line_at};
use gw_text_tokens::tokens::{Token, next_token};
use std::alloc::Global;

/// What became of a line.
#[derive(Clone, Copy)]
enum Progress {
    /// The PROCEDURE goes on.
    More,
    /// It ended on this line.
    Ended,
    /// It ended before this line.
    Before,
}

/// A reader of the lines of a PROCEDURE.
#[derive(Drop)]
struct Reader {
    plus: Plus,
    in_comment: bool,
    /// Whether a token of the line was taken.
    has_token: bool,
}

impl Reader {
    /// The PROCEDURE that ended.
    fn end(&mut self, expressions: &mut Expressions) -> Result<Procedure, Stop> {
        expressions.begin_procedure();
        self.plus.end(expressions)
    }

    /// The PROCEDURE at the end of the text.
    fn end_of_text(&mut self, expressions: &mut Expressions) -> Result<Procedure, Stop> {
        let refusal = self.plus.cut_off();
        self.plus.end_all()?;
        if !self.plus.is_done() {
            return Err(Stop::Refused(refusal));
        }
        self.end(expressions)
    }
}

/// The PROCEDURE that begins on line `first`, and its last line. Lines count from 0 here.
pub fn read_procedure(
    alloc: Global,
    expressions: &mut Expressions,
    lines: &[&[u8]],
    first: usize,
) -> Result<(Procedure, usize), Where>
    requires { first < length lines.now }
    ensures within { EndsWithin first (length lines.now) result }
    ensures short { IfOk result (λ x. AreShort (map (λ l. l.now) lines.now) first x.1) }
{
    expressions.begin_procedure();
    let mut reader = Reader {
        plus: Plus::new(alloc),
        in_comment: false,
        has_token: false,
    };
    let mut last = first;
    for i in first..lines.len() {
        match read_line(&mut reader, expressions, line_at(lines, i)) {
            Ok(Progress::More) => {}
            Ok(Progress::Ended) => return at_line(reader.end(expressions), i),
            Ok(Progress::Before) => return at_line(reader.end(expressions), last),
            Err(stop) => return Err((i, stop)),
        }
        if reader.has_token {
            last = i;
        }
    }
    at_line(reader.end_of_text(expressions), last)
}

/// What was read of a PROCEDURE whose last line, or the one that is refused, is this.
fn at_line(read: Result<Procedure, Stop>, last: usize) -> Result<(Procedure, usize), Where>
    ensures { MatchResult result (λ x. x.1 ≡ last) (λ place. place.0 ≡ last) }
{
    match read {
        Ok(procedure) => Ok((procedure, last)),
        Err(stop) => Err((last, stop)),
    }
}

/// Reads a line.
fn read_line(
    reader: &mut Reader,
    expressions: &mut Expressions,
    line: &[u8],
) -> Result<Progress, Stop>
    ensures { OnOk result (IsShort line.now) }
{
    check_length(line)?;
    reader.has_token = false;
    if !reader.in_comment && matches!(line, [b'*', ..]) {
        return Ok(Progress::More);
    }
    match read_tokens(reader, expressions, line) {
        Ok(progress) => {
            reader.plus.lowest(expressions).check()?;
            Ok(progress)
        }
        Err(Stop::Refused(refusal)) => Err(Stop::Refused(
            reader.plus.lowest(expressions).lower(refusal),
        )),
        Err(Stop::Memory) => Err(Stop::Memory),
    }
}

/// Reads the tokens of a line.
fn read_tokens(
    reader: &mut Reader,
    expressions: &mut Expressions,
    line: &[u8],
) -> Result<Progress, Stop> {
    let mut left = line;
    for _token in 0..line.len() {
        if reader.in_comment {
            left = after_comment(reader, left);
        }
        match next_token(left) {
            None => return Ok(Progress::More),
            Some((Token::Slash, [b'*', rest @ ..])) => {
                reader.in_comment = true;
                left = rest;
            }
            Some((token, rest)) => match reader.plus.take(expressions, token)? {
                Taken::More => {
                    reader.has_token = true;
                    left = rest;
                }
                Taken::Last => return ended(rest),
                Taken::Not if reader.has_token => return ended(left),
                Taken::Not => return Ok(Progress::Before),
            },
        }
    }
    Ok(Progress::More)
}

/// The PROCEDURE ended on this line, of which this is left.
fn ended(left: &[u8]) -> Result<Progress, Stop> {
    if is_empty(left) {
        Ok(Progress::Ended)
    } else {
        Err(Stop::Refused(Refusal::Operand))
    }
}

/// What follows the end of a comment, if it ends on this line.
fn after_comment<'a>(reader: &mut Reader, left: &'a [u8]) -> &'a [u8] {
    for (i, byte) in left.iter().enumerate() {
        if *byte == b'*' {
            let (_, rest) = left.split_at(i);
            if let [_, b'/', rest @ ..] = rest {
                reader.in_comment = false;
                return rest;
            }
        }
    }
    &[]
}
