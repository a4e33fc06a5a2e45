//! FUNCTION and its points.

ghost use Rattle.gw_text_expressions.specs.Reading.{KeepsNames};
ghost use Rattle.gw_text_expressions.specs.Stops.{EndsWithin};
ghost use Rattle.gw_text_tokens.specs.Lines.{IsShort, AreShort};
ghost use Rattle.std.specs.Prelude.{◌<◌, ◌≤◌, ◌+◌, length, map, IfOk, OnOk};

use crate::model::{Operand, Point};
use crate::operands::{computed, cut, cut_next, signed, value_of};
use gw_text_expressions::expressions::Expressions;
use gw_text_expressions::snas::{is_number, split_letters};
use gw_text_tokens::faults::{Lowest, Refusal, Stop, Where};
use gw_text_tokens::lines::{check_length, is_skipped, line_at};
use gw_text_tokens::tokens::{Decimal, Token, tokens_of, value_of as number_of};
use std::alloc::{AllocError, Global};

/// The most points of a FUNCTION.
const MOST_POINTS: u64 = 256;

/// What the first line of a FUNCTION says: its argument, and how many points follow. Refusals are noted.
pub fn function_of(
    reader: &mut Expressions,
    lowest: &mut Lowest,
    tokens: &[Token<'_>],
) -> Result<(Operand, usize), AllocError>
    ensures kept { KeepsNames reader.old reader.new }
    ensures bounded { IfOk result (λ x. x.1 ≤ 256) }
{
    let (argument, left) = cut_next(tokens);
    let (kind, surplus) = cut_next(left);
    let argument = value_of(reader, argument);
    let argument = lowest.keep(argument, Operand::Missing)?;
    let count = points_of(reader, kind);
    let count = lowest.keep(count, 0)?;
    if !surplus.is_empty() {
        lowest.note(Refusal::Operand);
    }
    Ok((argument, count))
}

/// The number of points of a kind which is `D` and that number. The kinds C, E, L and M of GPSS World are left out.
fn points_of(reader: &mut Expressions, tokens: &[Token<'_>]) -> Result<usize, Stop>
    ensures kept { KeepsNames reader.old reader.new }
    ensures bounded { IfOk result (λ count. count ≤ 256) }
{
    let [Token::Name(kind)] = tokens else {
        return Err(computed(reader, Refusal::Operand, tokens));
    };
    let (letters, digits) = split_letters(kind);
    match letters {
        b"D" | b"d" if is_number(digits) => {
            let count = number_of(digits);
            if count == 0 || count > MOST_POINTS {
                return Err(Stop::Refused(Refusal::Operand));
            }
            Ok(count as usize)
        }
        [b'C' | b'c' | b'E' | b'e' | b'L' | b'l' | b'M' | b'm'] if is_number(digits) => {
            Err(Stop::Refused(Refusal::LeftOut))
        }
        _ => Err(Stop::Refused(Refusal::Operand)),
    }
}

/// The points that are being read, and how many there must be.
#[derive(Drop)]
struct Points {
    points: Vec<Point>,
    count: usize,
    is_random: bool,
    lowest: Lowest,
}

/// The points on the lines behind a FUNCTION, which stands on line `first`, and their last line. Lines count from 0 here.
pub fn read_points(
    alloc: Global,
    lines: &[&[u8]],
    first: usize,
    is_random: bool,
    count: usize,
) -> Result<(Vec<Point>, usize), Where>
    requires { first < length lines.now }
    ensures within { EndsWithin first (length lines.now) result }
    ensures short { IfOk result (λ x. AreShort (map (λ l. l.now) lines.now) (first + 1) x.1) }
{
    let mut points = Points {
        points: Vec::new(alloc),
        count,
        is_random,
        lowest: Lowest::NONE,
    };
    for i in first + 1..lines.len() {
        if let Err(stop) = read_line(alloc, &mut points, line_at(lines, i)) {
            return Err((i, stop));
        }
        if points.points.len() >= count {
            return Ok((points.points, i));
        }
    }
    Err((first, Stop::Refused(Refusal::Operand)))
}

/// The points of a line.
fn read_line(alloc: Global, points: &mut Points, line: &[u8]) -> Result<(), Stop>
    ensures { OnOk result (IsShort line.now) }
{
    check_length(line)?;
    if is_skipped(line) {
        return Ok(());
    }
    let tokens = tokens_of(alloc, line)?;
    match read_tokens(points, tokens.as_slice()) {
        Ok(()) => points.lowest.check(),
        Err(Stop::Refused(refusal)) => Err(Stop::Refused(points.lowest.lower(refusal))),
        Err(Stop::Memory) => Err(Stop::Memory),
    }
}

/// The points that these tokens are, with `/` between them.
fn read_tokens(points: &mut Points, tokens: &[Token<'_>]) -> Result<(), Stop> {
    for point in without_slash(tokens).split(|token| matches!(token, Token::Slash)) {
        read_point(points, point)?;
    }
    Ok(())
}

/// The tokens before a `/` at the end.
fn without_slash<'t, 'a>(tokens: &'t [Token<'a>]) -> &'t [Token<'a>] {
    match tokens {
        [front @ .., Token::Slash] => front,
        _ => tokens,
    }
}

/// A point.
fn read_point(points: &mut Points, tokens: &[Token<'_>]) -> Result<(), Stop> {
    let (x, rest) = cut(tokens);
    let [Token::Comma, y @ ..] = rest else {
        return Err(Stop::Refused(Refusal::Operand));
    };
    let x = read_x(points, x)?;
    let y = read_y(points, y)?;
    if points.points.len() >= points.count {
        return Err(Stop::Refused(Refusal::Operand));
    }
    if let Some(before) = points.points.last()
        && x <= before.x
    {
        return Err(Stop::Refused(Refusal::Operand));
    }
    points.points.push(Point { x, y })?;
    Ok(())
}

/// The x of a point.
fn read_x(points: &mut Points, tokens: &[Token<'_>]) -> Result<i64, Stop> {
    match tokens {
        [Token::Whole(number)] => read_whole(points, false, *number),
        [Token::Minus, Token::Whole(number)] => read_whole(points, true, *number),
        [Token::Decimal(number)] => read_decimal(points, false, *number),
        [Token::Minus, Token::Decimal(number)] => read_decimal(points, true, *number),
        _ => Err(Stop::Refused(Refusal::Operand)),
    }
}

/// An x that is a whole number.
fn read_whole(points: &mut Points, is_negative: bool, number: u64) -> Result<i64, Stop> {
    let x = scaled(points.is_random, is_negative, number, 0);
    Ok(points.lowest.keep(x, 0)?)
}

/// An x with a point in it; only a random argument has such, with up to six digits behind the point.
fn read_decimal(points: &mut Points, is_negative: bool, number: Decimal) -> Result<i64, Stop> {
    if !points.is_random || number.places > 6 {
        points.lowest.note(Refusal::LeftOut);
    }
    let whole = number.whole.unwrap_or(0);
    let x = scaled(points.is_random, is_negative, whole, number.millionths);
    Ok(points.lowest.keep(x, 0)?)
}

/// The x of a point: in millionths where the argument is random. 76 Limit where the number is past 64 bits, 72 Operand where
/// the millionths are.
fn scaled(is_random: bool, is_negative: bool, whole: u64, millionths: u32) -> Result<i64, Stop> {
    let whole = signed(is_negative, whole)?;
    if !is_random {
        return Ok(whole);
    }
    let part = i64::from(millionths);
    let part = if is_negative { -part } else { part };
    match whole.checked_mul(1000000) {
        Some(scaled) => match scaled.checked_add(part) {
            Some(x) => Ok(x),
            None => Err(Stop::Refused(Refusal::Operand)),
        },
        None => Err(Stop::Refused(Refusal::Operand)),
    }
}

/// The y of a point.
fn read_y(points: &mut Points, tokens: &[Token<'_>]) -> Result<i64, Stop> {
    match tokens {
        [Token::Whole(number)] => Ok(points.lowest.keep(signed(false, *number), 0)?),
        [Token::Minus, Token::Whole(number)] => Ok(points.lowest.keep(signed(true, *number), 0)?),
        [Token::Decimal(_)] | [Token::Minus, Token::Decimal(_)] => {
            points.lowest.note(Refusal::LeftOut);
            Ok(0)
        }
        _ => Err(Stop::Refused(Refusal::Operand)),
    }
}
