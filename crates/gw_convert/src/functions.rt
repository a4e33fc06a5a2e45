//! The FUNCTIONs of a text.

use crate::numbers::number_of;
use crate::statement::Statement;
use gw_forms::line::{Piece, pieces_of};
use gw_forms::testing::class_of_numbered;
use gw_text_tokens::is_spelled;
use gw_text_tokens::lines::is_skipped;
use gw_text_tokens::tokens::{Token, value_of};
use std::alloc::{AllocError, Global};

/// A point of a FUNCTION, in millionths.
#[derive(Clone, Copy)]
pub(crate) struct Point {
    pub(crate) x: i64,
    pub(crate) y: i64,
}

/// A FUNCTION of a text.
#[derive(Clone, Copy)]
pub(crate) struct Function<'a> {
    /// Its name.
    pub(crate) name: &'a [u8],
    /// Its type: `C`, `D` and the like.
    pub(crate) letter: u8,
    /// The stream of its argument, from 1 to 16, or 0 where it is no random number.
    pub(crate) stream: u64,
    /// The first and the last of its lines, from 0.
    pub(crate) first: usize,
    pub(crate) last: usize,
    /// Where its points begin among all points, and how many it has.
    pub(crate) from: usize,
    pub(crate) count: usize,
    /// Whether it is a time of a GENERATE or ADVANCE.
    pub(crate) is_time: bool,
    /// Whether it is one by which a time is multiplied.
    pub(crate) is_spread: bool,
    /// Whether it stands elsewhere.
    pub(crate) is_value: bool,
}

/// The stream that an argument of a FUNCTION draws from, from 1 to 16; 0 where it draws from none.
fn stream_of(argument: &[Piece<'_>]) -> u64 {
    match argument {
        [piece] => match piece.token {
            Token::Name(name) => match class_of_numbered(name) {
                Some(class) if is_spelled(class, b"RN") => {
                    let stream = value_of(name.split_at(class.len().min(name.len())).1);
                    if stream <= 16 { stream } else { 0 }
                }
                _ => 0,
            },
            _ => 0,
        },
        _ => 0,
    }
}

/// The type of a FUNCTION, and how many points it says to have.
fn type_of(operand: &[Piece<'_>]) -> Option<(u8, u64)> {
    match operand {
        [piece] => match piece.token {
            Token::Name(name) => {
                let letter = class_of_numbered(name)?;
                if letter.len() != 1 || name.is_empty() {
                    return None;
                }
                Some((name[0].to_ascii_uppercase(), value_of(name.split_at(1).1)))
            }
            _ => None,
        },
        _ => None,
    }
}

/// What is read of a point: nothing, or its x.
#[derive(Clone, Copy)]
struct Reading {
    negative: bool,
    x: Option<i64>,
}

const NOTHING: Reading = Reading {
    negative: false,
    x: None,
};

/// Reads a number of a point.
fn read_number(
    points: &mut Vec<Point>,
    reading: Reading,
    millionths: u64,
) -> Result<Reading, AllocError> {
    let value = (millionths.min(1 << 62) as i64).saturating_mul(if reading.negative {
        -1
    } else {
        1
    });
    match reading.x {
        None => Ok(Reading {
            negative: false,
            x: Some(value),
        }),
        Some(x) => {
            points.push(Point { x, y: value })?;
            Ok(NOTHING)
        }
    }
}

/// Reads the points of a line behind those that there are; whether it has nothing else.
fn read_points(points: &mut Vec<Point>, pieces: &[Piece<'_>]) -> Result<bool, AllocError> {
    let mut reading = NOTHING;
    for piece in pieces {
        match piece.token {
            Token::Minus => {
                reading = Reading {
                    negative: true,
                    x: reading.x,
                }
            }
            Token::Comma => {}
            Token::Slash => reading = NOTHING,
            token => match number_of(token) {
                Some(number) => { reading = read_number(points, reading, number.millionths)? }
                None => return Ok(false),
            },
        }
    }
    Ok(true)
}

/// Whether a line may have points: it begins with a number.
fn may_have_points(pieces: &[Piece<'_>]) -> bool {
    match pieces.first() {
        Some(piece) => matches!(
            piece.token,
            Token::Minus | Token::Whole(_) | Token::Decimal(_)
        ),
        None => false,
    }
}

/// Reads points from the lines behind one, until there are so many. The last of these lines, and whether all could be read.
fn read_lines(
    alloc: Global,
    points: &mut Vec<Point>,
    lines: &[&[u8]],
    first: usize,
    most: usize,
) -> Result<(usize, bool), AllocError> {
    let mut last = first;
    for at in first.saturating_add(1)..lines.len() {
        if points.len() >= most {
            return Ok((last, true));
        }
        if is_skipped(lines[at]) {
            continue;
        }
        if lines[at].len() > 1000 {
            return Ok((last, false));
        }
        let pieces = pieces_of(alloc, lines[at])?;
        if !may_have_points(&pieces) {
            return Ok((last, false));
        }
        last = at;
        if !read_points(points, &pieces)? {
            return Ok((last, false));
        }
    }
    Ok((last, points.len() >= most))
}

/// The name before the word of a statement on a line, from 0.
pub(crate) fn named<'a>(
    lines: &[&'a [u8]],
    statement: &Statement<'_>,
    at: usize,
) -> Option<&'a [u8]> {
    let (from, to) = statement.label()?;
    lines.get(at)?.get(from..to)
}

/// The FUNCTION of a statement on a line, from 0, with its points behind those that there are; one without points where they can't be
/// read.
pub(crate) fn function_of<'a>(
    alloc: Global,
    points: &mut Vec<Point>,
    lines: &[&'a [u8]],
    statement: &Statement<'_>,
    first: usize,
) -> Result<Option<Function<'a>>, AllocError> {
    let Some(name) = named(lines, statement, first) else {
        return Ok(None);
    };
    let Some((letter, count)) = type_of(statement.operand(1)) else {
        return Ok(None);
    };
    let from = points.len();
    let most = from.saturating_add(count.min(1000) as usize);
    let (last, is_read) = read_lines(alloc, points, lines, first, most)?;
    let is_whole = is_read && points.len() == most;
    Ok(Some(Function {
        name,
        letter,
        stream: stream_of(statement.operand(0)),
        first,
        last,
        from,
        count: if is_whole {
            most.saturating_sub(from)
        } else {
            0
        },
        is_time: false,
        is_spread: false,
        is_value: false,
    }))
}

/// The function that a piece and those behind it name, as `FN$NAME` or `FN1`: its name, and how many pieces they are.
pub(crate) fn function_at<'a>(
    line: &'a [u8],
    pieces: &[Piece<'a>],
    place: usize,
) -> Option<(&'a [u8], usize)> {
    let Token::Name(class) = pieces.get(place)?.token else {
        return None;
    };
    if is_spelled(class, b"FN") {
        let dollar = pieces.get(place.saturating_add(1))?;
        let name = pieces.get(place.saturating_add(2))?;
        return if matches!(dollar.token, Token::Dollar) {
            Some((line.get(name.from..name.to)?, 3))
        } else {
            None
        };
    }
    match class_of_numbered(class) {
        Some(letters) if is_spelled(letters, b"FN") => Some((class.get(2..)?, 1)),
        _ => None,
    }
}
