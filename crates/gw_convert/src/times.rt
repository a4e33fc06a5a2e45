//! What stands in the place of a time.

ghost use Rattle.std.specs.Prelude.{◌≡◌};
ghost use Rattle.gw_convert.specs.Times.{is_time as is_time_of};

use crate::draws::{Draw, Shape, draw_in};
use crate::functions::function_at;
use crate::numbers::{Number, ZERO, number_of};
use crate::plan::Plan;
use crate::statement::{Kind, Statement};
use gw_forms::line::Piece;
use gw_forms::testing::class_of_numbered;
use gw_text_tokens::is_spelled;
use gw_text_tokens::tokens::Token;

/// What stands in the place of a time.
#[derive(Clone, Copy, PartialEq, Eq)]
pub(crate) enum Time {
    /// Nothing.
    Absent,
    /// A number.
    Constant(Number),
    /// A function of this place among those of the text.
    Function(usize),
    /// A draw of a distribution.
    Drawn(Draw),
    /// What can't be followed.
    Other,
}

/// Whether an operand, from 0, of a statement is a time.
pub(crate) fn is_time(kind: Kind, operand: u8) -> bool
    ensures { result ≡ is_time_of kind operand }
{
    match kind {
        Kind::Generate => operand < 3,
        Kind::Advance => operand < 2,
        _ => false,
    }
}

/// What stands in the place of a time.
pub(crate) fn time_in<'a>(plan: &Plan<'_>, line: &'a [u8], pieces: &'a [Piece<'a>]) -> Time {
    match pieces {
        [] => Time::Absent,
        [piece] if let Some(number) = number_of(piece.token) => Time::Constant(number),
        _ => {
            if let Some(draw) = draw_in(pieces) {
                return Time::Drawn(draw);
            }
            match function_at(line, pieces, 0) {
                Some((name, length)) if length == pieces.len() => match plan.function(name) {
                    Some(place) => Time::Function(place),
                    None => Time::Other,
                },
                _ => Time::Other,
            }
        }
    }
}

/// The draw that the times of a statement come to, if they do.
pub(crate) fn draw_of(plan: &Plan<'_>, first: Time, second: Time) -> Option<Draw> {
    match (first, second) {
        (Time::Drawn(draw), Time::Absent) => Some(draw),
        (Time::Constant(number), Time::Function(place)) => {
            let function = plan.functions.get(place)?;
            if function.stream == 0
                || function.count < 2
                || !matches!(function.letter, b'C' | b'D')
            {
                return None;
            }
            Some(Draw {
                shape: Shape::Multiple(place),
                stream: function.stream,
                first: number,
                second: ZERO,
                third: ZERO,
            })
        }
        _ => None,
    }
}

/// Whether pieces are a time of the clock alone: C1, AC1, M1 or MP.
pub(crate) fn is_clock(pieces: &[Piece<'_>]) -> bool {
    match pieces.first() {
        Some(piece) => match piece.token {
            Token::Name(name) => pieces.len() == 1 && is_clock_name(name)
                || pieces.len() == 3 && is_spelled(name, b"MP"),
            _ => false,
        },
        None => false,
    }
}

/// Whether a name is a time of the clock.
pub(crate) fn is_clock_name(name: &[u8]) -> bool {
    is_spelled(name, b"C1")
        || is_spelled(name, b"AC1")
        || is_spelled(name, b"M1")
        || matches!(class_of_numbered(name), Some(class) if is_spelled(class, b"MP"))
}

/// The sides of a TEST.
pub(crate) fn sides<'a>(statement: &Statement<'a>) -> (&'a [Piece<'a>], &'a [Piece<'a>]) {
    let left = match statement.operand(0) {
        [_relation, left @ ..] => left,
        [] => &[],
    };
    (left, statement.operand(1))
}

/// The number of a piece that stands alone, behind a sign or not.
pub(crate) fn number_in(pieces: &[Piece<'_>]) -> Option<(Number, usize, usize)> {
    let piece = match pieces {
        [piece] => piece,
        [sign, piece] if matches!(sign.token, Token::Minus | Token::Plus) => piece,
        _ => return None,
    };
    Some((number_of(piece.token)?, piece.from, piece.to))
}
