//! Times that are drawn by a distribution.

use crate::numbers::{Number, ZERO, number_of};
use gw_forms::line::Piece;
use gw_text_tokens::is_spelled;
use gw_text_tokens::tokens::Token;

/// What a time is drawn by.
#[derive(Clone, Copy, PartialEq, Eq)]
pub(crate) enum Shape {
    /// An exponential distribution: from its least on, by its mean above it.
    Exponential,
    /// A normal distribution: its mean and its deviation.
    Normal,
    /// A triangle: its least, its greatest, and the most frequent.
    Triangular,
    /// The values of the function of this place among those of the text, times a number.
    Multiple(usize),
}

/// A time that is drawn.
#[derive(Clone, Copy, PartialEq, Eq)]
pub(crate) struct Draw {
    /// By what.
    pub(crate) shape: Shape,
    /// The stream, from 1 to 16.
    pub(crate) stream: u64,
    /// Its numbers, in times of the text, in the order in which they are written there.
    pub(crate) first: Number,
    pub(crate) second: Number,
    pub(crate) third: Number,
}

impl Draw {
    /// The number by which its spread grows, in times of the text.
    pub(crate) fn spread(&self) -> Number {
        match self.shape {
            Shape::Exponential | Shape::Normal => self.second,
            Shape::Triangular => Number {
                millionths: self.second.millionths.saturating_sub(self.first.millionths),
            },
            Shape::Multiple(_) => self.first,
        }
    }

    /// How many places behind the point its numbers need.
    pub(crate) fn places(&self) -> u32 {
        self.first
            .places()
            .max(self.second.places())
            .max(self.third.places())
    }
}

/// What stands within the parentheses round pieces, if they go round all of them.
fn inside<'a>(pieces: &'a [Piece<'a>]) -> &'a [Piece<'a>] {
    match pieces {
        [first, middle @ .., last]
            if matches!(first.token, Token::Open) && matches!(last.token, Token::Close) => {
            middle
        }
        _ => pieces,
    }
}

/// The number at a place of a call's pieces, if a number and then a comma or the last parenthesis stand there.
fn argument(pieces: &[Piece<'_>], place: usize) -> Option<Number> {
    let behind = pieces.get(place.saturating_add(1))?;
    if !matches!(behind.token, Token::Comma | Token::Close) {
        return None;
    }
    number_of(pieces.get(place)?.token)
}

/// The stream that the first argument of a call names, from 1 to 16.
fn stream_of(pieces: &[Piece<'_>]) -> Option<u64> {
    match pieces.get(2)?.token {
        Token::Whole(stream) if stream >= 1 && stream <= 16 => Some(stream),
        _ => None,
    }
}

/// The shape of this name, and how many pieces its call has.
fn shape_of(name: &[u8]) -> Option<(Shape, usize)> {
    if is_spelled(name, b"EXPONENTIAL") {
        Some((Shape::Exponential, 8))
    } else if is_spelled(name, b"NORMAL") {
        Some((Shape::Normal, 8))
    } else if is_spelled(name, b"TRIANGULAR") {
        Some((Shape::Triangular, 10))
    } else {
        None
    }
}

/// The draw that pieces call for, if they are a call of a distribution that can be drawn here, by numbers alone.
pub(crate) fn draw_in(pieces: &[Piece<'_>]) -> Option<Draw> {
    let call = inside(inside(inside(pieces)));
    let Token::Name(name) = call.first()?.token else {
        return None;
    };
    let (shape, length) = shape_of(name)?;
    if call.len() != length {
        return None;
    }
    let third = if length == 10 {
        argument(call, 8)?
    } else {
        ZERO
    };
    Some(Draw {
        shape,
        stream: stream_of(call)?,
        first: argument(call, 4)?,
        second: argument(call, 6)?,
        third,
    })
}
