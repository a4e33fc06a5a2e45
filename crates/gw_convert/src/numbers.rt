//! Numbers of a text, with or without a point.

ghost use Rattle.std.specs.Prelude.{◌<◌};

use gw_text_tokens::tokens::Token;

/// The greatest number that is followed; what is above is left as it is.
const GREATEST: u64 = 1_000_000_000;

/// A number of a text, at least 0.
#[derive(Clone, Copy, PartialEq, Eq)]
pub(crate) struct Number {
    /// The number, in millionths.
    pub(crate) millionths: u64,
}

/// No number at all.
pub(crate) const ZERO: Number = Number { millionths: 0 };

/// The last place of so many places behind the point, in millionths.
pub(crate) fn unit_of(places: u32) -> u64
    ensures { 0 < result }
{
    match places {
        0 => 1_000_000,
        1 => 100_000,
        2 => 10_000,
        3 => 1_000,
        4 => 100,
        5 => 10,
        _ => 1,
    }
}

/// The number that a token is, if it is one that is followed.
pub(crate) fn number_of(token: Token<'_>) -> Option<Number> {
    match token {
        Token::Whole(value) if value <= GREATEST => Some(Number {
            millionths: value * 1_000_000,
        }),
        Token::Decimal(decimal) => {
            let whole = decimal.whole.unwrap_or(0);
            if whole > GREATEST || decimal.places > 6 {
                return None;
            }
            Some(Number {
                millionths: whole * 1_000_000 + u64::from(decimal.millionths),
            })
        }
        _ => None,
    }
}

impl Number {
    /// How many places behind the point it needs.
    pub(crate) fn places(self) -> u32 {
        for places in 0..6u32 {
            if self.millionths % unit_of(places) == 0 {
                return places;
            }
        }
        6
    }

    /// The number times ten to the power of these places, without what is left behind the point.
    pub(crate) fn scaled(self, places: u32) -> u64 {
        self.millionths / unit_of(places)
    }
}
