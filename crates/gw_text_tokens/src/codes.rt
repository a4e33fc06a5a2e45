//! The codes of refusals that reading a model text answers. docs/refusals.md lists all codes.

/// A line of more than 1,000 bytes, or a text of more than 1 MiB.
pub const LENGTH: u16 = 70;

/// A word that no statement has.
pub const WORD: u16 = 71;

/// An operand that its statement can't have.
pub const OPERAND: u16 = 72;

/// An expression that isn't one.
pub const EXPRESSION: u16 = 73;

/// A label that stands before another statement already.
pub const LABEL: u16 = 74;

/// A form of GPSS World that is left out.
pub const LEFT_OUT: u16 = 75;

/// A number of blocks, a name, a whole number or a nesting past its limit.
pub const LIMIT: u16 = 76;

/// A statement that comes after START and must not.
pub const ORDER: u16 = 77;
