//! What a statement says behind its word.

use gw_text_expressions::{Expression, Sna};

/// An operand.
#[derive(Drop)]
pub enum Operand {
    /// None is written.
    Missing,
    /// A name: of an entity (also a whole number that stands for its name), a label, a parameter, an EQU or a keyword
    /// (SBR, P, FIFO, LIFO, BU).
    Name(String),
    /// A whole number.
    Whole(i64),
    /// A fraction, in thousandths.
    Fraction(u16),
    /// BOTH, the form of a TRANSFER.
    Both,
    /// A system numerical attribute.
    Sna(Sna),
    /// An expression: one in parentheses, a call of a PROCEDURE, or what follows VARIABLE, BVARIABLE and EQU.
    Expression(Expression),
}

/// An operator, or a sign.
#[derive(Clone, Copy, PartialEq, Eq)]
pub enum Modifier {
    /// The comparison of TEST.
    Test(Test),
    /// What GATE asks.
    Gate(Gate),
    /// What LOGIC does.
    Logic(Switching),
    /// The value is added to the old one.
    Plus,
    /// The value is taken from the old one.
    Minus,
}

/// The comparisons of TEST.
#[derive(Clone, Copy, PartialEq, Eq)]
pub enum Test {
    /// E.
    Equal,
    /// NE.
    NotEqual,
    /// G.
    Greater,
    /// GE.
    GreaterOrEqual,
    /// L.
    Less,
    /// LE.
    LessOrEqual,
}

/// What GATE asks of a switch, a facility or a storage.
#[derive(Clone, Copy, PartialEq, Eq)]
pub enum Gate {
    /// LS: the switch is set.
    Set,
    /// LR: the switch is reset.
    Reset,
    /// U: the facility is in use.
    InUse,
    /// NU: the facility is not in use.
    NotInUse,
    /// SF: the storage is full.
    Full,
    /// SE: the storage is empty.
    Empty,
    /// SNF: the storage is not full.
    NotFull,
    /// SNE: the storage is not empty.
    NotEmpty,
}

/// What LOGIC does with a switch.
#[derive(Clone, Copy, PartialEq, Eq)]
pub enum Switching {
    /// S: it is set.
    Set,
    /// R: it is reset.
    Reset,
    /// I: it is inverted.
    Invert,
}

/// A point of a FUNCTION.
#[derive(Clone, Copy, PartialEq, Eq)]
pub struct Point {
    /// The argument up to which the value holds, in millionths where the FUNCTION's argument is RN.
    pub x: i64,
    /// The value.
    pub y: i64,
}
