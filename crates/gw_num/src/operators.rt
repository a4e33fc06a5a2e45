//! The operators of expressions and of PLUS code (GPSS World Reference Manual, chapter 8), and what they come to.

ghost use Rattle.std.specs.Prelude.{◌≡◌};
ghost use Rattle.gw_num.specs.Operators as model;

use crate::arithmetic::{NumFault, add, div, mul, neg, pow, rem, sub};

/// The operators before an operand.
#[derive(Clone, Copy, PartialEq, Eq)]
pub enum Unary {
    /// `-`.
    Negate,
    /// `'NOT'`.
    Not,
}

/// The operators between operands.
#[derive(Clone, Copy, PartialEq, Eq)]
pub enum Binary {
    /// `^`.
    Power,
    /// `#`.
    Multiply,
    /// `\`: division toward zero.
    Divide,
    /// `@`: the remainder.
    Remainder,
    /// `+`.
    Add,
    /// `-`.
    Subtract,
    /// `>` or `'G'`.
    Greater,
    /// `>=` or `'GE'`.
    GreaterOrEqual,
    /// `<` or `'L'`.
    Less,
    /// `<=` or `'LE'`.
    LessOrEqual,
    /// `=` or `'E'`.
    Equal,
    /// `!=` or `'NE'`.
    NotEqual,
    /// `&` or `'AND'`.
    And,
    /// `|` or `'OR'`.
    Or,
}

/// 1 for what is true, else 0.
pub fn truth_value(so: bool) -> i64
    ensures { result ≡ model.truth_value so }
{
    if so { 1 } else { 0 }
}

impl Unary {
    /// What the operator makes of a value: its negative, or `Number` where that leaves `i64`; or 1 where the value is 0,
    /// else 0.
    pub fn of(self, value: i64) -> Result<i64, NumFault>
        ensures { result ≡ model.unary_value self value }
    {
        match self {
            Unary::Negate => neg(value),
            Unary::Not => Ok(truth_value(value == 0)),
        }
    }
}

impl Binary {
    /// What the operator makes of two values: the value of the arithmetic operation, or its fault; or 1 where the comparison
    /// or the conjunction is true, else 0. Each value but 0 counts as true.
    pub fn of(self, left: i64, right: i64) -> Result<i64, NumFault>
        ensures { result ≡ model.binary_value self left right }
    {
        match self {
            Binary::Power => pow(left, right),
            Binary::Multiply => mul(left, right),
            Binary::Divide => div(left, right),
            Binary::Remainder => rem(left, right),
            Binary::Add => add(left, right),
            Binary::Subtract => sub(left, right),
            Binary::Greater => Ok(truth_value(left > right)),
            Binary::GreaterOrEqual => Ok(truth_value(left >= right)),
            Binary::Less => Ok(truth_value(left < right)),
            Binary::LessOrEqual => Ok(truth_value(left <= right)),
            Binary::Equal => Ok(truth_value(left == right)),
            Binary::NotEqual => Ok(truth_value(left != right)),
            Binary::And => Ok(truth_value(left != 0 && right != 0)),
            Binary::Or => Ok(truth_value(left != 0 || right != 0)),
        }
    }
}
