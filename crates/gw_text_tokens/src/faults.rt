//! What is wrong with a line.

ghost use Rattle.std.specs.Prelude.{◌≡◌, ◌≤◌, Some};
ghost use Rattle.gw_text_tokens.specs.Codes.{length_fault, order_fault, code_of};
ghost use Rattle.gw_text_tokens.specs.Faults.{lower, lower_of, or_otherwise, first_refusal, check_of};

use crate::codes;
use std::alloc::{AllocError, AllocFailed};

/// Why a line is refused (ours: docs/refusals.md).
#[derive(Clone, Copy)]
pub enum Refusal {
    /// 70 Length.
    Length,
    /// 71 Word.
    Word,
    /// 72 Operand.
    Operand,
    /// 73 Expression.
    Expression,
    /// 74 Label.
    Label,
    /// 75 LeftOut.
    LeftOut,
    /// 76 Limit.
    Limit,
    /// 77 Order.
    Order,
}

impl Refusal {
    /// Its code.
    pub fn code(self) -> u16
        ensures is { result ≡ code_of self }
        ensures within { (length_fault ≤ result) × (result ≤ order_fault) }
    {
        match self {
            Refusal::Length => codes::LENGTH,
            Refusal::Word => codes::WORD,
            Refusal::Operand => codes::OPERAND,
            Refusal::Expression => codes::EXPRESSION,
            Refusal::Label => codes::LABEL,
            Refusal::LeftOut => codes::LEFT_OUT,
            Refusal::Limit => codes::LIMIT,
            Refusal::Order => codes::ORDER,
        }
    }
}

/// Why reading stops: the line is refused, or memory runs out.
#[derive(Drop)]
pub enum Stop {
    /// The line is refused.
    Refused(Refusal),
    /// Memory ran out.
    Memory,
}

impl From<AllocError> for Stop {
    fn from(_: AllocError) -> Stop {
        Stop::Memory
    }
}

impl<T: Drop> From<AllocFailed<T>> for Stop {
    fn from(_: AllocFailed<T>) -> Stop {
        Stop::Memory
    }
}

impl From<Refusal> for Stop {
    fn from(refusal: Refusal) -> Stop {
        Stop::Refused(refusal)
    }
}

/// Why lines aren't read: the line at fault, counted from 0, and why.
pub type Where = (usize, Stop);

/// The refusal of the lowest code so far of a line.
#[derive(Clone, Copy)]
pub struct Lowest {
    /// The refusal, if there is one.
    pub found: Option<Refusal>,
}

impl Lowest {
    /// Nothing is wrong yet.
    pub const NONE: Lowest = Lowest { found: None };

    /// Takes note of a refusal.
    pub fn note(&mut self, refusal: Refusal)
        ensures { self.new.found ≡ Some (lower self.old.found refusal) }
    {
        self.found = Some(self.lower(refusal));
    }

    /// The lower of both.
    pub fn and(self, other: Lowest) -> Lowest
        ensures { result.found ≡ lower_of self.found other.found }
    {
        match other.found {
            Some(refusal) => Lowest {
                found: Some(self.lower(refusal)),
            },
            None => self,
        }
    }

    /// What was read, or `otherwise` where it was refused, of which is then taken note. `Err` where memory ran out.
    pub fn keep<T>(&mut self, outcome: Result<T, Stop>, otherwise: T) -> Result<T, AllocError>
    where
        T: Drop,
        ensures { (result ≡ or_otherwise outcome otherwise) × (self.new.found ≡ first_refusal self.old.found outcome) }
    {
        match outcome {
            Ok(value) => Ok(value),
            Err(Stop::Refused(refusal)) => {
                self.note(refusal);
                Ok(otherwise)
            }
            Err(Stop::Memory) => Err(AllocError),
        }
    }

    /// The lower of the refusal so far and this one.
    pub fn lower(self, refusal: Refusal) -> Refusal
        ensures { result ≡ lower self.found refusal }
    {
        match self.found {
            Some(known) if known.code() <= refusal.code() => known,
            _ => refusal,
        }
    }

    /// `Err` with the refusal so far, if there is one.
    pub fn check(self) -> Result<(), Stop>
        ensures { result ≡ check_of self.found }
    {
        match self.found {
            Some(refusal) => Err(Stop::Refused(refusal)),
            None => Ok(()),
        }
    }
}
