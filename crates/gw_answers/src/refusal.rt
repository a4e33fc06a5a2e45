//! Refusals, as they are printed.

ghost use Rattle.std.specs.Prelude.{◌≡◌, Some};
ghost use Rattle.gw_answers.specs.Refusal.{place_front, place_numbers, refusal_text, start_refusal};

use crate::codes::{BUDGET, COUNT, JOB_MEMORY, SEED};
use crate::names::name;
use gw_object::{Fault, Place};
use gw_scan::StartFault;
use std::fmt;

/// A refusal, which prints as `refused CODE NAME at PLACE`, without a place where it has none (docs/refusals.md).
#[derive(Clone, Copy, PartialEq, Eq)]
pub struct Refusal(pub Fault);

/// The numbers of a place, which print with a blank between them.
#[derive(Drop)]
struct Numbers(Place);

impl From<StartFault> for Refusal {
    ghost from_gives = { λ fault refusal. refusal.0 ≡ start_refusal fault };

    fn from(fault: StartFault) -> Refusal {
        let code = match fault {
            StartFault::Seed => SEED,
            StartFault::Count => COUNT,
            StartFault::Budget => BUDGET,
            StartFault::Memory => JOB_MEMORY,
        };
        Refusal(Fault {
            code,
            place: Place::Nowhere,
        })
    }
}

/// What stands before the numbers of a place: ` at KIND `, or nothing.
fn front(place: Place) -> &'static str
    ensures { result.now ≡ place_front place }
{
    match place {
        Place::Byte(_) => " at byte ",
        Place::Entity(_) => " at entity ",
        Place::Code(_, _) => " at code ",
        Place::Row(_) => " at row ",
        Place::Block(_) => " at block ",
        Place::Edge(_, _) => " at edge ",
        Place::Chain(_) => " at chain ",
        Place::Line(_) => " at line ",
        Place::Nowhere => "",
    }
}

impl fmt::Display for Numbers {
    ghost output = { λ numbers. Some (place_numbers numbers.0) };

    fn fmt<W: fmt::Write>(&self, f: &mut fmt::Formatter<W>) -> fmt::Result {
        match self.0 {
            Place::Byte(n) | Place::Line(n) => write!(f, "{n}"),
            Place::Entity(n) | Place::Row(n) | Place::Block(n) | Place::Chain(n) => {
                write!(f, "{n}")
            }
            Place::Code(first, second) | Place::Edge(first, second) => {
                write!(f, "{first} {second}")
            }
            Place::Nowhere => Ok(()),
        }
    }
}

impl fmt::Display for Refusal {
    ghost output = { λ refusal. Some (refusal_text refusal.0) };

    fn fmt<W: fmt::Write>(&self, f: &mut fmt::Formatter<W>) -> fmt::Result {
        let code = self.0.code;
        let name = name(code);
        let front = front(self.0.place);
        let numbers = Numbers(self.0.place);
        write!(f, "refused {code} {name}{front}{numbers}")
    }
}
