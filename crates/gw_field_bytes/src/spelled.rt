//! Values that stand in bytes, each in one way.

ghost use Rattle.std.specs.Prelude.{ℕ, List, ◌∷◌, ◌++◌};
ghost use Rattle.gw_fields.specs.Fields.{Read, both_read};
ghost use Rattle.gw_field_bytes.specs.Receivers.{Puts};
ghost use Rattle.gw_fields.specs.Answers.{Gives};

use crate::receivers::Receiver;
use gw_fields::ReadError;
use std::alloc::Global;

/// The format of numbers and truth values.
pub struct NumberFormat;

/// A value that stands in bytes in one way. The format is a type of the crate that says which way: so a crate may say it of
/// the types of crates below it.
pub trait Spelled<Format>: Drop {
    /// The bytes that spell a value.
    ghost spelling: { Self → List ℕ };

    /// The value that the front of the bytes spells and the bytes after it, or the first fault.
    ghost reading: { List ℕ → Read Self };

    /// Puts the bytes of a value into a receiver.
    fn put<R: Receiver>(&self, to: &mut R) -> Result<(), R::Refusal>
        ensures { Puts R.content to.old to.new (spelling self.now) result };

    /// The value at the front of the bytes, and the bytes after it.
    fn read(alloc: Global, bytes: &[u8]) -> Result<(Self, &[u8]), ReadError>
        ensures { Gives (λ x. (x.0, x.1.now)) result (reading bytes.now) };
}

/// A value, and behind it another.
impl<F, G, A: Spelled<F>, B: Spelled<G>> Spelled<(F, G)> for (A, B) {
    ghost spelling = { λ x. A.spelling x.0 ++ B.spelling x.1 };

    ghost reading = { both_read A.reading B.reading };

    #[tactic(auto, using(crate::proofs::Receiving::joining))]
    fn put<R: Receiver>(&self, to: &mut R) -> Result<(), R::Refusal> {
        self.0.put(to)?;
        self.1.put(to)
    }

    fn read(alloc: Global, bytes: &[u8]) -> Result<((A, B), &[u8]), ReadError> {
        let (first, rest) = A::read(alloc, bytes)?;
        let (second, rest) = B::read(alloc, rest)?;
        Ok(((first, second), rest))
    }
}

/// Puts a tag, and behind it the bytes of a value.
#[tactic(auto, using(crate::proofs::Receiving::joining))]
pub fn put_behind<Format, T: Spelled<Format>, R: Receiver>(
    to: &mut R,
    tag: u8,
    value: &T,
) -> Result<(), R::Refusal>
    ensures { Puts R.content to.old to.new (tag ∷ T.spelling value.now) result }
{
    to.put_bytes(&[tag])?;
    value.put(to)
}
