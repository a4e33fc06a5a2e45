//! Lists: so many elements, one after the other.

ghost use Rattle.std.specs.Prelude.{ℕ, List, []};
ghost use Rattle.std.specs.List.{flat_map};
ghost use Rattle.gw_fields.specs.Fields.{Read, plain, elements_read, list_spelling, list_read};
ghost use Rattle.gw_field_bytes.specs.Receivers.{Puts};
ghost use Rattle.gw_fields.specs.Answers.{Gives};

use crate::numbers::*;
use crate::receivers::Receiver;
use crate::spelled::Spelled;
use gw_fields::ReadError;
use std::alloc::Global;
use std::marker::PhantomData;

/// A value that bytes are put for. How it is read may depend on where it stands.
pub trait Put<Format>: Drop {
    /// The bytes that spell a value.
    ghost spelling: { Self → List ℕ };

    /// Puts the bytes of a value into a receiver.
    fn put_into<R: Receiver>(&self, to: &mut R) -> Result<(), R::Refusal>
        ensures { Puts R.content to.old to.new (spelling self.now) result };
}

/// The format of values that are read alike wherever they stand.
pub struct Anywhere<Format>(PhantomData<Format>);

impl<Format, T: Spelled<Format>> Put<Anywhere<Format>> for T {
    ghost spelling = { T.Spelled.spelling };

    fn put_into<R: Receiver>(&self, to: &mut R) -> Result<(), R::Refusal> {
        self.put(to)
    }
}

/// The elements of a list that were read before one.
pub type Front<'f, L> = &'f [<L as Elements>::Item];

/// What is read of a list's element, and the bytes after it.
pub type Reading<'a, L> = Result<(<L as Elements>::Item, &'a [u8]), ReadError>;

/// A list of the format, by how an element of it is read, which may depend on the elements before it and on how many come
/// after it.
pub trait Elements {
    type Item: Drop;

    /// The element that the front of the bytes spells behind those at the front and with so many after it, and
    /// the bytes after it, or the first fault.
    ghost reading: { List Self.Item → ℕ → List ℕ → Read Self.Item };

    /// The element at the front of the bytes, and the bytes after it.
    fn read<'a>(
        alloc: Global,
        front: Front<Self>,
        left: usize,
        bytes: &'a [u8],
    ) -> Reading<'a, Self>
        ensures { Gives (λ x. (x.0, x.1.now)) result (reading front.now left bytes.now) };
}

/// Puts the bytes of elements into a receiver.
#[tactic(auto, using(crate::proofs::Receiving::joining))]
pub fn put_elements<Format, T: Put<Format>, R: Receiver>(
    to: &mut R,
    elements: &[T],
) -> Result<(), R::Refusal>
    ensures { Puts R.content to.old to.new (flat_map T.spelling elements.now) result }
{
    for element in elements {
        element.put_into(to)?;
    }
    Ok(())
}

/// So many elements.
pub fn read_elements<L: Elements>(
    alloc: Global,
    n: usize,
    bytes: &[u8],
) -> Result<(Vec<L::Item>, &[u8]), ReadError>
    ensures { Gives (λ x. (x.0.items, x.1.now)) result (elements_read L.reading n [] bytes.now) }
{
    let mut items = Vec::new(alloc);
    let mut rest = bytes;
    for i in 0..n {
        let left = n - 1 - i;
        let (item, after) = L::read(alloc, items.as_slice(), left, rest)?;
        items.push(item)?;
        rest = after;
    }
    Ok((items, rest))
}

/// Puts the count of elements into a receiver, and their bytes.
#[tactic(auto, using(crate::proofs::Receiving::joining))]
pub fn put_listed<Format, T: Put<Format>, R: Receiver>(
    to: &mut R,
    elements: &[T],
) -> Result<(), R::Refusal>
    ensures { Puts R.content to.old to.new (list_spelling T.spelling elements.now) result }
{
    put_count(to, elements.len())?;
    put_elements(to, elements)
}

/// A count within two limits, and as many elements.
pub fn read_listed<L: Elements>(
    alloc: Global,
    bytes: &[u8],
    least: usize,
    most: usize,
) -> Result<(Vec<L::Item>, &[u8]), ReadError>
    ensures { Gives (λ x. (x.0.items, x.1.now)) result (list_read L.reading least most bytes.now) }
{
    let (count, rest) = read_count(alloc, bytes, least, most)?;
    read_elements::<L>(alloc, count, rest)
}

/// A list of values of a format, of which none depends on others.
pub struct Plain<Format, T>(PhantomData<(Format, T)>);

impl<Format, T: Spelled<Format>> Elements for Plain<Format, T> {
    type Item = T;

    ghost reading = { λ front left. T.reading };

    fn read<'a>(alloc: Global, _: Front<Self>, _: usize, bytes: &'a [u8]) -> Reading<'a, Self> {
        T::read(alloc, bytes)
    }
}
