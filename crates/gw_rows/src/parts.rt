//! Parts of a line, between bytes of a kind.

ghost use Rattle.std.specs.Prelude.{◌≡◌, ◌==◌, drop, IfOk};
ghost use Rattle.gw_rows.specs.Rows.{lent_texts};
ghost use Rattle.std.specs.List.{after_first, before_first, position_or_len, slice_split};

use gw_object::Memory;
use std::alloc::Global;

/// Where the first byte of a kind stands, or the length.
fn place_of(text: &[u8], byte: u8) -> usize
    ensures { result ≡ position_or_len (λ b. b == byte) text.now }
{
    for place in 0..text.len() {
        if text[place] == byte {
            return place;
        }
    }
    text.len()
}

/// What follows the first byte, if there is one.
pub(crate) fn behind_first(bytes: &[u8]) -> &[u8]
    ensures { result.now ≡ drop 1 bytes.now }
{
    match bytes {
        [_, rest @ ..] => rest,
        [] => bytes,
    }
}

/// What stands before the first byte of a kind, and behind it; all and nothing where there is none.
pub(crate) fn split_at_byte(text: &[u8], byte: u8) -> (&[u8], &[u8])
    ensures front { result.0.now ≡ before_first (λ b. b == byte) text.now }
    ensures back { result.1.now ≡ after_first (λ b. b == byte) text.now }
{
    let (front, rest) = text.split_at(place_of(text, byte));
    (front, behind_first(rest))
}

/// The parts between bytes of a kind.
pub(crate) fn parts_of(alloc: Global, text: &[u8], byte: u8) -> Result<Vec<&[u8]>, Memory>
    ensures { IfOk result (λ parts. lent_texts parts.items ≡ slice_split (λ b. b == byte) text.now) }
{
    text.split(|other| *other == byte).collect(alloc)
}
