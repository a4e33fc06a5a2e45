//! Whether a procedure needs the parameters that have to be set for what is in it (docs/plus-code.md).

ghost use Rattle.std.specs.Prelude.{◌≡◌};
ghost use Rattle.std.specs.List.{list_all};
ghost use Rattle.gw_rules.specs.Code as model;

use gw_object::{Instruction, Parts};
use gw_rules::asks_for;

/// Whether a number is among these.
fn is_among(numbers: &[u8], number: u8) -> bool
    ensures { result ≡ model.is_among numbers.now number }
{
    numbers.contains(&number)
}

/// Whether each of some numbers is among these.
fn are_among(numbers: &[u8], some: &[u8]) -> bool
    ensures { result ≡ list_all (model.is_among numbers.now) some.now }
{
    some.iter().all(|number| is_among(numbers, *number))
}

/// Whether the parameters that have to be set for an instruction are among these: the one that it reads, and those that
/// the procedure that it calls needs.
pub(crate) fn asks_for_needs(parts: &Parts, needs: &[u8], instruction: Instruction) -> bool
    ensures { result ≡ list_all (model.is_among needs.now) (model.asks_for parts.now instruction) }
{
    are_among(needs, asks_for(parts, instruction).as_slice())
}
