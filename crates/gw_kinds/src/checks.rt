//! Checks of one element after the other.

ghost use Rattle.std.specs.Prelude.{◌<◌, ◌≤◌, ◌+◌, ℕ, List, length};
ghost use Rattle.std.specs.List.{All};
ghost use Rattle.gw_object.specs.declared.parts.Parts.{Parts};
ghost use Rattle.gw_rules.specs.Checks.{Check, Finds, checks_by_number};

use gw_object::{Fault, Parts};

/// What is checked of each of some elements of an object.
pub(crate) trait NumberedChecks<T> {
    /// The checks of the element of this number, in order.
    ghost checks: { Self → Parts → ℕ → T → List Check };

    /// An element may be checked: a list of its own is short enough to be numbered.
    ghost can_check: { T → Type 0 } = { λ _. Unit {0} };

    /// The first fault of the element of this number, if there is one.
    fn check_one(&self, parts: &Parts, number: u16, element: &T) -> Result<(), Fault>
        requires number { number ≤ 4096 }
        requires element { can_check element.now }
        ensures { Finds result (checks self.now parts.now number element.now) };
}

/// The first fault of these elements, if there is one; the first of them has this number.
pub(crate) fn check_each<T, C: NumberedChecks<T>>(
    checks: &C,
    parts: &Parts,
    first: u16,
    elements: &[T],
) -> Result<(), Fault>
    requires numbers { first + length elements.now ≤ 4097 }
    requires elements { All C.can_check elements.now }
    ensures { Finds result (checks_by_number (C.checks checks.now parts.now) first elements.now) }
{
    for i in 0..elements.len() {
        checks.check_one(parts, first + i as u16, &elements[i])?;
    }
    Ok(())
}
