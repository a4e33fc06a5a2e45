//! Checks, and the fault of one that is broken.

ghost use Rattle.std.specs.Prelude.{[], ◌∷◌};
ghost use Rattle.gw_rules.specs.Checks.{Finds, check as check_of};

use gw_object::{Fault, Place};

/// One check: nothing where it holds, else the fault of this code at this place (ours: docs/refusals.md).
pub fn check(code: u16, place: Place, holds: bool) -> Result<(), Fault>
    ensures { Finds result (check_of code place holds ∷ []) }
{
    if holds {
        Ok(())
    } else {
        Err(Fault { code, place })
    }
}
