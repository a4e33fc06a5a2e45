//! Making an object of parts.

ghost use Rattle.std.specs.Prelude.{◌≡◌, IfOk, IfErr, Ok};
ghost use Rattle.gw_object.specs.Grammar.{HasSpelling};
ghost use Rattle.gw_object_bytes.specs.Laws.{HandsBack};

use crate::rules::broken_rule;
use gw_object::{Fault, Object, Parts, Place};

/// The object of these parts. Parts that have no spelling are handed back with the lowest code that
/// applies anywhere in them: 4 (a version that isn't listed, a byte of a name that isn't, a block that the version doesn't
/// have, a slope in version 1), 5 (a limit or a list's length), 6 (not the one form); the place is Nowhere.
pub fn build(parts: Parts) -> Result<Object, (Parts, Fault)>
    ensures accepted { IfOk result (λ o. (o ≡ parts) × HasSpelling parts) }
    ensures exactly { HasSpelling parts → result ≡ Ok parts }
    ensures refused { IfErr result (HandsBack parts) }
{
    match broken_rule(&parts) {
        None => Ok(Object::of(parts)),
        Some(code) => {
            let place = Place::Nowhere;
            Err((parts, Fault { code, place }))
        }
    }
}
