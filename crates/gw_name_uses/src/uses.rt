//! Uses of names.

ghost use Rattle.std.specs.Prelude.{◌≡◌, ◌++◌, ◌∷◌, [], OnOk};

use gw_rules::EntityKind;
use std::alloc::AllocError;

/// What a statement uses by name.
#[derive(Clone, Copy)]
pub enum Use<'a> {
    /// An entity, by its kind and name; also where a statement declares it.
    Entity(EntityKind, &'a String),
    /// A parameter, by its name.
    Parameter(&'a String),
    /// A parameter, by its number.
    ParameterNumber(u8),
    /// The block of a label.
    Label(&'a String),
    /// An EQU: a bare name as a value or in an expression, but for the locals of a PROCEDURE.
    Equ(&'a String),
    /// A call of a PROCEDURE with so many arguments, behind what these use.
    Call(&'a String, usize),
    /// In a PROCEDURE, what a value is assigned to though it is no local.
    Target(&'a String),
}

/// One more use.
pub(crate) fn put<'a>(uses: &mut Vec<Use<'a>>, one: Use<'a>) -> Result<(), AllocError>
    ensures { OnOk result (uses.new.items ≡ uses.old.items ++ one.entry ∷ []) }
{
    match uses.push(one) {
        Ok(()) => Ok(()),
        Err(_) => Err(AllocError),
    }
}
