//! Which statement declares a name.

ghost use Rattle.std.specs.Prelude.{◌≡◌};
ghost use Rattle.gw_names.specs.Places as model;
ghost use Rattle.gw_names.specs.Places.{Sets, SetsKeys, name_entry, declared_at, declared_from};
ghost use Rattle.gw_names.specs.Places.{declared_equ, declared_procedure};

use crate::entities::Declarations;
use crate::maps::{set, set_label};
use gw_name_uses::declared_kind;
use gw_text::{Body, Statement, Word};
use indexmap::IndexMap;
use std::alloc::AllocError;

/// The entity that a statement declares, if it does, has this place from now on.
fn declare(
    declarations: &mut Declarations,
    place: usize,
    statement: &Statement,
) -> Result<(), AllocError>
    ensures { SetsKeys result declarations.old declarations.new (declared_at place statement.now) }
{
    match (declared_kind(statement.word), &statement.label) {
        (Some(kind), Some(label)) => declarations.set(kind, label, place),
        _ => Ok(()),
    }
}

/// The entities that statements declare have their places from now on: each that of its last one.
pub(crate) fn declare_all(
    declarations: &mut Declarations,
    statements: &[Statement],
) -> Result<(), AllocError>
    ensures { SetsKeys result declarations.old declarations.new (declared_from 0 statements.now) }
{
    for i in 0..statements.len() {
        declare(declarations, i, &statements[i])?;
    }
    Ok(())
}

/// Whether a word is EQU.
#[tactic(auto, unfolding(crate::specs::Places::is_equ))]
pub fn is_equ(word: Word) -> bool
    ensures { result ≡ model.is_equ word }
{
    matches!(word, Word::Equ)
}

/// The EQU that a statement is, if it is one, has this place from now on.
pub(crate) fn set_equ(
    equs: &mut IndexMap<String, usize>,
    place: usize,
    statement: &Statement,
) -> Result<(), AllocError>
    ensures { Sets result equs.old equs.new (name_entry (declared_equ statement.now) place) }
{
    if is_equ(statement.word) {
        set_label(equs, &statement.label, place)
    } else {
        Ok(())
    }
}

/// The PROCEDURE that a statement has, if it has one, has this place from now on.
pub(crate) fn set_procedure(
    places: &mut IndexMap<String, usize>,
    place: usize,
    statement: &Statement,
) -> Result<(), AllocError>
    ensures { Sets result places.old places.new (name_entry (declared_procedure statement.now) place) }
{
    match &statement.body {
        Body::Procedure(procedure) => set(places, &procedure.name, place),
        Body::Nothing | Body::Points(_) => Ok(()),
    }
}
