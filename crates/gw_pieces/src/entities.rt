//! The entities of a model text, in order of first sight.

ghost use Rattle.std.specs.Prelude.{◌≡◌, OnOk, IfOk, string_bytes};
ghost use Rattle.gw_pieces.specs.Entities as model;
ghost use Rattle.gw_pieces.specs.Plans as plans;
ghost use Rattle.gw_pieces.specs.Plans.{AddsEntity};

use crate::blocks::{Numbers, note_none, numbers_for};
use crate::initials::Initials;
use crate::plan::Plan;
use gw_names::{Ledger, Sighted};
use gw_object::{Entity, Items, Kind};
use gw_object_records::kind_of;
use gw_rules::EntityKind;
use gw_text::Statement;
use std::alloc::{AllocError, Global};

/// What a declaration makes of an entity; one that makes none is noted.
fn declared_kind(
    alloc: Global,
    plan: &Plan<'_>,
    statement: &Statement,
    number: usize,
    ledger: &mut Ledger,
) -> Result<Kind, AllocError>
    ensures kind { IfOk result (plans.Declares plan.now statement.now number ledger.old ledger.new) }
    ensures notes { OnOk result (plans.NotesDeclared plan.now statement.now number ledger.old ledger.new) }
{
    let Numbers { first, second } = numbers_for(plan, statement, number);
    let procedures = [first, second];
    match kind_of(alloc, &plan.names, &procedures, statement)? {
        Some(kind) => Ok(kind),
        None => {
            note_none(ledger, statement.line);
            Ok(Kind::Facility)
        }
    }
}

/// What an entity is that needs no declaration. (One that needs it and has none was noted when the names were looked at.)
fn undeclared_kind(initials: &Initials, kind: EntityKind, name: &String) -> Kind
    ensures { model.IsUndeclared initials.now kind (string_bytes name.now) result }
{
    match kind {
        EntityKind::Queue => Kind::Queue,
        EntityKind::Switch => Kind::Switch(initials.switch(name)),
        EntityKind::Savevalue => Kind::Savevalue(initials.savevalue(name)),
        EntityKind::Chain => Kind::Chain,
        _ => Kind::Facility,
    }
}

/// What an entity is.
fn kind_of_sighted(
    alloc: Global,
    plan: &Plan<'_>,
    initials: &Initials,
    sighted: &Sighted,
    ledger: &mut Ledger,
) -> Result<Kind, AllocError>
    requires savevalues { model.AreSavevalues plan.now.text.now.statements.items initials.now }
    requires switches { model.AreSwitches plan.now.text.now.statements.items initials.now }
    ensures kind { IfOk result (plans.IsKind plan.now sighted.now ledger.old ledger.new) }
    ensures notes { OnOk result (plans.NotesSighted plan.now sighted.now ledger.old ledger.new) }
{
    match sighted.declaration {
        Some(number) => match plan.text.statements.get(number) {
            Some(statement) => declared_kind(alloc, plan, statement, number, ledger),
            None => {
                note_none(ledger, 0);
                Ok(Kind::Facility)
            }
        },
        None => Ok(undeclared_kind(initials, sighted.kind, &sighted.name)),
    }
}

/// An entity that was sighted, behind others.
fn put_entity(
    alloc: Global,
    plan: &Plan<'_>,
    initials: &Initials,
    entities: &mut Vec<Entity>,
    sighted: &Sighted,
    ledger: &mut Ledger,
) -> Result<(), AllocError>
    requires savevalues { model.AreSavevalues plan.now.text.now.statements.items initials.now }
    requires switches { model.AreSwitches plan.now.text.now.statements.items initials.now }
    ensures grown { OnOk result (AddsEntity plan.now sighted.now
        ledger.old ledger.new entities.old entities.new) }
    ensures notes { OnOk result (plans.NotesSighted plan.now sighted.now ledger.old ledger.new) }
{
    let name = Items::from_vec(Vec::from_slice(alloc, sighted.name.as_bytes())?);
    let kind = kind_of_sighted(alloc, plan, initials, sighted, ledger)?;
    entities.push(Entity { name, kind }).map_err(|_| AllocError)
}

/// The entities, in order of first sight; those whose declaration makes none are noted.
pub(crate) fn entities_of(
    alloc: Global,
    plan: &Plan<'_>,
    ledger: &mut Ledger,
) -> Result<Vec<Entity>, AllocError>
    ensures sighted { IfOk result (plans.AreEntities plan.now ledger.old ledger.new) }
    ensures notes { OnOk result (plans.NotesEntities plan.now ledger.old ledger.new) }
{
    let initials = Initials::of(alloc, plan.text.statements.as_slice())?;
    let mut entities = Vec::new(alloc);
    for number in 0..plan.sighted.len() {
        match put_entity(
            alloc,
            plan,
            &initials,
            &mut entities,
            &plan.sighted[number],
            ledger,
        ) {
            Ok(()) => {}
            Err(error) => {
                drop(entities);
                drop(initials);
                return Err(error);
            }
        }
    }
    drop(initials);
    Ok(entities)
}
