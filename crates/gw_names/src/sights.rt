//! Entities, in the order in which a text speaks of them first.

ghost use Rattle.std.specs.Prelude.{◌≡◌, ◌<◌, None, length, OnOk, IfOk, string_bytes};
ghost use Rattle.gw_names.specs.Known.{entity_of};
ghost use Rattle.gw_names.specs.Sighting.{AddsKey, IsSighted, SeesKey, SeesKeyIn, SeesKeys};
ghost use Rattle.gw_names.specs.Sighting.{RefusesKey, RefusesKeyIn, RefusesKeys};

use crate::codes;
use crate::entities::{Declarations, EntityNames};
use crate::ledger::Ledger;
use gw_name_uses::{Site, Use};
use gw_rules::EntityKind;
use std::alloc::AllocError;

/// The most entities of an object.
const MOST_ENTITIES: usize = 1024;

/// An entity.
#[derive(Drop)]
pub struct Sighted {
    /// Its kind.
    pub kind: EntityKind,
    /// Its name.
    pub name: String,
    /// The statement that declares it, from 0, if there is one.
    pub declaration: Option<usize>,
}

/// An entity, with what declares it.
fn sighted_of(
    declarations: &Declarations,
    kind: EntityKind,
    name: &String,
) -> Result<Sighted, AllocError>
    ensures kind { IfOk result (λ s. s.kind ≡ kind) }
    ensures name { IfOk result (λ s. string_bytes s.name ≡ string_bytes name.now) }
    ensures declaration { IfOk result (λ s.
        s.declaration ≡ entity_of declarations.now kind (string_bytes name.now)) }
{
    Ok(Sighted {
        kind,
        name: name.clone()?,
        declaration: declarations.get(kind, name),
    })
}

/// One more entity, which wasn't seen yet.
fn add(
    entities: &mut EntityNames,
    sighted: &mut Vec<Sighted>,
    declarations: &Declarations,
    kind: EntityKind,
    name: &String,
) -> Result<(), AllocError>
    requires few { length sighted.old.items < 1024 }
    requires new { entity_of entities.old kind (string_bytes name.now) ≡ None }
    requires sighted { IsSighted declarations.now entities.old sighted.old.items }
    ensures sighted { OnOk result (IsSighted declarations.now entities.new sighted.new.items) }
    ensures keys { OnOk result (AddsKey kind (string_bytes name.now) sighted.old sighted.new) }
{
    let entity = sighted_of(declarations, kind, name)?;
    let number = sighted.len() as u16;
    entities.set(kind, name, number)?;
    sighted.push(entity)?;
    Ok(())
}

/// An entity is seen. 82 Limit where it is a new one and there is no room.
fn see(
    entities: &mut EntityNames,
    sighted: &mut Vec<Sighted>,
    ledger: &mut Ledger,
    declarations: &Declarations,
    line: u32,
    kind: EntityKind,
    name: &String,
) -> Result<(), AllocError>
    requires sighted { IsSighted declarations.now entities.old sighted.old.items }
    ensures sighted { OnOk result (IsSighted declarations.now entities.new sighted.new.items) }
    ensures keys { OnOk result (SeesKey kind name.now sighted.old sighted.new) }
    ensures ledger { OnOk result (RefusesKey sighted.old line kind name.now ledger.old ledger.new) }
{
    if entities.get(kind, name).is_some() {
        Ok(())
    } else if sighted.len() < MOST_ENTITIES {
        add(entities, sighted, declarations, kind, name)
    } else {
        ledger.note(line, codes::LIMIT);
        Ok(())
    }
}

/// What is used is seen, if it is an entity.
fn see_site(
    entities: &mut EntityNames,
    sighted: &mut Vec<Sighted>,
    ledger: &mut Ledger,
    declarations: &Declarations,
    line: u32,
    used: Use<'_>,
) -> Result<(), AllocError>
    requires sighted { IsSighted declarations.now entities.old sighted.old.items }
    ensures sighted { OnOk result (IsSighted declarations.now entities.new sighted.new.items) }
    ensures keys { OnOk result (SeesKeyIn used.entry sighted.old sighted.new) }
    ensures ledger { OnOk result (RefusesKeyIn sighted.old line used.entry ledger.old ledger.new) }
{
    match used {
        Use::Entity(kind, name) => see(entities, sighted, ledger, declarations, line, kind, name),
        _ => Ok(()),
    }
}

/// All entities of a text are seen. 82 Limit at the line of the first sight of one for which there is no room.
pub(crate) fn see_sites(
    entities: &mut EntityNames,
    sighted: &mut Vec<Sighted>,
    ledger: &mut Ledger,
    declarations: &Declarations,
    sites: &[Site<'_>],
) -> Result<(), AllocError>
    requires sighted { IsSighted declarations.now entities.old sighted.old.items }
    ensures sighted { OnOk result (IsSighted declarations.now entities.new sighted.new.items) }
    ensures keys { OnOk result (SeesKeys sites.now sighted.old sighted.new) }
    ensures ledger { OnOk result (RefusesKeys sighted.old sites.now ledger.old ledger.new) }
{
    for i in 0..sites.len() {
        let site = sites[i];
        see_site(
            entities,
            sighted,
            ledger,
            declarations,
            site.line,
            site.used,
        )?;
    }
    Ok(())
}
