//! The entities and the return rows that the rows of the state table name.

ghost use Rattle.std.specs.Prelude.{◌≡◌, Some, map};
ghost use Rattle.gw_rules.specs.Checks.{Finds};
ghost use Rattle.gw_object.specs.declared.blocks.Units.{Units};
ghost use Rattle.gw_rules.specs.Kinds as model;
ghost use Rattle.gw_rules.specs.declared.entities.EntityKind.TheVariants as needed;

use crate::checks::NumberedChecks;
use crate::entities::{is_no_other_kind, is_there};
use gw_object::{Entity, Fault, Parts, Place, ReturnRow, TableKind, TableState, Units, chains_in};
use gw_rules::kinds_codes::{NO_ENTITY, WRONG_KIND};
use gw_rules::{EntityKind, Named, chain_row, check, needs};

/// A facility that a row names as owned.
fn as_owned(facility: &u16) -> Named
    ensures { result ≡ model.needs needed.Facility facility.now }
{
    needs(EntityKind::Facility, *facility)
}

/// A storage or a queue that a row names as holding units.
fn as_held(units: &Units) -> Named
    ensures { result ≡ model.needs needed.StorageOrQueue units.now.entity }
{
    needs(EntityKind::StorageOrQueue, units.entity)
}

/// Whether none of the entities of a row is of another kind.
fn names_no_other_kind(entities: &[Entity], row: &TableState) -> bool
    ensures { result ≡ model.names_no_other_kind entities.now (model.entities_of_row row.now) }
{
    let owned = row.facilities.as_slice().iter().map(as_owned);
    let held = row.units.as_slice().iter().map(as_held);
    owned
        .chain(held)
        .all(|named| is_no_other_kind(entities, named))
}

/// Whether the entities of a row are there.
fn are_there(entities: &[Entity], row: &TableState) -> bool
    ensures { result ≡ model.are_there entities.now (model.entities_of_row row.now) }
{
    let owned = row.facilities.as_slice().iter().map(as_owned);
    let held = row.units.as_slice().iter().map(as_held);
    owned.chain(held).all(|named| is_there(entities, named))
}

/// The return row that a kind names, if it does.
fn return_row_of(kind: TableKind) -> Option<u16>
    ensures { result ≡ model.return_row_of kind }
{
    match kind {
        TableKind::Num => None,
        TableKind::Ret(row) => Some(row),
    }
}

/// Whether the return rows that a row names are there.
fn has_return_rows(returns: &[ReturnRow], row: &TableState) -> bool
    ensures { result ≡ model.has_return_rows returns.now row.now }
{
    let mut named = row
        .parameters
        .as_slice()
        .iter()
        .filter_map(|q| return_row_of(q.kind));
    named.all(|number| (number as usize) < returns.len())
}

/// The first fault of the row at this place, if there is one.
fn check_row(parts: &Parts, place: Place, row: &TableState) -> Result<(), Fault>
    ensures { Finds result (model.row_checks parts.now place (Some row.now)) }
{
    let entities = parts.entities.as_slice();
    check(WRONG_KIND, place, names_no_other_kind(entities, row))?;
    let are_there = are_there(entities, row) && has_return_rows(parts.returns.as_slice(), row);
    check(NO_ENTITY, place, are_there)
}

/// The checks of the rows of the state table, each at its block.
pub(crate) struct Rows;

impl NumberedChecks<Option<TableState>> for Rows {
    ghost use Rattle.gw_object.specs.declared.fault.Place.TheVariants as places;

    ghost checks = { λ _ p b. model.row_checks p (places.Block b) };

    fn check_one(
        &self,
        parts: &Parts,
        number: u16,
        element: &Option<TableState>,
    ) -> Result<(), Fault> {
        match element {
            None => Ok(()),
            Some(row) => check_row(parts, Place::Block(number), row),
        }
    }
}

/// The checks of the user chains' rows of the state table, each at its entity.
pub(crate) struct Chains;

impl NumberedChecks<Entity> for Chains {
    ghost checks = { λ _ p e. model.chain_checks p e };

    fn check_one(&self, parts: &Parts, number: u16, element: &Entity) -> Result<(), Fault> {
        if !element.kind.is_chain() {
            return Ok(());
        }
        match chain_row(parts, number) {
            None => Ok(()),
            Some(row) => check_row(parts, Place::Chain(number), row),
        }
    }
}
