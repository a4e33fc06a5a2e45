//! All that is known of a text's names.

ghost use Rattle.std.specs.Prelude.{◌≡◌, OnOk, OnErr, IfOk};
ghost use Rattle.gw_names.specs.Ledger.{Notes};
ghost use Rattle.gw_names.specs.Naming.{IsUnknown, Knows, KnowsUses};
ghost use Rattle.gw_names.specs.Sights.{limits_in};

use crate::declarations::declare_all;
use crate::entities::{ByKind, Declarations, EntityNames};
use crate::ledger::Ledger;
use crate::parameters::parameters_in;
use crate::places::places_in;
use crate::sights::{Sighted, see_sites};
use gw_name_uses::uses_in;
use gw_text::Statement;
use indexmap::IndexMap;
use std::alloc::{AllocError, Global};

/// What is known of the names of a text.
#[derive(Drop)]
pub struct Known {
    /// The numbers of entities, from 0, in the order in which the text speaks of them first.
    pub entities: EntityNames,
    /// The entities, by their numbers.
    pub sighted: Vec<Sighted>,
    /// The statements that declare entities.
    pub declarations: Declarations,
    /// The numbers of blocks by label, from 1.
    pub blocks: IndexMap<String, u16>,
    /// The numbers of parameters, from 1 to 64.
    pub parameters: IndexMap<String, u8>,
    /// PROCEDUREs: the statement, from 0.
    pub procedures: IndexMap<String, usize>,
    /// EQUs: the statement, from 0.
    pub equs: IndexMap<String, usize>,
    /// The EQUs that are numbers.
    pub equ_numbers: IndexMap<String, i64>,
}

/// Nothing is known yet.
fn nothing_known(alloc: Global) -> Known
    ensures { IsUnknown result }
{
    Known {
        entities: ByKind::new(alloc),
        sighted: Vec::new(alloc),
        declarations: ByKind::new(alloc),
        blocks: IndexMap::new(alloc),
        parameters: IndexMap::new(alloc),
        procedures: IndexMap::new(alloc),
        equs: IndexMap::new(alloc),
        equ_numbers: IndexMap::new(alloc),
    }
}

/// Labels, PROCEDUREs and EQUs become known.
fn label_all(alloc: Global, known: &mut Known, statements: &[Statement]) -> Result<(), AllocError>
    requires { KnowsUses statements.now known.old }
    ensures { OnOk result (Knows statements.now known.new) }
{
    let places = places_in(alloc, statements)?;
    known.blocks = places.blocks;
    known.procedures = places.procedures;
    known.equs = places.equs;
    known.equ_numbers = places.equ_numbers;
    Ok(())
}

/// All becomes known: entities and parameters first.
fn know_all(
    alloc: Global,
    known: &mut Known,
    statements: &[Statement],
    ledger: &mut Ledger,
) -> Result<(), AllocError>
    requires { IsUnknown known.old }
    ensures known { OnOk result (Knows statements.now known.new) }
    ensures ledger { OnOk result (Notes ledger.old ledger.new (limits_in statements.now)) }
{
    let sites = uses_in(alloc, statements)?;
    declare_all(&mut known.declarations, statements)?;
    see_sites(
        &mut known.entities,
        &mut known.sighted,
        ledger,
        &known.declarations,
        sites.as_slice(),
    )?;
    known.parameters = parameters_in(alloc, sites.as_slice(), ledger)?;
    label_all(alloc, known, statements)
}

/// All names of these statements. 82 Limit where an entity comes for which there is no room, or a named parameter for which no
/// number is left, at the line of its first sight; it stays unknown. `Err` where memory runs out; the ledger is then as it was.
pub fn known_names(
    alloc: Global,
    statements: &[Statement],
    ledger: &mut Ledger,
) -> Result<Known, AllocError>
    ensures known { IfOk result (Knows statements.now) }
    ensures ledger { OnOk result (Notes ledger.old ledger.new (limits_in statements.now)) }
    ensures unchanged { OnErr result (ledger.new ≡ ledger.old) }
{
    let mut known = nothing_known(alloc);
    let mut after = *ledger;
    match know_all(alloc, &mut known, statements, &mut after) {
        Ok(()) => {
            *ledger = after;
            Ok(known)
        }
        Err(error) => {
            drop(known);
            Err(error)
        }
    }
}
