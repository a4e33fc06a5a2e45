//! How the plan of a model text is made: by its names, and the order of its procedures.

ghost use Rattle.std.specs.Prelude.{◌≡◌, ◌≤◌, [], length, slice_get, IfOk, OnOk};
ghost use Rattle.gw_object.specs.declared.limits.TheConstants.{MOST_PROCEDURES};
ghost use Rattle.gw_names.specs.Naming.{Knows};
ghost use Rattle.gw_pieces.specs.Clear.{StaysClear};
ghost use Rattle.gw_pieces.specs.Making as making;
ghost use Rattle.gw_pieces.specs.Order.{lookup_for, order_by, order_in};
ghost use Rattle.gw_pieces.specs.Reasons as reasons;

use crate::naming::{Meanings, meanings_of};
use crate::order::ordered;
use crate::origins::{Origin, origins_of};
use crate::plan::Plan;
use gw_names::{Known, Ledger, Names, check_uses, codes, known_names};
use gw_object::{Entity, MOST_PROCEDURES};
use gw_text::Model;
use std::alloc::{AllocError, Global};

/// The line of the statement of an origin.
pub(crate) fn line_of(text: &Model, origin: Origin) -> u32
    ensures { result ≡ reasons.line_of (slice_get text.now.statements.items origin.statement) }
{
    match text.statements.get(origin.statement) {
        Some(statement) => statement.line,
        None => 0,
    }
}

/// Notes the first origin that is one too many.
fn note_surplus(text: &Model, origins: &[Origin], ledger: &mut Ledger)
    ensures few { StaysClear ledger.old ledger.new (length origins.now ≤ MOST_PROCEDURES) }
    ensures notes { making.NotesSurplus text.now origins.now ledger.old ledger.new }
{
    if origins.len() > MOST_PROCEDURES {
        ledger.note(line_of(text, origins[MOST_PROCEDURES]), codes::LIMIT);
    }
}

/// The origins in the order of their procedures, or, where there are too many, in that of the text.
fn placed(
    alloc: Global,
    text: &Model,
    known: &Known,
    origins: Vec<Origin>,
) -> Result<Vec<Origin>, AllocError>
    ensures { IfOk result (λ order.
        order.items ≡ order_by (lookup_for known.now text.now origins.items)) }
{
    if origins.len() > MOST_PROCEDURES {
        Ok(origins)
    } else {
        ordered(alloc, text, known, &origins)
    }
}

/// The origins in the order of their procedures. One that is too many is noted.
pub(crate) fn order_of(
    alloc: Global,
    text: &Model,
    known: &Known,
    ledger: &mut Ledger,
) -> Result<Vec<Origin>, AllocError>
    requires { Knows text.now.statements.items known.now }
    ensures few { IfOk result (making.HasRoom ledger.old ledger.new) }
    ensures notes { OnOk result (making.NotesOrder text.now ledger.old ledger.new) }
    ensures order { IfOk result (λ order. order.items ≡ order_in text.now.statements.items) }
{
    let origins = origins_of(alloc, known, text)?;
    let order = placed(alloc, text, known, origins)?;
    note_surplus(text, &order, ledger);
    Ok(order)
}

/// The origins of the procedures, in order, and what the names of PROCEDUREs and EQUs stand for.
#[derive(Drop)]
struct Ordered {
    order: Vec<Origin>,
    meanings: Meanings,
}

/// The origins of the procedures of a model text whose names are known, in order, once all uses of names are judged. A use
/// that is refused and an origin that is too many are noted.
fn judged(
    alloc: Global,
    text: &Model,
    known: &Known,
    ledger: &mut Ledger,
) -> Result<Ordered, AllocError>
    requires { Knows text.now.statements.items known.now }
    ensures few { IfOk result (λ o. making.HasRoom ledger.old ledger.new o.order) }
    ensures named { OnOk result (StaysClear ledger.old ledger.new (making.RefusesNone text.now)) }
    ensures notes { OnOk result (making.NotesNames text.now ledger.old ledger.new) }
    ensures order { IfOk result (λ o. o.order.items ≡ order_in text.now.statements.items) }
    ensures meanings { IfOk result (making.HasMeanings text.now) }
{
    check_uses(alloc, known, text.statements.as_slice(), ledger)?;
    let order = order_of(alloc, text, known, ledger)?;
    let meanings = meanings_of(alloc, text, known, &order)?;
    Ok(Ordered { order, meanings })
}

/// A plan by what is known of the names of a text, where no entity is made yet.
fn plan_by<'a>(text: &'a Model, known: Known, ordered: Ordered, none: Vec<Entity>) -> Plan<'a>
    requires none { none.items ≡ [] }
    requires known { Knows text.now.statements.items known }
    requires meanings { making.HasMeanings text.now ordered }
    requires order { ordered.order.items ≡ order_in text.now.statements.items }
    ensures { making.IsPlanOf text.now result }
{
    let Known {
        entities,
        sighted,
        declarations,
        blocks,
        parameters,
        procedures: procedures_by_name,
        equs: equs_by_name,
        equ_numbers,
    } = known;
    drop(declarations);
    drop(procedures_by_name);
    drop(equs_by_name);
    drop(equ_numbers);
    let Ordered { order, meanings } = ordered;
    let Meanings { procedures, equs } = meanings;
    let names = Names {
        entities,
        list: none,
        blocks,
        parameters,
        procedures,
        equs,
    };
    Plan {
        text,
        names,
        order,
        sighted,
    }
}

/// The plan of a model text whose names are known.
fn plan_with<'a>(
    alloc: Global,
    text: &'a Model,
    known: Known,
    ledger: &mut Ledger,
) -> Result<Plan<'a>, AllocError>
    requires { Knows text.now.statements.items known }
    ensures plan { IfOk result (making.IsPlanOf text.now) }
    ensures few { OnOk result (StaysClear ledger.old ledger.new (making.HasFew text.now)) }
    ensures named { OnOk result (StaysClear ledger.old ledger.new (making.RefusesNone text.now)) }
    ensures notes { OnOk result (making.NotesNames text.now ledger.old ledger.new) }
{
    match judged(alloc, text, &known, ledger) {
        Ok(ordered) => Ok(plan_by(text, known, ordered, Vec::new(alloc))),
        Err(AllocError) => {
            drop(known);
            Err(AllocError)
        }
    }
}

/// The plan of a model text. A name that is refused, and a procedure that is too many, are noted.
pub(crate) fn plan_of<'a>(
    alloc: Global,
    text: &'a Model,
    ledger: &mut Ledger,
) -> Result<Plan<'a>, AllocError>
    ensures plan { IfOk result (making.IsPlanOf text.now) }
    ensures few { OnOk result (StaysClear ledger.old ledger.new (making.HasFew text.now)) }
    ensures named { OnOk result (StaysClear ledger.old ledger.new (making.IsNamedText text.now)) }
    ensures notes { OnOk result (making.NotesText text.now ledger.old ledger.new) }
{
    match known_names(alloc, text.statements.as_slice(), ledger) {
        Ok(known) => plan_with(alloc, text, known, ledger),
        Err(AllocError) => Err(AllocError),
    }
}
