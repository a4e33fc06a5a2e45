//! Whether what a text uses is there.

ghost use Rattle.std.specs.Prelude.{◌≡◌, OnOk, OnErr};
ghost use Rattle.gw_name_uses.specs.Sites.{mention_at};
ghost use Rattle.gw_names.specs.Ledger.{Notes};
ghost use Rattle.gw_names.specs.Judgement as model;
ghost use Rattle.gw_names.specs.Judgement.{declared_by, fault_at, refusals_at, refusals_by};

use crate::codes;
use crate::declarations::is_equ;
use crate::known::Known;
use crate::ledger::{Ledger, note_if};
use crate::maps::value_of_name;
use gw_name_uses::{Site, Use, uses_in};
use gw_rules::EntityKind;
use gw_text::{Body, Statement};
use std::alloc::{AllocError, Global};

/// How an entity is refused that nothing declares: 80 Name where its kind has to be declared, and 81 Storage for a storage.
fn undeclared(kind: EntityKind) -> Option<u16>
    ensures { result ≡ model.undeclared_code kind }
{
    match kind {
        EntityKind::Storage => Some(codes::STORAGE),
        EntityKind::Table
        | EntityKind::Function
        | EntityKind::Variable
        | EntityKind::BooleanVariable => Some(codes::NAME),
        _ => None,
    }
}

/// The same, unless a statement declares it.
fn unless_declared(kind: EntityKind, declaration: Option<usize>) -> Option<u16>
    ensures { result ≡ model.unless_declared kind declaration }
{
    match declaration {
        Some(_) => None,
        None => undeclared(kind),
    }
}

/// 80 Name unless this holds.
fn named_if(holds: bool) -> Option<u16>
    ensures { result ≡ model.named_if holds }
{
    if holds { None } else { Some(codes::NAME) }
}

/// Whether the statement at this place is an EQU.
fn is_equ_at(statements: &[Statement], place: usize) -> bool
    ensures { result ≡ model.is_equ_at statements.now place }
{
    match statements.get(place) {
        Some(statement) => is_equ(statement.word),
        None => false,
    }
}

/// Whether an EQU may be used in the statement at a place: anywhere, but in an EQU only below its own.
fn may_use_equ(equ: Option<usize>, in_equ: bool, place: usize) -> bool
    ensures { result ≡ model.may_use_equ equ in_equ place }
{
    match equ {
        Some(equ) if in_equ => equ < place,
        Some(_) => true,
        None => false,
    }
}

/// Whether this is a PROCEDURE that takes so many arguments.
fn takes(body: &Body, given: usize) -> bool
    ensures { result ≡ model.takes body.now given }
{
    match body {
        Body::Procedure(procedure) => procedure.arguments.len() == given,
        Body::Nothing | Body::Points(_) => false,
    }
}

/// Whether the PROCEDURE that a statement is ends above this line and takes so many arguments.
fn may_call(callee: &Statement, line: u32, given: usize) -> bool
    ensures { result ≡ model.may_call callee.now line given }
{
    callee.last_line < line && takes(&callee.body, given)
}

/// The same of the PROCEDURE that is declared there.
fn may_call_at(statements: &[Statement], procedure: Option<usize>, line: u32, given: usize) -> bool
    ensures { result ≡ model.may_call_at statements.now procedure line given }
{
    match procedure {
        Some(procedure) => match statements.get(procedure) {
            Some(callee) => may_call(callee, line, given),
            None => false,
        },
        None => false,
    }
}

/// How a use is refused at its place, if it is.
fn fault_of(known: &Known, statements: &[Statement], site: Site<'_>) -> Option<u16>
    ensures { result ≡ fault_at (declared_by known.now) statements.now (mention_at site.entry) }
{
    match site.used {
        Use::Entity(kind, name) => unless_declared(kind, known.declarations.get(kind, name)),
        Use::Parameter(_) | Use::ParameterNumber(_) => None,
        Use::Label(label) => named_if(value_of_name(&known.blocks, label).is_some()),
        Use::Equ(name) => {
            let in_equ = is_equ_at(statements, site.statement);
            named_if(may_use_equ(value_of_name(&known.equs, name), in_equ, site.statement))
        }
        Use::Call(name, given) => {
            let procedure = value_of_name(&known.procedures, name);
            named_if(may_call_at(statements, procedure, site.line, given))
        }
        Use::Target(_) => Some(codes::NAME),
    }
}

/// Judges these uses.
fn judge(known: &Known, statements: &[Statement], sites: &[Site<'_>], ledger: &mut Ledger)
    ensures { Notes ledger.old ledger.new (refusals_at known.now statements.now sites.now) }
{
    for i in 0..sites.len() {
        let site = sites[i];
        let code = fault_of(known, statements, site);
        note_if(ledger, site.line, code);
    }
}

/// Judges each use at the line of its statement. 80 Name: a label that no block has; an EQU that isn't there, or isn't above
/// the EQU that uses it; a PROCEDURE that isn't there, doesn't end above the line, or takes another number of arguments; a TABLE,
/// FUNCTION, VARIABLE or BVARIABLE that is not declared; in a PROCEDURE an assignment to what is no local. 81 Storage: a STORAGE
/// that is not declared. `Err` where memory runs out; the ledger is then as it was.
pub fn check_uses(
    alloc: Global,
    known: &Known,
    statements: &[Statement],
    ledger: &mut Ledger,
) -> Result<(), AllocError>
    ensures judged { OnOk result (Notes ledger.old ledger.new
        (refusals_by (declared_by known.now) statements.now)) }
    ensures unchanged { OnErr result (ledger.new ≡ ledger.old) }
{
    let sites = uses_in(alloc, statements)?;
    judge(known, statements, sites.as_slice(), ledger);
    Ok(())
}
