//! The procedures of a model text.

ghost use Rattle.std.specs.Prelude.{◌≡◌, ◌++◌, ◌∷◌, [], OnOk, IfOk, IfErr, MatchResult};
ghost use Rattle.gw_pieces.specs.Clear.{IsNoted};
ghost use Rattle.gw_pieces.specs.Plans as plans;
ghost use Rattle.gw_pieces.specs.Plans.{AddsCode};
ghost use Rattle.gw_pieces.specs.Reasons.{blamed_by, NotesBlamed};
ghost use Rattle.gw_pieces.specs.Reasons.{BlamesBody, BlamesOperand, BlamesPosition};
ghost use Rattle.gw_pieces.specs.Sources.{CompilesBody, CompilesOperand, CompilesPosition};

use crate::origins::{Origin, expression_at};
use crate::plan::Plan;
use gw_compile::{CompileFault, compile, compile_procedure};
use gw_names::{Ledger, Names, codes};
use gw_object::{MOST_PROCEDURES, Procedure};
use gw_text::{Body, Procedure as TextProcedure, Statement};
use std::alloc::{AllocError, Global};

/// Why nothing is compiled.
#[derive(Clone, Copy)]
pub(crate) enum Blamed {
    /// A limit is exceeded.
    Limit,
    /// A name isn't known.
    Name,
    /// Memory ran out.
    Memory,
}

/// What is to blame.
fn blamed_of(fault: CompileFault<'_>) -> Blamed
    ensures { result ≡ blamed_by fault.entry }
{
    match fault {
        CompileFault::Limit => Blamed::Limit,
        CompileFault::Memory => Blamed::Memory,
        CompileFault::Unknown(_) | CompileFault::Arguments(_) | CompileFault::Target(_) => {
            Blamed::Name
        }
    }
}

/// The procedure of a PROCEDURE, where those before it are compiled.
fn from_procedure(
    alloc: Global,
    names: &Names,
    procedures: &[Procedure],
    procedure: &TextProcedure,
) -> Result<Procedure, Blamed>
    ensures compiled { CompilesBody names.now procedures.now procedure.now result }
    ensures blamed { IfErr result (BlamesBody names.now procedure.now) }
{
    match compile_procedure(alloc, names, procedures, procedure) {
        Ok(procedure) => Ok(procedure),
        Err(fault) => Err(blamed_of(fault)),
    }
}

/// The procedure of the expression at a position of a statement, where those before it are compiled.
fn from_expression(
    alloc: Global,
    names: &Names,
    procedures: &[Procedure],
    statement: &Statement,
    operand: usize,
) -> Result<Procedure, Blamed>
    ensures compiled { CompilesOperand names.now procedures.now statement.now operand result }
    ensures blamed { IfErr result (BlamesOperand names.now statement.now operand) }
{
    match expression_at(statement, operand) {
        Some(expression) => match compile(alloc, names, procedures, expression) {
            Ok(procedure) => Ok(procedure),
            Err(fault) => Err(blamed_of(fault)),
        },
        None => Err(Blamed::Name),
    }
}

/// The procedure of a position of a statement, where those before it are compiled.
fn procedure_of(
    alloc: Global,
    names: &Names,
    procedures: &[Procedure],
    statement: &Statement,
    operand: usize,
) -> Result<Procedure, Blamed>
    ensures compiled { CompilesPosition names.now procedures.now statement.now operand result }
    ensures blamed { IfErr result (BlamesPosition names.now statement.now operand) }
{
    match &statement.body {
        Body::Procedure(procedure) => from_procedure(alloc, names, procedures, procedure),
        Body::Nothing => from_expression(alloc, names, procedures, statement, operand),
        Body::Points(_) => from_expression(alloc, names, procedures, statement, operand),
    }
}

/// Takes note of why nothing is compiled. (Where a name isn't known, that was noted when the names were looked at.)
fn note_blamed(ledger: &mut Ledger, line: u32, blamed: Blamed) -> Result<(), AllocError>
    ensures noted { OnOk result (IsNoted ledger.new) }
    ensures notes { OnOk result (NotesBlamed blamed line ledger.old.least ledger.new.least) }
{
    match blamed {
        Blamed::Limit => {
            ledger.note(line, codes::LIMIT);
            Ok(())
        }
        Blamed::Name => {
            if ledger.is_clear() {
                ledger.note(line, codes::NAME);
            }
            Ok(())
        }
        Blamed::Memory => Err(AllocError),
    }
}

/// A procedure, behind others.
fn put_code(code: &mut Vec<Procedure>, procedure: Procedure) -> Result<(), AllocError>
    ensures { OnOk result (code.new.items ≡ code.old.items ++ procedure ∷ []) }
{
    code.push(procedure).map_err(|_| AllocError)
}

/// Compiles what comes from a position of a statement, behind others, or notes why it isn't compiled.
fn put_procedure(
    alloc: Global,
    plan: &Plan<'_>,
    code: &mut Vec<Procedure>,
    statement: &Statement,
    operand: usize,
    ledger: &mut Ledger,
) -> Result<(), AllocError>
    ensures grown { OnOk result (AddsCode plan.now statement.now operand
        ledger.old ledger.new code.old code.new) }
    ensures notes { OnOk result (plans.NotesCodeAt plan.now statement.now operand ledger.old ledger.new) }
{
    match procedure_of(alloc, &plan.names, code, statement, operand) {
        Ok(procedure) => put_code(code, procedure),
        Err(blamed) => note_blamed(ledger, statement.line, blamed),
    }
}

/// The same for an origin.
fn put_procedure_from(
    alloc: Global,
    plan: &Plan<'_>,
    code: &mut Vec<Procedure>,
    origin: Origin,
    ledger: &mut Ledger,
) -> Result<(), AllocError>
    ensures grown { OnOk result (plans.AddsCodeOf plan.now origin
        ledger.old ledger.new code.old code.new) }
    ensures notes { OnOk result (plans.NotesCodeOf plan.now origin ledger.old ledger.new) }
{
    match plan.text.statements.get(origin.statement) {
        Some(statement) => put_procedure(alloc, plan, code, statement, origin.operand, ledger),
        None => note_blamed(ledger, 0, Blamed::Name),
    }
}

/// The procedures of the origins, in order; what isn't compiled is noted. (More origins than an object has procedures are
/// noted elsewhere.)
pub(crate) fn procedures_of(
    alloc: Global,
    plan: &Plan<'_>,
    ledger: &mut Ledger,
) -> Result<Vec<Procedure>, AllocError>
    ensures compiled { IfOk result (plans.AreProcedures plan.now ledger.old ledger.new) }
    ensures notes { OnOk result (plans.NotesProcedures plan.now ledger.old ledger.new) }
{
    let mut procedures = Vec::new(alloc);
    for place in 0..plan.order.len().min(MOST_PROCEDURES) {
        put_procedure_from(alloc, plan, &mut procedures, plan.order[place], ledger)?;
    }
    Ok(procedures)
}
