//! The procedures that operands call.

ghost use Rattle.std.specs.Prelude.{◌≡◌};
ghost use Rattle.gw_rules.specs.Sources as evaluation;
ghost use Rattle.gw_rules.specs.Kinds as model;

use gw_object::{Block, Operand, Procedure};
use gw_rules::values;

/// The procedure that an operand calls, if it is a call.
pub(crate) fn procedure_named(operand: &Operand) -> Option<u16>
    ensures { result ≡ evaluation.procedure_named operand.now }
{
    match operand {
        Operand::Procedure(procedure) => Some(*procedure),
        _ => None,
    }
}

/// Whether a procedure that is called without arguments takes none; one that isn't there has no say.
pub(crate) fn takes_no_arguments(procedures: &[Procedure], number: u16) -> bool
    ensures { result ≡ model.takes_no_arguments procedures.now number }
{
    procedures
        .get(number as usize)
        .is_none_or(|procedure| procedure.arguments == 0)
}

/// Whether a procedure is there.
pub(crate) fn is_procedure(procedures: &[Procedure], number: u16) -> bool
    ensures { result ≡ model.is_procedure procedures.now number }
{
    (number as usize) < procedures.len()
}

/// Whether none of the procedures that the values of a block call takes arguments.
pub(crate) fn calls_without_arguments(procedures: &[Procedure], block: &Block) -> bool
    ensures { result ≡ model.calls_without_arguments procedures.now block.now }
{
    values(block)
        .as_slice()
        .iter()
        .filter_map(procedure_named)
        .all(|called| takes_no_arguments(procedures, called))
}

/// Whether the procedures that the values of a block call are there.
pub(crate) fn called_are_there(procedures: &[Procedure], block: &Block) -> bool
    ensures { result ≡ model.called_are_there procedures.now block.now }
{
    values(block)
        .as_slice()
        .iter()
        .filter_map(procedure_named)
        .all(|called| is_procedure(procedures, called))
}
