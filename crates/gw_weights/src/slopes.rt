//! What slopes need: that the parameter of each is known to be a number.

ghost use Rattle.std.specs.Prelude.{◌≡◌, Some};
ghost use Rattle.gw_rules.specs.Checks.{Finds};
ghost use Rattle.gw_rules.specs.Rows.{kind_of};
ghost use Rattle.gw_rules.specs.Seen.{kind_said, row_meaning};
ghost use Rattle.gw_rules.specs.Weights as model;

use crate::returns::parameter_of;
use gw_object::{Fault, Parts, Place, TableKind, TableState};
use gw_rules::weights_codes::SLOPE_PARAM;
use gw_rules::{check, slope_at};

/// Whether what a row says of a parameter is that it holds a number.
fn is_number_kind(parts: &Parts, kind: TableKind) -> bool
    ensures { result ≡ model.is_number (Some (kind_said parts.now.returns kind)) }
{
    match kind {
        TableKind::Num => true,
        TableKind::Ret(_) => false,
    }
}

/// Whether a row of the state table knows of a parameter that it is a number.
fn is_number(parts: &Parts, row: &TableState, parameter: u8) -> bool
    ensures { result ≡ model.is_number (kind_of (row_meaning parts.now.returns row.now) parameter) }
{
    match parameter_of(row.parameters.as_slice(), parameter) {
        Some(set) => is_number_kind(parts, set.kind),
        None => false,
    }
}

/// The fault of the slope of the block of this number, if it has one, on a parameter that isn't known to be a number in its
/// row of the state table.
pub(crate) fn check_slope_in(parts: &Parts, number: u16, row: &TableState) -> Result<(), Fault>
    ensures { Finds result (model.slope_checks parts.now number (Some (row_meaning parts.now.returns row.now))) }
{
    match slope_at(parts.slopes.as_slice(), number) {
        Some((parameter, _)) => check(
            SLOPE_PARAM,
            Place::Block(number),
            is_number(parts, row, parameter),
        ),
        None => Ok(()),
    }
}
