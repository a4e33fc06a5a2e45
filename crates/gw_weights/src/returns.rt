//! The blocks to which the returns lead that TRANSFER blocks in parameter mode read.

ghost use Rattle.std.specs.Prelude.{◌≡◌, ◌==◌, Some};
ghost use Rattle.std.specs.List.{find};
ghost use Rattle.gw_rules.specs.Rows.{kind_of, return_blocks};
ghost use Rattle.gw_rules.specs.Seen.{row_meaning, kind_said, row_blocks};

use gw_object::{ReturnRow, TableKind, TableParameter, TableState};

/// The blocks of the return row of this number, from 0; none where there is no such row.
fn blocks_of_row(returns: &[ReturnRow], number: u16) -> &[u16]
    ensures { result.now ≡ row_blocks returns.now number }
{
    match returns.get(number as usize) {
        Some(row) => row.blocks.as_slice(),
        None => &[],
    }
}

/// The blocks to one of which a parameter returns that holds what a row says, if that is a return.
fn blocks_of_kind(returns: &[ReturnRow], kind: TableKind) -> &[u16]
    ensures { result.now ≡ return_blocks (Some (kind_said returns.now kind)) }
{
    match kind {
        TableKind::Num => &[],
        TableKind::Ret(row) => blocks_of_row(returns, row),
    }
}

/// The parameter of this number among those that are set, if it is (ours: docs/object-format.md).
pub fn parameter_of(parameters: &[TableParameter], number: u8) -> Option<TableParameter>
    ensures { result ≡ find (λ set. set.number == number) parameters.now }
{
    for parameter in parameters {
        if parameter.number == number {
            return Some(*parameter);
        }
    }
    None
}

/// The blocks to one of which this parameter returns by a row of the state table, if that says that it holds a return
/// (ours: docs/object-format.md).
pub fn blocks_read<'a>(returns: &'a [ReturnRow], row: &TableState, parameter: u8) -> &'a [u16]
    ensures { result.now ≡ return_blocks (kind_of (row_meaning returns.now row.now) parameter) }
{
    match parameter_of(row.parameters.as_slice(), parameter) {
        Some(set) => blocks_of_kind(returns, set.kind),
        None => &[],
    }
}
