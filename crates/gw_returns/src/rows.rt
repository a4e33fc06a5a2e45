//! Return rows by their numbers.

ghost use Rattle.std.specs.Prelude.{◌≡◌};
ghost use Rattle.gw_object.specs.Returns.{row_blocks};

use gw_object::ReturnRow;

/// The blocks of the return row of a number; none where there is no such row.
pub(crate) fn blocks_of(rows: &[ReturnRow], number: usize) -> &[u16]
    ensures { result.now ≡ row_blocks rows.now number }
{
    match rows.get(number) {
        Some(row) => row.blocks.as_slice(),
        None => &[],
    }
}
