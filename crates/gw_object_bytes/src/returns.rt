//! Return rows, in bytes and against the rules of the object format.

ghost use Rattle.std.specs.Prelude.{◌≡◌, ◌↔◌, IsTrue};
ghost use Rattle.std.specs.List.{All};
ghost use Rattle.gw_object.specs.Grammar.{return_row, ReturnRowFits, AreAscending};

use crate::ObjectFormat;
use crate::states::AscendingNumbers;
use gw_field_bytes::{Receiver, Spelled, keys_ascend, put_listed, read_listed};
use gw_fields::{Items, ReadError};
use gw_object::{MOST_BLOCKS, ReturnRow};
use std::alloc::Global;

impl Spelled<ObjectFormat> for ReturnRow {
    ghost spelling = { return_row.spell };

    ghost reading = { return_row.read };

    #[tactic(auto, unfolding(gw_object::specs::Grammar::return_row))]
    fn put<R: Receiver>(&self, to: &mut R) -> Result<(), R::Refusal> {
        put_listed(to, self.blocks.as_slice())
    }

    #[tactic(auto, unfolding(gw_object::specs::Grammar::return_row))]
    fn read(alloc: Global, bytes: &[u8]) -> Result<(ReturnRow, &[u8]), ReadError> {
        let (blocks, rest) = read_listed::<AscendingNumbers>(alloc, bytes, 1, MOST_BLOCKS)?;
        let blocks = Items::from_vec(blocks);
        Ok((ReturnRow { blocks }, rest))
    }
}

/// Whether a return row keeps its limits.
fn row_fits(row: &ReturnRow) -> bool
    ensures { IsTrue result ↔ ReturnRowFits row.now }
{
    let blocks = row.blocks.as_slice();
    1 <= blocks.len() && blocks.len() <= MOST_BLOCKS
}

/// Whether each return row keeps its limits.
pub fn return_rows_fit(rows: &[ReturnRow]) -> bool
    ensures { IsTrue result ↔ All ReturnRowFits rows.now }
{
    rows.iter().all(row_fits)
}

/// Whether the blocks of a return row ascend.
fn is_ascending(row: &ReturnRow) -> bool
    ensures { IsTrue result ↔ AreAscending row.now }
{
    keys_ascend(row.blocks.as_slice())
}

/// Whether the blocks of each return row ascend.
pub fn return_rows_ascend(rows: &[ReturnRow]) -> bool
    ensures { IsTrue result ↔ All AreAscending rows.now }
{
    rows.iter().all(is_ascending)
}
