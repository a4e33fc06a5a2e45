//! Which return rows are within which others.

ghost use Rattle.std.specs.Prelude.{◌≡◌, ◌≤◌, IfOk, length};
ghost use Rattle.gw_object.specs.Returns.{lists, are_among, row_blocks};
ghost use Rattle.gw_returns.specs.Columns.{AreBelow};

use crate::columns::{WIDTH, columns, word_in};
use crate::rows::blocks_of;
use crate::words::has_bit;
use gw_object::{Memory, ReturnRow};
use std::alloc::Global;
use std::marker::Model;

/// Return rows, and which of them are within which others: found once for all of them, and looked up by their numbers.
#[derive(Drop)]
pub struct Inclusions<'a> {
    rows: &'a [ReturnRow],
    /// For each 64 rows, for each row, a bit for each of the 64 that it is within.
    columns: Vec<Vec<u64>>,
}

impl<'a> Model for Inclusions<'a> {
    ghost use Rattle.std.specs.Prelude.{List};
    ghost use Rattle.gw_object.specs.declared.parts.ReturnRow.{ReturnRow};
    ghost use Rattle.gw_returns.specs.Columns.{AreColumns};

    ghost Value = { List ReturnRow };

    ghost view = { λ s. s.rows.now };

    ghost invariant = { λ s. AreColumns s.rows.now s.columns.items };
}

impl<'a> Inclusions<'a> {
    /// The inclusions of return rows whose blocks are below a bound. It takes a word for each 64 pairs of rows, and one more
    /// for each block below the bound. `Memory` where it runs out.
    pub fn of(alloc: Global, rows: &'a [ReturnRow], bound: usize) -> Result<Inclusions<'a>, Memory>
        requires blocks { AreBelow bound rows.now }
        requires few { length rows.now ≤ 65536 }
        ensures { IfOk result (λ known. known ≡ rows.now) }
    {
        let columns = columns(alloc, rows, bound)?;
        Ok(Inclusions { rows, columns })
    }

    /// The return rows.
    pub fn rows(&self) -> &'a [ReturnRow]
        ensures { result.now ≡ self.now }
    {
        self.rows
    }

    /// The blocks of the return row of a number; none where there is no such row.
    pub fn blocks(&self, row: u16) -> &'a [u16]
        ensures { result.now ≡ row_blocks self.now row }
    {
        blocks_of(self.rows, row as usize)
    }

    /// Whether the return row of a number has a block.
    pub fn has(&self, row: u16, block: u16) -> bool
        ensures { result ≡ lists (row_blocks self.now row) block }
    {
        self.blocks(row).contains(&block)
    }

    /// Whether each block of a return row is in another one.
    pub fn is_within(&self, row: u16, other: u16) -> bool
        ensures { result ≡ are_among (row_blocks self.now row) (row_blocks self.now other) }
    {
        let at = row as usize;
        let place = other as usize;
        if at < self.rows.len() && place < self.rows.len() {
            let word = word_in(&self.columns, place / WIDTH, at);
            has_bit(word, place % WIDTH)
        } else {
            blocks_of(self.rows, at).is_empty()
        }
    }
}
