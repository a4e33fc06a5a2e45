//! Columns: for 64 return rows at a time, which rows are within each of them.

ghost use Rattle.std.specs.Prelude.{◌≡◌, ◌≤◌, ◌<◌, [], IfOk, get_or, length};
ghost use Rattle.gw_returns.specs.Words.{word_at};
ghost use Rattle.gw_returns.specs.Columns as model;

use crate::rows::blocks_of;
use crate::words::{common, no_bits, set_bits};
use gw_object::{Memory, ReturnRow};
use std::alloc::Global;

/// How many rows a word tells of.
pub(crate) const WIDTH: usize = 64;

/// Sets the bits that tell which rows have a block, of the 64 from this one, in the block's word.
fn tell_holders(words: &mut [u64], rows: &[ReturnRow], first: usize)
    requires blocks { model.AreBelow (length words.old) rows.now }
    requires first { first ≤ 65536 }
    requires none { model.TellHolders rows.now first 0 words.old }
    ensures all { model.TellHolders rows.now first 64 words.new }
    ensures length { length words.new ≡ length words.old }
{
    for place in 0..WIDTH {
        set_bits(words, blocks_of(rows, first + place), place);
    }
}

/// For each block below this bound, which rows have it, of the 64 from this one.
fn holders(
    alloc: Global,
    rows: &[ReturnRow],
    first: usize,
    bound: usize,
) -> Result<Vec<u64>, Memory>
    requires blocks { model.AreBelow bound rows.now }
    requires first { first ≤ 65536 }
    ensures words { IfOk result (λ words. model.TellHolders rows.now first 64 words.items) }
    ensures length { IfOk result (λ words. length words.items ≡ bound) }
{
    let mut words = no_bits(alloc, bound)?;
    tell_holders(&mut words, rows, first);
    Ok(words)
}

/// For each row, which of the 64 rows from this one it is within.
fn column(alloc: Global, rows: &[ReturnRow], first: usize, bound: usize) -> Result<Vec<u64>, Memory>
    requires blocks { model.AreBelow bound rows.now }
    requires first { first ≤ 65536 }
    ensures { IfOk result (λ words. model.IsColumn rows.now first words.items) }
{
    let holders = holders(alloc, rows, first, bound)?;
    let mut words = Vec::with_capacity(alloc, rows.len())?;
    for row in rows {
        words.push(common(&holders, row.blocks.as_slice()))?;
    }
    Ok(words)
}

/// The word of the row at a place, in the column of a number.
pub(crate) fn word_in(columns: &[Vec<u64>], number: usize, at: usize) -> u64
    requires number { number < length columns.now }
    requires at { at < length (get_or (model.words_of columns.now) number []) }
    ensures { result ≡ word_at (get_or (model.words_of columns.now) number []) at }
{
    columns[number][at]
}

/// The columns of return rows whose blocks are below a bound: one for each 64 rows.
pub(crate) fn columns(
    alloc: Global,
    rows: &[ReturnRow],
    bound: usize,
) -> Result<Vec<Vec<u64>>, Memory>
    requires blocks { model.AreBelow bound rows.now }
    requires few { length rows.now ≤ 65536 }
    ensures { IfOk result (λ all. model.AreColumns rows.now all.items) }
{
    let mut all = Vec::new(alloc);
    let count = rows.len().div_ceil(WIDTH);
    for k in 0..count {
        all.push(column(alloc, rows, k * WIDTH, bound)?)?;
    }
    Ok(all)
}
