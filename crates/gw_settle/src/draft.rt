//! A state table in the making, with what rounds over its blocks note.

ghost use Rattle.std.specs.Prelude.{◌≡◌, IfOk, length};
ghost use Rattle.gw_settle.specs.Drafts.{rows_held, AreNoted};

use crate::known::Known;
use crate::passing::{Latest, NO_LATEST};
use gw_object::{Memory, Parts};
use std::alloc::Global;

/// The rows of a state table.
#[derive(Drop)]
pub(crate) struct TableRows {
    /// The rows of the blocks, in order.
    pub blocks: Vec<Option<Known>>,
    /// The rows of those entities that are user chains, in order.
    pub chains: Vec<Option<Known>>,
}

/// Rows in the making.
#[derive(Drop)]
pub(crate) struct Draft {
    /// The rows.
    pub rows: TableRows,
    /// Which blocks are to be visited, in order.
    pub marks: Vec<bool>,
    /// The versions of the blocks' rows, in order.
    pub versions: Vec<u64>,
    /// The newest version that was given.
    pub newest: u64,
    /// What was found out last of two versions.
    pub latest: Latest,
    /// The place, from 0, of the TRANSFER in parameter mode that was visited last.
    pub returned: usize,
}

/// A draft of these rows: each block is to be visited.
pub(crate) fn draft_of(alloc: Global, parts: &Parts, rows: TableRows) -> Result<Draft, Memory>
    requires { length rows.blocks.items ≡ length parts.now.blocks }
    ensures rows { IfOk result (λ draft. rows_held draft.rows ≡ rows_held rows) }
    ensures noted { IfOk result (AreNoted parts.now) }
{
    let count = parts.blocks.as_slice().len();
    let marks = vec![in alloc; true; count]?;
    let versions = vec![in alloc; 0; count]?;
    Ok(Draft {
        rows,
        marks,
        versions,
        newest: 0,
        latest: NO_LATEST,
        returned: 0,
    })
}

/// The row at a place once more, if there is one.
fn place_shared(place: &Option<Known>) -> Result<Option<Known>, Memory>
    ensures { IfOk result (λ row. row ≡ place.now) }
{
    match place {
        Some(row) => Ok(Some(row.share()?)),
        None => Ok(None),
    }
}

/// Rows once more.
fn places_shared(alloc: Global, rows: &[Option<Known>]) -> Result<Vec<Option<Known>>, Memory>
    ensures { IfOk result (λ all. all.items ≡ rows.now) }
{
    let mut all = Vec::with_capacity(alloc, rows.len())?;
    for row in rows {
        all.push(place_shared(row)?)?;
    }
    Ok(all)
}

/// The rows of a table once more.
pub(crate) fn rows_shared(alloc: Global, rows: &TableRows) -> Result<TableRows, Memory>
    ensures { IfOk result (λ all. rows_held all ≡ rows_held rows.now) }
{
    let blocks = places_shared(alloc, &rows.blocks)?;
    let chains = places_shared(alloc, &rows.chains)?;
    Ok(TableRows { blocks, chains })
}
