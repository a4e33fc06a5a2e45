//! The rounds that compute the assembler's state table.

ghost use Rattle.std.specs.Prelude.{◌≡◌, IfOk, None, map, replicate};
ghost use Rattle.gw_settle.specs.Drafts.{rows_held, AreNoted};
ghost use Rattle.gw_settle.specs.Keeps.{IsWell};
ghost use Rattle.gw_settle.specs.Rounds as model;
ghost use Rattle.gw_settle.specs.Settles.{AreFinal};

use crate::draft::{Draft, TableRows, draft_of};
use crate::known::Known;
use crate::leaps::advance;
use crate::pace::Pace;
use crate::table::Change;
use gw_object::{Block, Memory, Parts, chains_in};
use std::alloc::Global;

/// The row of a block at the start.
fn start_row(alloc: Global, block: &Block) -> Result<Option<Known>, Memory>
    ensures { IfOk result (λ row. row ≡ model.start_row block.now) }
{
    match block {
        Block::Generate(_) => Ok(Some(Known::nothing(alloc)?)),
        _ => Ok(None),
    }
}

/// The rows of the blocks at the start.
fn start_blocks(alloc: Global, blocks: &[Block]) -> Result<Vec<Option<Known>>, Memory>
    ensures { IfOk result (λ rows. rows.items ≡ map model.start_row blocks.now) }
{
    let mut rows = Vec::with_capacity(alloc, blocks.len())?;
    for block in blocks {
        rows.push(start_row(alloc, block)?)?;
    }
    Ok(rows)
}

/// No rows, for so many user chains.
fn start_chains(alloc: Global, count: usize) -> Result<Vec<Option<Known>>, Memory>
    ensures { IfOk result (λ rows. rows.items ≡ replicate count None) }
{
    let mut rows = Vec::with_capacity(alloc, count)?;
    for _ in 0..count {
        rows.push(None)?;
    }
    Ok(rows)
}

/// The rows at the start.
fn start_rows(alloc: Global, parts: &Parts) -> Result<TableRows, Memory>
    ensures { IfOk result (λ rows. rows_held rows ≡ model.start parts.now) }
{
    let blocks = start_blocks(alloc, parts.blocks.as_slice())?;
    let chains = start_chains(alloc, chains_in(parts.entities.as_slice()))?;
    Ok(TableRows { blocks, chains })
}

/// Visits the blocks that are marked in rounds, until one changes nothing.
fn settle_rows(alloc: Global, parts: &Parts, draft: &mut Draft) -> Result<(), Memory>
    requires well { IsWell parts.now }
    requires noted { AreNoted parts.now draft.old }
    requires start { rows_held draft.old.rows ≡ model.start parts.now }
    ensures { IfOk result (λ _. AreFinal parts.now (rows_held draft.new.rows)) }
{
    let mut pace = Pace::new();
    'more: loop {
        'less: loop {
            match advance(alloc, parts, draft, &mut pace)? {
                Change::Same => return Ok(()),
                Change::Less => {}
                Change::More => break 'less,
            }
        }
    }
}

/// The rows of the assembler's state table: those after as many rounds as change something.
pub(crate) fn settled_rows(alloc: Global, parts: &Parts) -> Result<TableRows, Memory>
    requires { IsWell parts.now }
    ensures { IfOk result (λ rows. AreFinal parts.now (rows_held rows)) }
{
    let rows = start_rows(alloc, parts)?;
    let mut draft = draft_of(alloc, parts, rows)?;
    settle_rows(alloc, parts, &mut draft)?;
    Ok(draft.rows)
}
