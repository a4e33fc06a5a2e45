//! From where each block is come to at once.

ghost use Rattle.std.specs.Prelude.{◌<◌, ◌≤◌, length};

use gw_object::{Block, Memory, Parts, ReturnRow, TableKind, TableState};
use gw_rules::{Exit, exits, leads_to};
use gw_weights::{goes_at_once, own_row, parameter_of};
use std::alloc::Global;

/// A way from one place to another.
#[derive(Clone, Copy, PartialEq, Eq)]
struct Source {
    /// The place from which it leads.
    from: usize,
    /// The number of the next way to the same place, or of none.
    next: usize,
}

/// From where each place is come to at once. The places are those of the blocks, from 0, and behind them those of the return
/// rows: a return leads to its row, and that to the blocks behind its calls. Nothing rests on it but how soon marks are found.
#[derive(Drop)]
pub(crate) struct Sources {
    /// For each place the number of the first way to it, or of none.
    first: Vec<usize>,
    /// The ways.
    ways: Vec<Source>,
}

/// The number of no way.
const NONE: usize = usize::MAX;

/// The return row that a block reads by this row of the state table, if it returns.
fn row_read(block: &Block, row: &TableState) -> Option<u16> {
    let Block::TransferByParameter(held) = block else {
        return None;
    };
    match parameter_of(row.parameters.as_slice(), *held)?.kind {
        TableKind::Num => None,
        TableKind::Ret(row) => Some(row),
    }
}

impl Sources {
    /// Those of the blocks of an object.
    pub(crate) fn of(alloc: Global, parts: &Parts) -> Result<Sources, Memory>
        requires { length parts.now.blocks ≤ 4096 }
    {
        let blocks = parts.blocks.as_slice().len();
        let rows = parts.returns.as_slice();
        let mut sources = Sources {
            first: vec![in alloc; NONE; blocks + rows.len()]?,
            ways: Vec::new(alloc),
        };
        sources.add_blocks(parts)?;
        sources.add_rows(blocks, rows)?;
        Ok(sources)
    }

    /// Adds a way.
    fn add(&mut self, from: usize, to: usize) -> Result<(), Memory> {
        let number = self.ways.len();
        if let Some(first) = self.first.get_mut(to) {
            let next = *first;
            *first = number;
            self.ways.push(Source { from, next })?;
        }
        Ok(())
    }

    /// Adds the way along an exit of the block at a place, if somebody goes along it at once.
    fn add_exit(&mut self, place: usize, exit: Exit) -> Result<(), Memory>
        requires { place < 4096 }
    {
        if !goes_at_once(exit) {
            return Ok(());
        }
        let target = leads_to((place + 1) as u16, exit.way);
        self.add(place, (target as usize).wrapping_sub(1))
    }

    /// Adds the ways along these exits of the block at a place.
    fn add_exits(&mut self, place: usize, exits: &[Exit]) -> Result<(), Memory>
        requires { place < 4096 }
    {
        for exit in exits {
            self.add_exit(place, *exit)?;
        }
        Ok(())
    }

    /// Adds the ways from the block at a place.
    fn add_block(&mut self, parts: &Parts, place: usize, block: &Block) -> Result<(), Memory>
        requires { place < 4096 }
    {
        let Some(row) = own_row(parts, (place + 1) as u16) else {
            return Ok(());
        };
        if let Some(number) = row_read(block, row) {
            self.add(place, parts.blocks.as_slice().len() + number as usize)?;
        }
        self.add_exits(place, &exits(block))
    }

    /// Adds the ways from all blocks.
    fn add_blocks(&mut self, parts: &Parts) -> Result<(), Memory>
        requires { length parts.now.blocks ≤ 4096 }
    {
        let blocks = parts.blocks.as_slice();
        for i in 0..blocks.len() {
            self.add_block(parts, i, &blocks[i])?;
        }
        Ok(())
    }

    /// Adds the ways from the return row at a place to the blocks behind its calls.
    fn add_row(&mut self, place: usize, callers: &[u16]) -> Result<(), Memory> {
        for caller in callers {
            self.add(place, *caller as usize)?;
        }
        Ok(())
    }

    /// Adds the ways from all return rows, whose places begin behind so many blocks.
    fn add_rows(&mut self, blocks: usize, rows: &[ReturnRow]) -> Result<(), Memory>
        requires { blocks ≤ 4096 }
    {
        for i in 0..rows.len() {
            self.add_row(blocks + i, rows[i].blocks.as_slice())?;
        }
        Ok(())
    }

    /// How many places there are.
    pub(crate) fn places(&self) -> usize {
        self.first.len()
    }

    /// Adds to these places those from which a place is come to.
    pub(crate) fn put(&self, places: &mut Vec<usize>, place: usize) -> Result<(), Memory> {
        let mut number = self.first.get(place).copied().unwrap_or(NONE);
        for _ in 0..self.ways.len() {
            let Some(way) = self.ways.get(number) else {
                return Ok(());
            };
            places.push(way.from)?;
            number = way.next;
        }
        Ok(())
    }
}
