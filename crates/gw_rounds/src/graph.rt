//! Blocks, and the steps between them on which no time passes.

ghost use Rattle.std.specs.Prelude.{◌≡◌, ◌≤◌, option_map};
ghost use Rattle.gw_rules.specs.Kinds as kinds;

use gw_object::{Block, Link, Memory, Parts, TableState};
use gw_rules::{Exit, Way, chain_row, exits};
use gw_weights::{blocks_read, goes_at_once, own_row};
use std::alloc::Global;

/// The greatest number of a block.
const MOST_BLOCKS: usize = 4096;

/// How a step leads to the next block.
#[derive(Clone, Copy, PartialEq, Eq)]
pub(crate) enum Passage {
    /// Along an exit of the block.
    Exit(Way),
    /// Back from a subroutine, to behind a call of it.
    Return,
    /// Out of the user chain that is joined here, by the UNLINK that is the block of this number.
    Chain(u16),
}

/// A step from a block to another on which no time passes.
#[derive(Clone, Copy, PartialEq, Eq)]
pub(crate) struct Step {
    /// The number of the block from which it leads.
    pub(crate) from: u16,
    /// The number of that to which it leads.
    pub(crate) to: u16,
    /// How it leads there.
    pub(crate) by: Passage,
}

/// Blocks, and the steps between them on which no time passes.
#[derive(Drop)]
pub(crate) struct Graph {
    /// The steps: those of a block behind those of the one before.
    steps: Vec<Step>,
    /// For each number of a block, from 0 on, which is of none, how many steps come before its own; and how many there are.
    starts: Vec<usize>,
}

/// The block of a number, from 1, if it is there.
pub(crate) fn block_at(parts: &Parts, number: u16) -> Option<&Block>
    ensures { option_map (λ block. block.now) result ≡ kinds.block_at parts.now.blocks number }
{
    if number == 0 {
        return None;
    }
    parts.blocks.as_slice().get(number as usize - 1)
}

/// The block of a number, from 1, if it is there and has a row of the state table.
pub(crate) fn block_with_row(parts: &Parts, number: u16) -> Option<&Block> {
    if own_row(parts, number).is_some() {
        block_at(parts, number)
    } else {
        None
    }
}

/// The number of the last block.
pub(crate) fn last_number(parts: &Parts) -> u16
    ensures { result ≤ 4096 }
{
    parts.blocks.as_slice().len().min(MOST_BLOCKS) as u16
}

/// The number of the block to which a way leads from the block of this number.
fn number_behind(number: u16, way: Way) -> u16 {
    match way {
        Way::Falls => number.saturating_add(1),
        Way::Goes(target) => target,
    }
}

/// The target of an UNLINK from a user chain that has a row of the state table itself, if the block of this number is one.
fn target_from(parts: &Parts, number: u16, chain: u16) -> Option<u16> {
    match block_with_row(parts, number) {
        Some(Block::Unlink(unlink)) if unlink.chain == chain => Some(unlink.target),
        _ => None,
    }
}

impl Graph {
    /// That of parts with these blocks, and with these rows of the state table.
    pub(crate) fn of(alloc: Global, parts: &Parts) -> Result<Graph, Memory> {
        let mut graph = Graph {
            steps: Vec::new(alloc),
            starts: Vec::new(alloc),
        };
        graph.starts.push(0)?;
        for number in 1..last_number(parts) + 1 {
            graph.add_block(parts, number)?;
        }
        let count = graph.steps.len();
        graph.starts.push(count)?;
        Ok(graph)
    }

    /// Adds the steps from the block of this number, if it has a row.
    fn add_block(&mut self, parts: &Parts, number: u16) -> Result<(), Memory> {
        let count = self.steps.len();
        self.starts.push(count)?;
        match (block_at(parts, number), own_row(parts, number)) {
            (Some(block), Some(row)) => self.add_steps(parts, number, block, row),
            _ => Ok(()),
        }
    }

    /// Adds the steps from a block with this row.
    fn add_steps(
        &mut self,
        parts: &Parts,
        number: u16,
        block: &Block,
        row: &TableState,
    ) -> Result<(), Memory> {
        match block {
            Block::TransferByParameter(parameter) => {
                let callers = blocks_read(parts.returns.as_slice(), row, *parameter);
                self.add_returns(number, callers)
            }
            Block::Link(link) => self.add_members(parts, number, link),
            _ => {
                self.add_exits(number, &exits(block))?;
                self.put_lower_first(number);
                Ok(())
            }
        }
    }

    /// Adds the steps along exits on which no time passes.
    fn add_exits(&mut self, number: u16, exits: &[Exit]) -> Result<(), Memory> {
        for exit in exits {
            if goes_at_once(*exit) {
                self.steps.push(Step {
                    from: number,
                    to: number_behind(number, exit.way),
                    by: Passage::Exit(exit.way),
                })?;
            }
        }
        Ok(())
    }

    /// Puts the one of the last two steps first that leads to the lower number, if both are of this block.
    fn put_lower_first(&mut self, number: u16) {
        if let [.., first, second] = self.steps.as_mut_slice() {
            if first.from == number && second.from == number && second.to < first.to {
                let lower = *second;
                *second = *first;
                *first = lower;
            }
        }
    }

    /// Adds the steps to behind these callers.
    fn add_returns(&mut self, number: u16, callers: &[u16]) -> Result<(), Memory> {
        for caller in callers {
            self.steps.push(Step {
                from: number,
                to: caller.saturating_add(1),
                by: Passage::Return,
            })?;
        }
        Ok(())
    }

    /// Adds the steps out of the user chain that a LINK joins.
    fn add_members(&mut self, parts: &Parts, number: u16, link: &Link) -> Result<(), Memory> {
        if chain_row(parts, link.chain).is_none() {
            return Ok(());
        }
        for unlink in 1..last_number(parts) + 1 {
            if let Some(target) = target_from(parts, unlink, link.chain) {
                self.steps.push(Step {
                    from: number,
                    to: target,
                    by: Passage::Chain(unlink),
                })?;
            }
        }
        Ok(())
    }

    /// How many steps come before those of this number.
    fn start_of(&self, place: usize) -> usize {
        self.starts.get(place).copied().unwrap_or(0)
    }

    /// The steps from the block of this number.
    pub(crate) fn steps_from(&self, number: u16) -> &[Step] {
        let first = self.start_of(number as usize);
        let end = self.start_of(number as usize + 1);
        if first <= end && end <= self.steps.len() {
            &self.steps[first..end]
        } else {
            &[]
        }
    }

    /// The first step from one block to another, if there is one.
    pub(crate) fn step_between(&self, from: u16, to: u16) -> Option<Step> {
        for step in self.steps_from(from) {
            if step.to == to {
                return Some(*step);
            }
        }
        None
    }
}
