//! The shortest ways along steps.

use crate::counting::{Marks, jump_of};
use crate::graph::{Graph, Step, last_number};
use gw_object::{Memory, Parts};
use std::alloc::Global;

/// Which steps aren't gone.
#[derive(Clone, Copy, PartialEq, Eq)]
pub(crate) enum Without {
    /// All are gone.
    Nothing,
    /// Not the jumps of LOOPs.
    Jumps,
    /// Not the jumps of LOOPs by this parameter.
    JumpsBy(u8),
}

/// Blocks, and the steps between them that are gone.
#[derive(Clone, Copy)]
pub(crate) struct Field<'a> {
    /// The allocator.
    pub(crate) alloc: Global,
    /// The entities and blocks, with their state table.
    pub(crate) parts: &'a Parts,
    /// All steps.
    pub(crate) graph: &'a Graph,
}

/// The blocks to which a search came, from one of them on.
#[derive(Drop)]
struct Walk {
    /// Their numbers, the nearest first.
    order: Vec<u16>,
    /// For each number of a block, from 0 on, that of the block from which the search came there; 0 where it didn't come.
    origins: Vec<u16>,
}

impl Walk {
    /// The search that begins at a block, among those of numbers up to the last.
    fn at(alloc: Global, last: u16, start: u16) -> Result<Walk, Memory> {
        let mut walk = Walk {
            order: Vec::new(alloc),
            origins: vec![in alloc; 0; last as usize + 1]?,
        };
        walk.come_to(start, start)?;
        Ok(walk)
    }

    /// From where the search came to a block; 0 where it didn't come.
    fn origin_of(&self, number: u16) -> u16 {
        self.origins.get(number as usize).copied().unwrap_or(0)
    }

    /// Comes to a block from another, unless it did before.
    fn come_to(&mut self, from: u16, to: u16) -> Result<(), Memory> {
        if let Some(origin) = self.origins.get_mut(to as usize) {
            if *origin == 0 {
                *origin = from;
                self.order.push(to)?;
            }
        }
        Ok(())
    }

    /// The blocks on the way to one to which the search came, that one the last.
    fn path_to(&self, alloc: Global, number: u16) -> Result<Vec<u16>, Memory> {
        let mut path = Vec::new(alloc);
        let mut at = number;
        for _ in 0..self.order.len() {
            path.push(at)?;
            let origin = self.origin_of(at);
            if origin == at {
                break;
            }
            at = origin;
        }
        path.reverse();
        Ok(path)
    }
}

impl<'a> Field<'a> {
    /// Whether a step is gone.
    fn is_gone(&self, step: Step, without: Without) -> bool {
        match without {
            Without::Nothing => true,
            Without::Jumps => jump_of(self.parts, step).is_none(),
            Without::JumpsBy(parameter) => jump_of(self.parts, step) != Some(parameter),
        }
    }

    /// Goes all steps from a block.
    fn go_on(&self, walk: &mut Walk, number: u16, without: Without) -> Result<(), Memory> {
        for step in self.graph.steps_from(number) {
            if self.is_gone(*step, without) {
                walk.come_to(number, step.to)?;
            }
        }
        Ok(())
    }

    /// The search from a block on.
    fn walk_from(&self, start: u16, without: Without) -> Result<Walk, Memory> {
        let last = last_number(self.parts);
        let mut walk = Walk::at(self.alloc, last, start)?;
        for i in 0..last as usize {
            match walk.order.get(i).copied() {
                Some(number) => self.go_on(&mut walk, number, without)?,
                None => break,
            }
        }
        Ok(walk)
    }

    /// The shortest round that begins with the step from a block to another, if there is one. The step is one that is gone.
    pub(crate) fn round_over(
        &self,
        from: u16,
        to: u16,
        without: Without,
    ) -> Result<Option<Vec<u16>>, Memory> {
        let walk = self.walk_from(to, without)?;
        if walk.origin_of(from) == 0 {
            return Ok(None);
        }
        Ok(Some(walk.path_to(self.alloc, from)?))
    }

    /// Whether a step from a block to another is gone.
    pub(crate) fn leads(&self, from: u16, to: u16, without: Without) -> bool {
        for step in self.graph.steps_from(from) {
            if step.to == to && self.is_gone(*step, without) {
                return true;
            }
        }
        false
    }

    /// The shortest round on which a block is, if there is one.
    fn round_through(&self, number: u16, without: Without) -> Result<Option<Vec<u16>>, Memory> {
        let walk = self.walk_from(number, without)?;
        for last in &walk.order {
            if self.leads(*last, number, without) {
                return Ok(Some(walk.path_to(self.alloc, *last)?));
            }
        }
        Ok(None)
    }

    /// Whether a step leads from a block to a marked one.
    fn leads_to_marked(&self, marks: &Marks, number: u16, without: Without) -> bool {
        for step in self.graph.steps_from(number) {
            if marks.has(step.to) && self.is_gone(*step, without) {
                return true;
            }
        }
        false
    }

    /// Takes the marks of all blocks away from which no step leads to a marked one, and tells whether there was one.
    fn thin_out(&self, marks: &mut Marks, without: Without) -> bool {
        let last = last_number(self.parts);
        let mut is_thinner = false;
        for i in 0..last {
            let number = last - i;
            if marks.has(number) && !self.leads_to_marked(marks, number, without) {
                marks.put(number, false);
                is_thinner = true;
            }
        }
        is_thinner
    }

    /// The blocks from which some way comes to a round.
    fn blocks_before_rounds(&self, without: Without) -> Result<Marks, Memory> {
        let last = last_number(self.parts);
        let mut marks = Marks::new(self.alloc, last, true)?;
        for _ in 0..last {
            if !self.thin_out(&mut marks, without) {
                break;
            }
        }
        Ok(marks)
    }

    /// Marks the blocks to which steps from a block lead back, or to itself.
    fn mark_behind(&self, marks: &mut Marks, number: u16, without: Without) {
        for step in self.graph.steps_from(number) {
            if step.to <= number && self.is_gone(*step, without) {
                marks.put(step.to, true);
            }
        }
    }

    /// The blocks to which steps lead back: each round has one.
    fn blocks_led_back_to(&self, without: Without) -> Result<Marks, Memory> {
        let last = last_number(self.parts);
        let mut marks = Marks::new(self.alloc, last, false)?;
        for number in 1..last + 1 {
            self.mark_behind(&mut marks, number, without);
        }
        Ok(marks)
    }

    /// The shortest round through the first of these blocks that is on one and to which a step leads back.
    pub(crate) fn first_round(
        &self,
        order: &[u16],
        without: Without,
    ) -> Result<Option<Vec<u16>>, Memory> {
        let leading = self.blocks_before_rounds(without)?;
        let led_to = self.blocks_led_back_to(without)?;
        for number in order {
            if leading.has(*number) && led_to.has(*number) {
                let round = self.round_through(*number, without)?;
                if round.is_some() {
                    return Ok(round);
                }
            }
        }
        Ok(None)
    }

    /// The blocks to which one comes, the nearest first.
    pub(crate) fn order_from(&self, start: u16) -> Result<Vec<u16>, Memory> {
        let walk = self.walk_from(start, Without::Nothing)?;
        Vec::from_slice(self.alloc, &walk.order)
    }

    /// All blocks: first those to which one comes, the nearest first, and then the others.
    pub(crate) fn all_from(&self, start: u16) -> Result<Vec<u16>, Memory> {
        let walk = self.walk_from(start, Without::Nothing)?;
        let mut order = Vec::from_slice(self.alloc, &walk.order)?;
        for number in 1..last_number(self.parts) + 1 {
            if walk.origin_of(number) == 0 {
                order.push(number)?;
            }
        }
        Ok(order)
    }
}
