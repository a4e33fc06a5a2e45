//! What steps do to parameters by which LOOPs count.

use crate::graph::{Graph, Passage, Step, block_at, block_with_row, last_number};
use gw_object::{Block, Memory, Parts};
use gw_rules::{Treatment, changed_parameter, treats};
use std::alloc::Global;

/// The parameter by which a LOOP counts that has a row of the state table, if the block of this number is one.
pub(crate) fn counter_at(parts: &Parts, number: u16) -> Option<u8> {
    match block_with_row(parts, number) {
        Some(Block::Loop(counted)) => Some(counted.parameter),
        _ => None,
    }
}

/// Whether some LOOP that has a row counts by a parameter.
pub(crate) fn is_counted_by(parts: &Parts, parameter: u8) -> bool {
    for number in 1..last_number(parts) + 1 {
        if counter_at(parts, number) == Some(parameter) {
            return true;
        }
    }
    false
}

/// What a step does to a parameter: members of a user chain have any value there.
pub(crate) fn treatment_on(parts: &Parts, step: Step, parameter: u8) -> Treatment {
    match (block_at(parts, step.from), step.by) {
        (Some(block), Passage::Exit(way)) => treats(block, way, parameter),
        (_, Passage::Chain(_)) => Treatment::Changes,
        _ => Treatment::Keeps,
    }
}

/// The parameter of a LOOP that jumps by this step.
pub(crate) fn jump_of(parts: &Parts, step: Step) -> Option<u8> {
    match block_at(parts, step.from) {
        Some(Block::Loop(counted))
            if treatment_on(parts, step, counted.parameter) == Treatment::Lowers => {
            Some(counted.parameter)
        }
        _ => None,
    }
}

/// Whether a parameter is another one behind a step, but for LOOPs, which count it down.
pub(crate) fn is_other_change(parts: &Parts, step: Step, parameter: u8) -> bool {
    match treatment_on(parts, step, parameter) {
        Treatment::Keeps | Treatment::Lowers | Treatment::RunsOut => false,
        Treatment::SetsTo(_) | Treatment::Changes => true,
    }
}

/// Whether a step ends all counting by some parameter: it changes one, or leads out of a user chain.
pub(crate) fn ends_counting(parts: &Parts, step: Step) -> bool {
    match (block_at(parts, step.from), step.by) {
        (_, Passage::Chain(_)) => true,
        (Some(block), _) => match changed_parameter(block) {
            Some(parameter) => is_other_change(parts, step, parameter),
            None => false,
        },
        (None, _) => false,
    }
}

/// Blocks by their numbers, from 0 on, which is of none.
#[derive(Drop)]
pub(crate) struct Marks {
    /// Which are marked.
    marks: Vec<bool>,
}

impl Marks {
    /// Marks on blocks of numbers up to this: on all of them, or on none.
    pub(crate) fn new(alloc: Global, last: u16, marked: bool) -> Result<Marks, Memory> {
        Ok(Marks {
            marks: vec![in alloc; marked; last as usize + 1]?,
        })
    }

    /// Whether the block of this number is marked.
    pub(crate) fn has(&self, number: u16) -> bool {
        self.marks.get(number as usize).copied().unwrap_or(false)
    }

    /// Marks the block of this number, or takes its mark away.
    pub(crate) fn put(&mut self, number: u16, marked: bool) {
        if let Some(mark) = self.marks.get_mut(number as usize) {
            *mark = marked;
        }
    }
}

/// Whether the weight of a block has to count rounds by a parameter where that of the block behind a step has to. The weight of
/// a user chain counts none.
fn asks_to_count(parts: &Parts, step: Step, parameter: u8) -> bool {
    match (step.by, treatment_on(parts, step, parameter)) {
        (Passage::Chain(_), _) => false,
        (_, Treatment::Keeps | Treatment::Lowers | Treatment::Changes) => true,
        (_, Treatment::SetsTo(_) | Treatment::RunsOut) => false,
    }
}

/// Whether the weight of a block has to count rounds by a parameter, where those of these blocks have to.
fn has_to_count(parts: &Parts, graph: &Graph, marks: &Marks, number: u16, parameter: u8) -> bool {
    if counter_at(parts, number) == Some(parameter) {
        return true;
    }
    for step in graph.steps_from(number) {
        if marks.has(step.to) && asks_to_count(parts, *step, parameter) {
            return true;
        }
    }
    false
}

/// Marks each block once that has to count rounds by a parameter, from the last one on, and tells whether one was marked.
fn mark_round(parts: &Parts, graph: &Graph, marks: &mut Marks, parameter: u8) -> bool {
    let last = last_number(parts);
    let mut marked = false;
    for i in 0..last {
        let number = last - i;
        if !marks.has(number) && has_to_count(parts, graph, marks, number, parameter) {
            marks.put(number, true);
            marked = true;
        }
    }
    marked
}

/// The blocks whose weights have to count rounds by a parameter: LOOPs by it, and what leads to one on which it isn't set to a
/// constant.
pub(crate) fn counting_blocks(
    alloc: Global,
    parts: &Parts,
    graph: &Graph,
    parameter: u8,
) -> Result<Marks, Memory> {
    let mut marks = Marks::new(alloc, last_number(parts), false)?;
    for _ in 0..last_number(parts) {
        if !mark_round(parts, graph, &mut marks, parameter) {
            break;
        }
    }
    Ok(marks)
}
