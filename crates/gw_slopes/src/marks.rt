//! Which blocks get a slope on a parameter.

ghost use Rattle.std.specs.Prelude.{◌≡◌, ◌<◌, ◌≤◌, IfOk, length, slice_index_or, slice_get, replicate, false};
ghost use Rattle.std.specs.List.{list_any};
ghost use Rattle.gw_rules.specs.Flow.{own_row as row_of};
ghost use Rattle.gw_rules.specs.Seen.{row_meaning};
ghost use Rattle.gw_slopes.specs.Sloped as model;
ghost use Rattle.gw_slopes.specs.Marking.{AreSound, IsRound, StaySound, is_due, marked_if};

use crate::sources::Sources;
use gw_object::{Block, Parts, TableState};
use gw_rules::{Exit, Treatment, exits, leads_to, treats};
use gw_weights::{blocks_read, goes_at_once, own_row};
use std::alloc::{AllocError, Global};
use std::mem;

/// Whether a block is a LOOP on a parameter.
pub(crate) fn counts(block: &Block, parameter: u8) -> bool
    ensures { result ≡ model.counts parameter block.now }
{
    match block {
        Block::Loop(counted) => counted.parameter == parameter,
        _ => false,
    }
}

/// Whether a slope of the next block asks for one of a block that does this to its parameter: not where that is set to a
/// constant, nor where it has come to 0.
fn asks_own(treatment: Treatment) -> bool
    ensures { result ≡ model.asks_own treatment }
{
    match treatment {
        Treatment::Keeps | Treatment::Lowers | Treatment::Changes => true,
        Treatment::SetsTo(_) | Treatment::RunsOut => false,
    }
}

/// Whether the block at a place, from 0, is marked; none is where there is no block.
fn is_marked(marks: &[bool], place: usize) -> bool
    ensures { result ≡ slice_index_or marks.now place false }
{
    marks.get(place).copied().unwrap_or(false)
}

/// Whether the block of this number, from 1, is marked.
fn is_marked_at(marks: &[bool], number: u16) -> bool
    ensures { result ≡ model.marked_at marks.now number }
{
    number != 0 && is_marked(marks, number as usize - 1)
}

/// Whether an exit of the block of this number leads to a marked one that asks it for a slope.
fn leads_back(marks: &[bool], number: u16, block: &Block, parameter: u8, exit: Exit) -> bool
    requires { number ≤ 4096 }
    ensures { result ≡ model.leads_back marks.now number block.now parameter exit }
{
    goes_at_once(exit)
        && asks_own(treats(block, exit.way, parameter))
        && is_marked_at(marks, leads_to(number, exit.way))
}

/// Whether one of these exits does.
fn one_leads_back(marks: &[bool], number: u16, block: &Block, parameter: u8, exits: &[Exit]) -> bool
    requires { number ≤ 4096 }
    ensures { result ≡ list_any (model.leads_back marks.now number block.now parameter) exits.now }
{
    for exit in exits {
        if leads_back(marks, number, block, parameter, *exit) {
            return true;
        }
    }
    false
}

/// Whether the block after one of these is marked.
fn is_one_marked_behind(marks: &[bool], callers: &[u16]) -> bool
    ensures { result ≡ list_any (λ caller. slice_index_or marks.now caller false) callers.now }
{
    for caller in callers {
        if is_marked(marks, *caller as usize) {
            return true;
        }
    }
    false
}

/// Whether the block of this number is a LOOP on the parameter, or leads to a marked one in this row of the state table.
fn asks_in(
    parts: &Parts,
    marks: &[bool],
    number: u16,
    block: &Block,
    row: &TableState,
    parameter: u8,
) -> bool
    requires { number ≤ 4096 }
    ensures { result ≡ model.asks_in marks.now parameter number block.now (row_meaning parts.now.returns row.now) }
{
    match block {
        Block::TransferByParameter(held) => {
            let callers = blocks_read(parts.returns.as_slice(), row, *held);
            is_one_marked_behind(marks, callers)
        }
        _ => {
            counts(block, parameter)
                || one_leads_back(marks, number, block, parameter, &exits(block))
        }
    }
}

/// And in the row that it may have.
fn asks(parts: &Parts, marks: &[bool], number: u16, block: &Block, parameter: u8) -> bool
    requires { number ≤ 4096 }
    ensures { result ≡ model.asks_at marks.now parameter number block.now (row_of parts.now number) }
{
    match own_row(parts, number) {
        Some(row) => asks_in(parts, marks, number, block, row, parameter),
        None => false,
    }
}

/// Marks the block at a place, from 0, if that is due, and tells whether it was.
fn mark(parts: &Parts, marks: &mut [bool], place: usize, parameter: u8) -> bool
    requires many { length marks.old ≡ length parts.now.blocks }
    requires few { length parts.now.blocks ≤ 4096 }
    requires within { place < length parts.now.blocks }
    ensures marks { marks.new ≡ marked_if (is_due parts.now parameter marks.old place) marks.old place }
    ensures marked { result ≡ is_due parts.now parameter marks.old place }
{
    let number = (place + 1) as u16;
    let block = &parts.blocks.as_slice()[place];
    if marks[place] || !asks(parts, marks, number, block, parameter) {
        return false;
    }
    marks[place] = true;
    true
}

/// Marks each block once if that is due, from the last one on, and tells whether one was.
fn mark_round(parts: &Parts, marks: &mut [bool], parameter: u8) -> bool
    requires many { length marks.old ≡ length parts.now.blocks }
    requires few { length parts.now.blocks ≤ 4096 }
    ensures { IsRound parts.now parameter marks.old marks.new result }
{
    let count = marks.len();
    let mut marked = false;
    for i in 0..count {
        marked |= mark(parts, marks, count - 1 - i, parameter);
    }
    marked
}

/// Marks blocks in rounds until none is due.
fn mark_all(parts: &Parts, marks: &mut [bool], parameter: u8)
    requires many { length marks.old ≡ length parts.now.blocks }
    requires sound { AreSound parts.now parameter marks.old }
    requires few { length parts.now.blocks ≤ 4096 }
    ensures { model.AreMarks parts.now parameter marks.new }
{
    for _ in 0..marks.len() + 1 {
        if !mark_round(parts, marks, parameter) {
            return;
        }
    }
}

/// Marks the block at a place, from 0, if that is due, and tells whether those that lead to the place are due then: it is that
/// of a block which was marked, or of a return row that wasn't seen before.
fn mark_place(
    parts: &Parts,
    marks: &mut [bool],
    seen: &mut [bool],
    place: usize,
    parameter: u8,
) -> bool
    requires many { length marks.old ≡ length parts.now.blocks }
    requires few { length parts.now.blocks ≤ 4096 }
    ensures { StaySound parts.now parameter marks.old marks.new }
{
    if place < marks.len() {
        return mark(parts, marks, place, parameter);
    }
    match seen.get_mut(place) {
        Some(seen) => !mem::replace(seen, true),
        None => false,
    }
}

/// Marks blocks that are due, from these places on back to those that lead to a marked one.
fn mark_from(
    alloc: Global,
    parts: &Parts,
    sources: &Sources,
    marks: &mut [bool],
    pending: &mut Vec<usize>,
    parameter: u8,
) -> Result<(), AllocError>
    requires many { length marks.old ≡ length parts.now.blocks }
    requires few { length parts.now.blocks ≤ 4096 }
    ensures { StaySound parts.now parameter marks.old marks.new }
{
    let mut seen = vec![in alloc; false; sources.places()]?;
    for _ in 0..usize::MAX {
        let Some(place) = pending.pop() else {
            return Ok(());
        };
        if mark_place(parts, marks, &mut seen, place, parameter) {
            sources.put(pending, place)?;
        }
    }
    Ok(())
}

/// The places of the LOOPs on a parameter, from 0.
fn loops_on(alloc: Global, blocks: &[Block], parameter: u8) -> Result<Vec<usize>, AllocError> {
    let mut places = Vec::new(alloc);
    for i in 0..blocks.len() {
        if counts(&blocks[i], parameter) {
            places.push(i)?;
        }
    }
    Ok(places)
}

/// No marks.
fn no_marks(alloc: Global, parts: &Parts) -> Result<Vec<bool>, AllocError>
    ensures { IfOk result (λ marks. marks.items ≡ replicate (length parts.now.blocks) false) }
{
    Ok(vec![in alloc; false; parts.blocks.as_slice().len()]?)
}

/// Which blocks get a slope on a parameter: each LOOP on it that has a row of the state table, and each block with a row from
/// which somebody goes at once to one that gets it, but by an ASSIGN of a constant to the parameter, and where a LOOP on it
/// falls (ours: docs/weights.md).
pub(crate) fn marks_of(
    alloc: Global,
    parts: &Parts,
    sources: &Sources,
    parameter: u8,
) -> Result<Vec<bool>, AllocError>
    requires { length parts.now.blocks ≤ 4096 }
    ensures { IfOk result (λ marks. model.AreMarks parts.now parameter marks.items) }
{
    let mut marks = no_marks(alloc, parts)?;
    let mut pending = loops_on(alloc, parts.blocks.as_slice(), parameter)?;
    mark_from(alloc, parts, sources, &mut marks, &mut pending, parameter)?;
    mark_all(parts, &mut marks, parameter);
    Ok(marks)
}
