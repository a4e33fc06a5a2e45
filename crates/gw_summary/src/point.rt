//! The rows of a point.

ghost use Rattle.std.specs.Prelude.{◌≡◌, ◌≤◌, ◌<◌, max, length, false, vec_len, slice_get, Some, IfNone, IfSome, IfOk, OnOk};
ghost use Rattle.std.specs.List.{slice_set};
ghost use Rattle.gw_summary.specs.Adding as model;
ghost use Rattle.gw_summary.specs.Keeping.{AddsLineTo, OneMore, lines_at};
ghost use Rattle.gw_summary.specs.Adding.{IsRight, IsWhole};
ghost use Rattle.gw_summary.specs.Holding.{HasNoOtherLines, HoldsAlso, PutsLine};
ghost use Rattle.gw_summary.specs.StudyRows.{StudyRuns};

use crate::fault::RowFault;
use gw_object::Memory;
use std::alloc::Global;

/// The rows of a point.
#[derive(Drop)]
pub(crate) struct PointRows {
    /// What it is called.
    pub(crate) name: Vec<u8>,
    /// Its numbers.
    pub(crate) values: Vec<i64>,
    /// The line of each run, without its line feed, as far as there are any.
    pub(crate) lines: Vec<Option<Vec<u8>>>,
}

/// What a line does to others.
#[derive(Clone, Copy, PartialEq, Eq)]
pub(crate) enum Adding {
    /// It is a run that wasn't there.
    New,
    /// It was there.
    Again,
    /// The run was there with other numbers.
    Unlike,
}

/// Places for lines up to a number, but not that one, behind those that are there.
fn fill(lines: &mut Vec<Option<Vec<u8>>>, end: usize) -> Result<(), Memory>
    ensures long { OnOk result (end ≤ vec_len lines.new) }
    ensures same { OnOk result (lines_at lines.new.items ≡ lines_at lines.old.items) }
    ensures has { OnOk result (model.HaveSameRuns lines.old.items lines.new.items) }
    ensures few { OnOk result (length lines.new.items ≤ max (length lines.old.items) end) }
    ensures known { OnOk result (HasNoOtherLines lines.new.items lines.old.items) }
{
    for _ in lines.len()..end {
        lines.push(None)?;
    }
    Ok(())
}

/// A line at a place.
fn put_line(lines: &mut Vec<Option<Vec<u8>>>, place: usize, line: Vec<u8>)
    requires place { place < vec_len lines.old }
    requires free { model.has (slice_get lines.old.items place) ≡ false }
    ensures more { OneMore line.items (lines_at lines.old.items) (lines_at lines.new.items) }
    ensures items { lines.new.items ≡ slice_set lines.old.items place (Some line) }
{
    lines[place] = Some(line);
}

/// A copy of a line.
fn copy_of(alloc: Global, line: &[u8]) -> Result<Vec<u8>, Memory>
    ensures { IfOk result (λ copy. copy.items ≡ line.now) }
{
    let mut copy = Vec::with_capacity(alloc, line.len())?;
    copy.extend_from_slice(line)?;
    Ok(copy)
}

impl PointRows {
    /// What a line of a run does to the others.
    fn adding(&self, number: usize, line: &[u8]) -> Adding
        ensures { result ≡ model.adding_at self.now.lines.items number line.now }
    {
        match self.lines.get(number) {
            Some(Some(known)) => {
                if known.as_slice() == line {
                    Adding::Again
                } else {
                    Adding::Unlike
                }
            }
            _ => Adding::New,
        }
    }

    /// The line of a run that wasn't there.
    fn put(&mut self, alloc: Global, number: usize, line: &[u8]) -> Result<(), Memory>
        requires number { number < 512 }
        requires free { model.has (slice_get self.old.lines.items number) ≡ false }
        ensures more { OnOk result (OneMore line.now (lines_at self.old.lines.items) (lines_at self.new.lines.items)) }
        ensures line { OnOk result (PutsLine number line.now self.old self.new) }
    {
        let copy = copy_of(alloc, line)?;
        fill(&mut self.lines, number + 1)?;
        put_line(&mut self.lines, number, copy);
        Ok(())
    }

    /// The line of a run, with those that are there; a line that is there is left alone. It answers what the line did.
    pub(crate) fn add(&mut self, alloc: Global, number: u32, line: &[u8]) -> Result<Adding, Memory>
        requires { number < 512 }
        ensures adding { IfOk result (λ adding.
            adding ≡ model.adding_at self.old.lines.items number line.now) }
        ensures lines { IfOk result (λ adding.
            AddsLineTo adding line.now self.old self.new) }
        ensures study { (s : StudyRuns) → HoldsAlso s number line.now result self.old self.new }
    {
        let number = number as usize;
        let adding = self.adding(number, line);
        if adding == Adding::New {
            self.put(alloc, number, line)?;
        }
        Ok(adding)
    }

    /// Whether a run has a line.
    pub(crate) fn has(&self, number: usize) -> bool
        ensures { result ≡ model.has (slice_get self.now.lines.items number) }
    {
        match self.lines.get(number) {
            Some(Some(_)) => true,
            _ => false,
        }
    }

    /// Why a run is one too many, or misses, of those from one on, if it is so.
    fn fault_at(&self, first: usize, number: usize) -> Option<RowFault>
        requires { number < 512 }
        ensures none { IfNone result (IsRight self.now.lines.items first number) }
        ensures some { IfSome result (λ fault. ¬ IsRight self.now.lines.items first number) }
    {
        match (self.has(number), first <= number) {
            (true, false) => Some(RowFault::Surplus(number as u32)),
            (false, true) => Some(RowFault::Missing(number as u32)),
            _ => None,
        }
    }

    /// Why these aren't the lines of the runs from one to another, but not that one, if they aren't: a run before the first, one
    /// that misses, or one behind the last.
    pub(crate) fn fault_between(&self, first: usize, end: usize) -> Option<RowFault>
        requires { end ≤ 512 }
        ensures none { IfNone result (IsWhole self.now.lines.items first end) }
        ensures some { IfSome result (λ fault. ¬ IsWhole self.now.lines.items first end) }
    {
        if self.lines.len() > end {
            return Some(RowFault::Surplus(end as u32));
        }
        for number in 0..end {
            if let Some(fault) = self.fault_at(first, number) {
                return Some(fault);
            }
        }
        None
    }
}
