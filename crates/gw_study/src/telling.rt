//! The table of a study.

ghost use Rattle.std.specs.Prelude.{◌≡◌, ◌≤◌, ◌^◌, ◌++◌, length, vec_len, Some, IfOk, OnOk};
ghost use Rattle.gw_study.specs.Table as model;
ghost use Rattle.gw_study.specs.Table.{AddsFigureRow, AddsFigureRows, AddsTrend, AddsTrends, IsTableOfResults};

use crate::columns::{ended_so, said_at, trends_of_done, values_of_done};
use crate::growing::put_growths;
use crate::request::StudyRequest;
use crate::text::{put_head, put_line};
use gw_figures::{Figure, Run};
use gw_object::Memory;
use gw_report::status_word;
use gw_scan::{End, Status};
use gw_statistics::{Summary, put_told, runs_to_halve};
use gw_writing::{put, put_number};
use std::alloc::Global;

/// What a study found: the figures of the model, and its runs in order.
#[derive(Drop)]
pub struct Results {
    /// The figures, in the order of the values of each run.
    pub figures: Vec<Figure>,
    /// The runs, from the first of the study on.
    pub runs: Vec<Run>,
}

/// Where the runs' window begins.
fn put_start(out: &mut Vec<u8>, from: u64) -> Result<(), Memory>
    ensures { OnOk result (out.new.items ≡ out.old.items ++ model.start_text from) }
{
    if from == 0 {
        return put(out, " begin empty: averages hold the empty start\n");
    }
    put_number(out, " from ", from)?;
    put(out, "\n")
}

/// The first line: how many runs there are and how many came to their count, and where their window begins.
fn put_first(out: &mut Vec<u8>, runs: &[Run], from: u64) -> Result<(), Memory>
    ensures { OnOk result (out.new.items ≡ out.old.items ++ model.first_line runs.now from) }
{
    put_number(out, "RUNS ", runs.len())?;
    put_number(out, " DONE ", ended_so(runs, End::Done))?;
    put_start(out, from)
}

/// How many runs ended so, where any did.
fn put_other(out: &mut Vec<u8>, runs: &[Run], end: End) -> Result<(), Memory>
    ensures { OnOk result (out.new.items ≡ out.old.items ++ model.other_text runs.now end) }
{
    let number = ended_so(runs, end);
    if number == 0 {
        return Ok(());
    }
    put(out, ", ")?;
    put(out, status_word(Status::Ended(end)))?;
    put_number(out, " ", number)
}

/// How many met an end that a value brought.
fn put_faults(out: &mut Vec<u8>, runs: &[Run]) -> Result<(), Memory>
    ensures { OnOk result (out.new.items ≡ out.old.items ++ model.faults_text runs.now) }
{
    put_other(out, runs, End::Number)?;
    put_other(out, runs, End::ZeroDivisor)?;
    put_other(out, runs, End::NegativeTime)?;
    put_other(out, runs, End::LoopLimit)
}

/// How many could or might not go on.
fn put_stops(out: &mut Vec<u8>, runs: &[Run]) -> Result<(), Memory>
    ensures { OnOk result (out.new.items ≡ out.old.items ++ model.stops_text runs.now) }
{
    put_other(out, runs, End::NoMoreEvents)?;
    put_other(out, runs, End::Budget)?;
    put_other(out, runs, End::Live)
}

/// The line of how many runs ended how, where not all came to their count.
fn put_ends(out: &mut Vec<u8>, runs: &[Run]) -> Result<(), Memory>
    ensures { OnOk result (out.new.items ≡ out.old.items ++ model.ends_line runs.now) }
{
    let done = ended_so(runs, End::Done);
    if done == runs.len() {
        return Ok(());
    }
    put_number(out, "ENDS Done ", done)?;
    put_faults(out, runs)?;
    put_stops(out, runs)?;
    put(out, "\n")
}

/// The row of a figure at a place, where it is told.
fn put_row(
    alloc: Global,
    out: &mut Vec<u8>,
    figure: &Figure,
    rows: &[&[Option<i128>]],
    all: bool,
    place: usize,
) -> Result<(), Memory>
    requires { length rows.now ≤ 512 }
    ensures { OnOk result
        (AddsFigureRow rows.now all place figure.now out.old.items out.new.items) }
{
    if !(figure.main || all) {
        return Ok(());
    }
    let said = said_at(alloc, rows, place)?;
    put_line(alloc, out, &figure.name, said)
}

/// The rows of figures, in order: of those that are always told, or of all.
fn put_rows(
    alloc: Global,
    out: &mut Vec<u8>,
    figures: &[Figure],
    rows: &[&[Option<i128>]],
    all: bool,
) -> Result<(), Memory>
    requires { length rows.now ≤ 512 }
    ensures { OnOk result
        (AddsFigureRows rows.now all figures.now out.old.items out.new.items) }
{
    for i in 0..figures.len() {
        put_row(alloc, out, &figures[i], rows, all, i)?;
    }
    Ok(())
}

/// How many more runs would halve the half-widths, where there are any.
fn put_more(out: &mut Vec<u8>, done: usize) -> Result<(), Memory>
    requires { done ≤ 512 }
    ensures { OnOk result (out.new.items ≡ out.old.items ++ model.more_line done) }
{
    if done < 2 {
        return Ok(());
    }
    let done = done as u32;
    put_number(out, "HALVE ", runs_to_halve(done) - done)?;
    put(out, "\n")
}

/// Whether a mean lies further from 0 than twice its half-width.
pub(crate) fn exceeds(mean: &i128, half_width: Option<u128>) -> bool
    ensures { result ≡ model.exceeds mean.now half_width }
{
    match half_width {
        Some(half_width) => mean.unsigned_abs().div_ceil(2) > half_width,
        None => false,
    }
}

/// By how much an average changes, behind a blank.
#[tactic(auto, unfolding(crate::specs::Table::amount))]
pub(crate) fn put_amount(out: &mut Vec<u8>, mean: &i128) -> Result<(), Memory>
    ensures { OnOk result (out.new.items ≡ out.old.items ++ model.amount mean.now) }
{
    put(out, " ")?;
    put_told(out, mean)
}

/// What an average's change is told with: by how much, and what is suggested.
#[tactic(auto, unfolding(crate::specs::Table::advice))]
fn put_advice(out: &mut Vec<u8>, suggested: u64, mean: &i128) -> Result<(), Memory>
    ensures { OnOk result (out.new.items ≡ out.old.items ++ model.advice suggested mean.now) }
{
    put_amount(out, mean)?;
    put_number(out, ": try --from ", suggested)?;
    put(out, "\n")
}

/// What is told of an average's change, where it is great.
fn put_great(out: &mut Vec<u8>, name: &[u8], suggested: u64, change: &Summary) -> Result<(), Memory>
    ensures { OnOk result (out.new.items
        ≡ out.old.items ++ model.trend_line name.now suggested (Some change.now)) }
{
    if !exceeds(&change.mean, change.half_width) {
        return Ok(());
    }
    put(out, "TREND ")?;
    out.extend_from_slice(name)?;
    put_advice(out, suggested, &change.mean)
}

/// What is told of an average's change, if anything is said of it.
fn put_change(
    out: &mut Vec<u8>,
    name: &[u8],
    suggested: u64,
    said: Option<Summary>,
) -> Result<(), Memory>
    ensures { OnOk result
        (out.new.items ≡ out.old.items ++ model.trend_line name.now suggested said) }
{
    match said {
        Some(change) => put_great(out, name, suggested, &change),
        None => Ok(()),
    }
}

/// The line of the change of a figure at a place, where it is great.
fn put_trend(
    alloc: Global,
    out: &mut Vec<u8>,
    figure: &Figure,
    rows: &[&[Option<i128>]],
    suggested: u64,
    place: usize,
) -> Result<(), Memory>
    requires { length rows.now ≤ 512 }
    ensures { OnOk result
        (AddsTrend rows.now suggested place figure.now out.old.items out.new.items) }
{
    if !figure.average {
        return Ok(());
    }
    let said = said_at(alloc, rows, place)?;
    put_change(out, &figure.name, suggested, said)
}

/// A line for each average that changes much from the first half of the window to the second.
fn put_trends(
    alloc: Global,
    out: &mut Vec<u8>,
    figures: &[Figure],
    rows: &[&[Option<i128>]],
    suggested: u64,
) -> Result<(), Memory>
    requires { length rows.now ≤ 512 }
    ensures { OnOk result
        (AddsTrends rows.now suggested figures.now out.old.items out.new.items) }
{
    for i in 0..figures.len() {
        put_trend(alloc, out, &figures[i], rows, suggested, i)?;
    }
    Ok(())
}

/// What is suggested as the beginning of a window of runs of this count that begins there: where half of the rest is counted.
fn suggestion(count: u64, from: u64) -> u64
    requires { count ≤ 2 ^ 40 }
    ensures { result ≡ model.suggestion count from }
{
    if from < count {
        from + (count - from) / 2
    } else {
        from
    }
}

/// What a study of this count tells of its results: how many runs there are and how they ended, a row for each figure of the runs
/// that came to their count, how many more runs would halve the half-widths, which averages change in the window, and which contents
/// grow to its end.
pub(crate) fn table(
    alloc: Global,
    results: &Results,
    request: &StudyRequest,
    count: u64,
) -> Result<Vec<u8>, Memory>
    requires runs { vec_len results.now.runs ≤ 512 }
    requires count { count ≤ 2 ^ 40 }
    ensures { IfOk result (λ text.
        IsTableOfResults results.now request.now count text.items) }
{
    let mut out = Vec::new(alloc);
    let values = values_of_done(alloc, &results.runs)?;
    let trends = trends_of_done(alloc, &results.runs)?;
    put_first(&mut out, &results.runs, request.from)?;
    put_ends(&mut out, &results.runs)?;
    put_head(&mut out)?;
    put_rows(alloc, &mut out, &results.figures, &values, request.all)?;
    put_more(&mut out, values.len())?;
    let suggested = suggestion(count, request.from);
    put_trends(alloc, &mut out, &results.figures, &trends, suggested)?;
    put_growths(alloc, &mut out, &results.figures, &values, &trends)?;
    Ok(out)
}
