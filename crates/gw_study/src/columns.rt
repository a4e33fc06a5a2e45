//! What a figure is in the runs that came to their count.

ghost use Rattle.std.specs.Prelude.{◌≡◌, ◌≤◌, length, vec_len, IfOk, IfSome};
ghost use Rattle.gw_study.specs.Table as model;
ghost use Rattle.gw_study.specs.Table.{IsSaidOf, column as column_of};

use gw_figures::{Run, value_at};
use gw_object::Memory;
use gw_scan::End;
use gw_statistics::{MOST_VALUES, Summary, summarize};
use std::alloc::Global;

/// The place of an end among all.
fn end_number(end: End) -> u8
    ensures { result ≡ model.end_number end }
{
    match end {
        End::Done => 0,
        End::Number => 1,
        End::ZeroDivisor => 2,
        End::NegativeTime => 3,
        End::LoopLimit => 4,
        End::NoMoreEvents => 5,
        End::Budget => 6,
        End::Live => 7,
    }
}

/// Whether a run ended so.
fn is_ended_so(run: &Run, end: End) -> bool
    ensures { result ≡ model.is_ended_so end run.now }
{
    end_number(run.end) == end_number(end)
}

/// How many runs ended so.
pub(crate) fn ended_so(runs: &[Run], end: End) -> usize
    ensures { result ≡ model.ended_so runs.now end }
{
    runs.iter().filter(|run| is_ended_so(run, end)).count()
}

/// The values of each run that came to its count.
#[tactic(auto, unfolding(crate::specs::Table::values_of_done))]
pub(crate) fn values_of_done(alloc: Global, runs: &[Run]) -> Result<Vec<&[Option<i128>]>, Memory>
    ensures rows { IfOk result (λ rows. model.rows rows.items ≡ model.values_of_done runs.now) }
    ensures most { IfOk result (λ rows. vec_len rows ≤ length runs.now) }
{
    let mut done = Vec::new(alloc);
    for i in 0..runs.len() {
        if is_ended_so(&runs[i], End::Done) {
            done.push(runs[i].values.as_slice())?;
        }
    }
    Ok(done)
}

/// By how much the averages of each run that came to its count change.
#[tactic(auto, unfolding(crate::specs::Table::trends_of_done))]
pub(crate) fn trends_of_done(alloc: Global, runs: &[Run]) -> Result<Vec<&[Option<i128>]>, Memory>
    ensures rows { IfOk result (λ rows. model.rows rows.items ≡ model.trends_of_done runs.now) }
    ensures most { IfOk result (λ rows. vec_len rows ≤ length runs.now) }
{
    let mut done = Vec::new(alloc);
    for i in 0..runs.len() {
        if is_ended_so(&runs[i], End::Done) {
            done.push(runs[i].trend.as_slice())?;
        }
    }
    Ok(done)
}

/// The numbers at a place of all rows, if there is one in each.
fn column(
    alloc: Global,
    rows: &[&[Option<i128>]],
    place: usize,
) -> Result<Option<Vec<i128>>, Memory>
    ensures column { IfOk result (λ xs.
        model.AreNumbersOf (model.column_behind place rows.now) xs) }
    ensures len { IfOk result (λ column. IfSome column (λ xs. vec_len xs ≡ length rows.now)) }
{
    let mut column = Vec::with_capacity(alloc, rows.len())?;
    for row in rows {
        match value_at(row, place) {
            Some(value) => column.push(value)?,
            None => return Ok(None),
        }
    }
    Ok(Some(column))
}

/// What is said of the numbers at a place of all rows: their summary, if there is one in each.
pub(crate) fn said_at(
    alloc: Global,
    rows: &[&[Option<i128>]],
    place: usize,
) -> Result<Option<Summary>, Memory>
    requires { length rows.now ≤ MOST_VALUES }
    ensures { IfOk result (IsSaidOf (column_of place (model.rows rows.now))) }
{
    match column(alloc, rows, place)? {
        Some(values) => Ok(summarize(&values)),
        None => Ok(None),
    }
}
