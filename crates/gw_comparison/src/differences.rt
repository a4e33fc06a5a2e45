//! The differences of a point to another, by pairs of runs.

ghost use Rattle.std.specs.Prelude.{◌≡◌, ◌≤◌, ◌^◌, ◌++◌, OnOk, IfOk};
ghost use Rattle.gw_statistics.specs.Pairs.{differences as pair_differences};
ghost use Rattle.gw_comparison.specs.Differences as model;
ghost use Rattle.gw_comparison.specs.Points.{IsAccount};

use crate::accounts::{Account, account_in, account_of, column_of, is_told};
use crate::point::{Column, Point};
use gw_object::Memory;
use gw_statistics::{Summary, differences, put_told, told_half_width};
use gw_writing::{put_decimal, put_left, put_right};
use std::alloc::Global;

/// How wide a name is.
const NAME: usize = 40;

/// How wide a number is.
const NUMBER: usize = 16;

/// What the differences of two columns say: of each run that has a value in both, the second less the first.
pub(crate) fn account_between(
    alloc: Global,
    first: &Column,
    second: &Column,
) -> Result<Account, Memory>
    ensures { IfOk result (IsAccount
        (pair_differences first.now.values.items second.now.values.items)) }
{
    let values = differences(alloc, &first.values, &second.values)?;
    Ok(account_of(&values))
}

/// Whether a mean lies further from 0 than its half-width, and what rounding may add to it.
fn differs(mean: &i128, half_width: u128) -> bool
    requires { half_width ≤ 2 ^ 120 }
    ensures { result ≡ model.differs mean.now half_width }
{
    mean.unsigned_abs() > half_width + 2
}

/// What is said of a difference.
fn verdict_of(mean: &i128, half_width: u128) -> &'static str
    requires { half_width ≤ 2 ^ 120 }
    ensures { result.now ≡ model.verdict_of mean.now half_width }
{
    if differs(mean, half_width) {
        "  differs\n"
    } else {
        "  no difference seen\n"
    }
}

/// The half-width of a difference, and what is said of it, if it is known.
fn put_confidence(
    alloc: Global,
    out: &mut Vec<u8>,
    mean: &i128,
    half_width: Option<u128>,
) -> Result<(), Memory>
    ensures { OnOk result (out.new.items ≡ out.old.items ++ model.confidence mean.now half_width) }
{
    match half_width {
        Some(half_width) if half_width <= 1 << 120 => {
            let mut text = Vec::new(alloc);
            put_decimal(&mut text, 3, told_half_width(*mean, half_width))?;
            put_right(out, NUMBER, &text)?;
            out.extend_from_slice(verdict_of(mean, half_width).as_bytes())
        }
        _ => {
            put_right(out, NUMBER, b"-")?;
            out.extend_from_slice(b"\n")
        }
    }
}

/// The mean of a difference, its half-width, and what is said of it, if there are values.
#[tactic(auto, unfolding(crate::specs::Differences::summary_text))]
fn put_summary(alloc: Global, out: &mut Vec<u8>, summary: &Option<Summary>) -> Result<(), Memory>
    ensures { OnOk result (out.new.items ≡ out.old.items ++ model.summary_text summary.now) }
{
    match summary {
        Some(summary) => {
            let mut text = Vec::new(alloc);
            put_told(&mut text, &summary.mean)?;
            put_right(out, NUMBER, &text)?;
            put_confidence(alloc, out, &summary.mean, summary.half_width)
        }
        None => {
            put_right(out, NUMBER, b"-")?;
            put_right(out, NUMBER, b"-")?;
            out.extend_from_slice(b"\n")
        }
    }
}

/// The mean of what values say, if they say anything.
#[tactic(auto, unfolding(crate::specs::Differences::mean_text))]
fn put_mean(alloc: Global, out: &mut Vec<u8>, summary: &Option<Summary>) -> Result<(), Memory>
    ensures { OnOk result (out.new.items ≡ out.old.items ++ model.mean_text summary.now) }
{
    match summary {
        Some(summary) => {
            let mut text = Vec::new(alloc);
            put_told(&mut text, &summary.mean)?;
            put_right(out, NUMBER, &text)
        }
        None => put_right(out, NUMBER, b"-"),
    }
}

/// The mean of a column.
fn put_mean_of(alloc: Global, out: &mut Vec<u8>, column: &Column) -> Result<(), Memory>
    ensures { OnOk result (model.AddsMean column.now out.old.items out.new.items) }
{
    let account = account_in(alloc, column)?;
    put_mean(alloc, out, &account.summary)
}

/// What the differences of two columns say.
fn put_difference(
    alloc: Global,
    out: &mut Vec<u8>,
    first: &Column,
    second: &Column,
) -> Result<(), Memory>
    ensures { OnOk result (model.AddsDifference first.now second.now out.old.items out.new.items) }
{
    let account = account_between(alloc, first, second)?;
    put_summary(alloc, out, &account.summary)
}

/// The row of a figure.
fn put_row(alloc: Global, out: &mut Vec<u8>, first: &Column, second: &Column) -> Result<(), Memory>
    ensures { OnOk result (model.AddsRow first.now second.now out.old.items out.new.items) }
{
    put_left(out, NAME, &first.name)?;
    put_mean_of(alloc, out, first)?;
    put_mean_of(alloc, out, second)?;
    put_difference(alloc, out, first, second)
}

/// The row of a figure, where the other point has it too and it is told.
fn put_row_if_told(
    alloc: Global,
    out: &mut Vec<u8>,
    first: &Column,
    others: &[Column],
    all: bool,
) -> Result<(), Memory>
    ensures { OnOk result
        (model.AddsRowIfTold all first.now others.now out.old.items out.new.items) }
{
    if !is_told(first, all) {
        return Ok(());
    }
    match column_of(others, &first.name) {
        Some(second) => put_row(alloc, out, first, second),
        None => Ok(()),
    }
}

/// The rows of the figures that two points have.
#[tactic(auto, unfolding(crate::specs::Differences::AddsRows))]
fn put_rows(
    alloc: Global,
    out: &mut Vec<u8>,
    first: &[Column],
    others: &[Column],
    all: bool,
) -> Result<(), Memory>
    ensures { OnOk result (model.AddsRows all first.now others.now out.old.items out.new.items) }
{
    for i in 0..first.len() {
        put_row_if_told(alloc, out, &first[i], others, all)?;
    }
    Ok(())
}

/// What is taken off.
fn put_less(out: &mut Vec<u8>, first: &[u8]) -> Result<(), Memory>
    ensures { OnOk result (out.new.items ≡ out.old.items ++ model.less first.now) }
{
    out.extend_from_slice(b" LESS ")?;
    out.extend_from_slice(first)?;
    out.extend_from_slice(b"\n")
}

/// What is less than what.
#[tactic(auto, unfolding(crate::specs::Differences::title))]
fn put_title(out: &mut Vec<u8>, first: &[u8], second: &[u8]) -> Result<(), Memory>
    ensures { OnOk result (out.new.items ≡ out.old.items ++ model.title first.now second.now) }
{
    out.extend_from_slice(b"DIFFERENCE ")?;
    out.extend_from_slice(second)?;
    put_less(out, first)
}

/// What the columns are.
fn put_heads(out: &mut Vec<u8>, first: &[u8], second: &[u8]) -> Result<(), Memory>
    ensures { OnOk result (out.new.items ≡ out.old.items ++ model.heads first.now second.now) }
{
    put_left(out, NAME, b"FIGURE")?;
    put_right(out, NUMBER, first)?;
    put_right(out, NUMBER, second)?;
    put_right(out, NUMBER, b"DIFFERENCE")?;
    put_right(out, NUMBER, b"HALF-WIDTH")?;
    out.extend_from_slice(b"\n")
}

/// The differences of a point to the first, by pairs of runs: for each figure that both have the mean at the first, that at the
/// point, the mean of what it is more there than at the first in the same run, the half-width of its 95 % confidence interval, and whether it `differs`: whether
/// the interval leaves 0 out. Where it doesn't, there is `no difference seen`.
pub fn put_differences(
    alloc: Global,
    out: &mut Vec<u8>,
    first: &Point,
    second: &Point,
    all: bool,
) -> Result<(), Memory>
    ensures { OnOk result
        (model.AddsDifferences all first.now second.now out.old.items out.new.items) }
{
    put_title(out, &first.name, &second.name)?;
    put_heads(out, &first.name, &second.name)?;
    put_rows(alloc, out, &first.columns, &second.columns, all)
}
