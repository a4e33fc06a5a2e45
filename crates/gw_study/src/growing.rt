//! Lines that grow to the end of the run: more come than can be served.

ghost use Rattle.std.specs.Prelude.{◌≡◌, ◌≤◌, ◌++◌, length, OnOk};
ghost use Rattle.gw_study.specs.Table as model;
ghost use Rattle.gw_study.specs.Table.{AddsGrowth, AddsGrowths};

use crate::columns::said_at;
use crate::telling::{exceeds, put_amount};
use gw_figures::Figure;
use gw_object::Memory;
use gw_statistics::Summary;
use gw_writing::put;
use std::alloc::Global;

/// So many millionths are there at the end of a line that is told to grow, or more: 10.
const FEW: u128 = 10_000_000;

/// Whether a change is one upwards, and further from 0 than twice its half-width.
fn rises(change: &Summary) -> bool
    ensures { result ≡ model.rises change.now }
{
    exceeds(&change.mean, change.half_width) && change.mean > 0
}

/// Whether what is there grows to the end of the run.
fn grows(last: &Summary, change: &Summary) -> bool
    ensures { result ≡ model.grows last.now change.now }
{
    rises(change)
        && last.mean.unsigned_abs() >= FEW
        && change.mean.unsigned_abs() >= last.mean.unsigned_abs() / 3
}

/// How many are there at the end of a line that grows, and what that means.
#[tactic(auto, unfolding(crate::specs::Table::growth_text))]
fn put_growth_text(out: &mut Vec<u8>, name: &[u8], mean: &i128) -> Result<(), Memory>
    ensures { OnOk result (out.new.items ≡ out.old.items ++ model.growth_text name.now mean.now) }
{
    put(out, "GROWS ")?;
    out.extend_from_slice(name)?;
    put(out, " to")?;
    put_amount(out, mean)?;
    put(
        out,
        ": more come than can be served, so averages grow with the length of the run\n",
    )
}

/// What is told of what is there at the end, and of its change since halfway.
fn put_growth_of(
    out: &mut Vec<u8>,
    name: &[u8],
    last: &Summary,
    change: &Summary,
) -> Result<(), Memory>
    ensures { OnOk result
        (out.new.items ≡ out.old.items ++ model.growth_of name.now last.now change.now) }
{
    if !grows(last, change) {
        return Ok(());
    }
    put_growth_text(out, name, &last.mean)
}

/// The same, if anything is said of them.
fn put_growth_if(
    out: &mut Vec<u8>,
    name: &[u8],
    last: Option<Summary>,
    change: Option<Summary>,
) -> Result<(), Memory>
    ensures { OnOk result
        (out.new.items ≡ out.old.items ++ model.growth_line name.now last change) }
{
    match (last, change) {
        (Some(last), Some(change)) => put_growth_of(out, name, &last, &change),
        _ => Ok(()),
    }
}

/// The line of a content at a place, where it grows to the end of the run.
fn put_growth(
    alloc: Global,
    out: &mut Vec<u8>,
    figure: &Figure,
    rows: &[&[Option<i128>]],
    trends: &[&[Option<i128>]],
    place: usize,
) -> Result<(), Memory>
    requires rows { length rows.now ≤ 512 }
    requires trends { length trends.now ≤ 512 }
    ensures { OnOk result
        (AddsGrowth rows.now trends.now place figure.now out.old.items out.new.items) }
{
    if !figure.content {
        return Ok(());
    }
    let last = said_at(alloc, rows, place)?;
    let change = said_at(alloc, trends, place)?;
    put_growth_if(out, &figure.name, last, change)
}

/// A line for each content that grows to the end of the run.
pub(crate) fn put_growths(
    alloc: Global,
    out: &mut Vec<u8>,
    figures: &[Figure],
    rows: &[&[Option<i128>]],
    trends: &[&[Option<i128>]],
) -> Result<(), Memory>
    requires rows { length rows.now ≤ 512 }
    requires trends { length trends.now ≤ 512 }
    ensures { OnOk result
        (AddsGrowths rows.now trends.now figures.now out.old.items out.new.items) }
{
    for i in 0..figures.len() {
        put_growth(alloc, out, &figures[i], rows, trends, i)?;
    }
    Ok(())
}
