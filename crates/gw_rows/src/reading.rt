//! Reading rows.

ghost use Rattle.std.specs.Prelude.{◌≡◌, ◌↔◌, ◌<◌, ◌+◌, ◌^◌, ℕ, [], length, slice_index_or, if◌then◌else◌, IfOk, IsTrue, OnOk};
ghost use Rattle.std.specs.List.{AllZip};
ghost use Rattle.gw_figures.specs.Labels.{label_of, labels};
ghost use Rattle.gw_rows.specs.Names.{has_trend as has_trend_of};
ghost use Rattle.gw_rows.specs.Rows as model;
ghost use Rattle.gw_rows.specs.Rows.{lent_texts};
ghost use Rattle.gw_rows.specs.Reading.{FindsRow, HasFigures, HasRowText, IsInRange, IsRowOf, MayBeInRange, MayChange, ReadsChange};
ghost use Rattle.gw_rows.specs.Reading.{ReadsNumber, ReadsRow, ReadsRun, ReadsSource, ReadsTrend, ReadsValues};

use crate::amounts::{amount_in, number_in};
use crate::ends::end_in;
use crate::header::{FIXED, has_trend, is_line};
use crate::origin::Origin;
use crate::overdraws::overdraws_in;
use crate::parts::parts_of;
use crate::record::copy_of;
use crate::row::{Row, put_row};
use gw_figures::{Figure, Run};
use gw_object::Memory;
use gw_scan::End;
use std::alloc::Global;

/// All runs have a number below this.
const MOST_RUNS: u32 = 512;

/// The greatest termination count.
const MOST_COUNT: u64 = 1 << 40;

/// A part by its number; nothing where there is none.
fn part_at<'a>(parts: &[&'a [u8]], place: usize) -> &'a [u8]
    ensures { result.now ≡ slice_index_or (lent_texts parts.now) place [] }
{
    match parts.get(place) {
        Some(part) => *part,
        None => &[],
    }
}

/// How many rows there are in all, by its field.
fn rows_in(field: &[u8]) -> u64
    ensures { (n : ℕ) → n < 2 ^ 64 → field.now ≡ model.rows_field n → result ≡ n }
{
    if field.is_empty() {
        0
    } else {
        number_in(field)
    }
}

/// Of what the run of a row is one.
fn origin_in(alloc: Global, parts: &[&[u8]]) -> Result<Origin, Memory>
    ensures { IfOk result (λ origin. ReadsSource (lent_texts parts.now) origin) }
{
    Ok(Origin {
        model: copy_of(alloc, part_at(parts, 0))?,
        rows: rows_in(part_at(parts, 1)),
        point: copy_of(alloc, part_at(parts, 2))?,
        count: number_in(part_at(parts, 3)),
        from: number_in(part_at(parts, 4)),
    })
}

/// The values of so many figures.
fn values_in(
    alloc: Global,
    parts: &[&[u8]],
    figures: &[Figure],
) -> Result<Vec<Option<i128>>, Memory>
    ensures many { IfOk result (λ values. length values.items ≡ length figures.now) }
    ensures read { IfOk result (λ v. ReadsValues (length figures.now) (lent_texts parts.now) v.items) }
{
    let mut values = Vec::with_capacity(alloc, figures.len())?;
    for i in 0..figures.len() {
        values.push(amount_in(part_at(parts, FIXED + i)))?;
    }
    Ok(values)
}

/// By how much a figure changes, where rows tell that, by the field at a place.
fn trend_in(parts: &[&[u8]], place: usize, figure: &Figure) -> Option<i128>
    ensures may { MayChange (label_of figure.now) result }
    ensures read { ReadsChange (label_of figure.now) (lent_texts parts.now) place result }
{
    if has_trend(figure) {
        amount_in(part_at(parts, place))
    } else {
        None
    }
}

/// The place of the field behind that of a figure's change, where it has one.
fn place_behind(place: usize, figure: &Figure) -> usize
    requires { place < 2 ^ 63 }
    ensures { result ≡ (if has_trend_of (label_of figure.now) then place + 1 else place) }
{
    if has_trend(figure) { place + 1 } else { place }
}

/// By how much averages and contents change: fields behind those of the values.
fn trends_in(
    alloc: Global,
    parts: &[&[u8]],
    figures: &[Figure],
) -> Result<Vec<Option<i128>>, Memory>
    ensures may { IfOk result (λ trends. AllZip MayChange (labels figures.now) trends.items) }
    ensures read { IfOk result (λ t. ReadsTrend (labels figures.now) (lent_texts parts.now) t.items) }
{
    let mut trends = Vec::with_capacity(alloc, figures.len())?;
    let mut place = FIXED + figures.len();
    for i in 0..figures.len() {
        let figure = &figures[i];
        trends.push(trend_in(parts, place, figure))?;
        place = place_behind(place, figure);
    }
    Ok(trends)
}

/// What is kept of the run of a row.
fn run_in(alloc: Global, parts: &[&[u8]], figures: &[Figure]) -> Result<Run, Memory>
    ensures figures { IfOk result (HasFigures (labels figures.now)) }
    ensures read { IfOk result (ReadsRun (labels figures.now) (lent_texts parts.now)) }
{
    let values = values_in(alloc, parts, figures)?;
    let trend = trends_in(alloc, parts, figures)?;
    let overdraws = overdraws_in(alloc, part_at(parts, 8))?;
    Ok(Run {
        end: end_in(part_at(parts, 6)).unwrap_or(End::Done),
        steps: number_in(part_at(parts, 7)),
        values,
        trend,
        overdraws,
    })
}

/// The row whose fields these parts are, if they are those of one.
fn row_of(alloc: Global, parts: &[&[u8]], figures: &[Figure]) -> Result<Row, Memory>
    ensures { IfOk result (ReadsRow (labels figures.now) (lent_texts parts.now)) }
{
    let origin = origin_in(alloc, parts)?;
    let run = run_in(alloc, parts, figures)?;
    Ok(Row {
        origin,
        number: number_in(part_at(parts, 5)).min(u64::from(u32::MAX)) as u32,
        run,
    })
}

/// Whether a row may be one: of a run below 512, with a count from 1 to 2^40.
fn is_in_range(row: &Row) -> bool
    ensures { IsTrue result ↔ IsInRange row.now }
{
    row.number < MOST_RUNS && row.origin.count >= 1 && row.origin.count <= MOST_COUNT
}

/// Whether a line is that of a row.
fn is_line_of(alloc: Global, line: &[u8], figures: &[Figure], row: &Row) -> Result<bool, Memory>
    ensures row { IfOk result (λ is. IsTrue is ↔ HasRowText (labels figures.now) line.now row.now) }
    ensures range { OnOk result (MayBeInRange (labels figures.now) row.now.run) }
{
    let mut again = Vec::new(alloc);
    put_row(
        alloc,
        &mut again,
        figures,
        &row.origin,
        row.number,
        &row.run,
    )?;
    Ok(is_line(line, &again))
}

/// Whether a row may be one, and a line is that of it.
fn is_row_of(alloc: Global, line: &[u8], figures: &[Figure], row: &Row) -> Result<bool, Memory>
    ensures row { IfOk result (λ is. IsTrue is ↔ IsRowOf (labels figures.now) line.now row.now) }
    ensures range { IfOk result (λ is. IsTrue is → MayBeInRange (labels figures.now) row.now.run) }
{
    if is_in_range(row) {
        is_line_of(alloc, line, figures, row)
    } else {
        Ok(false)
    }
}

/// The row of a line without its line feed, where the figures are these: of a run below 512, with a count from 1 to 2^40. None where
/// it isn't a line as [`put_row`](crate::put_row) writes it of such a row, whose digest and point need no quotes.
pub fn row_in(alloc: Global, line: &[u8], figures: &[Figure]) -> Result<Option<Row>, Memory>
    ensures { IfOk result (FindsRow (labels figures.now) line.now) }
{
    let parts = parts_of(alloc, line, b',')?;
    let row = row_of(alloc, &parts, figures)?;
    if is_row_of(alloc, line, figures, &row)? {
        Ok(Some(row))
    } else {
        Ok(None)
    }
}
