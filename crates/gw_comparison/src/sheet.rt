//! Points as CSV.

ghost use Rattle.std.specs.Prelude.{◌≡◌, ◌++◌, IfOk, OnOk};
ghost use Rattle.std.specs.Fmt.{decimal};
ghost use Rattle.gw_writing.specs.Decimals.{signed_with_point};
ghost use Rattle.gw_comparison.specs.Sheets as model;
ghost use Rattle.gw_comparison.specs.Sheets.{AddsEach, AddsPairRecords, account_record, head_fields, summary_record};
ghost use Rattle.gw_records.specs.Records.{record_text};

use crate::accounts::{Account, account_in, column_of, is_told};
use crate::differences::account_between;
use crate::point::{Column, Point};
use gw_object::Memory;
use gw_records::put_record;
use gw_statistics::Summary;
use gw_writing::{put_number, put_signed_decimal};
use std::alloc::Global;

/// What the fields are.
fn put_head(alloc: Global, out: &mut Vec<u8>) -> Result<(), Memory>
    ensures { OnOk result (out.new.items ≡ out.old.items ++ record_text head_fields) }
{
    put_record(
        alloc,
        out,
        &[
            b"point",
            b"figure",
            b"runs",
            b"mean",
            b"half-width",
            b"least",
            b"greatest",
        ],
    )
}

/// A number of millionths as a field.
fn field_of(alloc: Global, number: &i128) -> Result<Vec<u8>, Memory>
    ensures { IfOk result (λ field. field.items ≡ signed_with_point 6 number.now) }
{
    let mut field = Vec::new(alloc);
    put_signed_decimal(&mut field, 6, *number)?;
    Ok(field)
}

/// A half-width as a field: empty where there is none.
fn half_width_field(alloc: Global, half_width: Option<u128>) -> Result<Vec<u8>, Memory>
    ensures { IfOk result (λ field. field.items ≡ model.half_width_field half_width) }
{
    match half_width {
        Some(half_width) if half_width <= 1 << 120 => field_of(alloc, &(half_width as i128)),
        _ => Ok(Vec::new(alloc)),
    }
}

/// A count as a field.
fn count_field(alloc: Global, count: usize) -> Result<Vec<u8>, Memory>
    ensures { IfOk result (λ field. field.items ≡ decimal count) }
{
    let mut field = Vec::new(alloc);
    put_number(&mut field, "", count)?;
    Ok(field)
}

/// The record of a figure with values.
fn put_summary(
    alloc: Global,
    out: &mut Vec<u8>,
    point: &[u8],
    figure: &[u8],
    count: usize,
    summary: &Summary,
) -> Result<(), Memory>
    ensures { OnOk result
        (out.new.items ≡ out.old.items ++ summary_record point.now figure.now count summary.now) }
{
    let runs = count_field(alloc, count)?;
    let mean = field_of(alloc, &summary.mean)?;
    let half_width = half_width_field(alloc, summary.half_width)?;
    let least = field_of(alloc, &summary.least)?;
    let greatest = field_of(alloc, &summary.greatest)?;
    put_record(
        alloc,
        out,
        &[point, figure, &runs, &mean, &half_width, &least, &greatest],
    )
}

/// The record of a figure at a point.
fn put_account(
    alloc: Global,
    out: &mut Vec<u8>,
    point: &[u8],
    figure: &[u8],
    account: &Account,
) -> Result<(), Memory>
    ensures { OnOk result
        (out.new.items ≡ out.old.items ++ account_record point.now figure.now account.now) }
{
    match &account.summary {
        Some(summary) => put_summary(alloc, out, point, figure, account.count, summary),
        None => put_record(alloc, out, &[point, figure, b"0", b"", b"", b"", b""]),
    }
}

/// The record of a column, if it is told.
fn put_column(
    alloc: Global,
    out: &mut Vec<u8>,
    point: &[u8],
    column: &Column,
    all: bool,
) -> Result<(), Memory>
    ensures { OnOk result
        (model.AddsColumn all point.now column.now out.old.items out.new.items) }
{
    if !is_told(column, all) {
        return Ok(());
    }
    let account = account_in(alloc, column)?;
    put_account(alloc, out, point, &column.name, &account)
}

/// The records of columns.
fn put_columns(
    alloc: Global,
    out: &mut Vec<u8>,
    point: &[u8],
    columns: &[Column],
    all: bool,
) -> Result<(), Memory>
    ensures { OnOk result
        (AddsEach (model.AddsColumn all point.now) columns.now out.old.items out.new.items) }
{
    for i in 0..columns.len() {
        put_column(alloc, out, point, &columns[i], all)?;
    }
    Ok(())
}

/// The records of a point.
fn put_point(alloc: Global, out: &mut Vec<u8>, point: &Point, all: bool) -> Result<(), Memory>
    ensures { OnOk result (model.AddsColumns all point.now out.old.items out.new.items) }
{
    put_columns(alloc, out, &point.name, &point.columns, all)
}

/// The records of all points.
fn put_points(alloc: Global, out: &mut Vec<u8>, points: &[Point], all: bool) -> Result<(), Memory>
    ensures { OnOk result
        (AddsEach (model.AddsColumns all) points.now out.old.items out.new.items) }
{
    for i in 0..points.len() {
        put_point(alloc, out, &points[i], all)?;
    }
    Ok(())
}

/// What a difference is called: the point, and the first.
fn difference_name(alloc: Global, first: &[u8], second: &[u8]) -> Result<Vec<u8>, Memory>
    ensures { IfOk result (λ name. name.items ≡ model.difference_name first.now second.now) }
{
    let mut name = Vec::new(alloc);
    name.extend_from_slice(second)?;
    name.extend_from_slice(b" LESS ")?;
    name.extend_from_slice(first)?;
    Ok(name)
}

/// The record of the differences of a figure.
fn put_difference_of(
    alloc: Global,
    out: &mut Vec<u8>,
    name: &[u8],
    first: &Column,
    second: &Column,
) -> Result<(), Memory>
    ensures { OnOk result
        (model.AddsPairRecord name.now first.now second.now out.old.items out.new.items) }
{
    let account = account_between(alloc, first, second)?;
    put_account(alloc, out, name, &first.name, &account)
}

/// The record of the differences of a figure, if both points have it and it is told.
fn put_difference(
    alloc: Global,
    out: &mut Vec<u8>,
    name: &[u8],
    first: &Column,
    others: &[Column],
    all: bool,
) -> Result<(), Memory>
    ensures { OnOk result (model.AddsDifferenceIfTold all name.now others.now first.now
        out.old.items out.new.items) }
{
    if !is_told(first, all) {
        return Ok(());
    }
    match column_of(others, &first.name) {
        Some(second) => put_difference_of(alloc, out, name, first, second),
        None => Ok(()),
    }
}

/// The records of the differences of columns.
fn put_each_difference(
    alloc: Global,
    out: &mut Vec<u8>,
    name: &[u8],
    columns: &[Column],
    others: &[Column],
    all: bool,
) -> Result<(), Memory>
    ensures { OnOk result
        (AddsPairRecords all name.now others.now columns.now out.old.items out.new.items) }
{
    for i in 0..columns.len() {
        put_difference(alloc, out, name, &columns[i], others, all)?;
    }
    Ok(())
}

/// The records of the differences of a point to the first.
fn put_differences(
    alloc: Global,
    out: &mut Vec<u8>,
    first: &Point,
    second: &Point,
    all: bool,
) -> Result<(), Memory>
    ensures { OnOk result (model.AddsDifferenceRecords all first.now second.now
        out.old.items out.new.items) }
{
    let name = difference_name(alloc, &first.name, &second.name)?;
    put_each_difference(alloc, out, &name, &first.columns, &second.columns, all)
}

/// The records of the differences of points to the first.
fn put_others(
    alloc: Global,
    out: &mut Vec<u8>,
    first: &Point,
    others: &[Point],
    all: bool,
) -> Result<(), Memory>
    ensures { OnOk result
        (model.AddsOtherRecords all first.now others.now out.old.items out.new.items) }
{
    for i in 0..others.len() {
        put_differences(alloc, out, first, &others[i], all)?;
    }
    Ok(())
}

/// The records of the differences of all points to the first.
fn put_all_differences(
    alloc: Global,
    out: &mut Vec<u8>,
    points: &[Point],
    all: bool,
) -> Result<(), Memory>
    ensures { OnOk result
        (model.AddsAllDifferenceRecords all points.now out.old.items out.new.items) }
{
    match points {
        [first, others @ ..] => put_others(alloc, out, first, others, all),
        [] => Ok(()),
    }
}

/// Points as CSV: a record for each figure of each point, with the point's name, the figure's, how many runs have a value, and
/// the mean, the half-width, the least and the greatest of these; then the same of the differences of each point to the first;
/// numbers with six digits behind the point; a field is empty where there is
/// none. The first record has the names of the fields. Each ends by a carriage return and a line feed (RFC 4180).
pub fn put_sheet(
    alloc: Global,
    out: &mut Vec<u8>,
    points: &[Point],
    all: bool,
) -> Result<(), Memory>
    ensures { OnOk result (model.AddsSheet all points.now out.old.items out.new.items) }
{
    put_head(alloc, out)?;
    put_points(alloc, out, points, all)?;
    put_all_differences(alloc, out, points, all)
}
