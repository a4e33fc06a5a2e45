//! A row: a run, and of what it is one.

ghost use Rattle.std.specs.Prelude.{◌≡◌, ◌<◌, ◌^◌, ◌++◌, ◌∷◌, [], map, true, IfOk, OnOk};
ghost use Rattle.std.specs.List.{All};
ghost use Rattle.gw_figures.specs.Labels.{label_of, labels};
ghost use Rattle.gw_rows.specs.Amounts.{amount_field as amount_text};
ghost use Rattle.gw_rows.specs.Names.{has_trend as has_trend_of};
ghost use Rattle.gw_rows.specs.Reading.{IsAmount, IsStreamInRange, MayBeAmounts, MayBeInRange};
ghost use Rattle.gw_rows.specs.Rows as model;
ghost use Rattle.gw_rows.specs.Rows.{AddsFields};

use crate::amounts::amount_field;
use crate::ends::word_of;
use crate::header::has_trend;
use crate::origin::Origin;
use crate::overdraws::overdraws_field;
use crate::record::{copy_of, put_owned};
use gw_figures::{Figure, Run, value_at};
use gw_object::Memory;
use itoa::{Buffer, Integer};
use std::alloc::Global;

/// A run, and of what it is one.
#[derive(Drop)]
pub struct Row {
    /// Of what it is one.
    pub origin: Origin,
    /// Its number, which says its seeds.
    pub number: u32,
    /// What is kept of it.
    pub run: Run,
}

/// A whole number as a field.
fn number_field<I: Integer>(alloc: Global, number: I) -> Result<Vec<u8>, Memory>
    ensures { IfOk result (λ field. field.items ≡ I.text number) }
{
    let mut buffer = Buffer::new();
    copy_of(alloc, buffer.format(number).as_bytes())
}

/// How many rows there are in all, as a field: empty where that isn't known.
fn rows_field(alloc: Global, rows: u64) -> Result<Vec<u8>, Memory>
    ensures { IfOk result (λ field. field.items ≡ model.rows_field rows) }
{
    if rows == 0 {
        return Ok(Vec::new(alloc));
    }
    number_field(alloc, rows)
}

/// The fields of what a run is one of.
fn put_origin(alloc: Global, fields: &mut Vec<Vec<u8>>, origin: &Origin) -> Result<(), Memory>
    ensures { AddsFields result fields.old fields.new
        (model.source_fields (model.source_of origin.now)) }
{
    fields.push(copy_of(alloc, &origin.model)?)?;
    fields.push(rows_field(alloc, origin.rows)?)?;
    fields.push(copy_of(alloc, &origin.point)?)?;
    fields.push(number_field(alloc, origin.count)?)?;
    fields.push(number_field(alloc, origin.from)?)?;
    Ok(())
}

/// The fields of which run it is, how it ended, and what it may have drawn.
fn put_end(alloc: Global, fields: &mut Vec<Vec<u8>>, number: u32, run: &Run) -> Result<(), Memory>
    ensures fields { AddsFields result fields.old fields.new (model.end_fields number run.now) }
    ensures steps { OnOk result (run.now.steps < 2 ^ 64) }
    ensures overdraws { OnOk result (All IsStreamInRange run.now.overdraws.items) }
{
    fields.push(number_field(alloc, number)?)?;
    fields.push(copy_of(alloc, word_of(run.end).as_bytes())?)?;
    fields.push(number_field(alloc, run.steps)?)?;
    fields.push(overdraws_field(alloc, &run.overdraws)?)?;
    Ok(())
}

/// The fields of values.
fn put_values(
    alloc: Global,
    fields: &mut Vec<Vec<u8>>,
    values: &[Option<i128>],
) -> Result<(), Memory>
    ensures fields { AddsFields result fields.old fields.new (map amount_text values.now) }
    ensures range { OnOk result (All IsAmount values.now) }
{
    for i in 0..values.len() {
        fields.push(amount_field(alloc, values[i])?)?;
    }
    Ok(())
}

/// The field of the change of a figure, where rows tell it.
fn put_trend(
    alloc: Global,
    fields: &mut Vec<Vec<u8>>,
    figure: &Figure,
    trend: Option<i128>,
) -> Result<(), Memory>
    ensures field { AddsFields result fields.old fields.new
        (model.trend_field (label_of figure.now) trend) }
    ensures range { OnOk result (has_trend_of (label_of figure.now) ≡ true → IsAmount trend) }
{
    if !has_trend(figure) {
        return Ok(());
    }
    fields.push(amount_field(alloc, trend)?)?;
    Ok(())
}

/// The fields of the changes of averages and contents.
#[tactic(auto, unfolding(crate::specs::Rows::trend_fields))]
fn put_trends(
    alloc: Global,
    fields: &mut Vec<Vec<u8>>,
    figures: &[Figure],
    trends: &[Option<i128>],
) -> Result<(), Memory>
    ensures fields { AddsFields result fields.old fields.new
        (model.trend_fields (labels figures.now) 0 trends.now) }
    ensures range { OnOk result (MayBeAmounts (labels figures.now) trends.now) }
{
    for i in 0..figures.len() {
        put_trend(alloc, fields, &figures[i], value_at(trends, i))?;
    }
    Ok(())
}

/// The row of a run, behind others: a line with the fields that [`put_header`](crate::put_header) names.
#[tactic(auto, unfolding(crate::specs::Rows::row), using(crate::proofs::InRange::run_in_range))]
pub fn put_row(
    alloc: Global,
    out: &mut Vec<u8>,
    figures: &[Figure],
    origin: &Origin,
    number: u32,
    run: &Run,
) -> Result<(), Memory>
    ensures row { OnOk result
        (out.new.items ≡ out.old.items ++ model.row_by figures.now origin.now number run.now) }
    ensures range { OnOk result (MayBeInRange (labels figures.now) run.now) }
{
    let mut fields = Vec::new(alloc);
    put_origin(alloc, &mut fields, origin)?;
    put_end(alloc, &mut fields, number, run)?;
    put_values(alloc, &mut fields, &run.values)?;
    put_trends(alloc, &mut fields, figures, &run.trend)?;
    put_owned(alloc, out, &fields)
}
