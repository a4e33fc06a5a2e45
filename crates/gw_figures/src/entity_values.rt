//! The values of an entity's figures, by its kind.

ghost use Rattle.std.specs.Prelude.{◌≡◌, ◌≤◌, ◌^◌, ◌++◌, ◌-ℤ◌, unsigned_abs, OnOk};
ghost use Rattle.gw_figures.specs.Values as model;
ghost use Rattle.gw_figures.specs.Windows.{AddsValues, span_of, greatest as greatest_of};

use crate::classes::rises;
use crate::percentiles::percentile;
use crate::quotients::{quotient, rise, signed_quotient, signed_units, units};
use crate::window::{Window, span_length};
use gw_entities::Contents;
use gw_object::{Kind, Memory, Table};
use gw_report::TableFigures;
use std::alloc::Global;

/// The greatest content of a run; a window doesn't tell it.
fn greatest(window: &Window<'_>, most: u64) -> Option<i128>
    ensures { result ≡ greatest_of (span_of window.now) most }
{
    if window.whole { units(most) } else { None }
}

fn put_facility(
    out: &mut Vec<Option<i128>>,
    window: &Window<'_>,
    number: usize,
) -> Result<(), Memory>
    ensures { AddsValues result out.old out.new
        (model.facility_values (span_of window.now) number) }
{
    let before = window.start.entity(number).facility;
    let after = window.end.entity(number).facility;
    let busy = after.busy.saturating_sub(before.busy);
    out.push(rise(before.entries, after.entries))?;
    out.push(units(window.end.entity(number).waiting as u64))?;
    out.push(quotient(busy, span_length(window)))?;
    out.push(quotient(busy, after.entries.saturating_sub(before.entries)))?;
    Ok(())
}

fn put_contents(
    out: &mut Vec<Option<i128>>,
    window: &Window<'_>,
    before: Contents,
    after: Contents,
) -> Result<(), Memory>
    ensures { AddsValues result out.old out.new
        (model.contents_values (span_of window.now) before after) }
{
    out.push(units(after.content))?;
    out.push(greatest(window, after.maximum))?;
    out.push(rise(before.entries, after.entries))?;
    Ok(())
}

fn put_stay(
    out: &mut Vec<Option<i128>>,
    window: &Window<'_>,
    before: Contents,
    after: Contents,
) -> Result<(), Memory>
    ensures { AddsValues result out.old out.new
        (model.stay_values (span_of window.now) before after) }
{
    let time_sum = after.time_sum.saturating_sub(before.time_sum);
    out.push(quotient(time_sum, span_length(window)))?;
    out.push(quotient(time_sum, after.entries.saturating_sub(before.entries)))?;
    Ok(())
}

fn put_storage(
    out: &mut Vec<Option<i128>>,
    window: &Window<'_>,
    number: usize,
) -> Result<(), Memory>
    ensures { AddsValues result out.old out.new
        (model.storage_values (span_of window.now) number) }
{
    let before = window.start.entity(number).storage.contents;
    let after = window.end.entity(number).storage.contents;
    put_contents(out, window, before, after)?;
    out.push(units(window.end.entity(number).waiting as u64))?;
    put_stay(out, window, before, after)
}

fn put_queue(out: &mut Vec<Option<i128>>, window: &Window<'_>, number: usize) -> Result<(), Memory>
    ensures { AddsValues result out.old out.new
        (model.queue_values (span_of window.now) number) }
{
    let before = window.start.entity(number).queue;
    let after = window.end.entity(number).queue;
    put_contents(out, window, before, after)?;
    put_stay(out, window, before, after)
}

/// Which part of so many values each class has.
fn put_shares(out: &mut Vec<Option<i128>>, count: u64, classes: &[u64]) -> Result<(), Memory>
    ensures { AddsValues result out.old out.new (model.shares count classes.now) }
{
    for values in classes {
        out.push(quotient(u128::from(*values), count))?;
    }
    Ok(())
}

/// The sum of the values that a table got.
fn added(before: TableFigures, after: TableFigures) -> i128
    ensures value { result ≡ after.sum -ℤ before.sum }
    ensures range { unsigned_abs result ≤ 2 ^ 64 }
{
    i128::from(after.sum) - i128::from(before.sum)
}

/// How many values a table got, their sum, and their mean.
fn put_sums(
    out: &mut Vec<Option<i128>>,
    before: TableFigures,
    after: TableFigures,
) -> Result<(), Memory>
    ensures { AddsValues result out.old out.new (model.sum_values before after) }
{
    let count = after.count.saturating_sub(before.count);
    let sum = added(before, after);
    out.push(units(count))?;
    out.push(signed_units(sum))?;
    out.push(signed_quotient(sum, count))?;
    Ok(())
}

/// The percentiles of so many values of a table, and the part of each class.
fn put_classes(
    out: &mut Vec<Option<i128>>,
    table: &Table,
    count: u64,
    classes: &[u64],
) -> Result<(), Memory>
    ensures { AddsValues result out.old out.new
        (model.classes_values table.now count classes.now) }
{
    out.push(percentile(table, 50, count, classes))?;
    out.push(percentile(table, 90, count, classes))?;
    out.push(percentile(table, 95, count, classes))?;
    put_shares(out, count, classes)
}

fn put_table(
    alloc: Global,
    out: &mut Vec<Option<i128>>,
    window: &Window<'_>,
    number: usize,
    table: &Table,
) -> Result<(), Memory>
    ensures { AddsValues result out.old out.new
        (model.table_values table.now (span_of window.now) number) }
{
    let before = window.start.entity(number).table;
    let after = window.end.entity(number).table;
    let classes = rises(
        alloc,
        table.classes,
        window.start.classes(number),
        window.end.classes(number),
    )?;
    put_sums(out, before, after)?;
    put_classes(
        out,
        table,
        after.count.saturating_sub(before.count),
        &classes,
    )
}

/// The values of the figures of an entity of this kind and this number: a variable and a function have none.
pub(crate) fn put_entity(
    alloc: Global,
    out: &mut Vec<Option<i128>>,
    window: &Window<'_>,
    number: usize,
    kind: &Kind,
) -> Result<(), Memory>
    ensures { AddsValues result out.old out.new
        (model.kind_values kind.now (span_of window.now) number) }
{
    match kind {
        Kind::Facility => put_facility(out, window, number),
        Kind::Storage(_) => put_storage(out, window, number),
        Kind::Queue => put_queue(out, window, number),
        Kind::Switch(_) => {
            out.push(units(u64::from(window.end.entity(number).switch)))?;
            Ok(())
        }
        Kind::Savevalue(_) => {
            out.push(signed_units(i128::from(window.end.entity(number).savevalue)))?;
            Ok(())
        }
        Kind::Table(table) => put_table(alloc, out, window, number, table),
        Kind::Chain => {
            out.push(units(window.end.entity(number).members as u64))?;
            Ok(())
        }
        Kind::Variable(_) | Kind::BooleanVariable(_) | Kind::Function(_) => Ok(()),
    }
}
