//! The classes of a table, as bars.

ghost use Rattle.std.specs.Prelude.{◌≡◌, ◌≤◌, ◌<◌, ◌+◌, ◌++◌, length, slice_index, OnOk};
ghost use Rattle.gw_drawing.specs.Numbers.{greatest as greatest_of};
ghost use Rattle.gw_chart.specs.Plots.{height_of as plot_height};
ghost use Rattle.gw_chart.specs.Bars as model;

use crate::axis::Axis;
use crate::levels::{axis_to, reach_of};
use crate::plot::{
    Plot, colour_of, floor_of, height_of, put_below, put_levels, put_title, put_unit,
};
use gw_drawing::numbers::part_of_length;
use gw_drawing::text::{put_signed, put_tenths, put_text_at};
use gw_figures::upper_limit;
use gw_object::{Memory, Table};
use gw_writing::put;

/// The greatest of these, and at least 1.
#[tactic(auto, using(crate::proofs::Series::greatest_more, crate::proofs::Series::greatest_none))]
fn greatest(values: &[u64]) -> u64
    ensures value { result ≡ greatest_of (slice_index values.now) (length values.now) }
    ensures some { 0 < result }
{
    let mut most = 1;
    for i in 0..values.len() {
        most = most.max(values[i]);
    }
    most
}

/// How high the bar of so many values is.
fn bar_height(plot: Plot, axis: Axis, value: u64) -> u64
    ensures value { result ≡ model.bar_height plot axis value }
    ensures most { result ≤ plot_height plot }
{
    let reach = reach_of(axis);
    let shown = (value as u128).min(reach) as u64;
    part_of_length(height_of(plot), shown, reach)
}

/// Where the bar of a class of so many lies, by its number and its height.
fn put_bar_place(
    out: &mut Vec<u8>,
    plot: Plot,
    classes: u64,
    i: u64,
    height: u64,
) -> Result<(), Memory>
    requires class { i < classes }
    requires height { height ≤ plot_height plot }
    ensures { OnOk result (out.new.items ≡ out.old.items ++ model.bar_place plot classes i height) }
{
    let x = 800 + part_of_length(6200, i, classes as u128) + 6200 / classes / 10;
    put(out, "<rect x=\"")?;
    put_tenths(out, x)?;
    put(out, "\" y=\"")?;
    put_tenths(out, floor_of(plot) - height)
}

/// How wide and how high the bar of a class of so many is, and its colour.
fn put_bar_size(out: &mut Vec<u8>, plot: Plot, classes: u64, height: u64) -> Result<(), Memory>
    requires { 0 < classes }
    ensures { OnOk result (out.new.items ≡ out.old.items ++ model.bar_size plot classes height) }
{
    let width = 6200 / classes;
    put(out, "\" width=\"")?;
    put_tenths(out, width - width / 5)?;
    put(out, "\" height=\"")?;
    put_tenths(out, height)?;
    put(out, "\" fill=\"")?;
    put(out, colour_of(plot))?;
    put(out, "\"/>\n")
}

/// The bar of a class of so many, by its number, with so many values.
fn put_bar(
    out: &mut Vec<u8>,
    plot: Plot,
    axis: Axis,
    classes: u64,
    i: u64,
    value: u64,
) -> Result<(), Memory>
    requires { i < classes }
    ensures { OnOk result (out.new.items ≡ out.old.items ++ model.bar plot axis classes i value) }
{
    let height = bar_height(plot, axis, value);
    put_bar_place(out, plot, classes, i, height)?;
    put_bar_size(out, plot, classes, height)
}

/// The upper limit of a class of so many; the last has none.
fn put_limit_text(out: &mut Vec<u8>, table: &Table, classes: u64, i: u64) -> Result<(), Memory>
    requires { i < classes }
    ensures { OnOk result (out.new.items ≡ out.old.items ++ model.limit_text table.now classes i) }
{
    if i + 1 == classes {
        put(out, "more")
    } else {
        put_signed(out, upper_limit(table, i))
    }
}

/// The same, below its bar.
fn put_limit(
    out: &mut Vec<u8>,
    plot: Plot,
    table: &Table,
    classes: u64,
    i: u64,
) -> Result<(), Memory>
    requires { i < classes }
    ensures { OnOk result (out.new.items ≡ out.old.items ++ model.limit plot table.now classes i) }
{
    let x = 800 + part_of_length(6200, i, classes as u128) + 6200 / classes / 2;
    put_text_at(out, x, floor_of(plot) + 160, " text-anchor=\"middle\"")?;
    put_limit_text(out, table, classes, i)?;
    put(out, "</text>\n")
}

/// Whether there is room for the upper limit of a class of so many: below one of so many bars, but for those near
/// the last, and below the last.
fn has_room(classes: u64, i: u64) -> bool
    requires { i < classes }
    ensures { result ≡ model.has_room classes i }
{
    (i % (classes / 12 + 1) == 0 && classes - i > classes / 12 + 1) || i + 1 == classes
}

/// A class: its bar, and its upper limit where there is room for it.
fn put_class(
    out: &mut Vec<u8>,
    plot: Plot,
    axis: Axis,
    table: &Table,
    values: &[u64],
    i: usize,
) -> Result<(), Memory>
    requires { i < length values.now }
    ensures { OnOk result (out.new.items ≡ out.old.items
        ++ model.class plot axis table.now values.now i) }
{
    put_bar(out, plot, axis, values.len() as u64, i as u64, values[i])?;
    if has_room(values.len() as u64, i as u64) {
        put_limit(out, plot, table, values.len() as u64, i as u64)
    } else {
        Ok(())
    }
}

/// The classes of a table, one after the other.
#[tactic(auto, unfolding(crate::specs::Bars::classes))]
fn put_classes(
    out: &mut Vec<u8>,
    plot: Plot,
    axis: Axis,
    table: &Table,
    values: &[u64],
) -> Result<(), Memory>
    ensures { OnOk result (out.new.items ≡ out.old.items
        ++ model.classes plot axis table.now values.now) }
{
    for i in 0..values.len() {
        put_class(out, plot, axis, table, values, i)?;
    }
    Ok(())
}

/// The panel of a table, whose name is given, with so many values in each class.
#[tactic(auto, unfolding(crate::specs::Bars::bar_panel))]
pub(crate) fn put_bar_panel(
    out: &mut Vec<u8>,
    plot: Plot,
    name: &[u8],
    table: &Table,
    values: &[u64],
) -> Result<(), Memory>
    ensures { OnOk result (out.new.items ≡ out.old.items
        ++ model.bar_panel plot name.now table.now values.now) }
{
    let axis = axis_to(greatest(values), 0);
    put_title(out, name, plot)?;
    put_unit(out, plot)?;
    put_levels(out, plot, axis)?;
    put_classes(out, plot, axis, table, values)?;
    put_below(out, plot, "class, by its upper limit")
}
