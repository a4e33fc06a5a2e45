//! The plot of an entity: its axes, and what stands beside them. Places are in tenths of pixels.

ghost use Rattle.std.specs.Prelude.{◌≡◌, ◌≤◌, ◌<◌, ◌*◌, ◌+◌, ◌^◌, ◌++◌, OnOk};
ghost use Rattle.gw_chart.specs.Plots as model;

use crate::axis::Axis;
use crate::levels::{below_of, count_of, number_at, reach_of};
use gw_drawing::numbers::part_of_length;
use gw_drawing::text::{put_escaped, put_level_line, put_signed, put_tenths, put_text_at};
use gw_object::{Kind, Memory};
use gw_writing::put;

/// What is drawn of an entity.
#[derive(Clone, Copy, PartialEq, Eq)]
pub enum Plot {
    /// Whether a facility is owned.
    Owned,
    /// The units in a storage.
    Units,
    /// The units in a queue.
    Waiting,
    /// Whether a logic switch is set.
    Set,
    /// The members of a user chain.
    Members,
    /// The value of a savevalue.
    Value,
    /// The classes of a table.
    Classes,
}

/// The plot of a kind of entity, if it has one.
pub(crate) fn plot_of(kind: &Kind) -> Option<Plot>
    ensures { result ≡ model.plot_of kind.now }
{
    match kind {
        Kind::Facility => Some(Plot::Owned),
        Kind::Storage(_) => Some(Plot::Units),
        Kind::Queue => Some(Plot::Waiting),
        Kind::Switch(_) => Some(Plot::Set),
        Kind::Chain => Some(Plot::Members),
        Kind::Savevalue(_) => Some(Plot::Value),
        Kind::Table(_) => Some(Plot::Classes),
        _ => None,
    }
}

/// The plot of a kind of entity of which a line is drawn.
pub(crate) fn line_of(kind: &Kind) -> Option<Plot>
    ensures { result ≡ model.line_of kind.now }
{
    match kind {
        Kind::Table(_) => None,
        _ => plot_of(kind),
    }
}

/// What is written beside a plot.
#[derive(Clone, Copy)]
struct Words {
    /// What it shows.
    shown: &'static str,
    /// The unit of its upright axis.
    unit: &'static str,
}

/// What is written beside a plot.
fn words_of(plot: Plot) -> Words
    ensures shown { result.shown.now ≡ model.shown_in plot }
    ensures unit { result.unit.now ≡ model.unit_of plot }
{
    let (shown, unit) = match plot {
        Plot::Owned => ("facility, 1 where it is owned", "owned"),
        Plot::Units => ("storage, units in it; its capacity is dashed", "units"),
        Plot::Waiting => ("queue, units that wait", "waiting"),
        Plot::Set => ("switch, 1 where it is set", "set"),
        Plot::Members => ("user chain, members", "members"),
        Plot::Value => ("savevalue, its value", ""),
        Plot::Classes => ("table, values in each class over the whole run", "values"),
    };
    Words { shown, unit }
}

/// The colour of a plot.
pub(crate) fn colour_of(plot: Plot) -> &'static str
    ensures { result.now ≡ model.colour_of plot }
{
    match plot {
        Plot::Owned => "#4477aa",
        Plot::Units => "#228833",
        Plot::Waiting => "#cc5533",
        Plot::Set => "#997700",
        Plot::Members => "#117788",
        Plot::Value => "#aa4466",
        Plot::Classes => "#886699",
    }
}

/// How high a plot is.
pub(crate) fn height_of(plot: Plot) -> u64
    ensures value { result ≡ model.height_of plot }
    ensures most { result ≤ 1000 }
{
    match plot {
        Plot::Owned | Plot::Set => 400,
        _ => 1000,
    }
}

/// How high the panel of a plot is.
pub(crate) fn panel_height(plot: Plot) -> u64
    ensures value { result ≡ model.panel_height plot }
    ensures most { result ≤ 1800 }
{
    height_of(plot) + 800
}

/// Where a plot ends, from the upper end of its panel.
pub(crate) fn floor_of(plot: Plot) -> u64
    ensures value { result ≡ model.floor_of plot }
    ensures most { result ≤ 1320 }
{
    320 + height_of(plot)
}

/// An upright line through a plot.
pub(crate) fn put_upright_line(out: &mut Vec<u8>, x: u64, plot: Plot) -> Result<(), Memory>
    ensures { OnOk result (out.new.items ≡ out.old.items ++ model.upright_line x plot) }
{
    put(out, "<path d=\"M")?;
    put_tenths(out, x)?;
    put(out, " 32.0V")?;
    put_tenths(out, floor_of(plot))?;
    put(out, "\" stroke=\"#eee\"/>\n")
}

/// The name of an entity, in the colour of its plot, and what the plot shows.
pub(crate) fn put_title(out: &mut Vec<u8>, name: &[u8], plot: Plot) -> Result<(), Memory>
    ensures { OnOk result (out.new.items ≡ out.old.items ++ model.title name.now plot) }
{
    put(
        out,
        "<rect x=\"80\" y=\"12\" width=\"10\" height=\"10\" fill=\"",
    )?;
    put(out, colour_of(plot))?;
    put(
        out,
        "\"/>\n<text x=\"96\" y=\"21\"><tspan font-weight=\"bold\">",
    )?;
    put_escaped(out, name)?;
    put(out, "</tspan><tspan fill=\"#555\">: ")?;
    put(out, words_of(plot).shown)?;
    put(out, "</tspan></text>\n")
}

/// The unit of the upright axis.
pub(crate) fn put_unit(out: &mut Vec<u8>, plot: Plot) -> Result<(), Memory>
    ensures { OnOk result (out.new.items ≡ out.old.items ++ model.unit plot) }
{
    put(out, "<text transform=\"translate(14,")?;
    put_tenths(out, 320 + height_of(plot) / 2)?;
    put(out, ") rotate(-90)\" text-anchor=\"middle\" fill=\"#555\">")?;
    put(out, words_of(plot).unit)?;
    put(out, "</text>\n")
}

/// What stands below the level axis.
pub(crate) fn put_below(out: &mut Vec<u8>, plot: Plot, words: &str) -> Result<(), Memory>
    ensures { OnOk result (out.new.items ≡ out.old.items ++ model.below plot words.now) }
{
    let y = floor_of(plot) + 330;
    put_text_at(out, 3900, y, " text-anchor=\"middle\" fill=\"#555\"")?;
    put(out, words)?;
    put(out, "</text>\n")
}

/// The place of a step, from the upper end of a panel.
fn level_at(plot: Plot, axis: Axis, i: u64) -> u64
    requires { i ≤ axis.count }
    ensures value { result ≡ model.level_at plot axis i }
    ensures most { result ≤ 1320 }
{
    floor_of(plot) - part_of_length(height_of(plot), i, count_of(axis) as u128)
}

/// The number of a step beside a place.
#[tactic(auto, unfolding(crate::specs::Plots::number_text))]
fn put_number_text(out: &mut Vec<u8>, y: u64, axis: Axis, i: u64) -> Result<(), Memory>
    requires place { y ≤ 1320 }
    requires step { i ≤ axis.count }
    ensures { OnOk result (out.new.items ≡ out.old.items ++ model.number_text y axis i) }
{
    put_text_at(out, 740, y + 40, " text-anchor=\"end\"")?;
    put_signed(out, number_at(axis, i))?;
    put(out, "</text>\n")
}

/// The level line at a step, and its number.
fn put_level(out: &mut Vec<u8>, plot: Plot, axis: Axis, i: u64) -> Result<(), Memory>
    requires { i ≤ axis.count }
    ensures { OnOk result (out.new.items ≡ out.old.items ++ model.level plot axis i) }
{
    let y = level_at(plot, axis, i);
    put_level_line(out, y)?;
    put_number_text(out, y, axis, i)
}

/// The level lines at the steps below the end of the axis, and their numbers.
#[tactic(auto, unfolding(crate::specs::Plots::lower_levels))]
fn put_lower_levels(out: &mut Vec<u8>, plot: Plot, axis: Axis, count: u64) -> Result<(), Memory>
    requires { count ≡ axis.count }
    ensures { OnOk result (out.new.items ≡ out.old.items ++ model.lower_levels plot axis) }
{
    for i in 0..count {
        put_level(out, plot, axis, i)?;
    }
    Ok(())
}

/// The level lines at each step, from the lowest to the end of the axis, and their numbers.
#[tactic(auto, unfolding(crate::specs::Plots::levels))]
pub(crate) fn put_levels(out: &mut Vec<u8>, plot: Plot, axis: Axis) -> Result<(), Memory>
    ensures { OnOk result (out.new.items ≡ out.old.items ++ model.levels plot axis) }
{
    let count = count_of(axis);
    put_lower_levels(out, plot, axis, count)?;
    put_level(out, plot, axis, count)
}

/// How far from 0 a number is drawn.
fn length_of(plot: Plot, axis: Axis, number: i64) -> u64
    ensures value { result ≡ model.length_of plot axis number }
    ensures most { result ≤ 1000 }
{
    let reach = reach_of(axis);
    let shown = (number.unsigned_abs() as u128).min(reach) as u64;
    part_of_length(height_of(plot), shown, reach)
}

/// The place of a number, from the upper end of a panel.
pub(crate) fn height_at(plot: Plot, axis: Axis, number: i64) -> u64
    ensures { result ≡ model.height_at plot axis number }
{
    let zero = level_at(plot, axis, below_of(axis));
    let length = length_of(plot, axis, number);
    if number < 0 {
        zero + length
    } else {
        zero.saturating_sub(length)
    }
}
