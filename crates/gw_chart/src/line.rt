//! What is in an entity over time, as a line.

ghost use Rattle.std.specs.Prelude.{◌≡◌, ◌≤◌, ◌<◌, ◌*◌, ◌+◌, ◌/◌, length};
ghost use Rattle.std.specs.Int.{div_ceil};
ghost use Rattle.gw_drawing.specs.Numbers.{round_step as step_of, greatest as greatest_of};
ghost use Rattle.gw_chart.specs.Plots.{height_at as place_of_number};
ghost use Rattle.gw_chart.specs.Lines as model;
ghost use Rattle.gw_chart.specs.Views as views;
ghost use Rattle.gw_chart.specs.Views.{of_bands, of_curve};
ghost use Rattle.gw_writing.specs.Text.{Puts};

use crate::axis::Axis;
use crate::bands::{Band, band_of};
use crate::levels::{axis_to, depth_below, height_above};
use crate::plot::{
    Plot, colour_of, floor_of, height_at, put_below, put_levels, put_title, put_unit,
    put_upright_line,
};
use crate::samples::Samples;
use crate::window::{Window, span_of};
use gw_drawing::numbers::{part_of_length, round_step};
use gw_drawing::text::{put_label, put_tenths};
use gw_object::{Items, Kind, Memory};
use gw_writing::put;

/// What was in an entity, to be drawn.
#[derive(Clone, Copy)]
struct Curve<'a> {
    /// The plot.
    plot: Plot,
    /// The axis of its upright axis.
    axis: Axis,
    /// What was seen of the run.
    seen: &'a Samples,
    /// The number of the entity.
    entity: usize,
}

/// How far it is along a clock axis of this length to a clock, which lies so far behind its begin.
fn place_of(span: u64, part: u64) -> u64
    requires { (0 < span) × (part ≤ span) }
    ensures value { result ≡ model.place_of span part }
    ensures most { result ≤ 7000 }
{
    800 + part_of_length(6200, part, span as u128)
}

/// The upright line at a clock on an axis that begins at another and reaches so far, and the clock.
fn put_clock(out: &mut Vec<u8>, plot: Plot, from: u64, span: u64, time: u128) -> Result<(), Memory>
    requires span { 0 < span }
    requires within { (from ≤ time) × (time ≤ from + span) }
    ensures { Puts result out.old out.new (model.clock plot from span time) }
{
    let x = place_of(span, (time - from as u128) as u64);
    put_upright_line(out, x, plot)?;
    put_label(
        out,
        x,
        floor_of(plot) + 160,
        " text-anchor=\"middle\"",
        time,
    )
}

/// Those at the multiples of a step within, of which this is the first, and of which there are so many.
fn put_clocks_by(
    out: &mut Vec<u8>,
    plot: Plot,
    from: u64,
    span: u64,
    step: u128,
) -> Result<(), Memory>
    requires { (0 < span) × (0 < step) }
    ensures { Puts result out.old out.new (model.clocks_by plot from span step) }
{
    let first = (from as u128).div_ceil(step);
    let behind = (from as u128 + span as u128) / step + 1;
    for i in 0..behind.saturating_sub(first) {
        put_clock(out, plot, from, span, step * (first + i))?;
    }
    Ok(())
}

/// Those at each round step within.
#[tactic(auto, unfolding(crate::specs::Lines::clocks))]
fn put_clocks(out: &mut Vec<u8>, plot: Plot, from: u64, span: u64) -> Result<(), Memory>
    requires { 0 < span }
    ensures { Puts result out.old out.new (model.clocks plot from span) }
{
    put_clocks_by(out, plot, from, span, round_step(span))
}

/// What was in an entity, by its number, at a moment, by its number; 0 where there is none.
pub(crate) fn content(rows: &[Items<i64>], entity: usize, moment: usize) -> i64
    ensures { result ≡ model.content rows.now entity moment }
{
    match rows.get(moment) {
        Some(row) => row.as_slice().get(entity).copied().unwrap_or(0),
        None => 0,
    }
}

/// The least and the greatest of what was in an entity, by its number, from a moment, by its number, to the next; 0 where there are
/// none.
pub(crate) fn band_at(bands: &[Items<Band>], entity: usize, moment: usize) -> Band
    ensures { result ≡ model.band_at bands.now entity moment }
{
    let none = band_of(0);
    match bands.get(moment) {
        Some(row) => row.as_slice().get(entity).copied().unwrap_or(none),
        None => none,
    }
}

/// How far what was in an entity lay above 0 at most, from each moment to the next, and at least 1.
#[tactic(auto, using(crate::proofs::Series::greatest_more, crate::proofs::Series::greatest_none))]
fn most_in(bands: &[Items<Band>], entity: usize) -> u64
    ensures value { result ≡ model.most_in bands.now entity }
    ensures some { 0 < result }
{
    let mut most = 1;
    for i in 0..499 {
        most = most.max(height_above(band_at(bands, entity, i).greatest));
    }
    most
}

/// How far it lay below 0 at most.
#[tactic(auto, using(crate::proofs::Series::deepest_more, crate::proofs::Series::deepest_none))]
fn least_in(bands: &[Items<Band>], entity: usize) -> u64
    ensures { result ≡ model.least_in bands.now entity }
{
    let mut depth = 0;
    for i in 0..499 {
        depth = depth.max(depth_below(band_at(bands, entity, i).least));
    }
    depth
}

/// A point: a moment, by its number, and a place.
fn put_point(out: &mut Vec<u8>, moment: u64, y: u64) -> Result<(), Memory>
    requires { moment ≤ 499 }
    ensures { Puts result out.old out.new (model.point moment y) }
{
    put(out, " ")?;
    put_tenths(out, 800 + part_of_length(6200, moment, 499))?;
    put(out, ",")?;
    put_tenths(out, y)
}

/// A line that goes up or down at a moment.
fn put_turn(out: &mut Vec<u8>, moment: u64, from: u64, to: u64) -> Result<(), Memory>
    requires { moment ≤ 499 }
    ensures { Puts result out.old out.new (model.turn moment from to) }
{
    put_point(out, moment, from)?;
    put_point(out, moment, to)
}

/// The points at the moment after this one: none where nothing changed.
fn put_points_after(out: &mut Vec<u8>, curve: &Curve<'_>, moment: usize) -> Result<(), Memory>
    requires { moment < 499 }
    ensures { Puts result out.old out.new (of_curve model.points_after curve.now moment) }
{
    let from = content(curve.seen.rows.as_slice(), curve.entity, moment);
    let to = content(curve.seen.rows.as_slice(), curve.entity, moment + 1);
    if to == from {
        return Ok(());
    }
    put_turn(
        out,
        moment as u64 + 1,
        height_at(curve.plot, curve.axis, from),
        height_at(curve.plot, curve.axis, to),
    )
}

/// The point at a moment, by its number, where a content is shown.
fn put_point_at(out: &mut Vec<u8>, curve: &Curve<'_>, moment: usize) -> Result<(), Memory>
    requires { moment ≤ 499 }
    ensures { Puts result out.old out.new (of_curve model.point_at curve.now moment) }
{
    let value = content(curve.seen.rows.as_slice(), curve.entity, moment);
    let y = height_at(curve.plot, curve.axis, value);
    put_point(out, moment as u64, y)
}

/// The points at all moments after the first.
#[tactic(auto, unfolding(crate::specs::Lines::turns))]
fn put_turns(out: &mut Vec<u8>, curve: &Curve<'_>) -> Result<(), Memory>
    ensures { Puts result out.old out.new (of_curve model.turns curve.now) }
{
    for i in 0..499 {
        put_points_after(out, curve, i)?;
    }
    Ok(())
}

/// The points of a line over the moments: it goes level from moment to moment, and up or down where the content changes.
#[tactic(auto, unfolding(crate::specs::Lines::points))]
fn put_points(out: &mut Vec<u8>, curve: &Curve<'_>) -> Result<(), Memory>
    ensures { Puts result out.old out.new (of_curve model.points curve.now) }
{
    put_point_at(out, curve, 0)?;
    put_turns(out, curve)?;
    put_point_at(out, curve, 499)
}

/// The line.
#[tactic(auto, unfolding(crate::specs::Lines::line))]
fn put_polyline(out: &mut Vec<u8>, curve: &Curve<'_>) -> Result<(), Memory>
    ensures { Puts result out.old out.new (of_curve model.line curve.now) }
{
    put(out, "<polyline fill=\"none\" stroke=\"")?;
    put(out, colour_of(curve.plot))?;
    put(out, "\" points=\"")?;
    put_points(out, curve)?;
    put(out, "\"/>\n")
}

/// Whether the least and the greatest lie beyond what was in an entity at both moments.
fn is_beyond(band: Band, before: i64, behind: i64) -> bool
    ensures { result ≡ model.is_beyond band before behind }
{
    band.least < before.min(behind) || before.max(behind) < band.greatest
}

/// The place of the greatest, from the upper end of a panel.
fn greatest_at(plot: Plot, axis: Axis, band: Band) -> u64
    ensures { result ≡ place_of_number plot axis band.greatest }
{
    height_at(plot, axis, band.greatest)
}

/// The place of the least.
fn least_at(plot: Plot, axis: Axis, band: Band) -> u64
    ensures { result ≡ place_of_number plot axis band.least }
{
    height_at(plot, axis, band.least)
}

/// An upright stroke from the greatest to the least, halfway between two moments.
fn put_stroke(
    out: &mut Vec<u8>,
    plot: Plot,
    axis: Axis,
    band: Band,
    moment: u64,
) -> Result<(), Memory>
    requires { moment < 499 }
    ensures { Puts result out.old out.new (model.stroke plot axis band moment) }
{
    put(out, "M")?;
    put_tenths(out, 800 + part_of_length(6200, 2 * moment + 1, 998))?;
    put(out, " ")?;
    put_tenths(out, greatest_at(plot, axis, band))?;
    put(out, "V")?;
    put_tenths(out, least_at(plot, axis, band))
}

/// The stroke between a moment and the next, where there is one.
fn put_stroke_at(out: &mut Vec<u8>, curve: &Curve<'_>, moment: usize) -> Result<(), Memory>
    requires { moment < 499 }
    ensures { Puts result out.old out.new (of_bands model.stroke_at curve.now moment) }
{
    let before = content(curve.seen.rows.as_slice(), curve.entity, moment);
    let behind = content(curve.seen.rows.as_slice(), curve.entity, moment + 1);
    let band = band_at(curve.seen.bands.as_slice(), curve.entity, moment);
    if !is_beyond(band, before, behind) {
        return Ok(());
    }
    put_stroke(out, curve.plot, curve.axis, band, moment as u64)
}

/// Those between all moments.
#[tactic(auto, unfolding(crate::specs::Lines::strokes))]
fn put_strokes(out: &mut Vec<u8>, curve: &Curve<'_>) -> Result<(), Memory>
    ensures { Puts result out.old out.new (of_bands model.strokes curve.now) }
{
    for i in 0..499 {
        put_stroke_at(out, curve, i)?;
    }
    Ok(())
}

/// What came and went.
#[tactic(auto, unfolding(crate::specs::Lines::peaks))]
fn put_peaks(out: &mut Vec<u8>, curve: &Curve<'_>) -> Result<(), Memory>
    ensures { Puts result out.old out.new (of_bands model.peaks curve.now) }
{
    put(out, "<path stroke-opacity=\"0.4\" stroke=\"")?;
    put(out, colour_of(curve.plot))?;
    put(out, "\" d=\"")?;
    put_strokes(out, curve)?;
    put(out, "\"/>\n")
}

/// How much fits an entity, if it has a capacity.
pub(crate) fn limit_of(kind: &Kind) -> Option<u32>
    ensures { result ≡ model.limit_of kind.now }
{
    match kind {
        Kind::Storage(capacity) => Some(*capacity),
        _ => None,
    }
}

/// A limit, where it is at most ten times as much as is in an entity.
fn limit_within(most: u64, limit: Option<u32>) -> Option<u32>
    ensures { result ≡ model.limit_within most limit }
{
    match limit {
        Some(limit) if u128::from(limit) <= 10 * u128::from(most) => Some(limit),
        _ => None,
    }
}

/// How far the upright axis reaches: to the greatest content, and to the limit.
fn reach_to(most: u64, limit: Option<u32>) -> u64
    requires { 0 < most }
    ensures value { result ≡ model.reach_to most limit }
    ensures some { 0 < result }
{
    most.max(u64::from(limit.unwrap_or(1)))
}

/// The place of a limit, from the upper end of a panel.
fn limit_at(plot: Plot, axis: Axis, limit: u32) -> u64
    ensures { result ≡ model.limit_at plot axis limit }
{
    height_at(plot, axis, i64::from(limit))
}

/// A dashed level line at a limit.
fn put_limit(out: &mut Vec<u8>, plot: Plot, axis: Axis, limit: u32) -> Result<(), Memory>
    ensures { Puts result out.old out.new (model.limit plot axis limit) }
{
    put(out, "<path d=\"M80.0 ")?;
    put_tenths(out, limit_at(plot, axis, limit))?;
    put(out, "H700.0\" stroke=\"#333\" stroke-dasharray=\"4 4\"/>\n")
}

/// The same, if there is a limit.
fn put_limit_line(
    out: &mut Vec<u8>,
    plot: Plot,
    axis: Axis,
    limit: Option<u32>,
) -> Result<(), Memory>
    ensures { Puts result out.old out.new (model.limit_line plot axis limit) }
{
    match limit {
        Some(limit) => put_limit(out, plot, axis, limit),
        None => Ok(()),
    }
}

/// The axes of a panel, and its limit.
fn put_axes(
    out: &mut Vec<u8>,
    plot: Plot,
    name: &[u8],
    axis: Axis,
    window: Window,
    limit: Option<u32>,
) -> Result<(), Memory>
    ensures { Puts result out.old out.new (model.axes axis plot name.now window limit) }
{
    put_title(out, name, plot)?;
    put_unit(out, plot)?;
    put_levels(out, plot, axis)?;
    put_clocks(out, plot, window.from, span_of(window))?;
    put_below(out, plot, "clock units")?;
    put_limit_line(out, plot, axis, limit)
}

/// The panel of an entity in which there is so much at most, and so far below 0 at least.
fn put_panel_to(
    out: &mut Vec<u8>,
    plot: Plot,
    name: &[u8],
    seen: &Samples,
    entity: usize,
    window: Window,
    most: u64,
    depth: u64,
    limit: Option<u32>,
) -> Result<(), Memory>
    requires { 0 < most }
    ensures { Puts result out.old out.new (views.panel_to most depth limit plot name.now seen.now entity window) }
{
    let axis = axis_to(reach_to(most, limit), depth);
    put_axes(out, plot, name, axis, window, limit)?;
    let curve = Curve {
        plot,
        axis,
        seen,
        entity,
    };
    put_peaks(out, &curve)?;
    put_polyline(out, &curve)
}

/// The panel of an entity, whose name and number are given, over a window, with its limit if it has one.
#[tactic(auto, unfolding(crate::specs::Lines::line_panel))]
pub(crate) fn put_line_panel(
    out: &mut Vec<u8>,
    plot: Plot,
    name: &[u8],
    seen: &Samples,
    entity: usize,
    window: Window,
    limit: Option<u32>,
) -> Result<(), Memory>
    ensures { Puts result out.old out.new (views.line_panel plot name.now seen.now entity window limit) }
{
    let most = most_in(seen.bands.as_slice(), entity);
    put_panel_to(
        out,
        plot,
        name,
        seen,
        entity,
        window,
        most,
        least_in(seen.bands.as_slice(), entity),
        limit_within(most, limit),
    )
}
