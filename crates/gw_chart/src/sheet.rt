//! What was in each entity at each moment, as records.

ghost use Rattle.std.specs.Prelude.{◌≡◌, ◌<◌};
ghost use Rattle.gw_chart.specs.Sheets as model;
ghost use Rattle.gw_chart.specs.Sheets.{csv_row};
ghost use Rattle.gw_chart.specs.Views as views;
ghost use Rattle.gw_chart.specs.Views.{of_series};
ghost use Rattle.gw_writing.specs.Text.{Puts};

use crate::bands::{Band, band_of};
use crate::line::{band_at, content};
use crate::plot::{Plot, line_of};
use crate::samples::Samples;
use crate::window::{Window, moment};
use gw_answers::Time;
use gw_object::{Entity, Memory};
use gw_records::put_record;
use gw_scan::Sim;
use itoa::Buffer;
use std::alloc::Global;

/// What the fields are.
#[tactic(auto, unfolding(crate::specs::Sheets::heading))]
fn put_heading(alloc: Global, out: &mut Vec<u8>) -> Result<(), Memory>
    ensures { Puts result out.old out.new model.heading }
{
    put_record(
        alloc,
        out,
        &[b"time", b"kind", b"entity", b"value", b"least", b"greatest"],
    )
}

/// The word of the kind of entity of which this is drawn.
fn word_of(plot: Plot) -> &'static str
    ensures { result.now ≡ model.word_of plot }
{
    match plot {
        Plot::Owned => "FACILITY",
        Plot::Units => "STORAGE",
        Plot::Waiting => "QUEUE",
        Plot::Set => "SWITCH",
        Plot::Members => "CHAIN",
        Plot::Value => "SAVEVALUE",
        Plot::Classes => "TABLE",
    }
}

/// The record of these fields.
fn put_fields(
    alloc: Global,
    out: &mut Vec<u8>,
    time: &[u8],
    kind: &[u8],
    name: &[u8],
    value: &[u8],
    least: &[u8],
    greatest: &[u8],
) -> Result<(), Memory>
    ensures { Puts result out.old out.new (csv_row time.now kind.now name.now value.now least.now greatest.now) }
{
    put_record(alloc, out, &[time, kind, name, value, least, greatest])
}

/// The record of what was in an entity of a name at a time, and the least and the greatest since the time before.
#[tactic(auto, unfolding(crate::specs::Sheets::line))]
fn put_line(
    alloc: Global,
    out: &mut Vec<u8>,
    plot: Plot,
    name: &[u8],
    time: Time,
    value: i64,
    band: Band,
) -> Result<(), Memory>
    ensures { Puts result out.old out.new (model.line plot name.now time.0 value band) }
{
    let mut clock = Buffer::new();
    let mut number = Buffer::new();
    let mut least = Buffer::new();
    let mut greatest = Buffer::new();
    put_fields(
        alloc,
        out,
        clock.format(time.0).as_bytes(),
        word_of(plot).as_bytes(),
        name,
        number.format(value).as_bytes(),
        least.format(band.least).as_bytes(),
        greatest.format(band.greatest).as_bytes(),
    )
}

/// What was in an entity, to be written.
#[derive(Clone, Copy)]
struct Series<'a> {
    /// What is drawn of it.
    plot: Plot,
    /// Its name.
    name: &'a [u8],
    /// The window.
    window: Window,
    /// What was seen of the run.
    seen: &'a Samples,
    /// The number of the entity.
    entity: usize,
}

/// The record of the first moment.
fn put_first_line(alloc: Global, out: &mut Vec<u8>, series: &Series<'_>) -> Result<(), Memory>
    ensures { Puts result out.old out.new (views.first_line series.now) }
{
    let value = content(series.seen.rows.as_slice(), series.entity, 0);
    let time = moment(series.window, 0);
    put_line(
        alloc,
        out,
        series.plot,
        series.name,
        time,
        value,
        band_of(value),
    )
}

/// The record of the moment behind this one, if its clock is another.
fn put_line_behind(
    alloc: Global,
    out: &mut Vec<u8>,
    series: &Series<'_>,
    i: usize,
) -> Result<(), Memory>
    requires { i < 499 }
    ensures { Puts result out.old out.new (of_series model.line_behind series.now i) }
{
    let before = moment(series.window, i as u64);
    let behind = moment(series.window, i as u64 + 1);
    if behind.0 == before.0 {
        return Ok(());
    }
    let value = content(series.seen.rows.as_slice(), series.entity, i + 1);
    let band = band_at(series.seen.bands.as_slice(), series.entity, i);
    put_line(alloc, out, series.plot, series.name, behind, value, band)
}

/// The records of the moments behind the first.
#[tactic(auto, unfolding(crate::specs::Sheets::lines_behind))]
fn put_lines_behind(alloc: Global, out: &mut Vec<u8>, series: &Series<'_>) -> Result<(), Memory>
    ensures { Puts result out.old out.new (of_series model.lines_behind series.now) }
{
    for i in 0..499 {
        put_line_behind(alloc, out, series, i)?;
    }
    Ok(())
}

/// The records of all moments.
fn put_lines(alloc: Global, out: &mut Vec<u8>, series: &Series<'_>) -> Result<(), Memory>
    ensures { Puts result out.old out.new (of_series model.lines_of series.now) }
{
    put_first_line(alloc, out, series)?;
    put_lines_behind(alloc, out, series)
}

/// The records of an entity, which has this number, if a line of it is drawn.
fn put_entity_lines(
    alloc: Global,
    out: &mut Vec<u8>,
    window: Window,
    seen: &Samples,
    number: usize,
    entity: &Entity,
) -> Result<(), Memory>
    ensures { Puts result out.old out.new (views.entity_lines window seen.now number entity.now) }
{
    let Some(plot) = line_of(&entity.kind) else {
        return Ok(());
    };
    let series = Series {
        plot,
        name: entity.name.as_slice(),
        window,
        seen,
        entity: number,
    };
    put_lines(alloc, out, &series)
}

/// The same for the entity of a number.
fn put_lines_at(
    alloc: Global,
    out: &mut Vec<u8>,
    window: Window,
    seen: &Samples,
    entities: &[Entity],
    number: usize,
) -> Result<(), Memory>
    ensures { Puts result out.old out.new (views.lines_at window seen.now entities.now number) }
{
    match entities.get(number) {
        Some(entity) => put_entity_lines(alloc, out, window, seen, number, entity),
        None => Ok(()),
    }
}

/// Those of all entities, one after the other.
#[tactic(auto, unfolding(crate::specs::Sheets::all_lines))]
fn put_all_lines(
    alloc: Global,
    out: &mut Vec<u8>,
    window: Window,
    seen: &Samples,
    entities: &[Entity],
) -> Result<(), Memory>
    ensures { Puts result out.old out.new (views.all_lines window seen.now entities.now) }
{
    for i in 0..entities.len() {
        put_lines_at(alloc, out, window, seen, entities, i)?;
    }
    Ok(())
}

/// What was in each entity at each moment of a window, as records with a carriage return and a line feed behind each: the clock, the
/// kind of the entity, its name, the value, and the least and the greatest since the record before. The first record has the names of the fields.
pub(crate) fn put_sheet(
    alloc: Global,
    out: &mut Vec<u8>,
    window: Window,
    sim: &Sim,
    seen: &Samples,
) -> Result<(), Memory>
    ensures { Puts result out.old out.new (views.sheet window sim.now seen.now) }
{
    put_heading(alloc, out)?;
    let entities = sim
        .spec()
        .verified_object()
        .object()
        .parts()
        .entities
        .as_slice();
    put_all_lines(alloc, out, window, seen, entities)
}
