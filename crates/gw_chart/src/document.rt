//! The document: a panel for each facility, storage, queue, switch, user chain, savevalue and table, one below the other.

ghost use Rattle.std.specs.Prelude.{◌≡◌, ◌≤◌, ◌<◌, ◌+◌, ◌*◌, length};
ghost use Rattle.gw_chart.specs.Document as model;
ghost use Rattle.gw_chart.specs.Views as views;
ghost use Rattle.gw_writing.specs.Text.{Puts};

use crate::bars::put_bar_panel;
use crate::line::{limit_of, put_line_panel};
use crate::plot::{Plot, panel_height, plot_of};
use crate::samples::Samples;
use crate::window::Window;
use gw_drawing::text::{put_escaped, put_grouped, put_tenths};
use gw_object::{Entity, Kind, Memory};
use gw_scan::Sim;
use gw_writing::put;

/// How high the panel of an entity is; 0 where it has none.
fn height_of(entity: &Entity) -> u64
    ensures value { result ≡ model.height_of entity.now }
    ensures most { result ≤ 1800 }
{
    match plot_of(&entity.kind) {
        Some(plot) => panel_height(plot),
        None => 0,
    }
}

/// The same for the entity of a number.
fn height_at(entities: &[Entity], number: usize) -> u64
    ensures value { result ≡ model.height_at entities.now number }
    ensures most { result ≤ 1800 }
{
    match entities.get(number) {
        Some(entity) => height_of(entity),
        None => 0,
    }
}

/// Where the panel of the entity of a number begins.
#[tactic(auto, using(crate::proofs::Series::total_more, crate::proofs::Series::total_none))]
fn begins_at(entities: &[Entity], number: usize) -> u64
    requires { number ≤ 1024 }
    ensures { result ≡ model.begins_at entities.now number }
{
    let mut y = 500;
    for i in 0..number {
        y += height_at(entities, i);
    }
    y
}

/// What the title begins with: the name of what is run, if it has one.
fn put_subject(out: &mut Vec<u8>, name: &[u8]) -> Result<(), Memory>
    ensures { Puts result out.old out.new (model.subject name.now) }
{
    if name.is_empty() {
        return put(out, "One run");
    }
    put_escaped(out, name)?;
    put(out, ": one run")
}

/// When the run ends, where more of it lies behind the window.
fn put_ending(out: &mut Vec<u8>, to: u64, end: u64) -> Result<(), Memory>
    ensures { Puts result out.old out.new (model.end_note to end) }
{
    if end <= to {
        return Ok(());
    }
    put(out, " of ")?;
    put_grouped(out, end as u128)
}

/// The title: what is run, from where to where it is shown, and when it ends.
#[tactic(auto, unfolding(crate::specs::Document::heading))]
fn put_heading(out: &mut Vec<u8>, name: &[u8], window: Window, end: u64) -> Result<(), Memory>
    ensures { Puts result out.old out.new (model.heading name.now window end) }
{
    put_subject(out, name)?;
    put(out, ", from clock ")?;
    put_grouped(out, window.from as u128)?;
    put(out, " to ")?;
    put_grouped(out, window.to as u128)?;
    put_ending(out, window.to, end)
}

/// What the document begins with: its height, and its title.
fn put_head(
    out: &mut Vec<u8>,
    height: u64,
    name: &[u8],
    window: Window,
    end: u64,
) -> Result<(), Memory>
    ensures { Puts result out.old out.new (model.head height name.now window end) }
{
    put(
        out,
        "<?xml version=\"1.0\" encoding=\"UTF-8\"?>\n<svg xmlns=\"http://www.w3.org/2000/svg\" version=\"1.1\" width=\"760\" height=\"",
    )?;
    put_tenths(out, height)?;
    put(out, "\" viewBox=\"-40 0 760 ")?;
    put_tenths(out, height)?;
    put(
        out,
        "\" font-family=\"sans-serif\" font-size=\"12\">\n<rect x=\"-40\" width=\"100%\" height=\"100%\" fill=\"#fff\"/>\n<text x=\"80\" y=\"28\" font-size=\"15\" font-weight=\"bold\">",
    )?;
    put_heading(out, name, window, end)?;
    put(
        out,
        "</text>\n<text x=\"80\" y=\"45\" fill=\"#555\">Lines: what stood at 500 moments, evenly apart. Pale strokes: the least and the greatest between.</text>\n",
    )
}

/// What is drawn in the panel of an entity, which has this number.
fn put_drawn(
    out: &mut Vec<u8>,
    plot: Plot,
    window: Window,
    sim: &Sim,
    seen: &Samples,
    number: u16,
    entity: &Entity,
) -> Result<(), Memory>
    requires { number < length sim.now.job.parts.entities }
    ensures { Puts result out.old out.new (views.drawing_of plot window sim.now seen.now number entity.now) }
{
    let name = entity.name.as_slice();
    match &entity.kind {
        Kind::Table(table) => {
            let values = sim.tables().get(number).classes();
            put_bar_panel(out, plot, name, table, values)
        }
        _ => {
            let limit = limit_of(&entity.kind);
            put_line_panel(out, plot, name, seen, number as usize, window, limit)
        }
    }
}

/// The panel of an entity, which has this number, if its kind has one; it begins so far below the upper end of the document.
fn put_panel_of(
    out: &mut Vec<u8>,
    window: Window,
    sim: &Sim,
    seen: &Samples,
    y: u64,
    number: u16,
    entity: &Entity,
) -> Result<(), Memory>
    requires { number < length sim.now.job.parts.entities }
    ensures { Puts result out.old out.new (views.panel_of window sim.now seen.now y number entity.now) }
{
    let Some(plot) = plot_of(&entity.kind) else {
        return Ok(());
    };
    put(out, "<g transform=\"translate(0,")?;
    put_tenths(out, y)?;
    put(out, ")\">\n")?;
    put_drawn(out, plot, window, sim, seen, number, entity)?;
    put(out, "</g>\n")
}

/// The same for the entity of a number.
fn put_panel_at(
    out: &mut Vec<u8>,
    window: Window,
    sim: &Sim,
    seen: &Samples,
    number: u16,
) -> Result<(), Memory>
    requires { number < length sim.now.job.parts.entities }
    ensures { Puts result out.old out.new (views.panel_at window sim.now seen.now number) }
{
    let entities = sim
        .spec()
        .verified_object()
        .object()
        .parts()
        .entities
        .as_slice();
    match entities.get(number as usize) {
        Some(entity) => {
            let y = begins_at(entities, number as usize);
            put_panel_of(out, window, sim, seen, y, number, entity)
        }
        None => Ok(()),
    }
}

/// The panels of so many entities, from the first on.
#[tactic(auto, unfolding(crate::specs::Document::panels))]
fn put_panels(
    out: &mut Vec<u8>,
    window: Window,
    sim: &Sim,
    seen: &Samples,
    count: usize,
) -> Result<(), Memory>
    requires count { count ≡ length sim.now.job.parts.entities }
    requires few { count ≤ 1024 }
    ensures { Puts result out.old out.new (views.panels window sim.now seen.now) }
{
    for i in 0..count {
        put_panel_at(out, window, sim, seen, i as u16)?;
    }
    Ok(())
}

/// The document of a window of a run, by its last state and what was seen of it.
#[tactic(auto, unfolding(crate::specs::Document::document))]
pub(crate) fn put_document(
    out: &mut Vec<u8>,
    name: &[u8],
    window: Window,
    sim: &Sim,
    seen: &Samples,
) -> Result<(), Memory>
    ensures { Puts result out.old out.new (views.document name.now window sim.now seen.now) }
{
    let entities = sim
        .spec()
        .verified_object()
        .object()
        .parts()
        .entities
        .as_slice();
    let height = begins_at(entities, entities.len());
    put_head(out, height, name, window, sim.clock().unsigned_abs())?;
    put_panels(out, window, sim, seen, entities.len())?;
    put(out, "</svg>\n")
}
