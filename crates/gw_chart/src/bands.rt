//! The least and the greatest of what is in entities for a while.

ghost use Rattle.std.specs.Prelude.{◌≡◌, ◌≤◌, ◌<◌, length, map, IfOk, OnOk};
ghost use Rattle.gw_answers.specs.Running.{AreStillAt};
ghost use Rattle.gw_chart.specs.Bands as model;
ghost use Rattle.gw_chart.specs.Contents.{content_of as content_in};

use crate::contents::{content_of, contents};
use gw_object::{Kind, Memory};
use gw_scan::Sim;
use std::alloc::Global;

/// The least and the greatest of what was in an entity for a while.
#[derive(Clone, Copy)]
pub(crate) struct Band {
    /// The least.
    pub(crate) least: i64,
    /// The greatest.
    pub(crate) greatest: i64,
}

/// That of one value.
pub(crate) fn band_of(value: i64) -> Band
    ensures { result ≡ model.band_of value }
{
    Band {
        least: value,
        greatest: value,
    }
}

/// Those of these values.
fn bands_of(alloc: Global, row: &[i64]) -> Result<Vec<Band>, Memory>
    ensures { IfOk result (λ bands. bands.items ≡ map model.band_of row.now) }
{
    let mut bands = Vec::new(alloc);
    for i in 0..row.len() {
        bands.push(band_of(row[i]))?;
    }
    Ok(bands)
}

/// Those of what is in each entity.
pub(crate) fn bands_now(alloc: Global, sim: &Sim) -> Result<Vec<Band>, Memory>
    ensures { IfOk result (λ bands.
        bands.items ≡ model.bands_at sim.now.job sim.now.state) }
{
    let row = contents(alloc, sim)?;
    bands_of(alloc, row.as_slice())
}

/// A band with what is in an entity now, by its number from 0.
fn widened(band: Band, sim: &Sim, number: u16, kind: &Kind) -> Band
    requires { number < length sim.now.job.parts.entities }
    ensures { result
        ≡ model.widen band (content_in kind.now sim.now.state number) }
{
    let value = content_of(sim, number, kind);
    Band {
        least: band.least.min(value),
        greatest: band.greatest.max(value),
    }
}

/// Widens the bands of all entities by what is in each now.
#[tactic(auto, unfolding(crate::specs::Bands::widened_from))]
pub(crate) fn widen(bands: &mut Vec<Band>, sim: &Sim)
    requires { length bands.old.items ≡ length sim.now.job.parts.entities }
    ensures { bands.new.items
        ≡ model.widened_from sim.now.state 0 sim.now.job.parts.entities bands.old.items }
{
    let entities = sim
        .spec()
        .verified_object()
        .object()
        .parts()
        .entities
        .as_slice();
    for i in 0..entities.len() {
        bands[i] = widened(bands[i], sim, i as u16, &entities[i].kind);
    }
}
