//! The values of a model's figures in a window of a run.

ghost use Rattle.std.specs.Prelude.{◌≡◌, ◌++◌, IfOk, OnOk};
ghost use Rattle.gw_figures.specs.Values as model;
ghost use Rattle.gw_figures.specs.Windows.{AddsValues, span_of};

use crate::entity_values::put_entity;
use crate::quotients::{rise, signed_units, units};
use crate::window::{Window, span_length};
use gw_object::{Entity, Memory, Parts};
use std::alloc::Global;

fn put_end(out: &mut Vec<Option<i128>>, window: &Window<'_>) -> Result<(), Memory>
    ensures { AddsValues result out.old out.new
        (model.end_values (span_of window.now)) }
{
    out.push(units(span_length(window)))?;
    out.push(rise(window.start.steps(), window.end.steps()))?;
    out.push(rise(window.start.entries(), window.end.entries()))?;
    out.push(signed_units(i128::from(window.end.count())))?;
    Ok(())
}

fn put_block(out: &mut Vec<Option<i128>>, window: &Window<'_>, place: usize) -> Result<(), Memory>
    ensures { AddsValues result out.old out.new
        (model.block_values (span_of window.now) place) }
{
    let before = window.start.block(place);
    let after = window.end.block(place);
    out.push(rise(before.entries, after.entries))?;
    out.push(units(after.here as u64))?;
    Ok(())
}

/// Those of so many blocks, in order.
#[tactic(auto, unfolding(crate::specs::Values::blocks_values))]
fn put_blocks(out: &mut Vec<Option<i128>>, window: &Window<'_>, blocks: usize) -> Result<(), Memory>
    ensures { AddsValues result out.old out.new
        (model.blocks_values (span_of window.now) 0 blocks) }
{
    for i in 0..blocks {
        put_block(out, window, i)?;
    }
    Ok(())
}

/// Those of each entity, in order.
#[tactic(auto, unfolding(crate::specs::Values::entities_values))]
fn put_entities(
    alloc: Global,
    out: &mut Vec<Option<i128>>,
    window: &Window<'_>,
    entities: &[Entity],
) -> Result<(), Memory>
    ensures { AddsValues result out.old out.new
        (model.entities_values (span_of window.now) 0 entities.now) }
{
    for i in 0..entities.len() {
        put_entity(alloc, out, window, i, &entities[i].kind)?;
    }
    Ok(())
}

/// The values of the figures of a model of these parts in a window of a run, in the order of `figures`, in millionths, rounded to
/// the nearest. None where nothing can be told: an average over no clock unit, no unit or no value, a percentile that lies in the
/// last class, and the greatest content of a window that isn't the whole run.
pub fn values(
    alloc: Global,
    parts: &Parts,
    window: &Window<'_>,
) -> Result<Vec<Option<i128>>, Memory>
    ensures { IfOk result (λ values.
        values.items ≡ model.values_of parts.now (span_of window.now)) }
{
    let mut out = Vec::new(alloc);
    put_end(&mut out, window)?;
    put_blocks(&mut out, window, parts.blocks.as_slice().len())?;
    put_entities(alloc, &mut out, window, parts.entities.as_slice())?;
    Ok(out)
}
