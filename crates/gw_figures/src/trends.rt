//! By how much averages and contents change in a window.

ghost use Rattle.std.specs.Prelude.{◌≡◌, IfOk};
ghost use Rattle.gw_figures.specs.Trends as model;
ghost use Rattle.gw_figures.specs.Labels.{label_of, labels};

use crate::figure::Figure;
use gw_object::Memory;
use std::alloc::Global;

/// Whether a value is small enough to be compared with another.
fn is_small(value: i128) -> bool
    ensures { result ≡ model.is_small value }
{
    value.unsigned_abs() <= 1 << 99
}

/// By how much a value is greater than another, where both can be told.
pub fn difference(before: Option<i128>, after: Option<i128>) -> Option<i128>
    ensures { result ≡ model.difference before after }
{
    match (before, after) {
        (Some(before), Some(after)) if is_small(before) && is_small(after) => Some(after - before),
        _ => None,
    }
}

/// The value at a place, if there is one.
pub fn value_at(values: &[Option<i128>], place: usize) -> Option<i128>
    ensures { result ≡ model.value_at place values.now }
{
    match values.get(place) {
        Some(value) => *value,
        None => None,
    }
}

/// By how much a figure at a place changes, where it is an average or a content.
fn change(
    figure: &Figure,
    before: &[Option<i128>],
    after: &[Option<i128>],
    place: usize,
) -> Option<i128>
    ensures { result ≡ model.change before.now after.now place (label_of figure.now) }
{
    if figure.average || figure.content {
        difference(value_at(before, place), value_at(after, place))
    } else {
        None
    }
}

/// By how much each average and each content changes from the values of one window to those of another, in the order of the figures;
/// None of what is neither.
#[tactic(auto, unfolding(crate::specs::Trends::changes_from))]
pub fn changes(
    alloc: Global,
    figures: &[Figure],
    before: &[Option<i128>],
    after: &[Option<i128>],
) -> Result<Vec<Option<i128>>, Memory>
    ensures { IfOk result (λ changes.
        changes.items ≡ model.changes (labels figures.now) before.now after.now) }
{
    let mut out = Vec::with_capacity(alloc, figures.len())?;
    for i in 0..figures.len() {
        out.push(change(&figures[i], before, after, i))?;
    }
    Ok(out)
}
