//! Whether a block pays for where a way of it leads, by the weights and the slopes of both.

ghost use Rattle.std.specs.Prelude.{◌≡◌, ◌≤◌};
ghost use Rattle.gw_rules.specs.Weights as model;
ghost use Rattle.gw_rules.specs.declared.ways.Who.TheVariants.{Itself};

use gw_object::{Block, Parts, Slope};
use gw_rules::{Treatment, Way, Who, above, leads_to, slope_at, treats, weight_at};

/// How steep a slope is; without one it is flat.
fn per_of(slope: Option<Slope>) -> u32
    ensures { result ≡ model.per_of slope }
{
    match slope {
        Some((_, per)) => per,
        None => 0,
    }
}

/// Whether the slope of a block covers another one: it is on the same parameter, and at least as steep.
fn covers(own: Option<Slope>, slope: Slope) -> bool
    ensures { result ≡ model.covers own slope }
{
    match own {
        Some((parameter, per)) => parameter == slope.0 && slope.1 <= per,
        None => false,
    }
}

/// Whether a slope is on the parameter of another one, or flat.
fn is_on(own: Option<Slope>, slope: Option<Slope>) -> bool
    ensures { result ≡ model.is_on own slope }
{
    match (own, slope) {
        (_, None) => true,
        (None, Some(_)) => false,
        (Some(own), Some(slope)) => own.0 == slope.0,
    }
}

/// Whether a block of this weight and slope pays for the entry and for a next block of that weight and slope, by what it does
/// to the slope's parameter.
fn pays_slope(
    weight: u32,
    own: Option<Slope>,
    there: u32,
    slope: Slope,
    treatment: Treatment,
) -> bool
    ensures { result ≡ model.pays_slope weight own there slope treatment }
{
    let weight = weight as u64;
    let needed = 1 + there as u64;
    match treatment {
        Treatment::Keeps => needed <= weight && covers(own, slope),
        Treatment::SetsTo(value) => {
            let added = slope.1 as u128 * above(value) as u128;
            needed as u128 + added <= weight as u128
        }
        Treatment::Lowers => needed <= weight + slope.1 as u64 && covers(own, slope),
        Treatment::RunsOut => needed <= weight,
        Treatment::Changes => false,
    }
}

/// Whether a block of this weight and slope pays for the entry and for a next block of that weight, with a slope or without.
fn pays_to(
    weight: u32,
    own: Option<Slope>,
    there: u32,
    block: &Block,
    way: Way,
    slope: Option<Slope>,
) -> bool
    ensures { result ≡ model.pays_to weight own there block.now way slope }
{
    match slope {
        Some(slope) => pays_slope(weight, own, there, slope, treats(block, way, slope.0)),
        None => there < weight,
    }
}

/// Whether the block of this number pays for the entry and for the block to which a way of it leads.
fn pays_next(parts: &Parts, number: u16, block: &Block, way: Way) -> bool
    requires { number ≤ 4096 }
    ensures { result ≡ model.pays_way parts.now number block.now way Itself }
{
    let weights = parts.weights.as_slice();
    let slopes = parts.slopes.as_slice();
    let there = leads_to(number, way);
    pays_to(
        weight_at(weights, number),
        slope_at(slopes, number),
        weight_at(weights, there),
        block,
        way,
        slope_at(slopes, there),
    )
}

/// Whether the block of this number pays for the entry, for the block after it, and for so many copies at another one.
fn pays_copies(parts: &Parts, number: u16, copies: u16, target: u16) -> bool
    requires { number ≤ 4096 }
    ensures { result ≡ model.pays_copies parts.now number copies target }
{
    let weights = parts.weights.as_slice();
    let sent = copies as u64 * weight_at(weights, target) as u64;
    let needed = 1 + weight_at(weights, number + 1) as u64 + sent;
    let slopes = parts.slopes.as_slice();
    let own = slope_at(slopes, number);
    let fall = slope_at(slopes, number + 1);
    let there = slope_at(slopes, target);
    let steep = per_of(fall) as u64 + copies as u64 * per_of(there) as u64;
    needed <= weight_at(weights, number) as u64
        && is_on(own, fall)
        && is_on(own, there)
        && steep <= per_of(own) as u64
}

/// Whether the block of this number pays for who goes along a way of it.
pub(crate) fn pays_way(parts: &Parts, number: u16, block: &Block, way: Way, who: Who) -> bool
    requires { number ≤ 4096 }
    ensures { result ≡ model.pays_way parts.now number block.now way who }
{
    match who {
        Who::Itself => pays_next(parts, number, block, way),
        Who::Copies(copies) => pays_copies(parts, number, copies, leads_to(number, way)),
    }
}
