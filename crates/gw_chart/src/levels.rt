//! How far an upright axis reaches, and its numbers.

ghost use Rattle.std.specs.Prelude.{◌≡◌, ◌≤◌, ◌<◌, ◌*◌, ◌^◌};
ghost use Rattle.gw_chart.specs.Axes as model;

use crate::axis::Axis;
use gw_drawing::numbers::round_step;

/// The axis that reaches so far above 0, and so far below: at most 2^63.
#[tactic(auto, using(crate::proofs::Places::few_below, crate::proofs::Places::few_above, crate::proofs::Places::some_above))]
pub(crate) fn axis_to(above: u64, below: u64) -> Axis
    requires some { 0 < above }
    ensures { result ≡ model.levels_to above below }
{
    let step = round_step(above.saturating_add(below));
    let below = (below as u128).div_ceil(step) as u64;
    Axis {
        step,
        below,
        count: below + (above as u128).div_ceil(step) as u64,
    }
}

/// How many steps an axis has.
pub(crate) fn count_of(axis: Axis) -> u64
    ensures value { result ≡ axis.count }
    ensures range { (0 < result) × (result ≤ 10) }
{
    axis.count
}

/// How many of them lie below 0.
pub(crate) fn below_of(axis: Axis) -> u64
    ensures value { result ≡ axis.below }
    ensures range { result ≤ axis.count }
{
    axis.below
}

/// How far an axis reaches in all.
#[tactic(auto, using(crate::proofs::Places::reach_most, crate::proofs::Places::reach_some))]
pub(crate) fn reach_of(axis: Axis) -> u128
    ensures value { result ≡ model.reach_of axis }
    ensures some { 0 < result }
{
    axis.step * axis.count as u128
}

/// The number of a step, from the lowest on.
#[tactic(auto, using(crate::proofs::Places::part_most, crate::proofs::Places::reach_most))]
pub(crate) fn number_at(axis: Axis, i: u64) -> i128
    requires { i ≤ axis.count }
    ensures { result ≡ model.number_at axis i }
{
    (axis.step * i as u128) as i128 - (axis.step * axis.below as u128) as i128
}

/// How far a number lies above 0.
pub(crate) fn height_above(number: i64) -> u64
    ensures { result ≡ model.height_above number }
{
    if number < 0 { 0 } else { number.unsigned_abs() }
}

/// How far a number lies below 0.
pub(crate) fn depth_below(number: i64) -> u64
    ensures { result ≡ model.depth_below number }
{
    if number < 0 { number.unsigned_abs() } else { 0 }
}
