//! Places on a picture, in tenths of pixels, and round numbers.

ghost use Rattle.std.specs.Prelude.{◌≡◌, ◌≤◌, ◌<◌, ◌*◌, ◌^◌, IfSome};
ghost use Rattle.gw_drawing.specs.Numbers as model;

use crate::scale::Scale;

/// What a part of a whole is of a length.
#[tactic(auto, using(crate::proofs::Places::scaled_le, crate::proofs::Places::product_fits))]
pub fn part_of_length(length: u64, part: u64, whole: u128) -> u64
    requires part { part ≤ whole }
    requires whole { 0 < whole }
    ensures value { result ≡ model.part_of_length length part whole }
    ensures most { result ≤ length }
{
    (length as u128 * part as u128 / whole) as u64
}

/// The powers of 10 that a `u64` can hold, but the last.
pub const POWERS: [u64; 19] = [
    1,
    10,
    100,
    1_000,
    10_000,
    100_000,
    1_000_000,
    10_000_000,
    100_000_000,
    1_000_000_000,
    10_000_000_000,
    100_000_000_000,
    1_000_000_000_000,
    10_000_000_000_000,
    100_000_000_000_000,
    1_000_000_000_000_000,
    10_000_000_000_000_000,
    100_000_000_000_000_000,
    1_000_000_000_000_000_000,
];

/// The first that isn't less, of 1, 2 and 5 times a power, if one of them isn't.
fn round_by(power: u64, least: u64) -> Option<u128>
    ensures value { result ≡ model.round_by power least }
    ensures range { IfSome result (λ step. (least ≤ step) × (step ≤ 2 ^ 70)) }
{
    let power = power as u128;
    let least = least as u128;
    if least <= power {
        Some(power)
    } else if least <= 2 * power {
        Some(2 * power)
    } else if least <= 5 * power {
        Some(5 * power)
    } else {
        None
    }
}

/// The first round number that isn't less: 1, 2 and 5 times each of these powers are round.
#[tactic(auto, unfolding(crate::specs::Numbers::round_in))]
fn round_in(powers: &[u64], least: u64) -> u128
    ensures value { result ≡ model.round_in powers.now least }
    ensures range { (least ≤ result) × (result ≤ 2 ^ 70) }
{
    for i in 0..powers.len() {
        if let Some(step) = round_by(powers[i], least) {
            return step;
        }
    }
    least as u128
}

/// The first round number of which five reach so far.
pub fn round_step(most: u64) -> u128
    requires { 0 < most }
    ensures value { result ≡ model.round_step most }
    ensures range { (0 < result) × (most ≤ 5 * result) × (result ≤ 2 ^ 70) }
{
    round_in(&POWERS, most.div_ceil(5))
}

/// The scale of an upright axis that reaches so far.
#[tactic(auto, using(crate::proofs::Places::few_steps, crate::proofs::Places::some_steps))]
pub fn scale_to(most: u64) -> Scale
    requires { 0 < most }
    ensures { result ≡ model.scale_to most }
{
    let step = round_step(most);
    Scale {
        step,
        count: (most as u128).div_ceil(step) as u64,
    }
}

/// The step of a scale.
pub fn step_of(scale: Scale) -> u128
    ensures { result ≡ scale.step }
{
    scale.step
}

/// How many steps a scale has above 0.
pub fn count_of(scale: Scale) -> u64
    ensures value { result ≡ scale.count }
    ensures range { (0 < result) × (result ≤ 5) }
{
    scale.count
}

/// The number of a step of a scale.
#[tactic(auto, using(crate::proofs::Places::top_most))]
pub fn number_at(scale: Scale, i: u64) -> u128
    requires { i ≤ scale.count }
    ensures { result ≡ scale.step * i }
{
    scale.step * i as u128
}

/// Where a scale ends.
#[tactic(auto, using(crate::proofs::Places::top_most, crate::proofs::Places::top_some))]
pub fn top_of(scale: Scale) -> u128
    ensures value { result ≡ model.top_of scale }
    ensures some { 0 < result }
{
    scale.step * scale.count as u128
}
