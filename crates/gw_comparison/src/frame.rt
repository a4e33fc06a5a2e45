//! The axis on which marks lie, and places on it, in tenths of pixels from the upper end of the picture.

ghost use Rattle.std.specs.Prelude.{◌≡◌, ◌≤◌, ◌<◌, ◌*◌, ◌^◌};
ghost use Rattle.gw_comparison.specs.Frames as model;

use crate::axis::Frame;
use crate::marks::Mark;
use gw_drawing::numbers::round_step;

/// So many steps of an axis.
#[tactic(auto, using(crate::proofs::Reach::reach_most))]
pub(crate) fn reach_of(frame: &Frame, steps: u64) -> u128
    requires { steps ≤ 10 }
    ensures value { result ≡ model.reach_of frame.now steps }
    ensures most { result ≤ 2 ^ 70 * 10 }
{
    frame.step * steps as u128
}

/// How far below 0 a mark reaches.
fn depth_at(mark: &Option<Mark>) -> u128
    ensures { result ≡ model.depth_at mark.now }
{
    match mark {
        Some(mark) if mark.low < 0 => mark.low.unsigned_abs(),
        _ => 0,
    }
}

/// How far above 0 a mark reaches.
fn height_at(mark: &Option<Mark>) -> u128
    ensures { result ≡ model.height_at mark.now }
{
    match mark {
        Some(mark) if mark.high > 0 => mark.high.unsigned_abs(),
        _ => 0,
    }
}

/// How far below 0 marks reach.
#[tactic(auto, unfolding(crate::specs::Frames::depth_from))]
fn depth_of(marks: &[Option<Mark>]) -> u128
    ensures { result ≡ model.depth_from 0 marks.now }
{
    let mut depth = 0;
    for i in 0..marks.len() {
        depth = depth_at(&marks[i]).max(depth);
    }
    depth
}

/// How far above 0 marks reach.
#[tactic(auto, unfolding(crate::specs::Frames::height_from))]
fn height_of(marks: &[Option<Mark>]) -> u128
    ensures { result ≡ model.height_from 0 marks.now }
{
    let mut height = 0;
    for i in 0..marks.len() {
        height = height_at(&marks[i]).max(height);
    }
    height
}

/// How many steps reach so far; at most 5.
fn steps_to(size: u128, step: u128) -> u64
    requires { 0 < step }
    ensures value { result ≡ model.steps_to size step }
    ensures most { result ≤ 5 }
{
    size.div_ceil(step).min(5) as u64
}

/// The axis that reaches so far below 0, and so far above: at most 2^62 millionths.
fn frame_to(depth: u128, height: u128) -> Frame
    ensures { model.IsFrame depth height result }
{
    let step = round_step(depth.max(height).clamp(1, 1 << 62) as u64);
    let below = steps_to(depth, step);
    let steps = (below + steps_to(height, step)).max(1);
    Frame { step, below, steps }
}

/// The axis on which all marks lie.
pub(crate) fn frame_of(marks: &[Option<Mark>]) -> Frame
    ensures { model.IsFrame (model.depth_from 0 marks.now) (model.height_from 0 marks.now) result }
{
    frame_to(depth_of(marks), height_of(marks))
}

/// How far above the lower end of an axis a number lies.
fn part_of(frame: &Frame, number: &i128) -> u128
    ensures { result ≡ model.part_of frame.now number.now }
{
    let lowest = reach_of(frame, frame.below);
    if *number < 0 {
        lowest.saturating_sub(number.unsigned_abs())
    } else {
        lowest + number.unsigned_abs()
    }
}

/// The place of a number, from the upper end of the picture.
#[tactic(auto, using(crate::proofs::Reach::reach_some, crate::proofs::Reach::part_le))]
pub(crate) fn place_of(frame: &Frame, number: &i128) -> u64
    ensures value { result ≡ model.place_of frame.now number.now }
    ensures range { result ≤ 3500 }
{
    let whole = reach_of(frame, frame.steps);
    let part = part_of(frame, number).min(whole);
    3_500 - (2_800 * part / whole) as u64
}
