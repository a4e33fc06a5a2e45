//! New FUNCTIONs.

use crate::draws::{Draw, Shape};
use crate::functions::{Function, Point};
use crate::numbers::{Number, unit_of};
use crate::plan::Plan;
use crate::steps::{EXPONENTIAL, NORMAL};
use crate::writing::put_name;
use gw_writing::{put, put_number};
use std::alloc::{AllocError, Global};

/// A step of a function: up to which share of all draws it goes, and its value, both in millionths.
#[derive(Clone, Copy)]
pub(crate) struct Step {
    below: i64,
    value: i128,
}

/// The most points of a FUNCTION.
const MOST_POINTS: usize = 256;

/// The steps of a table, each value multiplied and added to.
fn steps_of_table(
    alloc: Global,
    table: &[(u32, i64)],
    base: Number,
    scale: Number,
) -> Result<Vec<Step>, AllocError> {
    let mut steps = Vec::new(alloc);
    for (below, value) in table {
        let product = i128::from(*value).saturating_mul(i128::from(scale.millionths)) / 1_000_000;
        steps.push(Step {
            below: i64::from(*below),
            value: product.saturating_add(i128::from(base.millionths)),
        })?;
    }
    Ok(steps)
}

/// The greatest whole number whose square isn't above this.
fn square_root(number: u128) -> u128 {
    let mut root: u128 = 0;
    for place in 0..64u32 {
        let bit = 1u128 << (63 - place);
        let next = root | bit;
        if next.saturating_mul(next) <= number {
            root = next;
        }
    }
    root
}

/// What a triangle reaches at a share of all draws, in 800ths, in millionths.
fn triangle_at(draw: &Draw, share: u128) -> u128 {
    let least = u128::from(draw.first.millionths);
    let greatest = u128::from(draw.second.millionths);
    let top = u128::from(draw.third.millionths);
    let width = greatest.saturating_sub(least);
    let rise = top.saturating_sub(least);
    let fall = greatest.saturating_sub(top);
    if share.saturating_mul(width) <= rise.saturating_mul(800) {
        least.saturating_add(square_root(share.saturating_mul(width).saturating_mul(rise) / 800))
    } else {
        greatest.saturating_sub(square_root(
            800u128
                .saturating_sub(share)
                .saturating_mul(width)
                .saturating_mul(fall)
                / 800,
        ))
    }
}

/// The mean of the hundredth of a triangle that has this number, from 0, in millionths.
fn triangle_step(draw: &Draw, step: u32) -> i128 {
    let mut sum: u128 = 0;
    for part in 0..4u32 {
        let share = step.saturating_mul(8).saturating_add(2 * part + 1);
        sum = sum.saturating_add(triangle_at(draw, u128::from(share)));
    }
    let mean = sum / 4;
    if mean < 1 << 100 { mean as i128 } else { 0 }
}

/// The steps of a triangle.
fn steps_of_triangle(alloc: Global, draw: &Draw) -> Result<Vec<Step>, AllocError> {
    let mut steps = Vec::new(alloc);
    for step in 0..100u32 {
        steps.push(Step {
            below: i64::from(step.saturating_add(1)).saturating_mul(10_000),
            value: triangle_step(draw, step),
        })?;
    }
    Ok(steps)
}

/// How many steps there are between two points of a FUNCTION of type C.
fn parts_of(function: &Function<'_>) -> i64 {
    if function.letter != b'C' || function.count < 2 {
        return 1;
    }
    let parts = (MOST_POINTS - 6) / (function.count - 1);
    (parts.max(1).min(25)) as i64
}

/// What lies so many parts of a way behind its begin.
fn on_the_way(from: i64, to: i64, part: i64, parts: i64) -> i128 {
    let way = i128::from(to).saturating_sub(i128::from(from));
    let gone = way
        .saturating_mul(i128::from(part))
        .checked_div(i128::from(parts))
        .unwrap_or(0);
    i128::from(from).saturating_add(gone)
}

/// The steps between two points, of so many equal parts, each with the middle of its values, multiplied.
fn put_parts(
    steps: &mut Vec<Step>,
    before: Point,
    point: Point,
    parts: i64,
    scale: Number,
) -> Result<(), AllocError> {
    for part in 0..parts {
        let below = on_the_way(before.x, point.x, part.saturating_add(1), parts);
        let middle = part.saturating_mul(2).saturating_add(1);
        let value = on_the_way(before.y, point.y, middle, parts.saturating_mul(2));
        steps.push(Step {
            below: below.clamp(0, 1_000_000) as i64,
            value: value.saturating_mul(i128::from(scale.millionths)) / 1_000_000,
        })?;
    }
    Ok(())
}

/// The point before one, by its place; the point itself where there is none, or where none is asked for.
fn point_before(function: &Function<'_>, points: &[Point], place: usize, point: Point) -> Point {
    if place == 0 || function.letter != b'C' {
        return point;
    }
    points.get(place - 1).copied().unwrap_or(point)
}

/// The steps of a FUNCTION of the text, each value multiplied: those that it has, or, of type C, the parts between its points.
fn steps_of_function(
    alloc: Global,
    plan: &Plan<'_>,
    function: &Function<'_>,
    scale: Number,
) -> Result<Vec<Step>, AllocError> {
    let mut steps = Vec::new(alloc);
    let points = plan.points_of(function);
    for place in 0..points.len() {
        let point = points[place];
        let before = point_before(function, points, place, point);
        if point.x > before.x {
            put_parts(&mut steps, before, point, parts_of(function), scale)?;
        } else if function.letter != b'C' || place == 0 && point.x > 0 {
            put_parts(&mut steps, point, point, 1, scale)?;
        }
    }
    Ok(steps)
}

/// The share of all draws at the end of a step, as a fraction with a point, behind what there is.
fn put_share(out: &mut Vec<u8>, below: i64) -> Result<(), AllocError> {
    if below >= 1_000_000 {
        return put(out, "1");
    }
    out.push(b'.')?;
    let mut left = below.max(0) as u64;
    let mut unit = 100_000u64;
    for _digit in 0..6u8 {
        out.push(b'0'.saturating_add((left / unit.max(1)).min(9) as u8))?;
        left %= unit.max(1);
        unit = (unit / 10).max(1);
        if left == 0 {
            return Ok(());
        }
    }
    Ok(())
}

/// The whole value of a step, at least 0, whose fraction goes over to the steps behind it.
fn whole_value(step: &Step, width: i128, places: u32, carry: i128) -> (i128, i128) {
    let unit = i128::from(unit_of(places));
    let due = step.value.saturating_mul(width).saturating_add(carry);
    let per_unit = unit.saturating_mul(width).max(1);
    let value = due
        .saturating_add(per_unit / 2)
        .max(0)
        .checked_div(per_unit)
        .unwrap_or(0);
    (value, due.saturating_sub(value.saturating_mul(per_unit)))
}

/// The points of a function that has these steps, in clock units, behind what there is.
fn put_points(out: &mut Vec<u8>, steps: &[Step], places: u32) -> Result<(), AllocError> {
    let mut from = 0i64;
    let mut carry = 0i128;
    for place in 0..steps.len() {
        let step = steps[place];
        let width = i128::from(step.below.saturating_sub(from)).max(1);
        let (value, left) = whole_value(&step, width, places, carry);
        carry = left;
        from = step.below;
        put(out, if place % 10 == 0 { "\n" } else { "/" })?;
        put_share(out, step.below)?;
        put_number(out, ",", value.clamp(0, 1 << 60) as u64)?;
    }
    Ok(())
}

/// What a FUNCTION of random numbers says before its points, behind its name.
fn put_head(out: &mut Vec<u8>, stream: u64, count: usize) -> Result<(), AllocError> {
    put_number(out, " FUNCTION  RN", stream)?;
    put_number(out, ",D", count as u64)
}

/// The steps of a draw.
fn steps_of(alloc: Global, plan: &Plan<'_>, draw: &Draw) -> Result<Vec<Step>, AllocError> {
    match draw.shape {
        Shape::Exponential => steps_of_table(alloc, &EXPONENTIAL, draw.first, draw.second),
        Shape::Normal => steps_of_table(alloc, &NORMAL, draw.first, draw.second),
        Shape::Triangular => steps_of_triangle(alloc, draw),
        Shape::Multiple(place) => match plan.functions.get(place) {
            Some(function) => steps_of_function(alloc, plan, function, draw.first),
            None => Ok(Vec::new(alloc)),
        },
    }
}

/// The function of a draw, in clock units, behind what there is.
pub(crate) fn put_draw(
    alloc: Global,
    out: &mut Vec<u8>,
    plan: &Plan<'_>,
    number: usize,
    draw: &Draw,
) -> Result<(), AllocError> {
    let steps = steps_of(alloc, plan, draw)?;
    put_name(out, plan, "TIMES", number)?;
    put_head(out, draw.stream, steps.len())?;
    put_points(out, &steps, plan.places)?;
    put(out, "\n")
}

/// A FUNCTION of type C of the text by steps, in clock units if it is a time, behind the end of a line.
pub(crate) fn put_steps(
    alloc: Global,
    out: &mut Vec<u8>,
    plan: &Plan<'_>,
    function: &Function<'_>,
    places: u32,
) -> Result<(), AllocError> {
    let steps = steps_of_function(
        alloc,
        plan,
        function,
        Number {
            millionths: 1_000_000,
        },
    )?;
    put(out, "\n")?;
    out.extend_from_slice(function.name)?;
    put_head(out, function.stream, steps.len())?;
    put_points(out, &steps, places)
}
