//! A picture of a figure over points: the mean at each, with its interval. Places are in tenths of pixels.

ghost use Rattle.std.specs.Prelude.{◌≡◌, ◌≤◌, ◌<◌, ◌++◌, length, OnOk};
ghost use Rattle.gw_drawing.specs.Text.{upto};
ghost use Rattle.gw_comparison.specs.Pictures as model;

use crate::axis::Frame;
use crate::frame::{frame_of, place_of, reach_of};
use crate::marks::{Mark, marks_of};
use crate::point::Point;
use gw_drawing::numbers::part_of_length;
use gw_drawing::text::{put_escaped, put_grouped, put_level_line, put_tenths, put_text_at};
use gw_object::Memory;
use gw_statistics::put_told;
use gw_writing::put;
use std::alloc::Global;

/// What a picture begins with.
const HEAD: &str =
    "<?xml version=\"1.0\" encoding=\"UTF-8\"?>\n<svg xmlns=\"http://www.w3.org/2000/svg\" version=\"1.1\" width=\"720\" height=\"430\" viewBox=\"0 0 720 430\" font-family=\"sans-serif\" font-size=\"12\">\n<rect width=\"100%\" height=\"100%\" fill=\"#fff\"/>\n";

/// The title: the figure's name, and what is drawn.
fn put_title(out: &mut Vec<u8>, figure: &[u8], runs: usize) -> Result<(), Memory> {
    put(out, HEAD)?;
    put(
        out,
        "<text x=\"80\" y=\"28\" font-size=\"15\" font-weight=\"bold\">",
    )?;
    put_escaped(out, figure)?;
    put(
        out,
        "</text>\n<text x=\"80\" y=\"45\" fill=\"#555\">Mean of ",
    )?;
    put_grouped(out, runs as u128)?;
    put(
        out,
        " runs at each point, with its 95 % confidence interval</text>\n",
    )
}

/// A number of millionths as a text.
fn put_number_text(
    out: &mut Vec<u8>,
    x: u64,
    y: u64,
    how: &str,
    number: &i128,
) -> Result<(), Memory>
    ensures { OnOk result
        (out.new.items ≡ out.old.items ++ model.number_text x y how.now number.now) }
{
    put_text_at(out, x, y, how)?;
    put_told(out, number)?;
    put(out, "</text>\n")
}

/// The level line at a number of millionths, and the number.
fn put_level(out: &mut Vec<u8>, frame: &Frame, number: &i128) -> Result<(), Memory>
    ensures { OnOk result (out.new.items ≡ out.old.items ++ model.level frame.now number.now) }
{
    let y = place_of(frame, number);
    put_level_line(out, y)?;
    put_number_text(out, 740, y + 40, " text-anchor=\"end\"", number)
}

/// The number of a step of an axis, from the lowest.
fn number_at(frame: &Frame, i: u64) -> i128
    requires { i ≤ 10 }
    ensures { result ≡ model.number_at frame.now i }
{
    if i < frame.below {
        -(reach_of(frame, frame.below - i) as i128)
    } else {
        reach_of(frame, i - frame.below) as i128
    }
}

/// The level line at a step of an axis, from the lowest.
fn put_level_at(out: &mut Vec<u8>, frame: &Frame, i: u64) -> Result<(), Memory>
    requires { i ≤ 10 }
    ensures { OnOk result (out.new.items ≡ out.old.items ++ model.level_at frame.now i) }
{
    put_level(out, frame, &number_at(frame, i))
}

/// The level lines below the last step.
fn put_lower_levels(out: &mut Vec<u8>, frame: &Frame, steps: u64) -> Result<(), Memory>
    requires { steps ≤ 10 }
    ensures { OnOk result (out.new.items ≡ out.old.items ++ upto (model.level_at frame.now) steps) }
{
    for i in 0..steps {
        put_level_at(out, frame, i)?;
    }
    Ok(())
}

/// The level lines.
fn put_levels(out: &mut Vec<u8>, frame: &Frame) -> Result<(), Memory>
    ensures { OnOk result (out.new.items ≡ out.old.items ++ model.levels frame.now) }
{
    put_lower_levels(out, frame, frame.steps)?;
    put_level_at(out, frame, frame.steps)
}

/// A cap: a short level line round a place.
fn put_cap(out: &mut Vec<u8>, x: u64, y: u64) -> Result<(), Memory>
    requires { 60 ≤ x }
    ensures { OnOk result (out.new.items ≡ out.old.items ++ model.cap x y) }
{
    put(out, "M")?;
    put_tenths(out, x - 60)?;
    put(out, " ")?;
    put_tenths(out, y)?;
    put(out, "h12.0")
}

/// A line upright from one place to another.
fn put_upright(out: &mut Vec<u8>, x: u64, low: u64, high: u64) -> Result<(), Memory>
    ensures { OnOk result (out.new.items ≡ out.old.items ++ model.upright x low high) }
{
    put(out, "M")?;
    put_tenths(out, x)?;
    put(out, " ")?;
    put_tenths(out, low)?;
    put(out, "V")?;
    put_tenths(out, high)
}

/// A line upright from one number to another, with a cap at each end.
fn put_interval(out: &mut Vec<u8>, frame: &Frame, x: u64, mark: &Mark) -> Result<(), Memory>
    requires { 60 ≤ x }
    ensures { OnOk result (out.new.items ≡ out.old.items ++ model.interval frame.now x mark.now) }
{
    let low = place_of(frame, &mark.low);
    let high = place_of(frame, &mark.high);
    put(out, "<path d=\"")?;
    put_upright(out, x, low, high)?;
    put_cap(out, x, low)?;
    put_cap(out, x, high)?;
    put(
        out,
        "\" stroke=\"#4477aa\" stroke-width=\"2\" fill=\"none\"/>\n",
    )
}

/// A dot.
fn put_dot(out: &mut Vec<u8>, x: u64, y: u64) -> Result<(), Memory>
    ensures { OnOk result (out.new.items ≡ out.old.items ++ model.dot x y) }
{
    put(out, "<circle cx=\"")?;
    put_tenths(out, x)?;
    put(out, "\" cy=\"")?;
    put_tenths(out, y)?;
    put(out, "\" r=\"4\" fill=\"#4477aa\"/>\n")
}

/// The mean, as a dot, and its number beside it where there is room.
fn put_mean(
    out: &mut Vec<u8>,
    frame: &Frame,
    x: u64,
    mean: &i128,
    has_room: bool,
) -> Result<(), Memory>
    requires { x ≤ 20000 }
    ensures { OnOk result (out.new.items ≡ out.old.items
        ++ model.mean frame.now x mean.now has_room) }
{
    let y = place_of(frame, mean);
    put_dot(out, x, y)?;
    if !has_room {
        return Ok(());
    }
    put_number_text(out, x + 90, y + 40, "", mean)
}

/// What a point is called, below the axis.
fn put_name(out: &mut Vec<u8>, x: u64, name: &[u8]) -> Result<(), Memory> {
    put_text_at(out, x, 3780, " text-anchor=\"middle\"")?;
    put_escaped(out, name)?;
    put(out, "</text>\n")
}

/// Whether the names of so many points have room at this one.
fn has_room(points: usize, i: usize) -> bool {
    i % (points / 8 + 1) == 0
}

/// Where a point of so many lies from the left.
fn left_of(points: usize, i: usize) -> u64
    ensures { (800 ≤ result) × (result ≤ 20000) }
{
    let points = points.max(1) as u64;
    let i = (i as u64).min(points - 1);
    800 + part_of_length(6200, i, points as u128) + 3100 / points
}

/// A point.
fn put_mark(
    out: &mut Vec<u8>,
    frame: &Frame,
    points: usize,
    i: usize,
    name: &[u8],
    mark: &Option<Mark>,
) -> Result<(), Memory> {
    let x = left_of(points, i);
    if has_room(points, i) {
        put_name(out, x, name)?;
    }
    match mark {
        Some(mark) => {
            put_interval(out, frame, x, mark)?;
            put_mean(out, frame, x, &mark.mean, points <= 12)
        }
        None => Ok(()),
    }
}

/// All points.
fn put_marks(
    out: &mut Vec<u8>,
    frame: &Frame,
    points: &[Point],
    marks: &[Option<Mark>],
) -> Result<(), Memory> {
    for i in 0..points.len().min(marks.len()) {
        put_mark(out, frame, points.len(), i, &points[i].name, &marks[i])?;
    }
    Ok(())
}

/// How many runs the first point has.
fn runs_of(points: &[Point]) -> usize {
    match points {
        [point, ..] => match point.columns.as_slice() {
            [column, ..] => column.values.len(),
            [] => 0,
        },
        [] => 0,
    }
}

/// A picture of a figure over points, as an SVG document: the mean at each, and the line from the lower to the upper end of its
/// 95 % confidence interval. A point without a value has its name alone.
pub fn put_picture(
    alloc: Global,
    out: &mut Vec<u8>,
    figure: &[u8],
    points: &[Point],
) -> Result<(), Memory> {
    let marks = marks_of(alloc, figure, points)?;
    let frame = frame_of(&marks);
    put_title(out, figure, runs_of(points))?;
    put_levels(out, &frame)?;
    put_marks(out, &frame, points, &marks)?;
    put_text_at(out, 3900, 4050, " text-anchor=\"middle\" fill=\"#555\"")?;
    put(out, "point</text>\n</svg>\n")
}
