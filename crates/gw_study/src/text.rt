//! The lines of a study.

ghost use Rattle.std.specs.Prelude.{◌≡◌, ◌++◌, OnOk, Some};
ghost use Rattle.gw_study.specs.Text as model;

use gw_object::Memory;
use gw_statistics::{Summary, put_told, told_half_width};
use gw_writing::{put_decimal, put_left, put_right};
use std::alloc::Global;

/// How wide a name is.
const NAME: usize = 40;

/// How wide a number is.
const NUMBER: usize = 16;

/// Appends a value of millionths, as it is told.
fn put_value(alloc: Global, out: &mut Vec<u8>, value: &i128) -> Result<(), Memory>
    ensures { OnOk result (out.new.items ≡ out.old.items ++ model.value_column value.now) }
{
    let mut text = Vec::new(alloc);
    put_told(&mut text, value)?;
    put_right(out, NUMBER, &text)
}

/// Appends a half-width as it is told, or a line where there is none.
fn put_half_width(
    alloc: Global,
    out: &mut Vec<u8>,
    mean: &i128,
    half_width: Option<u128>,
) -> Result<(), Memory>
    ensures { OnOk result
        (out.new.items ≡ out.old.items ++ model.half_width_column mean.now half_width) }
{
    match half_width {
        Some(half_width) if half_width <= 1 << 64 => {
            let mut text = Vec::new(alloc);
            put_decimal(&mut text, 3, told_half_width(*mean, half_width))?;
            put_right(out, NUMBER, &text)
        }
        _ => put_right(out, NUMBER, b"-"),
    }
}

/// Appends the mean, the least and the greatest value, and the half-width.
fn put_summary(alloc: Global, out: &mut Vec<u8>, summary: &Summary) -> Result<(), Memory>
    ensures { OnOk result (out.new.items ≡ out.old.items ++ model.said_columns (Some summary.now)) }
{
    put_value(alloc, out, &summary.mean)?;
    put_value(alloc, out, &summary.least)?;
    put_value(alloc, out, &summary.greatest)?;
    put_half_width(alloc, out, &summary.mean, summary.half_width)
}

/// Appends what is said of a figure.
fn put_said(alloc: Global, out: &mut Vec<u8>, said: Option<Summary>) -> Result<(), Memory>
    ensures { OnOk result (out.new.items ≡ out.old.items ++ model.said_columns said) }
{
    match said {
        Some(summary) => put_summary(alloc, out, &summary),
        None => put_right(out, NUMBER, b"-"),
    }
}

/// Appends the row of a figure: what is said of it, or that nothing is.
pub(crate) fn put_line(
    alloc: Global,
    out: &mut Vec<u8>,
    name: &[u8],
    said: Option<Summary>,
) -> Result<(), Memory>
    ensures { OnOk result (out.new.items ≡ out.old.items ++ model.row_line name.now said) }
{
    put_left(out, NAME, name)?;
    put_said(alloc, out, said)?;
    out.push(b'\n')?;
    Ok(())
}

/// Appends the line above the rows.
pub(crate) fn put_head(out: &mut Vec<u8>) -> Result<(), Memory>
    ensures { OnOk result (out.new.items ≡ out.old.items ++ model.head_line) }
{
    put_left(out, NAME, b"FIGURE")?;
    put_right(out, NUMBER, b"MEAN")?;
    put_right(out, NUMBER, b"LEAST")?;
    put_right(out, NUMBER, b"GREATEST")?;
    put_right(out, NUMBER, b"HALF-WIDTH")?;
    out.push(b'\n')?;
    Ok(())
}
