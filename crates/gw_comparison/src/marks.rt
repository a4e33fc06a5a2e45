//! What is drawn of a figure at a point.

use crate::accounts::{account_in, column_of};
use crate::point::Point;
use gw_object::Memory;
use gw_statistics::Summary;
use std::alloc::Global;

/// A mean and its interval, in millionths.
#[derive(Clone, Copy)]
pub(crate) struct Mark {
    /// The mean.
    pub(crate) mean: i128,
    /// The lower end of the interval.
    pub(crate) low: i128,
    /// The upper end.
    pub(crate) high: i128,
}

/// What is drawn of a summary; a mean without an interval has one of no width.
fn mark_of(summary: &Summary) -> Mark {
    let half = summary.half_width.unwrap_or(0).min(1 << 100) as i128;
    Mark {
        mean: summary.mean,
        low: summary.mean.saturating_sub(half),
        high: summary.mean.saturating_add(half),
    }
}

/// What is drawn of a point, if it has the figure and a value there.
fn mark_at(alloc: Global, figure: &[u8], point: &Point) -> Result<Option<Mark>, Memory> {
    let Some(column) = column_of(&point.columns, figure) else {
        return Ok(None);
    };
    let account = account_in(alloc, column)?;
    match &account.summary {
        Some(summary) => Ok(Some(mark_of(summary))),
        None => Ok(None),
    }
}

/// What is drawn of all points.
pub(crate) fn marks_of(
    alloc: Global,
    figure: &[u8],
    points: &[Point],
) -> Result<Vec<Option<Mark>>, Memory> {
    let mut marks = Vec::new(alloc);
    for i in 0..points.len() {
        marks.push(mark_at(alloc, figure, &points[i])?)?;
    }
    Ok(marks)
}
