//! Why rows aren't those of all runs of a study.

ghost use Rattle.std.specs.Prelude.{◌≡◌, ◌≤◌, ℕ, None, IfNone, IfSome};
ghost use Rattle.std.specs.List.{All};
ghost use Rattle.gw_summary.specs.Adding.{IsWhole};
ghost use Rattle.gw_summary.specs.Complete as model;

use crate::fault::RowFault;
use crate::point::PointRows;
use crate::rows::Rows;
use crate::study::Study;

/// All runs have a number below this.
const MOST_RUNS: usize = 512;

/// The run behind the greatest of all points.
fn end_of(points: &[PointRows]) -> usize
    ensures few { result ≤ 512 }
    ensures end { result ≡ model.end_of_points points.now }
{
    let mut end = 0;
    for i in 0..points.len() {
        end = end.max(points[i].lines.len().min(MOST_RUNS));
    }
    end
}

/// Why rows aren't those of all runs of a study: what is wrong, and the point at which it is.
#[derive(Clone, Copy)]
pub(crate) struct Gap<'a> {
    pub(crate) fault: RowFault,
    pub(crate) point: &'a [u8],
}

/// Why points don't have all the runs from one to another, but not that one, and no other, if they haven't.
fn gap_between(points: &[PointRows], first: usize, end: usize) -> Option<Gap<'_>>
    requires { end ≤ 512 }
    ensures whole { IfNone result (All (λ p. IsWhole p.lines.items first end) points.now) }
    ensures gap { IfSome result (λ _. ¬ All (λ p. IsWhole p.lines.items first end) points.now) }
{
    for i in 0..points.len() {
        if let Some(fault) = points[i].fault_between(first, end) {
            return Some(Gap {
                fault,
                point: &points[i].name,
            });
        }
    }
    None
}

/// Why there aren't as many rows as they say themselves, if they say it and there aren't.
fn gap_of_count<'a>(rows: &'a Rows, study: &Study) -> Option<Gap<'a>>
    ensures { study.now.origin.rows ≡ 0 → result ≡ None }
{
    if study.origin.rows != 0 && study.origin.rows != rows.count() {
        Some(Gap {
            fault: RowFault::Few(rows.count(), study.origin.rows),
            point: &[],
        })
    } else {
        None
    }
}

/// The first run of the study of this number whose last run is before this one; none where no study of so many runs ends there.
fn first_of(end: usize, seeds: u32) -> Option<usize>
    ensures first { IfSome result (model.IsFirstOf end seeds) }
    ensures none { IfNone result ((first : ℕ) → ¬ model.IsFirstOf end seeds first) }
{
    let seeds = seeds as usize;
    if seeds == 0 || end % seeds != 0 {
        return None;
    }
    Some(end - end / seeds)
}

/// Why rows aren't those of all runs of a study, if they aren't.
pub(crate) fn gap_of<'a>(rows: &'a Rows, study: &Study, seeds: u32) -> Option<Gap<'a>>
    ensures complete { IfNone result (model.AreComplete rows.now.points.items seeds) }
    ensures whole { model.HasAllRuns rows.now study.now seeds → result ≡ None }
{
    let end = end_of(rows.points());
    match first_of(end, seeds) {
        Some(first) => match gap_between(rows.points(), first, end) {
            Some(gap) => Some(gap),
            None => gap_of_count(rows, study),
        },
        None => Some(Gap {
            fault: RowFault::Missing(end as u32),
            point: &[],
        }),
    }
}
