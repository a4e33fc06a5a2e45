//! What repeated runs say of one figure.

ghost use Rattle.std.specs.Prelude.{◌≡◌, ◌≤◌, ◌<◌, ◌^◌, length, unsigned_abs};
ghost use Rattle.std.specs.List.{All};
ghost use Rattle.gw_statistics.specs.Summaries.{mean_of, least_of, greatest_of, ConfidesIn, IsSummary};

use crate::confidence::half_width;
use crate::rounding::nearest_of;
use crate::sums::{are_near, are_small, greatest, least, total};

/// At most so many values are summed up.
pub const MOST_VALUES: usize = 512;

/// What values say, in their unit.
#[derive(Clone, Copy, PartialEq, Eq)]
pub struct Summary {
    /// Their mean, rounded to the nearest.
    pub mean: i128,
    /// The least of them.
    pub least: i128,
    /// The greatest of them.
    pub greatest: i128,
    /// The half-width of the interval round the mean that has the true mean with 95 % confidence, rounded up. None of one value, and
    /// where two lie more than 2^50 units from each other.
    pub half_width: Option<u128>,
}

/// The half-width, where there is one.
fn confidence(least: &i128, values: &[i128]) -> Option<u128>
    requires { length values.now ≤ MOST_VALUES }
    ensures { ConfidesIn least.now values.now result }
{
    if values.len() < 2 || !are_near(least, values) {
        return None;
    }
    Some(half_width(least, values))
}

/// The mean of 1 to 512 values.
fn mean(values: &[i128]) -> i128
    requires some { (0 < length values.now) × (length values.now ≤ MOST_VALUES) }
    requires small { All (λ x. unsigned_abs x ≤ 2 ^ 100) values.now }
    ensures { result ≡ mean_of values.now }
{
    nearest_of(total(values), values.len() as u64)
}

/// What 1 to 512 values say, of which none is too great.
fn summary_of(values: &[i128]) -> Summary
    requires some { (0 < length values.now) × (length values.now ≤ MOST_VALUES) }
    requires small { All (λ x. unsigned_abs x ≤ 2 ^ 100) values.now }
    ensures mean { result.mean ≡ mean_of values.now }
    ensures least { result.least ≡ least_of values.now }
    ensures greatest { result.greatest ≡ greatest_of values.now }
    ensures half_width { ConfidesIn (least_of values.now) values.now result.half_width }
{
    let first = values[0];
    let least = least(first, values);
    Summary {
        mean: mean(values),
        least,
        greatest: greatest(first, values),
        half_width: confidence(&least, values),
    }
}

/// What at most 512 values say. None where there is no value, or one lies further from 0 than 2^100.
pub fn summarize(values: &[i128]) -> Option<Summary>
    requires { length values.now ≤ MOST_VALUES }
    ensures { IsSummary values.now result }
{
    if values.is_empty() || !are_small(values) {
        return None;
    }
    Some(summary_of(values))
}
