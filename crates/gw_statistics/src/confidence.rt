//! How far a mean may lie from the true one.

ghost use Rattle.std.specs.Prelude.{◌≡◌, ◌≤◌, ◌<◌, ◌+◌, ◌-◌, ◌*◌, ◌/◌, ◌%◌, ◌^◌, length};
ghost use Rattle.std.specs.List.{All};
ghost use Rattle.gw_statistics.specs.Rounding.{quotient_up};
ghost use Rattle.gw_statistics.specs.Summaries.{distance, most_distance, dispersion, scale, IsHalfWidthOf, IsRoot};

use crate::quantiles::quantile;
use crate::sums::{sum_of_distances, sum_of_squares};

/// The least number whose square is at least this.
fn root(square: u128) -> u128
    requires { square ≤ 2 ^ 126 }
    ensures root { IsRoot square result }
    ensures range { result ≤ 2 ^ 63 }
{
    let root = square.isqrt();
    if root * root == square {
        root
    } else {
        root + 1
    }
}

/// How far values are scattered: n times the squares of how far they lie from one less the square of how far in all.
fn dispersion_of(from: &i128, values: &[i128]) -> u128
    requires few { length values.now ≤ 512 }
    requires near { All (λ x. distance from.now x ≤ most_distance) values.now }
    ensures value { result ≡ dispersion from.now values.now }
    ensures range { result ≤ 2 ^ 118 }
{
    let sum = sum_of_distances(from, values);
    let squares = sum_of_squares(from, values);
    (values.len() as u128 * squares).saturating_sub(sum * sum)
}

/// By what the square of a half-width of so many runs is multiplied to be compared.
fn scale_of(runs: u32) -> u128
    requires { (2 ≤ runs) × (runs ≤ 512) }
    ensures value { result ≡ scale runs }
    ensures some { 1000000 ≤ result }
    ensures range { result ≤ 2 ^ 47 }
{
    let runs = u128::from(runs);
    1_000_000 * (runs * runs * (runs - 1))
}

/// The square of a quantile.
fn squared(quantile: u32) -> u128
    requires { quantile ≤ 12707 }
    ensures value { result ≡ quantile * quantile }
    ensures range { result ≤ 12707 * 12707 }
{
    let quantile = u128::from(quantile);
    quantile * quantile
}

/// A dispersion times the square of a quantile, divided by a scale and rounded up. Their product may be more than a `u128`
/// holds, so the whole quotient of the dispersion is divided off first.
fn scaled(square: u128, dispersion: u128, scale: u128) -> u128
    requires square { square ≤ 12707 * 12707 }
    requires dispersion { dispersion ≤ 2 ^ 118 }
    requires scale { (1000000 ≤ scale) × (scale ≤ 2 ^ 47) }
    ensures value { result ≡ square * (dispersion / scale)
        + quotient_up (square * (dispersion % scale)) scale }
    ensures range { result ≤ 2 ^ 126 }
{
    square * (dispersion / scale) + (square * (dispersion % scale)).div_ceil(scale)
}

/// The half-width of the interval that has the true mean with 95 % confidence, in the unit of the values: the least number that
/// covers it. The values are those of 2 to 512 runs, and none lies too far from the given one.
pub(crate) fn half_width(from: &i128, values: &[i128]) -> u128
    requires runs { (2 ≤ length values.now) × (length values.now ≤ 512) }
    requires near { All (λ x. distance from.now x ≤ most_distance) values.now }
    ensures { IsHalfWidthOf from.now values.now result }
{
    let runs = values.len() as u32;
    let square = squared(quantile(runs - 1));
    root(scaled(square, dispersion_of(from, values), scale_of(runs)))
}
