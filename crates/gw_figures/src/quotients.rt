//! Values in millionths.

ghost use Rattle.std.specs.Prelude.{◌≡◌, ◌^◌, ◌≤◌, unsigned_abs};
ghost use Rattle.gw_figures.specs.Windows as model;

use gw_statistics::{nearest, nearest_of};

/// So many millionths are one.
const MILLION: i128 = 1_000_000;

/// A whole number.
pub(crate) fn units(number: u64) -> Option<i128>
    ensures { result ≡ model.units number }
{
    Some(MILLION * i128::from(number))
}

/// A whole number that may be below 0.
pub(crate) fn signed_units(number: i128) -> Option<i128>
    requires { unsigned_abs number ≤ 2 ^ 100 }
    ensures { result ≡ model.signed_units number }
{
    Some(MILLION * number)
}

/// By how much a count has risen.
pub(crate) fn rise(before: u64, after: u64) -> Option<i128>
    ensures { result ≡ model.rise before after }
{
    units(after.saturating_sub(before))
}

/// A quotient, rounded to the nearest. None by 0, and of what is 2^100 or more.
pub(crate) fn quotient(sum: u128, number: u64) -> Option<i128>
    ensures { result ≡ model.quotient sum number }
{
    if number == 0 || sum >= 1 << 100 {
        return None;
    }
    Some(nearest(1_000_000 * sum, number) as i128)
}

/// A quotient of what may be below 0, rounded to the nearest. None by 0.
pub(crate) fn signed_quotient(sum: i128, number: u64) -> Option<i128>
    requires { unsigned_abs sum ≤ 2 ^ 100 }
    ensures { result ≡ model.signed_quotient sum number }
{
    if number == 0 {
        return None;
    }
    Some(nearest_of(MILLION * sum, number))
}
