//! Quotients, rounded to the nearest.

ghost use Rattle.std.specs.Prelude.{◌≡◌, ◌≤◌, ◌<◌, ◌^◌, unsigned_abs};
ghost use Rattle.gw_statistics.specs.Rounding as model;
ghost use Rattle.gw_statistics.specs.Rounding.{IsNearest};

/// A quotient, rounded to the nearest whole number, up where it lies in the middle.
pub fn nearest(a: u128, n: u64) -> u128
    requires { (a ≤ 2 ^ 126) × (0 < n) }
    ensures value { result ≡ model.nearest a n }
    ensures nearest { IsNearest a n result }
{
    let n = u128::from(n);
    (2 * a + n) / (2 * n)
}

/// The same of any number; what lies in the middle goes away from 0.
pub fn nearest_of(a: i128, n: u64) -> i128
    requires { (unsigned_abs a ≤ 2 ^ 126) × (0 < n) }
    ensures { result ≡ model.nearest_of a n }
{
    let size = nearest(a.unsigned_abs(), n) as i128;
    if a < 0 { -size } else { size }
}
