//! A value, and a half-width beside its mean, as they are told in thousandths.

ghost use Rattle.std.specs.Prelude.{◌≡◌, ◌≤◌, ◌+◌, ◌^◌};
ghost use Rattle.gw_statistics.specs.Telling as model;
ghost use Rattle.gw_writing.specs.Text.{Puts};

use gw_writing::put_signed_decimal;
use std::alloc::AllocError;

/// Millionths in thousandths, to the nearest; what lies in the middle goes away from 0.
fn thousandths_of(value: i128) -> i128
    ensures { result ≡ model.thousandths_of value }
{
    let size = ((value.unsigned_abs() + 500) / 1000) as i128;
    if value < 0 { -size } else { size }
}

/// A value of millionths, told in thousandths.
#[tactic(auto, unfolding(crate::specs::Telling::told))]
pub fn put_told(out: &mut Vec<u8>, value: &i128) -> Result<(), AllocError>
    ensures { Puts result out.old out.new (model.told value.now) }
{
    put_signed_decimal(out, 3, thousandths_of(*value))
}

/// How far millionths lie from the thousandths that are told of them.
fn distance(value: i128) -> u128
    ensures value { result ≡ model.distance value }
    ensures range { result ≤ 500 }
{
    let rest = value.unsigned_abs() % 1000;
    if rest < 500 { rest } else { 1000 - rest }
}

/// A half-width of millionths as it is told beside its mean, in thousandths: it covers what rounding the mean adds, and is rounded
/// up.
pub fn told_half_width(mean: i128, half_width: u128) -> u128
    requires { half_width ≤ 2 ^ 120 }
    ensures value { result ≡ model.told_half_width mean half_width }
    ensures range { result ≤ half_width + 1 }
{
    (half_width + distance(mean)).div_ceil(1000)
}
