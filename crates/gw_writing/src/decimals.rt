//! Numbers with a point. Each call fails for want of memory alone.

ghost use Rattle.std.specs.Prelude.{◌≡◌, ◌≤◌, drop};
ghost use Rattle.std.specs.Fmt.{decimal};
ghost use Rattle.gw_writing.specs.Decimals as model;
ghost use Rattle.gw_writing.specs.Text.{Puts};

use crate::text::{put, put_number};
use itoa::Buffer;
use std::alloc::AllocError;

/// What a number has before its first digit.
pub fn sign_of(is_negative: bool) -> &'static str
    ensures { result.now ≡ model.sign_of is_negative }
{
    if is_negative { "-" } else { "" }
}

/// The digits of a number but the first.
fn put_tail(out: &mut Vec<u8>, number: u128) -> Result<(), AllocError>
    ensures { Puts result out.old out.new (drop 1 (decimal number)) }
{
    let mut buffer = Buffer::new();
    match buffer.format(number).as_bytes() {
        [_, digits @ ..] => out.extend_from_slice(digits),
        [] => Ok(()),
    }
}

/// So many last digits of a number, zeros where it has fewer.
#[tactic(auto, using(crate::proofs::Digits::behind_one, crate::proofs::Digits::one_fits))]
fn put_last_digits(out: &mut Vec<u8>, places: u32, number: u128) -> Result<(), AllocError>
    requires { places ≤ 38 }
    ensures { Puts result out.old out.new (model.last_digits places number) }
{
    let one = 10u128.pow(places);
    put_tail(out, one + number % one)
}

/// A point, and so many last digits of a number behind it.
pub fn put_places(out: &mut Vec<u8>, places: u32, number: u128) -> Result<(), AllocError>
    requires { places ≤ 38 }
    ensures { Puts result out.old out.new (model.behind_point places number) }
{
    put(out, ".")?;
    put_last_digits(out, places, number)
}

/// A number of tenths, hundredths and so on, with so many digits behind its point.
#[tactic(auto, unfolding(crate::specs::Decimals::with_point), using(crate::proofs::Digits::one_fits))]
pub fn put_decimal(out: &mut Vec<u8>, places: u32, number: u128) -> Result<(), AllocError>
    requires { places ≤ 38 }
    ensures { Puts result out.old out.new (model.with_point places number) }
{
    put_number(out, "", number / 10u128.pow(places))?;
    put_places(out, places, number)
}

/// The same of a number that may lie below 0.
#[tactic(auto, unfolding(crate::specs::Decimals::signed_with_point))]
pub fn put_signed_decimal(out: &mut Vec<u8>, places: u32, number: i128) -> Result<(), AllocError>
    requires { places ≤ 38 }
    ensures { Puts result out.old out.new (model.signed_with_point places number) }
{
    put(out, sign_of(number < 0))?;
    put_decimal(out, places, number.unsigned_abs())
}
