//! Amounts of millionths as decimals.

ghost use Rattle.std.specs.Prelude.{◌≡◌, ◌<◌, ◌≤◌, ◌+◌, ◌/◌, ◌%◌, ◌^◌, ◌==◌, ◌++◌, ℕ, ℤ, pos, negsuc, true, false, drop, slice_index, slice_index_or, FitsSigned, IfOk, OnOk};
ghost use Rattle.std.specs.Int.{w128};
ghost use Rattle.std.specs.Fmt.{decimal};
ghost use Rattle.gw_rows.specs.Amounts as model;
ghost use Rattle.gw_rows.specs.Reading.{IsAmount, ReadsAmount};

use crate::parts::{behind_first, split_at_byte};
use gw_object::Memory;
use gw_writing::{put_number, put_places, sign_of};
use std::alloc::Global;

/// How many digits behind the point tell a number of millionths below 1 exactly: the fewest that do, from one on.
fn places_for(millionths: u128) -> u32
    ensures value { result ≡ model.places_for millionths }
    ensures range { (1 ≤ result) × (result ≤ 6) }
{
    if millionths % 100_000 == 0 {
        1
    } else if millionths % 10_000 == 0 {
        2
    } else if millionths % 1_000 == 0 {
        3
    } else if millionths % 100 == 0 {
        4
    } else if millionths % 10 == 0 {
        5
    } else {
        6
    }
}

/// The point and the digits behind it, of millionths below 1; nothing where there are none.
#[tactic(auto, unfolding(crate::specs::Amounts::fraction), using(crate::proofs::Decimals::some_parts))]
fn put_fraction(out: &mut Vec<u8>, millionths: u128) -> Result<(), Memory>
    requires { millionths < 1000000 }
    ensures { OnOk result (out.new.items ≡ out.old.items ++ model.fraction millionths) }
{
    if millionths == 0 {
        return Ok(());
    }
    let places = places_for(millionths);
    put_places(out, places, millionths / 10u128.pow(6 - places))
}

/// An amount of millionths, exactly: no zero ends what stands behind the point, and there is no point where nothing does.
#[tactic(auto, unfolding(crate::specs::Amounts::amount))]
fn put_amount(out: &mut Vec<u8>, amount: i128) -> Result<(), Memory>
    ensures { OnOk result (out.new.items ≡ out.old.items ++ model.amount amount) }
{
    let size = amount.unsigned_abs();
    put_number(out, sign_of(amount < 0), size / 1_000_000)?;
    put_fraction(out, size % 1_000_000)
}

/// The field of an amount: empty where there is none.
pub(crate) fn amount_field(alloc: Global, amount: Option<i128>) -> Result<Vec<u8>, Memory>
    ensures field { IfOk result (λ field. field.items ≡ model.amount_field amount) }
    ensures range { OnOk result (IsAmount amount) }
{
    let mut field = Vec::new(alloc);
    match amount {
        Some(amount) => {
            put_amount(&mut field, amount)?;
            Ok(field)
        }
        None => Ok(field),
    }
}

/// The number of a decimal below 2^128; other bytes, and more digits, give another number.
pub(crate) fn whole_in(digits: &[u8]) -> u128
    ensures { (n : ℕ) → n < 2 ^ 128 → digits.now ≡ decimal n → result ≡ n }
{
    let mut value: u128 = 0;
    for digit in digits {
        value = value
            .saturating_mul(10)
            .saturating_add(u128::from(digit.saturating_sub(b'0')));
    }
    value
}

/// The digit at a place; 0 where there is none.
fn digit_at(digits: &[u8], place: usize) -> u8
    ensures { result ≡ slice_index_or digits.now place 48 }
{
    match digits.get(place) {
        Some(digit) => *digit,
        None => b'0',
    }
}

/// How many millionths the first six digits behind a point are.
fn millionths_in(digits: &[u8]) -> u128
    ensures { (m : ℕ) → m < 1000000 → digits.now ≡ drop 1 (model.fraction m) → result ≡ m }
{
    let mut value: u128 = 0;
    for i in 0..6usize {
        value = value
            .saturating_mul(10)
            .saturating_add(u128::from(digit_at(digits, i).saturating_sub(b'0')));
    }
    value
}

/// How many millionths a decimal without a sign is.
fn size_in(digits: &[u8]) -> u128
    ensures { (n : ℕ) → n < 2 ^ 128 → digits.now ≡ model.size_text n → result ≡ n }
{
    let (whole, fraction) = split_at_byte(digits, b'.');
    whole_in(whole)
        .saturating_mul(1_000_000)
        .saturating_add(millionths_in(fraction))
}

/// A size as a number, with a sign or none; a size that is too great gives another number.
fn signed(size: u128, is_negative: bool) -> i128
    ensures above { (n : ℕ) → n < 2 ^ 127 → size ≡ n → is_negative ≡ false → result ≡ pos n }
    ensures below { (n : ℕ) → n < 2 ^ 127 → size ≡ n + 1 → is_negative ≡ true → result ≡ negsuc n }
{
    match (i128::try_from(size), is_negative) {
        (Ok(size), false) => size,
        (Ok(size), true) => -size,
        (Err(_), false) => i128::MAX,
        (Err(_), true) => i128::MIN,
    }
}

/// Whether a field begins with a sign.
fn has_sign(field: &[u8]) -> bool
    ensures { result ≡ (slice_index field.now 0 == 45) }
{
    match field.first() {
        Some(byte) => *byte == b'-',
        None => false,
    }
}

/// The amount that a field tells. A field that isn't the field of any amount gives another's.
fn some_amount_in(field: &[u8]) -> i128
    ensures { (z : ℤ) → FitsSigned w128 z → field.now ≡ model.amount z → result ≡ z }
{
    if has_sign(field) {
        signed(size_in(behind_first(field)), true)
    } else {
        signed(size_in(field), false)
    }
}

/// The same, if it tells one.
pub(crate) fn amount_in(field: &[u8]) -> Option<i128>
    ensures { ReadsAmount field.now result }
{
    if field.is_empty() {
        None
    } else {
        Some(some_amount_in(field))
    }
}

/// The number that a field tells. A field that isn't the field of any number gives another's.
pub(crate) fn number_in(field: &[u8]) -> u64
    ensures { (n : ℕ) → n < 2 ^ 64 → field.now ≡ decimal n → result ≡ n }
{
    whole_in(field).min(u64::MAX as u128) as u64
}
