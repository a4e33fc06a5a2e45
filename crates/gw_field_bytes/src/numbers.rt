//! Numbers, counts and optional values.

ghost use Rattle.std.specs.Prelude.{◌≡◌, ◌∷◌};
ghost use Rattle.std.specs.Int.{w16, w32, w64, to_be_bytes};
ghost use Rattle.gw_fields.specs.Fields.{byte, number, signed_number, flag, number_between, count, count_spelling, optional_spelling, optional_read};
ghost use Rattle.gw_field_bytes.specs.Receivers.{Puts};
ghost use Rattle.gw_fields.specs.Answers.{Gives};

use crate::receivers::Receiver;
use crate::spelled::{NumberFormat, Spelled, put_behind};
use gw_fields::codes::{LIMIT, NOT_CANONICAL, TAG, TRUNCATED};
use gw_fields::{ReadError, fault};
use std::alloc::Global;
use std::marker::PhantomData;

impl Spelled<NumberFormat> for u8 {
    ghost spelling = { byte.spell };

    ghost reading = { byte.read };

    fn put<R: Receiver>(&self, to: &mut R) -> Result<(), R::Refusal> {
        to.put_bytes(&[*self])
    }

    fn read(_alloc: Global, bytes: &[u8]) -> Result<(u8, &[u8]), ReadError> {
        match bytes {
            [] => Err(fault(TRUNCATED, bytes)),
            [byte, rest @ ..] => Ok((*byte, rest)),
        }
    }
}

impl Spelled<NumberFormat> for u16 {
    ghost spelling = { (number w16).spell };

    ghost reading = { (number w16).read };

    fn put<R: Receiver>(&self, to: &mut R) -> Result<(), R::Refusal> {
        to.put_bytes(&self.to_be_bytes())
    }

    fn read(_alloc: Global, bytes: &[u8]) -> Result<(u16, &[u8]), ReadError> {
        if bytes.len() < 2 {
            return Err(fault(TRUNCATED, bytes));
        }
        let (front, rest) = bytes.split_at(2);
        let number = u16::from_be_bytes([front[0], front[1]]);
        Ok((number, rest))
    }
}

impl Spelled<NumberFormat> for u32 {
    ghost spelling = { (number w32).spell };

    ghost reading = { (number w32).read };

    fn put<R: Receiver>(&self, to: &mut R) -> Result<(), R::Refusal> {
        to.put_bytes(&self.to_be_bytes())
    }

    fn read(_alloc: Global, bytes: &[u8]) -> Result<(u32, &[u8]), ReadError> {
        if bytes.len() < 4 {
            return Err(fault(TRUNCATED, bytes));
        }
        let (front, rest) = bytes.split_at(4);
        let number = u32::from_be_bytes([front[0], front[1], front[2], front[3]]);
        Ok((number, rest))
    }
}

impl Spelled<NumberFormat> for u64 {
    ghost spelling = { (number w64).spell };

    ghost reading = { (number w64).read };

    fn put<R: Receiver>(&self, to: &mut R) -> Result<(), R::Refusal> {
        to.put_bytes(&self.to_be_bytes())
    }

    fn read(_alloc: Global, bytes: &[u8]) -> Result<(u64, &[u8]), ReadError> {
        if bytes.len() < 8 {
            return Err(fault(TRUNCATED, bytes));
        }
        let (front, rest) = bytes.split_at(8);
        let number = u64::from_be_bytes([
            front[0], front[1], front[2], front[3], front[4], front[5], front[6], front[7],
        ]);
        Ok((number, rest))
    }
}

impl Spelled<NumberFormat> for i32 {
    ghost spelling = { (signed_number w32).spell };

    ghost reading = { (signed_number w32).read };

    fn put<R: Receiver>(&self, to: &mut R) -> Result<(), R::Refusal> {
        to.put_bytes(&self.to_be_bytes())
    }

    fn read(alloc: Global, bytes: &[u8]) -> Result<(i32, &[u8]), ReadError> {
        let (number, rest) = u32::read(alloc, bytes)?;
        Ok((number.cast_signed(), rest))
    }
}

impl Spelled<NumberFormat> for i64 {
    ghost spelling = { (signed_number w64).spell };

    ghost reading = { (signed_number w64).read };

    fn put<R: Receiver>(&self, to: &mut R) -> Result<(), R::Refusal> {
        to.put_bytes(&self.to_be_bytes())
    }

    fn read(alloc: Global, bytes: &[u8]) -> Result<(i64, &[u8]), ReadError> {
        let (number, rest) = u64::read(alloc, bytes)?;
        Ok((number.cast_signed(), rest))
    }
}

impl Spelled<NumberFormat> for bool {
    ghost spelling = { flag.spell };

    ghost reading = { flag.read };

    fn put<R: Receiver>(&self, to: &mut R) -> Result<(), R::Refusal> {
        to.put_bytes(&[*self as u8])
    }

    fn read(alloc: Global, bytes: &[u8]) -> Result<(bool, &[u8]), ReadError> {
        let (flag, rest) = u8::read(alloc, bytes)?;
        match flag {
            0 => Ok((false, rest)),
            1 => Ok((true, rest)),
            _ => Err(fault(TAG, bytes)),
        }
    }
}

/// The format of a value of a format, or of none.
pub struct IfAny<Format>(PhantomData<Format>);

impl<Format, T: Spelled<Format>> Spelled<IfAny<Format>> for Option<T> {
    ghost spelling = { optional_spelling T.spelling };

    ghost reading = { optional_read T.reading };

    fn put<R: Receiver>(&self, to: &mut R) -> Result<(), R::Refusal> {
        match self {
            None => to.put_bytes(&[0]),
            Some(value) => put_behind(to, 1, value),
        }
    }

    fn read(alloc: Global, bytes: &[u8]) -> Result<(Option<T>, &[u8]), ReadError> {
        let (flag, rest) = u8::read(alloc, bytes)?;
        match flag {
            0 => Ok((None, rest)),
            1 => {
                let (value, rest) = T::read(alloc, rest)?;
                Ok((Some(value), rest))
            }
            _ => Err(fault(TAG, bytes)),
        }
    }
}

/// A number within two limits.
pub fn read_ranged_u8(
    alloc: Global,
    bytes: &[u8],
    least: u8,
    most: u8,
) -> Result<(u8, &[u8]), ReadError>
    ensures { Gives (λ x. (x.0, x.1.now)) result ((number_between least most byte).read bytes.now) }
{
    let (number, rest) = u8::read(alloc, bytes)?;
    if number < least || most < number {
        return Err(fault(LIMIT, bytes));
    }
    Ok((number, rest))
}

/// A number within two limits.
pub fn read_ranged_u16(
    alloc: Global,
    bytes: &[u8],
    least: u16,
    most: u16,
) -> Result<(u16, &[u8]), ReadError>
    ensures { Gives (λ x. (x.0, x.1.now)) result ((number_between least most (number w16)).read bytes.now) }
{
    let (number, rest) = u16::read(alloc, bytes)?;
    if number < least || most < number {
        return Err(fault(LIMIT, bytes));
    }
    Ok((number, rest))
}

/// A number within two limits.
pub fn read_ranged_u32(
    alloc: Global,
    bytes: &[u8],
    least: u32,
    most: u32,
) -> Result<(u32, &[u8]), ReadError>
    ensures { Gives (λ x. (x.0, x.1.now)) result ((number_between least most (number w32)).read bytes.now) }
{
    let (number, rest) = u32::read(alloc, bytes)?;
    if number < least || most < number {
        return Err(fault(LIMIT, bytes));
    }
    Ok((number, rest))
}

/// A number within two limits.
pub fn read_ranged_u64(
    alloc: Global,
    bytes: &[u8],
    least: u64,
    most: u64,
) -> Result<(u64, &[u8]), ReadError>
    ensures { Gives (λ x. (x.0, x.1.now)) result ((number_between least most (number w64)).read bytes.now) }
{
    let (number, rest) = u64::read(alloc, bytes)?;
    if number < least || most < number {
        return Err(fault(LIMIT, bytes));
    }
    Ok((number, rest))
}

/// Puts a count into a receiver. A list that is too long for its field is spelled too, by the low four bytes of its length.
pub fn put_count<R: Receiver>(to: &mut R, count: usize) -> Result<(), R::Refusal>
    ensures { Puts R.content to.old to.new (count_spelling count) result }
{
    if count >= 255 {
        return put_long_count(to, count);
    }
    (count as u8).put(to)
}

/// Puts the longer form of a count into a receiver: ff, and its low four bytes.
fn put_long_count<R: Receiver>(to: &mut R, count: usize) -> Result<(), R::Refusal>
    ensures { Puts R.content to.old to.new (255 ∷ to_be_bytes w32 count) result }
{
    let [_, _, _, _, a, b, c, d] = (count as u64).to_be_bytes();
    to.put_bytes(&[255, a, b, c, d])
}

/// A count within two limits.
#[tactic(auto, unfolding(gw_fields::specs::Fields::count_read))]
pub fn read_count(
    alloc: Global,
    bytes: &[u8],
    least: usize,
    most: usize,
) -> Result<(usize, &[u8]), ReadError>
    ensures { Gives (λ x. (x.0, x.1.now)) result ((count least most).read bytes.now) }
{
    let (first, rest) = u8::read(alloc, bytes)?;
    if first < 255 {
        let count = first as usize;
        if count < least || most < count {
            return Err(fault(LIMIT, bytes));
        }
        return Ok((count, rest));
    }
    if rest.len() < 4 {
        return Err(fault(TRUNCATED, bytes));
    }
    let (count, rest) = u32::read(alloc, rest)?;
    let count = count as usize;
    if count < least || most < count {
        return Err(fault(LIMIT, bytes));
    }
    if count < 255 {
        return Err(fault(NOT_CANONICAL, bytes));
    }
    Ok((count, rest))
}
