//! Streams of random numbers. The generator is ours: docs/numbers.md.

ghost use Rattle.std.specs.Prelude.{◌≡◌, ◌+◌, ◌*◌, ◌%◌, pos, unsigned_abs, ◌≤ℤ◌, SomeIff, IfOk, OnErr};
ghost use Rattle.gw_num.specs.Arithmetic.{within_i64};
ghost use Rattle.gw_num.specs.Generator.{IsSeed, next_after, time_at, with_stream, drawn_time};

use crate::arithmetic::{NumFault, add, mul, sub};
use std::marker::Model;

const MULTIPLIER: u64 = 48_271;

const MODULUS: u64 = 2_147_483_647;

/// A stream of random numbers. It stands at a number from 1 to 2147483646, at first its seed. A draw moves it from `x`
/// to `48271 x mod 2147483647` and gives that number. Contracts see a stream as the number that it stands at.
#[derive(Clone, Copy, PartialEq, Eq)]
pub struct Stream {
    last: u32,
}

impl Model for Stream {
    ghost use Rattle.std.specs.Prelude.{ℕ};
    ghost use Rattle.gw_num.specs.Generator.{IsSeed};

    ghost Value = { ℕ };

    ghost view = { λ s. s.last };

    ghost invariant = { λ s. IsSeed s.last };

    ghost inverse = { λ n. record { last = n } };
}

impl Stream {
    /// The stream with this seed, or `None` for 0 and above 2147483646.
    pub fn new(seed: u32) -> Option<Stream>
        ensures { SomeIff result (IsSeed seed) seed }
    {
        if seed == 0 || MODULUS <= u64::from(seed) {
            return None;
        }
        Some(Stream { last: seed })
    }

    /// Draws a number from 1 to 2147483646.
    pub fn next(&mut self) -> u32
        ensures drawn { result ≡ next_after self.old }
        ensures moved { self.new ≡ next_after self.old }
        ensures range { IsSeed self.old × IsSeed self.new }
    {
        let drawn = successor(self.last);
        self.last = drawn;
        drawn
    }

    /// Draws a number from 0 to 999, as `RN` gives it.
    pub fn thousandths(&mut self) -> u32
        ensures drawn { result ≡ next_after self.old % 1000 }
        ensures moved { self.new ≡ next_after self.old }
        ensures range { IsSeed self.old × IsSeed self.new }
    {
        self.next() % 1000
    }

    /// Draws a number from 0 to 999999, as `RN` gives it to a FUNCTION.
    pub fn millionths(&mut self) -> u32
        ensures drawn { result ≡ next_after self.old % 1000000 }
        ensures moved { self.new ≡ next_after self.old }
        ensures range { IsSeed self.old × IsSeed self.new }
    {
        self.next() % 1_000_000
    }

    /// Draws a time in clock units from `mean - half` to `mean + half`: `mean - half + x mod (2 half + 1)` with the
    /// number `x` drawn, so of a range wider than the generator's only the lowest times come. Where `half` is 0 the time
    /// is the mean, without a draw.
    ///
    /// `Number` where `half` is below 0, and where `mean - half`, `2 half + 1` or the time leaves `i64`. The stream is
    /// then as before.
    pub fn spread(&mut self, mean: i64, half: i64) -> Result<i64, NumFault>
        ensures drawn { with_stream result self.new ≡ drawn_time mean half self.old }
        ensures kept { OnErr result (self.new ≡ self.old) }
        ensures range { IsSeed self.old × IsSeed self.new }
    {
        let (time, last) = drawn(self.last, mean, half)?;
        self.last = last;
        Ok(time)
    }
}

// The number that a stream at `last` draws.
fn successor(last: u32) -> u32
    requires { IsSeed last }
    ensures { result ≡ next_after last }
{
    (MULTIPLIER * u64::from(last) % MODULUS) as u32
}

// A time drawn from a stream at `last`, with where the stream then stands.
fn drawn(last: u32, mean: i64, half: i64) -> Result<(i64, u32), NumFault>
    requires { IsSeed last }
    ensures value { result ≡ drawn_time mean half last }
    ensures range { IfOk result (λ (time, last). IsSeed last) }
{
    if half == 0 {
        return Ok((mean, last));
    }
    let moved = successor(last);
    let time = time_of(mean, half, moved)?;
    Ok((time, moved))
}

// The time that the number `x` gives, in clock units.
fn time_of(mean: i64, half: i64, x: u32) -> Result<i64, NumFault>
    ensures { result ≡ time_at mean half x }
{
    if half < 0 {
        return Err(NumFault::Number);
    }
    let least = sub(mean, half)?;
    let width = width_of(half)?;
    add(least, i64::from(x) % width)
}

// How many times lie from `mean - half` to `mean + half`.
fn width_of(half: i64) -> Result<i64, NumFault>
    requires { pos 0 ≤ℤ half }
    ensures { result ≡ within_i64 (pos (2 * unsigned_abs half + 1)) }
{
    add(mul(2, half)?, 1)
}
