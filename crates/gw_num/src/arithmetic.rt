//! Arithmetic on values. An operation gives its mathematical value where an `i64` holds it. Its operators are those of
//! the PLUS language (`#` multiplies, `\` divides, `@` gives the remainder, `^` the power); whole numbers alone, their
//! range and the faults are ours: docs/numbers.md.

ghost use Rattle.std.specs.Prelude.{◌≡◌, ◌≤◌, ℤ};
ghost use Rattle.std.specs.Int.{int_pow};
ghost use Rattle.gw_num.specs.Arithmetic.{within_i64, sum_of, difference_of, product_of, negative_of, quotient_of, remainder_of, power_of};

/// Why an operation gives no value.
#[derive(Clone, Copy, PartialEq, Eq)]
pub enum NumFault {
    /// The mathematical value leaves the range of an `i64`, or there is none: a power with an exponent below 0, a time
    /// with a half-range below 0.
    Number,
    /// The divisor of `\` or `@` is 0.
    ZeroDivisor,
}

/// The sum `a + b`, or `Number`.
pub fn add(a: i64, b: i64) -> Result<i64, NumFault>
    ensures { result ≡ sum_of a b }
{
    a.checked_add(b).ok_or(NumFault::Number)
}

/// The difference `a - b`, or `Number`.
pub fn sub(a: i64, b: i64) -> Result<i64, NumFault>
    ensures { result ≡ difference_of a b }
{
    a.checked_sub(b).ok_or(NumFault::Number)
}

/// The product `a # b`, or `Number`.
pub fn mul(a: i64, b: i64) -> Result<i64, NumFault>
    ensures { result ≡ product_of a b }
{
    a.checked_mul(b).ok_or(NumFault::Number)
}

/// The value `-a`, or `Number` for the least `i64`.
pub fn neg(a: i64) -> Result<i64, NumFault>
    ensures { result ≡ negative_of a }
{
    a.checked_neg().ok_or(NumFault::Number)
}

/// The quotient `a \ b`, rounded toward zero: `ZeroDivisor` where `b` is 0, and `Number` for the least `i64` by -1.
pub fn div(a: i64, b: i64) -> Result<i64, NumFault>
    ensures { result ≡ quotient_of a b }
{
    if b == 0 {
        return Err(NumFault::ZeroDivisor);
    }
    a.checked_div(b).ok_or(NumFault::Number)
}

/// The remainder `a @ b`, what the quotient leaves of `a`, with the sign of `a`: `ZeroDivisor` where `b` is 0. The
/// remainder of the least `i64` by -1 is 0.
pub fn rem(a: i64, b: i64) -> Result<i64, NumFault>
    ensures { result ≡ remainder_of a b }
{
    if b == 0 {
        return Err(NumFault::ZeroDivisor);
    }
    Ok(a.wrapping_rem(b))
}

/// The power `a ^ b`, where `0 ^ 0` is 1: `Number` where it leaves `i64`, and where `b` is below 0, also at the bases
/// 1 and -1. However large `b` is, it takes fewer than a hundred multiplications.
pub fn pow(a: i64, b: i64) -> Result<i64, NumFault>
    ensures { result ≡ power_of a b }
{
    if b < 0 {
        return Err(NumFault::Number);
    }
    let exponent = small_exponent(b as u64);
    a.checked_pow(exponent).ok_or(NumFault::Number)
}

// An exponent with which every base has the same power, or none that fits. Above 64 only the parity counts: it decides
// the powers of -1, 0 and 1, and those of every other base leave i64.
#[tactic(auto, using(crate::proofs::Powers::far_power))]
fn small_exponent(exponent: u64) -> u32
    ensures small { result ≤ 65 }
    ensures same { (a : ℤ) → within_i64 (int_pow a result) ≡ within_i64 (int_pow a exponent) }
{
    if exponent <= 64 {
        exponent as u32
    } else {
        (64 + exponent % 2) as u32
    }
}
