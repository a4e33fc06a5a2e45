//! Differences of values by pairs.

ghost use Rattle.std.specs.Prelude.{◌≡◌, ◌≤◌, ◌-ℤ◌, IfOk, length};
ghost use Rattle.gw_statistics.specs.Pairs as model;

use std::alloc::{AllocError, Global};

/// What a value is more than another, if neither is too great.
fn between(first: &i128, second: &i128) -> Option<i128>
    ensures { result ≡ model.between first.now second.now }
{
    if first.unsigned_abs() <= 1 << 100 && second.unsigned_abs() <= 1 << 100 {
        Some(*second - *first)
    } else {
        None
    }
}

/// What the second of two values is more than the first, if both are there, and neither lies further from 0 than 2^100.
fn difference(first: &Option<i128>, second: &Option<i128>) -> Option<i128>
    ensures { result ≡ model.difference first.now second.now }
{
    match (first, second) {
        (Some(first), Some(second)) => between(first, second),
        _ => None,
    }
}

/// The differences of two columns of values, pair by pair: value r of the second less value r of the first, where both are there
/// and neither lies further from 0 than 2^100.
#[tactic(auto, unfolding(crate::specs::Pairs::differences))]
pub fn differences(
    alloc: Global,
    first: &[Option<i128>],
    second: &[Option<i128>],
) -> Result<Vec<i128>, AllocError>
    ensures differences { IfOk result (λ found. found.items ≡ model.differences first.now second.now) }
    ensures few { IfOk result (λ found. length found.items ≤ length first.now) }
{
    let mut found = Vec::new(alloc);
    for r in 0..first.len().min(second.len()) {
        if let Some(value) = difference(&first[r], &second[r]) {
            found.push(value)?;
        }
    }
    Ok(found)
}
