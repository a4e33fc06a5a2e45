//! The least weights that keep rules.

ghost use Rattle.std.specs.Prelude.{◌≡◌, ◌<◌, IfOk, IfSome, length, replicate};
ghost use Rattle.gw_least_weights.specs.Least.{InRange, IsLeast, IsSystem};
ghost use Rattle.gw_least_weights.specs.Rounds.{AreInOrder};

use crate::order::{Course, Scope, course_of};
use crate::rounds::{raise_in_rounds, settles_along};
use crate::rules::Rule;
use crate::sweeps::settles_by_sweeps;
use std::alloc::{AllocError, Global};

/// The least weight at each of so many places.
fn ones(alloc: Global, count: usize) -> Result<Vec<u32>, AllocError>
    ensures { IfOk result (λ v. v.items ≡ replicate count 1) }
{
    Ok(vec![in alloc; 1; count]?)
}

/// The least weights by one pass over the rules, where these have an order in which each comes behind those that it counts,
/// and a round finds nothing left to be raised.
fn by_one_pass(
    alloc: Global,
    rules: &[Rule],
    counted: usize,
    count: usize,
) -> Result<Option<Vec<u32>>, AllocError>
    requires order { AreInOrder rules.now counted count }
    ensures least { IfOk result (λ found. IfSome found (λ v. IsLeast rules.now count v.items)) }
    ensures many { IfOk result (λ found. IfSome found (λ v. length v.items ≡ count)) }
    ensures range { IfOk result (λ found. IfSome found (λ v. InRange v.items)) }
{
    let Course::Order(numbers) = course_of(alloc, rules, Scope::All, count)? else {
        return Ok(None);
    };
    let mut weights = ones(alloc, count)?;
    if settles_along(&mut weights, rules, &numbers, counted) {
        return Ok(Some(weights));
    }
    Ok(None)
}

/// The least weights by sweeps, where some sums take something off, and sweeps suffice.
fn by_sweeps(
    alloc: Global,
    rules: &[Rule],
    counted: usize,
    count: usize,
) -> Result<Option<Vec<u32>>, AllocError>
    requires order { AreInOrder rules.now counted count }
    ensures least { IfOk result (λ found. IfSome found (λ v. IsLeast rules.now count v.items)) }
    ensures many { IfOk result (λ found. IfSome found (λ v. length v.items ≡ count)) }
    ensures range { IfOk result (λ found. IfSome found (λ v. InRange v.items)) }
{
    let mut weights = ones(alloc, count)?;
    if settles_by_sweeps(alloc, &mut weights, rules, counted)? {
        return Ok(Some(weights));
    }
    Ok(None)
}

/// The least weights by rounds, from the least on.
fn by_rounds(
    alloc: Global,
    rules: &[Rule],
    counted: usize,
    count: usize,
) -> Result<Vec<u32>, AllocError>
    requires order { AreInOrder rules.now counted count }
    requires few { counted < 65536 }
    ensures least { IfOk result (λ v. IsLeast rules.now count v.items) }
    ensures many { IfOk result (λ v. length v.items ≡ count) }
    ensures range { IfOk result (λ v. InRange v.items) }
{
    let mut weights = ones(alloc, count)?;
    raise_in_rounds(&mut weights, rules, counted);
    Ok(weights)
}

/// The least weights in a circle of rules: by sweeps, or by rounds.
fn in_circles(
    alloc: Global,
    rules: &[Rule],
    counted: usize,
    count: usize,
) -> Result<Vec<u32>, AllocError>
    requires order { AreInOrder rules.now counted count }
    requires few { counted < 65536 }
    ensures least { IfOk result (λ v. IsLeast rules.now count v.items) }
    ensures many { IfOk result (λ v. length v.items ≡ count) }
    ensures range { IfOk result (λ v. InRange v.items) }
{
    match by_sweeps(alloc, rules, counted, count)? {
        Some(weights) => Ok(weights),
        None => by_rounds(alloc, rules, counted, count),
    }
}

/// The least weights that keep these rules in the order of a round.
fn least_in_order(
    alloc: Global,
    rules: &[Rule],
    counted: usize,
    count: usize,
) -> Result<Vec<u32>, AllocError>
    requires order { AreInOrder rules.now counted count }
    requires few { counted < 65536 }
    ensures least { IfOk result (λ v. IsLeast rules.now count v.items) }
    ensures many { IfOk result (λ v. length v.items ≡ count) }
    ensures range { IfOk result (λ v. InRange v.items) }
{
    match by_one_pass(alloc, rules, counted, count)? {
        Some(weights) => Ok(weights),
        None => in_circles(alloc, rules, counted, count),
    }
}

/// The least weights at so many places that keep these rules, where any do, each from 1 to 1,000,000,000. They are raised from
/// 1 in one pass, where the rules have an order for it; else, where some take something off, in sweeps along an order of the
/// others, unless a circle shows that no weights keep them; else in rounds, in each of them for the rules one after the other by
/// their turns, until nothing is raised, or for as many rounds as there are counted places, and one more. The places are
/// counted, but for the last ones, whose rules only gather the greatest weight of counted ones, behind whose turns they come
/// (ours: docs/weights.md). For want of memory there are none.
pub fn least_weights(
    alloc: Global,
    rules: Vec<Rule>,
    counted: usize,
    count: usize,
) -> Result<Vec<u32>, AllocError>
    requires system { IsSystem rules.items counted count }
    requires few { counted < 65536 }
    ensures least { IfOk result (λ v. IsLeast rules.items count v.items) }
    ensures many { IfOk result (λ v. length v.items ≡ count) }
    ensures range { IfOk result (λ v. InRange v.items) }
{
    let mut rules = rules;
    rules.sort_unstable_by_key(|rule| rule.turn);
    least_in_order(alloc, &rules, counted, count)
}
