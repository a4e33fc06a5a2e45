//! Weights that are raised in sweeps, where some sums take something off.

ghost use Rattle.std.specs.Prelude.{◌≡◌, IfOk, length, replicate, true};
ghost use Rattle.gw_least_weights.specs.Least.{InRange, IsLeast};
ghost use Rattle.gw_least_weights.specs.Rounds.{AreInOrder, AreUnder, IsRaised};

use crate::causes::Causes;
use crate::circles::shows_none;
use crate::order::{Course, Scope, course_of};
use crate::rounds::{raise_by, raise_in_round};
use crate::rules::Rule;
use std::alloc::{AllocError, Global};

/// How many rules have a sum that takes something off.
fn count_lowering(rules: &[Rule]) -> usize {
    rules
        .iter()
        .filter(|rule| rule.first.less > 0 || rule.second.less > 0)
        .count()
}

/// Raises a weight to what the rule of a number asks, notes that, and tells whether it was below.
fn raise_noting(
    weights: &mut [u32],
    rules: &[Rule],
    number: usize,
    counted: usize,
    causes: &mut Causes,
) -> bool
    requires order { AreInOrder rules.now counted (length weights.old) }
    ensures raised { IsRaised rules.now weights.old weights.new }
{
    let raised = raise_by(weights, rules, number, counted);
    if raised {
        causes.note(weights, rules, number);
    }
    raised
}

/// Raises weights to what the rules of these numbers ask, one after the other, notes that, and tells whether one was raised.
fn sweep(
    weights: &mut [u32],
    rules: &[Rule],
    numbers: &[usize],
    counted: usize,
    causes: &mut Causes,
) -> bool
    requires order { AreInOrder rules.now counted (length weights.old) }
    ensures raised { IsRaised rules.now weights.old weights.new }
{
    let mut raised = false;
    for i in 0..numbers.len() {
        raised |= raise_noting(weights, rules, numbers[i], counted, causes);
    }
    raised
}

/// Raises weights in so many sweeps at most along the rules of these numbers, and tells whether they are the least then.
fn settle_along(
    alloc: Global,
    weights: &mut [u32],
    rules: &[Rule],
    numbers: &[usize],
    counted: usize,
) -> Result<bool, AllocError>
    requires order { AreInOrder rules.now counted (length weights.old) }
    requires under { AreUnder rules.now (length weights.old) weights.old }
    ensures least { IfOk result (λ are. are ≡ true → IsLeast rules.now (length weights.old) weights.new) }
    ensures many { length weights.new ≡ length weights.old }
    ensures range { InRange weights.new }
{
    let mut causes = Causes::none(alloc, weights.len())?;
    for _ in 0..count_lowering(rules).saturating_add(2) {
        if !sweep(weights, rules, numbers, counted, &mut causes) {
            return Ok(!raise_in_round(weights, rules, counted));
        }
        if causes.show_none(alloc, weights, rules)? {
            return Ok(true);
        }
    }
    Ok(false)
}

/// Raises weights from the least on in sweeps, where some sums take something off, along an order of the rules by the other sums,
/// and tells whether they are the least then; so they are, too, where a circle shows that none keep the rules.
pub(crate) fn settles_by_sweeps(
    alloc: Global,
    weights: &mut [u32],
    rules: &[Rule],
    counted: usize,
) -> Result<bool, AllocError>
    requires order { AreInOrder rules.now counted (length weights.old) }
    requires ones { weights.old ≡ replicate (length weights.old) 1 }
    ensures least { IfOk result (λ are. are ≡ true → IsLeast rules.now (length weights.old) weights.new) }
    ensures many { length weights.new ≡ length weights.old }
    ensures range { InRange weights.new }
{
    if count_lowering(rules) == 0 {
        return Ok(false);
    }
    match course_of(alloc, rules, Scope::Whole, weights.len())? {
        Course::Circle(circle) => Ok(shows_none(weights, rules, &circle)),
        Course::Order(numbers) => settle_along(alloc, weights, rules, &numbers, counted),
    }
}
