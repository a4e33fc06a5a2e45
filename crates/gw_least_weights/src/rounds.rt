//! Weights that are raised to what rules ask: rule by rule, and in rounds.

ghost use Rattle.std.specs.Prelude.{◌≡◌, ◌<◌, length, false, true, replicate};
ghost use Rattle.gw_least_weights.specs.Rules.{is_below, raised_at};
ghost use Rattle.gw_least_weights.specs.Least.{InRange, IsLeast};
ghost use Rattle.gw_least_weights.specs.Rounds.{IsRaisedFor, IsRaised, IsRound, AreInOrder};

use crate::rules::{Rule, need_of};
use gw_object::GREATEST_WEIGHT;

/// Raises the weight at a place to what is needed there, or to the greatest weight, and tells whether it was below that.
fn raise(weights: &mut [u32], place: usize, needed: u64) -> bool
    ensures weights { weights.new ≡ raised_at weights.old place needed }
    ensures rose { result ≡ is_below weights.old place needed }
{
    let least = needed.min(GREATEST_WEIGHT as u64) as u32;
    if place < weights.len() && weights[place] < least {
        weights[place] = least;
        return true;
    }
    false
}

/// Raises a weight to what a rule asks, and tells whether it was below that.
fn raise_for(weights: &mut [u32], rule: &Rule) -> bool
    requires within { rule.now.at < length weights.old }
    ensures raised { IsRaisedFor rule.now weights.old weights.new }
    ensures still { result ≡ false → weights.new ≡ weights.old }
{
    let needed = need_of(weights, rule);
    raise(weights, rule.at, needed)
}

/// Raises each weight once to what the rules ask, one after the other, and tells whether one was raised.
pub(crate) fn raise_in_round(weights: &mut [u32], rules: &[Rule], counted: usize) -> bool
    requires order { AreInOrder rules.now counted (length weights.old) }
    ensures round { IsRound rules.now counted weights.old weights.new }
    ensures still { result ≡ false → weights.new ≡ weights.old }
{
    let mut raised = false;
    for i in 0..rules.len() {
        raised |= raise_for(weights, &rules[i]);
    }
    raised
}

/// Raises weights in rounds, from the least on, until none is raised, or for as many rounds as there are counted places, and
/// one more.
pub(crate) fn raise_in_rounds(weights: &mut [u32], rules: &[Rule], counted: usize)
    requires order { AreInOrder rules.now counted (length weights.old) }
    requires ones { weights.old ≡ replicate (length weights.old) 1 }
    requires few { counted < 65536 }
    ensures least { IsLeast rules.now (length weights.old) weights.new }
    ensures many { length weights.new ≡ length weights.old }
    ensures range { InRange weights.new }
{
    for _ in 0..counted + 1 {
        if !raise_in_round(weights, rules, counted) {
            return;
        }
    }
}

/// Raises a weight to what the rule of a number asks, and tells whether it was below that; where there is none, it is passed
/// over.
pub(crate) fn raise_by(weights: &mut [u32], rules: &[Rule], number: usize, counted: usize) -> bool
    requires order { AreInOrder rules.now counted (length weights.old) }
    ensures raised { IsRaised rules.now weights.old weights.new }
{
    number < rules.len() && raise_for(weights, &rules[number])
}

/// Raises weights to what the rules of these numbers ask, one after the other.
fn raise_along(weights: &mut [u32], rules: &[Rule], numbers: &[usize], counted: usize)
    requires order { AreInOrder rules.now counted (length weights.old) }
    ensures raised { IsRaised rules.now weights.old weights.new }
{
    for i in 0..numbers.len() {
        raise_by(weights, rules, numbers[i], counted);
    }
}

/// Raises weights, from the least on, by one pass over the rules of these numbers, and tells whether nothing is left to be
/// raised. Which rules these are, and in what order, changes nothing of what is promised.
pub(crate) fn settles_along(
    weights: &mut [u32],
    rules: &[Rule],
    numbers: &[usize],
    counted: usize,
) -> bool
    requires order { AreInOrder rules.now counted (length weights.old) }
    requires ones { weights.old ≡ replicate (length weights.old) 1 }
    ensures least { result ≡ true → IsLeast rules.now (length weights.old) weights.new }
    ensures many { length weights.new ≡ length weights.old }
    ensures range { InRange weights.new }
{
    raise_along(weights, rules, numbers, counted);
    !raise_in_round(weights, rules, counted)
}
