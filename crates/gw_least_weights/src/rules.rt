//! Rules of weights, and what they ask for.

ghost use Rattle.std.specs.Prelude.{◌≡◌};
ghost use Rattle.gw_least_weights.specs.Rules as model;

/// So many times the weight at a place; none counts nothing.
#[derive(Clone, Copy, PartialEq, Eq)]
pub struct Term {
    /// How many times it counts.
    pub times: u16,
    /// The place, from 0; where there is none, the weight is 0.
    pub place: usize,
}

/// A number and two terms together, less another number; 0 where that is greater.
#[derive(Clone, Copy, PartialEq, Eq)]
pub struct Sum {
    /// The number.
    pub own: u32,
    /// One of the terms.
    pub first: Term,
    /// The other one.
    pub second: Term,
    /// How much less it is.
    pub less: u32,
}

/// A rule: the weight at a place is at least each of two sums.
#[derive(Clone, Copy, PartialEq, Eq)]
pub struct Rule {
    /// When it has its turn in a round: before those with a greater number.
    pub turn: usize,
    /// The place, from 0.
    pub at: usize,
    /// One of the sums.
    pub first: Sum,
    /// The other one.
    pub second: Sum,
}

/// The sum that asks for nothing.
pub fn nothing() -> Sum
    ensures { result ≡ model.nothing }
{
    let none = Term { times: 0, place: 0 };
    Sum {
        own: 0,
        first: none,
        second: none,
        less: 0,
    }
}

/// The sum that is the weight at a place.
pub fn once(place: usize) -> Sum
    ensures { result ≡ model.once place }
{
    Sum {
        first: Term { times: 1, place },
        ..nothing()
    }
}

/// The weight at a place; 0 where there is none.
pub(crate) fn weight_at(weights: &[u32], place: usize) -> u32
    ensures { result ≡ model.weight_at weights.now place }
{
    weights.get(place).copied().unwrap_or(0)
}

/// So many times the weight at a place.
pub(crate) fn of_term(weights: &[u32], term: Term) -> u64
    ensures { result ≡ model.of_term weights.now term }
{
    term.times as u64 * weight_at(weights, term.place) as u64
}

/// A sum by these weights.
pub(crate) fn of_sum(weights: &[u32], sum: Sum) -> u64
    ensures { result ≡ model.of_sum weights.now sum }
{
    let whole = sum.own as u64 + of_term(weights, sum.first) + of_term(weights, sum.second);
    whole.saturating_sub(sum.less as u64)
}

/// What a rule asks for by these weights.
pub(crate) fn need_of(weights: &[u32], rule: &Rule) -> u64
    ensures { result ≡ model.need_of weights.now rule.now }
{
    of_sum(weights, rule.first).max(of_sum(weights, rule.second))
}
