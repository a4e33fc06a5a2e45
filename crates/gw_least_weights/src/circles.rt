//! Circles of rules that no weights keep: along one of them a weight would have to be more than itself.

ghost use Rattle.std.specs.Prelude.{◌≡◌, ◌≤◌, ℕ, List, IfSome, All, true};
ghost use Rattle.gw_least_weights.specs.Rules.{weight_at, of_sum, Keeps};
ghost use Rattle.gw_least_weights.specs.Circles.{CarriesOn, IsBorne, KeepNone, Leaves};

use crate::rules::{Rule, Sum, Term, nothing, of_term};

/// A sum of a rule.
#[derive(Clone, Copy, PartialEq, Eq)]
pub(crate) struct Link {
    /// The number of the rule, from 0.
    rule: usize,
    /// Whether it is the rule's second sum.
    is_second: bool,
}

impl Link {
    /// The first sum of the rule of a number.
    pub(crate) fn first(rule: usize) -> Link {
        Link {
            rule,
            is_second: false,
        }
    }

    /// The second one.
    pub(crate) fn second(rule: usize) -> Link {
        Link {
            rule,
            is_second: true,
        }
    }

    /// A sum of no rule.
    pub(crate) fn none() -> Link {
        Link::first(usize::MAX)
    }

    /// The place of its rule; one that isn't there, where there is no such rule.
    pub(crate) fn place(self, rules: &[Rule]) -> usize {
        match rules.get(self.rule) {
            Some(rule) => rule.at,
            None => usize::MAX,
        }
    }

    /// The sum; nothing, where there is no such rule.
    pub(crate) fn sum(self, rules: &[Rule]) -> Sum {
        match rules.get(self.rule) {
            Some(rule) => self.part(rule),
            None => nothing(),
        }
    }

    /// The sum, of its rule.
    fn part(self, rule: &Rule) -> Sum
        ensures { (u : List ℕ) → Keeps u rule.now → of_sum u result ≤ weight_at u rule.now.at }
    {
        if self.is_second {
            rule.second
        } else {
            rule.first
        }
    }
}

/// How far a walk along sums has come: the weight at its place and what was taken off are together at least the weight at its
/// start and what was added.
#[derive(Clone, Copy, PartialEq, Eq)]
struct Walk {
    /// The place that it has come to, from 0.
    place: usize,
    /// How much was added on the way.
    added: u64,
    /// How much was taken off.
    taken: u64,
}

/// The term of a sum beside one that counts a place, if there is one that does.
fn beside(sum: Sum, place: usize) -> Option<Term>
    ensures { IfSome result (Leaves sum place) }
{
    if sum.first.times > 0 && sum.first.place == place {
        return Some(sum.second);
    }
    if sum.second.times > 0 && sum.second.place == place {
        return Some(sum.first);
    }
    None
}

/// A walk that goes on by a sum to the place of its rule, where the sum counts the place that it has come to.
fn step(weights: &[u32], walk: Walk, sum: Sum, to: usize) -> Option<Walk>
    ensures { IfSome result (CarriesOn (λ u. of_sum u sum ≤ weight_at u to) weights.now walk) }
{
    let other = beside(sum, walk.place)?;
    let more = sum.own as u64 + of_term(weights, other);
    let added = walk.added.checked_add(more)?;
    let taken = walk.taken.checked_add(sum.less as u64)?;
    Some(Walk {
        place: to,
        added,
        taken,
    })
}

/// A walk that goes on by the sum of a link.
fn go_on(weights: &[u32], rules: &[Rule], walk: Walk, link: Link) -> Option<Walk>
    ensures { IfSome result (CarriesOn (λ u. All (Keeps u) rules.now) weights.now walk) }
{
    let rule = rules.get(link.rule)?;
    step(weights, walk, link.part(rule), rule.at)
}

/// Where a walk from a place along these sums comes to, if each counts the place of the one before it.
fn walk_along(weights: &[u32], rules: &[Rule], start: usize, links: &[Link]) -> Option<Walk>
    ensures { IfSome result (IsBorne rules.now weights.now start) }
{
    let mut walk = Walk {
        place: start,
        added: 0,
        taken: 0,
    };
    for i in 0..links.len() {
        walk = go_on(weights, rules, walk, links[i])?;
    }
    Some(walk)
}

/// Whether these sums show that no weights keep the rules which are at least these: they go round in a circle, and add more
/// than they take off.
pub(crate) fn shows_none(weights: &[u32], rules: &[Rule], links: &[Link]) -> bool
    ensures { result ≡ true → KeepNone rules.now weights.now }
{
    let Some(last) = links.last() else {
        return false;
    };
    let start = last.place(rules);
    match walk_along(weights, rules, start, links) {
        Some(walk) => walk.place == start && walk.taken < walk.added,
        None => false,
    }
}
