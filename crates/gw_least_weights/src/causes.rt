//! What raised weights last, and circles of that.

ghost use Rattle.std.specs.Prelude.{◌≡◌, IfOk, true};
ghost use Rattle.gw_least_weights.specs.Circles.{KeepNone};

use crate::circles::{Link, shows_none};
use crate::rules::{Rule, Sum, of_sum, weight_at};
use std::alloc::{AllocError, Global};

/// For each place the sum that raised its weight last, and when.
#[derive(Drop)]
pub(crate) struct Causes {
    /// The sums.
    links: Vec<Link>,
    /// In which turn that was; 0 where it wasn't raised.
    turns: Vec<usize>,
    /// Which turn it is.
    turn: usize,
}

impl Causes {
    /// Nothing was raised yet at so many places.
    pub(crate) fn none(alloc: Global, count: usize) -> Result<Causes, AllocError> {
        Ok(Causes {
            links: vec![in alloc; Link::none(); count]?,
            turns: vec![in alloc; 0; count]?,
            turn: 0,
        })
    }

    /// When the weight at a place was raised last.
    fn turn_at(&self, place: usize) -> usize {
        self.turns.get(place).copied().unwrap_or(0)
    }

    /// Notes that the rule of this number has raised the weight at its place to what it is now.
    pub(crate) fn note(&mut self, weights: &[u32], rules: &[Rule], number: usize) {
        let Some(rule) = rules.get(number) else {
            return;
        };
        let link = if of_sum(weights, rule.first) >= weight_at(weights, rule.at) as u64 {
            Link::first(number)
        } else {
            Link::second(number)
        };
        self.turn = self.turn.saturating_add(1);
        if let Some(at) = self.links.get_mut(rule.at) {
            *at = link;
        }
        if let Some(at) = self.turns.get_mut(rule.at) {
            *at = self.turn;
        }
    }

    /// The place that a sum counts whose weight was raised last, if it counts one.
    fn source(&self, sum: Sum) -> Option<usize> {
        let Sum { first, second, .. } = sum;
        match (first.times > 0, second.times > 0) {
            (true, true) if self.turn_at(first.place) < self.turn_at(second.place) => {
                Some(second.place)
            }
            (true, _) => Some(first.place),
            (false, true) => Some(second.place),
            (false, false) => None,
        }
    }

    /// The place whose weight raised that at a place, if it was raised.
    fn before(&self, rules: &[Rule], place: usize) -> Option<usize> {
        if self.turn_at(place) == 0 {
            return None;
        }
        let link = self.links.get(place).copied()?;
        self.source(link.sum(rules))
    }

    /// The sums that raised weights one after the other round a circle, from a place on: each counts the place of the one before
    /// it.
    fn circle(&self, alloc: Global, rules: &[Rule], start: usize) -> Result<Vec<Link>, AllocError> {
        let mut links = Vec::new(alloc);
        let mut place = start;
        for _ in 0..self.links.len() {
            links.push(self.links.get(place).copied().unwrap_or(Link::none()))?;
            place = self.before(rules, place).unwrap_or(start);
            if place == start {
                break;
            }
        }
        links.reverse();
        Ok(links)
    }

    /// The place at which a walk from a place back along causes comes to one of its own places again, if it does so before it
    /// comes to one of an earlier walk. Each walk has a number of its own, from 1, and notes it at its places.
    fn closing(
        &self,
        rules: &[Rule],
        walks: &mut [usize],
        walk: usize,
        start: usize,
    ) -> Option<usize> {
        let mut place = start;
        for _ in 0..self.links.len() + 1 {
            let seen = walks.get_mut(place)?;
            if *seen != 0 {
                return (*seen == walk).then_some(place);
            }
            *seen = walk;
            place = self.before(rules, place)?;
        }
        None
    }

    /// Whether a circle of what raised weights shows that no weights keep the rules which are at least these.
    pub(crate) fn show_none(
        &self,
        alloc: Global,
        weights: &[u32],
        rules: &[Rule],
    ) -> Result<bool, AllocError>
        ensures { IfOk result (λ shows. shows ≡ true → KeepNone rules.now weights.now) }
    {
        let mut walks = vec![in alloc; 0; self.links.len()]?;
        for start in 0..self.links.len() {
            if let Some(place) = self.closing(rules, &mut walks, start + 1, start) {
                let circle = self.circle(alloc, rules, place)?;
                if shows_none(weights, rules, &circle) {
                    return Ok(true);
                }
            }
        }
        Ok(false)
    }
}
