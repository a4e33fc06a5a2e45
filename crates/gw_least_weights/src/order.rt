//! An order of rules, in which each comes behind those at the places that it counts, or a circle of rules.

use crate::circles::Link;
use crate::rules::{Rule, Sum, Term};
use std::alloc::{AllocError, Global};

/// Which sums a search looks at.
#[derive(Clone, Copy, PartialEq, Eq)]
pub(crate) enum Scope {
    /// All.
    All,
    /// Those that take nothing off.
    Whole,
}

impl Scope {
    /// Whether it has a sum.
    fn has(self, sum: Sum) -> bool {
        match self {
            Scope::All => true,
            Scope::Whole => sum.less == 0,
        }
    }
}

/// What a search along what rules count comes to.
#[derive(Drop)]
pub(crate) enum Course {
    /// The numbers of the rules, each behind those of all rules at the places that it counts.
    Order(Vec<usize>),
    /// Sums of rules that count one another in a circle: each counts the place of the one before it, and the first that of the
    /// last one.
    Circle(Vec<Link>),
}

/// How far a search has come with a place.
#[derive(Clone, Copy, PartialEq, Eq)]
enum Stage {
    /// It wasn't come to.
    Before,
    /// What its rules count is looked at first.
    Within,
    /// It comes behind all that its rules count.
    Behind,
}

/// Where the rules at each place are found.
#[derive(Drop)]
struct Places {
    /// For each place the number of the first rule there, or of none.
    first: Vec<usize>,
    /// For each rule the number of the next one at its place, or of none.
    next: Vec<usize>,
}

impl Places {
    /// Those of rules at so many places.
    fn of(alloc: Global, rules: &[Rule], count: usize) -> Result<Places, AllocError> {
        let none = rules.len();
        let mut first = vec![in alloc; none; count]?;
        let mut next = Vec::with_capacity(alloc, rules.len())?;
        for i in 0..rules.len() {
            let at = rules[i].at;
            next.push(first.get(at).copied().unwrap_or(none))?;
            if let Some(head) = first.get_mut(at) {
                *head = i;
            }
        }
        Ok(Places { first, next })
    }

    /// The number of the first rule at a place; one that no rule has, where there is none.
    fn first_at(&self, place: usize) -> usize {
        self.first.get(place).copied().unwrap_or(usize::MAX)
    }

    /// The number of the next rule at the place of this one; one that no rule has, where there is none.
    fn next_behind(&self, number: usize) -> usize {
        self.next.get(number).copied().unwrap_or(usize::MAX)
    }
}

/// A search along what rules count.
#[derive(Drop)]
struct Search {
    /// The places that are still to be looked at; the next one is the last.
    pending: Vec<usize>,
    /// How far it has come with each place.
    stages: Vec<Stage>,
    /// For each place the sum that came to it last.
    entered: Vec<Link>,
    /// The numbers of the rules at the places that it has left behind, in order.
    order: Vec<usize>,
    /// The sum that closed a circle, and the place that it counts.
    closing: Option<(Link, usize)>,
}

impl Search {
    /// The search that looks at so many places, from the first on.
    fn over(alloc: Global, count: usize) -> Result<Search, AllocError> {
        let mut pending = Vec::with_capacity(alloc, count)?;
        for i in 0..count {
            pending.push(count - 1 - i)?;
        }
        Ok(Search {
            pending,
            stages: vec![in alloc; Stage::Before; count]?,
            entered: vec![in alloc; Link::none(); count]?,
            order: Vec::new(alloc),
            closing: None,
        })
    }

    /// How far it has come with a place; one that isn't there is behind it.
    fn stage(&self, place: usize) -> Stage {
        self.stages.get(place).copied().unwrap_or(Stage::Behind)
    }

    /// Notes how far it has come with a place.
    fn note(&mut self, place: usize, stage: Stage) {
        if let Some(at) = self.stages.get_mut(place) {
            *at = stage;
        }
    }

    /// Comes to the place of a term of a sum, if that counts: it is looked at next, if it wasn't yet.
    fn come_to(&mut self, term: Term, link: Link) -> Result<(), AllocError> {
        if term.times == 0 {
            return Ok(());
        }
        match self.stage(term.place) {
            Stage::Before => {
                if let Some(at) = self.entered.get_mut(term.place) {
                    *at = link;
                }
                self.pending.push(term.place)?;
            }
            Stage::Within => self.closing = Some((link, term.place)),
            Stage::Behind => {}
        }
        Ok(())
    }

    /// Comes to the places of a sum, if it is looked at.
    fn come_to_both(&mut self, scope: Scope, sum: Sum, link: Link) -> Result<(), AllocError> {
        if !scope.has(sum) {
            return Ok(());
        }
        self.come_to(sum.first, link)?;
        self.come_to(sum.second, link)
    }

    /// Comes to all places that the rules at a place count.
    fn look_behind(
        &mut self,
        rules: &[Rule],
        places: &Places,
        scope: Scope,
        place: usize,
    ) -> Result<(), AllocError> {
        let mut number = places.first_at(place);
        for _ in 0..rules.len() {
            let Some(rule) = rules.get(number) else {
                return Ok(());
            };
            self.come_to_both(scope, rule.first, Link::first(number))?;
            self.come_to_both(scope, rule.second, Link::second(number))?;
            number = places.next_behind(number);
        }
        Ok(())
    }

    /// Leaves a place behind: its rules are the next ones in the order.
    fn leave(&mut self, count: usize, places: &Places, place: usize) -> Result<(), AllocError> {
        let mut number = places.first_at(place);
        for _ in 0..count {
            if number >= count {
                return Ok(());
            }
            self.order.push(number)?;
            number = places.next_behind(number);
        }
        Ok(())
    }

    /// Goes on at a place: to those that its rules count, if it wasn't come to; else back, and leaves it behind, if these were
    /// looked at just now.
    fn go_on(
        &mut self,
        rules: &[Rule],
        places: &Places,
        scope: Scope,
        place: usize,
    ) -> Result<(), AllocError> {
        match self.stage(place) {
            Stage::Before => {
                self.note(place, Stage::Within);
                return self.look_behind(rules, places, scope, place);
            }
            Stage::Within => {
                self.note(place, Stage::Behind);
                self.leave(rules.len(), places, place)?;
            }
            Stage::Behind => {}
        }
        self.pending.pop();
        Ok(())
    }

    /// Goes on until nothing is left to be looked at, or until rules are found that count one another in a circle.
    fn go_through(
        &mut self,
        rules: &[Rule],
        places: &Places,
        scope: Scope,
    ) -> Result<(), AllocError> {
        for _ in 0..usize::MAX {
            let Some(place) = self.pending.last().copied() else {
                return Ok(());
            };
            self.go_on(rules, places, scope, place)?;
            if self.closing.is_some() {
                return Ok(());
            }
        }
        Ok(())
    }

    /// The circle that a sum closed which counts this place: that sum, the one that came to its place, and so on, until one
    /// stands at the place.
    fn circle(
        &self,
        alloc: Global,
        rules: &[Rule],
        closing: Link,
        place: usize,
    ) -> Result<Vec<Link>, AllocError> {
        let mut links = Vec::new(alloc);
        let mut link = closing;
        for _ in 0..rules.len() {
            links.push(link)?;
            let at = link.place(rules);
            if at == place {
                return Ok(links);
            }
            link = self.entered.get(at).copied().unwrap_or(closing);
        }
        Ok(links)
    }
}

/// The order of rules by the sums of a scope, or a circle of such sums. It takes as long as there are rules and places. Nothing
/// rests on it but the time that raising takes.
pub(crate) fn course_of(
    alloc: Global,
    rules: &[Rule],
    scope: Scope,
    count: usize,
) -> Result<Course, AllocError> {
    let places = Places::of(alloc, rules, count)?;
    let mut search = Search::over(alloc, count)?;
    search.go_through(rules, &places, scope)?;
    match search.closing {
        Some((closing, place)) => {
            let circle = search.circle(alloc, rules, closing, place)?;
            Ok(Course::Circle(circle))
        }
        None => {
            let Search { order, .. } = search;
            Ok(Course::Order(order))
        }
    }
}
