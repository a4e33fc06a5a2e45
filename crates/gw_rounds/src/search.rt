//! The search for a round that has no weight certificate.

ghost use Rattle.std.specs.Prelude.{◌≡◌, IfOk, IfSome, true};
ghost use Rattle.gw_rounds.specs.Rounds as model;

use crate::causes::{Cause, Hindrance};
use crate::counting::{
    Marks, counter_at, counting_blocks, ends_counting, is_counted_by, jump_of, treatment_on,
};
use crate::graph::{Graph, Passage, Step, block_at, block_with_row};
use crate::paths::{Field, Without};
use crate::rounds::is_round;
use gw_object::{Block, MOST_PARAMETERS, Memory, Parts, Place};
use gw_rules::Treatment;
use std::alloc::Global;

/// A round of blocks on which no time passes, and why it has no weight certificate.
#[derive(Drop)]
pub struct Finding {
    /// The numbers of its blocks, from 1, in the order in which they are entered, the lowest first.
    pub round: Vec<u16>,
    /// Why it has no certificate.
    pub cause: Cause,
}

/// A LOOP whose jump is on a round.
#[derive(Drop)]
struct Counter {
    /// Its block.
    number: u16,
    /// The parameter by which it counts.
    parameter: u8,
    /// The shortest round on which it jumps.
    round: Vec<u16>,
}

/// What keeps weights from counting rounds, and where the rounds are.
#[derive(Clone, Copy)]
struct Obstacle {
    /// What it is.
    hindrance: Hindrance,
    /// From where one comes to the rounds.
    start: u16,
}

/// A round as it begins at its lowest number.
fn from_lowest(alloc: Global, round: &[u16]) -> Result<Vec<u16>, Memory> {
    let mut lowest = 0;
    for i in 0..round.len() {
        if round.get(i) < round.get(lowest) {
            lowest = i;
        }
    }
    let mut turned = Vec::with_capacity(alloc, round.len())?;
    for i in lowest..round.len() {
        turned.push(round[i])?;
    }
    for i in 0..lowest.min(round.len()) {
        turned.push(round[i])?;
    }
    Ok(turned)
}

/// The marked block to which a SPLIT sends copies, if the rounds behind it are more than its parameter says.
fn copied_to(marks: &Marks, number: u16, block: &Block) -> Option<u16> {
    match block {
        Block::Split(split) if split.copies > 0 => {
            let next = number.saturating_add(1);
            let target = split.target.unwrap_or(next);
            if marks.has(target) && (split.copies > 1 || marks.has(next)) {
                Some(target)
            } else {
                None
            }
        }
        _ => None,
    }
}

impl<'a> Field<'a> {
    /// The first round on which nothing counts, from a place on.
    fn endless(&self, place: Place, order: &[u16]) -> Result<Option<Finding>, Memory> {
        let round = match self.round_at(place)? {
            Some(round) => Some(round),
            None => self.first_round(order, Without::Jumps)?,
        };
        Ok(round.map(|round| {
            let cause = self.cause_of(&round);
            Finding { round, cause }
        }))
    }

    /// The shortest round over an edge on which nothing counts, if a place is an edge on one.
    fn round_at(&self, place: Place) -> Result<Option<Vec<u16>>, Memory> {
        match place {
            Place::Edge(from, to) if self.leads(from, to, Without::Jumps) => {
                self.round_over(from, to, Without::Jumps)
            }
            _ => Ok(None),
        }
    }

    /// The shortest round over a step, if LOOPs count it in vain.
    fn in_vain_over(&self, step: Step) -> Result<Option<Finding>, Memory> {
        if !ends_counting(self.parts, step) {
            return Ok(None);
        }
        match self.round_over(step.from, step.to, Without::Nothing)? {
            Some(round) => match self.cause_among(&round) {
                Some(cause) => Ok(Some(Finding { round, cause })),
                None => Ok(None),
            },
            None => Ok(None),
        }
    }

    /// The same over the steps from a block.
    fn in_vain_from(&self, number: u16) -> Result<Option<Finding>, Memory> {
        for step in self.graph.steps_from(number) {
            let finding = self.in_vain_over(*step)?;
            if finding.is_some() {
                return Ok(finding);
            }
        }
        Ok(None)
    }

    /// The first round that LOOPs count in vain.
    fn in_vain(&self, order: &[u16]) -> Result<Option<Finding>, Memory> {
        for number in order {
            let finding = self.in_vain_from(*number)?;
            if finding.is_some() {
                return Ok(finding);
            }
        }
        Ok(None)
    }

    /// The first LOOP by a parameter among these blocks whose jump is on a round.
    fn counter(&self, order: &[u16], parameter: u8) -> Result<Option<Counter>, Memory> {
        for number in order {
            if counter_at(self.parts, *number) == Some(parameter) {
                let counter = self.counter_from(*number, parameter)?;
                if counter.is_some() {
                    return Ok(counter);
                }
            }
        }
        Ok(None)
    }

    /// A LOOP, if its jump is on a round.
    fn counter_from(&self, number: u16, parameter: u8) -> Result<Option<Counter>, Memory> {
        for step in self.graph.steps_from(number) {
            if jump_of(self.parts, *step).is_some() {
                let round = self.round_over(number, step.to, Without::Nothing)?;
                return Ok(round.map(|round| Counter {
                    number,
                    parameter,
                    round,
                }));
            }
        }
        Ok(None)
    }

    /// How a block keeps weights from counting rounds by a parameter at these blocks, if it does.
    fn obstacle_at(&self, marks: &Marks, number: u16, parameter: u8) -> Option<Obstacle> {
        let block = block_with_row(self.parts, number)?;
        if let Some(start) = copied_to(marks, number, block) {
            let hindrance = Hindrance::CopiesCome(number);
            return Some(Obstacle { hindrance, start });
        }
        match block {
            Block::Unlink(unlink) if marks.has(unlink.target) => Some(Obstacle {
                hindrance: Hindrance::MembersCome(number),
                start: unlink.target,
            }),
            _ => self.change_at(marks, number, parameter),
        }
    }

    /// The same of one that changes the parameter to what is no constant.
    fn change_at(&self, marks: &Marks, number: u16, parameter: u8) -> Option<Obstacle> {
        for step in self.graph.steps_from(number) {
            let is_changed = treatment_on(self.parts, *step, parameter) == Treatment::Changes;
            if is_changed && matches!(step.by, Passage::Exit(_)) && marks.has(step.to) {
                return Some(Obstacle {
                    hindrance: Hindrance::ChangedBefore(number),
                    start: step.to,
                });
            }
        }
        None
    }

    /// A round by a parameter behind an obstacle.
    fn behind(&self, obstacle: Obstacle, parameter: u8) -> Result<Option<Finding>, Memory> {
        let order = self.order_from(obstacle.start)?;
        let counter = self.counter(&order, parameter)?;
        Ok(counter.map(|counter| {
            let Counter { number, round, .. } = counter;
            let cause = Cause::Hindered {
                counter: number,
                parameter,
                by: obstacle.hindrance,
            };
            Finding { round, cause }
        }))
    }

    /// The first round by a parameter that some block keeps from being counted.
    fn kept_by(&self, order: &[u16], parameter: u8) -> Result<Option<Finding>, Memory> {
        let marks = counting_blocks(self.alloc, self.parts, self.graph, parameter)?;
        for number in order {
            if let Some(obstacle) = self.obstacle_at(&marks, *number, parameter) {
                let finding = self.behind(obstacle, parameter)?;
                if finding.is_some() {
                    return Ok(finding);
                }
            }
        }
        Ok(None)
    }

    /// The same by any parameter.
    fn kept(&self, order: &[u16]) -> Result<Option<Finding>, Memory> {
        for parameter in 1..MOST_PARAMETERS as u8 + 1 {
            if is_counted_by(self.parts, parameter) {
                let finding = self.kept_by(order, parameter)?;
                if finding.is_some() {
                    return Ok(finding);
                }
            }
        }
        Ok(None)
    }

    /// The constant to which a block sets a parameter, if it does, where weights have to count by that behind it.
    fn constant_at(&self, marks: &Marks, number: u16, parameter: u8) -> Option<i64> {
        for step in self.graph.steps_from(number) {
            if let Treatment::SetsTo(value) = treatment_on(self.parts, *step, parameter) {
                if marks.has(step.to) {
                    return Some(value);
                }
            }
        }
        None
    }

    /// The block that sets a parameter to the greatest constant; 0 where there is none.
    fn greatest_at(&self, order: &[u16], parameter: u8) -> Result<u16, Memory> {
        let marks = counting_blocks(self.alloc, self.parts, self.graph, parameter)?;
        let mut greatest = 0;
        let mut block = 0;
        for number in order {
            match self.constant_at(&marks, *number, parameter) {
                Some(value) if greatest < value => {
                    greatest = value;
                    block = *number;
                }
                _ => {}
            }
        }
        Ok(block)
    }

    /// What is said of a round that a LOOP counts, and no weights do.
    fn uncounted(&self, order: &[u16], counter: Counter) -> Result<Finding, Memory> {
        let Counter {
            number,
            parameter,
            round,
        } = counter;
        let by = match self.split_on(&round) {
            Some(split) => Hindrance::CopiesWithin(split),
            None => Hindrance::TooMany(self.greatest_at(order, parameter)?),
        };
        let cause = Cause::Hindered {
            counter: number,
            parameter,
            by,
        };
        Ok(Finding { round, cause })
    }

    /// The first parameter by which a LOOP counts a round, from one on.
    fn next_counter(&self, order: &[u16], first: u8) -> Result<Option<Counter>, Memory> {
        for parameter in first..MOST_PARAMETERS as u8 + 1 {
            if is_counted_by(self.parts, parameter) {
                let counter = self.counter(order, parameter)?;
                if counter.is_some() {
                    return Ok(counter);
                }
            }
        }
        Ok(None)
    }

    /// A parameter by which LOOPs count all rounds, with the first of them, if there is one.
    fn only_counter(&self, order: &[u16]) -> Result<Option<Counter>, Memory> {
        for parameter in 1..MOST_PARAMETERS as u8 + 1 {
            if is_counted_by(self.parts, parameter) {
                let others = self.first_round(order, Without::JumpsBy(parameter))?;
                if others.is_none() {
                    return self.counter(order, parameter);
                }
            }
        }
        Ok(None)
    }

    /// What is said of rounds that LOOPs count by several parameters.
    fn by_several(&self, order: &[u16]) -> Result<Option<Finding>, Memory> {
        let counter = self.next_counter(order, 1)?;
        match counter {
            Some(counter) => {
                let Counter {
                    number,
                    parameter,
                    round,
                } = counter;
                let other = self.next_counter(order, parameter.saturating_add(1))?;
                Ok(other.map(|other| Finding {
                    round,
                    cause: Cause::Hindered {
                        counter: number,
                        parameter,
                        by: Hindrance::OtherCounter(other.number, other.parameter),
                    },
                }))
            }
            None => Ok(None),
        }
    }

    /// A round that LOOPs count, where each of them could be counted by itself.
    fn counted(&self, order: &[u16]) -> Result<Option<Finding>, Memory> {
        match self.only_counter(order)? {
            Some(counter) => Ok(Some(self.uncounted(order, counter)?)),
            None => self.by_several(order),
        }
    }

    /// The first round among these blocks that can have no certificate by itself, from a place on.
    fn blocking(&self, place: Place, order: &[u16]) -> Result<Option<Finding>, Memory> {
        let endless = self.endless(place, order)?;
        if endless.is_some() {
            return Ok(endless);
        }
        let in_vain = self.in_vain(order)?;
        if in_vain.is_some() {
            return Ok(in_vain);
        }
        self.kept(order)
    }

    /// The first round without a certificate, from a place on: among the blocks to which one comes from there, then among all.
    fn finding(&self, place: Place) -> Result<Option<Finding>, Memory> {
        let start = self.start_at(place);
        let near = self.blocking(place, &self.order_from(start)?)?;
        if near.is_some() {
            return Ok(near);
        }
        let order = self.all_from(start)?;
        let far = self.blocking(place, &order)?;
        if far.is_some() {
            return Ok(far);
        }
        self.counted(&order)
    }

    /// Where a search begins for what is wrong at a place.
    fn start_at(&self, place: Place) -> u16 {
        match place {
            Place::Edge(_, to) => to,
            Place::Block(number) => match block_at(self.parts, number) {
                Some(Block::Unlink(unlink)) => unlink.target,
                _ => number,
            },
            _ => 0,
        }
    }
}

/// A finding as its round begins at the lowest number.
fn turned(alloc: Global, finding: Finding) -> Result<Finding, Memory> {
    let Finding { round, cause } = finding;
    let round = from_lowest(alloc, &round)?;
    Ok(Finding { round, cause })
}

/// A finding, if it is a round.
fn if_round(parts: &Parts, finding: Finding) -> Option<Finding>
    ensures { IfSome result (λ f. model.is_round parts.now f.round.items ≡ true) }
{
    if is_round(parts, &finding.round) {
        Some(finding)
    } else {
        None
    }
}

/// What the search finds, if it finds something.
fn found_in(field: Field<'_>, place: Place) -> Result<Option<Finding>, Memory> {
    match field.finding(place)? {
        Some(finding) => Ok(Some(turned(field.alloc, finding)?)),
        None => Ok(None),
    }
}

/// The same by the steps between the blocks of parts.
fn found(alloc: Global, parts: &Parts, place: Place) -> Result<Option<Finding>, Memory> {
    let graph = Graph::of(alloc, parts)?;
    let field = Field {
        alloc,
        parts,
        graph: &graph,
    };
    found_in(field, place)
}

/// A round of blocks on which no time passes and that keeps weights from passing, where 40 or 41 was answered at a place, and
/// why; `None` where no such round is found. It goes by the state table that the parts have.
///
/// Of several it is one of the first of these kinds that there is, among those to which one comes from the place, or else among
/// all: a round on which nothing counts; one that LOOPs count in vain, as something else on it changes their parameter, or it leads
/// through a user chain; one to which a way leads on which the parameter isn't set to a constant. Else it is one whose LOOP counts
/// more than weights can say. Of one kind it goes over the edge at fault, or is the nearest from there on (ours: docs/weights.md).
/// `Err` where memory runs out.
pub fn find_round(alloc: Global, parts: &Parts, place: Place) -> Result<Option<Finding>, Memory>
    ensures { IfOk result (λ found. IfSome found (λ f. model.is_round parts.now f.round.items ≡ true)) }
{
    match found(alloc, parts, place)? {
        Some(finding) => Ok(if_round(parts, finding)),
        None => Ok(None),
    }
}
