//! Why a round has no weight certificate.

use crate::counting::{is_other_change, jump_of};
use crate::graph::{Passage, Step, block_at};
use crate::paths::Field;
use gw_object::Block;
use gw_rules::Way;

/// Why a round has no weight certificate, with the numbers of the blocks, from 1, that stand in the way.
#[derive(Clone, Copy, PartialEq, Eq)]
pub enum Cause {
    /// Nothing on it takes time, and nothing counts it.
    Endless,
    /// So it is, and this TEST or GATE sends back at once whom it doesn't let in.
    SendsBack(u16),
    /// So it is, and this ADVANCE on it may take no time.
    MayTakeNone(u16),
    /// So it is, and it goes back from a subroutine, at this TRANSFER, to behind a call that isn't on it.
    OtherCall {
        /// The TRANSFER in parameter mode.
        transfer: u16,
        /// The call.
        call: u16,
    },
    /// It leads into a user chain and out of it.
    Members {
        /// The LINK.
        link: u16,
        /// The UNLINK.
        unlink: u16,
    },
    /// A LOOP on it counts by a parameter, and something keeps weights from counting so.
    Hindered {
        /// The LOOP.
        counter: u16,
        /// The parameter, from 1.
        parameter: u8,
        /// What keeps them from it.
        by: Hindrance,
    },
}

/// What keeps weights from counting the rounds of a LOOP by its parameter, with the number of the block, from 1.
#[derive(Clone, Copy, PartialEq, Eq)]
pub enum Hindrance {
    /// This block, which is on the round too, changes the parameter.
    ChangedWithin(u16),
    /// This block changes it to what is no constant, and leads to the round.
    ChangedBefore(u16),
    /// This UNLINK sends members of a user chain to the round, with any value.
    MembersCome(u16),
    /// This SPLIT sends copies there, whose rounds would be counted by the same parameter.
    CopiesCome(u16),
    /// This SPLIT, which is on the round too, may make more copies than a round counts for.
    CopiesWithin(u16),
    /// This LOOP counts another round, by this parameter.
    OtherCounter(u16, u8),
    /// The parameter may be too great; this ASSIGN sets it to the greatest constant, if one does, and else the number is 0.
    TooMany(u16),
}

/// Whether these have a number.
fn has(numbers: &[u16], number: u16) -> bool {
    for one in numbers {
        if *one == number {
            return true;
        }
    }
    false
}

/// How much a cause that a step on an endless round shows says: more where it is greater.
fn rank(cause: Cause) -> u8 {
    match cause {
        Cause::Members { .. } => 4,
        Cause::MayTakeNone(_) => 3,
        Cause::SendsBack(_) => 2,
        Cause::OtherCall { .. } => 1,
        _ => 0,
    }
}

impl<'a> Field<'a> {
    /// The step from a place of a round, from 0.
    fn step_at(&self, round: &[u16], place: usize) -> Option<Step> {
        let from = round.get(place).copied()?;
        let to = match round.get(place + 1) {
            Some(next) => *next,
            None => round.first().copied()?,
        };
        self.graph.step_between(from, to)
    }

    /// What a step along an exit on an endless round shows.
    fn cause_by(&self, from: u16, way: Way) -> Cause {
        match (block_at(self.parts, from), way) {
            (Some(Block::Advance(_)), _) => Cause::MayTakeNone(from),
            (Some(Block::Test(_) | Block::Gate(_)), Way::Goes(target)) if target <= from => {
                Cause::SendsBack(from)
            }
            _ => Cause::Endless,
        }
    }

    /// What a step on an endless round shows.
    fn cause_on(&self, round: &[u16], step: Step) -> Cause {
        match step.by {
            Passage::Exit(way) => self.cause_by(step.from, way),
            Passage::Chain(unlink) => Cause::Members {
                link: step.from,
                unlink,
            },
            Passage::Return if has(round, step.to.saturating_sub(1)) => Cause::Endless,
            Passage::Return => Cause::OtherCall {
                transfer: step.from,
                call: step.to.saturating_sub(1),
            },
        }
    }

    /// Why a round on which nothing counts has no certificate.
    pub(crate) fn cause_of(&self, round: &[u16]) -> Cause {
        let mut cause = Cause::Endless;
        for i in 0..round.len() {
            if let Some(step) = self.step_at(round, i) {
                let other = self.cause_on(round, step);
                if rank(cause) < rank(other) {
                    cause = other;
                }
            }
        }
        cause
    }

    /// The block of the first step on a round that changes a parameter, but for LOOPs.
    fn change_on(&self, round: &[u16], parameter: u8) -> Option<u16> {
        for i in 0..round.len() {
            if let Some(step) = self.step_at(round, i) {
                if is_other_change(self.parts, step, parameter) {
                    return Some(step.from);
                }
            }
        }
        None
    }

    /// What is wrong with the count of a LOOP that jumps from a place of a round, if one does: nothing, where nothing else on the
    /// round changes its parameter.
    fn count_at(&self, round: &[u16], place: usize) -> Option<Option<Cause>> {
        let step = self.step_at(round, place)?;
        let parameter = jump_of(self.parts, step)?;
        Some(
            self.change_on(round, parameter)
                .map(|block| Cause::Hindered {
                    counter: step.from,
                    parameter,
                    by: Hindrance::ChangedWithin(block),
                }),
        )
    }

    /// Why the LOOPs on a round count it in vain, if they do.
    pub(crate) fn cause_among(&self, round: &[u16]) -> Option<Cause> {
        let mut cause = self.cause_of(round);
        if rank(cause) != 4 {
            cause = Cause::Endless;
        }
        for i in 0..round.len() {
            match self.count_at(round, i) {
                Some(None) => return None,
                Some(Some(changed)) if cause == Cause::Endless => cause = changed,
                Some(Some(_)) | None => {}
            }
        }
        Some(cause)
    }

    /// The first SPLIT on a round that makes copies.
    pub(crate) fn split_on(&self, round: &[u16]) -> Option<u16> {
        for number in round {
            match block_at(self.parts, *number) {
                Some(Block::Split(split)) if split.copies > 0 => return Some(*number),
                _ => {}
            }
        }
        None
    }
}
