//! What is changed on a line.

use crate::rules::Rule;
use gw_forms::line::Piece;
use std::alloc::{AllocError, Global};

/// What is written in place of bytes of a line.
#[derive(Clone, Copy)]
pub(crate) enum Replacement {
    /// These words.
    Words(&'static [u8]),
    /// A number.
    Number(u64),
    /// The value of the new function of this number.
    Drawn(usize),
    /// The time since the MARK of this number.
    Since(usize),
}

/// A change of a line: bytes of it, and what is written in their place.
#[derive(Clone, Copy)]
pub(crate) struct Change {
    /// The place of the first byte, from 0.
    pub(crate) from: usize,
    /// The place behind the last.
    pub(crate) to: usize,
    /// What is written in their place.
    pub(crate) replacement: Replacement,
}

/// What a line becomes.
#[derive(Drop)]
pub(crate) struct Changes {
    /// The changes on the line, in the order of their places; none of them overlap.
    pub(crate) changes: Vec<Change>,
    /// The rules by which they were made.
    pub(crate) rules: Vec<Rule>,
    /// Lines that come before it, each with its end.
    pub(crate) before: Vec<u8>,
    /// Lines that come behind it, each behind the end of the line before.
    pub(crate) behind: Vec<u8>,
    /// Whether the line becomes a comment.
    pub(crate) is_left_out: bool,
}

/// The place behind the last of these changes that begins at this byte or before it.
fn place_behind(changes: &[Change], from: usize) -> usize {
    let mut behind = 0usize;
    for place in 0..changes.len() {
        if changes[place].from <= from {
            behind = place.saturating_add(1);
        }
    }
    behind
}

impl Changes {
    /// None.
    pub(crate) fn new(alloc: Global) -> Changes {
        Changes {
            changes: Vec::new(alloc),
            rules: Vec::new(alloc),
            before: Vec::new(alloc),
            behind: Vec::new(alloc),
            is_left_out: false,
        }
    }

    /// Notes that a rule was used.
    pub(crate) fn note(&mut self, rule: Rule) -> Result<(), AllocError> {
        if !self.rules.contains(&rule) {
            self.rules.push(rule)?;
        }
        Ok(())
    }

    /// One change more.
    pub(crate) fn replace(
        &mut self,
        from: usize,
        to: usize,
        replacement: Replacement,
    ) -> Result<(), AllocError> {
        let change = Change {
            from,
            to,
            replacement,
        };
        let place = place_behind(&self.changes, from);
        self.changes.insert(place.min(self.changes.len()), change)?;
        Ok(())
    }

    /// One change more, of pieces; none where there are no pieces.
    pub(crate) fn replace_pieces(
        &mut self,
        pieces: &[Piece<'_>],
        replacement: Replacement,
    ) -> Result<(), AllocError> {
        match (pieces.first(), pieces.last()) {
            (Some(first), Some(last)) => self.replace(first.from, last.to, replacement),
            _ => Ok(()),
        }
    }
}
