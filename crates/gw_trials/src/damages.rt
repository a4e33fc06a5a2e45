//! The ways in which an object is damaged.

use crate::outcome::{Outcome, outcome_of};
use gw_object::{Memory, codes};
use std::alloc::Global;

/// How often an object was damaged, and how often that was answered as it has to be.
#[derive(Clone, Copy, PartialEq, Eq)]
pub struct Tally {
    /// How often.
    pub tried: u64,
    /// How often it was answered as it has to be.
    pub right: u64,
}

impl Tally {
    /// Nothing was damaged yet.
    fn new() -> Tally {
        Tally { tried: 0, right: 0 }
    }

    /// Counts one more.
    fn count(&mut self, is_right: bool) {
        self.tried = self.tried.saturating_add(1);
        self.right = self.right.saturating_add(u64::from(is_right));
    }

    /// Whether each damage was answered as it has to be.
    pub fn is_right(self) -> bool {
        self.tried == self.right
    }
}

/// Whether bytes are refused as cut off.
fn is_truncated(outcome: Outcome) -> bool {
    match outcome {
        Outcome::Unreadable(fault) => fault.code == codes::TRUNCATED,
        Outcome::Refused(_) => false,
        Outcome::Accepted { .. } => false,
    }
}

/// Whether bytes are refused, or accepted and right.
fn is_answered(outcome: Outcome) -> bool {
    match outcome {
        Outcome::Unreadable(_) => true,
        Outcome::Refused(_) => true,
        Outcome::Accepted { is_right } => is_right,
    }
}

/// Cuts an object off before each of its bytes: that has to be refused as truncated.
pub fn cuts(alloc: Global, object: &[u8]) -> Result<Tally, Memory> {
    let mut tally = Tally::new();
    for end in 0..object.len() {
        let outcome = outcome_of(alloc, &object[..end])?;
        tally.count(is_truncated(outcome));
    }
    Ok(tally)
}

/// Puts a value in the place of a byte.
fn put(bytes: &mut [u8], at: usize, value: u8) {
    if let Some(byte) = bytes.get_mut(at) {
        *byte = value;
    }
}

/// Puts each other value in the place of one byte.
fn change_at(alloc: Global, object: &mut [u8], at: usize, tally: &mut Tally) -> Result<(), Memory> {
    let Some(own) = object.get(at).copied() else {
        return Ok(());
    };
    for more in 1..=255u8 {
        put(object, at, own.wrapping_add(more));
        let outcome = outcome_of(alloc, object)?;
        tally.count(is_answered(outcome));
    }
    put(object, at, own);
    Ok(())
}

/// Puts each other value in the place of each byte: what comes of that has to be refused, or accepted, and then it is written as it
/// came, runs to a named end and is reported.
pub fn changes(alloc: Global, object: &[u8]) -> Result<Tally, Memory> {
    let mut damaged = Vec::from_slice(alloc, object)?;
    let mut tally = Tally::new();
    for at in 0..object.len() {
        change_at(alloc, damaged.as_mut_slice(), at, &mut tally)?;
    }
    Ok(tally)
}
