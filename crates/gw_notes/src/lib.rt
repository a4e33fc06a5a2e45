//! What is noted of an accepted model that may surprise its author, and how often its blocks draw
//! random numbers.
//!
//! It promises that each note says what is so of the object, and how often a block draws from a
//! stream at most. It knows of no text and of no run (docs/planner.md).
#![tactic(auto)]

mod drawing;
mod noting;
mod queues;

pub use drawing::{draws, draws_at};
pub use noting::{Note, notes};
