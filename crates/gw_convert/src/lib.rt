//! A model in GPSS World's text, written in this language: exactly, nearly or left, line by line.
//!
//! It promises that behind a head there is a piece for each line of the text, in order, and that a
//! line without a statement is its own piece; which operands are times, and what marks a rule has.
//! What a converted model does is no matter of a proof (docs/planner.md).
#![tactic(auto)]

mod changes;
mod converting;
mod declaring;
mod draws;
mod functions;
mod head;
mod left;
mod numbers;
mod plan;
mod planning;
mod queues;
mod rules;
mod statement;
mod steps;
mod timed;
mod times;
mod writing;

pub use converting::{Converted, convert};
pub use left::Told;
