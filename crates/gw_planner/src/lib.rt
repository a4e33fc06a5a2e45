//! What the planner's commands answer about an input in memory, and that summaries are studies.
//!
//! It promises that each command is answered as the crates below define it, and as a law that the
//! summary of the rows of all runs of a model is its study. It reads no input and hands its answers
//! back, and it assembles a model once; notes and progress alone go to standard error
//! (docs/planner.md).
#![tactic(auto)]

mod answering;
mod converting;
pub mod laws;
mod rows;
mod studies;
mod work;

pub use answering::{answer_command, carry_out};
pub use work::{Work, work_of};
