//! The words of the planner's command line, and what they ask for.
//!
//! It promises that any words have the command of the definition, with options in any order, each
//! at most once. It knows which codes there are to explain, and answers nothing itself
//! (docs/planner.md).
#![tactic(auto)]

mod options;
mod rows;
mod words;

pub use options::{Options, Waiting};
pub use rows::{LoneRun, Runs, Shard, Summing};
pub use words::{Chart, Command, MOST_RUNS, MOST_WORKERS, Question, Span, Study, command_of};
