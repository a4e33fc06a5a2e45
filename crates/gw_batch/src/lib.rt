//! What `pool` writes of a batch of objects, whose jobs services run, window by window.
//!
//! It promises a part for each entry, in order: the report of the final state of its job's lone
//! run, or its refusal. It stands on the contracts of `submit`, `run_workers` and `collect`, and on
//! nothing of how a service does its work. It reads nothing (docs/program.md).
#![tactic(auto)]

mod answer;
mod entry;
mod progress;
mod refusals;
mod room;
mod shift;
mod submission;
mod telling;
mod ticket;
mod told;
mod waiting;
mod window;
mod workers;

pub use answer::answer_batch;
pub use entry::{Entry, LENGTH_BYTES, MOST_OBJECTS};
pub use gw_answers::codes::SERVICE_FULL;
pub use refusals::refusal_of_words;
pub use shift::Shift;
