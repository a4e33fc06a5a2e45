//! The trace of a model's run: a line for each step between two times of the clock.
//!
//! It promises that what it shows is that of the lone run. It compares what was seen of a state
//! before a step with the state after it, so the machine knows nothing of traces (docs/planner.md).
#![tactic(auto)]

mod columns;
mod happening;
mod line;
mod sight;
mod tracing;

pub use tracing::trace;
