//! Many runs of a model with other random numbers, by threads, and what their figures say.
//!
//! It promises a row for each figure of the model, which tells what its values say in the lone runs
//! that came to their count. It asks no service: threads make its runs, and it keeps their values
//! (docs/planner.md).
#![tactic(auto)]

mod columns;
mod growing;
pub mod laws;
mod one_run;
mod request;
mod runs;
mod seeds;
mod streams;
mod studying;
mod telling;
mod text;

pub use request::{MOST_RUNS, StudyRequest};
pub use seeds::seeds_of;
pub use studying::{job_of_model, results, results_between, results_text, study};
pub use telling::Results;
