//! Objects that are damaged, and calls and workers that are refused memory, with what becomes of
//! that.
//!
//! It promises that what is said of damaged bytes is so. Each trial prints what came of it, and
//! answers whether that is right (docs/gate.md).
#![tactic(auto)]

mod calls;
mod damages;
mod jobs;
mod objects;
mod outcome;
mod refusals;
mod texts;
mod workers;

pub use objects::damage_objects;
pub use texts::report_texts;
pub use workers::run_two_jobs;
