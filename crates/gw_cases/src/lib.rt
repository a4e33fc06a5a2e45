//! Cases as data: models with what they show, run and compared, by their scripts.
//!
//! A script has cases, each with a source, what is done with it, and what must come; a case that is
//! run has a line, and one that fails what was wanted and what came. It promises that a case passes
//! exactly where something was asked and nothing differed (docs/cases.md).
#![tactic(auto)]

mod acts;
mod bytes;
mod cases;
mod jobs;
mod objects;
mod patches;
mod rows;
mod scripts;
mod stop;
mod subjects;
mod words;

pub use subjects::run_subjects;
