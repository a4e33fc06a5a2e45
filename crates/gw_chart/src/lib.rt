//! The contents of a run over time, as a picture and as records.
//!
//! It promises that what it shows is that of the lone run, and where each panel, number and stroke
//! stands. It runs its job twice: the first time to learn the clock at the end, the second to look
//! at the entities after each move of the clock (docs/planner.md).
#![tactic(auto)]

mod axis;
mod bands;
mod bars;
mod charting;
mod contents;
mod document;
mod levels;
mod line;
mod plot;
mod samples;
mod sheet;
mod window;

pub use charting::{chart, points};
pub use window::Window;
