//! Experiments: what comment lines of a model ask for, and their division into shares.
//!
//! It promises which experiment the lines ask for, or the first that can't be taken, and that all
//! shares together have all jobs, each once, in order. It reads nothing but these lines, and makes
//! no run (docs/many-machines.md).
#![tactic(auto)]

mod draft;
mod experiment;
mod fault;
pub mod laws;
mod parameters;
mod shares;
mod steps;
mod words;

pub use experiment::{Experiment, experiment_in};
pub use fault::{ExperimentFault, refusal_of};
pub use shares::{Share, runs_of_point};
