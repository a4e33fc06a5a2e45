//! Runs of a model's points, or of a share of an experiment, as rows, and the object of a run.
//!
//! It promises the rows of lone runs with the seeds that a study gives them, whichever machine
//! makes them, or a refusal as a row. What rows tell together is for `gw_summary` to say
//! (docs/many-machines.md).
#![tactic(auto)]

pub mod laws;
mod objects;
mod request;
mod rows;
mod share;

pub use objects::object_of_run;
pub use request::RowsRequest;
pub use rows::{refusal_of_model, rows_of_points};
pub use share::rows_of_share;
