//! The headline of the project, as a law over the definitions alone.
//!
//! It promises that jobs of accepted objects run without an error stop and within their weights,
//! alone and as rows of a service (docs/headline.md). It has one law and no other code, and nothing
//! stands on it.
#![tactic(auto)]

mod laws;

pub use laws::verified_objects_run_without_an_error_stop_alone_and_under_every_schedule;
