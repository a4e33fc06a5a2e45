//! The step machine: a job, what it runs, and its steps.
//!
//! It promises that equal specs are the same job, that a `Sim` is in the state that its job's lone
//! run has after as many steps, and that `step` makes the one step of the step relation. The loop
//! of steps stands here once (`Sim::run_slice`), for tasks and for lone runs.
#![tactic(auto)]

mod assigning;
mod blocks;
mod both;
mod conditions;
mod copying;
mod decoding;
mod linking;
mod passing;
mod scan;
mod sim;
mod slices;
mod spec;
mod subroutines;
mod views;
mod visit;
mod weight;

pub use gw_step::{
    End, all_jobs_come_to_rest, blocks_are_served, ends_leave_the_rest, entries_are_within_weight,
    moments_pass, no_job_meets_an_error_stop, parameters_suffice, slices_reach_the_same,
    steps_are_determined, typed_states_never_get_stuck, waiters_are_not_forgotten,
};
pub use sim::{Sim, Status};
pub use slices::Slice;
pub use spec::{Spec, StartFault};
