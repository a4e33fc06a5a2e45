//! Users who call services from four threads, each reply compared with a model of the table.
//!
//! A round is a service with up to 1,024 jobs, and workers beside the users. At last a job with a
//! dear start is submitted while another user's jobs are run. Each thread has its own model and
//! knows of its own jobs alone (docs/service.md).
#![tactic(auto)]

mod acts;
mod calls;
mod counts;
mod dear;
mod diary;
mod round;
mod rounds;
mod row;
mod samples;
mod settling;
mod shift;
mod works;

pub use rounds::{Rounds, call_services};
