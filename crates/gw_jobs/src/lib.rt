//! The job table: many users' jobs, tasks, slices and journal.
//!
//! It promises that a table is a service as `gw_service` says, that each task and each row has the
//! state of its job's lone run after as many steps (an ended row perhaps just its end and report),
//! and that a reply tells the final one. It knows nothing of threads (ours: docs/service.md).
#![tactic(auto)]

mod conclusion;
mod journal;
mod laws;
mod pass;
mod ready;
mod replies;
mod row;
mod rows;
mod submission;
mod table;
mod task;

pub use gw_scan::Slice;
pub use gw_service::{JobFault, Progress, State};
pub use laws::equal_rows_are_told_alike;
pub use pass::Pass;
pub use replies::{Reply, Returned};
pub use submission::NewJob;
pub use table::Table;
pub use task::Task;
