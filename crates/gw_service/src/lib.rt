//! What a service of many users' jobs is and does: rows, journal, calls, and their laws.
//!
//! It promises the laws, of which no table is part: what a user is told and what becomes of the
//! user's rows follows from those rows alone, the journal replays, limits and totals are kept, and
//! each row's steps are its lone run's. It has the refusals and how a job stands, and no other
//! code.
#![tactic(auto)]

mod faults;
mod laws;
mod progress;

pub use faults::JobFault;
pub use laws::{
    calls_keep_limits, journals_replay, journals_tell_what_may_come, passes_lead_to_own_rows,
    ready_lists_are_right, refusals_change_nothing, rows_are_reached, services_are_kept,
    slots_are_kept, totals_follow_calls, users_are_isolated,
};
pub use progress::{Progress, State};
