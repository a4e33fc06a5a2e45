//! What the program has to say of one input: from bytes to a text and a status.
//!
//! It promises that a text and a status are what the bytes, a seed and a count determine, and has
//! the words of refusals and of an accepted object. For what planners ask it makes the job of a
//! model, a text or an object. It reads and writes nothing (docs/program.md).
#![tactic(auto)]

mod acceptance;
mod answer;
pub mod codes;
mod inputs;
mod job;
mod laws;
mod names;
mod reasons;
mod refusal;
mod request;
mod running;
mod service;
pub mod status;

pub use acceptance::Acceptance;
pub use answer::{
    Answer, BUDGET, NoJob, accepted_in, answer_acceptance, answer_of_job, answer_refusal,
    answer_to, run_to_end, spec_of,
};
pub use inputs::is_object;
pub use job::spec_of_model;
pub use laws::answers_are_determined;
pub use names::NAMES;
pub use reasons::refusal_with_reason;
pub use refusal::Refusal;
pub use request::Request;
pub use running::{Time, is_over, run_past};
pub use service::{refusal_of_job, without_place};
