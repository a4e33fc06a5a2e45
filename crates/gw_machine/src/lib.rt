//! The state of a job in memory: its elementary changes, and what is read of it.
//!
//! It promises that each change in memory is one of the state of the definitions, to which
//! `state_of` leads; that its handles lead where they should is in its type. Of blocks it knows
//! those that a waiter stands at, and of long delay lists who wants what (`wants`, `least`).
#![tactic(auto)]

mod assembling;
mod at_start;
mod clock;
mod copies;
mod delays;
mod ends;
mod entities;
mod entity_tables;
mod least;
mod linking;
mod machine;
mod reading;
mod resting;
mod slots;
mod start;
mod times;
mod transfers;
mod values;
mod wants;

pub use ends::{end_by, end_by_fault};
pub use entity_tables::EntityTables;
pub use machine::{Machine, Made};
pub use times::Span;
pub use transfers::block_of;
pub use values::{Subject, active_subject, drawn_thousandths};
