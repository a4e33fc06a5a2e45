//! A service that threads share: a job table with ledgers under one lock, a progress board, and
//! workers.
//!
//! It promises that a shared table answers as its table does, a share counts what it took and gave
//! back, the board never tells a seat less than it knew, and workers lose no task and no step.
//! Workers know of no user: who submits or collects takes the lock (ours: docs/service.md).
#![tactic(auto)]

mod board;
mod crew;
mod faults;
mod gate;
mod gathering;
mod replies;
mod runs;
mod service;
mod share;
mod shared;
mod submission;
mod threads;
mod totals;
mod view;
mod worker;

pub use board::{Board, Seat};
pub use crew::Crew;
pub use faults::PoolFault;
pub use gate::{Gate, OpenGate};
pub use replies::reply_to;
pub use service::{Service, range_fault};
pub use share::Share;
pub use shared::{Shared, new_shared};
pub use submission::submit;
pub use totals::Totals;
