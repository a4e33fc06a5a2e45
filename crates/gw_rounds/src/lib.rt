//! Rounds of blocks on which no time passes, and what keeps weights from counting them.
//!
//! It promises that the blocks of a round that it finds are one. It knows of exits and of a state
//! table, and of no weights; which round it finds, and why that has no certificate, is its own
//! (docs/weights.md).
#![tactic(auto)]

mod causes;
mod counting;
mod graph;
mod paths;
mod rounds;
mod search;

pub use causes::{Cause, Hindrance};
pub use search::{Finding, find_round};
