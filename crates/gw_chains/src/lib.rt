//! The chains that a machine keeps by priority or by time: events chains, delay lists and the retry
//! list.
//!
//! It promises that each chain is its list, that after `reserve(n)` the next `n` insertions take no
//! memory, and that a walk over a delay list comes to its members in order, where each is passed or
//! taken out. Of transactions it knows what `gw_members` says.
#![tactic(auto)]

mod bucket;
mod buckets;
mod cec;
mod chunks;
mod delay_list;
mod event_buckets;
mod fec;
mod guesses;
mod queue;
mod row;
mod spot;
mod waits;
mod walk;

pub use cec::Cec;
pub use delay_list::{DelayList, Waiters};
pub use fec::{Events, Fec};
pub use queue::insert_reserved;
pub use waits::Waits;
