//! Bodies of chains that are shorter to understand, and the calls that both bodies of a chain
//! answer alike.
//!
//! It promises that whatever the body of a chain is, calls leave of it and answer what the list of
//! its members says. Nothing but tests uses it.
#![tactic(auto)]

mod calls;
mod delay_chain;
mod event_chain;
pub mod plain;
mod priority_chain;
mod queue;
mod runs;

pub use calls::{CallTarget, ChainBody, ChainCall, make_calls};
pub use delay_chain::{DelayCall, DelayChain};
pub use event_chain::{EventCall, EventChain};
pub use priority_chain::{PriorityCall, PriorityChain};
