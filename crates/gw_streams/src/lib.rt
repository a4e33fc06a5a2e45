//! Readers and writers that remember what became of their calls.
//!
//! Contracts see a reader as the bytes that it has left, and a writer as those that it holds. What
//! it says of its calls (whether one failed, whether bytes wait for a flush) is what became of
//! them. After a call that failed no other is made; an interrupted one isn't tried again.
#![tactic(auto)]

mod input;
mod output;

pub use input::Input;
pub use output::Output;
