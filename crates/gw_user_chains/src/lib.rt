//! The user chains of a simulation.
//!
//! It promises that each chain is its list, and that after `reserve(n)` the next `n` insertions
//! take no memory: an insertion asks for room and can't fail. Of transactions it knows what
//! `gw_members` says, and of other chains nothing.
#![tactic(auto)]

mod user_chains;

pub use user_chains::UserChains;
