//! The register of assemblies: who waits for the rest of an assembly set, and at which block.
//!
//! It promises that one who waits is found by the block and the set, and that after `reserve(n)`
//! the next `n` assemblies begin without memory. Contracts see a list in the order in which they
//! were begun. Of transactions it knows what `gw_members` says, and of chains nothing.
#![tactic(auto)]

mod assemblies;
mod register;

pub use assemblies::{Assemblies, Assembly};
