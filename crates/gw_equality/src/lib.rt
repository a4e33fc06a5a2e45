//! What `==` answers of parts of objects and of jobs: true exactly where they are equal.
//!
//! It promises this of the derived `==` of operands, blocks, instructions, procedures, entities and
//! rows of the state table, and so of what is compared of two jobs. It has laws alone.
#![tactic(auto)]

mod laws;

pub use laws::{
    blocks_are_told_apart, entities_are_told_apart, jobs_are_told_apart, parts_are_told_apart,
    procedures_are_told_apart, states_are_told_apart,
};
