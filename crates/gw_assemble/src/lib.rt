//! The assembler: from a model text to an object that the verifier accepts.
//!
//! It promises an accepted object that the text becomes, with the table of `gw_settle`, or the
//! first refusal: those of flow come as `gw_settle` says, and those of weights only where no
//! weights pass with that table, with slopes or without. It knows of no step and no state
//! (docs/model-text.md).
#![tactic(auto)]

mod assembling;
mod finishing;
pub mod laws;

pub use assembling::assemble;
/// The part of [`assemble`] that finds the state table of an object of which kinds and PLUS code pass, before it gets its
/// weights: each row of it fits the row of every table with which flow passes (ours: docs/object-format.md).
pub use gw_settle::settle;
