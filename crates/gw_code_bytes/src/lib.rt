//! Procedures in bytes: put, read, and tested against the limits of the object format.
//!
//! It promises that each instruction and each procedure is put as it is spelled, and read as its
//! reading says, and that its test of limits says which have a spelling. What code does it doesn't
//! know (docs/object-format.md).
#![tactic(auto)]

mod instructions;
mod procedures;

pub use procedures::{procedures_ascend, procedures_fit};

/// The format of procedures and their instructions.
pub struct CodeFormat;
