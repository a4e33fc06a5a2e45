//! Objects in bytes: built of parts, read and written, and the laws of that.
//!
//! It promises that parts are accepted exactly where they have a spelling, that an object is
//! written as its one spelling and read from it, and that a refusal names the first fault by code
//! and byte. What passes the verifier it doesn't know (docs/object-format.md).
#![tactic(auto)]

mod building;
mod certificate;
mod entities;
mod kinds;
pub mod laws;
mod lists;
mod reading;
mod returns;
mod rules;
mod states;
mod writing;

pub use building::build;
pub use gw_object::Memory;
pub use reading::read;
pub use writing::write;

/// The format of what an object has beside blocks and procedures.
pub struct ObjectFormat;
