//! The entities of a model: facilities, storages, queues, logic switches, savevalues and tables.
//!
//! It promises that each has the value that the calls on it make, by one function a call, and that
//! only `new` takes memory. What a block's rules ask for is a condition of its call
//! (docs/machine.md, "Well-typed states"). It knows nothing of who waits.
#![tactic(auto)]

mod average;
mod by_entity;
mod contents;
mod facilities;
pub mod laws;
mod numbered;
mod queues;
mod savevalues;
mod storages;
mod switches;
mod tables;

pub use average::Average;
pub use by_entity::{ByEntity, Initial};
pub use contents::Contents;
pub use facilities::{Facilities, Facility};
pub use numbered::{Numbered, Timed};
pub use queues::Queues;
pub use savevalues::Savevalues;
/// The answer where there was no memory.
pub use std::alloc::AllocError as Memory;
pub use storages::{Storage, Storages};
pub use switches::Switches;
pub use tables::{Tables, Tabulation};
