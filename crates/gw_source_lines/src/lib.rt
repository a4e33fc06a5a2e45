//! At which lines of a model text its blocks, entities and procedures stand.
//!
//! It promises the line of each, by the assembler's own order. It knows of no weights and no state
//! table.
#![tactic(auto)]

mod lines;
mod places;

pub use lines::sources;
pub use places::Sources;
