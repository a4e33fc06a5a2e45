//! What a model text becomes, piece by piece: the procedures, entities and blocks of an object.
//!
//! It promises an object without a state table: a record for each block statement, entities by
//! first sight, each procedure compiled from its origin, which computes its expression where kinds
//! and PLUS code pass; or the first line at fault. It knows of no check of flow
//! (docs/model-text.md).
#![tactic(auto)]

mod blocks;
mod compiling;
mod entities;
mod initials;
pub mod laws;
mod lines;
mod naming;
mod order;
mod origins;
mod pieces;
mod plan;
mod planning;
mod settings;
mod versions;

pub use lines::procedure_lines;
pub use pieces::parts_of;
