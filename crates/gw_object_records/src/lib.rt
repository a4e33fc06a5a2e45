//! What the statements of a model text become in an object: the records of blocks, and what
//! entities are.
//!
//! It promises that each block statement becomes its record, and each declaration its entity, by
//! what names stand for and which procedures expressions become; there is none exactly where a name
//! isn't known, or the operands aren't those of the word.
#![tactic(auto)]

mod blocks;
mod entities;
mod operands;
mod operators;

pub use blocks::record_of;
pub use entities::kind_of;
