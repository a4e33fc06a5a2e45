//! The listed object code: an object's blocks, entities, procedures and rows in lines that people
//! read.
//!
//! It promises a line for each part of the accepted object, in order, which begins with the part's
//! number, its line in the text and its weight; or the refusal. It runs nothing (docs/planner.md).
#![tactic(auto)]

mod blocks;
mod code;
mod entities;
mod listing;
mod operands;
mod parts;
mod sections;
mod text;

pub use listing::list;
