//! The expressions and attributes of a model text, and the trees that they are read into.
//!
//! It promises with which codes an attribute is refused, and that reading changes no name that is
//! known. That trees are those of docs/model-text.md is tested. It knows of no statement.
#![tactic(auto)]

pub mod expressions;
mod model;
pub mod snas;

pub use model::{BlockName, BlockValue, EntityValue, Expression, Parameter, Sna};
