//! Return rows as sets of blocks: which of them have a block, and which are within which others.
//!
//! How it knows is its own: `gw_flow` asks by the numbers of rows. It knows of no state table.
#![tactic(auto)]

mod columns;
mod inclusions;
mod rows;
mod words;

pub use inclusions::Inclusions;
