//! The assembler's state table: what is known of a transaction at every block, found from the
//! blocks alone.
//!
//! It promises an object the table that its rounds compute, with which flow passes; each row fits
//! that of every table that passes, so where any does, no refusal is one of flow (unless a kept
//! return is added to or subtracted from). It stands beside `gw_weights`, on `gw_flow`'s states,
//! rules and edges.
#![tactic(auto)]

mod amounts;
pub mod codes;
mod draft;
mod falls;
mod known;
pub mod laws;
mod leaps;
mod pace;
mod passing;
mod rounds;
mod sets;
mod settling;
mod table;
mod written;

pub use settling::{settle, table_of};
pub use written::Written;
