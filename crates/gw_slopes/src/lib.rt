//! The weights of an object with slopes, where none pass without.
//!
//! It promises that an object whose least weights fail at an edge gets the slopes of the first
//! parameter of a LOOP for which any weights pass, and the least weights for them; where there is
//! none, it has the least weights without. Whether any pass it asks `gw_weights`.
#![tactic(auto)]

mod marks;
mod search;
mod slopes;
mod sources;
mod weighing;

pub use weighing::{Refusal, weigh_with_slopes};
