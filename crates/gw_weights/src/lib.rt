//! The checks of the weight certificate, by which no transaction goes on for ever within one clock
//! moment.
//!
//! It promises that weights are accepted exactly where each block pays for an entry and for all
//! that follows from it at once. It goes along the exits along which flow goes, in the rows of the
//! same table. What a state weighs is for `gw_step` to say (docs/weights.md).
#![tactic(auto)]

mod arrivals;
mod chains;
mod check;
mod exits;
mod paying;
mod returns;
mod slopes;

pub use check::{check_parts, check_weights, own_row};
pub use exits::goes_at_once;
pub use returns::{blocks_read, parameter_of};
