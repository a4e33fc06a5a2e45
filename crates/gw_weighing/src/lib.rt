//! The least weights of an object, found wherever any pass.
//!
//! It promises that an object gets weights that pass wherever any do, each at most the other's, and
//! that all else stays. It puts the rules of `gw_rules` into sums for `gw_least_weights`; whether
//! an object's weights are a certificate is for `gw_weights` to say.
#![tactic(auto)]

mod layout;
mod rules;
mod sums;
mod weighing;

pub use weighing::{Weights, weigh, weights_of};
