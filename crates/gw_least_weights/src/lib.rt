//! The least weights that keep rules, each of which asks at a place for sums of weights at others.
//!
//! It promises that where any weights keep the rules, those found do, each at most the other's. It
//! knows of no object but the greatest weight.
#![tactic(auto)]

mod causes;
mod circles;
mod least;
mod order;
mod rounds;
mod rules;
mod sweeps;

pub use least::least_weights;
pub use rules::{Rule, Sum, Term, nothing, once};
