//! The error stops, as a law over definitions alone: each state for which the rules have no case is
//! stuck.
//!
//! It holds the missing cases of `gw_step` in place, on which all that is said of error stops
//! rests: were one given a step, this would not be proved. It has laws alone, and nothing stands on
//! it, so one more asks for no other proof again.
#![tactic(auto)]

mod laws;

pub use laws::error_stops_are_stuck;
