//! The checks of PLUS code: which code never gets stuck, and what it costs.
//!
//! It promises that code is accepted exactly where its rules hold, and else refused with the first
//! that is broken; it takes no memory. What code comes to is for `gw_rules` to say
//! (docs/plus-code.md).
#![tactic(auto)]

mod check;
mod costs;
mod heights;
mod instructions;
mod parameters;

pub use check::check_plus;
