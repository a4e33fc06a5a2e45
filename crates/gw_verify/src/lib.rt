//! The verifier: all checks, in order; before any run it accepts only objects of which all hold.
//!
//! It promises a `Verified` object exactly where no check is broken, and that it is the object that
//! was handed in. It asks `gw_kinds`, `gw_code_flow`, `gw_flow` and `gw_weights` in this order,
//! none of which knows of another.
#![tactic(auto)]

mod verified;

pub use verified::{check_first, verify};
