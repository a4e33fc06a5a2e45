//! The checks of kinds: whether every number in an object names something of its kind.
//!
//! It promises to accept exactly where that is so, and else to name the first place at fault with
//! its lowest code. It takes an object as it is, and knows of no bytes and no flow.
#![tactic(auto)]

mod blocks;
mod calls;
mod checks;
mod constants;
mod entities;
mod operands;
mod pass;
mod procedures;
mod returns;
mod rows;
mod targets;

pub use pass::check_kinds;
