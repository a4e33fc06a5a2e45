//! The PROCEDUREs of a model text, in the PLUS language.
//!
//! It promises on which lines a PROCEDURE ends or is refused. It knows of no other statement, and
//! what a PROCEDURE becomes is for `gw_compile` to say.
#![tactic(auto)]

mod model;
mod nesting;
mod plus;
mod procedures;

pub use model::{PlusStatement, Procedure};
pub use procedures::read_procedure;
