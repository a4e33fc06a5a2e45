//! Numbers put into a model text by the names before them, as `NURSES=2,3` asks for.
//!
//! It promises that the text of a point has the lines of the model but for the digits of its
//! numbers, or a refusal by code and name. It knows of tokens and a few words, and reads no model
//! (docs/planner.md).
#![tactic(auto)]

mod fault;
mod operands;
mod parameters;
mod points;
mod texts;

pub use fault::{NoAnswer, ParameterFault, refusal_of};
pub use parameters::{Parameter, parameter_in};
pub use points::{MOST_POINTS, Points, points_of};
pub use texts::text_with;
