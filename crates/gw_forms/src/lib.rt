//! Forms of GPSS World that are left out: what each is, what stands in its place, and where one
//! stands.
//!
//! It promises that the place of a form that it finds is one of the line; which form stands there
//! is its own. It knows of tokens and of no model (docs/guide.md, "From GPSS World to here").
#![tactic(auto)]

mod attributes;
mod finding;
pub mod form;
pub mod line;
mod numbers;
mod signs;
mod statements;
pub mod testing;
mod ways;

pub use finding::{Found, find_form};
pub use form::Form;
