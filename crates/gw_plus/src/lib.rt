//! PLUS evaluation: procedures of a verified object, evaluated without memory and without a test
//! that checks made needless.
//!
//! It promises that `eval` answers the outcome that PLUS evaluation gives, in an environment that
//! is lent to it. It knows of no state of a job (docs/plus-code.md).
#![tactic(auto)]

mod activation;
mod env;
mod evaluation;

pub use activation::ended_by;
pub use env::Env;
pub use evaluation::eval;
