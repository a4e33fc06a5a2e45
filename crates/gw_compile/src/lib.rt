//! Expressions and PROCEDUREs of a model text, compiled to PLUS code.
//!
//! It promises that an expression's procedure comes to the expression's value in each object that
//! passes, that each expression within a PROCEDURE does, and that the needs of both are what their
//! code asks for. What names stand for it knows by a trait (`Numbering`), and of no map and no
//! object (docs/plus-code.md).
#![tactic(auto)]

mod attributes;
mod emission;
mod faults;
mod locals;
mod needs;
mod numbering;
mod parts;
mod procedures;
mod statements;

pub use attributes::{Question, attribute_in, question_of};
pub use faults::CompileFault;
pub use numbering::{Callee, Equ, Numbering};
pub use procedures::{compile, compile_procedure};
