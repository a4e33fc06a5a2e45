//! The statements of a model text that stand on one line, their operands, and FUNCTION with its
//! points.
//!
//! It promises with which codes a label and the head of a line are refused, and on which lines a
//! FUNCTION ends or is refused. What names stand for it doesn't know. That operands are read as
//! docs/model-text.md says is tested.
#![tactic(auto)]

mod fields;
pub mod functions;
mod model;
mod operands;
pub mod statements;
mod transfers;

pub use model::{Gate, Modifier, Operand, Point, Switching, Test};
