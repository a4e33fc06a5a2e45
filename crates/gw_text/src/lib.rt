//! The model text: what a planner writes, read into a list of statements on their lines.
//!
//! It promises that each line with a statement is read into one, of the word that its head spells,
//! in order, with short lines, labels that differ, few blocks and one START behind them; a refusal
//! names a line. That operands are read as docs/model-text.md says is tested, not proved.
#![tactic(auto)]

mod model;
mod parsing;
mod reader;

pub use gw_num::{Binary, Unary};
pub use gw_text_expressions::{BlockName, BlockValue, EntityValue, Expression, Parameter, Sna};
pub use gw_text_plus::{PlusStatement, Procedure};
pub use gw_text_statements::{Gate, Modifier, Operand, Point, Switching, Test};
pub use gw_text_tokens::codes;
pub use gw_text_tokens::words::Word;
pub use model::{Body, Model, Statement};
pub use parsing::parse;
