//! Rows of one study, in any order, and what they tell.
//!
//! It promises the table of a study of just the runs whose rows came, none lost and none made up,
//! or a refusal. It makes no run, and doesn't know who made the rows (docs/many-machines.md).
#![tactic(auto)]

mod fault;
mod gaps;
mod parameters;
mod pieces;
mod point;
mod rows;
mod study;
mod telling;

pub use fault::{NoRow, RowFault, refusal_of};
pub use pieces::Pieces;
pub use rows::Rows;
pub use telling::{SummaryRequest, summary};
