//! Model texts and objects explained: what is wrong, where, what is known there, and how to mend
//! it.
//!
//! It promises the refusal's line, the lines of the text that it is about, and the words on its
//! code, which every code has; of what is accepted, the line that says so. That the words are the
//! right ones is tested (docs/planner.md).
#![tactic(auto)]

pub mod advice;
mod causes;
mod explaining;
mod facts;
mod forms;
mod known;
mod lines;
mod meaning;
mod notes;
mod objects;
mod rounds;
mod slopes;
mod summary;

pub use explaining::explain;
pub use meaning::explain_code;
pub use notes::notes_on;
