//! The bottom of the model text: lines, tokens, names, words, and what is wrong with a line.
//!
//! It promises the lines of a text, which of them hold no statement, the number that digits spell,
//! and the lowest refusal of a line. Of a statement it knows the word.
#![tactic(auto)]

mod characters;
pub mod codes;
pub mod faults;
pub mod lines;
pub mod names;
pub mod tokens;
pub mod words;

pub use characters::is_spelled;
