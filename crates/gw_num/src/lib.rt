//! Exact arithmetic on whole numbers, streams of random numbers, and the numbers that words of a
//! command line spell.
//!
//! It promises the mathematical value or a named fault, and the numbers of one fixed generator. No
//! call takes memory. The rules are ours: docs/numbers.md.
#![tactic(auto)]

mod arithmetic;
pub mod laws;
mod numerals;
mod operators;
mod stream;

pub use arithmetic::{NumFault, add, div, mul, neg, pow, rem, sub};
pub use numerals::{count_in, number_in};
pub use operators::{Binary, Unary, truth_value};
pub use stream::Stream;
