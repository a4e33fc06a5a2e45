//! Text that programs write, piece by piece: words, numbers, numbers with a point, and columns.
//!
//! It promises that each call puts its text behind what is there. It knows of nothing that is told:
//! what stands where is said by the crates above.
#![tactic(auto)]

mod columns;
mod decimals;
mod text;

pub use columns::{put_left, put_padded, put_right};
pub use decimals::{put_decimal, put_places, put_signed_decimal, sign_of};
pub use text::{put, put_number};
