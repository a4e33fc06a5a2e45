//! Records of CSV: fields with commas between them, and quotes round what needs them.
//!
//! It promises that each call puts its record behind what is there. It knows of nothing that is
//! told: what the fields are is said by the crates above.
#![tactic(auto)]

mod record;

pub use record::{put_line, put_record};
