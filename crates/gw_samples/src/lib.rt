//! What tests of several crates are made of: objects as their bytes, with their reports.
//!
//! It has bytes and texts, and no type of an object, so it stands below whatever it is used to
//! test. Of many comparisons it finds the first that is wrong.
#![tactic(auto)]

mod answers;
mod spellings;

pub use answers::first_wrong;
pub use spellings::{QUEUEING, QUEUEING_REPORT, THREE_BLOCKS, THREE_BLOCKS_REPORT};
