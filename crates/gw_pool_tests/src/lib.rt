//! The tests of jobs, the job table, shares, the board and workers, and of an answer that can't be
//! flushed.
//!
//! They are worked examples, and threads that publish and read side by side. What models do is in
//! the cases (docs/cases.md).
#![tactic(auto)]

#[cfg(test)]
mod tests;
