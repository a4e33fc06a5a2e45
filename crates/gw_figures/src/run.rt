//! What is kept of a run.

use gw_scan::End;

/// A stream from which a run may have drawn more numbers than are its own.
#[derive(Clone, Copy, PartialEq, Eq)]
pub struct Overdraw {
    /// The stream, by its number from 1 to 16.
    pub stream: u8,
    /// At most so many numbers the run drew from it; 2^127 - 1 stands for more.
    pub most: u128,
    /// So many are its own: those before the next stream from which the model draws.
    pub own: u64,
}

/// One run of a study: how it ended, and the value of each figure, in the order of `figures`.
#[derive(Drop)]
pub struct Run {
    /// The named end that stands.
    pub end: End,
    /// The steps made, from the start state on.
    pub steps: u64,
    /// The value of each figure in the window, in millionths, rounded to the nearest; None where nothing can be told.
    pub values: Vec<Option<i128>>,
    /// By how much each average of the window's second half is greater than that of its first, and each content at its end than
    /// halfway, in millionths; None where one can't be told, and of what is neither an average nor a content.
    pub trend: Vec<Option<i128>>,
    /// The streams from which it may have drawn more numbers than are their own, in the order of their numbers.
    pub overdraws: Vec<Overdraw>,
}
