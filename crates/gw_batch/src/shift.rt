//! How the workers of a batch are to work.

/// How the workers of a batch are to work, and whether they are watched.
#[derive(Clone, Copy, PartialEq, Eq)]
pub struct Shift {
    /// How many workers there are.
    pub workers: u32,
    /// How many steps a slice of a worker has.
    pub slice: u32,
    /// Whether lines on standard error tell how far the batch is.
    pub is_watched: bool,
}
