//! Which rows are asked for.

/// Which rows are asked for of each point.
#[derive(Clone, Copy, PartialEq, Eq)]
pub struct RowsRequest {
    /// The first run.
    pub first: u32,
    /// The run behind the last one, at most 512.
    pub end: u32,
    /// The termination count of each; 0 means the model's own.
    pub count: u64,
    /// How many terminations are counted before the window begins; 0 where it is the whole run.
    pub from: u64,
    /// How many workers make the runs, at most 16; 0 means as many as the machine has processors.
    pub workers: u32,
}
