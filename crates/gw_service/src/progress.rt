//! How far a job has come.

/// How a job stands, as its user is told.
#[derive(Clone, Copy, PartialEq, Eq)]
pub enum State {
    /// It waits to be taken.
    Ready,
    /// A worker has it.
    Out,
    /// A named end stands.
    Ended,
    /// It was cancelled, and perhaps a worker has it still.
    Cancelled,
}

/// How far a job has come.
#[derive(Clone, Copy, PartialEq, Eq)]
pub struct Progress {
    /// How it stands.
    pub state: State,
    /// The steps that were last given back; of a job that was cancelled while it was ready, those that it had.
    pub steps: u64,
}
