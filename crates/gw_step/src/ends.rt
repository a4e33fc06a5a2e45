//! How a job ends.

/// The named ends of a job. All but `Done` and `Budget` leave the state as it was before the step that brought them, but
/// for the count of steps and the end (ours: docs/machine.md).
#[derive(Clone, Copy, PartialEq, Eq)]
pub enum End {
    /// The termination count is 0 or less after a TERMINATE, whose effect stands.
    Done,
    /// A value can't be held by an i64: a drawn time, its least value or its range, the clock and a time, or the sum of a table.
    /// Also where half the range of a time is below 0, where a TERMINATE would raise the termination count, and where a
    /// PRIORITY's value can't be held by an i32.
    Number,
    /// A division by 0.
    ZeroDivisor,
    /// A drawn time is below 0.
    NegativeTime,
    /// A loop of PLUS code went round more often than it may.
    LoopLimit,
    /// Nobody is active, and both events chains are empty.
    NoMoreEvents,
    /// The steps are as many as the budget; the effect of the last stands.
    Budget,
    /// One more transaction, or all the copies of a SPLIT, would be more than 65,536 live ones, scheduled arrivals included.
    Live,
}
