//! How the evaluation of a procedure ends.

/// How an evaluation ends where it has no value; it ends the job. (Ours: docs/plus-code.md.)
#[derive(Clone, Copy, PartialEq, Eq)]
pub enum PlusEnd {
    /// A value leaves the range of an `i64`, or there is none.
    Number,
    /// A divisor is 0.
    ZeroDivisor,
    /// A jump back was taken as often as it may be, and comes again.
    LoopLimit,
}
