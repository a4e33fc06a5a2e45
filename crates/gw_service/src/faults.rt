//! Why a call is refused.

/// Why a call of a service is refused, each with the code of its refusal (ours: docs/service.md).
#[derive(Clone, Copy, PartialEq, Eq)]
pub enum JobFault {
    /// 60: 16 jobs of the user run already.
    UserFull,
    /// 61: the service has had 1,024 jobs.
    ServiceFull,
    /// 62: the journal has no place left.
    JournalFull,
    /// 63: no memory.
    Memory,
    /// 64: there is no such slot, or it is another user's.
    NotYours,
    /// 65: the job isn't ended.
    NotEnded,
    /// 66: the job was cancelled.
    Cancelled,
    /// 67: the pass is of another job than the slot's.
    Stranger,
    /// 68: the job is ended, and so can't be cancelled.
    AlreadyEnded,
}
