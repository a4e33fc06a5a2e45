//! Why workers aren't run.

/// Why a service runs no workers, each with the code of its refusal (ours: docs/service.md).
#[derive(Clone, Copy, PartialEq, Eq)]
pub enum PoolFault {
    /// 55: no worker, or more than 16.
    Workers,
    /// 56: slices of 0 steps, or of more than 2^20.
    Slice,
    /// 57: no worker could be started.
    Spawn,
    /// 63: no memory.
    Memory,
}
