//! What workers did.

use gw_jobs::Task;

/// What the workers of a run did, all together.
#[derive(Drop)]
pub struct Totals {
    /// The workers that were started.
    pub workers: u32,
    /// The slices that they made, those included that memory cut short.
    pub slices: u64,
    /// The steps that they gave back.
    pub steps: u128,
    /// The workers that ended for want of memory.
    pub short: u32,
    /// The tasks that the table didn't take back. Each ended its worker.
    pub strays: Vec<Task>,
}
