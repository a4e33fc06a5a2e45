//! Submits to a table that is shared, without its lock where they take long.

ghost use Rattle.std.specs.Prelude.{◌≡◌, IfOk, IfErr};
ghost use Rattle.gw_pool.specs.Submits.{IsPassFor, MayRefuse};

use crate::shared::Shared;
use gw_jobs::{JobFault, NewJob, Pass};
use gw_scan::Spec;
use std::alloc::Global;
use std::sync::ledger::Ledger;
use std::sync::{Mutex, Wait};

/// Submits a job of a user: what refuses it as the table stands is told first, under the lock; then the job is started, which
/// may take long, and nobody waits for it; then it is added, under the lock again. So a start that takes hours holds up nobody.
///
/// Refused by the first of `UserFull`, `ServiceFull`, `JournalFull` and `Memory` that applies when the lock is held; then the
/// spec comes back, and the table is as it was.
pub fn submit<R: Ledger, S: Ledger, W: Wait>(
    rt: &W,
    alloc: Global,
    table: &Mutex<Shared<R, S>>,
    user: u64,
    spec: Spec,
) -> Result<Pass, (Spec, JobFault)>
    ensures pass { IfOk result (IsPassFor user spec) }
    ensures back { IfErr result (λ e. e.0 ≡ spec) }
    ensures refused { IfErr result (λ e. MayRefuse user e.1) }
{
    let refusal = table.lock(rt).refusal_of(user);
    if let Some(fault) = refusal {
        return Err((spec, fault));
    }
    match NewJob::start(alloc, spec) {
        Ok(job) => table.lock(rt).add(user, job),
        Err(spec) => Err((spec, JobFault::Memory)),
    }
}
