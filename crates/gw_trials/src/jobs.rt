//! The job that is run.

use gw_jobs::Pass;
use gw_object::Memory;
use gw_object_bytes::read;
use gw_pool::Service;
use gw_samples::{QUEUEING, QUEUEING_REPORT};
use gw_scan::Spec;
use gw_verify::verify;
use std::alloc::Global;
use std::sync::Wait;
use std::sync::ledger::Ledger;

/// The spec of the job, which is done after 23 steps.
fn spec(alloc: Global) -> Result<Spec, Memory> {
    let object = read(alloc, QUEUEING).ok().ok_or(Memory)?;
    let verified = verify(alloc, object).ok().ok_or(Memory)?;
    Spec::new(alloc, verified, &[], 0, 1_000_000_000)
        .ok()
        .ok_or(Memory)
}

/// The pass of a new job.
pub(crate) fn new_pass<R: Ledger, S: Ledger, W: Wait>(
    rt: &W,
    alloc: Global,
    service: &Service<R, S>,
) -> Result<Pass, Memory> {
    let submitted = service.table().lock(rt).submit(alloc, 1, spec(alloc)?);
    submitted.ok().ok_or(Memory)
}

/// Whether a job reports what it must; it is asked again where the first answer was refused memory.
pub(crate) fn is_reported<R: Ledger, S: Ledger, W: Wait>(
    rt: &W,
    alloc: Global,
    service: &Service<R, S>,
    pass: &Pass,
) -> bool {
    for _ in 0..2 {
        let reply = service.table().lock(rt).collect(alloc, pass);
        if let Ok(reply) = reply {
            return reply.report.as_slice() == QUEUEING_REPORT;
        }
    }
    false
}
