//! Replies of a table that is shared.

ghost use Rattle.std.specs.Prelude.{IfOk};
ghost use Rattle.gw_report.specs.Report.{Ends};

use crate::shared::Shared;
use gw_jobs::{JobFault, Pass, Reply};
use std::alloc::Global;
use std::sync::ledger::Ledger;
use std::sync::{Mutex, Wait};

/// The reply to a pass, whose report is that of the final state of the job's lone run.
pub fn reply_to<R: Ledger, S: Ledger, W: Wait>(
    rt: &W,
    alloc: Global,
    table: &Mutex<Shared<R, S>>,
    pass: &Pass,
) -> Result<Reply, JobFault>
    ensures { IfOk result (λ reply. Ends pass.now.job reply.report.items) }
{
    table.lock(rt).collect(alloc, pass)
}
