//! What is kept of a job that has ended.

ghost use Rattle.std.specs.Prelude.{◌≡◌, Some, IfOk};
ghost use Rattle.gw_step.specs.Job.{IsReached};
ghost use Rattle.gw_jobs.specs.Holding.{Concludes};

use gw_object::Memory;
use gw_report::report;
use gw_scan::{End, Sim};
use std::alloc::Global;

/// What is kept of a job that has ended: its named end, and the report of its final state. The state itself may go, with its
/// chains, its transactions and their parameters.
#[derive(Drop)]
pub struct Conclusion {
    /// The named end that stands.
    pub end: End,
    /// The report of the final state (docs/report.md).
    pub report: Vec<u8>,
}

impl Conclusion {
    /// Another that says the same.
    pub fn copy(&self, alloc: Global) -> Result<Conclusion, Memory>
        ensures end { IfOk result (λ c. c.end ≡ self.now.end) }
        ensures report { IfOk result (λ c. c.report.items ≡ self.now.report.items) }
    {
        let report = Vec::from_slice(alloc, &self.report)?;
        Ok(Conclusion {
            end: self.end,
            report,
        })
    }
}

/// The conclusion of a job in which this end stands.
pub fn conclude(alloc: Global, sim: &Sim, end: End) -> Result<Conclusion, Memory>
    requires reached { IsReached sim.now }
    requires ended { sim.now.state.ended ≡ Some end }
    ensures { IfOk result (Concludes sim.now.job sim.now.state.steps) }
{
    let report = report(alloc, sim)?;
    Ok(Conclusion { end, report })
}
