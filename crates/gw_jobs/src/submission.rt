//! What a submit needs: the job at its start, and room for its row.

ghost use Rattle.std.specs.Prelude.{◌≡◌, ◌+◌, ◌≤◌, ◌<◌, ◌∷◌, ◌++◌, [], vec_len, vec_capacity, IfOk, IfErr};
ghost use Rattle.gw_step.specs.Job.{JobFits};
ghost use Rattle.gw_service.specs.Rows.{new_row};
ghost use Rattle.gw_service.specs.Journal.{HasState};

use crate::journal::{StoredEvent, reserve_more};
use crate::row::Row;
use gw_scan::{Sim, Spec};
use gw_service::JobFault;
use std::alloc::Global;
use std::marker::Model;

/// A job at its start, which a table may take in (`Table::add`). Contracts see what it runs.
#[derive(Drop)]
pub struct NewJob {
    row_spec: Spec,
    pass_spec: Spec,
    sim: Sim,
}

impl Model for NewJob {
    ghost use Rattle.gw_step.specs.Job.{Job};
    ghost use Rattle.gw_jobs.specs.Starting.{job_of, IsAtStart};

    ghost Value = { Job };

    ghost view = { job_of };

    ghost invariant = { IsAtStart };
}

impl NewJob {
    /// The job of a spec at its start. It needs no table and no lock, and may take long: what GENERATE blocks ask for at the
    /// start is computed here. Where memory runs out the spec comes back.
    pub fn start(alloc: Global, spec: Spec) -> Result<NewJob, Spec>
        ensures job { IfOk result (λ job. job ≡ spec) }
        ensures back { IfErr result (λ back. back ≡ spec) }
    {
        let row_spec = match spec.share() {
            Ok(shared) => shared,
            Err(_) => return Err(spec),
        };
        let pass_spec = match spec.share() {
            Ok(shared) => shared,
            Err(_) => {
                drop(row_spec);
                return Err(spec);
            }
        };
        match Sim::start(alloc, spec) {
            Ok(sim) => Ok(NewJob {
                row_spec,
                pass_spec,
                sim,
            }),
            Err((spec, _)) => {
                drop(row_spec);
                drop(pass_spec);
                Err(spec)
            }
        }
    }

    /// What it runs; its state is let go.
    pub fn into_spec(self) -> Spec
        ensures { result ≡ self }
    {
        let NewJob {
            row_spec,
            pass_spec,
            sim,
        } = self;
        drop(sim);
        drop(row_spec);
        pass_spec
    }
}

/// How many rows there is room for at once.
const ROWS_AT_ONCE: usize = 16;

/// Makes room for one row more. Rows are large, so there is room for a few at once, and not for twice as many.
fn reserve_row(rows: &mut Vec<Row>) -> Result<(), JobFault>
    ensures room { IfOk result (λ _. vec_len rows.new < vec_capacity rows.new) }
    ensures same { rows.new.items ≡ rows.old.items }
    ensures len { vec_len rows.new ≡ vec_len rows.old }
{
    if rows.len() < rows.capacity() {
        return Ok(());
    }
    match rows.reserve_exact(ROWS_AT_ONCE) {
        Ok(()) => Ok(()),
        Err(_) => Err(JobFault::Memory),
    }
}

/// Makes room for one row more, beside the returns of the rows that are out. Nothing else changes.
pub fn make_room(
    rows: &mut Vec<Row>,
    ready: &mut Vec<u32>,
    journal: &mut Vec<StoredEvent>,
    out: u32,
) -> Result<(), JobFault>
    requires { out ≤ 1024 }
    ensures rows { rows.new.items ≡ rows.old.items }
    ensures ready { ready.new.items ≡ ready.old.items }
    ensures journal { journal.new.items ≡ journal.old.items }
    ensures rows_len { vec_len rows.new ≡ vec_len rows.old }
    ensures ready_len { vec_len ready.new ≡ vec_len ready.old }
    ensures journal_len { vec_len journal.new ≡ vec_len journal.old }
    ensures ready_kept { vec_capacity ready.old ≤ vec_capacity ready.new }
    ensures journal_kept { vec_capacity journal.old ≤ vec_capacity journal.new }
    ensures rows_room { IfOk result (λ _. vec_len rows.new < vec_capacity rows.new) }
    ensures ready_room { IfOk result (λ _. vec_len ready.new + out < vec_capacity ready.new) }
    ensures journal_room { IfOk result (λ _. vec_len journal.new + out < vec_capacity journal.new) }
{
    let more = out as usize + 1;
    reserve_more(journal, more)?;
    reserve_more(ready, more)?;
    reserve_row(rows)
}

/// Puts a new row at the end, whose job is one of an accepted object and has a start, and answers the spec for its pass.
pub fn add_row(rows: &mut Vec<Row>, user: u64, job: NewJob) -> Spec
    requires room { vec_len rows.old < vec_capacity rows.old }
    ensures spec { result ≡ job }
    ensures rows { rows.new.items ≡ rows.old.items ++ (new_row user job ∷ []) }
    ensures starts { HasState job 0 }
    ensures fits { JobFits job }
    ensures len { vec_len rows.new ≡ vec_len rows.old + 1 }
{
    let NewJob {
        row_spec,
        pass_spec,
        sim,
    } = job;
    rows.push_reserved(Row::new(user, row_spec, sim));
    pass_spec
}
