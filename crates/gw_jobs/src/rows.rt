//! The rows of the table, by slot.

ghost use Rattle.std.specs.Prelude.{◌≡◌, ◌≤◌, if◌then◌else◌, ◌∷◌, [], Some, Ok, Err, IfOk, IfErr, IsSome, length, vec_len};
ghost use Rattle.std.specs.List.{slice_get, filter};
ghost use Rattle.gw_service.specs.Rows.{Ended, change_row, taken_row, cancelled_row};
ghost use Rattle.gw_service.specs.Journal.{slot_if_ready};
ghost use Rattle.gw_service.specs.Calls.{most_jobs, row_in, submit_refusal, cancel_refusal};
ghost use Rattle.gw_service.specs.Keeping.{counts_ready};
ghost use Rattle.gw_jobs.specs.Running.{runs_for};
ghost use Rattle.gw_jobs.specs.Answers.{IsReplyOf, IsStateIn, IsOutWith, AnswersFit, rows_back, IsReceiptOf};

use crate::conclusion::Conclusion;
use crate::pass::Pass;
use crate::replies::{Reply, Returned};
use crate::row::Row;
use crate::task::Task;
use gw_scan::Sim;
use gw_service::{JobFault, State};
use std::alloc::Global;

/// The most jobs of a service in its life.
pub const MOST_JOBS: usize = 1024;

/// The most jobs of a user that run at once.
const MOST_RUNNING: usize = 16;

// READING

/// The row of a pass: `NotYours` where its slot has none of that user, `Stranger` where that has another job.
pub fn admitted_row<'a>(rows: &'a [Row], pass: &Pass) -> Result<&'a Row, JobFault>
    ensures ok { IfOk result (λ row. row_in pass.now rows.now ≡ Ok row.now) }
    ensures job { IfOk result (λ row. row.now.job ≡ pass.now.job) }
    ensures err { IfErr result (λ fault. row_in pass.now rows.now ≡ Err fault) }
{
    let row = match rows.get(pass.slot() as usize) {
        Some(row) => row,
        None => return Err(JobFault::NotYours),
    };
    if row.user() != pass.user() {
        return Err(JobFault::NotYours);
    }
    if row.spec() == pass.spec() {
        Ok(row)
    } else {
        Err(JobFault::Stranger)
    }
}

/// How many jobs of a user run.
fn running_of(rows: &[Row], user: u64) -> usize
    ensures { result ≡ length (filter (runs_for user) rows.now) }
{
    rows.iter()
        .filter(|row| row.user() == user && row.is_running())
        .count()
}

/// Whether the row in a slot is ready.
pub fn is_ready_row(rows: &[Row], slot: u32) -> bool
    ensures { slot_if_ready slot (slice_get rows.now slot) ≡ if result then (slot ∷ []) else [] }
{
    match rows.get(slot as usize) {
        Some(row) => row.is_ready(),
        None => false,
    }
}

/// The steps at the take of the row that a task fits, if it fits one: the row in its slot is out, has its job, and had no
/// more steps.
pub fn steps_at_take(rows: &[Row], task: &Task) -> Option<u64>
    ensures { AnswersFit task.now (slice_get rows.now task.now.slot) result }
{
    let row = match rows.get(task.slot() as usize) {
        Some(row) => row,
        None => return None,
    };
    if row.is_out() && row.spec() == task.spec() && row.steps() <= task.steps() {
        return Some(row.steps());
    }
    None
}

// REFUSALS

/// The first refusal of a submit, if there is one: `UserFull`, `ServiceFull`, `JournalFull`.
#[tactic(auto, using(crate::proofs::Kept::running_twice))]
pub fn refusal_of_submit(rows: &[Row], user: u64, full: bool) -> Option<JobFault>
    ensures { result ≡ submit_refusal user rows.now full }
{
    if running_of(rows, user) >= MOST_RUNNING {
        return Some(JobFault::UserFull);
    }
    if rows.len() >= MOST_JOBS {
        return Some(JobFault::ServiceFull);
    }
    if full {
        return Some(JobFault::JournalFull);
    }
    None
}

/// The first refusal of a cancel, if there is one: `NotYours`, `Stranger`, `Cancelled`, `AlreadyEnded`, `JournalFull`.
pub fn refusal_of_cancel(rows: &[Row], pass: &Pass, full: bool) -> Option<JobFault>
    ensures { result ≡ cancel_refusal pass.now rows.now full }
{
    let row = match admitted_row(rows, pass) {
        Ok(row) => row,
        Err(fault) => return Some(fault),
    };
    match row.state() {
        State::Cancelled => return Some(JobFault::Cancelled),
        State::Ended => return Some(JobFault::AlreadyEnded),
        State::Ready | State::Out => {}
    }
    if full {
        return Some(JobFault::JournalFull);
    }
    None
}

// REPLIES

/// The reply of a row that is ended. Only want of memory refuses it, as `Memory`.
pub fn reply_of(alloc: Global, row: &Row) -> Result<Reply, JobFault>
    requires { row.now.standing ≡ Ended }
    ensures reply { IfOk result (IsReplyOf row.now.job row.now.steps) }
    ensures err { IfErr result (λ fault. fault ≡ JobFault.Memory) }
{
    let spec = match row.spec().share() {
        Ok(spec) => spec,
        Err(_) => return Err(JobFault::Memory),
    };
    let Conclusion { end, report } = match row.conclusion(alloc) {
        Ok(conclusion) => conclusion,
        Err(_) => {
            drop(spec);
            return Err(JobFault::Memory);
        }
    };
    Ok(Reply {
        spec,
        steps: row.steps(),
        end,
        report,
    })
}

/// What is told of a row that came back.
pub fn receipt(rows: &[Row], slot: u32) -> Returned
    requires row { IsSome (slice_get rows.now slot) }
    requires few { length rows.now ≤ most_jobs }
    ensures { IsReceiptOf slot result (slice_get rows.now slot) }
{
    let row = &rows[slot as usize];
    Returned {
        slot,
        user: row.user(),
        steps: row.steps(),
        ended: row.is_ended(),
        cancelled: row.is_cancelled(),
    }
}

// CHANGES

/// Hands out the state of a row that is ready.
pub fn take_row(rows: &mut Vec<Row>, slot: u32) -> Sim
    requires { counts_ready (slice_get rows.old.items slot) ≡ 1 }
    ensures rows { rows.new.items ≡ change_row slot taken_row rows.old.items }
    ensures len { vec_len rows.new ≡ vec_len rows.old }
    ensures sim { IsStateIn result (slice_get rows.old.items slot) }
{
    rows[slot as usize].take()
}

/// Takes a task's state back into its row, which is out.
pub fn put_back_row(rows: &mut Vec<Row>, task: Task)
    requires { IsOutWith task.sim.job (slice_get rows.old.items task.slot) }
    ensures rows { rows.new.items ≡ rows_back task rows.old.items }
    ensures len { vec_len rows.new ≡ vec_len rows.old }
{
    let Task {
        slot,
        sim,
        conclusion,
    } = task;
    rows[slot as usize].put_back(sim, conclusion);
}

/// Cancels a row.
pub fn cancel_row(rows: &mut Vec<Row>, slot: u32)
    requires { IsSome (slice_get rows.old.items slot) }
    ensures rows { rows.new.items ≡ change_row slot cancelled_row rows.old.items }
    ensures len { vec_len rows.new ≡ vec_len rows.old }
{
    rows[slot as usize].cancel();
}
