//! The table: rows, ready list and journal.

ghost use Rattle.std.specs.Prelude.{◌≡◌, ◌+◌, ◌≤◌, ◌<◌, ◌^◌, None, Some, Ok, IfOk, IfErr, OnErr};
ghost use Rattle.gw_service.specs.Rows.{out_of, steps_of};
ghost use Rattle.gw_service.specs.Journal.{new_service, with_event, Submit, Cancel, AllSubmitAccepted};
ghost use Rattle.gw_service.specs.Calls.{new_pass, submit_fault, take_reply, RefusesTake, poll_reply, collect_reply, cancel_fault, fault_in, Refuses};
ghost use Rattle.gw_service.specs.Keeping.{IsKept};
ghost use Rattle.gw_jobs.specs.Passes.{steps_made};
ghost use Rattle.gw_jobs.specs.Answers.{IsCollected, AnswersTake, after_take, CountsTake, reply_to, after_return, ComesBack};

use crate::journal::{StoredEvent, is_full, reserve_more};
use crate::pass::Pass;
use crate::ready::{list_if_ready, next_slot, remove_slot};
use crate::replies::{Reply, Returned};
use crate::row::Row;
use crate::rows::{
    MOST_JOBS, admitted_row, cancel_row, put_back_row, receipt, refusal_of_cancel,
    refusal_of_submit, reply_of, steps_at_take, take_row,
};
use crate::submission::{NewJob, add_row, make_room};
use crate::task::Task;
use gw_object::Memory;
use gw_scan::Spec;
use gw_service::{JobFault, Progress, State};
use std::alloc::Global;
use std::marker::Model;

/// The jobs of many users: their rows, the ready list and the journal, as a service (docs/service.md). Its journal replays
/// to the rows and the ready list, has no event that could not come, and submits no jobs but those of accepted objects; and each
/// row that is ready or ended has the state that its job's lone run has after the row's steps.
#[derive(Drop)]
pub struct Table {
    rows: Vec<Row>,
    ready: Vec<u32>,
    journal: Vec<StoredEvent>,
    out: u32,
    steps: u128,
}

impl Model for Table {
    ghost use Rattle.gw_service.specs.Journal.{Service};
    ghost use Rattle.gw_jobs.specs.Table.{service_of, IsTable};

    ghost Value = { Service };

    ghost view = { service_of };

    ghost invariant = { IsTable };
}

/// A total, one part of which was changed.
fn recounted(total: u128, before: u64, after: u64) -> u128
    requires part { before ≤ total }
    requires range { total < 2 ^ 64 }
    ensures { result + before ≡ total + after }
{
    total - u128::from(before) + u128::from(after)
}

impl Table {
    /// A table without a row. It takes the memory of its ready list.
    pub fn new(alloc: Global) -> Result<Table, Memory>
        ensures { IfOk result (λ table. table ≡ new_service) }
    {
        let ready = Vec::with_capacity(alloc, MOST_JOBS)?;
        Ok(Table {
            rows: Vec::new(alloc),
            ready,
            journal: Vec::new(alloc),
            out: 0,
            steps: 0,
        })
    }

    /// The first refusal of a submit of a user as the table stands, if there is one: `UserFull`, `ServiceFull`, `JournalFull`.
    /// It takes no memory.
    pub fn refusal_of(&self, user: u64) -> Option<JobFault>
        ensures { result ≡ submit_fault user self.now }
    {
        let full = is_full(&self.journal, self.out, 1);
        refusal_of_submit(&self.rows, user, full)
    }

    /// Adds a job of a user, and makes its pass. The job is ready, at the end of the ready list; one that its start already
    /// ended is ended at once. Who holds a lock on the table starts the job without it, and adds it by `add`.
    ///
    /// Refused by the first of `UserFull`, `ServiceFull`, `JournalFull` and `Memory` that applies; then the spec comes back,
    /// and nothing changes.
    pub fn submit(&mut self, alloc: Global, user: u64, spec: Spec) -> Result<Pass, (Spec, JobFault)>
        ensures pass { IfOk result (λ pass. pass ≡ new_pass user spec self.old) }
        ensures free { IfOk result (λ _. submit_fault user self.old ≡ None) }
        ensures event { IfOk result (λ _. self.new ≡ with_event (Submit user spec) self.old) }
        ensures back { IfErr result (λ e. e.0 ≡ spec) }
        ensures refused { IfErr result (λ e. Refuses (submit_fault user self.old) e.1) }
        ensures same { OnErr result (self.new ≡ self.old) }
    {
        if let Some(fault) = self.refusal_of(user) {
            return Err((spec, fault));
        }
        match NewJob::start(alloc, spec) {
            Ok(job) => self.add(user, job),
            Err(spec) => Err((spec, JobFault::Memory)),
        }
    }

    /// Adds a job of a user that was started before, as `submit` does.
    ///
    /// Refused by the first of `UserFull`, `ServiceFull`, `JournalFull` and `Memory` that applies; then its spec comes back,
    /// and nothing changes.
    pub fn add(&mut self, user: u64, job: NewJob) -> Result<Pass, (Spec, JobFault)>
        ensures pass { IfOk result (λ pass. pass ≡ new_pass user job self.old) }
        ensures free { IfOk result (λ _. submit_fault user self.old ≡ None) }
        ensures event { IfOk result (λ _. self.new ≡ with_event (Submit user job) self.old) }
        ensures back { IfErr result (λ e. e.0 ≡ job) }
        ensures refused { IfErr result (λ e. Refuses (submit_fault user self.old) e.1) }
        ensures same { OnErr result (self.new ≡ self.old) }
    {
        if let Some(fault) = self.refusal_of(user) {
            return Err((job.into_spec(), fault));
        }
        if make_room(&mut self.rows, &mut self.ready, &mut self.journal, self.out).is_err() {
            return Err((job.into_spec(), JobFault::Memory));
        }
        let slot = self.rows.len() as u32;
        let spec = add_row(&mut self.rows, user, job);
        self.journal.push_reserved(StoredEvent::Submit);
        list_if_ready(&mut self.ready, &self.rows, slot);
        Ok(Pass::of(user, slot, spec))
    }

    /// Takes the first job of the ready list, with its state, for a worker; none where nothing is ready. The table keeps the
    /// journal place and the memory of its return.
    ///
    /// Where a job is ready, refused by the first of `JournalFull` and `Memory` that applies; then nothing changes.
    pub fn take(&mut self) -> Result<Option<Task>, JobFault>
        ensures task { IfOk result (AnswersTake self.old) }
        ensures event { IfOk result (λ o. self.new ≡ after_take o self.old) }
        ensures books { IfOk result (λ o. CountsTake o self.old self.new) }
        ensures refused { IfErr result (RefusesTake (take_reply self.old)) }
        ensures same { OnErr result (self.new ≡ self.old) }
    {
        let full = is_full(&self.journal, self.out, 2);
        let next = match next_slot(&self.ready, full) {
            Ok(next) => next,
            Err(fault) => return Err(fault),
        };
        let slot = match next {
            Some(slot) => slot,
            None => return Ok(None),
        };
        let out = self.out as usize;
        if reserve_more(&mut self.journal, out + 2).is_err() {
            return Err(JobFault::Memory);
        }
        self.ready.remove(0);
        let sim = take_row(&mut self.rows, slot);
        self.out += 1;
        self.journal.push_reserved(StoredEvent::Take(slot));
        Ok(Some(Task {
            slot,
            sim,
            conclusion: None,
        }))
    }

    /// Takes a task back, and drops it where its job was cancelled. Its row has the task's steps then; it is cancelled, or
    /// ended, or ready at the end of the ready list. It takes no memory.
    ///
    /// The task itself comes back, and nothing changes, where the row in its slot isn't out, has another job, or had more
    /// steps at its take.
    pub fn give_back(&mut self, task: Task) -> Result<Returned, Task>
        ensures told { IfOk result (λ returned. reply_to task self.old ≡ Some returned) }
        ensures event { IfOk result (λ _. self.new ≡ after_return task self.old) }
        ensures books { IfOk result (λ _. ComesBack task.slot (steps_made task) self.old self.new) }
        ensures stray { IfErr result (λ stray. stray ≡ task) }
        ensures refused { IfErr result (λ _. reply_to task self.old ≡ None) }
        ensures same { OnErr result (self.new ≡ self.old) }
    {
        let before = match steps_at_take(&self.rows, &task) {
            Some(before) => before,
            None => return Err(task),
        };
        let slot = task.slot();
        let steps = task.steps();
        put_back_row(&mut self.rows, task);
        self.steps = recounted(self.steps, before, steps);
        self.out -= 1;
        self.journal.push_reserved(StoredEvent::Return(slot, steps));
        list_if_ready(&mut self.ready, &self.rows, slot);
        Ok(receipt(&self.rows, slot))
    }

    /// How far a job has come. A row that was cancelled while it was out is told as cancelled. It takes no memory.
    ///
    /// Refused by the first of `NotYours` and `Stranger` that applies.
    pub fn poll(&self, pass: &Pass) -> Result<Progress, JobFault>
        ensures reply { result ≡ poll_reply pass.now self.now }
    {
        let row = admitted_row(&self.rows, pass)?;
        Ok(Progress {
            state: row.state(),
            steps: row.steps(),
        })
    }

    /// The end, the steps and the report of an ended job. Nothing changes, so it may be collected again.
    ///
    /// Refused by the first of `NotYours`, `Stranger`, `Cancelled`, `NotEnded` and `Memory` that applies.
    pub fn collect(&self, alloc: Global, pass: &Pass) -> Result<Reply, JobFault>
        ensures reply { IfOk result (IsCollected pass.now.job (collect_reply pass.now self.now)) }
        ensures refused { IfErr result (Refuses (fault_in (collect_reply pass.now self.now))) }
    {
        let row = match admitted_row(&self.rows, pass) {
            Ok(row) => row,
            Err(fault) => return Err(fault),
        };
        match row.state() {
            State::Cancelled => Err(JobFault::Cancelled),
            State::Ready | State::Out => Err(JobFault::NotEnded),
            State::Ended => reply_of(alloc, row),
        }
    }

    /// Cancels a job. One that is ready leaves the ready list; one that is out is out still, and its return is taken.
    ///
    /// Refused by the first of `NotYours`, `Stranger`, `Cancelled`, `AlreadyEnded`, `JournalFull` and `Memory` that applies;
    /// then nothing changes.
    pub fn cancel(&mut self, pass: &Pass) -> Result<(), JobFault>
        ensures free { IfOk result (λ _. cancel_fault pass.now self.old ≡ None) }
        ensures event { IfOk result (λ _. self.new ≡ with_event (Cancel pass.now.slot) self.old) }
        ensures refused { IfErr result (Refuses (cancel_fault pass.now self.old)) }
        ensures same { OnErr result (self.new ≡ self.old) }
    {
        let full = is_full(&self.journal, self.out, 1);
        if let Some(fault) = refusal_of_cancel(&self.rows, pass, full) {
            return Err(fault);
        }
        let out = self.out as usize;
        if reserve_more(&mut self.journal, out + 1).is_err() {
            return Err(JobFault::Memory);
        }
        let slot = pass.slot();
        cancel_row(&mut self.rows, slot);
        remove_slot(&mut self.ready, slot);
        self.journal.push_reserved(StoredEvent::Cancel(slot));
        Ok(())
    }

    /// The steps that were given back, of all rows together. They never fall.
    pub fn steps(&self) -> u128
        ensures value { result ≡ steps_of self.now.now.rows }
        // So it is of every table: whatever calls made it, all that sound calls keep is so, and each job is one of an
        // accepted object. So the headline's law speaks of each row.
        ensures kept { IsKept self.now }
        ensures accepted { AllSubmitAccepted self.now.journal }
    {
        self.steps
    }

    /// How many rows are out, cancelled or not.
    pub fn out(&self) -> u32
        ensures { result ≡ out_of self.now.now.rows }
    {
        self.out
    }
}
