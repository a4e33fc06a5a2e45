//! A job table with the books of two ledgers.

ghost use Rattle.std.specs.Prelude.{◌≡◌, ◌+◌, ◌≤◌, ◌<◌, ◌^◌, None, Some, Ok, IfOk, IfErr, OnErr};
ghost use Rattle.gw_service.specs.Rows.{out_of, steps_of};
ghost use Rattle.gw_service.specs.Journal.{new_service, with_event, Submit, Cancel, AllSubmitAccepted};
ghost use Rattle.gw_service.specs.Calls.{most_jobs, new_pass, submit_fault, take_reply, RefusesTake, poll_reply, collect_reply, cancel_fault, fault_in, Refuses};
ghost use Rattle.gw_service.specs.Keeping.{IsKept};
ghost use Rattle.gw_jobs.specs.Passes.{steps_made};
ghost use Rattle.gw_jobs.specs.Answers.{IsCollected, AnswersTake, after_take, CountsTake, reply_to, after_return, ComesBack};
ghost use Rattle.gw_pool.specs.Shares.{all_parts, AreWhole, share_of, Follows, IsPartOf};

use crate::share::Share;
use gw_jobs::{JobFault, NewJob, Pass, Progress, Reply, Returned, Table, Task};
use gw_object::Memory;
use gw_scan::Spec;
use std::alloc::Global;
use std::marker::Model;
use std::sync::ledger::{Blank, Book, Ledger};

/// A table (docs/service.md) whose rows that are out, and whose steps that were given back, are the totals of two books. Each
/// thread takes and gives back with a share of these books, so that what all of them count is what the table does.
#[derive(Drop)]
pub struct Shared<R: Ledger, S: Ledger> {
    table: Table,
    rows: Book<R>,
    steps: Book<S>,
}

impl<R: Ledger, S: Ledger> Model for Shared<R, S> {
    ghost use Rattle.gw_service.specs.Journal.{Service};
    ghost use Rattle.gw_pool.specs.Shares.{AreWhole, IsBooked};

    ghost Value = { Service };

    ghost view = { λ s. s.table };

    ghost invariant = { λ s. IsBooked s.rows.total s.steps.total s.table × AreWhole R.parts S.parts };
}

/// By how much a total rose.
fn rise(before: u128, after: u128) -> u64
    requires rise { before ≤ after }
    requires most { after < 2 ^ 64 }
    ensures { result + before ≡ after }
{
    (after - before) as u64
}

/// A shared table without a row, on which each of two ledgers that are named by the type parameters is opened, and the share
/// of all their parts. Want of memory drops the blanks.
pub fn new_shared<R: Ledger, S: Ledger>(
    alloc: Global,
    rows: Blank,
    steps: Blank,
) -> Result<(Shared<R, S>, Share<R, S>), Memory>
    requires names { (rows.name ≡ R.name) × (steps.name ≡ S.name) }
    requires parts { (rows.parts ≡ R.parts) × (steps.parts ≡ S.parts) }
    requires whole { AreWhole rows.parts steps.parts }
    ensures table { IfOk result (λ r. r.0 ≡ new_service) }
    ensures share { IfOk result (λ r. r.1 ≡ share_of all_parts 0 0) }
{
    let table = Table::new(alloc)?;
    let (rows, row_mark) = rows.open::<R>();
    let (steps, step_mark) = steps.open::<S>();
    let share = Share::new(row_mark, step_mark);
    Ok((Shared { table, rows, steps }, share))
}

impl<R: Ledger, S: Ledger> Shared<R, S> {
    /// The first refusal of a submit of a user as the table stands, if there is one: `UserFull`, `ServiceFull`, `JournalFull`.
    /// It takes no memory.
    pub fn refusal_of(&self, user: u64) -> Option<JobFault>
        ensures { result ≡ submit_fault user self.now }
    {
        self.table.refusal_of(user)
    }

    /// Adds a job of a user, and makes its pass. The job is ready, at the end of the ready list; one that its start already
    /// ended is ended at once. It starts the job: who holds a lock that others wait for starts it without (`gw_pool::submit`).
    ///
    /// Refused by the first of `UserFull`, `ServiceFull`, `JournalFull` and `Memory` that applies; then the spec comes back,
    /// and nothing changes.
    pub fn submit(&mut self, alloc: Global, user: u64, spec: Spec) -> Result<Pass, (Spec, JobFault)>
        ensures pass { IfOk result (λ pass. pass ≡ new_pass user spec self.old) }
        ensures free { IfOk result (λ _. submit_fault user self.old ≡ None) }
        ensures event { IfOk result (λ _. self.new ≡ with_event (Submit user spec) self.old) }
        ensures back { IfErr result (λ e. e.0 ≡ spec) }
        ensures refused { IfErr result (λ e. Refuses (submit_fault user self.old) e.1) }
        ensures same { OnErr result (self.new ≡ self.old) }
    {
        self.table.submit(alloc, user, spec)
    }

    /// Adds a job of a user that was started before, as `submit` does.
    ///
    /// Refused by the first of `UserFull`, `ServiceFull`, `JournalFull` and `Memory` that applies; then its spec comes back,
    /// and nothing changes.
    pub fn add(&mut self, user: u64, job: NewJob) -> Result<Pass, (Spec, JobFault)>
        ensures pass { IfOk result (λ pass. pass ≡ new_pass user job self.old) }
        ensures free { IfOk result (λ _. submit_fault user self.old ≡ None) }
        ensures event { IfOk result (λ _. self.new ≡ with_event (Submit user job) self.old) }
        ensures back { IfErr result (λ e. e.0 ≡ job) }
        ensures refused { IfErr result (λ e. Refuses (submit_fault user self.old) e.1) }
        ensures same { OnErr result (self.new ≡ self.old) }
    {
        self.table.add(user, job)
    }

    /// Takes the first job of the ready list, with its state, for a worker; none where nothing is ready. The table keeps the
    /// journal place and the memory of its return.
    ///
    /// Where a job is ready, refused by the first of `JournalFull` and `Memory` that applies; then nothing changes.
    ///
    /// The share, which has a part, changes as the table does: where a job is taken it counts one row more.
    pub fn take_as(&mut self, share: &mut Share<R, S>) -> Result<Option<Task>, JobFault>
        requires { 0 < share.old.parts }
        ensures task { IfOk result (AnswersTake self.old) }
        ensures event { IfOk result (λ o. self.new ≡ after_take o self.old) }
        ensures books { IfOk result (λ o. CountsTake o self.old self.new) }
        ensures refused { IfErr result (RefusesTake (take_reply self.old)) }
        ensures same { OnErr result (self.new ≡ self.old) }
        ensures share { Follows self.old self.new share.old share.new }
    {
        match self.table.take()? {
            Some(task) => {
                let out = self.table.out();
                share.count_taken(&mut self.rows, out);
                Ok(Some(task))
            }
            None => Ok(None),
        }
    }

    /// Takes a task back, and drops it where its job was cancelled. Its row has the task's steps then; it is cancelled, or
    /// ended, or ready at the end of the ready list. It takes no memory.
    ///
    /// The task itself comes back, and nothing changes, where the row in its slot isn't out, has another job, or had more
    /// steps at its take.
    ///
    /// The share, which has a part and counts a row, changes as the table does: where the task is taken back it counts one
    /// row fewer, and the steps that were made since the take.
    #[tactic(auto, using(crate::proofs::Booked::few_steps))]
    pub fn give_back_as(&mut self, task: Task, share: &mut Share<R, S>) -> Result<Returned, Task>
        requires parts { 0 < share.old.parts }
        requires rows { 1 ≤ share.old.rows }
        ensures told { IfOk result (λ returned. reply_to task self.old ≡ Some returned) }
        ensures event { IfOk result (λ _. self.new ≡ after_return task self.old) }
        ensures books { IfOk result (λ _. ComesBack task.slot (steps_made task) self.old self.new) }
        ensures stray { IfErr result (λ stray. stray ≡ task) }
        ensures refused { IfErr result (λ _. reply_to task self.old ≡ None) }
        ensures same { OnErr result (self.new ≡ self.old) }
        ensures share { Follows self.old self.new share.old share.new }
    {
        let before = self.table.steps();
        let returned = match self.table.give_back(task) {
            Ok(returned) => returned,
            Err(task) => return Err(task),
        };
        let more = rise(before, self.table.steps());
        share.count_returned(&mut self.rows);
        share.count_steps(&mut self.steps, more);
        Ok(returned)
    }

    /// How far a job has come. A row that was cancelled while it was out is told as cancelled. It takes no memory.
    ///
    /// Refused by the first of `NotYours` and `Stranger` that applies.
    pub fn poll(&self, pass: &Pass) -> Result<Progress, JobFault>
        ensures reply { result ≡ poll_reply pass.now self.now }
    {
        self.table.poll(pass)
    }

    /// The end, the steps and the report of an ended job. Nothing changes, so it may be collected again.
    ///
    /// Refused by the first of `NotYours`, `Stranger`, `Cancelled`, `NotEnded` and `Memory` that applies.
    pub fn collect(&self, alloc: Global, pass: &Pass) -> Result<Reply, JobFault>
        ensures reply { IfOk result (IsCollected pass.now.job (collect_reply pass.now self.now)) }
        ensures refused { IfErr result (Refuses (fault_in (collect_reply pass.now self.now))) }
    {
        self.table.collect(alloc, pass)
    }

    /// Cancels a job. One that is ready leaves the ready list; one that is out is out still, and its return is taken.
    ///
    /// Refused by the first of `NotYours`, `Stranger`, `Cancelled`, `AlreadyEnded`, `JournalFull` and `Memory` that applies;
    /// then nothing changes.
    pub fn cancel(&mut self, pass: &Pass) -> Result<(), JobFault>
        ensures free { IfOk result (λ _. cancel_fault pass.now self.old ≡ None) }
        ensures event { IfOk result (λ _. self.new ≡ with_event (Cancel pass.now.slot) self.old) }
        ensures refused { IfErr result (Refuses (cancel_fault pass.now self.old)) }
        ensures same { OnErr result (self.new ≡ self.old) }
    {
        self.table.cancel(pass)
    }

    /// The steps that were given back, of all rows together. They never fall.
    pub fn steps(&self) -> u128
        ensures value { result ≡ steps_of self.now.now.rows }
        // So it is of every table: whatever calls made it, all that sound calls keep is so, and each job is one of an
        // accepted object. So the headline's law speaks of each row.
        ensures kept { IsKept self.now }
        ensures accepted { AllSubmitAccepted self.now.journal }
    {
        self.table.steps()
    }

    /// How many rows are out, cancelled or not.
    pub fn out(&self) -> u32
        ensures { result ≡ out_of self.now.now.rows }
    {
        self.table.out()
    }

    /// The steps that were given back, and how many rows are out: a share counts no more than these, and the share that has
    /// every part counts just these. It takes no memory.
    pub fn audit(&mut self, share: &mut Share<R, S>) -> (u128, u32)
        ensures steps { result.0 ≡ steps_of self.old.now.rows }
        ensures out { result.1 ≡ out_of self.old.now.rows }
        ensures part { IsPartOf self.old share.old }
        ensures few_steps { result.0 ≤ 2 ^ 50 }
        ensures few_rows { result.1 ≤ most_jobs }
        ensures table { self.new ≡ self.old }
        ensures share { share.new ≡ share.old }
    {
        share.compare(&mut self.rows, &mut self.steps);
        let steps = self.table.steps();
        let out = self.table.out();
        (steps, out)
    }
}
