//! A row of the table.

ghost use Rattle.std.specs.Prelude.{◌≡◌, ℕ, ◌≤◌, ◌^◌, true, IfOk, IfSome, IfNone};
ghost use Rattle.gw_step.specs.Job.{Job, JobFits};
ghost use Rattle.gw_service.specs.Rows as rows;
ghost use Rattle.gw_service.specs.Calls.{state_for};
ghost use Rattle.gw_jobs.specs.Holding.{standing_of, standing_after, HoldsFor, Concludes};

use crate::conclusion::{Conclusion, conclude};
use gw_object::Memory;
use gw_scan::{Sim, Spec, Status};
use gw_service::State;
use std::alloc::Global;
use std::marker::Model;
use std::mem;

/// How a job stands, and where its state is: the row holds it while the job is ready. Of an ended job it holds what its report
/// says, and the state where memory was wanted for that.
#[derive(Drop)]
pub enum Standing {
    /// It waits to be taken.
    Ready(Sim),
    /// A worker owns its state.
    Out,
    /// A named end stands, in this state.
    Ended(Sim),
    /// A named end stands, and the state went.
    Concluded(Conclusion),
    /// It was cancelled.
    Cancelled,
    /// It was cancelled while it was out, and is out still.
    CancelledOut,
}

/// A job of a user. Contracts see the row of a service; a state that it holds is the one that the job's lone run has after
/// the row's steps, and a conclusion tells that one.
#[derive(Drop)]
pub struct Row {
    user: u64,
    spec: Spec,
    steps: u64,
    standing: Standing,
}

impl Model for Row {
    ghost use Rattle.gw_service.specs.Rows as rows;
    ghost use Rattle.gw_jobs.specs.Holding.{row_of, IsRow};

    ghost Value = { rows.Row };

    ghost view = { row_of };

    ghost invariant = { IsRow };
}

/// How a job stands that has this conclusion; its state is dropped.
fn standing_concluded(sim: Sim, conclusion: Conclusion) -> Standing
    requires { Concludes sim.job sim.state.steps conclusion }
    ensures holds { HoldsFor sim.job sim.state.steps result }
    ensures standing { standing_of result ≡ rows.standing_at sim.job sim.state.steps }
{
    drop(sim);
    Standing::Concluded(conclusion)
}

/// How a job stands that isn't out and wasn't cancelled, with its state: ended where a named end stands, else ready.
fn standing_with(sim: Sim) -> Standing
    ensures holds { HoldsFor sim.job sim.state.steps result }
    ensures standing { standing_of result ≡ rows.standing_at sim.job sim.state.steps }
    ensures fits { JobFits sim.job }
{
    match sim.status() {
        Status::Ended(_) => Standing::Ended(sim),
        Status::Running => Standing::Ready(sim),
    }
}

/// How a job stands that was cancelled, now that its state is back, which is dropped.
fn cancelled(sim: Sim, conclusion: Option<Conclusion>) -> Standing
    ensures { result ≡ Standing.Cancelled }
{
    drop(sim);
    drop(conclusion);
    Standing::Cancelled
}

/// How a job stands that was out and wasn't cancelled, now that its state is back, with its conclusion if that was made.
fn standing_kept(sim: Sim, conclusion: Option<Conclusion>) -> Standing
    requires { IfSome conclusion (Concludes sim.job sim.state.steps) }
    ensures holds { HoldsFor sim.job sim.state.steps result }
    ensures standing { standing_of result ≡ rows.standing_at sim.job sim.state.steps }
{
    match conclusion {
        Some(conclusion) => standing_concluded(sim, conclusion),
        None => standing_with(sim),
    }
}

/// How a job stands that was out, now that its state is back; that of a cancelled one is dropped.
fn standing_back(standing: &Standing, sim: Sim, conclusion: Option<Conclusion>) -> Standing
    requires out { rows.is_out (standing_of standing.now) ≡ true }
    requires concludes { IfSome conclusion (Concludes sim.job sim.state.steps) }
    ensures holds { HoldsFor sim.job sim.state.steps result }
    ensures standing { standing_of result ≡ standing_after sim standing.now }
{
    match standing {
        Standing::CancelledOut => cancelled(sim, conclusion),
        _ => standing_kept(sim, conclusion),
    }
}

/// How a job stands once it was cancelled, where that is another way than before: without its state, or marked while it is out.
fn standing_off(standing: &Standing) -> Option<Standing>
    ensures off { IfSome result (λ s. standing_of s ≡ rows.standing_off (standing_of standing.now)) }
    ensures holds { (j : Job) (n : ℕ) → IfSome result (HoldsFor j n) }
    ensures stays { IfNone result (rows.standing_off (standing_of standing.now) ≡ standing_of standing.now) }
{
    match standing {
        Standing::Ready(_) => Some(Standing::Cancelled),
        Standing::Out => Some(Standing::CancelledOut),
        _ => None,
    }
}

impl Row {
    /// The row of a job that isn't out, with its state: ended where a named end stands, else ready.
    pub fn new(user: u64, spec: Spec, sim: Sim) -> Row
        requires { sim.job ≡ spec }
        ensures user { result.user ≡ user }
        ensures job { result.job ≡ spec }
        ensures steps { result.steps ≡ sim.state.steps }
        ensures standing { result.standing ≡ rows.standing_at spec sim.state.steps }
        ensures fits { JobFits spec }
    {
        let steps = sim.steps();
        let standing = standing_with(sim);
        Row {
            user,
            spec,
            steps,
            standing,
        }
    }

    /// The user whose job it is.
    pub fn user(&self) -> u64
        ensures { result ≡ self.now.user }
    {
        self.user
    }

    /// What the job runs.
    pub fn spec(&self) -> &Spec
        ensures { result.now ≡ self.now.job }
    {
        &self.spec
    }

    /// The steps that were last given back, at most 2^40.
    pub fn steps(&self) -> u64
        ensures value { result ≡ self.now.steps }
        ensures most { result ≤ 2 ^ 40 }
    {
        self.steps
    }

    /// How it stands, as its user is told.
    pub fn state(&self) -> State
        ensures { result ≡ state_for self.now.standing }
    {
        match &self.standing {
            Standing::Ready(_) => State::Ready,
            Standing::Out => State::Out,
            Standing::Ended(_) | Standing::Concluded(_) => State::Ended,
            Standing::Cancelled => State::Cancelled,
            Standing::CancelledOut => State::Cancelled,
        }
    }

    /// Whether it waits to be taken.
    pub fn is_ready(&self) -> bool
        ensures { result ≡ rows.is_ready self.now.standing }
    {
        matches!(self.standing, Standing::Ready(_))
    }

    /// Whether a worker has it, cancelled or not.
    pub fn is_out(&self) -> bool
        ensures { result ≡ rows.is_out self.now.standing }
    {
        matches!(self.standing, Standing::Out | Standing::CancelledOut)
    }

    /// Whether it counts as running: it is ready or out, cancelled or not.
    pub fn is_running(&self) -> bool
        ensures { result ≡ rows.is_running self.now.standing }
    {
        matches!(
            self.standing,
            Standing::Ready(_) | Standing::Out | Standing::CancelledOut
        )
    }

    /// Whether a named end stands.
    pub fn is_ended(&self) -> bool
        ensures { result ≡ rows.is_ended self.now.standing }
    {
        matches!(self.standing, Standing::Ended(_) | Standing::Concluded(_))
    }

    /// Whether it was cancelled, and is out no more.
    pub fn is_cancelled(&self) -> bool
        ensures { result ≡ rows.is_cancelled self.now.standing }
    {
        matches!(self.standing, Standing::Cancelled)
    }

    /// The conclusion of an ended row.
    pub fn conclusion(&self, alloc: Global) -> Result<Conclusion, Memory>
        requires { self.now.standing ≡ rows.Ended }
        ensures { IfOk result (Concludes self.now.job self.now.steps) }
    {
        match &self.standing {
            Standing::Concluded(conclusion) => conclusion.copy(alloc),
            Standing::Ended(sim) => match sim.status() {
                Status::Ended(end) => conclude(alloc, sim, end),
                Status::Running => unreachable!(),
            },
            _ => unreachable!(),
        }
    }

    /// Hands out the state of a row that is ready.
    pub fn take(&mut self) -> Sim
        requires { rows.is_ready self.old.standing ≡ true }
        ensures row { self.new ≡ rows.taken_row self.old }
        ensures job { result.job ≡ self.old.job }
        ensures steps { result.state.steps ≡ self.old.steps }
    {
        match mem::replace(&mut self.standing, Standing::Out) {
            Standing::Ready(sim) => sim,
            _ => unreachable!(),
        }
    }

    /// Takes back the state of a row that is out, with its conclusion if that was made: then the state is dropped, and so is
    /// that of a cancelled job.
    pub fn put_back(&mut self, sim: Sim, conclusion: Option<Conclusion>)
        requires job { sim.job ≡ self.old.job }
        requires out { rows.is_out self.old.standing ≡ true }
        requires concludes { IfSome conclusion (Concludes sim.job sim.state.steps) }
        ensures { self.new ≡ rows.returned_row sim.state.steps self.old }
    {
        let steps = sim.steps();
        let standing = standing_back(&self.standing, sim, conclusion);
        self.steps = steps;
        drop(mem::replace(&mut self.standing, standing));
    }

    /// Cancels it: where it is ready its state is dropped, where it is out it is marked.
    pub fn cancel(&mut self)
        ensures { self.new ≡ rows.cancelled_row self.old }
    {
        if let Some(standing) = standing_off(&self.standing) {
            drop(mem::replace(&mut self.standing, standing));
        }
    }
}
