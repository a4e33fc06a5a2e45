//! One worker: it takes tasks, makes a slice of each, and gives them back.

ghost use Rattle.std.specs.Prelude.{◌≡◌, ◌+◌, ◌≤◌, ◌<◌, Ok, IfOk, IfErr, OnOk, OnErr, MatchOption};
ghost use Rattle.gw_pool.specs.Board.{IsRaised};
ghost use Rattle.gw_pool.specs.Shares.{share_of};
ghost use Rattle.gw_pool.specs.Workers.{started_in, strays_in, most_steps, IsOutcome};

use crate::board::Seat;
use crate::gate::Gate;
use crate::service::Service;
use crate::share::Share;
use crate::shared::Shared;
use gw_jobs::{JobFault, Returned, Task};
use std::alloc::Global;
use std::sync::Wait;
use std::sync::ledger::Ledger;

/// How a worker ended.
#[derive(Drop)]
pub(crate) enum Ending {
    /// It wasn't started: no thread could be made.
    NotStarted,
    /// Nothing was ready, or the journal was full.
    Finished,
    /// Memory was refused.
    Short,
    /// The table didn't take this task back.
    Stray(Task),
}

/// What a worker leaves.
#[derive(Drop)]
pub(crate) struct Outcome<R: Ledger, S: Ledger> {
    /// Its part, with what it counts.
    pub(crate) share: Share<R, S>,
    /// The slices that it made.
    pub(crate) slices: u64,
    /// How it ended.
    pub(crate) ending: Ending,
}

/// Takes the task that is next, or tells how the worker ends that gets none.
fn next_task<R: Ledger, S: Ledger>(
    table: &mut Shared<R, S>,
    share: &mut Share<R, S>,
) -> Result<Task, Ending>
    requires { 0 < share.old.parts }
    ensures parts { share.new.parts ≡ share.old.parts }
    ensures steps { share.new.steps ≡ share.old.steps }
    ensures task { OnOk result (share.new.rows ≡ share.old.rows + 1) }
    ensures none { OnErr result (share.new.rows ≡ share.old.rows) }
    ensures ending { IfErr result (λ e. (started_in e ≡ 1) × (strays_in e ≡ 0)) }
{
    match table.take_as(share) {
        Ok(taken) => match taken {
            Some(task) => Ok(task),
            None => Err(Ending::Finished),
        },
        Err(fault) => match fault {
            JobFault::Memory => Err(Ending::Short),
            _ => Err(Ending::Finished),
        },
    }
}

/// Gives a task back, and sees how much the share counts.
fn give_back<R: Ledger, S: Ledger>(
    table: &mut Shared<R, S>,
    task: Task,
    share: &mut Share<R, S>,
) -> Result<Returned, Task>
    requires parts { 0 < share.old.parts }
    requires rows { 1 ≤ share.old.rows }
    ensures parts { share.new.parts ≡ share.old.parts }
    ensures steps { share.new.steps ≤ most_steps }
    ensures back { OnOk result (share.new.rows + 1 ≡ share.old.rows) }
    ensures stray { OnErr result (share.new.rows ≡ share.old.rows) }
{
    let back = table.give_back_as(task, share);
    table.audit(share);
    back
}

/// Gives a task back under the lock, and publishes its steps.
fn publish_return<R: Ledger, S: Ledger, W: Wait>(
    rt: &W,
    service: &Service<R, S>,
    task: Task,
    share: &mut Share<R, S>,
    seat: &mut Seat,
) -> Result<Returned, Task>
    requires parts { 0 < share.old.parts }
    requires rows { 1 ≤ share.old.rows }
    requires seat { seat.old.board ≡ service.now }
    ensures parts { share.new.parts ≡ share.old.parts }
    ensures steps { share.new.steps ≤ most_steps }
    ensures back { OnOk result (share.new.rows + 1 ≡ share.old.rows) }
    ensures stray { OnErr result (share.new.rows ≡ share.old.rows) }
    ensures board { seat.new.board ≡ seat.old.board }
    ensures published { IfOk result (λ r. IsRaised r.slot r.steps seat.old.view seat.new.view) }
{
    let back = give_back(&mut service.table().lock(rt), task, share);
    match back {
        Ok(returned) => {
            service.board().publish(seat, &returned);
            Ok(returned)
        }
        Err(task) => Err(task),
    }
}

/// Makes a slice of the task that is next, and its report if it has ended then: none where the worker goes on, else how it
/// ends. Where memory is wanted for the report alone, the task is given back without it.
fn round<R: Ledger, S: Ledger, G: Gate, W: Wait>(
    rt: &W,
    alloc: Global,
    service: &Service<R, S>,
    gate: &G,
    slice: u32,
    worker: u32,
    share: &mut Share<R, S>,
    seat: &mut Seat,
    slices: &mut u64,
) -> Option<Ending>
    requires parts { share.old.parts ≡ 1 }
    requires rows { share.old.rows ≡ 0 }
    requires steps { share.old.steps ≤ most_steps }
    requires seat { seat.old.board ≡ service.now }
    ensures left { MatchOption result (IsOutcome share.new Ending.Finished) (IsOutcome share.new) }
    ensures board { seat.new.board ≡ seat.old.board }
{
    let taken = next_task(&mut service.table().lock(rt), share);
    let mut task = match taken {
        Ok(task) => task,
        Err(ending) => return Some(ending),
    };
    gate.before(worker, task.slot());
    let is_whole = task.run_slice(slice).is_ok();
    *slices = slices.saturating_add(1);
    let _ = task.conclude(alloc);
    match publish_return(rt, service, task, share, seat) {
        Ok(_) => { if is_whole { None } else { Some(Ending::Short) } }
        Err(task) => Some(Ending::Stray(task)),
    }
}

/// Works until nothing is ready, memory is refused, or a task isn't taken back.
pub(crate) fn work<R: Ledger, S: Ledger, G: Gate, W: Wait>(
    rt: &W,
    alloc: Global,
    service: &Service<R, S>,
    gate: &G,
    slice: u32,
    worker: u32,
    share: Share<R, S>,
    seat: Seat,
) -> Outcome<R, S>
    requires share { share ≡ share_of 1 0 0 }
    requires seat { seat.board ≡ service.now }
    ensures { IsOutcome result.share result.ending }
{
    let mut share = share;
    let mut seat = seat;
    let mut slices = 0;
    for _ in rt.forever() {
        let ending = round(
            rt,
            alloc,
            service,
            gate,
            slice,
            worker,
            &mut share,
            &mut seat,
            &mut slices,
        );
        if let Some(ending) = ending {
            return Outcome {
                share,
                slices,
                ending,
            };
        }
    }
    unreachable!()
}

/// What a worker leaves that wasn't started.
pub(crate) fn not_started<R: Ledger, S: Ledger>(share: Share<R, S>) -> Outcome<R, S>
    requires { share ≡ share_of 1 0 0 }
    ensures { IsOutcome result.share result.ending }
{
    Outcome {
        share,
        slices: 0,
        ending: Ending::NotStarted,
    }
}
