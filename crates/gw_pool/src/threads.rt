//! The workers, each in a thread of its own.

ghost use Rattle.std.specs.Prelude.{◌≡◌, ◌+◌, ◌≤◌, ◌<◌, ◌^◌, vec_len, vec_capacity};
ghost use Rattle.gw_pool.specs.Shares.{share_of};
ghost use Rattle.gw_pool.specs.Workers.{most_workers, IsOutcome};

use crate::board::Seat;
use crate::gate::Gate;
use crate::gathering::Gathering;
use crate::service::Service;
use crate::share::Share;
use crate::worker::{Outcome, not_started, work};
use gw_jobs::Task;
use std::alloc::Global;
use std::marker::PhantomData;
use std::sync::Wait;
use std::sync::atomic::{AtomicU64, Ordering};
use std::sync::ledger::Ledger;
use std::thread;
use std::thread::{Promise, Scope, Threads};

/// What a thread promises: that its worker leaves its part.
#[derive(Drop)]
struct LeavesPart<R: Ledger, S: Ledger>(PhantomData<(R, S)>);

impl<R: Ledger, S: Ledger> Promise<Outcome<R, S>> for LeavesPart<R, S> {
    ghost kept_by = { λ _ ended. IsOutcome ended.share ended.ending };
}

/// No worker has this number.
const NOBODY: u64 = u64::MAX;

/// Works, unless it is this worker whose thread couldn't be made.
fn work_if_started<R: Ledger, S: Ledger, G: Gate, W: Wait>(
    rt: &W,
    alloc: Global,
    service: &Service<R, S>,
    gate: &G,
    refused: &AtomicU64,
    slice: u32,
    worker: u32,
    share: Share<R, S>,
    seat: Seat,
) -> Outcome<R, S>
    requires share { share ≡ share_of 1 0 0 }
    requires seat { seat.board ≡ service.now }
    ensures { IsOutcome result.share result.ending }
{
    if refused.load(Ordering::SeqCst) == u64::from(worker) {
        return not_started(share);
    }
    work(rt, alloc, service, gate, slice, worker, share, seat)
}

/// Runs so many workers, numbered from the first on, and gathers what they leave. One whose thread can't be made leaves its
/// part unused.
fn run_from<
    's,
    E,
    R: Ledger + Send + Sync,
    S: Ledger + Send + Sync,
    G: Gate + Sync,
    W: Threads + Wait + Sync,
>(
    scope: &Scope<'s, E>,
    rt: &'s W,
    alloc: Global,
    service: &'s Service<R, S>,
    gate: &'s G,
    refused: &'s AtomicU64,
    slice: u32,
    first: u32,
    count: u32,
    share: Share<R, S>,
    seat: Seat,
    strays: Vec<Task>,
) -> Gathering<R, S>
    requires count { (count ≤ most_workers) × (first + count < 2 ^ 32) }
    requires share { share ≡ share_of count 0 0 }
    requires seat { seat.board ≡ service.now }
    requires strays { vec_len strays ≡ 0 }
    requires room { count ≤ vec_capacity strays }
    ensures parts { result.parts ≡ count }
    ensures room { vec_capacity strays ≤ result.room + count }
{
    let mut share = share;
    let mut seat = seat;
    if count == 0 {
        return Gathering::nothing(share, strays);
    }
    let mine = share.split(1);
    let place = service.board().split_off(&mut seat);
    let started = scope.spawn_with(
        LeavesPart(PhantomData),
        move || -> Outcome<R, S>
            requires share { mine ≡ share_of 1 0 0 }
            requires seat { place.board ≡ service.now }
            ensures { IsOutcome result.share result.ending }
        { work_if_started(rt, alloc, service, gate, refused, slice, first, mine, place) },
    );
    let rest = run_from(
        scope,
        rt,
        alloc,
        service,
        gate,
        refused,
        slice,
        first + 1,
        count - 1,
        share,
        seat,
        strays,
    );
    match started {
        Ok(thread) => rest.with(thread.join(rt)),
        Err(error) => {
            refused.store(u64::from(first), Ordering::SeqCst);
            rest.with((error.value)())
        }
    }
}

/// Runs so many workers, and gathers what they leave, once each has ended.
pub(crate) fn run_all<
    R: Ledger + Send + Sync,
    S: Ledger + Send + Sync,
    G: Gate + Sync,
    W: Threads + Wait + Sync,
>(
    rt: &W,
    alloc: Global,
    service: &Service<R, S>,
    gate: &G,
    slice: u32,
    count: u32,
    share: Share<R, S>,
    seat: Seat,
    strays: Vec<Task>,
) -> Gathering<R, S>
    requires count { count ≤ most_workers }
    requires share { share ≡ share_of count 0 0 }
    requires seat { seat.board ≡ service.now }
    requires strays { vec_len strays ≡ 0 }
    requires room { count ≤ vec_capacity strays }
    ensures { result.parts ≡ count }
{
    let refused = AtomicU64::new(NOBODY);
    let refused = &refused;
    thread::scope(
        thread::scope_env(),
        rt,
        |scope| -> Gathering<R, S>
            requires count { count ≤ most_workers }
            requires share { share ≡ share_of count 0 0 }
            requires seat { seat.board ≡ service.now }
            requires strays { vec_len strays ≡ 0 }
            requires room { count ≤ vec_capacity strays }
            ensures { result.parts ≡ count }
        {
            run_from(
                scope, rt, alloc, service, gate, refused, slice, 0, count, share, seat, strays,
            )
        },
    )
}
