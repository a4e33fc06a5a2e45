//! Runs of workers, one behind the other.

ghost use Rattle.std.specs.Prelude.{◌≡◌, ◌+◌, ◌≤◌, ◌<◌, ◌^◌, vec_len};
ghost use Rattle.gw_pool.specs.Workers.{most_steps, AreEnded, CountsAlike};

use crate::crew::Crew;
use crate::gate::Gate;
use crate::service::Service;
use crate::totals::Totals;
use std::alloc::Global;
use std::mem;
use std::sync::Wait;
use std::sync::ledger::Ledger;
use std::thread::Threads;

/// Adds what the workers of a run did to what those of the runs before it did, which left no stray.
fn add_run(totals: &mut Totals, run: Totals)
    requires { totals.old.steps + run.steps < 2 ^ 128 }
    ensures workers { totals.new.workers ≡ run.workers }
    ensures steps { totals.new.steps ≡ totals.old.steps + run.steps }
    ensures short { totals.new.short ≡ run.short }
    ensures strays { totals.new.strays ≡ run.strays }
{
    let Totals {
        workers,
        slices,
        steps,
        short,
        strays,
    } = run;
    totals.workers = workers;
    totals.slices = totals.slices.saturating_add(slices);
    totals.steps += steps;
    totals.short = short;
    drop(mem::replace(&mut totals.strays, strays));
}

/// Runs workers once more, and adds what they did to what was done before: the steps that they made. Where they aren't run,
/// nothing changes.
fn run_more<
    R: Ledger + Send + Sync,
    S: Ledger + Send + Sync,
    G: Gate + Sync,
    W: Threads + Wait + Sync,
>(
    rt: &W,
    alloc: Global,
    service: &Service<R, S>,
    crew: &mut Crew<R, S>,
    n: u32,
    slice: u32,
    gate: &G,
    totals: &mut Totals,
) -> u128
    requires crew { crew.old.board ≡ service.now }
    requires strays { vec_len totals.old.strays ≡ 0 }
    requires steps { (totals.old.steps ≤ crew.old.steps) × (crew.old.steps ≤ most_steps) }
    requires workers { AreEnded n totals.old }
    ensures board { crew.new.board ≡ crew.old.board }
    ensures counted { CountsAlike crew.old crew.new totals.old totals.new }
    ensures few { crew.new.steps ≤ most_steps }
    ensures workers { AreEnded n totals.new }
    ensures made { crew.new.steps ≡ crew.old.steps + result }
{
    match service.run_workers(rt, alloc, crew, n, slice, gate) {
        Ok(run) => {
            service.table().lock(rt).audit(&mut crew.share);
            let made = run.steps;
            add_run(totals, run);
            made
        }
        Err(_) => 0,
    }
}

/// Runs workers as long as the run before made steps and left workers short of memory, but no stray, and adds what they did to
/// what was done before. It ends, since each run but the last makes steps, and all jobs have a greatest number of these.
pub(crate) fn run_while_short<
    R: Ledger + Send + Sync,
    S: Ledger + Send + Sync,
    G: Gate + Sync,
    W: Threads + Wait + Sync,
>(
    rt: &W,
    alloc: Global,
    service: &Service<R, S>,
    crew: &mut Crew<R, S>,
    n: u32,
    slice: u32,
    gate: &G,
    totals: &mut Totals,
)
    requires crew { crew.old.board ≡ service.now }
    requires steps { totals.old.steps ≤ crew.old.steps }
    requires workers { AreEnded n totals.old }
    ensures board { crew.new.board ≡ crew.old.board }
    ensures counted { CountsAlike crew.old crew.new totals.old totals.new }
    ensures workers { AreEnded n totals.new }
{
    service.table().lock(rt).audit(&mut crew.share);
    let mut made = totals.steps;
    while made > 0 && totals.short > 0 && totals.strays.is_empty() {
        made = run_more(rt, alloc, service, crew, n, slice, gate, totals);
    }
}
