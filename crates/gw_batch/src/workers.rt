//! Running the workers of a batch.

ghost use Rattle.std.specs.Prelude.{◌≡◌};

use crate::progress::Watch;
use crate::shift::Shift;
use gw_object::Memory;
use gw_pool::{Crew, PoolFault, Service};
use std::alloc::Global;
use std::io::Eprint;
use std::sync::Wait;
use std::sync::ledger::Ledger;
use std::thread::Threads;
use std::time::Clock;

/// Runs the workers of a service, and again where some ran short of memory, as long as that makes steps: whether some are short
/// then. Where none could be started the jobs stay as they are.
fn leaves_short<
    R: Ledger + Send + Sync,
    S: Ledger + Send + Sync,
    W: Threads + Wait + Sync + Eprint + Clock,
>(
    rt: &W,
    alloc: Global,
    service: &Service<R, S>,
    crew: &mut Crew<R, S>,
    shift: Shift,
    watch: &Watch<'_, R, S, W>,
) -> Result<bool, Memory>
    requires { crew.old.board ≡ service.now }
    ensures { crew.new.board ≡ crew.old.board }
{
    match service.run_jobs(rt, alloc, crew, shift.workers, shift.slice, watch) {
        Ok(totals) => Ok(totals.short > 0),
        Err(PoolFault::Memory) => Err(Memory),
        Err(_) => Ok(false),
    }
}

/// Runs the workers of a service until no job is ready, or memory is wanting: where some are short of it at the end they are run
/// once more, since the request that was refused may have been the first of a run, which then made no step.
pub(crate) fn run<
    R: Ledger + Send + Sync,
    S: Ledger + Send + Sync,
    W: Threads + Wait + Sync + Eprint + Clock,
>(
    rt: &W,
    alloc: Global,
    service: &Service<R, S>,
    crew: &mut Crew<R, S>,
    shift: Shift,
    watch: &Watch<'_, R, S, W>,
) -> Result<(), Memory>
    requires { crew.old.board ≡ service.now }
    ensures { crew.new.board ≡ crew.old.board }
{
    if leaves_short(rt, alloc, service, crew, shift, watch)? {
        leaves_short(rt, alloc, service, crew, shift, watch)?;
    }
    Ok(())
}
