//! Two jobs that are run by two workers, where one request for memory may be refused, and then by two workers more.

ghost use Rattle.std.specs.Prelude.{◌≡◌};
ghost use Rattle.gw_pool.specs.Shares.{AreWhole};

use crate::jobs::{is_reported, new_pass};
use gw_jobs::Pass;
use gw_object::Memory;
use gw_pool::{Crew, OpenGate, PoolFault, Service};
use std::alloc::Global;
use std::io;
use std::marker::Brand;
use std::sync::Wait;
use std::sync::ledger::{Blank, Ledger};
use std::thread::Threads;

/// How workers did.
#[derive(Clone, Copy)]
enum Outcome {
    /// They were run, and so many of them ended for want of memory.
    Ran(u32),
    /// They weren't run.
    Refused(PoolFault),
}

/// How two workers did, with slices of 3 steps.
fn outcome_of<R: Ledger + Send + Sync, S: Ledger + Send + Sync, W: Threads + Wait + Sync>(
    rt: &W,
    alloc: Global,
    service: &Service<R, S>,
    crew: &mut Crew<R, S>,
) -> Outcome
    requires { crew.old.board ≡ service.now }
    ensures { crew.new.board ≡ crew.old.board }
{
    match service.run_workers(rt, alloc, crew, 2, 3, &OpenGate) {
        Ok(totals) => Outcome::Ran(totals.short),
        Err(fault) => Outcome::Refused(fault),
    }
}

/// Whether the table counts what the crew does, and no row is out.
fn is_whole<R: Ledger, S: Ledger, W: Wait>(
    rt: &W,
    service: &Service<R, S>,
    crew: &mut Crew<R, S>,
) -> bool
    ensures { crew.new ≡ crew.old }
{
    let steps = crew.steps();
    crew.rows() == 0 && service.audit(rt, crew) == (steps, 0)
}

/// Whether workers were run, and none of them ran short.
fn is_ample(outcome: Outcome) -> bool {
    match outcome {
        Outcome::Ran(short) => short == 0,
        Outcome::Refused(_) => false,
    }
}

/// Whether both jobs are done, with the reports that they must have, once workers were run twice more: of these runs one at most
/// is refused memory.
fn are_done<R: Ledger + Send + Sync, S: Ledger + Send + Sync, W: Threads + Wait + Sync>(
    rt: &W,
    alloc: Global,
    service: &Service<R, S>,
    crew: &mut Crew<R, S>,
    passes: &[Pass; 2],
) -> bool
    requires { crew.old.board ≡ service.now }
    ensures { crew.new.board ≡ crew.old.board }
{
    let again = is_ample(outcome_of(rt, alloc, service, crew));
    let last = is_ample(outcome_of(rt, alloc, service, crew));
    (again || last)
        && is_whole(rt, service, crew)
        && crew.steps() == 46
        && is_reported(rt, alloc, service, &passes[0])
        && is_reported(rt, alloc, service, &passes[1])
}

/// How two workers of a service did, and whether all was kept: no row is out then, and both jobs are done later.
fn keeps_both<R: Ledger + Send + Sync, S: Ledger + Send + Sync, W: Threads + Wait + Sync>(
    rt: &W,
    alloc: Global,
    service: &Service<R, S>,
    crew: &mut Crew<R, S>,
) -> Result<(Outcome, bool), Memory>
    requires { crew.old.board ≡ service.now }
{
    let first = new_pass(rt, alloc, service)?;
    let second = new_pass(rt, alloc, service)?;
    let passes = [first, second];
    let outcome = outcome_of(rt, alloc, service, crew);
    let between = is_whole(rt, service, crew);
    let kept = between && are_done(rt, alloc, service, crew, &passes);
    Ok((outcome, kept))
}

/// The same of a service whose ledgers the type parameters name.
fn keeps_all<R: Ledger + Send + Sync, S: Ledger + Send + Sync, W: Threads + Wait + Sync>(
    rt: &W,
    alloc: Global,
    rows: Blank,
    steps: Blank,
) -> Result<(Outcome, bool), Memory>
    requires names { (rows.name ≡ R.name) × (steps.name ≡ S.name) }
    requires parts { (rows.parts ≡ R.parts) × (steps.parts ≡ S.parts) }
    requires whole { AreWhole rows.parts steps.parts }
{
    let (service, mut crew, seat) = Service::<R, S>::new(alloc, rows, steps)?;
    let outcome = keeps_both(rt, alloc, &service, &mut crew);
    drop(service);
    drop(crew);
    drop(seat);
    outcome
}

/// The same of ledgers of its own.
fn keeps_anew<W: Threads + Wait + Sync>(rt: &W, alloc: Global) -> Result<(Outcome, bool), Memory> {
    keeps_all::<Brand, Brand, W>(rt, alloc, Blank::new(17), Blank::new(17))
}

/// Makes so many requests for memory, and gives back what it gets.
fn spend(alloc: Global, requests: u32) -> Result<(), Memory> {
    for _ in 0..requests {
        let _ = Vec::<u8>::with_capacity(alloc, 64)?;
    }
    Ok(())
}

/// The number that is read: none where it isn't one.
fn number_read<W: Input + Alloc>(rt: &W) -> io::Result<Option<u32>> {
    let mut line = String::new(rt.alloc());
    rt.read_line(&mut line)?;
    Ok(line.as_str().trim_end().parse::<u32>().ok())
}

/// Prints how workers did, and whether all was kept.
fn tell<W: Print>(rt: &W, outcome: Outcome, kept: bool) -> io::Result<()> {
    match outcome {
        Outcome::Ran(short) => println!(rt; "short {short}")?,
        Outcome::Refused(PoolFault::Memory) => println!(rt; "refused 63 Memory")?,
        Outcome::Refused(_) => println!(rt; "refused otherwise")?,
    }
    println!(rt; "{}", if kept { "kept" } else { "LOST" })
}

/// Runs two jobs by two workers, and then by two workers more (docs/service.md). It reads how many requests for memory it makes
/// beforehand: so whoever refuses one of them by its number refuses each request of the workers in turn. It prints how the workers
/// did, and whether all was kept, which it answers.
pub fn run_two_jobs<W: Threads + Wait + Sync + Input + Print + AllocGlobal>(
    rt: &W,
) -> io::Result<bool> {
    let requests = match number_read(rt)? {
        Some(requests) => requests,
        None => return Err(io::Error::from(io::ErrorKind::InvalidInput)),
    };
    spend(rt.alloc(), requests)?;
    let (outcome, kept) = keeps_anew(rt, rt.alloc())?;
    tell(rt, outcome, kept)?;
    Ok(kept)
}
