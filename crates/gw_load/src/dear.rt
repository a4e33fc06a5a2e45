//! A job with a dear start, and another user's jobs beside it.

ghost use Rattle.std.specs.Prelude.{◌≡◌};
ghost use Rattle.gw_pool.specs.Shares.{AreWhole};

use crate::round::PARTS;
use crate::samples::{Sample, spec_of, text_named, verified_of};
use crate::shift::Shift;
use crate::works::{Works, run_once};
use gw_jobs::Pass;
use gw_object::Memory;
use gw_pool::{Crew, Service, submit};
use gw_scan::Spec;
use std::alloc::Global;
use std::marker::Brand;
use std::rt::Files;
use std::sync::Wait;
use std::sync::atomic::{AtomicU64, Ordering};
use std::sync::ledger::{Blank, Ledger};
use std::thread::{Threads, join};
use std::time::{Clock, Duration};
use std::{io, thread};

/// The report of the job with the dear start. Its customer comes at 1,024 times 10,000; the clock moves, the customer becomes
/// active, enters its GENERATE, and is the first of one.
const REPORT: &[u8] = b"END Done CLOCK 10240000 STEPS 4 ENTRIES 2 COUNT 0\n\
BLOCK 1 GENERATE 1 0\nBLOCK 2 TERMINATE 1 0\n";

/// More steps than the dear job makes.
const AMPLE: u64 = 1_000_000;

/// The user of the dear job.
const DEAR_USER: u64 = 1;

/// The other user.
const OTHER_USER: u64 = 2;

/// The worker that runs them.
const SHIFT: Shift = Shift {
    workers: 1,
    slice: 1_000,
    samples: 0,
};

/// The other user has so many jobs, one after the other.
const JOBS: u32 = 10;

/// The other user waits so many milliseconds before each: all together long enough for the dear submit to come to its dear part.
const BETWEEN: u64 = 20;

/// How often a thread yields at most while it waits for the other to begin.
const YIELDS: u32 = 1_000_000;

/// How far the submit of the dear job is.
#[derive(Drop)]
struct Watch {
    has_begun: AtomicU64,
    has_returned: AtomicU64,
}

impl Watch {
    /// It hasn't begun.
    fn new() -> Watch {
        Watch {
            has_begun: AtomicU64::new(0),
            has_returned: AtomicU64::new(0),
        }
    }

    /// Whether it has begun, and hasn't returned.
    fn is_on(&self) -> bool {
        self.has_begun.load(Ordering::SeqCst) == 1 && self.has_returned.load(Ordering::SeqCst) == 0
    }
}

/// What came of all jobs.
#[derive(Clone, Copy)]
pub struct Outcome {
    /// Whether the other user's jobs were all collected before the submit of the dear one returned.
    pub is_beside: bool,
    /// Whether each was told what it had to be told.
    pub is_right: bool,
}

/// The pass of a new job, if there is one.
fn pass_of<R: Ledger, S: Ledger, W: Wait>(
    rt: &W,
    alloc: Global,
    service: &Service<R, S>,
    user: u64,
    spec: Spec,
) -> Option<Pass> {
    match submit(rt, alloc, service.table(), user, spec) {
        Ok(pass) => Some(pass),
        Err((spec, _)) => {
            drop(spec);
            None
        }
    }
}

/// Submits the dear job, and tells when that begins and ends.
fn submit_dear<R: Ledger, S: Ledger, W: Wait>(
    rt: &W,
    alloc: Global,
    service: &Service<R, S>,
    spec: Spec,
    watch: &Watch,
) -> Option<Pass> {
    watch.has_begun.store(1, Ordering::SeqCst);
    let pass = pass_of(rt, alloc, service, DEAR_USER, spec);
    watch.has_returned.store(1, Ordering::SeqCst);
    pass
}

/// Waits until the submit of the dear job has begun.
fn await_dear(watch: &Watch) {
    for _ in 0..YIELDS {
        if watch.has_begun.load(Ordering::SeqCst) == 1 {
            break;
        }
        thread::yield_now();
    }
}

/// Whether the report of a job is this.
fn is_reported<R: Ledger, S: Ledger, W: Wait>(
    rt: &W,
    alloc: Global,
    service: &Service<R, S>,
    pass: &Pass,
    report: &[u8],
) -> bool {
    let reply = service.table().lock(rt).collect(alloc, pass);
    match reply {
        Ok(reply) => {
            let is_same = reply.report.as_slice() == report;
            drop(reply);
            is_same
        }
        Err(_) => false,
    }
}

/// Submits a job, has it run, and collects it: whether its report is this.
fn is_done<R: Ledger + Send + Sync, S: Ledger + Send + Sync, W: Threads + Wait + Sync>(
    rt: &W,
    alloc: Global,
    service: &Service<R, S>,
    crew: &mut Crew<R, S>,
    spec: Spec,
    report: &[u8],
) -> bool
    requires { crew.old.board ≡ service.now }
    ensures { crew.new.board ≡ crew.old.board }
{
    match pass_of(rt, alloc, service, OTHER_USER, spec) {
        Some(pass) => {
            let mut works = Works::new();
            run_once(rt, alloc, service, crew, SHIFT, &mut works);
            let is_done = works.faults == 0 && is_reported(rt, alloc, service, &pass, report);
            drop(pass);
            is_done
        }
        None => false,
    }
}

/// Has the other user's jobs done, one after the other, once the submit of the dear one has begun: whether all were while it was
/// on, and whether each was told what it had to be told.
fn done_beside<R: Ledger + Send + Sync, S: Ledger + Send + Sync, W: Threads + Wait + Sync + Clock>(
    rt: &W,
    alloc: Global,
    service: &Service<R, S>,
    crew: &mut Crew<R, S>,
    specs: Vec<Spec>,
    report: &[u8],
    watch: &Watch,
) -> Outcome
    requires { crew.old.board ≡ service.now }
    ensures { crew.new.board ≡ crew.old.board }
{
    await_dear(watch);
    let mut is_right = true;
    for spec in specs {
        thread::sleep(rt, Duration::from_millis(BETWEEN));
        is_right &= is_done(rt, alloc, service, crew, spec, report);
    }
    Outcome {
        is_beside: watch.is_on(),
        is_right,
    }
}

/// Submits the dear job in a thread of its own, and has the others done beside it.
fn done_both<R: Ledger + Send + Sync, S: Ledger + Send + Sync, W: Threads + Wait + Sync + Clock>(
    rt: &W,
    alloc: Global,
    service: &Service<R, S>,
    crew: Crew<R, S>,
    dear: Spec,
    specs: Vec<Spec>,
    report: &[u8],
) -> (Option<Pass>, (Crew<R, S>, Outcome))
    requires { crew.board ≡ service.now }
    ensures { result.1.0.board ≡ service.now }
{
    let watch = Watch::new();
    let watch = &watch;
    join(
        rt,
        move || submit_dear(rt, alloc, service, dear, watch),
        move || -> (Crew<R, S>, Outcome)
            requires { crew.board ≡ service.now }
            ensures { result.0.board ≡ service.entry.now }
        {
            let mut crew = crew;
            let outcome = done_beside(rt, alloc, service, &mut crew, specs, report, watch);
            (crew, outcome)
        },
    )
}

/// Whether the dear job has its report, if there is one.
fn is_dear_reported<R: Ledger, S: Ledger, W: Wait>(
    rt: &W,
    alloc: Global,
    service: &Service<R, S>,
    pass: &Option<Pass>,
) -> bool {
    match pass {
        Some(pass) => is_reported(rt, alloc, service, pass, REPORT),
        None => false,
    }
}

/// What comes of all jobs: the dear one is run once it was submitted, and collected too.
fn outcome_of<R: Ledger + Send + Sync, S: Ledger + Send + Sync, W: Threads + Wait + Sync + Clock>(
    rt: &W,
    alloc: Global,
    service: &Service<R, S>,
    crew: Crew<R, S>,
    dear: Spec,
    specs: Vec<Spec>,
    report: &[u8],
) -> Outcome
    requires { crew.board ≡ service.now }
{
    let (pass, (mut crew, outcome)) = done_both(rt, alloc, service, crew, dear, specs, report);
    let mut works = Works::new();
    run_once(rt, alloc, service, &mut crew, SHIFT, &mut works);
    drop(crew);
    let is_right = works.faults == 0 && is_dear_reported(rt, alloc, service, &pass);
    drop(pass);
    Outcome {
        is_beside: outcome.is_beside,
        is_right: outcome.is_right && is_right,
    }
}

/// The same of a service whose ledgers the type parameters name.
fn outcome_by<R: Ledger + Send + Sync, S: Ledger + Send + Sync, W: Threads + Wait + Sync + Clock>(
    rt: &W,
    alloc: Global,
    rows: Blank,
    steps: Blank,
    dear: Spec,
    specs: Vec<Spec>,
    report: &[u8],
) -> Result<Outcome, Memory>
    requires names { (rows.name ≡ R.name) × (steps.name ≡ S.name) }
    requires parts { (rows.parts ≡ R.parts) × (steps.parts ≡ S.parts) }
    requires whole { AreWhole rows.parts steps.parts }
{
    match Service::<R, S>::new(alloc, rows, steps) {
        Ok((service, crew, seat)) => {
            let outcome = outcome_of(rt, alloc, &service, crew, dear, specs, report);
            drop(service);
            drop(seat);
            Ok(outcome)
        }
        Err(memory) => {
            drop(dear);
            drop(specs);
            Err(memory)
        }
    }
}

/// The other user's jobs.
fn jobs_of(alloc: Global, sample: &Sample) -> Result<Vec<Spec>, Memory> {
    let mut specs = Vec::new(alloc);
    for _ in 0..JOBS {
        specs.push(sample.spec.share()?)?;
    }
    Ok(specs)
}

/// The other user's jobs, and the report of each.
fn jobs_and_report(alloc: Global, sample: &Sample) -> Result<(Vec<Spec>, &[u8]), Memory> {
    match &sample.lone {
        Some(lone) => Ok((jobs_of(alloc, sample)?, lone.report.as_slice())),
        None => Err(Memory),
    }
}

/// What comes of a job with this spec, and of another user's jobs beside it, which are this sample.
fn outcome_beside<W: Threads + Wait + Sync + Clock>(
    rt: &W,
    alloc: Global,
    dear: Spec,
    sample: &Sample,
) -> Result<Outcome, Memory> {
    match jobs_and_report(alloc, sample) {
        Ok((specs, report)) => outcome_by::<Brand, Brand, W>(
            rt,
            alloc,
            Blank::new(PARTS),
            Blank::new(PARTS),
            dear,
            specs,
            report,
        ),
        Err(memory) => {
            drop(dear);
            Err(memory)
        }
    }
}

/// What comes of the job with the dear start, and of another user's jobs beside it, which are this sample.
pub fn run_beside_dear_start<W: Threads + Wait + Sync + Clock + Files + AllocGlobal>(
    rt: &W,
    sample: &Sample,
) -> io::Result<Outcome> {
    let text = text_named(rt, "dear_start")?;
    let verified = verified_of(rt.alloc(), text.as_slice())?;
    let dear = spec_of(rt.alloc(), verified, 0, AMPLE)?;
    Ok(outcome_beside(rt, rt.alloc(), dear, sample)?)
}
