//! The runs of a study, by threads.

ghost use Rattle.std.specs.Prelude.{◌≤◌, ◌+◌};
ghost use Rattle.gw_study.specs.Requests.{MayBeStudied, first_run as first_of};
ghost use Rattle.gw_study.specs.Runs.{AreRunsOf, IsSetUp};

use crate::one_run::numbered_run;
use crate::request::{StudyRequest, first_run};
use gw_figures::{Figure, Run};
use gw_object::Memory;
use gw_scan::Spec;
use std::alloc::Global;
use std::io::Eprint;
use std::thread;
use std::thread::{Threads, available_parallelism};

/// So many runs are made side by side before it is told how far they are.
const TOGETHER: u32 = 64;

/// At most so many workers make them.
const MOST_WORKERS: u32 = 16;

/// What the runs of a study have in common.
#[derive(Clone, Copy)]
pub(crate) struct Setup<'a> {
    /// The job whose object, count and budget they have.
    pub spec: &'a Spec,
    /// The figures of its model.
    pub figures: &'a [Figure],
    /// How many terminations are counted before the window begins.
    pub from: u64,
}

/// The runs from one number to another, but not that one, one after the other. Each has a state that is let go before the next.
fn runs_between(alloc: Global, setup: &Setup<'_>, first: u32, end: u32) -> Result<Vec<Run>, Memory>
    requires numbers { (first ≤ end) × (end ≤ 512) }
    requires setup { IsSetUp setup.now }
    ensures { AreRunsOf setup.now first end result }
{
    let mut runs = Vec::new(alloc);
    for number in first..end {
        let run = numbered_run(alloc, setup.spec, setup.figures, number, setup.from)?;
        runs.push(run)?;
    }
    Ok(runs)
}

/// The same by two workers, of whom each makes one half.
fn runs_by_two<T: Threads + Sync>(
    rt: &T,
    alloc: Global,
    setup: &Setup<'_>,
    first: u32,
    end: u32,
) -> Result<Vec<Run>, Memory>
    requires numbers { (first ≤ end) × (end ≤ 512) }
    requires setup { IsSetUp setup.now }
    ensures { AreRunsOf setup.now first end result }
{
    let middle = first + (end - first) / 2;
    let own = move || -> Result<Vec<Run>, Memory>
        requires { (first ≤ middle) × (middle ≤ 512) × IsSetUp setup.now }
        ensures { AreRunsOf setup.entry.now first middle result }
    { runs_between(alloc, setup, first, middle) };
    let other = move || -> Result<Vec<Run>, Memory>
        requires { (middle ≤ end) × (end ≤ 512) × IsSetUp setup.now }
        ensures { AreRunsOf setup.entry.now middle end result }
    { runs_between(alloc, setup, middle, end) };
    let (left, right) = thread::join(rt, own, other);
    let mut runs = left?;
    let mut more = right?;
    runs.append(&mut more)?;
    Ok(runs)
}

/// The same by four.
fn runs_by_four<T: Threads + Sync>(
    rt: &T,
    alloc: Global,
    setup: &Setup<'_>,
    first: u32,
    end: u32,
) -> Result<Vec<Run>, Memory>
    requires numbers { (first ≤ end) × (end ≤ 512) }
    requires setup { IsSetUp setup.now }
    ensures { AreRunsOf setup.now first end result }
{
    let middle = first + (end - first) / 2;
    let own = move || -> Result<Vec<Run>, Memory>
        requires { (first ≤ middle) × (middle ≤ 512) × IsSetUp setup.now }
        ensures { AreRunsOf setup.entry.now first middle result }
    { runs_by_two(rt, alloc, setup, first, middle) };
    let other = move || -> Result<Vec<Run>, Memory>
        requires { (middle ≤ end) × (end ≤ 512) × IsSetUp setup.now }
        ensures { AreRunsOf setup.entry.now middle end result }
    { runs_by_two(rt, alloc, setup, middle, end) };
    let (left, right) = thread::join(rt, own, other);
    let mut runs = left?;
    let mut more = right?;
    runs.append(&mut more)?;
    Ok(runs)
}

/// The same by eight.
fn runs_by_eight<T: Threads + Sync>(
    rt: &T,
    alloc: Global,
    setup: &Setup<'_>,
    first: u32,
    end: u32,
) -> Result<Vec<Run>, Memory>
    requires numbers { (first ≤ end) × (end ≤ 512) }
    requires setup { IsSetUp setup.now }
    ensures { AreRunsOf setup.now first end result }
{
    let middle = first + (end - first) / 2;
    let own = move || -> Result<Vec<Run>, Memory>
        requires { (first ≤ middle) × (middle ≤ 512) × IsSetUp setup.now }
        ensures { AreRunsOf setup.entry.now first middle result }
    { runs_by_four(rt, alloc, setup, first, middle) };
    let other = move || -> Result<Vec<Run>, Memory>
        requires { (middle ≤ end) × (end ≤ 512) × IsSetUp setup.now }
        ensures { AreRunsOf setup.entry.now middle end result }
    { runs_by_four(rt, alloc, setup, middle, end) };
    let (left, right) = thread::join(rt, own, other);
    let mut runs = left?;
    let mut more = right?;
    runs.append(&mut more)?;
    Ok(runs)
}

/// The same by sixteen.
fn runs_by_sixteen<T: Threads + Sync>(
    rt: &T,
    alloc: Global,
    setup: &Setup<'_>,
    first: u32,
    end: u32,
) -> Result<Vec<Run>, Memory>
    requires numbers { (first ≤ end) × (end ≤ 512) }
    requires setup { IsSetUp setup.now }
    ensures { AreRunsOf setup.now first end result }
{
    let middle = first + (end - first) / 2;
    let own = move || -> Result<Vec<Run>, Memory>
        requires { (first ≤ middle) × (middle ≤ 512) × IsSetUp setup.now }
        ensures { AreRunsOf setup.entry.now first middle result }
    { runs_by_eight(rt, alloc, setup, first, middle) };
    let other = move || -> Result<Vec<Run>, Memory>
        requires { (middle ≤ end) × (end ≤ 512) × IsSetUp setup.now }
        ensures { AreRunsOf setup.entry.now middle end result }
    { runs_by_eight(rt, alloc, setup, middle, end) };
    let (left, right) = thread::join(rt, own, other);
    let mut runs = left?;
    let mut more = right?;
    runs.append(&mut more)?;
    Ok(runs)
}

/// The same by at most so many workers.
fn runs_by<T: Threads + Sync>(
    rt: &T,
    alloc: Global,
    setup: &Setup<'_>,
    workers: u32,
    first: u32,
    end: u32,
) -> Result<Vec<Run>, Memory>
    requires numbers { (first ≤ end) × (end ≤ 512) }
    requires setup { IsSetUp setup.now }
    ensures { AreRunsOf setup.now first end result }
{
    match workers {
        0..=1 => runs_between(alloc, setup, first, end),
        2..=3 => runs_by_two(rt, alloc, setup, first, end),
        4..=7 => runs_by_four(rt, alloc, setup, first, end),
        8..=15 => runs_by_eight(rt, alloc, setup, first, end),
        _ => runs_by_sixteen(rt, alloc, setup, first, end),
    }
}

/// How many workers make the runs, where so many are asked for: as many as the machine has processors where none is.
fn workers_of<T: Threads>(rt: &T, workers: u32) -> u32 {
    if workers > 0 {
        return workers.min(MOST_WORKERS);
    }
    match available_parallelism(rt) {
        Ok(number) => number.get().min(MOST_WORKERS as usize) as u32,
        Err(_) => 1,
    }
}

/// The runs from one number to another, but not that one, in order, by at most so many workers; 0 means as many as the machine has
/// processors. A line on standard error tells how far they are.
pub(crate) fn runs_in_order<T: Threads + Sync + Eprint>(
    rt: &T,
    alloc: Global,
    setup: &Setup<'_>,
    workers: u32,
    first: u32,
    end: u32,
) -> Result<Vec<Run>, Memory>
    requires numbers { (first ≤ end) × (end ≤ 512) }
    requires setup { IsSetUp setup.now }
    ensures { AreRunsOf setup.now first end result }
{
    let workers = workers_of(rt, workers);
    let count = end - first;
    let mut runs = Vec::new(alloc);
    let mut made = 0;
    while made < count {
        let next = count.min(made + TOGETHER);
        let mut more = runs_by(rt, alloc, setup, workers, first + made, first + next)?;
        runs.append(&mut more)?;
        made = next;
        let _ = eprintln!(rt; "{made} of {count} runs");
    }
    Ok(runs)
}

/// The runs that a study is asked for, in order.
pub(crate) fn runs_of<T: Threads + Sync + Eprint>(
    rt: &T,
    alloc: Global,
    setup: &Setup<'_>,
    request: StudyRequest,
) -> Result<Vec<Run>, Memory>
    requires request { MayBeStudied request }
    requires setup { IsSetUp setup.now }
    ensures { AreRunsOf setup.now (first_of request) (first_of request + request.runs) result }
{
    let first = first_run(request);
    runs_in_order(
        rt,
        alloc,
        setup,
        request.workers,
        first,
        first + request.runs,
    )
}
