//! A round: one service, users in four threads, and workers beside them.

ghost use Rattle.std.specs.Prelude.{◌≡◌};
ghost use Rattle.gw_pool.specs.Shares.{AreWhole};

use crate::acts::{cancel_endless, make_acts};
use crate::counts::Tally;
use crate::diary::Diary;
use crate::samples::Sample;
use crate::settling::settle;
use crate::shift::Shift;
use crate::works::{Works, run_until};
use gw_num::Stream;
use gw_object::Memory;
use gw_pool::{Crew, Seat, Service};
use std::alloc::Global;
use std::marker::Brand;
use std::sync::Wait;
use std::sync::atomic::{AtomicU64, Ordering};
use std::sync::ledger::{Blank, Ledger};
use std::thread::{Threads, join, map_vec};

/// The parts of each ledger of a service.
pub const PARTS: u64 = 17;

/// Users call from so many threads.
pub const THREADS: u32 = 4;

/// The users of a thread do so many things before workers are there.
const ACTS_BEFORE: u32 = 400;

/// The users of a thread do so many things while workers are there.
const ACTS_BESIDE: u32 = 1_600;

/// The users of a thread do so many things in a round.
pub const ACTS: u32 = ACTS_BEFORE + ACTS_BESIDE;

/// What all draws of a thread in a round begin with.
fn draws_of(seed: u32, round: u32, thread: u32) -> Option<Stream> {
    let number = u64::from(seed) * 7_919
        + u64::from(round) * 104_729
        + u64::from(thread) * 1_299_709;
    Stream::new((number % 2_147_483_646) as u32 + 1)
}

/// The users of a thread, who did the first things.
fn opened<R: Ledger, S: Ledger, W: Wait>(
    rt: &W,
    alloc: Global,
    service: &Service<R, S>,
    samples: &[Sample],
    shift: Shift,
    thread: u32,
    draws: Stream,
) -> Diary {
    let mut diary = Diary::new(alloc, thread, draws);
    make_acts(rt, alloc, service, samples, shift, ACTS_BEFORE, &mut diary);
    diary
}

/// The users of all threads, who did the first things.
fn all_opened<R: Ledger, S: Ledger, W: Wait>(
    rt: &W,
    alloc: Global,
    service: &Service<R, S>,
    samples: &[Sample],
    shift: Shift,
    seed: u32,
    round: u32,
) -> Result<Vec<Diary>, Memory> {
    let mut diaries = Vec::new(alloc);
    for thread in 0..THREADS {
        let draws = draws_of(seed, round, thread).ok_or(Memory)?;
        let diary = opened(rt, alloc, service, samples, shift, thread, draws);
        diaries.push(diary)?;
    }
    Ok(diaries)
}

/// The users of a thread, who did all things, and whose jobs come to an end.
fn closed<R: Ledger, S: Ledger, W: Wait>(
    rt: &W,
    alloc: Global,
    service: &Service<R, S>,
    samples: &[Sample],
    shift: Shift,
    through: &AtomicU64,
    diary: Diary,
) -> Diary {
    let mut diary = diary;
    make_acts(rt, alloc, service, samples, shift, ACTS_BESIDE, &mut diary);
    cancel_endless(rt, service, samples, u64::from(shift.slice), &mut diary);
    through.fetch_add(1, Ordering::SeqCst);
    diary
}

/// The users of all threads, each in a thread of its own, who did all things.
fn all_closed<R: Ledger + Send + Sync, S: Ledger + Send + Sync, W: Threads + Wait + Sync>(
    rt: &W,
    alloc: Global,
    service: &Service<R, S>,
    samples: &[Sample],
    shift: Shift,
    through: &AtomicU64,
    diaries: Vec<Diary>,
) -> Result<Vec<Diary>, Memory> {
    map_vec(
        rt,
        diaries,
        &|diary: Diary| closed(rt, alloc, service, samples, shift, through, diary),
    )
}

/// What the users of all threads were told, and what the workers did beside them.
fn worked_beside<R: Ledger + Send + Sync, S: Ledger + Send + Sync, W: Threads + Wait + Sync>(
    rt: &W,
    alloc: Global,
    service: &Service<R, S>,
    crew: Crew<R, S>,
    samples: &[Sample],
    shift: Shift,
    diaries: Vec<Diary>,
) -> ((Works, Crew<R, S>), Result<Vec<Diary>, Memory>)
    requires { crew.board ≡ service.now }
{
    let through = AtomicU64::new(0);
    let through = &through;
    join(
        rt,
        move || -> (Works, Crew<R, S>)
            requires { crew.board ≡ service.now }
        {
            let mut crew = crew;
            let works = run_until(
                rt,
                alloc,
                service,
                &mut crew,
                shift,
                through,
                u64::from(THREADS),
            );
            (works, crew)
        },
        move || all_closed(rt, alloc, service, samples, shift, through, diaries),
    )
}

/// Has users call a new service while workers run, and compares what comes of it.
fn run_service<R: Ledger + Send + Sync, S: Ledger + Send + Sync, W: Threads + Wait + Sync>(
    rt: &W,
    alloc: Global,
    service: &Service<R, S>,
    crew: Crew<R, S>,
    seat: &mut Seat,
    samples: &[Sample],
    shift: Shift,
    diaries: Vec<Diary>,
    tally: &mut Tally,
) -> Result<(), Memory>
    requires crew { crew.board ≡ service.now }
    requires seat { seat.old.board ≡ service.now }
{
    let ((works, mut crew), diaries) = worked_beside(
        rt, alloc, service, crew, samples, shift, diaries,
    );
    let slice = u64::from(shift.slice);
    let settled = match diaries {
        Ok(mut diaries) => {
            let settled = settle(
                rt,
                alloc,
                service,
                &mut crew,
                seat,
                samples,
                slice,
                works,
                &mut diaries,
                tally,
            );
            drop(diaries);
            settled
        }
        Err(memory) => Err(memory),
    };
    drop(crew);
    settled
}

/// The same of a service whose ledgers the type parameters name.
fn run_round_by<R: Ledger + Send + Sync, S: Ledger + Send + Sync, W: Threads + Wait + Sync>(
    rt: &W,
    alloc: Global,
    rows: Blank,
    steps: Blank,
    samples: &[Sample],
    shift: Shift,
    seed: u32,
    round: u32,
    tally: &mut Tally,
) -> Result<(), Memory>
    requires names { (rows.name ≡ R.name) × (steps.name ≡ S.name) }
    requires parts { (rows.parts ≡ R.parts) × (steps.parts ≡ S.parts) }
    requires whole { AreWhole rows.parts steps.parts }
{
    let (service, crew, mut seat) = Service::<R, S>::new(alloc, rows, steps)?;
    let outcome = match all_opened(rt, alloc, &service, samples, shift, seed, round) {
        Ok(diaries) => run_service(
            rt, alloc, &service, crew, &mut seat, samples, shift, diaries, tally,
        ),
        Err(memory) => {
            drop(crew);
            Err(memory)
        }
    };
    drop(service);
    drop(seat);
    outcome
}

/// Has users call a service of its own while workers run, and compares what comes of it.
pub fn run_round<W: Threads + Wait + Sync>(
    rt: &W,
    alloc: Global,
    samples: &[Sample],
    shift: Shift,
    seed: u32,
    round: u32,
    tally: &mut Tally,
) -> Result<(), Memory> {
    run_round_by::<Brand, Brand, W>(
        rt,
        alloc,
        Blank::new(PARTS),
        Blank::new(PARTS),
        samples,
        shift,
        seed,
        round,
        tally,
    )
}
