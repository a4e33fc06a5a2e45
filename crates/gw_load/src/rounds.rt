//! All rounds, and the job with the dear start behind them.

use crate::counts::Tally;
use crate::dear::{Outcome, run_beside_dear_start};
use crate::round::{ACTS, THREADS, run_round};
use crate::samples::{Sample, all_samples};
use crate::shift::shift_of;
use gw_object::Memory;
use std::alloc::Global;
use std::io;
use std::io::Eprint;
use std::rt::Files;
use std::sync::Wait;
use std::thread::Threads;
use std::time::Clock;

/// Which rounds are made.
#[derive(Clone, Copy)]
pub struct Rounds {
    /// How many there are.
    pub number: u32,
    /// Where the draws of what is done in them begin.
    pub seed: u32,
    /// Whether what was told is counted on standard error, behind each round.
    pub is_watched: bool,
}

/// Runs all rounds.
fn run_rounds<W: Threads + Wait + Sync + Eprint>(
    rt: &W,
    alloc: Global,
    samples: &[Sample],
    rounds: Rounds,
) -> Result<Tally, Memory> {
    let mut tally = Tally::new();
    for round in 0..rounds.number {
        let shift = shift_of(round).ok_or(Memory)?;
        run_round(rt, alloc, samples, shift, rounds.seed, round, &mut tally)?;
        if rounds.is_watched {
            let _ = eprintln!(rt; "round {round}: {}", tally.replies);
        }
    }
    Ok(tally)
}

/// What is said of the job with the dear start.
fn told_of(outcome: Outcome) -> &'static str {
    match (outcome.is_right, outcome.is_beside) {
        (true, true) => "another user's jobs were collected",
        (true, false) => "another user's jobs were HELD UP",
        (false, _) => "WRONG replies",
    }
}

/// The sample beside the dear start: one that ends in a few steps.
fn quick(samples: &[Sample]) -> Result<&Sample, Memory> {
    samples.get(1).ok_or(Memory)
}

/// Runs all rounds over these samples, and then the job with the dear start. It prints what differed from the model, and answers
/// whether nothing did and nobody was held up.
fn tell_rounds<W: Threads + Wait + Sync + Clock + Files + Print + Eprint + AllocGlobal>(
    rt: &W,
    samples: &[Sample],
    rounds: Rounds,
) -> io::Result<bool> {
    let tally = run_rounds(rt, rt.alloc(), samples, rounds)?;
    let acts = u64::from(rounds.number) * u64::from(THREADS * ACTS);
    println!(rt;
        "{} rounds, {acts} acts in {THREADS} threads",
        rounds.number
    )?;
    println!(rt; "{}", tally.differences)?;
    let outcome = run_beside_dear_start(rt, quick(samples)?)?;
    println!(rt; "while a dear start was made {}", told_of(outcome))?;
    Ok(tally.differences.is_none() && outcome.is_right && outcome.is_beside)
}

/// Has users call services from four threads while workers run, and compares each reply with the model; then a job with a dear start
/// is submitted while another user's jobs are run. It prints what differed, and answers whether each reply was the model's, nothing
/// was lost, and nobody was held up.
pub fn call_services<W: Threads + Wait + Sync + Clock + Files + Print + Eprint + AllocGlobal>(
    rt: &W,
    rounds: Rounds,
) -> io::Result<bool> {
    let samples = all_samples(rt)?;
    let is_right = tell_rounds(rt, samples.as_slice(), rounds);
    drop(samples);
    is_right
}
