//! The program of all trials, with a word for each: `cases`, `damage`, `scarcity`, `memory`,
//! `load`.
//!
//! Each word has its own words behind it:
//!
//! - `cases SUBJECT ..` runs cases (docs/cases.md);
//! - `damage NAME ..` cuts objects short and changes each byte (docs/gate.md);
//! - `scarcity NAME ..` makes each call that asks for memory once more where it was refused
//!   (docs/gate.md);
//! - `memory` runs two jobs by two workers, of whose requests for memory one may be refused;
//!   standard input says how many are made before (docs/service.md);
//! - `load ROUNDS SEED [-v]` has users call services from four threads (docs/service.md).
//!
//! Files are looked for in the current folder. The status is 1 where a trial wasn't right, and
//! where the words name none.
#![tactic(auto)]

mod words;

use gw_cases::run_subjects;
use gw_load::call_services;
use gw_trials::{damage_objects, report_texts, run_two_jobs};
use std::alloc::AllocError;
use std::io::Eprint;
use std::process::ExitCode;
use std::rt::Files;
use std::sync::Wait;
use std::thread::Threads;
use std::time::Clock;
use std::{env, io};
use words::{Trial, begins_trial, own_words, rounds_of, trial_named};

/// Words that ask for no trial.
fn wrong_words() -> io::Error {
    io::Error::from(io::ErrorKind::InvalidInput)
}

/// Makes a trial, with these words behind it, and answers whether it was right.
fn make_trial<W: Threads + Wait + Sync + Clock + Files + Input + Print + Eprint + AllocGlobal>(
    rt: &W,
    trial: Trial,
    words: &[String],
) -> io::Result<bool> {
    match trial {
        Trial::Cases => run_subjects(rt, words),
        Trial::Damage => damage_objects(rt, words),
        Trial::Scarcity => report_texts(rt, words),
        Trial::Memory if words.is_empty() => run_two_jobs(rt),
        Trial::Memory => Err(wrong_words()),
        Trial::Load => match rounds_of(words) {
            Some(rounds) => call_services(rt, rounds),
            None => Err(wrong_words()),
        },
    }
}

/// Makes the trials that the words name, in their order, and answers whether each was right.
fn make_trials<W: Threads + Wait + Sync + Clock + Files + Input + Print + Eprint + AllocGlobal>(
    rt: &W,
    words: &[String],
) -> io::Result<bool> {
    if !begins_trial(words) {
        return Err(wrong_words());
    }
    let mut is_right = true;
    for i in 0..words.len() {
        if let Some(trial) = trial_named(words[i].as_str()) {
            let (_, behind) = words.split_at(i + 1);
            is_right &= make_trial(rt, trial, own_words(behind))?;
        }
    }
    Ok(is_right)
}

fn main(rt: HostRuntime) -> io::Result<ExitCode> {
    let mut args = env::args(&rt)?;
    let _ = args.next();
    let words: Result<Vec<String>, AllocError> = args.collect(rt.alloc());
    let is_right = make_trials(&rt, &words?)?;
    Ok(ExitCode::from(if is_right { 0 } else { 1 }))
}
