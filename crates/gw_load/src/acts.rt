//! What users do, one act after the other.

use crate::calls::{Guess, call_by_guess, cancel, collect, poll};
use crate::counts::Tally;
use crate::diary::Diary;
use crate::row::Row;
use crate::samples::Sample;
use crate::shift::Shift;
use gw_jobs::{JobFault, Pass};
use gw_object::Memory;
use gw_pool::{Service, Shared, submit};
use gw_scan::Spec;
use std::alloc::Global;
use std::sync::Wait;
use std::sync::ledger::Ledger;

/// What is done with a job.
#[derive(Clone, Copy)]
enum Act {
    /// It is polled.
    Poll,
    /// It is collected.
    Collect,
    /// It is cancelled.
    Cancel,
    /// It is called by a pass that is made up.
    Guess(Guess),
}

/// Takes note of what a submit came to, before which so many jobs of the user ran, and after it so many others.
fn note_submit(
    diary: &mut Diary,
    user: u64,
    number: usize,
    sample: &Sample,
    submitted: Result<Pass, (Spec, JobFault)>,
    before: u64,
    after: u64,
) -> Result<(), Memory> {
    match submitted {
        Ok(pass) => diary.admit(user, number, pass, after),
        Err((spec, fault)) => {
            diary.note_refusal(sample, &spec, fault, before, after);
            drop(spec);
            Ok(())
        }
    }
}

/// Submits a job while others call and work. Its user's jobs are polled before and after.
fn submit_beside<R: Ledger, S: Ledger, W: Wait>(
    rt: &W,
    alloc: Global,
    service: &Service<R, S>,
    samples: &[Sample],
    slice: u64,
    user: u64,
    number: usize,
    sample: &Sample,
    diary: &mut Diary,
) -> Result<(), Memory> {
    let spec = sample.spec.share()?;
    let before = diary.running_jobs(&service.table().lock(rt), samples, slice, user);
    let submitted = submit(rt, alloc, service.table(), user, spec);
    let after = diary.running_jobs(&service.table().lock(rt), samples, slice, user);
    note_submit(diary, user, number, sample, submitted, before, after)
}

/// Submits a job with the table in hand, so it is known how many of its user's jobs run.
fn submit_in_hand<R: Ledger, S: Ledger>(
    alloc: Global,
    table: &mut Shared<R, S>,
    samples: &[Sample],
    slice: u64,
    user: u64,
    number: usize,
    sample: &Sample,
    diary: &mut Diary,
) -> Result<(), Memory> {
    let spec = sample.spec.share()?;
    let running = diary.running_jobs(table, samples, slice, user);
    let submitted = table.submit(alloc, user, spec);
    note_submit(diary, user, number, sample, submitted, running, running)
}

/// Submits a job of one of the users, which is one of the samples that the shift has.
fn submit_one<R: Ledger, S: Ledger, W: Wait>(
    rt: &W,
    alloc: Global,
    service: &Service<R, S>,
    samples: &[Sample],
    shift: Shift,
    is_in_hand: bool,
    diary: &mut Diary,
) -> Result<(), Memory> {
    let user = diary.draw_user();
    let number = diary.draw(shift.samples) as usize;
    let sample = samples.get(number).ok_or(Memory)?;
    let slice = u64::from(shift.slice);
    if is_in_hand {
        let table = &mut service.table().lock(rt);
        submit_in_hand(alloc, table, samples, slice, user, number, sample, diary)
    } else {
        submit_beside(
            rt, alloc, service, samples, slice, user, number, sample, diary,
        )
    }
}

/// The act with a job that a number below 14 stands for.
fn act_of(number: u32) -> Act {
    match number {
        0..=3 => Act::Poll,
        4..=7 => Act::Collect,
        8 | 9 => Act::Cancel,
        10 => Act::Guess(Guess::OtherUser),
        11 => Act::Guess(Guess::NoSlot),
        12 => Act::Guess(Guess::OtherJob),
        _ => Act::Guess(Guess::Own),
    }
}

/// Does something with a job.
fn act_on<R: Ledger, S: Ledger>(
    alloc: Global,
    table: &mut Shared<R, S>,
    samples: &[Sample],
    slice: u64,
    act: Act,
    row: &mut Row,
    tally: &mut Tally,
) -> Result<(), Memory> {
    match act {
        Act::Poll => poll(table, samples, slice, row, tally),
        Act::Collect => collect(alloc, table, samples, slice, row, tally),
        Act::Cancel => cancel(table, samples, slice, row, tally),
        Act::Guess(guess) => return call_by_guess(alloc, table, samples, row, guess, tally),
    }
    Ok(())
}

/// Does something with one of the jobs, if there is one.
fn act_on_row<R: Ledger, S: Ledger, W: Wait>(
    rt: &W,
    alloc: Global,
    service: &Service<R, S>,
    samples: &[Sample],
    slice: u64,
    act: Act,
    diary: &mut Diary,
) -> Result<(), Memory> {
    let place = diary.draw_row();
    match diary.rows.get_mut(place) {
        Some(row) => act_on(
            alloc,
            &mut service.table().lock(rt),
            samples,
            slice,
            act,
            row,
            &mut diary.tally,
        ),
        None => Ok(()),
    }
}

/// Does what is drawn: 6 of 20 acts are submits, 2 of them with the table in hand.
fn act_once<R: Ledger, S: Ledger, W: Wait>(
    rt: &W,
    alloc: Global,
    service: &Service<R, S>,
    samples: &[Sample],
    shift: Shift,
    diary: &mut Diary,
) -> Result<(), Memory> {
    let number = diary.draw(20);
    if number >= 14 {
        return submit_one(rt, alloc, service, samples, shift, number >= 18, diary);
    }
    let slice = u64::from(shift.slice);
    act_on_row(rt, alloc, service, samples, slice, act_of(number), diary)
}

/// Does so many things, or as many until memory is wanting.
pub fn make_acts<R: Ledger, S: Ledger, W: Wait>(
    rt: &W,
    alloc: Global,
    service: &Service<R, S>,
    samples: &[Sample],
    shift: Shift,
    acts: u32,
    diary: &mut Diary,
) {
    for _ in 0..acts {
        if act_once(rt, alloc, service, samples, shift, diary).is_err() {
            diary.was_short = true;
            return;
        }
    }
}

/// Cancels a job that would come to no end.
fn cancel_if_endless<R: Ledger, S: Ledger>(
    table: &mut Shared<R, S>,
    samples: &[Sample],
    slice: u64,
    row: &mut Row,
    tally: &mut Tally,
) {
    let is_endless = match samples.get(row.sample) {
        Some(sample) => sample.lone.is_none(),
        None => false,
    };
    if is_endless && row.may_run() {
        cancel(table, samples, slice, row, tally);
    }
}

/// Cancels all jobs that would come to no end.
pub fn cancel_endless<R: Ledger, S: Ledger, W: Wait>(
    rt: &W,
    service: &Service<R, S>,
    samples: &[Sample],
    slice: u64,
    diary: &mut Diary,
) {
    for row in diary.rows.iter_mut() {
        cancel_if_endless(
            &mut service.table().lock(rt),
            samples,
            slice,
            row,
            &mut diary.tally,
        );
    }
}
