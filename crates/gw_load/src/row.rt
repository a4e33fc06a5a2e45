//! What a user knows of a job.

use crate::samples::Sample;
use gw_jobs::{Pass, Progress, State};

/// How a job stands, as far as its user was told.
#[derive(Clone, Copy, PartialEq, Eq)]
pub enum Standing {
    /// It is ready or out.
    Running,
    /// It is ended.
    Ended,
    /// It was cancelled while a worker had it, who hasn't given it back.
    Held,
    /// It was cancelled, and nobody has it.
    Cancelled,
}

/// A job of a user, as far as the user was told.
#[derive(Drop)]
pub struct Row {
    /// What it was submitted for.
    pub pass: Pass,
    /// Which of the samples it is.
    pub sample: usize,
    /// How it stands.
    pub standing: Standing,
    /// The steps that were given back.
    pub steps: u64,
}

impl Row {
    /// A job that was submitted just now.
    pub fn new(pass: Pass, sample: usize) -> Row {
        Row {
            pass,
            sample,
            standing: Standing::Running,
            steps: 0,
        }
    }

    /// Whether it may run: it does unless it was ended or given back since.
    pub fn may_run(&self) -> bool {
        match self.standing {
            Standing::Running | Standing::Held => true,
            Standing::Ended | Standing::Cancelled => false,
        }
    }

    /// Whether a job that was held may have so many steps: as many as it had, or, once it was given back, a slice more.
    fn may_be_held(&self, sample: &Sample, slice: u64, steps: u64) -> bool {
        steps == self.steps || steps == sample.after_slice(self.steps, slice)
    }

    /// Whether this may be told of it now, where slices have this length.
    pub fn may_be_told(&self, sample: &Sample, slice: u64, told: Progress) -> bool {
        match (self.standing, told.state) {
            (Standing::Running, State::Ready | State::Out) => {
                self.steps <= told.steps && sample.may_run(told.steps, slice)
            }
            (Standing::Running | Standing::Ended, State::Ended) => sample.ends_after(told.steps),
            (Standing::Held, State::Cancelled) => self.may_be_held(sample, slice, told.steps),
            (Standing::Cancelled, State::Cancelled) => told.steps == self.steps,
            _ => false,
        }
    }

    /// Takes note of what was told. One that was held and has more steps was given back.
    pub fn note(&mut self, told: Progress) {
        if told.state == State::Ended {
            self.standing = Standing::Ended;
        }
        if self.standing == Standing::Held && told.steps > self.steps {
            self.standing = Standing::Cancelled;
        }
        self.steps = told.steps;
    }

    /// Takes note that it was cancelled, when it stood so.
    pub fn note_cancel(&mut self, state: State) {
        self.standing = match state {
            State::Out => Standing::Held,
            _ => Standing::Cancelled,
        };
    }
}
