//! What is counted.

use gw_jobs::JobFault;
use std::fmt;

/// One more.
pub fn count(number: &mut u64) {
    *number = number.saturating_add(1);
}

/// So many more.
pub fn add(number: &mut u64, more: u64) {
    *number = number.saturating_add(more);
}

/// Replies that were the model's.
#[derive(Clone, Copy)]
pub struct Replies {
    /// Jobs that were submitted.
    pub submitted: u64,
    /// Jobs that were polled.
    pub polled: u64,
    /// Jobs that were collected.
    pub collected: u64,
    /// Jobs that were cancelled.
    pub cancelled: u64,
    /// Refusals by `UserFull`.
    pub user_full: u64,
    /// Refusals by `ServiceFull`.
    pub service_full: u64,
    /// Refusals by `NotYours`, each of a poll, a collect and a cancel.
    pub not_yours: u64,
    /// Refusals by `Stranger`, each of a poll, a collect and a cancel.
    pub stranger: u64,
    /// Refusals by `NotEnded`.
    pub not_ended: u64,
    /// Refusals by `Cancelled`.
    pub already_cancelled: u64,
    /// Refusals by `AlreadyEnded`.
    pub already_ended: u64,
}

impl Replies {
    /// There was none.
    pub fn new() -> Replies {
        Replies {
            submitted: 0,
            polled: 0,
            collected: 0,
            cancelled: 0,
            user_full: 0,
            service_full: 0,
            not_yours: 0,
            stranger: 0,
            not_ended: 0,
            already_cancelled: 0,
            already_ended: 0,
        }
    }

    /// Counts a refusal. The model knows none for want of memory or of places in the journal.
    pub fn count_refusal(&mut self, fault: JobFault) {
        match fault {
            JobFault::UserFull => count(&mut self.user_full),
            JobFault::ServiceFull => count(&mut self.service_full),
            JobFault::NotYours => count(&mut self.not_yours),
            JobFault::Stranger => count(&mut self.stranger),
            JobFault::NotEnded => count(&mut self.not_ended),
            JobFault::Cancelled => count(&mut self.already_cancelled),
            JobFault::AlreadyEnded => count(&mut self.already_ended),
            JobFault::JournalFull | JobFault::Memory => {}
        }
    }

    /// Counts those of another count too.
    fn add(&mut self, other: Replies) {
        add(&mut self.submitted, other.submitted);
        add(&mut self.polled, other.polled);
        add(&mut self.collected, other.collected);
        add(&mut self.cancelled, other.cancelled);
        add(&mut self.user_full, other.user_full);
        add(&mut self.service_full, other.service_full);
        add(&mut self.not_yours, other.not_yours);
        add(&mut self.stranger, other.stranger);
        add(&mut self.not_ended, other.not_ended);
        add(&mut self.already_cancelled, other.already_cancelled);
        add(&mut self.already_ended, other.already_ended);
    }
}

impl fmt::Display for Replies {
    fn fmt<W: fmt::Write>(&self, f: &mut fmt::Formatter<W>) -> fmt::Result {
        let Replies {
            submitted,
            polled,
            collected,
            cancelled,
            user_full,
            service_full,
            not_yours,
            stranger,
            not_ended,
            already_cancelled,
            already_ended,
        } = *self;
        write!(
            f,
            "submitted {submitted} polled {polled} collected {collected} cancelled {cancelled}, "
        )?;
        write!(
            f,
            "UserFull {user_full} ServiceFull {service_full} NotYours {not_yours} Stranger {stranger} "
        )?;
        write!(
            f,
            "NotEnded {not_ended} Cancelled {already_cancelled} AlreadyEnded {already_ended}"
        )
    }
}

/// What differed from the model.
#[derive(Clone, Copy)]
pub struct Differences {
    /// Replies to submits.
    pub submits: u64,
    /// Replies to polls.
    pub polls: u64,
    /// Replies to collects.
    pub collects: u64,
    /// Replies to cancels.
    pub cancels: u64,
    /// Replies to calls by passes that were made up.
    pub passes: u64,
    /// Services whose slots aren't those from 0 on, each once.
    pub slots: u64,
    /// Jobs that are neither ended nor cancelled once nobody works any more.
    pub jobs: u64,
    /// Jobs whose steps weren't published.
    pub published: u64,
    /// Services whose steps, or rows that are out, aren't those of their jobs, of the crew, and of all runs of workers.
    pub steps: u64,
    /// Services whose workers made other slices than their jobs took.
    pub slices: u64,
    /// Runs of workers that were refused, ran short of memory, or left a stray.
    pub runs: u64,
}

impl Differences {
    /// There is none.
    pub fn new() -> Differences {
        Differences {
            submits: 0,
            polls: 0,
            collects: 0,
            cancels: 0,
            passes: 0,
            slots: 0,
            jobs: 0,
            published: 0,
            steps: 0,
            slices: 0,
            runs: 0,
        }
    }

    /// Counts those of another count too.
    fn add(&mut self, other: Differences) {
        add(&mut self.submits, other.submits);
        add(&mut self.polls, other.polls);
        add(&mut self.collects, other.collects);
        add(&mut self.cancels, other.cancels);
        add(&mut self.passes, other.passes);
        add(&mut self.slots, other.slots);
        add(&mut self.jobs, other.jobs);
        add(&mut self.published, other.published);
        add(&mut self.steps, other.steps);
        add(&mut self.slices, other.slices);
        add(&mut self.runs, other.runs);
    }

    /// Whether no reply differed.
    fn has_no_reply(&self) -> bool {
        self.submits == 0
            && self.polls == 0
            && self.collects == 0
            && self.cancels == 0
            && self.passes == 0
    }

    /// Whether there is none.
    pub fn is_none(&self) -> bool {
        self.has_no_reply()
            && self.slots == 0
            && self.jobs == 0
            && self.published == 0
            && self.steps == 0
            && self.slices == 0
            && self.runs == 0
    }
}

impl fmt::Display for Differences {
    fn fmt<W: fmt::Write>(&self, f: &mut fmt::Formatter<W>) -> fmt::Result {
        let Differences {
            submits,
            polls,
            collects,
            cancels,
            passes,
            slots,
            jobs,
            published,
            steps,
            slices,
            runs,
        } = *self;
        write!(
            f,
            "replies: submits {submits} polls {polls} collects {collects} cancels {cancels} passes {passes}; "
        )?;
        write!(
            f,
            "lost: slots {slots} jobs {jobs} published {published} steps {steps} slices {slices} runs {runs}"
        )
    }
}

/// What was told, and what differed.
#[derive(Clone, Copy)]
pub struct Tally {
    /// Replies that were the model's.
    pub replies: Replies,
    /// What differed from the model.
    pub differences: Differences,
}

impl Tally {
    /// Nothing was told.
    pub fn new() -> Tally {
        Tally {
            replies: Replies::new(),
            differences: Differences::new(),
        }
    }

    /// Counts those of another tally too.
    pub fn add(&mut self, other: Tally) {
        self.replies.add(other.replies);
        self.differences.add(other.differences);
    }
}
