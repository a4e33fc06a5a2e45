//! What users and workers are told of a job.

ghost use Rattle.std.specs.Prelude.{◌≡◌, ◌<◌, ◌≤◌, ◌^◌};
ghost use Rattle.gw_service.specs.Calls.{most_jobs};

use gw_scan::{End, Spec};
use std::marker::Model;

/// An ended job, as it is collected.
#[derive(Drop)]
pub struct Reply {
    /// What it ran.
    pub spec: Spec,
    /// The steps that it made.
    pub steps: u64,
    /// The named end that stands.
    pub end: End,
    /// The report of its final state (docs/report.md).
    pub report: Vec<u8>,
}

/// What is told of a task that was given back. It is made by `Table::give_back` alone.
#[derive(Drop)]
pub struct Returned {
    pub(crate) slot: u32,
    pub(crate) user: u64,
    pub(crate) steps: u64,
    pub(crate) ended: bool,
    pub(crate) cancelled: bool,
}

impl Model for Returned {
    ghost use Rattle.gw_service.specs.Calls.{Receipt};
    ghost use Rattle.gw_jobs.specs.Passes.{receipt_in, IsReceipt};

    ghost Value = { Receipt };

    ghost view = { receipt_in };

    ghost invariant = { IsReceipt };
}

impl Returned {
    /// The slot, below 1,024.
    pub fn slot(&self) -> u32
        ensures value { result ≡ self.now.slot }
        ensures range { result < most_jobs }
    {
        self.slot
    }

    /// The user whose job it is.
    pub fn user(&self) -> u64
        ensures { result ≡ self.now.user }
    {
        self.user
    }

    /// The steps that the job has made in all, at most 2^40.
    pub fn steps(&self) -> u64
        ensures value { result ≡ self.now.steps }
        ensures range { result ≤ 2 ^ 40 }
    {
        self.steps
    }

    /// Whether the row is ended now. That of a cancelled job isn't, though the job may be.
    pub fn is_ended(&self) -> bool
        ensures { result ≡ self.now.ended }
    {
        self.ended
    }

    /// Whether the job was cancelled while it was out.
    pub fn is_cancelled(&self) -> bool
        ensures { result ≡ self.now.cancelled }
    {
        self.cancelled
    }
}
