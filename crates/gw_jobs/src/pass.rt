//! What a user has for a job.

ghost use Rattle.std.specs.Prelude.{◌≡◌};

use gw_scan::Spec;
use std::marker::Model;

/// What a user has for a job: the user, the job's slot in the table, and what the job runs. A pass is made by
/// `Table::submit`, or again by `Pass::of`; it leads to a row only where all three are the row's.
#[derive(Drop)]
pub struct Pass {
    user: u64,
    slot: u32,
    spec: Spec,
}

impl Model for Pass {
    ghost use Rattle.gw_service.specs.Calls as calls;
    ghost use Rattle.gw_jobs.specs.Passes.{pass_of};

    ghost Value = { calls.Pass };

    ghost view = { pass_of };
}

impl Pass {
    /// A pass of this user, for this slot and this job. It takes no memory.
    pub fn of(user: u64, slot: u32, spec: Spec) -> Pass
        ensures { result ≡ record { user = user; slot = slot; job = spec } }
    {
        Pass { user, slot, spec }
    }

    /// The user, as the number that was handed in.
    pub fn user(&self) -> u64
        ensures { result ≡ self.now.user }
    {
        self.user
    }

    /// The slot, from 0.
    pub fn slot(&self) -> u32
        ensures { result ≡ self.now.slot }
    {
        self.slot
    }

    /// What the job runs.
    pub fn spec(&self) -> &Spec
        ensures { result.now ≡ self.now.job }
    {
        &self.spec
    }
}
