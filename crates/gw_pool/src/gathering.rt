//! What was gathered of workers.

ghost use Rattle.std.specs.Prelude.{◌≡◌, ◌+◌, ◌≤◌, ◌<◌, vec_len, vec_capacity, IfOk, IfErr, OnErr};
ghost use Rattle.gw_service.specs.Calls.{most_jobs};
ghost use Rattle.gw_pool.specs.Shares.{share_of};
ghost use Rattle.gw_pool.specs.Workers.{most_workers, most_steps, IsOutcome};

use crate::faults::PoolFault;
use crate::share::Share;
use crate::totals::Totals;
use crate::worker::{Ending, Outcome};
use gw_jobs::Task;
use std::marker::Model;
use std::sync::ledger::Ledger;

/// What several workers left: their parts, and what they did.
#[derive(Drop)]
pub(crate) struct Gathering<R: Ledger, S: Ledger> {
    share: Share<R, S>,
    workers: u32,
    slices: u64,
    short: u32,
    strays: Vec<Task>,
}

impl<R: Ledger, S: Ledger> Model for Gathering<R, S> {
    ghost use Rattle.std.specs.Prelude.{◌-◌, vec_len, vec_capacity};
    ghost use Rattle.gw_pool.specs.Workers as model;

    ghost Value = { model.Gathering };

    ghost view = { λ g.
        model.gathering_of g.share.parts (vec_capacity g.strays - vec_len g.strays) };

    ghost invariant = { λ g. model.IsGathering g.share g.workers g.short (vec_len g.strays) };
}

impl<R: Ledger, S: Ledger> Gathering<R, S> {
    /// What no worker left, beside a share without a part, with room for strays.
    pub(crate) fn nothing(share: Share<R, S>, strays: Vec<Task>) -> Gathering<R, S>
        requires share { share ≡ share_of 0 0 0 }
        requires strays { vec_len strays ≡ 0 }
        ensures parts { result.parts ≡ 0 }
        ensures room { result.room ≡ vec_capacity strays }
    {
        Gathering {
            share,
            workers: 0,
            slices: 0,
            short: 0,
            strays,
        }
    }

    /// The same, with what one worker more left. It takes no memory.
    pub(crate) fn with(self, one: Outcome<R, S>) -> Gathering<R, S>
        requires left { IsOutcome one.share one.ending }
        requires parts { self.parts < most_workers }
        requires room { 0 < self.room }
        ensures parts { result.parts ≡ self.parts + 1 }
        ensures room { self.room ≤ result.room + 1 }
    {
        let Gathering {
            mut share,
            mut workers,
            slices,
            mut short,
            mut strays,
        } = self;
        let Outcome {
            share: part,
            slices: more,
            ending,
        } = one;
        share.join(part);
        match ending {
            Ending::NotStarted => {}
            Ending::Finished => workers += 1,
            Ending::Short => {
                workers += 1;
                short += 1;
            }
            Ending::Stray(task) => {
                workers += 1;
                strays.push_reserved(task);
            }
        }
        Gathering {
            share,
            workers,
            slices: slices.saturating_add(more),
            short,
            strays,
        }
    }

    /// Joins all parts to a share, and tells what the workers did; refused where none was started, who then did nothing. It
    /// takes no memory.
    pub(crate) fn settle(self, crew: &mut Share<R, S>) -> Result<Totals, PoolFault>
        requires parts { self.parts ≤ most_workers }
        requires rows { crew.old.rows ≤ most_jobs }
        requires steps { crew.old.steps ≤ most_steps }
        ensures parts { crew.new.parts ≡ crew.old.parts + self.parts }
        ensures rows { IfOk result (λ t. crew.new.rows ≡ crew.old.rows + vec_len t.strays) }
        ensures steps { IfOk result (λ t. crew.new.steps ≡ crew.old.steps + t.steps) }
        ensures workers { IfOk result (λ t. (0 < t.workers) × (t.workers ≤ self.parts)) }
        ensures endings { IfOk result (λ t. t.short + vec_len t.strays ≤ t.workers) }
        ensures refused { IfErr result (λ e. e ≡ PoolFault.Spawn) }
        ensures same_rows { OnErr result (crew.new.rows ≡ crew.old.rows) }
        ensures same_steps { OnErr result (crew.new.steps ≡ crew.old.steps) }
    {
        let Gathering {
            share,
            workers,
            slices,
            short,
            strays,
        } = self;
        let steps = share.steps();
        crew.join(share);
        if workers == 0 {
            return Err(PoolFault::Spawn);
        }
        Ok(Totals {
            workers,
            slices,
            steps,
            short,
            strays,
        })
    }
}
