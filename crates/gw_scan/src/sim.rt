//! One job.

ghost use Rattle.std.specs.Prelude.{◌≡◌, ◌≤◌, ◌<◌, ◌-◌, ◌^◌, pos, Some, length, sum, IfOk, IfErr, IsOk, OnErr};
ghost use Rattle.gw_num.specs.Table.{at};
ghost use Rattle.gw_transactions.specs.Transactions.{here_count};
ghost use Rattle.gw_step.specs.State.{delay_list, user_chain};
ghost use Rattle.gw_step.specs.Job.{Alone, IsFinal, start_of};
ghost use Rattle.gw_step.specs.Weight.{weight, most_weight};

use crate::scan::step;
use crate::spec::{Spec, StartFault};
use crate::weight::certified_weight;
use gw_entities::{Facilities, Queues, Savevalues, Storages, Switches, Tables};
use gw_machine::Machine;
use gw_members::Memory;
use gw_step::End;
use std::alloc::Global;
use std::marker::Model;

/// How a job stands.
#[derive(Clone, Copy, PartialEq, Eq)]
pub enum Status {
    /// It has a further step.
    Running,
    /// A named end stands.
    Ended(End),
}

/// A job and its state, which is the one that the job's lone run has after as many steps.
#[derive(Drop)]
pub struct Sim {
    pub(crate) spec: Spec,
    pub(crate) machine: Machine,
}

impl Model for Sim {
    ghost use Rattle.gw_step.specs.Job.{Progress};

    ghost Value = { Progress };

    ghost use Rattle.gw_scan.specs.SimView.{progress_of, HasReached};

    ghost view = { progress_of };

    ghost invariant = { HasReached };
}

impl Sim {
    ghost use Rattle.gw_step.specs.Job.{IsReached};
    ghost use Rattle.gw_scan.specs.Answers.{Answers, StaysPaid, status_at};

    /// A job before its first step: at clock 0, with one arrival scheduled for each GENERATE block; or with a named end to
    /// which a first arrival came, and nothing scheduled (docs/machine.md). Only want of memory refuses it, as `Memory`,
    /// and hands the spec back.
    pub fn start(alloc: Global, spec: Spec) -> Result<Sim, (Spec, StartFault)>
        ensures started { IfOk result (λ sim. (sim.job ≡ spec) × (start_of spec ≡ Some sim.state)) }
        ensures refused { IfErr result (λ e. (e.0 ≡ spec) × (e.1 ≡ StartFault.Memory)) }
    {
        match Machine::start(alloc, spec.verified_object(), spec.count(), spec.streams()) {
            Ok(machine) => Ok(Sim { spec, machine }),
            Err(_) => Err((spec, StartFault::Memory)),
        }
    }

    /// Makes one step, and answers how the job stands then. On an ended job nothing changes, and its end is answered; that
    /// takes no memory. A running job always has a step. On `Memory` nothing changes, and the step may be tried again.
    ///
    /// While the clock stands, what the state weighs and the entries made so far are together at most what they were.
    pub fn step(&mut self) -> Result<Status, Memory>
        ensures job { self.new.job ≡ self.old.job }
        ensures made { IfOk result (λ status.
            Answers status self.old.job self.old.state self.new.state) }
        ensures err { OnErr result (self.new.state ≡ self.old.state) }
        ensures ended { IsFinal self.old.state → IsOk result }
        ensures alone { Alone self.new.job self.new.state.steps self.new.state }
        ensures reached { IsReached self.new }
        ensures moment { StaysPaid self.old self.new }
    {
        if let Some(end) = self.machine.named_end() {
            return Ok(Status::Ended(end));
        }
        let verified = self.spec.verified_object();
        let budget = self.spec.budget();
        let decoded = self.spec.decoded();
        step(&mut self.machine, verified, decoded, budget)?;
        Ok(self.status())
    }

    /// Running, or the named end that stands. A running job has a further step.
    pub fn status(&self) -> Status
        ensures value { result ≡ status_at self.now.state.ended }
        ensures reached { IsReached self.now }
    {
        match self.machine.named_end() {
            None => Status::Running,
            Some(end) => Status::Ended(end),
        }
    }

    /// The clock, in clock units.
    pub fn clock(&self) -> i64
        ensures { result ≡ self.now.state.clock }
    {
        self.machine.clock()
    }

    /// The certified weight of its state: at most so many block entries are still made in this clock moment, by those that
    /// are live and by the arrivals that GENERATE blocks whose interval may be 0 still owe. It is the sum of the weights of
    /// the places of all live transactions, but those that are scheduled for later, and of what is owed
    /// (ours: docs/weights.md). It takes no memory.
    ///
    /// At most 65,536 are live, each at a place of 10^9 at most with a slope of 10^9 at most, which a parameter below 2^63
    /// multiplies; and at most 4,096 blocks owe fewer than 2^32 arrivals each, of 10^9 at most. So it is below 2^109.
    pub fn weight(&self) -> u128
        ensures value { result ≡ weight self.now.job.parts self.now.state }
        ensures range { result ≤ most_weight (2 ^ 63 - 1) }
    {
        let parts = self.spec.verified_object().object().parts();
        certified_weight(parts, &self.machine)
    }

    /// The steps made, at most the budget.
    pub fn steps(&self) -> u64
        ensures { result ≡ self.now.state.steps }
    {
        self.machine.steps()
    }

    /// The termination count: what is left to count down; 0 or less where the job is done.
    pub fn count(&self) -> i64
        ensures { result ≡ self.now.state.count }
    {
        self.machine.count()
    }

    /// The entries of all blocks so far.
    pub fn entries(&self) -> u64
        ensures { result ≡ sum self.now.state.entries }
    {
        self.machine.entries()
    }

    /// The entries of a block so far, by its number from 1; 0 where there is no such block.
    pub fn entries_at(&self, block: u16) -> u64
        ensures { result ≡ at 0 self.now.state.entries block }
    {
        self.machine.entries_at(block)
    }

    /// How many live transactions have the block of this number, from 1, as their current one. Number 0 asks for those
    /// that were in no block yet: the scheduled arrivals.
    pub fn here(&self, block: u16) -> usize
        ensures { result ≡ here_count block self.now.state.transactions }
    {
        self.machine.here(block)
    }

    /// The facilities, each by its number as an entity. The clock units that passed over them are the clock.
    pub fn facilities(&self) -> &Facilities
        ensures facilities { result.now.values ≡ self.now.state.entities.facilities }
        ensures count { length result.now.values ≡ length self.now.job.parts.entities }
        ensures clock { pos result.now.passed ≡ self.now.state.clock }
    {
        &self.machine.entities().facilities
    }

    /// The storages, each by its number as an entity. The clock units that passed over them are the clock.
    pub fn storages(&self) -> &Storages
        ensures storages { result.now.values ≡ self.now.state.entities.storages }
        ensures count { length result.now.values ≡ length self.now.job.parts.entities }
        ensures clock { pos result.now.passed ≡ self.now.state.clock }
    {
        &self.machine.entities().storages
    }

    /// The queues, each by its number as an entity. The clock units that passed over them are the clock.
    pub fn queues(&self) -> &Queues
        ensures queues { result.now.values ≡ self.now.state.entities.queues }
        ensures count { length result.now.values ≡ length self.now.job.parts.entities }
        ensures clock { pos result.now.passed ≡ self.now.state.clock }
    {
        &self.machine.entities().queues
    }

    /// The logic switches, each by its number as an entity: whether it is set.
    pub fn switches(&self) -> &Switches
        ensures switches { result.now ≡ self.now.state.entities.switches }
        ensures count { length result.now ≡ length self.now.job.parts.entities }
    {
        &self.machine.entities().switches
    }

    /// The savevalues, each by its number as an entity: its value.
    pub fn savevalues(&self) -> &Savevalues
        ensures savevalues { result.now ≡ self.now.state.entities.savevalues }
        ensures count { length result.now ≡ length self.now.job.parts.entities }
    {
        &self.machine.entities().savevalues
    }

    /// The tables, each by its number as an entity.
    pub fn tables(&self) -> &Tables
        ensures tables { result.now ≡ self.now.state.entities.tables }
        ensures count { length result.now ≡ length self.now.job.parts.entities }
    {
        &self.machine.entities().tables
    }

    /// How many transactions wait for an entity, by its number from 0: the length of its delay list.
    pub fn waiting_len(&self, entity: u16) -> usize
        requires { entity < length self.now.job.parts.entities }
        ensures { result ≡ length (delay_list entity self.now.state) }
    {
        self.machine.waiting_len(entity)
    }

    /// How many members a user chain has, by its number from 0 as an entity.
    pub fn members(&self, chain: u16) -> usize
        requires { chain < length self.now.job.parts.entities }
        ensures { result ≡ length (user_chain chain self.now.state) }
    {
        self.machine.members(chain)
    }

    /// What it runs, as it was started.
    pub fn spec(&self) -> &Spec
        ensures { result.now ≡ self.now.job }
    {
        &self.spec
    }

    /// The number of the active transaction, from 1, if there is one.
    pub fn active(&self) -> Option<u64>
        ensures { result ≡ self.now.state.lists.active }
    {
        self.machine.active().map(|tx| tx.number)
    }
}
