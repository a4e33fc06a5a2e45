//! The state before the first step.

ghost use Rattle.std.specs.Prelude.{◌≡◌, Some, ◌≤◌, ◌<◌, ◌+◌, ◌^◌, length, IfOk, OnOk};
ghost use Rattle.gw_object.specs.Grammar.{HasSpelling};
ghost use Rattle.gw_rules.specs.Kinds.{block_at};
ghost use Rattle.gw_rules.specs.Accepted.{Checked};
ghost use Rattle.gw_step.specs.Operands.{BlocksFit, MayDraw};
ghost use Rattle.gw_step.specs.Start as model;
ghost use Rattle.gw_step.specs.Start.{first_arrivals};
ghost use Rattle.gw_machine.specs.View.{state_of};
ghost use Rattle.gw_machine.specs.Evaluating.{IsReadable, time_of, next_environment_in};
ghost use Rattle.gw_machine.specs.Coherence.{IsOf};
ghost use Rattle.gw_machine.specs.Leaving.{HasArrivedBelow, SchedulesBy, SchedulesOneAtMost, nothing_but};
ghost use Rattle.gw_machine.specs.Slots.{greatest_set};

use crate::at_start::{ObjectTables, Residents};
use crate::machine::Machine;
use crate::slots::greatest_set;
use crate::wants::Wants;
use gw_assemblies::Assemblies;
use gw_chains::{Cec, Fec};
use gw_members::Memory;
use gw_num::Stream;
use gw_object::{Block, Generate, Object};
use gw_rules::Verified;
use gw_step::End;
use std::alloc::Global;

impl Machine {
    /// A machine in which nothing is scheduled, for the blocks and entities of an object; a named end stands in it if one is
    /// given.
    fn nothing(
        alloc: Global,
        object: &Object,
        count: u64,
        streams: [Stream; 16],
        ended: Option<End>,
    ) -> Result<Machine, Memory>
        requires few { count ≤ 2 ^ 40 }
        requires slots { greatest_set object.now.blocks ≤ 64 }
        ensures state { IfOk result (λ m. state_of m ≡ nothing_but object.now count streams ended) }
        ensures slots { IfOk result (λ m. m.last ≡ greatest_set object.now.blocks) }
        ensures readable { IfOk result IsReadable }
    {
        let tables = ObjectTables::new(alloc, object)?;
        let slots = greatest_set(object.parts().blocks.as_slice());
        match Residents::new(alloc, slots, object.parts().entities.as_slice().len()) {
            Ok(residents) => Ok(Machine {
                clock: 0,
                count: count as i64,
                steps: 0,
                streams,
                stir: false,
                scheduled: tables.scheduled,
                transactions: residents.transactions,
                active: None,
                current_events: Cec::new(alloc),
                future_events: Fec::new(alloc),
                waits: residents.lists.waits,
                assemblies: Assemblies::new(alloc),
                chains: residents.lists.chains,
                entities: tables.entities,
                entries: tables.entries,
                ended,
                wants: Wants::new(alloc),
            }),
            Err(memory) => {
                drop(tables);
                Err(memory)
            }
        }
    }

    /// When the first arrival of a GENERATE block comes, in clock units: at the time that the block gives, which draws
    /// nothing, else after a drawn time. The streams are the machine's own, and are moved by the draw.
    fn first_moment(
        &self,
        verified: &Verified,
        g: &Generate,
        streams: &mut [Stream; 16],
    ) -> Result<i64, End>
        requires own { IsOf verified.now self.now }
        requires readable { IsReadable self.now }
        requires interval { MayDraw verified.now (next_environment_in g.now.priority self.now) g.now.interval }
        requires streams { streams.old ≡ self.now.streams }
        ensures { model.first_moment verified.now g.now (state_of self.now) g.now.first
            ≡ time_of result streams.new }
    {
        match g.first {
            Some(time) => Ok(time),
            None => {
                let subject = self.next_subject(g.priority);
                self.drawn_moment(verified, subject, g.interval, streams)
            }
        }
    }

    /// Schedules the first arrival of the block of this number, if it is a GENERATE, or answers the named end that its time
    /// comes to.
    fn first_arrival(
        &mut self,
        verified: &Verified,
        number: u16,
        block: &Block,
    ) -> Result<Option<End>, Memory>
        requires spelled { HasSpelling verified.now }
        requires checked { Checked verified.now }
        requires own { IsOf verified.now self.old }
        requires readable { IsReadable self.old }
        requires there { block_at verified.now.blocks number ≡ Some block.now }
        requires block { number < length self.old.scheduled }
        requires few { HasArrivedBelow (2 ^ 60) self.old }
        ensures made { SchedulesBy result (model.first_arrival verified.now number block.now) self.old self.new }
        ensures readable { OnOk result (IsReadable self.new) }
        ensures entities { OnOk result (self.new.entities ≡ self.old.entities) }
        ensures scheduled { OnOk result (SchedulesOneAtMost self.old.scheduled self.new.scheduled) }
        ensures made_by { OnOk result
            (length self.new.transactions.txs ≤ length self.old.transactions.txs + 1) }
        ensures slots { OnOk result (self.new.last ≡ self.old.last) }
    {
        let g = match block {
            Block::Generate(g) => g,
            _ => return Ok(None),
        };
        let mut streams = self.streams;
        match self.first_moment(verified, g, &mut streams) {
            Ok(moment) => {
                let parameters = self.reserve_arrival()?;
                self.set_streams(&streams);
                self.arrive(number, g.priority, moment, parameters);
                Ok(None)
            }
            Err(end) => Ok(Some(end)),
        }
    }

    /// Schedules the first arrival of each GENERATE block, up to the first block whose time comes to a named end.
    fn first_arrivals(&mut self, verified: &Verified) -> Result<Option<End>, Memory>
        requires own { IsOf verified.now self.old }
        requires readable { IsReadable self.old }
        requires few_blocks { length verified.now.blocks ≤ 4096 }
        requires blocks { length self.old.scheduled ≡ length verified.now.blocks + 1 }
        requires few { HasArrivedBelow (2 ^ 50) self.old }
        ensures made { SchedulesBy result (first_arrivals verified.now 1 verified.now.blocks) self.old self.new }
        ensures slots { OnOk result (self.new.last ≡ self.old.last) }
    {
        let blocks = verified.object().parts().blocks.as_slice();
        for i in 0..blocks.len() {
            let end = self.first_arrival(verified, (i + 1) as u16, &blocks[i])?;
            if end.is_some() {
                return Ok(end);
            }
        }
        Ok(None)
    }

    /// The start state: the first arrivals are scheduled; or nothing is, where one of them comes to a named end, which
    /// stands then.
    pub fn start(
        alloc: Global,
        verified: &Verified,
        count: u64,
        streams: [Stream; 16],
    ) -> Result<Machine, Memory>
        requires few { count ≤ 2 ^ 40 }
        requires fit { BlocksFit (length verified.now.entities) verified.now.blocks }
        ensures state { IfOk result (λ m.
            model.start verified.now count streams ≡ Some (state_of m)) }
        ensures slots { IfOk result (λ m. m.last ≡ greatest_set verified.now.blocks) }
    {
        let mut machine = Machine::nothing(alloc, verified.object(), count, streams, None)?;
        match machine.first_arrivals(verified) {
            Ok(None) => Ok(machine),
            Ok(Some(end)) => {
                drop(machine);
                Machine::nothing(alloc, verified.object(), count, streams, Some(end))
            }
            Err(memory) => {
                drop(machine);
                Err(memory)
            }
        }
    }
}
