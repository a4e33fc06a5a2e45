//! Delay lists: calling a waiter.

ghost use Rattle.std.specs.Prelude.{[], ◌≡◌, ◌≤◌, ◌<◌, ◌+◌, Some, length, OnOk};
ghost use Rattle.gw_num.specs.Table.{at};
ghost use Rattle.gw_step.specs.State.{priority_of};
ghost use Rattle.gw_step.specs.Changes as model;
ghost use Rattle.gw_machine.specs.View.{state_of, entity_count};
ghost use Rattle.gw_machine.specs.Leaving.{waiter_at, waiter_come_to, LosesWaiter};
ghost use Rattle.gw_machine.specs.Frames.{OnlyWaitersMove};

use crate::machine::{Machine, entry_or_none};
use gw_members::{Memory, Tx};

impl Machine {
    /// How many wait on the delay list of an entity.
    pub fn waiting_len(&self, entity: u16) -> usize
        requires entity { entity < entity_count self.now }
        ensures { result ≡ length (at [] self.now.waits.lists entity) }
    {
        self.waits.waiting_len(entity)
    }

    /// Makes room for so many more members of the current events chain.
    pub fn reserve_current(&mut self, more: usize) -> Result<(), Memory>
        ensures state { state_of self.new ≡ state_of self.old }
        ensures room { OnOk result (more ≤ self.new.current_events.room) }
        ensures frame { self.new ≡ record self.old { current_events = self.new.current_events } }
    {
        self.current_events.reserve(more)
    }

    /// The transaction at this place of the delay list of an entity is called: it joins the current events chain, behind
    /// its peers.
    pub fn call(&mut self, entity: u16, place: usize, tx: Tx, priority: i32)
        requires entity { entity < entity_count self.old }
        requires there { waiter_at entity place self.old ≡ Some tx }
        requires rank { priority_of self.old.transactions.txs tx.number ≡ priority }
        requires room { 0 < self.old.current_events.room }
        ensures state { state_of self.new ≡ model.called_from entity tx.number (state_of self.old) }
        ensures left { LosesWaiter entity place self.old self.new }
        ensures room { self.old.current_events.room ≤ self.new.current_events.room + 1 }
        ensures frame { OnlyWaitersMove self.old self.new }
    {
        let block = self.transactions.get(tx).next;
        let entries = entry_or_none(&self.entries, block as usize);
        self.wants.drop_leaver(entity, block, entries);
        self.waits.remove(entity, place);
        self.current_events.insert_behind(tx, priority);
    }

    /// The transaction to which the walk over the delay list of an entity has come is called: it joins the current events
    /// chain, behind its peers.
    pub fn call_current(&mut self, entity: u16, tx: Tx, priority: i32)
        requires entity { entity < entity_count self.old }
        requires there { waiter_come_to entity self.old ≡ Some tx }
        requires rank { priority_of self.old.transactions.txs tx.number ≡ priority }
        requires room { 0 < self.old.current_events.room }
        ensures state { state_of self.new ≡ model.called_from entity tx.number (state_of self.old) }
        ensures left { LosesWaiter entity (at 0 self.old.waits.places entity) self.old self.new }
        ensures place { at 0 self.new.waits.places entity ≡ at 0 self.old.waits.places entity }
        ensures room { self.old.current_events.room ≤ self.new.current_events.room + 1 }
        ensures frame { OnlyWaitersMove self.old self.new }
    {
        let block = self.transactions.get(tx).next;
        let entries = entry_or_none(&self.entries, block as usize);
        self.wants.drop_leaver(entity, block, entries);
        self.waits.take(entity);
        self.current_events.insert_behind(tx, priority);
    }

    /// A walk over the delay list of an entity begins, at its first.
    pub fn start_walk(&mut self, entity: u16)
        requires entity { entity < entity_count self.old }
        ensures state { state_of self.new ≡ state_of self.old }
        ensures lists { self.new.waits.lists ≡ self.old.waits.lists }
        ensures place { at 0 self.new.waits.places entity ≡ 0 }
        ensures frame { self.new ≡ record self.old { waits = self.new.waits } }
    {
        self.waits.start_walk(entity);
    }

    /// The walk over the delay list of an entity goes on behind the one to which it has come.
    pub fn pass_waiter(&mut self, entity: u16)
        requires entity { entity < entity_count self.old }
        requires there { at 0 self.old.waits.places entity
            < length (at [] self.old.waits.lists entity) }
        ensures state { state_of self.new ≡ state_of self.old }
        ensures lists { self.new.waits.lists ≡ self.old.waits.lists }
        ensures place { at 0 self.new.waits.places entity ≡ at 0 self.old.waits.places entity + 1 }
        ensures frame { self.new ≡ record self.old { waits = self.new.waits } }
    {
        self.waits.pass(entity);
    }
}
