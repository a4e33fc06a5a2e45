//! What a block does to the entity that it names.

ghost use Rattle.std.specs.Prelude.{◌≡◌, ◌≤◌, ◌<◌, ◌+◌, ◌^◌, true, length};
ghost use Rattle.gw_num.specs.Table.{at};
ghost use Rattle.gw_entities.specs.Contents.{empty};
ghost use Rattle.gw_entities.specs.Facility.{idle, is_idle, is_owned_by, with_owner, without_owner, seizure_by};
ghost use Rattle.gw_entities.specs.Queue.{with_arrivals, with_departures};
ghost use Rattle.gw_entities.specs.Storage.{has_room, with_entries, with_exits, entry_of};
ghost use Rattle.gw_entities.specs.Table.{table_at};
ghost use Rattle.gw_step.specs.Blocks as model;
ghost use Rattle.gw_step.specs.Blocks.{has_to_wait, switch_after};
ghost use Rattle.gw_step.specs.Changes.{facility, storage, queue, switch, table};
ghost use Rattle.gw_step.specs.Changes.{put_savevalue};
ghost use Rattle.gw_machine.specs.View.{state_of, entity_count};
ghost use Rattle.gw_machine.specs.Evaluating.{IsReadable};
ghost use Rattle.gw_machine.specs.Leaving.{TabulatesIn};
ghost use Rattle.gw_machine.specs.Entities.{facility_by, storage_by, queue_by, switch_by, CanCountEntries, IsWithinEntries};
ghost use Rattle.gw_machine.specs.Frames.{HasAsManyEntities, OnlyEntitiesChange};

use crate::machine::Machine;
use gw_entities::{Facility, Storage};
use gw_num::NumFault;
use gw_object::{Condition, Logic, SwitchAction, Units};

/// Whether the transaction of this number has to wait for a facility, since another owns it.
fn is_anothers(facility: Facility, number: u64) -> bool
    ensures { result ≡ has_to_wait (seizure_by number facility) }
{
    match facility.owner {
        None => false,
        Some(owner) => owner != number,
    }
}

/// Whether so many units of a storage have to be waited for, since they are within its capacity and not free.
fn is_short_of(storage: Storage, number: u32) -> bool
    requires { storage.contents.content ≤ 2 ^ 62 }
    ensures { result ≡ has_to_wait (entry_of number storage) }
{
    number <= storage.capacity
        && storage.contents.content + u64::from(number) > u64::from(storage.capacity)
}

/// Whether no unit of a storage is free.
fn is_full(storage: Storage) -> bool
    ensures { result ≡ model.is_full storage }
{
    u64::from(storage.capacity) <= storage.contents.content
}

/// Whether nothing is inside of a storage.
fn is_empty(storage: Storage) -> bool
    ensures { result ≡ model.is_empty storage }
{
    storage.contents.content == 0
}

impl Machine {
    // FACILITIES

    /// Whether the transaction of this number has to wait for a facility.
    pub fn waits_for_facility(&self, f: u16, number: u64) -> bool
        requires { f < length self.now.entities.facilities.values }
        ensures { result ≡ has_to_wait (seizure_by number (facility f (state_of self.now))) }
    {
        is_anothers(self.entities.facilities.get(f), number)
    }

    /// The transaction of this number seizes a facility, if it is idle.
    pub fn seize_facility(&mut self, f: u16, number: u64)
        requires there { f < length self.old.entities.facilities.values }
        requires few { (at idle self.old.entities.facilities.values f).entries < 2 ^ 62 }
        requires idle { is_idle (facility f (state_of self.old)) ≡ true }
        ensures state { state_of self.new ≡ facility_by (with_owner number) f (state_of self.old) }
        ensures frame { OnlyEntitiesChange self.old self.new }
        ensures others { self.new.entities ≡ record self.old.entities { facilities = self.new.entities.facilities } }
        ensures table { HasAsManyEntities self.old self.new }
    {
        self.entities.facilities.seize(f, number);
    }

    /// The transaction of this number gives a facility up.
    pub fn release_facility(&mut self, f: u16, number: u64)
        requires there { f < length self.old.entities.facilities.values }
        requires owner { is_owned_by number (facility f (state_of self.old)) ≡ true }
        ensures state { state_of self.new ≡ facility_by without_owner f (state_of self.old) }
        ensures frame { OnlyEntitiesChange self.old self.new }
        ensures others { self.new.entities ≡ record self.old.entities { facilities = self.new.entities.facilities } }
        ensures table { HasAsManyEntities self.old self.new }
    {
        self.entities.facilities.release(f, number);
    }

    // STORAGES

    /// Whether units of a storage have to be waited for.
    pub fn waits_for_units(&self, u: Units) -> bool
        requires { u.entity < length self.now.entities.storages.values }
        ensures { result ≡ has_to_wait (entry_of u.number (storage u.entity (state_of self.now))) }
    {
        is_short_of(self.entities.storages.get(u.entity), u.number)
    }

    /// Units of a storage are taken, if they are free.
    pub fn take(&mut self, u: Units)
        requires there { u.entity < length self.old.entities.storages.values }
        requires few { CanCountEntries u self.old }
        requires room { has_room u.number (storage u.entity (state_of self.old)) ≡ true }
        ensures state { state_of self.new
            ≡ storage_by (with_entries u.number) u.entity (state_of self.old) }
        ensures frame { OnlyEntitiesChange self.old self.new }
        ensures others { self.new.entities ≡ record self.old.entities { storages = self.new.entities.storages } }
    {
        self.entities.storages.enter(u.entity, u.number);
    }

    /// Units of a storage are given back.
    pub fn give_back(&mut self, u: Units)
        requires there { u.entity < length self.old.entities.storages.values }
        requires inside { u.number ≤ (storage u.entity (state_of self.old)).contents.content }
        ensures state { state_of self.new
            ≡ storage_by (with_exits u.number) u.entity (state_of self.old) }
        ensures frame { OnlyEntitiesChange self.old self.new }
        ensures others { self.new.entities ≡ record self.old.entities { storages = self.new.entities.storages } }
    {
        self.entities.storages.leave(u.entity, u.number);
    }

    // QUEUES

    /// Units join a queue.
    pub fn join(&mut self, u: Units)
        requires there { u.entity < length self.old.entities.queues.values }
        requires inside { IsWithinEntries (at empty self.old.entities.queues.values u.entity) }
        requires few { (at empty self.old.entities.queues.values u.entity).entries + u.number ≤ 2 ^ 62 }
        ensures state { state_of self.new
            ≡ queue_by (with_arrivals u.number) u.entity (state_of self.old) }
        ensures frame { OnlyEntitiesChange self.old self.new }
        ensures others { self.new.entities ≡ record self.old.entities { queues = self.new.entities.queues } }
    {
        self.entities.queues.join_queue(u.entity, u.number);
    }

    /// Units depart from a queue.
    pub fn depart_units(&mut self, u: Units)
        requires there { u.entity < length self.old.entities.queues.values }
        requires inside { u.number ≤ (queue u.entity (state_of self.old)).content }
        ensures state { state_of self.new
            ≡ queue_by (with_departures u.number) u.entity (state_of self.old) }
        ensures frame { OnlyEntitiesChange self.old self.new }
        ensures others { self.new.entities ≡ record self.old.entities { queues = self.new.entities.queues } }
    {
        self.entities.queues.depart(u.entity, u.number);
    }

    // LOGIC SWITCHES AND SAVEVALUES

    /// A logic switch is set, reset or inverted.
    pub fn turn_switch(&mut self, logic: Logic)
        requires { logic.switch < length self.old.entities.switches }
        ensures state { state_of self.new
            ≡ switch_by (switch_after logic.action) logic.switch (state_of self.old) }
        ensures frame { OnlyEntitiesChange self.old self.new }
        ensures others { self.new.entities ≡ record self.old.entities { switches = self.new.entities.switches } }
    {
        match logic.action {
            SwitchAction::Set => self.entities.switches.set(logic.switch, true),
            SwitchAction::Reset => self.entities.switches.set(logic.switch, false),
            SwitchAction::Invert => self.entities.switches.invert(logic.switch),
        }
    }

    /// A savevalue has this value from now on.
    pub fn set_savevalue(&mut self, savevalue: u16, value: i64)
        requires { savevalue < length self.old.entities.savevalues }
        ensures state { state_of self.new ≡ put_savevalue savevalue value (state_of self.old) }
        ensures frame { OnlyEntitiesChange self.old self.new }
        ensures others { self.new.entities ≡ record self.old.entities { savevalues = self.new.entities.savevalues } }
    {
        self.entities.savevalues.set(savevalue, value);
    }

    // TABLES

    /// A value is entered into a table. `Number` where an `i64` can't hold the sum of its values, and nothing changes then.
    pub fn tabulate(&mut self, t: u16, value: i64) -> Result<(), NumFault>
        requires there { t < length self.old.entities.tables }
        requires few { (table_at t self.old.entities.tables).count < 2 ^ 62 }
        ensures made { TabulatesIn result t value self.old self.new }
        ensures frame { OnlyEntitiesChange self.old self.new }
        ensures others { self.new.entities ≡ record self.old.entities { tables = self.new.entities.tables } }
        ensures table { length self.new.entities.tables ≡ length self.old.entities.tables }
    {
        self.entities.tables.tabulate(t, value)
    }

    // CONDITIONS

    /// Whether it is so with an entity.
    pub fn is_so(&self, condition: Condition, entity: u16) -> bool
        requires readable { IsReadable self.now }
        requires there { entity < entity_count self.now }
        ensures { result ≡ model.is_so condition entity (state_of self.now) }
    {
        match condition {
            Condition::SwitchSet => self.entities.switches.get(entity),
            Condition::SwitchReset => !self.entities.switches.get(entity),
            Condition::FacilityInUse => self.entities.facilities.get(entity).owner.is_some(),
            Condition::FacilityNotInUse => self.entities.facilities.get(entity).owner.is_none(),
            Condition::StorageFull => is_full(self.entities.storages.get(entity)),
            Condition::StorageEmpty => is_empty(self.entities.storages.get(entity)),
            Condition::StorageNotFull => !is_full(self.entities.storages.get(entity)),
            Condition::StorageNotEmpty => !is_empty(self.entities.storages.get(entity)),
        }
    }
}
