//! Hand-over of facilities, and admission to storages.

ghost use Rattle.std.specs.Prelude.{MatchOption, [], ◌≡◌, ◌≤◌, ◌<◌, ◌+◌, ◌^◌, Some, true, false, sum, length};
ghost use Rattle.std.specs.Option.{option_copied};
ghost use Rattle.gw_num.specs.Table.{at};
ghost use Rattle.gw_entities.specs.Facility.{idle, is_idle as is_idle_now};
ghost use Rattle.gw_entities.specs.Storage.{has_room};
ghost use Rattle.gw_transactions.specs.Transactions.{Holds, attributes_at};
ghost use Rattle.gw_rules.specs.Kinds.{block_at};
ghost use Rattle.gw_step.specs.State.{delay_list};
ghost use Rattle.gw_step.specs.Changes as change;
ghost use Rattle.gw_step.specs.Changes.{enters_and_falls, facility, storage};
ghost use Rattle.gw_step.specs.Residence.{occurrences};
ghost use Rattle.gw_machine.specs.Leaving.{BecomesBy, waiter_at, waiter_come_to, MovesCurrent};
ghost use Rattle.gw_machine.specs.Admission.{AsksInVain, AdmitsNobody, EndsWalk};
ghost use Rattle.gw_step.specs.Blocks as model;
ghost use Rattle.gw_machine.specs.View.{lists_of, state_of, entity_count};
ghost use Rattle.gw_machine.specs.Coherence.{IsSteady};
ghost use Rattle.gw_machine.specs.Entities.{HasStorage, CanCountEntries, CanCountOwner, handed_over_to, taken_over_by};
ghost use Rattle.gw_machine.specs.Frames.{KeepsFacilities, OnlyEntryIsMade};

use crate::machine::{Machine, entry_or_none, raise};
use gw_members::Tx;
use gw_object::{Block, Units};
use gw_transactions::Transaction;

/// The block of a number, from 1, if there is one.
pub fn block_of(blocks: &[Block], number: u16) -> Option<&Block>
    ensures { option_copied result ≡ block_at blocks.now number }
{
    if number == 0 {
        return None;
    }
    blocks.get(number as usize - 1)
}

/// Whether it is the SEIZE of this facility.
fn is_seize(f: u16, block: Option<&Block>) -> bool
    ensures { result ≡ model.is_seize f (option_copied block.entry) }
{
    match block {
        Some(Block::Seize(facility)) => *facility == f,
        _ => false,
    }
}

/// The units of a storage that a block asks for, if it is its ENTER.
pub(crate) fn asked(e: u16, block: Option<&Block>) -> Option<Units>
    ensures { result ≡ model.units_asked e (option_copied block.entry) }
{
    match block {
        Some(Block::Enter(units)) if units.entity == e => Some(*units),
        _ => None,
    }
}

impl Machine {
    /// A facility that nobody owns is handed over to the first of its delay list, if somebody waits.
    pub fn hand_over(&mut self, blocks: &[Block], f: u16)
        requires steady { IsSteady blocks.now (self.old.steps + 1) self.old }
        requires there { f < length self.old.entities.facilities.values }
        requires idle { is_idle_now (facility f (state_of self.old)) ≡ true }
        requires room { 0 < self.old.current_events.room }
        ensures { BecomesBy (λ s. model.hand_over blocks.now f (delay_list f s) s)
            self.old self.new }
    {
        if let Some(tx) = self.waits.waiter(f, 0) {
            self.hand_over_to(blocks, f, tx);
        }
    }

    /// A facility that nobody owns is handed over to the first of its delay list, where that waits at its SEIZE.
    fn hand_over_to(&mut self, blocks: &[Block], f: u16, tx: Tx)
        requires steady { IsSteady blocks.now (self.old.steps + 1) self.old }
        requires there { f < length self.old.entities.facilities.values }
        requires idle { is_idle_now (facility f (state_of self.old)) ≡ true }
        requires first { waiter_at f 0 self.old ≡ Some tx }
        requires room { 0 < self.old.current_events.room }
        ensures { BecomesBy (taken_over_by blocks.now f tx.number) self.old self.new }
    {
        let transaction = *self.transactions.get(tx);
        if is_seize(f, block_of(blocks, transaction.next)) {
            self.take_over(f, tx, transaction);
        }
    }

    /// The first of the delay list of an idle facility owns it at once, in its SEIZE block.
    fn take_over(&mut self, f: u16, tx: Tx, transaction: Transaction)
        requires there { f < length self.old.entities.facilities.values }
        requires idle { is_idle_now (facility f (state_of self.old)) ≡ true }
        requires first { waiter_at f 0 self.old ≡ Some tx }
        requires held { Holds self.old.transactions tx }
        requires found { attributes_at tx.number self.old.transactions.txs ≡ Some transaction }
        requires block { (transaction.next < length self.old.entries) × (transaction.next ≤ 4096) }
        requires few { (sum self.old.entries < 2 ^ 60) × CanCountOwner f self.old }
        requires room { 0 < self.old.current_events.room }
        ensures { BecomesBy (handed_over_to f tx.number transaction) self.old self.new }
    {
        let next = transaction.next + 1;
        self.call(f, 0, tx, transaction.priority);
        self.enter_as_found(tx, transaction, next);
        self.seize_facility(f, tx.number);
    }

    /// Whether units of a storage are free.
    pub(crate) fn has_free(&self, u: Units) -> bool
        requires there { u.entity < length self.now.entities.storages.values }
        requires few { CanCountEntries u self.now }
        ensures { result ≡ has_room u.number (storage u.entity (state_of self.now)) }
    {
        let storage = self.entities.storages.get(u.entity);
        storage.contents.content + u64::from(u.number) <= u64::from(storage.capacity)
    }

    /// Whether no unit of a storage is free.
    fn has_nothing_free(&self, e: u16) -> bool
        requires { e < length self.now.entities.storages.values }
        ensures { result ≡ model.is_full (storage e (state_of self.now)) }
    {
        let storage = self.entities.storages.get(e);
        storage.contents.content >= u64::from(storage.capacity)
    }

    /// The transaction to which the walk over the delay list of a storage has come; none at its end, and none where no
    /// unit is free, so that nobody else can enter.
    fn next_waiter(&self, e: u16) -> Option<Tx>
        requires there { HasStorage e self.now }
        ensures { MatchOption result (EndsWalk e self.now) (λ tx. waiter_come_to e self.now ≡ Some tx) }
    {
        if self.has_nothing_free(e) {
            return None;
        }
        self.waits.current(e)
    }

    /// Whether a block is an ENTER of a storage, and the units that it asks for are free.
    fn has_asked(&self, blocks: &[Block], e: u16, next: u16) -> bool
        requires steady { IsSteady blocks.now (self.now.steps + 1) self.now }
        requires there { e < entity_count self.now }
        ensures { result ≡ false → AsksInVain blocks.now e next (state_of self.now) }
    {
        match asked(e, block_of(blocks, next)) {
            Some(units) => self.has_free(units),
            None => false,
        }
    }

    /// Whether the units of anybody who waits for a storage are free. Of those who wait at one block and stand behind one
    /// another it looks at the block once.
    pub(crate) fn can_admit(&self, blocks: &[Block], e: u16) -> bool
        requires steady { IsSteady blocks.now (self.now.steps + 1) self.now }
        requires there { e < entity_count self.now }
        ensures { result ≡ false → AdmitsNobody blocks.now e (state_of self.now) }
    {
        let mut refused = 0;
        for waiter in self.waits.waiters(e) {
            let next = self.transactions.get(waiter.tx).next;
            if next != refused {
                if self.has_asked(blocks, e, next) {
                    return true;
                }
                refused = next;
            }
        }
        false
    }

    /// One walk over those who wait for a storage, in their order: each whose units are free enters. It ends where it is known
    /// that nobody else can.
    #[inline(never)]
    pub fn admit(&mut self, blocks: &[Block], e: u16)
        requires steady { IsSteady blocks.now (self.old.steps + 1) self.old }
        requires there { e < entity_count self.old }
        requires room { length (at [] self.old.waits.lists e) ≤ self.old.current_events.room }
        ensures { BecomesBy (λ s. model.admission blocks.now e (delay_list e s) s)
            self.old self.new }
    {
        if !self.may_admit(blocks, e) {
            return;
        }
        self.start_walk(e);
        while let Some(tx) = self.next_waiter(e) {
            if !self.admit_one(blocks, e, tx) {
                self.pass_waiter(e);
            } else if !self.may_admit_more(blocks, e) {
                return;
            }
        }
    }

    /// The transaction to which the walk over the delay list of a storage has come enters, if its units are free.
    fn admit_one(&mut self, blocks: &[Block], e: u16, tx: Tx) -> bool
        requires steady { IsSteady blocks.now (self.old.steps + 1) self.old }
        requires there { e < entity_count self.old }
        requires waiter { waiter_come_to e self.old ≡ Some tx }
        requires room { 0 < self.old.current_events.room }
        ensures state { state_of self.new
            ≡ model.looked_at blocks.now e tx.number (state_of self.old) }
        ensures steady { IsSteady blocks.now (self.old.steps + 1) self.new }
        ensures moves { MovesCurrent result e self.old self.new }
        ensures frame { KeepsFacilities self.old self.new }
    {
        let transaction = *self.transactions.get(tx);
        match asked(e, block_of(blocks, transaction.next)) {
            Some(units) => self.enter_if_free(units, tx, transaction),
            None => false,
        }
    }

    /// The transaction to which the walk over a delay list has come enters its ENTER block, if these units are free.
    fn enter_if_free(&mut self, units: Units, tx: Tx, transaction: Transaction) -> bool
        requires there { HasStorage units.entity self.old }
        requires waiter { waiter_come_to units.entity self.old ≡ Some tx }
        requires held { Holds self.old.transactions tx }
        requires found { attributes_at tx.number self.old.transactions.txs ≡ Some transaction }
        requires block { (transaction.next < length self.old.entries) × (transaction.next ≤ 4096) }
        requires few { (sum self.old.entries < 2 ^ 60) × CanCountEntries units self.old }
        requires room { 0 < self.old.current_events.room }
        ensures state { state_of self.new
            ≡ model.enters_if_free tx.number transaction (state_of self.old) units }
        ensures moves { MovesCurrent result units.entity self.old self.new }
        ensures frame { KeepsFacilities self.old self.new }
    {
        if !self.has_free(units) {
            return false;
        }
        self.take(units);
        self.call_current(units.entity, tx, transaction.priority);
        self.enter_admitted(units.entity, tx, transaction);
        true
    }

    /// The transaction, which was called from the delay list of an entity and is on the current events chain, enters its next
    /// block, and falls to the block after.
    fn enter_admitted(&mut self, e: u16, tx: Tx, transaction: Transaction)
        requires held { Holds self.old.transactions tx }
        requires found { attributes_at tx.number self.old.transactions.txs ≡ Some transaction }
        requires block { (transaction.next < length self.old.entries) × (transaction.next ≤ 4096) }
        requires few { sum self.old.entries < 2 ^ 60 }
        requires called { 1 ≤ occurrences tx.number (lists_of self.old).current_events }
        ensures state { state_of self.new
            ≡ enters_and_falls tx.number transaction (state_of self.old) }
        ensures frame { OnlyEntryIsMade self.old self.new }
    {
        let entries = entry_or_none(&self.entries, transaction.next as usize);
        self.wants.tell_entry(e, transaction.next, entries);
        self.stir = true;
        raise(&mut self.entries, transaction.next as usize);
        self.transactions
            .step_to(tx, transaction.next, transaction.next + 1);
    }
}
