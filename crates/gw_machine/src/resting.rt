//! Where the active transaction comes to rest, and waking the retry list before.

ghost use Rattle.std.specs.Prelude.{◌≡◌, ◌≤◌, ◌<◌, ◌+◌, None, length, OnOk};
ghost use Rattle.gw_num.specs.Table.{at};
ghost use Rattle.gw_step.specs.State.{priority_of};
ghost use Rattle.gw_step.specs.Changes as model;
ghost use Rattle.gw_step.specs.Placing.{woken_if_stirred, place_by};
ghost use Rattle.gw_machine.specs.View.{state_of, entity_count};
ghost use Rattle.gw_machine.specs.Leaving.{BecomesBy, BecomesOnOk};
ghost use Rattle.gw_machine.specs.Coherence.{HasRoom, CanRest, CanBePlaced};
ghost use Rattle.gw_machine.specs.Frames.{OnlyEventsChange, OnlyWaking, KeepsRoomToWait, LosesRoomToMove};

use crate::machine::Machine;
use gw_assemblies::Assembly;
use gw_members::{Memory, Tx};
use gw_object::{Link, LinkOrder};
use gw_step::{Assembling, Placement};

impl Machine {
    // ROOM

    /// Makes room to wake the retry list.
    pub fn reserve_wake(&mut self) -> Result<(), Memory>
        ensures state { state_of self.new ≡ state_of self.old }
        ensures room { OnOk result (length self.new.waits.retry ≤ self.new.current_events.room) }
        ensures frame { self.new ≡ record self.old { current_events = self.new.current_events } }
    {
        let retrying = self.waits.retry_len();
        if retrying == 0 {
            return Ok(());
        }
        self.current_events.reserve(retrying)
    }

    /// Makes room to wake the retry list, and to let the active transaction rest for a time.
    #[inline(always)]
    pub fn reserve_time(&mut self) -> Result<(), Memory>
        ensures state { state_of self.new ≡ state_of self.old }
        ensures wake { OnOk result (length self.new.waits.retry ≤ self.new.current_events.room) }
        ensures time { OnOk result (0 < self.new.future_events.room) }
        ensures frame { OnlyEventsChange self.old self.new }
    {
        self.reserve_wake()?;
        self.future_events.reserve(1)
    }

    /// Makes room to wake the retry list, and to let the active transaction rest on the current events chain or for a time.
    pub fn reserve_rest(&mut self) -> Result<(), Memory>
        ensures state { state_of self.new ≡ state_of self.old }
        ensures room { OnOk result (HasRoom self.new) }
        ensures frame { OnlyEventsChange self.old self.new }
    {
        let retrying = self.waits.retry_len();
        self.reserve_time()?;
        self.current_events.reserve(retrying + 1)
    }

    /// Makes room besides for one whom the active transaction calls to the current events chain.
    pub fn reserve_assembled(&mut self) -> Result<(), Memory>
        ensures state { state_of self.new ≡ state_of self.old }
        ensures room { OnOk result
            (length self.new.waits.retry + 1 < self.new.current_events.room) }
        ensures frame { self.new ≡ record self.old { current_events = self.new.current_events } }
    {
        self.current_events.reserve(self.waits.retry_len() + 2)
    }

    /// Makes room for one more on the delay list of an entity.
    fn reserve_wait(&mut self, entity: u16) -> Result<(), Memory>
        requires entity { entity < entity_count self.old }
        ensures state { state_of self.new ≡ state_of self.old }
        ensures retry { self.new.waits.retry ≡ self.old.waits.retry }
        ensures room { OnOk result (0 < at 0 self.new.waits.rooms entity) }
        ensures frame { self.new ≡ record self.old { waits = self.new.waits } }
    {
        self.waits.reserve_wait(entity, 1)
    }

    /// Makes room for one more on the retry list.
    pub fn reserve_retry(&mut self) -> Result<(), Memory>
        ensures state { state_of self.new ≡ state_of self.old }
        ensures retry { self.new.waits.retry ≡ self.old.waits.retry }
        ensures room { OnOk result (0 < self.new.waits.retry_room) }
        ensures frame { self.new ≡ record self.old { waits = self.new.waits } }
    {
        self.waits.reserve_retry(1)
    }

    // WAKING

    /// The retry list is woken: all of it joins the current events chain, in its order, each behind its peers.
    #[inline(always)]
    pub fn wake(&mut self)
        requires room { length self.old.waits.retry ≤ self.old.current_events.room }
        ensures state { state_of self.new ≡ model.wake (state_of self.old) }
        ensures room { KeepsRoomToWait self.old self.new }
        ensures left { LosesRoomToMove (length self.old.waits.retry) self.old self.new }
        ensures frame { OnlyWaking self.old self.new }
    {
        self.stir = false;
        if self.waits.retry_len() == 0 {
            return;
        }
        self.waits.wake_all(&mut self.current_events);
    }

    /// Where a block was entered since the retry list was last woken, it is woken.
    fn wake_if_stirred(&mut self)
        requires room { length self.old.waits.retry ≤ self.old.current_events.room }
        ensures state { state_of self.new ≡ woken_if_stirred (state_of self.old) }
        ensures room { KeepsRoomToWait self.old self.new }
        ensures left { LosesRoomToMove (length self.old.waits.retry) self.old self.new }
        ensures frame { OnlyWaking self.old self.new }
    {
        if self.stir {
            self.wake();
        }
    }

    // RESTS

    /// The active transaction rests on the future events chain until a time.
    fn rest_until(&mut self, tx: Tx, time: i64)
        requires rests { CanRest self.old tx }
        requires room { 0 < self.old.future_events.room }
        ensures { BecomesBy (model.rests_until tx.number time) self.old self.new }
    {
        self.active = None;
        self.future_events.schedule(tx, time);
    }

    /// The active transaction rests on the delay list of an entity, behind its peers.
    fn join_delay_list(&mut self, entity: u16, tx: Tx, priority: i32)
        requires rests { CanRest self.old tx }
        requires rank { priority_of self.old.transactions.txs tx.number ≡ priority }
        requires entity { entity < entity_count self.old }
        requires room { 0 < at 0 self.old.waits.rooms entity }
        ensures { BecomesBy (model.waits_for entity tx.number) self.old self.new }
    {
        self.active = None;
        let block = self.transactions.get(tx).next;
        self.wants.add_newcomer(entity, block, &self.entries);
        self.waits.push_wait(entity, tx, priority);
    }

    /// The active transaction rests at the end of the retry list.
    fn join_retry_list(&mut self, tx: Tx, priority: i32)
        requires rests { CanRest self.old tx }
        requires rank { priority_of self.old.transactions.txs tx.number ≡ priority }
        requires room { 0 < self.old.waits.retry_room }
        ensures { BecomesBy (model.retries tx.number) self.old self.new }
    {
        self.active = None;
        self.waits.push_retry(tx, priority);
    }

    /// The active transaction rests on the current events chain, ahead of its peers.
    fn rest_ahead(&mut self, tx: Tx, priority: i32)
        requires rests { CanRest self.old tx }
        requires rank { priority_of self.old.transactions.txs tx.number ≡ priority }
        requires room { 0 < self.old.current_events.room }
        ensures { BecomesBy (model.rests_ahead tx.number) self.old self.new }
    {
        self.active = None;
        self.current_events.insert_ahead(tx, priority);
    }

    /// The active transaction rests on the current events chain, behind its peers.
    fn rest_behind(&mut self, tx: Tx, priority: i32)
        requires rests { CanRest self.old tx }
        requires rank { priority_of self.old.transactions.txs tx.number ≡ priority }
        requires room { 0 < self.old.current_events.room }
        ensures { BecomesBy (model.rests_behind tx.number) self.old self.new }
    {
        self.active = None;
        self.current_events.insert_behind(tx, priority);
    }

    /// The active transaction waits for the rest of its assembly set.
    fn await_set(&mut self, tx: Tx, begins: Assembling)
        requires rests { CanRest self.old tx }
        requires room { 0 < self.old.assemblies.room }
        ensures { BecomesBy (model.awaits_set tx.number begins) self.old self.new }
    {
        self.active = None;
        self.assemblies.begin(Assembly {
            block: begins.block,
            set: begins.set,
            first: tx,
            missing: begins.missing,
        });
    }

    /// The active transaction joins a user chain, at its end or at its front.
    fn join_chain(&mut self, tx: Tx, link: Link)
        requires rests { CanRest self.old tx }
        requires chain { link.chain < entity_count self.old }
        requires room { 0 < at 0 self.old.chains.rooms link.chain }
        ensures { BecomesBy (model.joins_chain tx.number link) self.old self.new }
    {
        self.active = None;
        self.transactions.put_chain(tx, Some(link.chain));
        match link.order {
            LinkOrder::Fifo => self.chains.push_back(link.chain, tx),
            LinkOrder::Lifo => self.chains.push_front(link.chain, tx),
        }
    }

    /// The active transaction is destroyed.
    fn leave_model(&mut self, tx: Tx)
        requires rests { CanRest self.old tx }
        ensures { BecomesBy (model.destroy tx.number) self.old self.new }
    {
        let _ = self.transactions.remove(tx);
        self.active = None;
    }

    // PLACING

    /// The active transaction rests on the future events chain until a time, once the retry list was woken, if a block was
    /// entered since it was last woken.
    #[inline(always)]
    pub fn place_until(&mut self, tx: Tx, time: i64)
        requires rests { CanRest self.old tx }
        requires wake { length self.old.waits.retry ≤ self.old.current_events.room }
        requires room { 0 < self.old.future_events.room }
        ensures { BecomesBy (place_by tx.number (Placement.RestsUntil time)) self.old self.new }
    {
        self.wake_if_stirred();
        self.rest_until(tx, time);
    }

    /// The active transaction is destroyed, once the retry list was woken, if a block was entered since it was last woken.
    #[inline(always)]
    pub fn place_nowhere(&mut self, tx: Tx)
        requires rests { CanRest self.old tx }
        requires wake { length self.old.waits.retry ≤ self.old.current_events.room }
        ensures { BecomesBy (place_by tx.number Placement.LeavesModel) self.old self.new }
    {
        self.wake_if_stirred();
        self.leave_model(tx);
    }

    /// The active transaction, of this priority, is placed: where it doesn't stay active, the retry list is woken before,
    /// if a block was entered since it was last woken.
    pub fn place(&mut self, tx: Tx, priority: i32, placement: Placement)
        requires rests { CanRest self.old tx }
        requires rank { priority_of self.old.transactions.txs tx.number ≡ priority }
        requires room { HasRoom self.old }
        requires entity { CanBePlaced placement self.old }
        ensures { BecomesBy (place_by tx.number placement) self.old self.new }
    {
        match placement {
            Placement::StaysActive => {}
            Placement::RestsUntil(time) => self.place_until(tx, time),
            Placement::JoinsDelayList(entity) => {
                self.wake_if_stirred();
                self.join_delay_list(entity, tx, priority);
            }
            Placement::JoinsRetryList => {
                self.wake_if_stirred();
                self.join_retry_list(tx, priority);
            }
            Placement::RestsAhead => {
                self.wake_if_stirred();
                self.rest_ahead(tx, priority);
            }
            Placement::RestsBehind => {
                self.wake_if_stirred();
                self.rest_behind(tx, priority);
            }
            Placement::AwaitsSet(begins) => {
                self.wake_if_stirred();
                self.await_set(tx, begins);
            }
            Placement::JoinsChain(link) => {
                self.wake_if_stirred();
                self.join_chain(tx, link);
            }
            Placement::LeavesModel => self.place_nowhere(tx),
        }
    }

    /// The active transaction, of this priority, is refused, and waits on the delay list of an entity, behind its peers.
    #[inline(always)]
    pub fn wait_for(&mut self, entity: u16, tx: Tx, priority: i32) -> Result<(), Memory>
        requires rests { CanRest self.old tx }
        requires rank { priority_of self.old.transactions.txs tx.number ≡ priority }
        requires entity { entity < entity_count self.old }
        ensures { BecomesOnOk result (place_by tx.number (Placement.JoinsDelayList entity))
            self.old self.new }
    {
        self.reserve_wake()?;
        self.reserve_wait(entity)?;
        self.wake_if_stirred();
        self.join_delay_list(entity, tx, priority);
        Ok(())
    }
}
