//! The clock: who is due, and who becomes active.

ghost use Rattle.std.specs.Prelude.{◌≡◌, ◌≤◌, ◌<◌, ◌+◌, [], None, Some, pos, ◌≤ℤ◌, length, IsTrue, false};
ghost use Rattle.std.specs.List.{AllByRecursion};
ghost use Rattle.gw_members.specs.Chain.{later};
ghost use Rattle.gw_step.specs.Changes as change;
ghost use Rattle.gw_machine.specs.View.{state_of, lists_of};
ghost use Rattle.gw_machine.specs.Coherence.{IsHeld, DueJoin};
ghost use Rattle.gw_machine.specs.Leaving.{BecomesBy, BecomesOnOk, BecomesActive};
ghost use Rattle.gw_machine.specs.Frames.{LosesRoomToMove};

use crate::machine::Machine;
use gw_chains::{Cec, Fec};
use gw_members::Memory;
use gw_transactions::Transactions;

/// All that are due join the current events chain, each behind its peers. There is room.
fn move_due(
    transactions: &Transactions,
    future_events: &mut Fec,
    current_events: &mut Cec,
    time: i64,
)
    requires held { AllByRecursion (IsHeld transactions.now) future_events.old.items }
    requires room { length future_events.old.items ≤ current_events.old.room }
    ensures current { DueJoin transactions.now time future_events.old current_events.old current_events.new }
    ensures future { future_events.new.items ≡ later (λ e. e.time) time future_events.old.items }
    ensures left { current_events.old.room
        ≤ current_events.new.room + length future_events.old.items }
{
    while let Some(tx) = future_events.pop_due(time) {
        let priority = transactions.get(tx).priority;
        current_events.insert_behind(tx, priority);
    }
}

impl Machine {
    /// The clock goes to a time, and all that are due join the current events chain. There is room.
    pub fn move_clock(&mut self, time: i64)
        requires later { (pos 0 ≤ℤ self.old.clock) × (self.old.clock ≤ℤ time) }
        requires room { length self.old.future_events.items ≤ self.old.current_events.room }
        ensures state { BecomesBy (change.clock_moves time) self.old self.new }
        ensures room { LosesRoomToMove (length self.old.future_events.items) self.old self.new }
        ensures waits { self.new.waits ≡ self.old.waits }
    {
        move_due(
            &self.transactions,
            &mut self.future_events,
            &mut self.current_events,
            time,
        );
        let passed = time.abs_diff(self.clock);
        self.entities.pass_time(passed);
        self.clock = time;
    }

    /// The clock goes to a time, all that are due join the current events chain, and the retry list is woken.
    pub fn move_clock_and_wake(&mut self, time: i64) -> Result<(), Memory>
        requires later { (pos 0 ≤ℤ self.old.clock) × (self.old.clock ≤ℤ time) }
        ensures { BecomesOnOk result (λ s. change.wake (change.clock_moves time s))
            self.old self.new }
    {
        let due = self.future_events.len();
        self.current_events.reserve(due + self.waits.retry_len())?;
        self.move_clock(time);
        self.wake();
        Ok(())
    }

    /// The first of the current events chain becomes active, if there is one.
    pub fn activate_first(&mut self) -> bool
        requires nobody { self.old.active ≡ None }
        ensures first { IsTrue result → BecomesActive self.old self.new }
        ensures none { result ≡ false → (lists_of self.old).current_events ≡ [] }
        ensures state { result ≡ false → state_of self.new ≡ state_of self.old }
        ensures future { result ≡ false → self.new.future_events ≡ self.old.future_events }
        ensures waits { result ≡ false → self.new.waits ≡ self.old.waits }
        ensures slots { self.new.last ≡ self.old.last }
    {
        match self.current_events.pop_first() {
            Some(tx) => {
                self.active = Some(tx);
                true
            }
            None => false,
        }
    }
}
