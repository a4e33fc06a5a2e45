//! What is read of a machine.

ghost use Rattle.std.specs.Prelude.{◌≡◌, ◌≤◌, ◌<◌, ◌^◌, Some, IfSome, pos, length, sum, option_map, unwrap_or};
ghost use Rattle.std.specs.List.{AllByRecursion};
ghost use Rattle.std.specs.Option.{IsSome};
ghost use Rattle.gw_num.specs.Table.{at};
ghost use Rattle.gw_members.specs.Chain.{first};
ghost use Rattle.gw_members.specs.declared.tx.Event.{Event};
ghost use Rattle.gw_step.specs.Residence.{ResidesOnce};
ghost use Rattle.gw_transactions.specs.Transactions.{Holds, attributes_at, here_count, parameter_at};
ghost use Rattle.gw_machine.specs.EntityTables.{AreTimed};
ghost use Rattle.gw_machine.specs.View.{state_of};
ghost use Rattle.gw_machine.specs.Coherence.{IsHeld, HasSlot};

use crate::entity_tables::EntityTables;
use crate::machine::Machine;
use gw_chains::{Cec, Fec, Waits};
use gw_members::Tx;
use gw_num::Stream;
use gw_step::End;
use gw_transactions::{Transaction, Transactions};

impl Machine {
    // THE JOB

    /// The clock, in clock units.
    #[inline]
    pub fn clock(&self) -> i64
        ensures { result ≡ self.now.clock }
    {
        self.clock
    }

    /// The termination count.
    #[inline]
    pub fn count(&self) -> i64
        ensures { result ≡ self.now.count }
    {
        self.count
    }

    /// The steps made.
    #[inline]
    pub fn steps(&self) -> u64
        ensures { result ≡ self.now.steps }
    {
        self.steps
    }

    /// The named end, if one stands.
    #[inline]
    pub fn named_end(&self) -> Option<End>
        ensures { result ≡ self.now.ended }
    {
        self.ended
    }

    /// The streams, from the first on.
    #[inline]
    pub fn streams(&self) -> [Stream; 16]
        ensures { result ≡ self.now.streams }
    {
        self.streams
    }

    /// The arrivals scheduled so far, by the numbers of GENERATE blocks.
    pub fn arrivals(&self) -> &[u64]
        ensures { result.now ≡ self.now.scheduled }
    {
        &self.scheduled
    }

    /// The entries of all blocks so far.
    pub fn entries(&self) -> u64
        requires { sum self.now.entries < 2 ^ 60 }
        ensures { result ≡ sum self.now.entries }
    {
        self.entries.iter().sum()
    }

    // TRANSACTIONS

    /// The handle of the active transaction, if there is one.
    #[inline]
    pub fn active(&self) -> Option<Tx>
        ensures value { result ≡ self.now.active }
        ensures held { IfSome result (Holds self.now.transactions) }
    {
        self.active
    }

    /// The attributes of a transaction.
    #[inline]
    pub fn transaction(&self, tx: Tx) -> Transaction
        requires { Holds self.now.transactions tx }
        ensures { attributes_at tx.number self.now.transactions.txs ≡ Some result }
    {
        *self.transactions.get(tx)
    }

    /// The value of a parameter of a transaction, where it is set.
    #[inline]
    pub fn parameter(&self, tx: Tx, parameter: u8) -> i64
        requires held { Holds self.now.transactions tx }
        requires set { IsSome (parameter_at tx.number parameter self.now.transactions.txs) }
        ensures { parameter_at tx.number parameter self.now.transactions.txs ≡ Some result }
    {
        self.transactions.parameters(tx).get(parameter)
    }

    /// The value of a parameter of a transaction; 0 where it isn't set.
    #[inline]
    pub fn parameter_or_zero(&self, tx: Tx, parameter: u8) -> i64
        requires held { Holds self.now.transactions tx }
        requires slot { HasSlot self.now parameter }
        ensures { result
            ≡ unwrap_or (parameter_at tx.number parameter self.now.transactions.txs) (pos 0) }
    {
        self.transactions.parameters(tx).get_or_zero(parameter)
    }

    /// How many live transactions have the block of this number, from 1, as their current one; at 0 those that were in no block
    /// yet.
    pub fn here(&self, block: u16) -> usize
        ensures { result ≡ here_count block self.now.transactions.txs }
    {
        self.transactions.here(block)
    }

    /// The live transactions, scheduled arrivals included. Each resides exactly once.
    pub fn transactions(&self) -> &Transactions
        ensures transactions { result.now ≡ self.now.transactions }
        ensures few { length self.now.transactions.txs ≤ 2 ^ 62 }
        ensures resides { ResidesOnce (state_of self.now) }
    {
        &self.transactions
    }

    /// The current events chain. The active transaction isn't on it.
    pub fn current_events(&self) -> &Cec
        ensures { result.now ≡ self.now.current_events }
    {
        &self.current_events
    }

    /// The delay lists and the retry list.
    pub fn waits(&self) -> &Waits
        ensures { result.now ≡ self.now.waits }
    {
        &self.waits
    }

    /// The future events chain, whose handles lead to its transactions.
    pub fn future_events(&self) -> &Fec
        ensures events { result.now ≡ self.now.future_events }
        ensures held { AllByRecursion (IsHeld self.now.transactions) result.now.items }
        ensures few { length result.now.items ≤ 2 ^ 62 }
    {
        &self.future_events
    }

    /// The time of the first of the future events chain, in clock units, if somebody is on it.
    #[inline]
    pub fn first_time(&self) -> Option<i64>
        ensures { result ≡ option_map (λ (e : Event). e.time) (first self.now.future_events.items) }
    {
        self.future_events.first_time()
    }

    // ENTITIES

    /// The entities, a table for each kind. The clock units that passed over them are the clock.
    pub fn entities(&self) -> &EntityTables
        ensures entities { result.now ≡ self.now.entities }
        ensures timed { AreTimed result.now self.now.clock }
    {
        &self.entities
    }
}
