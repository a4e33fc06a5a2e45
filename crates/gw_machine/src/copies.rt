//! Copies of the active transaction.

ghost use Rattle.std.specs.Prelude.{◌≡◌, ◌≤◌, ◌<◌, ◌+◌, ◌^◌, length, IfOk, OnOk};
ghost use Rattle.gw_transactions.specs.Transactions.{Holds, kept_of, kept_copies};
ghost use Rattle.gw_step.specs.Changes as model;
ghost use Rattle.gw_machine.specs.View.{state_of};
ghost use Rattle.gw_machine.specs.Coherence.{Carries, Every};
ghost use Rattle.gw_machine.specs.Leaving.{HasRoomForCopies};
ghost use Rattle.gw_machine.specs.Frames.{OnlyCopiesCome, LosesRoomForCopies};

use crate::machine::Machine;
use gw_members::{Memory, Tx};
use gw_transactions::{Parameters, Transaction};

impl Machine {
    /// Makes room for so many copies of a transaction, and answers the parameters of each.
    ///
    /// It fails for want of memory.
    pub fn reserve_copies(&mut self, tx: Tx, copies: u16) -> Result<Vec<Parameters>, Memory>
        requires held { Holds self.old.transactions tx }
        ensures parameters { IfOk result (λ v. v.items ≡ kept_copies copies tx.number self.new.transactions) }
        ensures state { state_of self.new ≡ state_of self.old }
        ensures room { OnOk result (HasRoomForCopies copies self.new) }
        ensures carries { Carries Every self.old.transactions self.new.transactions }
        ensures frame { OnlyCopiesCome self.old self.new }
    {
        let parameters = self.transactions.parameters_for(tx, copies)?;
        self.transactions.reserve(copies as usize)?;
        self.current_events.reserve(copies as usize)?;
        Ok(parameters)
    }

    /// A copy of a transaction is made, with these parameters, which are that one's, and joins the current events chain,
    /// behind its peers, to go to a block.
    fn copy_once(&mut self, tx: Tx, transaction: Transaction, target: u16, parameters: Parameters)
        requires held { Holds self.old.transactions tx }
        requires same { parameters ≡ kept_of tx.number self.old.transactions }
        requires block { transaction.current ≤ 4096 }
        requires few { length self.old.transactions.txs < 2 ^ 60 }
        requires room { HasRoomForCopies 1 self.old }
        ensures state { state_of self.new
            ≡ model.copy_to tx.number transaction target (state_of self.old) }
        ensures held { Holds self.new.transactions tx }
        ensures same { kept_of tx.number self.new.transactions
            ≡ kept_of tx.number self.old.transactions }
        ensures made { length self.new.transactions.txs ≡ length self.old.transactions.txs + 1 }
        ensures room { LosesRoomForCopies 1 self.old self.new }
        ensures frame { OnlyCopiesCome self.old self.new }
    {
        let mut copy = transaction;
        copy.next = target;
        let made = self.transactions.insert_with(copy, parameters);
        self.current_events.insert_behind(made, copy.priority);
    }

    /// Copies of a transaction are made, one for each of these parameters, which are that one's, and join the current
    /// events chain, one after the other, each behind its peers, to go to a block.
    pub fn make_copies(
        &mut self,
        tx: Tx,
        transaction: Transaction,
        target: u16,
        copies: u16,
        mut parameters: Vec<Parameters>,
    )
        requires held { Holds self.old.transactions tx }
        requires same { parameters.items ≡ kept_copies copies tx.number self.old.transactions }
        requires block { transaction.current ≤ 4096 }
        requires few { length self.old.transactions.txs + copies < 2 ^ 60 }
        requires room { HasRoomForCopies copies self.old }
        ensures state { state_of self.new
            ≡ model.copies_made copies tx.number transaction target (state_of self.old) }
        ensures held { Holds self.new.transactions tx }
        ensures frame { OnlyCopiesCome self.old self.new }
    {
        while let Some(for_copy) = parameters.pop() {
            self.copy_once(tx, transaction, target, for_copy);
        }
    }
}
