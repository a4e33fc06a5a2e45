//! How long the chains of a job are, and who is active.

ghost use Rattle.std.specs.Prelude.{◌≡◌, length};
ghost use Rattle.gw_transactions.specs.Transactions.{live_count};
ghost use Rattle.gw_step.specs.Changes.{facility};
ghost use Rattle.gw_scan.specs.Views.{active_attributes, delayed_in};
ghost use Rattle.gw_scan.specs.Views as model;

use crate::both::two_next;
use crate::sim::Sim;
use gw_transactions::Transaction;

impl Sim {
    /// How many transactions are on the current events chain. The active one isn't.
    pub fn current_events(&self) -> usize
        ensures { result ≡ length self.now.state.lists.current_events }
    {
        self.machine.current_events().len()
    }

    /// How many transactions are on the future events chain, scheduled arrivals included.
    pub fn future_events(&self) -> usize
        ensures { result ≡ length self.now.state.lists.future_events }
    {
        self.machine.future_events().len()
    }

    /// How many transactions wait on delay lists, those of all facilities and storages together.
    pub fn delayed_len(&self) -> usize
        ensures { result ≡ delayed_in self.now.state }
    {
        let waits = self.machine.waits();
        waits.len() - waits.retry_len()
    }

    /// How many transactions wait on the retry list.
    pub fn retry_len(&self) -> usize
        ensures { result ≡ length self.now.state.lists.retry }
    {
        self.machine.waits().retry_len()
    }

    /// How many transactions are live, scheduled arrivals included.
    pub fn live(&self) -> usize
        ensures { result ≡ live_count self.now.state.transactions }
    {
        self.machine.transactions().live()
    }

    /// The attributes of the active transaction, if there is one.
    pub fn active_transaction(&self) -> Option<Transaction>
        ensures { result ≡ active_attributes self.now.state }
    {
        let tx = self.machine.active()?;
        Some(self.machine.transaction(tx))
    }

    /// The two blocks that the active transaction tries, by their numbers from 1, if it has two: those of the TRANSFER BOTH that
    /// it has entered and not left.
    pub fn next_pair(&self) -> Option<(u16, u16)>
        ensures { result ≡ model.next_pair self.now.job.parts self.now.state }
    {
        let transaction = self.active_transaction()?;
        two_next(self.spec().verified_object().object().parts(), transaction)
    }

    /// The number of the transaction that owns a facility, which is given by its number from 0 as an entity; nobody owns
    /// what is no facility.
    #[tactic(auto, using(gw_num::proofs::Tables::at_past))]
    pub fn owner(&self, number: u16) -> Option<u64>
        ensures { result ≡ (facility number self.now.state).owner }
    {
        let facilities = self.facilities();
        if number as usize
            >= self
                .spec
                .verified_object()
                .object()
                .parts()
                .entities
                .as_slice()
                .len()
        {
            return None;
        }
        facilities.get(number).owner
    }
}
