//! The slab of a job's live transactions, which contracts see as tables by number.
//!
//! It gives and takes attributes, lends parameters, one by one or all that are listed, and takes
//! values that are set and the user chain of a member; each call leaves the other transactions as
//! they were. A handle that is held leads to its transaction until it is removed.
#![tactic(auto)]

ghost use Rattle.std.specs.Prelude.{◌≡◌, ◌≤◌, ℕ, pos, None, Some, ◌<◌, ◌+◌, ◌^◌, ◌∷◌, [], length, unwrap_or, IfOk, OnOk, OnErr, IsPermutation};
ghost use Rattle.std.specs.Option.{IsSome};
ghost use Rattle.gw_num.specs.Table.{at, put};
ghost use Rattle.gw_transactions.specs.Parameters.{none_of};

mod beside;
mod block_counts;
mod iter;
mod parameters;

use crate::beside::{forget, keep, reserve_beside, row, set};
use crate::block_counts::BlockCounts;
pub use crate::iter::Iter;
pub use crate::parameters::Parameters;
use gw_members::{Memory, Tx};
use slab::Slab;
use std::alloc::Global;
use std::marker::Model;

/// A transaction: what moves through the blocks of a model, with the attributes that the GPSS World Reference Manual
/// lists for it in its chapter on entities, but for its parameters and its user chain, which lie beside it.
#[derive(Clone, Copy, PartialEq, Eq)]
pub struct Transaction {
    /// The number of the block that it is in, from 1, or 0 before its first.
    pub current: u16,
    /// The number of the block that it tries to enter next, from 1.
    pub next: u16,
    /// Its priority: a greater one goes before a smaller one.
    pub priority: i32,
    /// Its mark time, in clock units.
    pub mark: i64,
    /// The number of its assembly set, which is the number of the set's first transaction.
    pub set: u64,
}

/// A transaction as it is kept. Its parameters lie elsewhere, and are copied for copies of it alone.
#[derive(Drop)]
pub(crate) struct Kept {
    /// Its attributes.
    pub attributes: Transaction,
    /// The key of its parameters among those of all, if it has any.
    pub key: usize,
    /// The entity, by its number from 0, that is the user chain of which it is a member.
    pub chain: Option<u16>,
}

/// The live transactions of a job, each under a number of its own: 1 for the first, then 2, and no number twice.
///
/// A handle, `Tx`, has a transaction's number and its place in memory; from `insert` to `remove` it serves to read
/// and write the transaction. Contracts see two tables by number, the transactions and their places, and how many
/// more fit with no allocation.
#[derive(Drop)]
pub struct Transactions {
    // Each transaction with its number.
    slots: Slab<(u64, Kept)>,
    // The parameters of each, if they have any.
    beside: Slab<Parameters>,
    // How many were made so far.
    created: u64,
    // How many have the block of each number as their current one.
    here: BlockCounts,
    // The parameters of one of which none is set.
    unset: Parameters,
    // Where parameters get their memory.
    alloc: Global,
}

impl Model for Transactions {
    ghost use Rattle.gw_transactions.specs.Transactions.{Population};

    ghost Value = { Population };

    ghost use Rattle.std.specs.Prelude.{◌≡◌, ◌+◌, ◌≤◌};
    ghost use Rattle.slab.specs.Slab.{slab_len};
    ghost use Rattle.gw_transactions.specs.Parameters.{none_of};
    ghost use Rattle.gw_transactions.specs.Slots.{population_of, AreNumbered, AreCounted, HaveTheirOwn};

    ghost view = { λ t. population_of t.slots t.beside (t.created + 1) t.unset.last };

    ghost invariant = { λ t. AreNumbered t.slots.slots (t.created + 1) × (slab_len t.slots ≤ t.slots.capacity)
        × AreCounted t.here (population_of t.slots t.beside (t.created + 1) t.unset.last).txs
        × HaveTheirOwn t.unset.last t.beside t.slots.slots × (t.unset ≡ none_of t.unset.last) };
}

impl Transactions {
    ghost use Rattle.gw_transactions.specs.Transactions.{Holds, KeepsHandles, KeepsOtherHandles, KeepsRest, IsSound, with_newcomer, with_place, attributes_at, put_attributes, StepsTo, kept_copies, chain_of, put_chain, kept_of, put_parameter, listed_transactions, live_count, here_count};

    /// None yet: the first number is 1. Each will have as many parameters. It takes memory for the counts of `here`, and none
    /// for transactions.
    ///
    /// It fails for want of memory.
    pub fn new(alloc: Global, last: u8) -> Result<Self, Memory>
        requires { last ≤ 64 }
        ensures txs { IfOk result (λ t. t.txs ≡ None ∷ []) }
        ensures places { IfOk result (λ t. t.places ≡ None ∷ []) }
        ensures last { IfOk result (λ t. t.last ≡ last) }
        ensures sound { IfOk result IsSound }
    {
        let here = BlockCounts::new(alloc)?;
        let unset = Parameters::unset(alloc, last)?;
        Ok(Transactions {
            slots: Slab::new(alloc),
            beside: Slab::new(alloc),
            created: 0,
            here,
            unset,
            alloc,
        })
    }

    /// Makes room for so many more transactions, so that `insert` needs no memory.
    ///
    /// It fails for want of memory, only where there was not that much room, and then leaves the transactions as they were.
    #[inline(always)]
    pub fn reserve(&mut self, more: usize) -> Result<(), Memory>
        ensures txs { self.new.txs ≡ self.old.txs }
        ensures places { self.new.places ≡ self.old.places }
        ensures room { OnOk result (more ≤ self.new.room) }
        ensures last { self.new.last ≡ self.old.last }
        ensures kept { self.old.room ≤ self.new.room }
        ensures refused { OnErr result (self.old.room < more) }

        // What follows for callers.
        ensures handles { KeepsHandles self.old self.new }
        ensures sound { IsSound self.new }
    {
        self.slots.reserve(more)?;
        reserve_beside(&mut self.beside, &self.unset, more)
    }

    /// The number of the next transaction, from 1: how many were made so far, and one.
    pub fn next_number(&self) -> u64
        ensures number { result ≡ length self.now.txs }
        ensures sound { IsSound self.now }
    {
        self.created + 1
    }

    /// How many transactions there are now, those included that wait for their first block.
    pub fn live(&self) -> usize
        ensures { result ≡ live_count self.now.txs }
    {
        self.slots.len()
    }

    /// The transactions that there are now, in no particular order: the attributes of each, its user chain and its
    /// parameters.
    pub fn iter(&self) -> Iter<'_>
        ensures listed { IsPermutation (listed_transactions self.now.txs) result }
        ensures len { length result ≡ live_count self.now.txs }
    {
        Iter {
            slots: self.slots.iter(),
            beside: &self.beside,
            unset: &self.unset,
        }
    }

    /// How many transactions have this block as their current one: a block's number, from 1, or 0 for those that were in
    /// none yet. The count is kept: it looks at no transaction.
    pub fn here(&self, block: u16) -> usize
        ensures { result ≡ here_count block self.now.txs }
    {
        self.here.get(block)
    }

    /// How many transactions have each block as their current one, by the blocks' numbers, and at 0 how many were in none
    /// yet.
    pub fn here_by_block(&self) -> &[usize]
        ensures { (block : ℕ) → at 0 result.now block ≡ here_count block self.now.txs }
    {
        self.here.as_slice()
    }

    /// Parameters for a transaction that is to be made, none of which is set.
    ///
    /// It fails for want of memory.
    pub fn new_parameters(&self) -> Result<Parameters, Memory>
        ensures { IfOk result (λ made. made ≡ none_of self.now.last) }
    {
        self.unset.copy(self.alloc)
    }

    /// The parameters of a transaction that is still to be made, none of which is set.
    pub fn no_parameters(&self) -> &Parameters
        ensures { result.now ≡ none_of self.now.last }
    {
        &self.unset
    }

    /// The parameters of the transaction of a handle once more, for so many copies of it.
    ///
    /// It fails for want of memory.
    pub fn parameters_for(&self, tx: Tx, copies: u16) -> Result<Vec<Parameters>, Memory>
        requires { Holds self.now tx }
        ensures { IfOk result (λ v. v.items ≡ kept_copies copies tx.number self.now) }
    {
        let parameters = self.parameters(tx);
        let mut all = Vec::with_capacity(self.alloc, copies as usize)?;
        for _ in 0..copies {
            all.push_reserved(parameters.copy(self.alloc)?);
        }
        Ok(all)
    }

    /// Puts a transaction with these parameters under the next number, in room that `reserve` made; it is a member of no user
    /// chain. Its current block has a number from 0 to 4,096.
    #[inline(always)]
    pub fn insert_with(&mut self, transaction: Transaction, parameters: Parameters) -> Tx
        requires room { 0 < self.old.room }
        requires block { transaction.current ≤ 4096 }
        requires parameters { parameters.last ≡ self.old.last }
        requires few { length self.old.txs < 2 ^ 62 }
        ensures number { result.number ≡ length self.old.txs }
        ensures txs { self.new.txs ≡ with_newcomer parameters.values transaction self.old }
        ensures places { self.new.places ≡ with_place result.place self.old }
        ensures room { self.old.room ≤ self.new.room + 1 }
        ensures last { self.new.last ≡ self.old.last }

        // What follows for callers.
        ensures made { length self.new.txs ≡ length self.old.txs + 1 }
        ensures live { live_count self.new.txs ≡ live_count self.old.txs + 1 }
        ensures held { Holds self.new result }
        ensures handles { KeepsHandles self.old self.new }
        ensures was_sound { IsSound self.old }
        ensures sound { IsSound self.new }
    {
        self.created += 1;
        let number = self.created;
        let key = keep(&mut self.beside, parameters);
        let kept = Kept {
            attributes: transaction,
            key,
            chain: None,
        };
        let place = self.slots.insert_reserved((number, kept));
        self.here.add(transaction.current);
        Tx { place, number }
    }

    /// The attributes of the transaction of a handle.
    pub fn get(&self, tx: Tx) -> &Transaction
        requires { Holds self.now tx }
        ensures value { attributes_at tx.number self.now.txs ≡ Some result.now }
        ensures sound { IsSound self.now }
    {
        &self.slots[tx.place].1.attributes
    }

    /// Writes the attributes of the transaction of a handle. Its current block has a number from 0 to 4,096.
    pub fn set(&mut self, tx: Tx, transaction: Transaction)
        requires held { Holds self.old tx }
        requires block { transaction.current ≤ 4096 }
        ensures txs { self.new.txs ≡ put_attributes tx.number transaction self.old.txs }
        ensures rest { KeepsRest self.old self.new }
        ensures handles { KeepsHandles self.old self.new }
    {
        let was = self.slots[tx.place].1.attributes.current;
        self.slots[tx.place].1.attributes = transaction;
        self.here.take(was);
        self.here.add(transaction.current);
    }

    /// The transaction of a handle is in the block `current` from now on, by its number from 0 to 4,096, and tries to enter
    /// the block `next`; its other attributes stay.
    pub fn step_to(&mut self, tx: Tx, current: u16, next: u16)
        requires held { Holds self.old tx }
        requires block { current ≤ 4096 }
        ensures txs { StepsTo tx.number current next self.old.txs self.new.txs }
        ensures rest { KeepsRest self.old self.new }
        ensures handles { KeepsHandles self.old self.new }
    {
        let attributes = &mut self.slots[tx.place].1.attributes;
        let was = attributes.current;
        attributes.current = current;
        attributes.next = next;
        self.here.go(was, current);
    }

    /// The user chain, an entity by its number from 0, of which the transaction of a handle is a member, if it is of one.
    pub fn chain(&self, tx: Tx) -> Option<u16>
        requires { Holds self.now tx }
        ensures { result ≡ chain_of (at None self.now.txs tx.number) }
    {
        self.slots[tx.place].1.chain
    }

    /// Writes of which user chain, an entity by its number from 0, the transaction of a handle is a member: of none is `None`,
    /// as it is made (GPSS World Reference Manual, "LINK" and "UNLINK").
    pub fn put_chain(&mut self, tx: Tx, chain: Option<u16>)
        requires { Holds self.old tx }
        ensures txs { self.new.txs ≡ put_chain tx.number chain self.old.txs }
        ensures rest { KeepsRest self.old self.new }
        ensures handles { KeepsHandles self.old self.new }
    {
        self.slots[tx.place].1.chain = chain;
    }

    /// The parameters of the transaction of a handle.
    pub fn parameters(&self, tx: Tx) -> &Parameters
        requires { Holds self.now tx }
        ensures { result.now ≡ kept_of tx.number self.now }
    {
        row(&self.beside, &self.unset, self.slots[tx.place].1.key)
    }

    /// Sets a parameter of the transaction of a handle.
    pub fn assign(&mut self, tx: Tx, number: u8, value: i64)
        requires held { Holds self.old tx }
        requires number { (1 ≤ number) × (number ≤ self.old.last) }
        ensures txs { self.new.txs ≡ put_parameter tx.number number value self.old.txs }
        ensures rest { KeepsRest self.old self.new }
        ensures handles { KeepsHandles self.old self.new }
    {
        let key = self.slots[tx.place].1.key;
        set(&mut self.beside, key, number, value);
    }

    /// Takes the transaction of a handle out, and answers its attributes. Its number is not given out again.
    pub fn remove(&mut self, tx: Tx) -> Transaction
        requires { Holds self.old tx }
        ensures value { attributes_at tx.number self.old.txs ≡ Some result }
        ensures txs { self.new.txs ≡ put None self.old.txs tx.number None }
        ensures places { self.new.places ≡ put None self.old.places tx.number None }
        ensures room { self.old.room < self.new.room }
        ensures last { self.new.last ≡ self.old.last }

        // What follows for callers.
        ensures made { length self.new.txs ≡ length self.old.txs }
        ensures live { live_count self.new.txs + 1 ≡ live_count self.old.txs }
        ensures handles { KeepsOtherHandles tx.number self.old self.new }
        ensures sound { IsSound self.new }
    {
        let removed = self.slots.remove(tx.place).1;
        forget(&mut self.beside, removed.key);
        self.here.take(removed.attributes.current);
        removed.attributes
    }
}
