//! The state of a job in memory, and the elementary changes of it.

ghost use Rattle.std.specs.Prelude.{◌≡◌, ◌≤◌, ◌<◌, ◌+◌, ◌^◌, Some, None, length, vec_len, sum, IfOk, OnOk, pos, ◌<ℤ◌, ◌≤ℤ◌, nat_le};
ghost use Rattle.gw_num.specs.Table.{at};
ghost use Rattle.gw_transactions.specs.Transactions.{Holds, attributes_at, live_count};
ghost use Rattle.gw_rules.specs.Values.{with_first};
ghost use Rattle.gw_step.specs.State.{priority_of, with_one_more_at, with_streams};
ghost use Rattle.gw_step.specs.Blocks.{is_owed};
ghost use Rattle.gw_step.specs.Changes as model;
ghost use Rattle.gw_step.specs.Step as steps;
ghost use Rattle.gw_step.specs.Times.{parameters_of};
ghost use Rattle.gw_step.specs.Turning.{turn_to};
ghost use Rattle.gw_machine.specs.View.{state_of};
ghost use Rattle.gw_machine.specs.Leaving.{BecomesBy, HasArrivedBelow, enters_marked, EntersWithPriority};
ghost use Rattle.gw_transactions.specs.Parameters.{none_of};
ghost use Rattle.gw_machine.specs.Coherence.{Carries, Every, HasSlot};
ghost use Rattle.gw_machine.specs.Frames.{OnlyArrivalFits, OnlyArrivalComes, OnlyEntryIsMade, KeepsPriority};

use crate::entity_tables::EntityTables;
use crate::wants::Wants;
use gw_assemblies::Assemblies;
use gw_chains::{Cec, Fec, Waits};
use gw_members::{Memory, Tx};
use gw_num::Stream;
use gw_step::End;
use gw_transactions::{Parameters, Transaction, Transactions};
use gw_user_chains::UserChains;
use std::marker::Model;

/// The most live transactions, scheduled arrivals included (ours: docs/machine.md).
const MOST_LIVE: usize = 65_536;

/// What a call of the machine made.
#[derive(Clone, Copy, PartialEq, Eq)]
pub enum Made {
    /// The change that it is for.
    Step,
    /// The change that it is for, which brings a named end.
    Last,
    /// No change: it comes to a named end.
    Ends(End),
}

/// The state of a job in memory: transactions lie in a slab, and the chains hold handles to them. A table of blocks has
/// an entry at each block's number, and one at 0.
///
/// Each handle that it holds leads to its transaction, each live transaction resides exactly once, and the clock is the
/// time that passed over the entities: that is in its type. Contracts see its parts, and how much more fits in each with no
/// allocation.
#[derive(Drop)]
pub struct Machine {
    /// In clock units.
    pub(crate) clock: i64,
    /// The termination count.
    pub(crate) count: i64,
    /// The steps made.
    pub(crate) steps: u64,
    /// The streams, from the first on.
    pub(crate) streams: [Stream; 16],
    /// Whether a block was entered since the retry list was last woken.
    pub(crate) stir: bool,
    /// The arrivals scheduled so far, for each GENERATE block.
    pub(crate) scheduled: Vec<u64>,
    /// The live transactions, scheduled arrivals included.
    pub(crate) transactions: Transactions,
    /// The one that moves, if there is one.
    pub(crate) active: Option<Tx>,
    /// Who may move at this clock time.
    pub(crate) current_events: Cec,
    /// Who waits for a later time.
    pub(crate) future_events: Fec,
    /// Who waits on the delay list of a facility or storage, or on the retry list.
    pub(crate) waits: Waits,
    /// Who waits for the rest of an assembly set.
    pub(crate) assemblies: Assemblies,
    /// Who is on a user chain, each chain by its number as an entity.
    pub(crate) chains: UserChains,
    /// The facilities, storages and whatever else blocks name by a number as an entity.
    pub(crate) entities: EntityTables,
    /// The entries so far, for each block.
    pub(crate) entries: Vec<u64>,
    /// The named end, if one stands.
    pub(crate) ended: Option<End>,
    /// Which blocks those who wait for a storage want to enter, as far as it is known.
    pub(crate) wants: Wants,
}

impl Model for Machine {
    ghost use Rattle.gw_machine.specs.Configuration.{Configuration};

    ghost Value = { Configuration };

    ghost use Rattle.gw_machine.specs.Shown.{configuration_of, IsLinked};

    ghost view = { configuration_of };

    ghost invariant = { IsLinked };
}

/// One more at a place.
pub(crate) fn raise(counts: &mut Vec<u64>, place: usize)
    requires there { place < vec_len counts.old }
    requires few { sum counts.old.items < 2 ^ 60 }
    ensures { counts.new.items ≡ with_one_more_at place counts.old.items }
{
    counts[place] += 1;
}

/// The end that a termination count brings: `Done` where it is 0 or less.
fn end_of(count: i64) -> Option<End>
    ensures { result ≡ model.end_at count }
{
    if 0 < count { None } else { Some(End::Done) }
}

/// The count at a place, or 0 where there is none.
pub(crate) fn entry_or_none(counts: &[u64], place: usize) -> u64
    ensures { result ≡ at 0 counts.now place }
{
    counts.get(place).copied().unwrap_or(0)
}

impl Machine {
    /// The transaction enters its next block; the one after is now `next`. So something has stirred.
    pub fn enter(&mut self, tx: Tx, transaction: Transaction, next: u16)
        requires held { Holds self.old.transactions tx }
        requires rank { priority_of self.old.transactions.txs tx.number ≡ transaction.priority }
        requires block { (transaction.next < length self.old.entries) × (transaction.next ≤ 4096) }
        requires few { sum self.old.entries < 2 ^ 60 }
        ensures state { state_of self.new
            ≡ model.enter_next tx.number transaction next (state_of self.old) }
        ensures held { Holds self.new.transactions tx }
        ensures parameters { parameters_of tx.number (state_of self.new)
            ≡ parameters_of tx.number (state_of self.old) }
        ensures last { self.new.transactions.last ≡ self.old.transactions.last }
        ensures made { length self.new.transactions.txs ≡ length self.old.transactions.txs }
        ensures room { self.old.transactions.room ≤ self.new.transactions.room }
        ensures rank { priority_of self.new.transactions.txs tx.number ≡ transaction.priority }
        ensures frame { OnlyEntryIsMade self.old self.new }
    {
        self.wants.forget_unless_active(self.active, tx);
        self.stir = true;
        raise(&mut self.entries, transaction.next as usize);
        let mut entered = transaction;
        entered.current = transaction.next;
        entered.next = next;
        self.transactions.set(tx, entered);
    }

    /// The transaction, whose attributes are these, enters its next block; the one after is now `next`, and its other
    /// attributes stay. So something has stirred. It is `enter` for whoever has the attributes as they are: it writes less.
    pub fn enter_as_found(&mut self, tx: Tx, transaction: Transaction, next: u16)
        requires held { Holds self.old.transactions tx }
        requires found { attributes_at tx.number self.old.transactions.txs ≡ Some transaction }
        requires block { (transaction.next < length self.old.entries) × (transaction.next ≤ 4096) }
        requires few { sum self.old.entries < 2 ^ 60 }
        ensures state { state_of self.new
            ≡ model.enter_next tx.number transaction next (state_of self.old) }
        ensures held { Holds self.new.transactions tx }
        ensures parameters { parameters_of tx.number (state_of self.new)
            ≡ parameters_of tx.number (state_of self.old) }
        ensures last { self.new.transactions.last ≡ self.old.transactions.last }
        ensures made { length self.new.transactions.txs ≡ length self.old.transactions.txs }
        ensures room { self.old.transactions.room ≤ self.new.transactions.room }
        ensures rank { priority_of self.new.transactions.txs tx.number ≡ transaction.priority }
        ensures frame { OnlyEntryIsMade self.old self.new }
    {
        self.transactions.step_to(tx, transaction.next, next);
        raise(&mut self.entries, transaction.next as usize);
        self.stir = true;
    }

    /// The transaction enters its next block, and its mark time is the clock from now on.
    #[inline(always)]
    pub fn enter_marked(&mut self, tx: Tx, transaction: Transaction)
        requires held { Holds self.old.transactions tx }
        requires rank { priority_of self.old.transactions.txs tx.number ≡ transaction.priority }
        requires block { (transaction.next < length self.old.entries) × (transaction.next ≤ 4096) }
        requires few { sum self.old.entries < 2 ^ 60 }
        ensures { BecomesBy (enters_marked tx.number transaction) self.old self.new }
    {
        let mut marked = transaction;
        marked.mark = self.clock;
        self.enter(tx, marked, transaction.next + 1);
    }

    /// The transaction, which is on no chain, enters its next block with this priority, and falls to the block after.
    pub fn enter_with_priority(&mut self, tx: Tx, transaction: Transaction, priority: i32)
        requires active { self.old.active ≡ Some tx }
        requires held { Holds self.old.transactions tx }
        requires block { (transaction.next < length self.old.entries) × (transaction.next ≤ 4096) }
        requires few { sum self.old.entries < 2 ^ 60 }
        requires found { attributes_at tx.number self.old.transactions.txs ≡ Some transaction }
        ensures state { EntersWithPriority tx.number transaction priority self.old self.new }
        ensures held { Holds self.new.transactions tx }
        ensures rank { priority_of self.new.transactions.txs tx.number ≡ priority }
        ensures frame { OnlyEntryIsMade self.old self.new }
    {
        self.stir = true;
        raise(&mut self.entries, transaction.next as usize);
        let mut entered = transaction;
        entered.current = transaction.next;
        entered.next = transaction.next + 1;
        entered.priority = priority;
        self.transactions.set(tx, entered);
    }

    /// The transaction has another next block from now on. It enters none, and rests where it did.
    pub fn turn(&mut self, tx: Tx, transaction: Transaction, next: u16)
        requires held { Holds self.old.transactions tx }
        requires found { attributes_at tx.number self.old.transactions.txs ≡ Some transaction }
        ensures state { state_of self.new ≡ turn_to tx.number transaction next (state_of self.old) }
        ensures held { Holds self.new.transactions tx }
        ensures frame { self.new ≡ record self.old { transactions = self.new.transactions } }
    {
        self.wants.forget_unless_active(self.active, tx);
        let mut turned = transaction;
        turned.next = next;
        self.transactions.set(tx, turned);
    }

    /// A new transaction is scheduled to arrive at its GENERATE block.
    #[inline(always)]
    pub fn arrive(&mut self, block: u16, priority: i32, time: i64, parameters: Parameters)
        requires room { (0 < self.old.transactions.room) × (0 < self.old.future_events.room) }
        requires unset { parameters ≡ none_of self.old.last }
        requires block { block < length self.old.scheduled }
        requires few { HasArrivedBelow (2 ^ 60) self.old }
        ensures state { state_of self.new ≡ model.arrives block priority time (state_of self.old) }
        ensures carries { Carries Every self.old.transactions self.new.transactions }
        ensures frame { OnlyArrivalComes self.old self.new }
    {
        let number = self.transactions.next_number();
        let mark = self.clock;
        let arrival = Transaction {
            current: 0,
            next: block,
            priority,
            mark,
            set: number,
        };
        let tx = self.transactions.insert_with(arrival, parameters);
        self.future_events.schedule(tx, time);
        raise(&mut self.scheduled, block as usize);
    }

    /// A parameter of a transaction has this value from now on.
    pub fn assign(&mut self, tx: Tx, parameter: u8, value: i64)
        requires held { Holds self.old.transactions tx }
        requires slot { HasSlot self.old parameter }
        ensures state { state_of self.new
            ≡ model.assign_to tx.number parameter value (state_of self.old) }
        ensures held { Holds self.new.transactions tx }
        ensures rank { KeepsPriority tx self.old self.new }
        ensures frame { self.new ≡ record self.old { transactions = self.new.transactions } }
    {
        self.transactions.assign(tx, parameter, value);
    }

    /// The streams are now here.
    pub fn set_streams(&mut self, streams: &[Stream; 16])
        ensures state { state_of self.new ≡ with_streams streams.now (state_of self.old) }
        ensures frame { self.new ≡ record self.old { streams = self.new.streams } }
    {
        self.streams = *streams;
    }

    /// The first stream is now here.
    pub fn set_first_stream(&mut self, stream: Stream)
        ensures state { state_of self.new
            ≡ with_streams (with_first stream self.old.streams) (state_of self.old) }
        ensures frame { self.new ≡ record self.old { streams = self.new.streams } }
    {
        self.streams[0] = stream;
    }

    /// The termination count falls; where it is then 0 or less, the job is done.
    pub fn count_down(&mut self, by: i64)
        requires least { pos 0 <ℤ self.old.count }
        requires by { pos 0 ≤ℤ by }
        ensures state { state_of self.new ≡ model.count_down by (state_of self.old) }
        ensures frame { self.new
            ≡ record self.old { count = self.new.count; ended = self.new.ended } }
    {
        let count = self.count - by;
        self.count = count;
        self.ended = end_of(count);
    }

    /// One more step is counted.
    pub fn add_step(&mut self)
        requires { self.old.steps < 2 ^ 60 }
        ensures { BecomesBy (λ s. record s { steps = s.steps + 1 }) self.old self.new }
    {
        self.steps += 1;
    }

    /// A running job whose steps are as many as its budget ends.
    pub fn end_at_budget(&mut self, budget: u64)
        ensures { BecomesBy (steps.within_budget budget) self.old self.new }
    {
        if self.steps == budget && self.ended.is_none() {
            self.ended = Some(End::Budget);
        }
    }

    /// The job ends by a name, and nothing else changes but the count of steps.
    pub fn end_by(&mut self, end: End)
        requires { self.old.steps < 2 ^ 60 }
        ensures { BecomesBy (λ s. record s { steps = s.steps + 1; ended = Some end })
            self.old self.new }
    {
        self.steps += 1;
        self.ended = Some(end);
    }

    /// Makes room for one more transaction and its arrival, and answers its parameters, none of which is set.
    #[inline(always)]
    pub fn reserve_arrival(&mut self) -> Result<Parameters, Memory>
        ensures unset { IfOk result (λ parameters. parameters ≡ none_of self.new.last) }
        ensures state { state_of self.new ≡ state_of self.old }
        ensures room { OnOk result
            ((0 < self.new.transactions.room) × (0 < self.new.future_events.room)) }
        ensures carries { Carries Every self.old.transactions self.new.transactions }
        ensures frame { OnlyArrivalFits self.old self.new }
    {
        let parameters = self.transactions.new_parameters()?;
        self.transactions.reserve(1)?;
        self.future_events.reserve(1)?;
        Ok(parameters)
    }

    /// The entries of a block, by its number from 1; 0 where there is no such block.
    pub fn entries_at(&self, block: u16) -> u64
        ensures { result ≡ at 0 self.now.entries block }
    {
        entry_or_none(&self.entries, block as usize)
    }
    /// Whether one more arrival is owed at a GENERATE block.
    pub fn owes(&self, block: u16, limit: Option<u32>) -> bool
        requires { block < length self.now.scheduled }
        ensures { result ≡ is_owed limit (at 0 self.now.scheduled block) }
    {
        match limit {
            None => true,
            Some(limit) => self.scheduled[block as usize] < limit as u64,
        }
    }

    /// Whether so many more transactions may live, scheduled arrivals included.
    pub fn may_live(&self, more: u16) -> bool
        ensures { result ≡ nat_le (live_count self.now.transactions.txs + more) 65536 }
    {
        self.transactions.live() <= MOST_LIVE - more as usize
    }
}
