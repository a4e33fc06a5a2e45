//! The current events chain.

ghost use Rattle.std.specs.Prelude.{◌≡◌, ◌≤◌, ◌<◌, ◌+◌, [], length, ◌==◌, neg_ℤ, option_to_list, int_le, int_lt, OnOk, OnErr};
ghost use Rattle.slab.specs.Slab.{get};
ghost use Rattle.gw_members.specs.Chain.{rest};
ghost use Rattle.gw_members.specs.declared.tx.Member.{Member};
ghost use Rattle.gw_members.specs.Members.{behind_peers, ahead_of_peers, first_tx};
ghost use Rattle.gw_chains.specs.Buckets.{members_of, total, AreBuckets};
ghost use Rattle.gw_chains.specs.Queues.{DoesNotGrow};
ghost use Rattle.gw_chains.specs.Slots.{TakesNoSlot};
ghost use Rattle.gw_chains.specs.Heads.{IsHeadThatFails};

use crate::bucket::{Bucket, Link};
use crate::row::{insert_ahead, insert_behind, pop_member, reserve};
use gw_members::{Member, Memory, Tx};
use slab::Slab;
use std::alloc::Global;
use std::collections::VecDeque;
use std::marker::Model;

/// The current events chain: the transactions that may move at this clock time, by priority
/// (GPSS World Reference Manual, "The Transaction Scheduler").
///
/// One that comes to an empty chain stands apart, and is the first until it leaves or another goes ahead of it. The others
/// are kept in buckets, one for each priority that occurs, whose members are linked to one another: so a newcomer among tens
/// of thousands moves nobody, or the buckets of the priorities on one side of its own where that is new.
#[derive(Drop)]
pub struct Cec {
    // The first, where it stands apart.
    head: Option<Member>,
    buckets: VecDeque<Bucket>,
    links: Slab<Link<Member>>,
    // How many there are in the buckets.
    others: usize,
}

impl Model for Cec {
    ghost use Rattle.std.specs.Prelude.{neg_ℤ, ◌≤◌, ◌+◌, ◌^◌, ◌++◌, length, option_to_list};
    ghost use Rattle.slab.specs.Slab.{get};
    ghost use Rattle.gw_members.specs.Chain.{Chain};
    ghost use Rattle.gw_chains.specs.Slots.{row_room};
    ghost use Rattle.gw_chains.specs.Heads.{StandsFirst};
    ghost use Rattle.gw_chains.specs.Buckets.{members_of, AreCounted};
    ghost use Rattle.gw_members.specs.declared.tx.Member.{Member};

    ghost Value = { Chain Member };

    ghost invariant = { λ c.
        AreCounted (λ (m : Member). neg_ℤ m.priority) (get c.links) c.buckets.items c.others
        × (c.others + length (option_to_list c.head) ≤ 2 ^ 62)
        × StandsFirst c.head (members_of (get c.links) c.buckets.items) };

    ghost view = { λ c. record {
      items = option_to_list c.head ++ members_of (get c.links) c.buckets.items;
      room = row_room (c.others + length (option_to_list c.head)) c.buckets c.links;
    } };
}

/// Who stands apart, where anybody does who has a lower priority than a newcomer.
fn lower_head(head: Option<Member>, newcomer: Member) -> Option<Member>
    ensures { IsHeadThatFails (λ m. int_le newcomer.priority m.priority) head result }
{
    let member = head?;
    if member.priority < newcomer.priority {
        Some(member)
    } else {
        None
    }
}

/// Who stands apart, where anybody does who has the priority of a newcomer or a lower one.
fn head_up_to(head: Option<Member>, newcomer: Member) -> Option<Member>
    ensures { IsHeadThatFails (λ m. int_lt newcomer.priority m.priority) head result }
{
    let member = head?;
    if member.priority <= newcomer.priority {
        Some(member)
    } else {
        None
    }
}

/// Takes the first member in buckets, if there is one, and answers its transaction.
#[inline(always)]
fn pop_tx(row: &mut VecDeque<Bucket>, links: &mut Slab<Link<Member>>) -> Option<Tx>
    requires { AreBuckets (λ (m : Member). neg_ℤ m.priority) (get links.old) row.old.items }
    ensures first { result ≡ first_tx (members_of (get links.old) row.old.items) }
    ensures rest { members_of (get links.new) row.new.items ≡ rest (members_of (get links.old) row.old.items) }
    ensures buckets { AreBuckets (λ (m : Member). neg_ℤ m.priority) (get links.new) row.new.items }
    ensures total { total row.new.items + length (option_to_list result) ≡ total row.old.items }
    ensures room { DoesNotGrow row.old row.new }
    ensures links { TakesNoSlot links.old links.new }
{
    let member = pop_member(row, links)?;
    Some(member.tx)
}

impl Cec {
    /// A chain with no member.
    pub fn new(alloc: Global) -> Cec
        ensures { result.items ≡ [] }
    {
        Cec {
            head: None,
            buckets: VecDeque::new(alloc),
            links: Slab::new(alloc),
            others: 0,
        }
    }

    /// Makes room for so many more members, or leaves the chain as it was.
    pub fn reserve(&mut self, more: usize) -> Result<(), Memory>
        ensures items { self.new.items ≡ self.old.items }
        ensures room { OnOk result (more ≤ self.new.room) }
        ensures kept { self.old.room ≤ self.new.room }
        ensures refused { OnErr result (self.old.room < more) }
    {
        let count = self.len();
        reserve(&mut self.buckets, &mut self.links, count, more)
    }

    /// Puts it behind its peers: behind all of equal or higher priority. There is room.
    #[inline(always)]
    pub fn insert_behind(&mut self, tx: Tx, priority: i32)
        requires { 0 < self.old.room }
        ensures items { self.new.items ≡ behind_peers tx priority self.old.items }
        ensures room { self.old.room ≤ self.new.room + 1 }
    {
        if self.is_empty() {
            self.head = Some(Member { tx, priority });
            return;
        }
        self.insert_behind_others(tx, priority);
    }

    /// The same where somebody is on the chain.
    #[inline(never)]
    #[tactic(auto, using(crate::proofs::Ranking::behind_by_rank))]
    fn insert_behind_others(&mut self, tx: Tx, priority: i32)
        requires room { 0 < self.old.room }
        requires others { 0 < length self.old.items }
        ensures items { self.new.items ≡ behind_peers tx priority self.old.items }
        ensures room { self.old.room ≤ self.new.room + 1 }
    {
        let member = Member { tx, priority };
        if let Some(head) = lower_head(self.head, member) {
            insert_ahead(&mut self.buckets, &mut self.links, head);
            self.head = Some(member);
            self.others += 1;
            return;
        }
        insert_behind(&mut self.buckets, &mut self.links, member);
        self.others += 1;
    }

    /// Puts it ahead of its peers: ahead of all of equal or lower priority. There is room.
    #[tactic(auto, using(crate::proofs::Ranking::ahead_by_rank))]
    pub fn insert_ahead(&mut self, tx: Tx, priority: i32)
        requires { 0 < self.old.room }
        ensures items { self.new.items ≡ ahead_of_peers tx priority self.old.items }
        ensures room { self.old.room ≤ self.new.room + 1 }
    {
        let member = Member { tx, priority };
        if self.is_empty() {
            self.head = Some(member);
            return;
        }
        if let Some(head) = head_up_to(self.head, member) {
            insert_ahead(&mut self.buckets, &mut self.links, head);
            self.head = Some(member);
            self.others += 1;
            return;
        }
        insert_ahead(&mut self.buckets, &mut self.links, member);
        self.others += 1;
    }

    /// Takes the first, if there is one.
    pub fn pop_first(&mut self) -> Option<Tx>
        ensures first { result ≡ first_tx self.old.items }
        ensures rest { self.new.items ≡ rest self.old.items }
        ensures room { self.old.room ≤ self.new.room }
    {
        if let Some(Member { tx, .. }) = self.head {
            self.head = None;
            return Some(tx);
        }
        if self.others == 0 {
            return None;
        }
        let tx = pop_tx(&mut self.buckets, &mut self.links)?;
        self.others -= 1;
        Some(tx)
    }

    /// How many members there are.
    pub fn len(&self) -> usize
        ensures { result ≡ length self.now.items }
    {
        if self.head.is_some() {
            self.others + 1
        } else {
            self.others
        }
    }

    /// Whether there is no member.
    pub fn is_empty(&self) -> bool
        ensures { result ≡ (length self.now.items == 0) }
    {
        self.others == 0 && self.head.is_none()
    }
}
