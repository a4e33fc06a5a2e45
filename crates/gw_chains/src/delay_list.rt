//! The delay list of one entity.

ghost use Rattle.std.specs.Prelude.{◌≡◌, ◌≤◌, ◌<◌, ◌+◌, ◌↔◌, [], length, remove, IsSome, OnOk, OnErr};
ghost use Rattle.std.specs.Iterator.{YieldsFirstRef, item_count};
ghost use Rattle.gw_members.specs.declared.tx.Member.{Member};
ghost use Rattle.gw_members.specs.Members.{behind_peers, tx_at};

use crate::bucket::{Bucket, Link};
use crate::buckets::next_member;
use crate::row::{insert_behind, remove_member, reserve, unlink};
use crate::spot::member_at;
use crate::walk::{Walk, advance, begin_walk, walk_at, walk_to_begin};
use gw_members::{Member, Memory, Tx};
use slab::Slab;
use std::alloc::Global;
use std::collections::{VecDeque, vec_deque};
use std::marker::Model;

/// The delay list of one entity, by priority, with a walk over it that can take members out.
///
/// It is kept in buckets, one for each priority that occurs, whose members are linked to one another: so nobody moves, whoever
/// joins or leaves, but the buckets on one side of one that is new or gone. A member takes a link and no more.
#[derive(Drop)]
pub struct DelayList {
    buckets: VecDeque<Bucket>,
    links: Slab<Link<Member>>,
    // How many members there are.
    count: usize,
    // Where the walk has come: to a member, or to the end; or it is still to begin.
    walk: Walk,
}

impl Model for DelayList {
    ghost use Rattle.std.specs.Prelude.{neg_ℤ};
    ghost use Rattle.slab.specs.Slab.{get};
    ghost use Rattle.gw_chains.specs.Waiting.{Walked};
    ghost use Rattle.gw_chains.specs.Slots.{row_room};
    ghost use Rattle.gw_chains.specs.Buckets.{members_of, AreCounted};
    ghost use Rattle.gw_chains.specs.Spots.{count_before, IsWalkOrBegins};
    ghost use Rattle.gw_members.specs.declared.tx.Member.{Member};

    ghost Value = { Walked };

    ghost invariant = { λ l.
        AreCounted (λ (m : Member). neg_ℤ m.priority) (get l.links) l.buckets.items l.count
        × IsWalkOrBegins (get l.links) l.buckets.items l.walk };

    ghost view = { λ l. record {
      members = members_of (get l.links) l.buckets.items;
      room = row_room l.count l.buckets l.links;
      place = count_before l.buckets.items l.walk.spot;
    } };
}

impl DelayList {
    /// A list with no member.
    pub fn new(alloc: Global) -> DelayList
        ensures members { result.members ≡ [] }
        ensures place { result.place ≡ 0 }
    {
        DelayList {
            buckets: VecDeque::new(alloc),
            links: Slab::new(alloc),
            count: 0,
            walk: walk_to_begin(),
        }
    }

    /// Makes room for so many more members, or leaves the list as it was.
    pub fn reserve(&mut self, more: usize) -> Result<(), Memory>
        ensures members { self.new.members ≡ self.old.members }
        ensures place { self.new.place ≡ self.old.place }
        ensures room { OnOk result (more ≤ self.new.room) }
        ensures kept { self.old.room ≤ self.new.room }
        ensures refused { OnErr result (self.old.room < more) }
    {
        reserve(&mut self.buckets, &mut self.links, self.count, more)
    }

    /// How many members there are.
    pub fn len(&self) -> usize
        ensures { result ≡ length self.now.members }
    {
        self.count
    }

    /// The transaction at this place, from 0, if there is one.
    pub fn get(&self, place: usize) -> Option<Tx>
        ensures { result ≡ tx_at place self.now.members }
    {
        if self.count <= place {
            return None;
        }
        Some(member_at(&self.buckets, &self.links, place).tx)
    }

    /// The members, in order.
    pub fn iter(&self) -> Waiters<'_>
        ensures { result ≡ self.now.members }
    {
        Waiters {
            links: &self.links,
            left: 0,
            at: 0,
            buckets: self.buckets.iter(),
        }
    }

    /// Puts it behind its peers: behind all of equal or higher priority. There is room. The walk is at the first again.
    pub fn insert_behind(&mut self, tx: Tx, priority: i32)
        requires { 0 < self.old.room }
        ensures members { self.new.members ≡ behind_peers tx priority self.old.members }
        ensures len { length self.new.members ≡ length self.old.members + 1 }
        ensures place { self.new.place ≡ 0 }
        ensures room { self.old.room ≤ self.new.room + 1 }
    {
        let member = Member { tx, priority };
        insert_behind(&mut self.buckets, &mut self.links, member);
        self.count += 1;
        self.walk = walk_to_begin();
    }

    /// Removes the member at this place, from 0. There is one. The walk is at the first again.
    pub fn remove(&mut self, place: usize)
        requires { place < length self.old.members }
        ensures members { self.new.members ≡ remove self.old.members place }
        ensures len { length self.new.members + 1 ≡ length self.old.members }
        ensures place { self.new.place ≡ 0 }
        ensures room { self.old.room ≤ self.new.room }
    {
        remove_member(&mut self.buckets, &mut self.links, place);
        self.count -= 1;
        self.walk = walk_to_begin();
    }

    /// Begins a walk at the first member.
    pub fn start_walk(&mut self)
        ensures members { self.new.members ≡ self.old.members }
        ensures place { self.new.place ≡ 0 }
        ensures room { self.old.room ≤ self.new.room }
    {
        self.walk = walk_to_begin();
    }

    /// The transaction to which the walk has come, if it is not at the end.
    pub fn current(&self) -> Option<Tx>
        ensures value { result ≡ tx_at self.now.place self.now.members }
        ensures there { IsSome result ↔ (self.now.place < length self.now.members) }
    {
        let walk = begin_walk(self.walk, &self.buckets, &self.links);
        if walk.left == 0 {
            return None;
        }
        Some(self.links[walk.here].member.tx)
    }

    /// The walk goes on past the member to which it has come. It is not at the end.
    pub fn pass(&mut self)
        requires { self.old.place < length self.old.members }
        ensures members { self.new.members ≡ self.old.members }
        ensures place { self.new.place ≡ self.old.place + 1 }
        ensures room { self.old.room ≤ self.new.room }
    {
        let mut walk = begin_walk(self.walk, &self.buckets, &self.links);
        advance(&mut walk, &self.buckets, &self.links);
        self.walk = walk;
    }

    /// Takes out the member to which the walk has come, which is then at the next. It is not at
    /// the end.
    pub fn take(&mut self)
        requires { self.old.place < length self.old.members }
        ensures members { self.new.members ≡ remove self.old.members self.old.place }
        ensures len { length self.new.members + 1 ≡ length self.old.members }
        ensures place { self.new.place ≡ self.old.place }
        ensures room { self.old.room ≤ self.new.room }
    {
        let walk = begin_walk(self.walk, &self.buckets, &self.links);
        let _ = unlink(&mut self.buckets, &mut self.links, walk.spot, walk.here);
        self.count -= 1;
        self.walk = walk_at(&self.buckets, &self.links, walk.spot);
    }
}

/// The members of a delay list, in order. Contracts see those that are still to come.
#[derive(Drop)]
pub struct Waiters<'a> {
    links: &'a Slab<Link<Member>>,
    // How many of a bucket that was begun are left, and the link of their first.
    left: usize,
    at: usize,
    // The buckets behind it.
    buckets: vec_deque::Iter<'a, Bucket>,
}

impl<'a> Model for Waiters<'a> {
    ghost use Rattle.std.specs.Prelude.{List, ◌++◌};
    ghost use Rattle.std.specs.VecDeque.Iter.{deque_iter_rest};
    ghost use Rattle.slab.specs.Slab.{get};
    ghost use Rattle.gw_chains.specs.Buckets.{run, members_at, members_of};
    ghost use Rattle.gw_members.specs.declared.tx.Member.{Member};

    ghost Value = { List Member };

    ghost view = { λ it. members_at (get it.links.now) (run (get it.links.now) it.left it.at)
        ++ members_of (get it.links.now) (deque_iter_rest it.buckets) };
}

impl<'a> Iterator for Waiters<'a> {
    type Item = &'a Member;

    ghost next_gives = { YieldsFirstRef (λ rest. rest) };

    ghost remaining = { item_count (λ rest. rest) };

    fn next(&mut self) -> Option<&'a Member> {
        loop {
            if let Some(member) = next_member(self.links, &mut self.left, &mut self.at) {
                return Some(member);
            }
            match self.buckets.next() {
                Some(bucket) => {
                    self.left = bucket.count;
                    self.at = bucket.first;
                }
                None => return None,
            }
        }
    }
}
