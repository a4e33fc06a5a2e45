//! Future events in buckets: where they are many.

ghost use Rattle.std.specs.Prelude.{◌≡◌, ◌≤◌, ◌<◌, ◌+◌, ◌^◌, [], nat_le, length, reverse, option_map, is_some, int_le, AllPairs, OnOk, OnErr};
ghost use Rattle.std.specs.Iterator.{YieldsFirstRef, item_count};
ghost use Rattle.std.specs.VecDeque.{deque_len, deque_capacity};
ghost use Rattle.slab.specs.Slab.{get, slab_len, HasRoomFor};
ghost use Rattle.gw_members.specs.Chain.{first, rest, rest_if};
ghost use Rattle.gw_members.specs.declared.tx.Event.{Event};
ghost use Rattle.gw_members.specs.Members.{with_event, first_due};
ghost use Rattle.gw_chains.specs.Buckets.{members_of, total, AreBuckets};
ghost use Rattle.gw_chains.specs.Events.{most_few, NotLater, room_behind, LacksRoomFor};

use crate::bucket::{Bucket, Link};
use crate::buckets::{
    first_bucket, first_rank, insert_member, next_bucket, next_member, pop_from, reserve_links,
};
use crate::chunks::{Position, reserve};
use crate::guesses::Guesses;
use crate::row::insert_behind;
use gw_members::{Event, MOST, Memory, Tx};
use slab::Slab;
use std::alloc::Global;
use std::collections::{VecDeque, vec_deque};
use std::marker::Model;

/// Future events in buckets, one for each time that occurs, whose events are linked to one another: so a newcomer among tens of
/// thousands moves nobody, or few buckets where its time is new.
#[derive(Drop)]
pub struct EventBuckets {
    // The buckets, in chunks.
    chunks: VecDeque<VecDeque<Bucket>>,
    // What a chunk becomes that is split.
    spare: Vec<VecDeque<Bucket>>,
    links: Slab<Link<Event>>,
    // How many events there are.
    count: usize,
    // Where the buckets of some times stood of late.
    guesses: Guesses,
}

impl Model for EventBuckets {
    ghost use Rattle.std.specs.Prelude.{◌-◌, All, length};
    ghost use Rattle.slab.specs.Slab.{get, slab_len};
    ghost use Rattle.gw_chains.specs.Chunks.{all_of, IsChunk, IsSpare};
    ghost use Rattle.gw_chains.specs.Queues.{space_in};
    ghost use Rattle.gw_chains.specs.Buckets.{members_of, AreCounted};
    ghost use Rattle.gw_chains.specs.Events.{Bucketed};
    ghost use Rattle.gw_members.specs.declared.tx.Event.{Event};

    ghost Value = { Bucketed };

    ghost invariant = { λ b.
        AreCounted (λ (e : Event). e.time) (get b.links) (all_of b.chunks.items) b.count
        × All IsChunk b.chunks.items
        × All IsSpare b.spare.items };

    ghost view = { λ b. record {
      items = members_of (get b.links) (all_of b.chunks.items);
      links = b.links.capacity - slab_len b.links;
      spare = length b.spare.items;
      chunks = space_in b.chunks;
    } };
}

impl EventBuckets {
    /// Buckets with no event.
    pub fn new(alloc: Global) -> EventBuckets
        ensures { result.items ≡ [] }
    {
        EventBuckets {
            chunks: VecDeque::new(alloc),
            spare: Vec::new(alloc),
            links: Slab::new(alloc),
            count: 0,
            guesses: Guesses::new(alloc),
        }
    }

    /// Makes room for the links of so many more events and for so many more chunks, or leaves the events as they were.
    pub fn reserve(&mut self, events: usize, chunks: usize) -> Result<(), Memory>
        ensures items { self.new.items ≡ self.old.items }
        ensures links { OnOk result (events ≤ self.new.links) }
        ensures room { OnOk result ((chunks ≤ self.new.spare) × (chunks ≤ self.new.chunks)) }
        ensures links_kept { self.old.links ≤ self.new.links }
        ensures kept { (self.old.spare ≤ self.new.spare) × (self.old.chunks ≤ self.new.chunks) }
        ensures refused { OnErr result (LacksRoomFor events chunks self.old) }
    {
        if events <= self.links.capacity() - self.links.len()
            && chunks <= self.spare.len()
            && chunks <= self.chunks.capacity() - self.chunks.len()
        {
            return Ok(());
        }
        self.guesses.prepare(chunks);
        reserve_links(&mut self.links, events)?;
        reserve(&mut self.chunks, &mut self.spare, chunks)
    }

    /// Takes all of few events, of which the first to come stands last, where it has none. There is room for their links and
    /// for a chunk, in which they come to stand.
    pub fn take_few(&mut self, few: &mut Vec<Event>)
        requires none { self.old.items ≡ [] }
        requires few { (0 < length few.old.items) × (length few.old.items ≤ most_few) }
        requires order { AllPairs NotLater (reverse few.old.items) }
        requires links { length few.old.items ≤ self.old.links }
        requires room { (0 < self.old.spare) × (0 < self.old.chunks) }
        ensures items { self.new.items ≡ reverse few.old.items }
        ensures few { few.new.items ≡ [] }
        ensures links { self.old.links ≤ self.new.links + length few.old.items }
        ensures spare { self.old.spare ≤ self.new.spare + 1 }
        ensures chunks { self.old.chunks ≤ self.new.chunks + 1 }
    {
        if let Some(mut chunk) = self.spare.pop() {
            self.count = few.len();
            fill(&mut chunk, &mut self.links, few);
            self.chunks.push_back_reserved(chunk);
        }
    }

    /// Puts it behind all of its time or an earlier one. There is room.
    pub fn schedule(&mut self, event: Event)
        requires { 0 < room_behind 0 self.old }
        ensures items { self.new.items ≡ with_event event self.old.items }
        ensures links { self.old.links ≤ self.new.links + 1 }
        ensures spare { self.old.spare ≤ self.new.spare + 1 }
        ensures chunks { self.old.chunks ≤ self.new.chunks + 1 }
    {
        let mut at = self.guesses.guess(event.time);
        let chunks = self.chunks.len();
        insert_member(
            &mut self.chunks,
            &mut self.spare,
            &mut self.links,
            event,
            &self.guesses,
            &mut at,
        );
        self.guesses.keep(event.time, at);
        self.count += 1;
        fit(&mut self.guesses, &self.chunks, chunks, at);
    }

    /// Whether there is room for so many more events.
    pub fn has_room(&self, more: usize) -> bool
        ensures { result ≡ nat_le more (room_behind 0 self.now) }
    {
        more <= self.links.capacity() - self.links.len()
            && more <= self.spare.len()
            && more <= self.chunks.capacity() - self.chunks.len()
            && more <= MOST - self.count
    }

    /// The time of the first, in clock units, if there is one.
    pub fn first_time(&self) -> Option<i64>
        ensures { result ≡ option_map (λ e. e.time) (first self.now.items) }
    {
        first_rank(&self.chunks)
    }

    /// Takes the first, if it is scheduled for `time`, in clock units, or earlier.
    pub fn pop_due(&mut self, time: i64) -> Option<Tx>
        ensures first { result ≡ first_due time self.old.items }
        ensures rest { self.new.items ≡ rest_if (is_some result) self.old.items }
        ensures links { self.old.links ≤ self.new.links }
        ensures room { (self.old.spare ≤ self.new.spare) × (self.old.chunks ≤ self.new.chunks) }
    {
        let bucket = first_bucket(&self.chunks)?;
        if !is_due(bucket, time) {
            return None;
        }
        let chunks = self.chunks.len();
        let event = pop_from(&mut self.chunks, &mut self.spare, &mut self.links, bucket);
        self.count -= 1;
        self.guesses
            .lose_chunks(chunks.wrapping_sub(self.chunks.len()));
        Some(event.tx)
    }

    /// The events, in order.
    pub fn iter(&self) -> BucketEvents<'_>
        ensures { result ≡ self.now.items }
    {
        BucketEvents {
            links: &self.links,
            left: 0,
            at: 0,
            chunk: None,
            chunks: self.chunks.iter(),
        }
    }

    /// How many events there are.
    pub fn len(&self) -> usize
        ensures count { result ≡ length self.now.items }
        ensures few { result ≤ 2 ^ 62 }
    {
        self.count
    }
}

/// Whether the events of a bucket are scheduled for `time` or earlier.
fn is_due(bucket: Bucket, time: i64) -> bool
    ensures { result ≡ int_le bucket.rank time }
{
    bucket.rank <= time
}

/// Where a chunk was split, so that there were fewer before, guesses are for the times that occur now.
fn fit(guesses: &mut Guesses, chunks: &VecDeque<VecDeque<Bucket>>, before: usize, at: Position) {
    if chunks.len() == before {
        return;
    }
    if let (Some(first), Some(last)) = (chunks.front(), chunks.back()) {
        if let (Some(first), Some(last)) = (first.front(), last.back()) {
            guesses.fit(first.rank, last.rank);
        }
    }
    if let Some(upper) = chunks.get(at.chunk.saturating_add(1)) {
        if let Some(first) = upper.front() {
            guesses.split(at.chunk, first.rank);
        }
    }
}

/// Puts few events, of which the first to come stands last, into a row of buckets that has none.
fn fill(row: &mut VecDeque<Bucket>, links: &mut Slab<Link<Event>>, few: &mut Vec<Event>)
    requires none { row.old.items ≡ [] }
    requires buckets { AreBuckets (λ (e : Event). e.time) (get links.old) [] }
    requires few { length few.old.items ≤ most_few }
    requires order { AllPairs NotLater (reverse few.old.items) }
    requires room { length few.old.items ≤ deque_capacity row.old }
    requires links { HasRoomFor links.old (length few.old.items) }
    ensures members { members_of (get links.new) row.new.items ≡ reverse few.old.items }
    ensures buckets { AreBuckets (λ (e : Event). e.time) (get links.new) row.new.items }
    ensures total { total row.new.items ≡ length few.old.items }
    ensures few { few.new.items ≡ [] }
    ensures len { deque_len row.new ≤ length few.old.items }
    ensures capacity { deque_capacity row.old ≤ deque_capacity row.new }
    ensures slots { slab_len links.new ≡ slab_len links.old + length few.old.items }
    ensures links { links.new.capacity ≡ links.old.capacity }
{
    while let Some(event) = few.pop() {
        insert_behind(row, links, event);
    }
}

/// The events in buckets, in order. Contracts see those that are still to come.
#[derive(Drop)]
pub struct BucketEvents<'a> {
    links: &'a Slab<Link<Event>>,
    // How many of a bucket that was begun are left, and the link of their first.
    left: usize,
    at: usize,
    // The buckets of the chunk that was begun, and the chunks behind it.
    chunk: Option<vec_deque::Iter<'a, Bucket>>,
    chunks: vec_deque::Iter<'a, VecDeque<Bucket>>,
}

impl<'a> Model for BucketEvents<'a> {
    ghost use Rattle.std.specs.Prelude.{List, ◌++◌};
    ghost use Rattle.std.specs.VecDeque.Iter.{deque_iter_rest};
    ghost use Rattle.slab.specs.Slab.{get};
    ghost use Rattle.gw_chains.specs.Chunks.{all_of, rest_of};
    ghost use Rattle.gw_chains.specs.Buckets.{run, members_at, members_of};
    ghost use Rattle.gw_members.specs.declared.tx.Event.{Event};

    ghost Value = { List Event };

    ghost view = { λ it. members_at (get it.links.now) (run (get it.links.now) it.left it.at)
        ++ members_of (get it.links.now) (rest_of it.chunk ++ all_of (deque_iter_rest it.chunks)) };
}

impl<'a> Iterator for BucketEvents<'a> {
    type Item = &'a Event;

    ghost next_gives = { YieldsFirstRef (λ rest. rest) };

    ghost remaining = { item_count (λ rest. rest) };

    fn next(&mut self) -> Option<&'a Event> {
        loop {
            if let Some(event) = next_member(self.links, &mut self.left, &mut self.at) {
                return Some(event);
            }
            match next_bucket(&mut self.chunk, &mut self.chunks) {
                Some(bucket) => {
                    self.left = bucket.count;
                    self.at = bucket.first;
                }
                None => return None,
            }
        }
    }
}
