//! The future events chain.

ghost use Rattle.std.specs.Prelude.{◌≡◌, ◌≤◌, ◌<◌, ◌+◌, ◌^◌, ◌++◌, List, [], length, reverse, AllPairs, insert, option_map, is_some, int_le, OnOk, OnErr, IsPermutation};
ghost use Rattle.std.specs.Iterator.{YieldsFirstRef, item_count};
ghost use Rattle.std.specs.Vec.{vec_capacity};
ghost use Rattle.gw_members.specs.Chain.{first, rest, rest_if};
ghost use Rattle.gw_members.specs.declared.tx.Event.{Event};
ghost use Rattle.gw_members.specs.Members.{with_event, first_due};
ghost use Rattle.gw_chains.specs.Events.{most_few, NotLater, space_beside, room_behind, room_for_events, event_room, MovesUp};

use crate::event_buckets::{BucketEvents, EventBuckets};
use gw_members::{Event, MOST, Memory, Tx};
use std::alloc::Global;
use std::marker::Model;
use std::slice;

/// As many events are few at most.
const MOST_FEW: usize = 64;

/// The future events chain: the transactions that wait for a clock time, by that time, and those
/// of one time in the order in which they were scheduled (GPSS World Reference Manual, "The
/// Transaction Scheduler").
///
/// Few events stand in a vector by their times, in which a newcomer goes past those that come no later. Where they come to
/// be more, all of them go to buckets, and newcomers go there as long as there is any in them.
#[derive(Drop)]
pub struct Fec {
    // All events while they are few, the first to come last.
    few: Vec<Event>,
    // All events otherwise.
    many: EventBuckets,
}

impl Model for Fec {
    ghost use Rattle.std.specs.Prelude.{◌++◌, ◌≤◌, ◌<◌, ◌^◌, ◌≡◌, length, reverse, AllPairs, []};
    ghost use Rattle.std.specs.Vec.{vec_capacity};
    ghost use Rattle.gw_members.specs.Chain.{Chain};
    ghost use Rattle.gw_chains.specs.Events.{most_few, NotLater, room_for_events};
    ghost use Rattle.gw_members.specs.declared.tx.Event.{Event};

    ghost Value = { Chain Event };

    ghost invariant = { λ c.
        (length c.few.items ≤ most_few)
        × AllPairs NotLater (reverse c.few.items)
        × (0 < length c.few.items → c.many.items ≡ [])
        × (length c.many.items ≤ 2 ^ 62) };

    ghost view = { λ c. record {
      items = reverse c.few.items ++ c.many.items;
      room = room_for_events (vec_capacity c.few) (length c.few.items) c.many;
    } };
}

/// Whether an event is scheduled for the time of another or an earlier one.
fn is_no_later(one: Event, other: Event) -> bool
    ensures { result ≡ int_le one.time other.time }
{
    one.time <= other.time
}

/// Moves the last of few events, a newcomer, ahead of all that come no later. Of the others the first to come stands last.
fn move_up(events: &mut [Event], newcomer: Event)
    requires { 0 < length events.old }
    ensures items { MovesUp newcomer events.old events.new }
    ensures len { length events.new ≡ length events.old }
{
    let mut place = events.len() - 1;
    while 0 < place && is_no_later(events[place - 1], newcomer) {
        events[place] = events[place - 1];
        place -= 1;
    }
    events[place] = newcomer;
}

/// Puts a newcomer among few events, of which the first to come stands last: ahead of all that come no later. There is room.
fn insert_in_time(few: &mut Vec<Event>, newcomer: Event)
    requires { length few.old.items < vec_capacity few.old }
    ensures items { reverse few.new.items ≡ with_event newcomer (reverse few.old.items) }
    ensures len { length few.new.items ≡ length few.old.items + 1 }
    ensures capacity { vec_capacity few.new ≡ vec_capacity few.old }
{
    few.push_reserved(newcomer);
    move_up(few.as_mut_slice(), newcomer);
}

/// How many more events fit into the vector of few; none while there are some in buckets.
fn space_beside(few: &Vec<Event>, many: &EventBuckets) -> usize
    requires { length few.now.items ≤ most_few }
    ensures { result
        ≡ space_beside (length many.now.items) (vec_capacity few.now) (length few.now.items) }
{
    if many.len() == 0 {
        few.capacity().min(MOST_FEW) - few.len()
    } else {
        0
    }
}

/// Makes room for so many more events, where there is too little for them in the vector of few.
#[inline(never)]
fn reserve_more(few: &mut Vec<Event>, many: &mut EventBuckets, more: usize) -> Result<(), Memory>
    requires few { length few.old.items ≤ most_few }
    requires many { length few.old.items + length many.old.items ≤ 2 ^ 62 }
    requires lacks { space_beside (length many.old.items) (vec_capacity few.old) (length few.old.items) < more }
    ensures few { few.new.items ≡ few.old.items }
    ensures many { many.new.items ≡ many.old.items }
    ensures room { OnOk result (more ≤ event_room few.new many.new) }
    ensures kept { event_room few.old many.old ≤ event_room few.new many.new }
    ensures refused { OnErr result (event_room few.old many.old < more) }
{
    let count = few.len();
    if many.len() == 0 && more <= MOST_FEW - count && few.reserve(more).is_ok() {
        return Ok(());
    }
    if MOST - count - many.len() < more {
        return Err(Memory);
    }
    many.reserve(count + more, count.min(1) + more)
}

/// Takes the first of few events, if it is scheduled for `time` or earlier.
fn pop_due(few: &mut Vec<Event>, time: i64) -> Option<Tx>
    ensures first { result ≡ first_due time (reverse few.old.items) }
    ensures rest { reverse few.new.items ≡ rest_if (is_some result) (reverse few.old.items) }
    ensures len { length few.new.items ≤ length few.old.items }
    ensures capacity { vec_capacity few.new ≡ vec_capacity few.old }
{
    if time < few.last()?.time {
        return None;
    }
    let event = few.pop()?;
    Some(event.tx)
}

/// Puts an event behind all of its time or an earlier one, in buckets, into which the few go before it. There is room.
#[inline(never)]
fn schedule_in_buckets(few: &mut Vec<Event>, many: &mut EventBuckets, event: Event)
    requires few { length few.old.items ≤ most_few }
    requires order { AllPairs NotLater (reverse few.old.items) }
    requires apart { 0 < length few.old.items → many.old.items ≡ [] }
    requires room { 0 < room_behind (length few.old.items) many.old }
    ensures items { many.new.items ≡ with_event event (reverse few.old.items ++ many.old.items) }
    ensures few { few.new.items ≡ [] }
    ensures room { room_behind (length few.old.items) many.old ≤ room_behind 0 many.new + 1 }
{
    if !few.is_empty() {
        many.take_few(few);
    }
    many.schedule(event);
}

impl Fec {
    /// A chain with no member.
    pub fn new(alloc: Global) -> Fec
        ensures { result.items ≡ [] }
    {
        Fec {
            few: Vec::new(alloc),
            many: EventBuckets::new(alloc),
        }
    }

    /// Makes room for so many more members, or leaves the chain as it was.
    pub fn reserve(&mut self, more: usize) -> Result<(), Memory>
        ensures items { self.new.items ≡ self.old.items }
        ensures room { OnOk result (more ≤ self.new.room) }
        ensures kept { self.old.room ≤ self.new.room }
        ensures refused { OnErr result (self.old.room < more) }
    {
        if more <= space_beside(&self.few, &self.many) {
            return Ok(());
        }
        if self.few.is_empty() && self.many.has_room(more) {
            return Ok(());
        }
        reserve_more(&mut self.few, &mut self.many, more)
    }

    /// Puts it behind all that are scheduled for `time`, in clock units, or earlier. There is room.
    pub fn schedule(&mut self, tx: Tx, time: i64)
        requires { 0 < self.old.room }
        ensures items { self.new.items ≡ with_event (record { tx = tx; time = time }) self.old.items }
        ensures room { self.old.room ≤ self.new.room + 1 }
    {
        let event = Event { tx, time };
        if 0 < space_beside(&self.few, &self.many) {
            insert_in_time(&mut self.few, event);
        } else {
            schedule_in_buckets(&mut self.few, &mut self.many, event);
        }
    }

    /// The time of the first, in clock units, if there is one.
    pub fn first_time(&self) -> Option<i64>
        ensures { result ≡ option_map (λ e. e.time) (first self.now.items) }
    {
        match self.few.last() {
            Some(event) => Some(event.time),
            None => self.many.first_time(),
        }
    }

    /// Takes the first, if it is scheduled for `time`, in clock units, or earlier.
    pub fn pop_due(&mut self, time: i64) -> Option<Tx>
        ensures first { result ≡ first_due time self.old.items }
        ensures rest { self.new.items ≡ rest_if (is_some result) self.old.items }
        ensures room { self.old.room ≤ self.new.room }
    {
        if self.few.is_empty() {
            return self.many.pop_due(time);
        }
        pop_due(&mut self.few, time)
    }

    /// The members, in no particular order.
    pub fn iter(&self) -> Events<'_>
        ensures { IsPermutation self.now.items result }
    {
        Events {
            few: self.few.iter(),
            many: self.many.iter(),
        }
    }

    /// How many members there are.
    pub fn len(&self) -> usize
        ensures { result ≡ length self.now.items }
    {
        self.few.len() + self.many.len()
    }
}

/// The members of a future events chain, in no particular order. Contracts see those that are still to come.
#[derive(Drop)]
pub struct Events<'a> {
    few: slice::Iter<'a, Event>,
    many: BucketEvents<'a>,
}

impl<'a> Model for Events<'a> {
    ghost use Rattle.std.specs.Prelude.{List, ◌++◌};
    ghost use Rattle.std.specs.Slice.Iter.{iter_rest};
    ghost use Rattle.gw_members.specs.declared.tx.Event.{Event};

    ghost Value = { List Event };

    ghost view = { λ it. iter_rest it.few ++ it.many };
}

impl<'a> Iterator for Events<'a> {
    type Item = &'a Event;

    ghost next_gives = { YieldsFirstRef (λ rest. rest) };

    ghost remaining = { item_count (λ rest. rest) };

    fn next(&mut self) -> Option<&'a Event> {
        match self.few.next() {
            Some(event) => Some(event),
            None => self.many.next(),
        }
    }
}
