//! Bodies of chains that are shorter to understand, with the contracts of the traits: nothing but tests uses them.

ghost use Rattle.std.specs.Prelude.{◌≡◌, ◌≤◌, ◌+◌, ◌-◌, [], length, ◌==◌, option_map, IsPermutation};
ghost use Rattle.std.specs.Iterator.{YieldsFirstRef, item_count};
ghost use Rattle.std.specs.VecDeque.{deque_len, deque_capacity};
ghost use Rattle.gw_members.specs.Chain.{first};
ghost use Rattle.gw_plain_chains.specs.Rings.{rotation};
ghost use Rattle.gw_members.specs.declared.tx.Event.{Event};
ghost use Rattle.gw_members.specs.declared.tx.Member.{Member};

use crate::calls::ChainBody;
use crate::delay_chain::DelayChain;
use crate::event_chain::EventChain;
use crate::priority_chain::PriorityChain;
use crate::queue::join_behind;
use crate::runs::{front, insert, pop_first, reserve};
use gw_chains::insert_reserved;
use gw_members::{Event, Member, Memory, Tx};
use std::alloc::Global;
use std::collections::{VecDeque, vec_deque};
use std::marker::Model;

/// The future events chain: the transactions that wait for a clock time, by that time, and those
/// of one time in the order in which they were scheduled (GPSS World Reference Manual, "The
/// Transaction Scheduler").
///
/// It is kept in two runs: the settled ones, and some recent ones, which join them many at a time.
#[derive(Drop)]
pub struct Fec {
    settled: VecDeque<Event>,
    recent: VecDeque<Event>,
}

impl Model for Fec {
    ghost use Rattle.std.specs.Prelude.{◌-◌};
    ghost use Rattle.std.specs.VecDeque.{deque_len, deque_capacity};
    ghost use Rattle.std.specs.Prelude.{◌+◌, ◌≤◌};
    ghost use Rattle.gw_members.specs.Chain.{Chain};
    ghost use Rattle.gw_plain_chains.specs.Orders.{IsInTime};
    ghost use Rattle.gw_plain_chains.specs.Runs.{merge_by_time};
    ghost use Rattle.gw_plain_chains.specs.Runs.{room_for};
    ghost use Rattle.gw_members.specs.declared.tx.Event.{Event};

    ghost Value = { Chain Event };

    ghost invariant = { λ c. IsInTime (λ (e : Event). e.time) c.recent.items
        × (deque_len c.settled + deque_len c.recent ≤ deque_capacity c.settled) };

    ghost view = { λ c. record {
      items = merge_by_time (λ (e : Event). e.time) c.settled.items c.recent.items;
      room = room_for (deque_len c.settled + deque_len c.recent) (deque_capacity c.settled) (deque_capacity c.recent);
    } };
}

impl Fec {
    /// A chain with no member.
    pub fn new(alloc: Global) -> Fec
        ensures { result.items ≡ [] }
    {
        Fec {
            settled: VecDeque::new(alloc),
            recent: VecDeque::new(alloc),
        }
    }

    /// The time of the first, in clock units, if there is one.
    pub fn first_time(&self) -> Option<i64>
        ensures { result ≡ option_map (λ e. e.time) (first self.now.items) }
    {
        let event = front(&self.settled, &self.recent)?;
        Some(event.time)
    }

    /// The members, in no particular order.
    pub fn iter(&self) -> Events<'_>
        ensures { IsPermutation self.now.items result }
    {
        Events {
            settled: self.settled.iter(),
            recent: self.recent.iter(),
        }
    }

    /// How many members there are.
    #[tactic(auto, using(crate::proofs::Merging::merged_length))]
    pub fn len(&self) -> usize
        ensures { result ≡ length self.now.items }
    {
        self.settled.len() + self.recent.len()
    }
}

impl ChainBody<Event> for Fec {
    ghost state = { λ c. record { members = c.items; place = 0 } };

    ghost room = { λ c. c.room };

    fn reserve(&mut self, more: usize) -> Result<(), Memory> {
        reserve(&mut self.settled, &mut self.recent, more)
    }
}

impl EventChain for Fec {
    fn schedule(&mut self, event: Event) {
        insert(&mut self.settled, &mut self.recent, event);
    }

    fn pop_due(&mut self, time: i64) -> Option<Tx> {
        if time < self.first_time()? {
            return None;
        }
        let event = pop_first(&mut self.settled, &mut self.recent)?;
        Some(event.tx)
    }
}

/// The members of a future events chain, in no particular order. Contracts see those that are still to come.
#[derive(Drop)]
pub struct Events<'a> {
    settled: vec_deque::Iter<'a, Event>,
    recent: vec_deque::Iter<'a, Event>,
}

impl<'a> Model for Events<'a> {
    ghost use Rattle.std.specs.Prelude.{List, ◌++◌};
    ghost use Rattle.std.specs.VecDeque.Iter.{deque_iter_rest};
    ghost use Rattle.gw_members.specs.declared.tx.Event.{Event};

    ghost Value = { List Event };

    ghost view = { λ it. deque_iter_rest it.settled ++ deque_iter_rest it.recent };
}

impl<'a> Iterator for Events<'a> {
    type Item = &'a Event;

    ghost next_gives = { YieldsFirstRef (λ rest. rest) };

    ghost remaining = { item_count (λ rest. rest) };

    fn next(&mut self) -> Option<&'a Event> {
        match self.settled.next() {
            Some(event) => Some(event),
            None => self.recent.next(),
        }
    }
}

/// The current events chain: the transactions that may move at this clock time, by priority
/// (GPSS World Reference Manual, "The Transaction Scheduler").
///
/// It is one list, in which a newcomer moves those on one side of its place.
#[derive(Drop)]
pub struct Cec {
    members: VecDeque<Member>,
}

impl Model for Cec {
    ghost use Rattle.std.specs.Prelude.{◌-◌};
    ghost use Rattle.std.specs.VecDeque.{deque_len, deque_capacity};
    ghost use Rattle.gw_members.specs.Chain.{Chain};
    ghost use Rattle.gw_plain_chains.specs.Orders.{IsByPriority};
    ghost use Rattle.gw_members.specs.declared.tx.Member.{Member};

    ghost Value = { Chain Member };

    ghost invariant = { λ c. IsByPriority (λ (m : Member). m.priority) c.members.items };

    ghost view = { λ c. record {
      items = c.members.items;
      room = deque_capacity c.members - deque_len c.members;
    } };
}

impl Cec {
    /// A chain with no member.
    pub fn new(alloc: Global) -> Cec
        ensures { result.items ≡ [] }
    {
        Cec {
            members: VecDeque::new(alloc),
        }
    }

    /// How many members there are.
    pub fn len(&self) -> usize
        ensures { result ≡ length self.now.items }
    {
        self.members.len()
    }

    /// Whether there is no member.
    pub fn is_empty(&self) -> bool
        ensures { result ≡ (length self.now.items == 0) }
    {
        self.members.is_empty()
    }
}

impl ChainBody<Member> for Cec {
    ghost state = { λ c. record { members = c.items; place = 0 } };

    ghost room = { λ c. c.room };

    fn reserve(&mut self, more: usize) -> Result<(), Memory> {
        self.members.reserve(more)
    }
}

impl PriorityChain for Cec {
    fn insert_behind(&mut self, member: Member) {
        join_behind(&mut self.members, member.tx, member.priority);
    }

    fn insert_ahead(&mut self, member: Member) {
        let place = self
            .members
            .partition_point(|m| member.priority < m.priority);
        insert_reserved(&mut self.members, place, member);
    }

    fn pop_first(&mut self) -> Option<Tx> {
        let member = self.members.pop_front()?;
        Some(member.tx)
    }
}

/// The delay list of one entity, by priority, with a walk over it that can take members out.
///
/// It is one ring: what the walk has passed lies behind the rest.
#[derive(Drop)]
pub struct DelayList {
    // Those that the walk has still to look at, and behind them those that it has passed.
    ring: VecDeque<Member>,
    // How many the walk has passed.
    passed: usize,
}

impl Model for DelayList {
    ghost use Rattle.std.specs.Prelude.{◌-◌, ◌≤◌};
    ghost use Rattle.std.specs.VecDeque.{deque_len, deque_capacity};
    ghost use Rattle.gw_plain_chains.specs.Orders.{IsByPriority};
    ghost use Rattle.gw_chains.specs.Waiting.{Walked};
    ghost use Rattle.gw_plain_chains.specs.Rings.{rotation};
    ghost use Rattle.gw_members.specs.declared.tx.Member.{Member};

    ghost Value = { Walked };

    ghost invariant = { λ l. (l.passed ≤ deque_len l.ring)
        × IsByPriority (λ (m : Member). m.priority) (rotation (deque_len l.ring - l.passed) l.ring.items) };

    ghost view = { λ l. record {
      members = rotation (deque_len l.ring - l.passed) l.ring.items;
      room = deque_capacity l.ring - deque_len l.ring;
      place = l.passed;
    } };
}

impl DelayList {
    /// A list with no member.
    pub fn new(alloc: Global) -> DelayList
        ensures members { result.members ≡ [] }
        ensures place { result.place ≡ 0 }
    {
        DelayList {
            ring: VecDeque::new(alloc),
            passed: 0,
        }
    }

    /// How many members there are.
    pub fn len(&self) -> usize
        ensures { result ≡ length self.now.members }
    {
        self.ring.len()
    }
}

impl ChainBody<Member> for DelayList {
    ghost state = { λ l. record { members = l.members; place = l.place } };

    ghost room = { λ l. l.room };

    fn reserve(&mut self, more: usize) -> Result<(), Memory> {
        self.ring.reserve(more)
    }
}

impl DelayChain for DelayList {
    fn insert_behind(&mut self, member: Member) {
        turn_back(&mut self.ring, &mut self.passed);
        join_behind(&mut self.ring, member.tx, member.priority);
    }

    fn get(&self, place: usize) -> Option<Tx> {
        if self.ring.len() <= place {
            return None;
        }
        let index = if place < self.passed {
            self.ring.len() - self.passed + place
        } else {
            place - self.passed
        };
        Some(self.ring[index].tx)
    }

    fn remove(&mut self, place: usize) {
        turn_back(&mut self.ring, &mut self.passed);
        let _ = self.ring.remove(place);
    }

    fn start_walk(&mut self) {
        turn_back(&mut self.ring, &mut self.passed);
    }

    fn current(&self) -> Option<Tx> {
        if self.passed == self.ring.len() {
            return None;
        }
        Some(self.ring[0].tx)
    }

    fn pass(&mut self) {
        match self.ring.pop_front() {
            Some(member) => {
                self.ring.push_back_reserved(member);
                self.passed += 1;
            }
            None => unreachable!(),
        }
    }

    fn take(&mut self) {
        let _ = self.ring.pop_front();
    }
}

/// Ends a walk: those that it has passed go to the front again.
fn turn_back(ring: &mut VecDeque<Member>, passed: &mut usize)
    requires { passed.old ≤ deque_len ring.old }
    ensures items { ring.new.items ≡ rotation (deque_len ring.old - passed.old) ring.old.items }
    ensures len { deque_len ring.new ≡ deque_len ring.old }
    ensures capacity { deque_capacity ring.new ≡ deque_capacity ring.old }
    ensures passed { passed.new ≡ 0 }
{
    ring.rotate_right(*passed);
    *passed = 0;
}
