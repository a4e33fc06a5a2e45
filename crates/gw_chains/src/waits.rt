//! The delay lists and the retry list.

ghost use Rattle.std.specs.Prelude.{◌≡◌, ◌≤◌, ◌<◌, ◌+◌, ◌↔◌, [], ◌∷◌, ◌++◌, length, replicate, sum_by, EachIndex, IfOk, IsSome, OnOk, OnErr};
ghost use Rattle.std.specs.VecDeque.{deque_capacity};
ghost use Rattle.gw_num.specs.Table.{at};
ghost use Rattle.gw_members.specs.Chain.{all_behind};
ghost use Rattle.gw_members.specs.Lists.{apply_at, LosesRoom, without_at};
ghost use Rattle.gw_members.specs.Members.{member_of, behind_peers, tx_at};
ghost use Rattle.gw_chains.specs.Waiting.{LacksRoom};

use crate::Cec;
use crate::delay_list::{DelayList, Waiters};
use gw_members::{MOST, Member, Memory, Tx};
use std::alloc::Global;
use std::collections::VecDeque;
use std::marker::Model;

/// The transactions that a block refused: those on the delay list of a facility or storage, by
/// priority, and those on the retry list, in the order in which they came (GPSS World Reference
/// Manual, "The Transaction Scheduler"; one retry list for all conditions is ours:
/// docs/DECISIONS.md).
///
/// A walk goes over one delay list, member by member, and can take members out as it goes:
/// `start_walk`, then `current` with `pass` or `take` for each. It may end anywhere. A call other
/// than these four for the same entity may move it to another place.
#[derive(Drop)]
pub struct Waits {
    delay_lists: Vec<DelayList>,
    retry: VecDeque<Member>,
    // How many are on all delay lists.
    waiting: usize,
}

impl Model for Waits {
    ghost use Rattle.std.specs.Prelude.{◌≡◌, ◌≤◌, ◌-◌, ◌^◌, map, length, sum_by};
    ghost use Rattle.std.specs.VecDeque.{deque_len, deque_capacity};
    ghost use Rattle.gw_chains.specs.Waiting.{Waiting, Walked};
    ghost use Rattle.gw_members.specs.Lists.{room_of};

    ghost Value = { Waiting };

    ghost invariant = { λ w. (w.waiting ≤ 2 ^ 62)
        × (w.waiting ≡ sum_by length (map (λ (l : Walked). l.members) w.delay_lists.items)) };

    ghost view = { λ w. record {
      lists = map (λ (l : Walked). l.members) w.delay_lists.items;
      rooms = map (λ (l : Walked). room_of w.waiting l.room) w.delay_lists.items;
      places = map (λ (l : Walked). l.place) w.delay_lists.items;
      retry = w.retry.items;
      retry_room = deque_capacity w.retry - deque_len w.retry;
    } };
}

impl Waits {
    /// Lists with no member, one for each of so many entities, and a retry list with none.
    pub fn new(alloc: Global, entities: usize) -> Result<Waits, Memory>
        ensures lists { IfOk result (λ w. w.lists ≡ replicate entities []) }
        ensures retry { IfOk result (λ w. w.retry ≡ []) }
    {
        let mut delay_lists = Vec::new(alloc);
        for _ in 0..entities {
            delay_lists.push(DelayList::new(alloc))?;
        }
        Ok(Waits {
            delay_lists,
            retry: VecDeque::new(alloc),
            waiting: 0,
        })
    }

    /// Makes room for so many more members on the delay list of this entity, or leaves the lists
    /// as they were.
    pub fn reserve_wait(&mut self, entity: u16, more: usize) -> Result<(), Memory>
        requires { entity < length self.old.lists }
        ensures lists { self.new.lists ≡ self.old.lists }
        ensures retry { self.new.retry ≡ self.old.retry }
        ensures room { OnOk result (more ≤ at 0 self.new.rooms entity) }
        ensures kept { LosesRoom 0 self.old.rooms self.new.rooms }
        ensures retry_kept { self.old.retry_room ≤ self.new.retry_room }
        ensures refused { OnErr result (at 0 self.old.rooms entity < more) }
    {
        self.reserve_at(entity as usize, more)
    }

    /// Makes room for so many more members on the retry list, or leaves the lists as they were.
    pub fn reserve_retry(&mut self, more: usize) -> Result<(), Memory>
        ensures lists { self.new.lists ≡ self.old.lists }
        ensures retry { self.new.retry ≡ self.old.retry }
        ensures room { OnOk result (more ≤ self.new.retry_room) }
        ensures kept { LosesRoom 0 self.old.rooms self.new.rooms }
        ensures retry_kept { self.old.retry_room ≤ self.new.retry_room }
        ensures refused { OnErr result (self.old.retry_room < more) }
    {
        self.retry.reserve(more)
    }

    /// Makes room for so many more members on any of the lists, or leaves the lists as they were.
    pub fn reserve(&mut self, more: usize) -> Result<(), Memory>
        ensures lists { self.new.lists ≡ self.old.lists }
        ensures retry { self.new.retry ≡ self.old.retry }
        ensures room { OnOk result (EachIndex self.new.lists (λ e. more ≤ at 0 self.new.rooms e)) }
        ensures retry_room { OnOk result (more ≤ self.new.retry_room) }
        ensures kept { LosesRoom 0 self.old.rooms self.new.rooms }
        ensures retry_kept { self.old.retry_room ≤ self.new.retry_room }
        ensures refused { OnErr result (LacksRoom more self.old) }
    {
        self.retry.reserve(more)?;
        for e in 0..self.delay_lists.len() {
            self.reserve_at(e, more)?;
        }
        Ok(())
    }

    /// Makes room for so many more members on one delay list.
    fn reserve_at(&mut self, e: usize, more: usize) -> Result<(), Memory>
        requires { e < length self.old.lists }
        ensures lists { self.new.lists ≡ self.old.lists }
        ensures retry { self.new.retry ≡ self.old.retry }
        ensures retry_room { self.new.retry_room ≡ self.old.retry_room }
        ensures room { OnOk result (more ≤ at 0 self.new.rooms e) }
        ensures kept { LosesRoom 0 self.old.rooms self.new.rooms }
        ensures refused { OnErr result (at 0 self.old.rooms e < more) }
    {
        if MOST - self.waiting < more {
            return Err(Memory);
        }
        self.delay_lists[e].reserve(more)
    }

    /// Puts it on the delay list of this entity, behind its peers: behind all of equal or higher
    /// priority. There is room.
    pub fn push_wait(&mut self, entity: u16, tx: Tx, priority: i32)
        requires there { entity < length self.old.lists }
        requires room { 0 < at 0 self.old.rooms entity }
        ensures lists { self.new.lists ≡ apply_at entity (behind_peers tx priority) self.old.lists }
        ensures count { length self.new.lists ≡ length self.old.lists }
        ensures retry { self.new.retry ≡ self.old.retry }
        ensures room { LosesRoom 1 self.old.rooms self.new.rooms }
        ensures retry_room { self.old.retry_room ≤ self.new.retry_room + 1 }
    {
        self.delay_lists[entity as usize].insert_behind(tx, priority);
        self.waiting += 1;
    }

    /// The transaction at this place, from 0, of the delay list of this entity, if there is one.
    pub fn waiter(&self, entity: u16, place: usize) -> Option<Tx>
        requires { entity < length self.now.lists }
        ensures { result ≡ tx_at place (at [] self.now.lists entity) }
    {
        self.delay_lists[entity as usize].get(place)
    }

    /// How many wait on the delay list of this entity.
    pub fn waiting_len(&self, entity: u16) -> usize
        requires { entity < length self.now.lists }
        ensures { result ≡ length (at [] self.now.lists entity) }
    {
        self.delay_lists[entity as usize].len()
    }

    /// The members of the delay list of this entity, in order.
    pub fn waiters(&self, entity: u16) -> Waiters<'_>
        requires { entity < length self.now.lists }
        ensures { result ≡ at [] self.now.lists entity }
    {
        self.delay_lists[entity as usize].iter()
    }

    /// Removes the member at this place, from 0, of the delay list of this entity. There is one:
    /// `waiter` tells which.
    pub fn remove(&mut self, entity: u16, place: usize)
        requires there { entity < length self.old.lists }
        requires place { place < length (at [] self.old.lists entity) }
        ensures lists { self.new.lists ≡ without_at entity place self.old.lists }
        ensures count { length self.new.lists ≡ length self.old.lists }
        ensures retry { self.new.retry ≡ self.old.retry }
        ensures room { LosesRoom 0 self.old.rooms self.new.rooms }
        ensures retry_room { self.old.retry_room ≤ self.new.retry_room }
    {
        self.delay_lists[entity as usize].remove(place);
        self.waiting -= 1;
    }

    /// Begins a walk over the delay list of this entity, at its first member.
    pub fn start_walk(&mut self, entity: u16)
        requires { entity < length self.old.lists }
        ensures lists { self.new.lists ≡ self.old.lists }
        ensures place { at 0 self.new.places entity ≡ 0 }
        ensures retry { self.new.retry ≡ self.old.retry }
        ensures room { LosesRoom 0 self.old.rooms self.new.rooms }
        ensures retry_room { self.old.retry_room ≤ self.new.retry_room }
    {
        self.delay_lists[entity as usize].start_walk();
    }

    /// The transaction to which the walk over the delay list of this entity has come, if it is not
    /// at the end.
    pub fn current(&self, entity: u16) -> Option<Tx>
        requires { entity < length self.now.lists }
        ensures value { result ≡ tx_at (at 0 self.now.places entity) (at [] self.now.lists entity) }
        ensures there { IsSome result
            ↔ (at 0 self.now.places entity < length (at [] self.now.lists entity)) }
    {
        self.delay_lists[entity as usize].current()
    }

    /// The walk over the delay list of this entity goes on to the next member. It is not at the
    /// end: `current` tells.
    pub fn pass(&mut self, entity: u16)
        requires there { entity < length self.old.lists }
        requires place { at 0 self.old.places entity < length (at [] self.old.lists entity) }
        ensures lists { self.new.lists ≡ self.old.lists }
        ensures place { at 0 self.new.places entity ≡ at 0 self.old.places entity + 1 }
        ensures retry { self.new.retry ≡ self.old.retry }
        ensures room { LosesRoom 0 self.old.rooms self.new.rooms }
        ensures retry_room { self.old.retry_room ≤ self.new.retry_room }
    {
        self.delay_lists[entity as usize].pass();
    }

    /// Removes the member to which the walk over the delay list of this entity has come; the walk
    /// is then at the next. It is not at the end: `current` tells.
    pub fn take(&mut self, entity: u16)
        requires there { entity < length self.old.lists }
        requires place { at 0 self.old.places entity < length (at [] self.old.lists entity) }
        ensures lists { self.new.lists ≡ without_at entity (at 0 self.old.places entity) self.old.lists }
        ensures place { at 0 self.new.places entity ≡ at 0 self.old.places entity }
        ensures count { length self.new.lists ≡ length self.old.lists }
        ensures retry { self.new.retry ≡ self.old.retry }
        ensures room { LosesRoom 0 self.old.rooms self.new.rooms }
        ensures retry_room { self.old.retry_room ≤ self.new.retry_room }
    {
        self.delay_lists[entity as usize].take();
        self.waiting -= 1;
    }

    /// Puts it at the end of the retry list, which remembers its priority. There is room.
    pub fn push_retry(&mut self, tx: Tx, priority: i32)
        requires { 0 < self.old.retry_room }
        ensures retry { self.new.retry ≡ self.old.retry ++ member_of tx priority ∷ [] }
        ensures lists { self.new.lists ≡ self.old.lists }
        ensures room { LosesRoom 1 self.old.rooms self.new.rooms }
        ensures retry_room { self.old.retry_room ≤ self.new.retry_room + 1 }
    {
        self.retry.push_back_reserved(Member { tx, priority });
    }

    /// Moves the whole retry list to the current events chain, in its order, each behind its peers.
    /// There is room for all of them.
    pub fn wake_all(&mut self, cec: &mut Cec)
        requires { length self.old.retry ≤ cec.old.room }
        ensures woken { cec.new.items ≡ all_behind (λ m. m.priority) self.old.retry cec.old.items }
        ensures retry { self.new.retry ≡ [] }
        ensures lists { self.new.lists ≡ self.old.lists }
        ensures room { LosesRoom 0 self.old.rooms self.new.rooms }
        ensures retry_room { self.old.retry_room ≤ self.new.retry_room }
        ensures left { cec.old.room ≤ cec.new.room + length self.old.retry }
    {
        wake(&mut self.retry, cec);
    }

    /// How many are on the retry list.
    pub fn retry_len(&self) -> usize
        ensures { result ≡ length self.now.retry }
    {
        self.retry.len()
    }

    /// How many members all delay lists and the retry list have.
    pub fn len(&self) -> usize
        ensures { result ≡ sum_by length self.now.lists + length self.now.retry }
    {
        self.waiting + self.retry.len()
    }
}

/// Moves all of them to the current events chain, in their order, each behind its peers.
fn wake(sleepers: &mut VecDeque<Member>, cec: &mut Cec)
    requires { length sleepers.old.items ≤ cec.old.room }
    ensures woken { cec.new.items ≡ all_behind (λ m. m.priority) sleepers.old.items cec.old.items }
    ensures left { cec.old.room ≤ cec.new.room + length sleepers.old.items }
    ensures emptied { sleepers.new.items ≡ [] }
    ensures capacity { deque_capacity sleepers.new ≡ deque_capacity sleepers.old }
{
    while let Some(member) = sleepers.pop_front() {
        cec.insert_behind(member.tx, member.priority);
    }
}
