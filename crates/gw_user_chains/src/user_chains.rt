//! The user chains.

ghost use Rattle.std.specs.Prelude.{◌≡◌, ◌≤◌, ◌<◌, ◌+◌, ◌^◌, [], ◌∷◌, ◌++◌, length, replicate, EachIndex, SomeIndex, sum_by, IfOk, OnOk, OnErr};
ghost use Rattle.gw_num.specs.Table.{at};
ghost use Rattle.gw_members.specs.Chain.{first, rest};
ghost use Rattle.gw_members.specs.Lists.{apply_at, LosesRoom};
ghost use Rattle.gw_user_chains.specs.Ends.{with_one_at};
ghost use Rattle.std.specs.VecDeque.{deque_len, deque_capacity};

use gw_members::{MOST, Memory, Tx};
use std::alloc::Global;
use std::collections::VecDeque;
use std::marker::Model;

/// The user chains: the transactions that LINK blocks put aside, each chain in its own order, until
/// an UNLINK block takes them from its front (GPSS World Reference Manual, "LINK" and "UNLINK").
#[derive(Drop)]
pub struct UserChains {
    chains: Vec<VecDeque<Tx>>,
    // How many are on all chains.
    linked: usize,
}

impl Model for UserChains {
    ghost use Rattle.std.specs.Prelude.{◌≡◌, ◌≤◌, ◌-◌, ◌^◌, map, length, sum_by};
    ghost use Rattle.std.specs.VecDeque.{deque_len, deque_capacity, deque_items};
    ghost use Rattle.gw_user_chains.specs.Linked.{Linked};
    ghost use Rattle.gw_members.specs.Lists.{room_of};

    ghost Value = { Linked };

    ghost invariant = { λ c. (c.linked ≤ 2 ^ 62)
        × (c.linked ≡ sum_by length (map deque_items c.chains.items)) };

    ghost view = { λ c. record {
      lists = map deque_items c.chains.items;
      rooms = map (λ q. room_of c.linked (deque_capacity q - deque_len q)) c.chains.items;
    } };
}

impl UserChains {
    /// Chains with no member, one for each of so many entities.
    pub fn new(alloc: Global, entities: usize) -> Result<UserChains, Memory>
        ensures { IfOk result (λ c. c.lists ≡ replicate entities []) }
    {
        let mut chains = Vec::new(alloc);
        for _ in 0..entities {
            chains.push(VecDeque::new(alloc))?;
        }
        Ok(UserChains { chains, linked: 0 })
    }

    /// Makes room for so many more members on this chain, or leaves the chains as they were.
    pub fn reserve_link(&mut self, chain: u16, more: usize) -> Result<(), Memory>
        requires { chain < length self.old.lists }
        ensures lists { self.new.lists ≡ self.old.lists }
        ensures room { OnOk result (more ≤ at 0 self.new.rooms chain) }
        ensures kept { LosesRoom 0 self.old.rooms self.new.rooms }
        ensures refused { OnErr result (at 0 self.old.rooms chain < more) }
    {
        self.reserve_at(chain as usize, more)
    }

    /// Makes room for so many more members on any chains, or leaves the chains as they were.
    pub fn reserve(&mut self, more: usize) -> Result<(), Memory>
        ensures lists { self.new.lists ≡ self.old.lists }
        ensures room { OnOk result (EachIndex self.new.lists (λ c. more ≤ at 0 self.new.rooms c)) }
        ensures kept { LosesRoom 0 self.old.rooms self.new.rooms }
        ensures refused { OnErr result
            (SomeIndex self.old.lists (λ c. at 0 self.old.rooms c < more)) }
    {
        for c in 0..self.chains.len() {
            self.reserve_at(c, more)?;
        }
        Ok(())
    }

    /// Makes room for so many more members on one chain.
    fn reserve_at(&mut self, c: usize, more: usize) -> Result<(), Memory>
        requires { c < length self.old.lists }
        ensures lists { self.new.lists ≡ self.old.lists }
        ensures room { OnOk result (more ≤ at 0 self.new.rooms c) }
        ensures kept { LosesRoom 0 self.old.rooms self.new.rooms }
        ensures refused { OnErr result (at 0 self.old.rooms c < more) }
    {
        if MOST - self.linked < more {
            return Err(Memory);
        }
        self.chains[c].reserve(more)
    }

    /// Puts it at the front of this chain. There is room.
    pub fn push_front(&mut self, chain: u16, tx: Tx)
        requires there { chain < length self.old.lists }
        requires room { 0 < at 0 self.old.rooms chain }
        ensures lists { self.new.lists ≡ apply_at chain (λ xs. tx ∷ xs) self.old.lists }
        ensures count { length self.new.lists ≡ length self.old.lists }
        ensures room { LosesRoom 1 self.old.rooms self.new.rooms }
    {
        self.push_at(chain, End::Front, tx);
    }

    /// Puts it at the back of this chain. There is room.
    pub fn push_back(&mut self, chain: u16, tx: Tx)
        requires there { chain < length self.old.lists }
        requires room { 0 < at 0 self.old.rooms chain }
        ensures lists { self.new.lists ≡ apply_at chain (λ xs. xs ++ tx ∷ []) self.old.lists }
        ensures count { length self.new.lists ≡ length self.old.lists }
        ensures room { LosesRoom 1 self.old.rooms self.new.rooms }
    {
        self.push_at(chain, End::Back, tx);
    }

    /// Puts it at an end of this chain. There is room.
    fn push_at(&mut self, chain: u16, end: End, tx: Tx)
        requires there { chain < length self.old.lists }
        requires room { 0 < at 0 self.old.rooms chain }
        ensures lists { self.new.lists ≡ apply_at chain (with_one_at end tx) self.old.lists }
        ensures count { length self.new.lists ≡ length self.old.lists }
        ensures room { LosesRoom 1 self.old.rooms self.new.rooms }
    {
        put_at(&mut self.chains[chain as usize], end, tx);
        self.linked += 1;
    }

    /// Takes the first of this chain, if there is one.
    pub fn unlink(&mut self, chain: u16) -> Option<Tx>
        requires { chain < length self.old.lists }
        ensures first { result ≡ first (at [] self.old.lists chain) }
        ensures lists { self.new.lists ≡ apply_at chain rest self.old.lists }
        ensures count { length self.new.lists ≡ length self.old.lists }
        ensures room { LosesRoom 0 self.old.rooms self.new.rooms }
    {
        let tx = self.chains[chain as usize].pop_front()?;
        self.linked -= 1;
        Some(tx)
    }

    /// How many members this chain has, which a value can always be.
    pub fn members(&self, chain: u16) -> usize
        requires { chain < length self.now.lists }
        ensures value { result ≡ length (at [] self.now.lists chain) }
        ensures few { result ≤ 2 ^ 62 }
    {
        self.chains[chain as usize].len()
    }

    /// How many members all chains have.
    pub fn len(&self) -> usize
        ensures { result ≡ sum_by length self.now.lists }
    {
        self.linked
    }
}

/// An end of a chain.
#[derive(Clone, Copy)]
pub enum End {
    /// Where the first is.
    Front,
    /// Where the last is.
    Back,
}

/// Puts it at an end of a queue. There is room.
fn put_at(queue: &mut VecDeque<Tx>, end: End, tx: Tx)
    requires { deque_len queue.old < deque_capacity queue.old }
    ensures items { queue.new.items ≡ with_one_at end tx queue.old.items }
    ensures len { deque_len queue.new ≡ deque_len queue.old + 1 }
    ensures capacity { deque_capacity queue.new ≡ deque_capacity queue.old }
{
    match end {
        End::Front => queue.push_front_reserved(tx),
        End::Back => queue.push_back_reserved(tx),
    }
}
