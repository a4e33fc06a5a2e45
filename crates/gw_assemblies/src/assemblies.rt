//! Assemblies: who waits for the rest of an assembly set, and at which block.

ghost use Rattle.std.specs.Prelude.{◌≡◌, ◌≤◌, ◌<◌, ◌+◌, ◌-◌, ◌^◌, ◌++◌, [], ◌∷◌, Some, IsSome, OnOk, OnErr};
ghost use Rattle.std.specs.List.{find};
ghost use Rattle.gw_assemblies.specs.Assembling.{is_of, with_one_come};
ghost use Rattle.gw_members.specs.Firsts.{without_first};

use crate::register::{Entry, Key, add, count_down, find, make_way, reserve, strike_out};
use gw_members::{MOST, Memory, Tx};
use std::alloc::Global;
use std::marker::Model;

/// An assembly that has begun: its first transaction waits at the block for the rest of its set (GPSS World Reference
/// Manual, chapter 7, ASSEMBLE).
#[derive(Clone, Copy, PartialEq, Eq)]
pub struct Assembly {
    /// The block at which it waits, by its number from 1.
    pub block: u16,
    /// The number of the assembly set.
    pub set: u64,
    /// The transaction that came first, and waits.
    pub first: Tx,
    /// How many are still to come.
    pub missing: u16,
}

/// The assemblies that have begun, in the order in which they did; at most one for a block and a set where each is looked
/// for before it is begun.
///
/// One is found by its block and set in a bucket of those that share it, few of all. One that is finished is struck out,
/// and swept away with others when there are as many entries as twice the assemblies that there is room for.
#[derive(Drop)]
pub struct Assemblies {
    // In the order in which they were begun, with those that are struck out.
    entries: Vec<Entry>,
    // The place of the newest entry of each bucket, if there is one.
    buckets: Vec<Option<usize>>,
    // How many stand, and how many may.
    waiting: usize,
    most: usize,
}

impl Model for Assemblies {
    ghost use Rattle.std.specs.Prelude.{◌≡◌, ◌≤◌, ◌<◌, ◌-◌, ◌*◌, ◌^◌, length, vec_len, vec_capacity};
    ghost use Rattle.gw_assemblies.specs.Assembling.{Assembling};
    ghost use Rattle.gw_assemblies.specs.Register.{assemblies_of, AreFiled};

    ghost Value = { Assembling };

    ghost invariant = { λ a. AreFiled a.entries.items a.buckets.items (length a.entries.items)
        × (a.waiting ≡ length (assemblies_of a.entries.items))
        × (a.waiting ≤ a.most)
        × (a.most ≤ 2 ^ 62)
        × (vec_len a.entries ≤ 2 * a.most)
        × (2 * a.most ≤ vec_capacity a.entries)
        × (0 < a.most → 0 < vec_len a.buckets) };

    ghost view = { λ a. record { items = assemblies_of a.entries.items; room = a.most - a.waiting } };
}

impl Assemblies {
    /// None has begun. It takes no memory.
    pub fn new(alloc: Global) -> Assemblies
        ensures { result.items ≡ [] }
    {
        Assemblies {
            entries: Vec::new(alloc),
            buckets: Vec::new(alloc),
            waiting: 0,
            most: 0,
        }
    }

    /// Makes room for so many more.
    ///
    /// It fails for want of memory, only where there was not that much room, and then leaves the assemblies as they were.
    pub fn reserve(&mut self, more: usize) -> Result<(), Memory>
        ensures items { self.new.items ≡ self.old.items }
        ensures room { OnOk result (more ≤ self.new.room) }
        ensures kept { self.old.room ≤ self.new.room }
        ensures refused { OnErr result (self.old.room < more) }
    {
        if more <= self.most - self.waiting {
            return Ok(());
        }
        if MOST - self.waiting < more {
            return Err(Memory);
        }
        let most = grown(self.waiting, more);
        reserve(&mut self.entries, &mut self.buckets, most)?;
        self.most = most;
        Ok(())
    }

    /// The assembly of a set at a block, if one has begun.
    pub fn find(&self, block: u16, set: u64) -> Option<Assembly>
        ensures { result ≡ find (is_of block set) self.now.items }
    {
        find(&self.entries, &self.buckets, Key { block, set })
    }

    /// An assembly begins, in room that `reserve` made.
    pub fn begin(&mut self, assembly: Assembly)
        requires { 0 < self.old.room }
        ensures items { self.new.items ≡ self.old.items ++ assembly ∷ [] }
        ensures room { self.old.room ≤ self.new.room + 1 }
    {
        make_way(&mut self.entries, &mut self.buckets, 2 * self.most);
        add(&mut self.entries, &mut self.buckets, assembly);
        self.waiting += 1;
    }

    /// One more has come to the assembly of a set at a block, which has begun.
    pub fn come(&mut self, block: u16, set: u64)
        requires { IsSome (find (is_of block set) self.old.items) }
        ensures items { self.new.items ≡ with_one_come block set self.old.items }
        ensures room { self.old.room ≤ self.new.room }
    {
        count_down(&mut self.entries, &self.buckets, Key { block, set });
    }

    /// The last of a set has come to a block: its assembly, which has begun, is taken out and answered.
    pub fn finish(&mut self, block: u16, set: u64) -> Assembly
        requires { IsSome (find (is_of block set) self.old.items) }
        ensures value { find (is_of block set) self.old.items ≡ Some result }
        ensures items { self.new.items ≡ without_first (is_of block set) self.old.items }
        ensures room { self.old.room < self.new.room }
    {
        match strike_out(&mut self.entries, &self.buckets, Key { block, set }) {
            Some(assembly) => {
                self.waiting -= 1;
                assembly
            }
            None => unreachable!(),
        }
    }
}

/// How many may stand where so many stand and there has to be room for some more: twice as many, or more.
fn grown(waiting: usize, more: usize) -> usize
    requires { waiting + more ≤ 2 ^ 62 }
    ensures enough { waiting + more ≤ result }
    ensures bound { result ≤ 2 ^ 62 }
{
    let twice = waiting * 2;
    if twice <= waiting + more || MOST < twice {
        waiting + more
    } else {
        twice
    }
}
