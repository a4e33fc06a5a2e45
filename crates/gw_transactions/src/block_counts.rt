//! How many there are at each block.

ghost use Rattle.std.specs.Prelude.{◌≡◌, ◌≤◌, ◌<◌, ◌+◌, ◌^◌, ◌==◌, if◌then◌else◌, ℕ, IfOk, length, replicate};
ghost use Rattle.gw_num.specs.Table.{at};
ghost use Rattle.gw_transactions.specs.Slots.{CountsGo};

use gw_members::Memory;
use std::alloc::Global;
use std::marker::Model;

/// The greatest number of a block: an object has at most so many (docs/object-format.md).
const LAST_BLOCK: usize = 4096;

/// One more is at a block.
fn raise(counts: &mut [usize], block: u16)
    requires there { block < length counts.old }
    requires few { at 0 counts.old block ≤ 2 ^ 62 }
    ensures counts { (b : ℕ) → at 0 counts.new b
        ≡ at 0 counts.old b + (if block == b then 1 else 0) }
    ensures len { length counts.new ≡ length counts.old }
{
    counts[block as usize] += 1;
}

/// One that was at a block is there no more.
fn lower(counts: &mut [usize], block: u16)
    requires { 0 < at 0 counts.old block }
    ensures counts { (b : ℕ) → at 0 counts.new b + (if block == b then 1 else 0)
        ≡ at 0 counts.old b }
    ensures len { length counts.new ≡ length counts.old }
{
    counts[block as usize] -= 1;
}

/// How many there are at each block, by its number from 1 to 4,096, and how many that were in none yet, at 0.
#[derive(Drop)]
pub(crate) struct BlockCounts {
    counts: Vec<usize>,
}

impl Model for BlockCounts {
    ghost use Rattle.std.specs.Prelude.{◌≡◌, ℕ, List, length};

    ghost Value = { List ℕ };

    ghost view = { λ c. c.counts.items };

    ghost invariant = { λ c. length c.counts.items ≡ 4097 };
}

impl BlockCounts {
    /// None at any block.
    ///
    /// It fails for want of memory.
    pub fn new(alloc: Global) -> Result<BlockCounts, Memory>
        ensures { IfOk result (λ c. c ≡ replicate 4097 0) }
    {
        let counts = vec![in alloc; 0usize; LAST_BLOCK + 1]?;
        Ok(BlockCounts { counts })
    }

    /// How many there are at a block.
    pub fn get(&self, block: u16) -> usize
        ensures { result ≡ at 0 self.now block }
    {
        self.counts.get(block as usize).copied().unwrap_or(0)
    }

    /// How many there are at each block, by its number.
    pub fn as_slice(&self) -> &[usize]
        ensures { result.now ≡ self.now }
    {
        self.counts.as_slice()
    }

    /// One more is at a block.
    pub fn add(&mut self, block: u16)
        requires block { block ≤ 4096 }
        requires few { at 0 self.old block ≤ 2 ^ 62 }
        ensures { (b : ℕ) → at 0 self.new b ≡ at 0 self.old b + (if block == b then 1 else 0) }
    {
        raise(self.counts.as_mut_slice(), block);
    }

    /// One goes from a block to another, which may be the same.
    pub fn go(&mut self, from: u16, to: u16)
        requires there { 0 < at 0 self.old from }
        requires block { to ≤ 4096 }
        requires few { at 0 self.old to ≤ 2 ^ 62 }
        ensures { CountsGo from to self.old self.new }
    {
        let counts = self.counts.as_mut_slice();
        lower(counts, from);
        raise(counts, to);
    }

    /// One that was at a block is there no more.
    pub fn take(&mut self, block: u16)
        requires { 0 < at 0 self.old block }
        ensures { (b : ℕ) → at 0 self.new b + (if block == b then 1 else 0) ≡ at 0 self.old b }
    {
        lower(self.counts.as_mut_slice(), block);
    }
}
