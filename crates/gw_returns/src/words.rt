//! Words of 64 bits, one for each block.

ghost use Rattle.std.specs.Prelude.{◌≡◌, ◌<◌, ◌==◌, IfOk, All, length, replicate};
ghost use Rattle.std.specs.Int.{bit_at};
ghost use Rattle.gw_returns.specs.Words as model;

use gw_object::Memory;
use std::alloc::Global;

/// So many words, in which no bit is set.
pub(crate) fn no_bits(alloc: Global, count: usize) -> Result<Vec<u64>, Memory>
    ensures { IfOk result (λ words. words.items ≡ replicate count 0) }
{
    let mut words = Vec::with_capacity(alloc, count)?;
    for _ in 0..count {
        words.push(0)?;
    }
    Ok(words)
}

/// Sets the bit of a place in the word of a block.
fn set_bit(words: &mut [u64], block: u16, place: usize)
    requires block { block < length words.old }
    requires place { place < 64 }
    ensures { words.new ≡ model.with_bit place words.old block }
{
    let index = block as usize;
    words[index] = words[index] | (1 << place);
}

/// Sets the bit of a place in the words of these blocks.
pub(crate) fn set_bits(words: &mut [u64], blocks: &[u16], place: usize)
    requires blocks { All (λ b. b < length words.old) blocks.now }
    requires place { place < 64 }
    ensures { words.new ≡ model.with_bits place words.old blocks.now }
{
    for block in blocks {
        set_bit(words, *block, place);
    }
}

/// What the words of these blocks have in common.
pub(crate) fn common(words: &[u64], blocks: &[u16]) -> u64
    requires { All (λ b. b < length words.now) blocks.now }
    ensures { result ≡ model.common words.now blocks.now }
{
    let mut all = u64::MAX;
    for block in blocks {
        all = all & words[*block as usize];
    }
    all
}

/// Whether the bit of a place is set.
pub(crate) fn has_bit(word: u64, place: usize) -> bool
    requires { place < 64 }
    ensures { result ≡ (bit_at word place == 1) }
{
    (word >> place) & 1 == 1
}
