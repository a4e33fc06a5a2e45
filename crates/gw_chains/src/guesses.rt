//! Where buckets stood of late.

use crate::chunks::Position;
use std::alloc::Global;

/// So many positions are kept.
const GUESSES: usize = 4096;

/// A position, in few bytes.
#[derive(Clone, Copy)]
pub struct Guess {
    /// The number of the chunk among all that there ever were, by its lowest bits.
    pub chunk: u16,
    /// The place in it.
    pub place: u8,
}

/// Where the buckets of some ranks stood of late, and where chunks begin. It is a guess: others may have come or gone since, so
/// whoever asks for it looks whether it is right, and no contract speaks of it.
#[derive(Drop)]
pub struct Guesses {
    // One for each rank, by its lowest bits; none until there was memory for them.
    kept: Vec<Guess>,
    // How many chunks are gone from the front, by the lowest bits.
    gone: u16,
    // The ranks of the first buckets of the chunks behind the first one, as far as they are known.
    firsts: Vec<i64>,
    // Ranks that differ only in so many of their lowest bits have one guess.
    shift: u32,
}

impl Guesses {
    /// No position is kept yet.
    pub(crate) fn new(alloc: Global) -> Guesses {
        Guesses {
            kept: Vec::new(alloc),
            gone: 0,
            firsts: Vec::new(alloc),
            shift: 0,
        }
    }

    /// Makes room for them, and for so many more chunks, if there is memory.
    pub(crate) fn prepare(&mut self, chunks: usize) {
        let _ = self.firsts.reserve(chunks);
        if !self.kept.is_empty() {
            return;
        }
        let first = Guess { chunk: 0, place: 0 };
        if let Ok(kept) = vec![in *self.kept.allocator(); first; GUESSES] {
            self.kept = kept;
        }
    }

    /// Where the bucket of a rank may be.
    pub(crate) fn guess(&self, rank: i64) -> Position {
        match self.kept.get(self.slot_of(rank)) {
            Some(guess) => Position {
                chunk: guess.chunk.wrapping_sub(self.gone) as usize,
                place: guess.place as usize,
            },
            None => Position { chunk: 0, place: 0 },
        }
    }

    /// Keeps where the bucket of a rank was found.
    pub(crate) fn keep(&mut self, rank: i64, at: Position) {
        let slot = self.slot_of(rank);
        if slot < self.kept.len() {
            self.kept[slot] = Guess {
                chunk: ((at.chunk % 65536) as u16).wrapping_add(self.gone),
                place: (at.place % 256) as u8,
            };
        }
    }

    /// In which chunk the bucket of a rank may be.
    pub(crate) fn chunk_of(&self, rank: i64) -> usize {
        self.firsts.partition_point(|first| *first <= rank)
    }

    /// The chunk at a place was split: the first bucket of the one behind it has this rank. It takes no memory.
    pub(crate) fn split(&mut self, place: usize, rank: i64) {
        if self.firsts.len() < place || self.firsts.len() == self.firsts.capacity() {
            self.firsts.clear();
            return;
        }
        let _ = self.firsts.insert(place, rank);
    }

    /// So many chunks are gone from the front, one at most.
    pub(crate) fn lose_chunks(&mut self, count: usize) {
        if count == 0 {
            return;
        }
        self.gone = self.gone.wrapping_add((count % 65536) as u16);
        if !self.firsts.is_empty() {
            let _ = self.firsts.remove(0);
        }
    }

    /// Where what is kept of a rank stands.
    fn slot_of(&self, rank: i64) -> usize {
        (rank >> (self.shift % 64)).rem_euclid(4096) as usize
    }

    /// Ranks lie between these from now on.
    pub(crate) fn fit(&mut self, first: i64, last: i64) {
        let span = last.saturating_sub(first);
        self.shift = (64 - span.leading_zeros()).saturating_sub(12);
    }
}
