//! What a seat knows of a board.

use std::collections::LinkedList;

/// For each slot the greatest count that a seat published or read. It stands in proofs alone: no value of it is made.
pub struct View {
    /// The counts, by slot.
    pub counts: LinkedList<u64>,
}
