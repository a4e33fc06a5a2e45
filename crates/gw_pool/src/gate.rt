//! What is called before each slice.

/// Where a worker passes after each take, before it makes its slice, outside the lock: for those who watch workers, or let them
/// wait for one another.
pub trait Gate {
    /// A worker, by its number from 0, has taken the job of a slot.
    fn before(&self, worker: u32, slot: u32);
}

/// A gate that is always open.
#[derive(Clone, Copy)]
pub struct OpenGate;

impl Gate for OpenGate {
    fn before(&self, _worker: u32, _slot: u32) {}
}
