//! Flow edges: where a transaction goes on to, and what is known of it there.

/// Where an edge leads.
#[derive(Clone, Copy, PartialEq, Eq)]
pub enum Target {
    /// To the block of this number, from 1.
    Block(u16),
    /// To the user chain that is the entity of this number, from 0.
    Chain(u16),
}

/// A flow edge of a block, with what is known of a transaction in the form that its maker works with.
#[derive(Drop)]
pub struct FlowEdge<S> {
    /// The code of the fault where the state doesn't fit the row of the target.
    pub code: u16,
    /// Where the transaction goes on to.
    pub target: Target,
    /// What is known of it there.
    pub state: S,
}
