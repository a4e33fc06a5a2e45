//! What may be asked of one input.

/// What may be asked of one input: of a model text or of an object.
#[derive(Clone, Copy, PartialEq, Eq)]
pub enum Request {
    /// What object a model text becomes.
    Asm,
    /// Whether an object is accepted.
    Check,
    /// What an object's run reports.
    Run {
        /// The one seed of the seed list; 0 means the object's own seeds.
        seed: u32,
        /// The termination count; 0 means the object's own.
        count: u64,
    },
}
