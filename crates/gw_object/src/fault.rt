//! Why something was refused, and where.

/// Where a fault lies. Bytes, entities, procedures, instructions and return rows count from 0, blocks and
/// lines from 1.
#[derive(Clone, Copy, PartialEq, Eq)]
pub enum Place {
    /// The first byte of the field at fault.
    Byte(u32),
    /// An entity.
    Entity(u16),
    /// A procedure and its instruction.
    Code(u16, u16),
    /// A return row.
    Row(u16),
    /// A block.
    Block(u16),
    /// From a block to a block.
    Edge(u16, u16),
    /// A user chain, by its entity's number.
    Chain(u16),
    /// A line of a model text.
    Line(u32),
    /// No place.
    Nowhere,
}

/// A refusal: its code (docs/refusals.md lists them) and its place.
#[derive(Clone, Copy, PartialEq, Eq)]
pub struct Fault {
    /// What is wrong.
    pub code: u16,
    /// Where it is wrong.
    pub place: Place,
}
