//! Parameters that are sure to be set, in numbers of who works with them.

/// What a parameter holds.
#[derive(Clone, Copy, PartialEq, Eq)]
pub enum ParameterKind {
    /// A number.
    Num,
    /// A return to one of the blocks of the return row of this number, from 0.
    Ret(u16),
    /// The return to the block of this number, from 1; on edges alone.
    RetTo(u16),
}

/// A parameter that is set.
#[derive(Clone, Copy, PartialEq, Eq)]
pub struct Parameter {
    /// Its number, from 1 to 64.
    pub number: u8,
    /// What it holds.
    pub kind: ParameterKind,
}
