//! The code of the refusal that is the assembler's own. docs/refusals.md lists all codes.

/// What is assembled passes a limit of the object format.
pub const LIMIT: u16 = 82;
