//! The statuses with which the program ends.

/// An accepted job came to a named end.
pub const ENDED: u8 = 0;

/// The object or the job was refused.
pub const REFUSED: u8 = 1;

/// The words are not those of a command.
pub const WRONG_WORDS: u8 = 2;

/// A read or a write failed.
pub const FAILED: u8 = 3;

/// Memory ran out.
pub const NO_MEMORY: u8 = 4;
