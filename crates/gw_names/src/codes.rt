//! The codes of refusals that naming answers. docs/refusals.md lists all codes.

/// A name that nothing has.
pub const NAME: u16 = 80;

/// A storage that is not declared.
pub const STORAGE: u16 = 81;

/// More names than an object has room for.
pub const LIMIT: u16 = 82;
