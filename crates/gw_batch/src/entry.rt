//! What stands in a batch.

use gw_object::Fault;

/// At most so many objects are read.
pub const MOST_OBJECTS: u32 = 1024;

/// The bytes of a length.
pub const LENGTH_BYTES: usize = 4;

/// What stands in a batch.
#[derive(Drop)]
pub enum Entry {
    /// The bytes of an object.
    Object(Vec<u8>),
    /// What ended the reading, as the last entry: a length or an object that is cut off, a length above 1 MiB, or an object too
    /// many.
    Broken(Fault),
}
