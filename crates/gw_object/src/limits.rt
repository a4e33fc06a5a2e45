//! The limits of the object format (docs/object-format.md).

/// The most streams of random numbers.
pub const MOST_STREAMS: usize = 16;

/// The most parameters of a transaction.
pub const MOST_PARAMETERS: usize = 64;

/// The most instructions of a procedure.
pub const MOST_INSTRUCTIONS: usize = 4_096;

/// The most BACKs among them.
pub const MOST_BACKS: usize = 32;

/// The most locals of a procedure, its arguments included.
pub const MOST_LOCALS: u8 = 32;

/// The most bytes that spell an object: 1 MiB.
pub const MOST_BYTES: usize = 1_048_576;

/// The most seeds: one for each stream.
pub const MOST_SEEDS: usize = MOST_STREAMS;

/// The greatest seed.
pub const GREATEST_SEED: u32 = 2_147_483_646;

/// The greatest termination count.
pub const GREATEST_COUNT: u64 = 1_099_511_627_776;

/// The most entities.
pub const MOST_ENTITIES: usize = 1_024;

/// The most letters of an entity's name.
pub const MOST_LETTERS: usize = 32;

/// The greatest capacity of a storage, in units.
pub const GREATEST_CAPACITY: u32 = 2_147_483_647;

/// The greatest width of a class of a table.
pub const GREATEST_WIDTH: u32 = 4_294_967_295;

/// The fewest classes of a table.
pub const LEAST_CLASSES: u16 = 2;

/// The most classes of a table.
pub const MOST_CLASSES: u16 = 1_000;

/// The most points of a function.
pub const MOST_POINTS: usize = 256;

/// The greatest number of units of one entity that the state table says of a transaction.
pub const GREATEST_UNITS: u32 = 2_147_483_647;

/// The most procedures.
pub const MOST_PROCEDURES: usize = 256;

/// The most blocks.
pub const MOST_BLOCKS: usize = 4_096;

/// The most return rows.
pub const MOST_RETURN_ROWS: usize = 4_096;

/// The greatest weight of a block.
pub const GREATEST_WEIGHT: u32 = 1_000_000_000;
