//! Blocks in bytes: put, read, and tested against the limits of the object format.
//!
//! It promises that each operand and each block is put as it is spelled, and read as its reading
//! says, and that its test of limits says which have a spelling. Crates that take an object as it
//! is know nothing of it (docs/object-format.md).
#![tactic(auto)]

mod blocks;
mod choices;
mod forms;
mod operands;
mod versions;

pub use blocks::blocks_fit;
pub use operands::{is_parameter, operand_fits, read_parameter_above, read_parameter_number};
pub use versions::{are_of_version, read_block, read_blocks};

/// The format of blocks and their operands.
pub struct BlockFormat;
