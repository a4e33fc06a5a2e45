//! What keeps the program from an answer.

use std::alloc::AllocError;
use thiserror::Error;

/// What keeps the program from an answer. Its text is for a debugger: the program says the same by its status.
#[derive(Debug, Drop, Error)]
pub enum ProgramFault {
    /// A read of the input failed.
    #[error("a read failed")]
    Read,
    /// A write of the output failed, or took no byte.
    #[error("a write failed")]
    Write,
    /// Memory ran out.
    #[error("no memory")]
    Memory,
}
