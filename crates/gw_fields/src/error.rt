//! Why reading stopped.

ghost use Rattle.std.specs.Prelude.{◌≡◌};
ghost use Rattle.gw_fields.specs.Fields.{bad};
ghost use Rattle.gw_fields.specs.declared.error.ReadError.TheVariants.{OutOfMemory};

use std::alloc::{AllocError, AllocFailed};

/// A fault of the bytes: its code, and how many bytes are left from the first byte of its field on.
#[derive(Clone, Copy, PartialEq, Eq)]
pub struct Bad {
    pub code: u16,
    pub left: usize,
}

/// Why a reader answers no value.
#[derive(Drop)]
pub enum ReadError {
    OutOfMemory,
    Wrong(Bad),
}

impl From<AllocError> for ReadError {
    ghost from_gives = { λ _ e. e ≡ OutOfMemory };

    fn from(_e: AllocError) -> ReadError {
        ReadError::OutOfMemory
    }
}

impl<T: Drop> From<AllocFailed<T>> for ReadError {
    ghost from_gives = { λ _ e. e ≡ OutOfMemory };

    fn from(_e: AllocFailed<T>) -> ReadError {
        ReadError::OutOfMemory
    }
}

/// A fault of the field that begins here.
pub fn fault(code: u16, bytes: &[u8]) -> ReadError
    ensures { result ≡ ReadError.Wrong (bad code bytes.now) }
{
    ReadError::Wrong(Bad {
        code,
        left: bytes.len(),
    })
}
