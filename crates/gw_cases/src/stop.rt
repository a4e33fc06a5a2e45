//! What ends an act early.

use gw_object::{Fault, codes};
use std::alloc::{AllocError, AllocFailed};

/// Why an act comes to nothing.
#[derive(Clone, Copy, PartialEq, Eq)]
pub enum Stop {
    /// Something was refused.
    Refused(Fault),
    /// The script asks for what there isn't.
    Unknown,
    /// Memory ran out.
    Memory,
}

impl From<Fault> for Stop {
    fn from(fault: Fault) -> Stop {
        if fault.code == codes::MEMORY {
            Stop::Memory
        } else {
            Stop::Refused(fault)
        }
    }
}

impl From<AllocError> for Stop {
    fn from(_fault: AllocError) -> Stop {
        Stop::Memory
    }
}

impl<T: Drop> From<AllocFailed<T>> for Stop {
    fn from(_fault: AllocFailed<T>) -> Stop {
        Stop::Memory
    }
}
