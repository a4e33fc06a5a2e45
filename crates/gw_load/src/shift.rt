//! How a service is run.

/// How the workers of a service work, and which jobs its users submit.
#[derive(Clone, Copy)]
pub struct Shift {
    /// How many workers there are.
    pub workers: u32,
    /// How many steps a slice has.
    pub slice: u32,
    /// Users submit so many of the samples: the first ones. The finer the slices, the shorter are the longest of them, since
    /// each slice takes two places of the journal.
    pub samples: u32,
}

/// The shifts, one after the other.
const SHIFTS: &[Shift] = &[
    Shift {
        workers: 4,
        slice: 65_536,
        samples: 8,
    },
    Shift {
        workers: 2,
        slice: 7,
        samples: 6,
    },
    Shift {
        workers: 16,
        slice: 16_384,
        samples: 8,
    },
    Shift {
        workers: 3,
        slice: 100,
        samples: 7,
    },
    Shift {
        workers: 1,
        slice: 1_000,
        samples: 7,
    },
    Shift {
        workers: 4,
        slice: 1,
        samples: 5,
    },
];

/// The shift of a round.
pub fn shift_of(round: u32) -> Option<Shift> {
    let number = (round as usize).checked_rem(SHIFTS.len())?;
    SHIFTS.get(number).copied()
}
