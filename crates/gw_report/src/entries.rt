//! The figures of blocks and entities.

ghost use Rattle.std.specs.Prelude.{◌≡◌};
ghost use Rattle.gw_report.specs.Figures as model;

use gw_entities::{Contents, Facility, Storage};

/// The figures of a block.
#[derive(Clone, Copy, PartialEq, Eq)]
pub struct BlockFigures {
    /// How often transactions entered it.
    pub entries: u64,
    /// How many live transactions have it as their current block.
    pub here: usize,
}

/// The figures of a table, beside its classes.
#[derive(Clone, Copy, PartialEq, Eq)]
pub struct TableFigures {
    /// How many values were entered.
    pub count: u64,
    /// Their sum.
    pub sum: i64,
}

/// The figures of an entity's number, as each kind that the entity may be of: of another than its own they are those of one to
/// which nothing happened, as the machine has them.
#[derive(Clone, Copy, PartialEq, Eq)]
pub struct EntityFigures {
    /// As a facility.
    pub facility: Facility,
    /// As a storage.
    pub storage: Storage,
    /// As a queue.
    pub queue: Contents,
    /// As a logic switch: whether it is set.
    pub switch: bool,
    /// As a savevalue.
    pub savevalue: i64,
    /// As a table.
    pub table: TableFigures,
    /// How many transactions wait for it.
    pub waiting: usize,
    /// As a user chain: how many members it has.
    pub members: usize,
}

impl BlockFigures {
    /// Those of a block where nothing came to pass.
    pub fn none() -> BlockFigures
        ensures { result ≡ model.no_block }
    {
        BlockFigures {
            entries: 0,
            here: 0,
        }
    }
}

/// Nothing inside, and nothing was yet.
const NOTHING: Contents = Contents {
    content: 0,
    maximum: 0,
    entries: 0,
    time_sum: 0,
};

impl EntityFigures {
    /// Those of an entity to which nothing happened.
    pub fn none() -> EntityFigures
        ensures { result ≡ model.no_entity }
    {
        EntityFigures {
            facility: Facility {
                owner: None,
                entries: 0,
                busy: 0,
            },
            storage: Storage {
                capacity: 0,
                contents: NOTHING,
            },
            queue: NOTHING,
            switch: false,
            savevalue: 0,
            table: TableFigures { count: 0, sum: 0 },
            waiting: 0,
            members: 0,
        }
    }
}
