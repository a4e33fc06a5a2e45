//! The parts of an object, as a plain record. Their limits are the object format's (docs/object-format.md);
//! what the blocks mean is in the GPSS World Reference Manual, chapter 7.

use crate::blocks::{Block, Operand, Units};
use crate::code::Procedure;
use gw_fields::{Items, Keyed};

/// The slope of a block's weight: the number of a parameter, from 1 to 64, and what each 1 of its value above 0 adds, from 1 to
/// 1,000,000,000.
pub type Slope = (u8, u32);

/// The operands of a TABLE: which values it counts, and in which classes.
#[derive(Clone, Copy, PartialEq, Eq)]
pub struct Table {
    /// What TABULATE enters.
    pub argument: Operand,
    /// The upper limit of the first class, which is the class 0.
    pub limit: i64,
    /// The width of each class but the first and the last, at least 1.
    pub width: u32,
    /// How many classes there are: from 2 to 1,000.
    pub classes: u16,
}

/// A point of a function.
#[derive(Clone, Copy, PartialEq, Eq)]
pub struct Point {
    /// Up to which argument it counts.
    pub x: i64,
    /// The value that the function has there.
    pub y: i64,
}

/// A discrete function: its value is that of the first point which the argument isn't above, else that of the last.
#[derive(Drop, PartialEq, Eq)]
pub struct Function {
    /// Its argument.
    pub argument: Operand,
    /// Its points, ascending by `x`; from 1 to 256.
    pub points: Items<Point>,
}

/// What an entity is.
#[derive(Drop, PartialEq, Eq)]
pub enum Kind {
    /// Owned by one transaction at a time.
    Facility,
    /// Holds units, at most its capacity: from 1 to 2^31 - 1.
    Storage(u32),
    /// Counts units, without a limit.
    Queue,
    /// A logic switch, with its initial setting: whether it is set.
    Switch(bool),
    /// A savevalue, with its initial value.
    Savevalue(i64),
    /// Counts values by classes.
    Table(Table),
    /// A user chain.
    Chain,
    /// A variable: its value is that of a procedure without arguments, which is given by its number from 0.
    Variable(u16),
    /// A boolean variable: whether the value of a procedure without arguments isn't 0; it is given by its number from 0.
    BooleanVariable(u16),
    /// A function.
    Function(Function),
}

/// An entity: a facility, a storage, a queue, a logic switch, a savevalue, a table, a user chain, a variable or a function.
#[derive(Drop, PartialEq, Eq)]
pub struct Entity {
    /// Its name: 1 to 32 letters `A` to `Z`, digits and `_`. No two entities of a kind have one name.
    pub name: Items<u8>,
    /// What it is.
    pub kind: Kind,
}

/// A parameter that a row of the state table says is set. (Ours: docs/object-format.md.)
#[derive(Clone, Copy, PartialEq, Eq)]
pub struct TableParameter {
    /// The parameter's number, from 1 to 64.
    pub number: u8,
    /// What it holds.
    pub kind: TableKind,
}

impl Keyed for TableParameter {
    ghost key_of = { λ p. p.number };

    fn key(&self) -> u16 {
        u16::from(self.number)
    }
}

/// What a parameter holds by a row of the state table. (Ours: docs/object-format.md.)
#[derive(Clone, Copy, PartialEq, Eq)]
pub enum TableKind {
    /// A number.
    Num,
    /// The number of a block of a return row, which is given by its number from 0: a transaction comes back from a
    /// subroutine to the block after that one.
    Ret(u16),
}

/// A return row: the blocks that may have called a subroutine from which a transaction comes back. (Ours:
/// docs/object-format.md.)
#[derive(Drop, PartialEq, Eq)]
pub struct ReturnRow {
    /// The numbers of the blocks, from 1, ascending; from 1 to 4,096 of them.
    pub blocks: Items<u16>,
}

/// What the state table says of a transaction that is about to enter a block. (Ours:
/// docs/object-format.md.)
#[derive(Drop, PartialEq, Eq)]
pub struct TableState {
    /// The parameters that are sure to be set, ascending by number; at most 64.
    pub parameters: Items<TableParameter>,
    /// The facilities that it owns, by their entities' numbers from 0, ascending; at most 1,024.
    pub facilities: Items<u16>,
    /// The units that it is sure to hold, of storages and queues, ascending by entity; at most 1,024, each from
    /// 1 to 2^31 - 1.
    pub units: Items<Units>,
}

/// The parts of an object. Comparing them takes no memory.
#[derive(Drop, PartialEq, Eq)]
pub struct Parts {
    /// The version of the format in which it is spelled: 1 or 2.
    pub version: u16,
    /// The seeds of the streams from the first on, at most 16; 0 is the stream's own number.
    pub seeds: Items<u32>,
    /// The termination count, from 1 to 2^40.
    pub count: u64,
    /// The entities, at most 1,024; the first has the number 0.
    pub entities: Items<Entity>,
    /// The procedures, at most 256; the first has the number 0.
    pub procedures: Items<Procedure>,
    /// The blocks, at most 4,096; the first has the number 1.
    pub blocks: Items<Block>,
    /// The return rows, at most 4,096; the first has the number 0.
    pub returns: Items<ReturnRow>,
    /// For each block its row of the state table, if it has one.
    pub states: Items<Option<TableState>>,
    /// For each user chain, in the order of the entities, its row of the state table, if it has one: what is known of its
    /// members.
    pub chain_states: Items<Option<TableState>>,
    /// For each block its certified weight, from 1 to 1,000,000,000.
    pub weights: Items<u32>,
    /// For each block the slope of its weight, if it has one. None has one in version 1.
    pub slopes: Items<Option<Slope>>,
    /// For each user chain, in the order of the entities, its certified weight, from 1 to 1,000,000,000.
    pub chain_weights: Items<u32>,
}
