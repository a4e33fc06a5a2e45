//! What an expression says, as a tree.

use gw_num::{Binary, Unary};

/// A parameter, by its number from 1 to 64 or by its name.
#[derive(Drop)]
pub enum Parameter {
    /// By number.
    Number(u8),
    /// By name.
    Name(String),
}

/// A block, by its number or by its label.
#[derive(Drop)]
pub enum BlockName {
    /// By number. Blocks count from 1.
    Number(u16),
    /// By label.
    Label(String),
}

/// A system numerical attribute (GPSS World Reference Manual, chapter 3).
#[derive(Drop)]
pub enum Sna {
    /// C1: the clock.
    Clock,
    /// AC1: the absolute clock.
    AbsoluteClock,
    /// PR: the priority of the active transaction.
    Priority,
    /// M1: the transit time of the active transaction.
    TransitTime,
    /// XN1: the number of the active transaction.
    TransactionNumber,
    /// TG1: the termination count.
    TerminationCount,
    /// P: a parameter of the active transaction.
    Parameter(Parameter),
    /// RN: a random number of a stream from 1 to 16.
    Random(u8),
    /// Of an entity, by its name.
    OfEntity(EntityValue, String),
    /// Of a block.
    OfBlock(BlockValue, BlockName),
}

/// What is asked of an entity.
#[derive(Clone, Copy, PartialEq, Eq)]
pub enum EntityValue {
    /// F: whether a facility is owned.
    Facility,
    /// S: the content of a storage.
    StorageContent,
    /// R: the room in a storage.
    StorageRoom,
    /// Q: the content of a queue.
    Queue,
    /// X: a savevalue.
    Savevalue,
    /// LS: whether a switch is set.
    Switch,
    /// CH: the members of a user chain.
    Chain,
    /// V: a variable.
    Variable,
    /// BV: whether a Boolean variable holds.
    BVariable,
    /// FN: a function.
    Function,
}

/// What is asked of a block.
#[derive(Clone, Copy, PartialEq, Eq)]
pub enum BlockValue {
    /// N: its entries.
    Entries,
    /// W: the transactions in it.
    Waiting,
}

/// An expression, as a tree that is at most 1,000 deep (GPSS World Reference Manual, chapter 8).
#[derive(Drop)]
pub enum Expression {
    /// A whole number.
    Whole(i64),
    /// The name of an EQU, or of an argument or a temporary of the PROCEDURE.
    Name(String),
    /// A system numerical attribute.
    Sna(Sna),
    /// An expression in parentheses.
    Parentheses(Box<Expression>),
    /// A call of a PROCEDURE.
    Call(String, Vec<Expression>),
    /// An operator before its operand.
    Unary(Unary, Box<Expression>),
    /// An operator between its operands.
    Binary(Binary, Box<Expression>, Box<Expression>),
}
