//! The object: its blocks with their operands, its procedures and other parts, and the grammar of
//! their bytes.
//!
//! It promises that an `Object` keeps the format's limits, so no crate above tests them again. It
//! says how parts are spelled, and no body of it reads or writes bytes. What a number in a block
//! names is judged above (docs/object-format.md).
#![tactic(auto)]

mod blocks;
mod chains;
mod code;
pub mod codes;
mod fault;
mod limits;
mod object;
mod parts;

pub use blocks::{
    Assign, Attribute, Block, Both, Call, Comparison, Condition, EntityAttribute, Fraction, Gate,
    Generate, Link, LinkOrder, Logic, Loop, Mode, Numbered, Operand, Plus, Priority, Save, Split,
    Spread, SwitchAction, Test, Units, Unlink, block_word,
};
pub use chains::chains_in;
pub use code::{Back, Instruction, Procedure, Sna};
pub use fault::{Fault, Place};
pub use gw_fields::Items;
pub use limits::{
    GREATEST_CAPACITY, GREATEST_COUNT, GREATEST_SEED, GREATEST_UNITS, GREATEST_WEIGHT,
    GREATEST_WIDTH, LEAST_CLASSES, MOST_BACKS, MOST_BLOCKS, MOST_BYTES, MOST_CLASSES,
    MOST_ENTITIES, MOST_INSTRUCTIONS, MOST_LETTERS, MOST_LOCALS, MOST_PARAMETERS, MOST_POINTS,
    MOST_PROCEDURES, MOST_RETURN_ROWS, MOST_SEEDS, MOST_STREAMS,
};
pub use object::Object;
pub use parts::{
    Entity, Function, Kind, Parts, Point, ReturnRow, Slope, Table, TableKind, TableParameter,
    TableState,
};
pub use std::alloc::AllocError as Memory;
