//! Procedures and their instructions, as plain records and enums. Their limits are the object format's
//! (docs/object-format.md); what they do is in docs/plus-code.md, and what the statements of a PLUS procedure mean in the
//! GPSS World Reference Manual, chapter 8.

use crate::blocks::{Attribute, Numbered};
use gw_fields::Items;
use gw_num::{Binary, Unary};

/// A system numerical attribute that code reads.
#[derive(Clone, Copy, PartialEq, Eq)]
pub enum Sna {
    /// The value of a parameter, by its number from 1 to 64.
    Parameter(u8),
    /// An attribute of the clock, the termination count or the transaction.
    Attribute(Attribute),
    /// An attribute of an entity or a block.
    OfEntity(Numbered),
}

/// A jump back, which a procedure takes only so often.
#[derive(Clone, Copy, PartialEq, Eq)]
pub struct Back {
    /// Where it leads: the number of an instruction of the procedure, from 0.
    pub target: u16,
    /// How often it may be taken while one activation of the procedure lasts: from 1 to 1,000,000.
    pub count: u32,
}

/// An instruction of PLUS code. It works on a stack of values, and on the locals of its procedure. Instructions and
/// locals have numbers from 0.
#[derive(Clone, Copy, PartialEq, Eq)]
pub enum Instruction {
    /// PUSH: this number comes onto the stack.
    Push(i64),
    /// GET: the value of this local comes onto the stack.
    Get(u8),
    /// SET: the value on top of the stack goes into this local.
    Set(u8),
    /// VALUE: the value of this attribute comes onto the stack.
    Value(Sna),
    /// ADD to POW, EQ to LE, AND and OR: the two values on top of the stack give way to what the operator makes of them;
    /// the upper one is the right one.
    Binary(Binary),
    /// NEG and NOT: the value on top of the stack gives way to what the operator makes of it.
    Unary(Unary),
    /// POP: the value on top of the stack goes.
    Pop,
    /// JUMP: to this instruction, a later one.
    Jump(u16),
    /// JZ: the value on top of the stack goes; where it is 0, to this instruction, a later one.
    JumpIfZero(u16),
    /// BACK: to the same or an earlier instruction, or the end LoopLimit once it was taken as often as it may be.
    Back(Back),
    /// CALL: the procedure of this number, from 0, takes its arguments from the stack; its value comes onto it.
    Call(u16),
    /// RET: the value on top of the stack is the procedure's.
    Return,
}

/// A procedure: PLUS code with a value. (Ours: docs/plus-code.md.)
#[derive(Drop, PartialEq, Eq)]
pub struct Procedure {
    /// How many arguments it takes: they are its first locals.
    pub arguments: u8,
    /// How many locals it has, its arguments included: at most 32. Those that are no arguments begin as 0.
    pub locals: u8,
    /// The parameters that have to be set where it is evaluated, by their numbers from 1 to 64, ascending.
    pub needs: Items<u8>,
    /// Its instructions, at most 4,096, of which at most 32 are BACKs.
    pub code: Items<Instruction>,
}
