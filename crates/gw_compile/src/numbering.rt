//! What the names of a model text stand for.

ghost use Rattle.std.specs.Prelude.{◌≡◌, string_bytes};
ghost use Rattle.gw_compile.specs.Numbers.{Numbers};

use gw_object::{Numbered, Operand};
use gw_rules::EntityKind;

/// What the name of an EQU stands for.
#[derive(Clone, Copy, PartialEq, Eq)]
pub enum Equ {
    /// A number.
    Number(i64),
    /// The value of a procedure without arguments, by its number from 0.
    Procedure(u16),
}

/// A PROCEDURE that may be called.
#[derive(Clone, Copy, PartialEq, Eq)]
pub struct Callee {
    /// The number of its procedure, from 0.
    pub number: u16,
    /// How many arguments it takes.
    pub arguments: u8,
}

/// The numbers that the names of a model text have in the object that it becomes. Names are in upper case.
pub trait Numbering {
    /// As functions.
    ghost numbers: { Self → Numbers };

    /// The number, from 0, of the entity of a kind and a name, if it is known.
    fn entity(&self, kind: EntityKind, name: &String) -> Option<u16>
        ensures { result ≡ (numbers self.now).entity kind (string_bytes name.now) };

    /// The number, from 1, of the block of a label, if it is known.
    fn block(&self, label: &String) -> Option<u16>
        ensures { result ≡ (numbers self.now).block (string_bytes label.now) };

    /// The number, from 1 to 64, of the parameter of a name, if it is known.
    fn parameter(&self, name: &String) -> Option<u8>
        ensures { result ≡ (numbers self.now).parameter (string_bytes name.now) };

    /// The PROCEDURE of a name, if it may be called here.
    fn procedure(&self, name: &String) -> Option<Callee>
        ensures { result ≡ (numbers self.now).procedure (string_bytes name.now) };

    /// What the EQU of a name stands for, if it is known.
    fn equ(&self, name: &String) -> Option<Equ>
        ensures { result ≡ (numbers self.now).equ (string_bytes name.now) };

    /// What is evaluated for an attribute of an entity or a block in the end: for a variable a call of its procedure, for
    /// a function its argument, and for a function of a variable a call of that one's; any other is its own
    /// (`gw_rules::source_of`).
    fn source(&self, of: Numbered) -> Operand
        ensures { result ≡ (numbers self.now).source of };
}
