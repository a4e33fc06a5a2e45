//! What a model text says, statement by statement.

use gw_text_plus::Procedure;
use gw_text_statements::{Modifier, Operand, Point};
use gw_text_tokens::words::Word;

/// A model text that was read: its statements, in the order of their lines.
#[derive(Drop)]
pub struct Model {
    /// The statements.
    pub statements: Vec<Statement>,
}

/// A statement.
#[derive(Drop)]
pub struct Statement {
    /// The line on which it begins. Lines count from 1.
    pub line: u32,
    /// The line on which it ends: the same, but where a PROCEDURE or a FUNCTION goes on.
    pub last_line: u32,
    /// The label before the word. Of STORAGE, EQU and the like it is the name of what is declared; a name
    /// that is a whole number has no leading zeros. Names are in upper case.
    pub label: Option<String>,
    /// The word.
    pub word: Word,
    /// The operator of TEST, GATE and LOGIC, or the sign behind what ASSIGN and SAVEVALUE change.
    pub modifier: Option<Modifier>,
    /// The operands, as many as the word has, those that aren't written as missing ones. TRANSFER has what
    /// is written in its first.
    pub operands: Vec<Operand>,
    /// What else there is of it.
    pub body: Body,
}

/// What a statement has on the lines after its first one.
#[derive(Drop)]
pub enum Body {
    /// Nothing.
    Nothing,
    /// The points of a FUNCTION.
    Points(Vec<Point>),
    /// A PROCEDURE.
    Procedure(Procedure),
}
