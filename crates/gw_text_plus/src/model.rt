//! What a PROCEDURE says, as a tree.

use gw_text_expressions::Expression;

/// A PROCEDURE of the PLUS language.
#[derive(Drop)]
pub struct Procedure {
    /// Its name.
    pub name: String,
    /// The names of its arguments, in order.
    pub arguments: Vec<String>,
    /// What it does.
    pub statement: PlusStatement,
}

/// A statement of the PLUS language, as a tree that is at most 1,000 deep.
#[derive(Drop)]
pub enum PlusStatement {
    /// BEGIN .. END;
    Block(Vec<PlusStatement>),
    /// TEMPORARY names;
    Temporary(Vec<String>),
    /// name = e;
    Assign(String, Expression),
    /// IF (e) THEN s, and what ELSE has where it is written.
    If(Expression, Box<PlusStatement>, Option<Box<PlusStatement>>),
    /// WHILE (e) DO s
    While(Expression, Box<PlusStatement>),
    /// RETURN e; or RETURN;
    Return(Option<Expression>),
}
