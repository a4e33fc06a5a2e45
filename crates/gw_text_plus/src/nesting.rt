//! What is open around the statement of a PROCEDURE that is being read: what waits for a statement to end stands on a stack,
//! and so do the conditions, the statements and the blocks that it waits with.

use crate::model::PlusStatement;
use gw_text_expressions::Expression;
use gw_text_tokens::faults::{Refusal, Stop};
use std::alloc::{AllocError, Global};

/// How deep statements may nest.
const MOST_NESTED: usize = 1000;

/// What is open around a statement.
#[derive(Clone, Copy)]
enum Open {
    /// A block.
    Block,
    /// IF (e) THEN.
    Then,
    /// IF (e) THEN s, which ELSE may follow.
    Chosen,
    /// IF (e) THEN s ELSE.
    Else,
    /// WHILE (e) DO.
    While,
}

/// What may follow a statement that has ended.
#[derive(Clone, Copy)]
pub(crate) enum Next {
    /// A statement, or the end of the block.
    Statement,
    /// ELSE, or what follows the IF.
    Else,
    /// Nothing: it is all that the PROCEDURE does.
    Nothing,
}

/// What is open, the innermost last.
#[derive(Drop)]
pub(crate) struct Nesting {
    alloc: Global,
    open: Vec<Open>,
    /// The conditions of the branches and loops that are open.
    conditions: Vec<Expression>,
    /// The statements behind THEN of the branches that are open, and the one that has ended.
    statements: Vec<PlusStatement>,
    /// The statements so far of the blocks that are open.
    blocks: Vec<Vec<PlusStatement>>,
}

impl Nesting {
    /// Nothing is open.
    pub(crate) fn new(alloc: Global) -> Nesting {
        Nesting {
            alloc,
            open: Vec::new(alloc),
            conditions: Vec::new(alloc),
            statements: Vec::new(alloc),
            blocks: Vec::new(alloc),
        }
    }

    /// Whether a statement that begins here nests too deep.
    pub(crate) fn is_full(&self) -> bool {
        self.open.len() >= MOST_NESTED
    }

    /// Whether the innermost that is open is a block.
    pub(crate) fn is_in_block(&self) -> bool {
        matches!(self.open.last(), Some(Open::Block))
    }

    /// BEGIN.
    pub(crate) fn begin_block(&mut self) -> Result<(), AllocError> {
        self.blocks.push(Vec::new(self.alloc))?;
        self.open.push(Open::Block)?;
        Ok(())
    }

    /// THEN or DO, behind a condition.
    pub(crate) fn begin_part(
        &mut self,
        is_loop: bool,
        condition: Expression,
    ) -> Result<(), AllocError> {
        self.conditions.push(condition)?;
        self.open
            .push(if is_loop { Open::While } else { Open::Then })?;
        Ok(())
    }

    /// ELSE, of the nearest IF.
    pub(crate) fn begin_else(&mut self) -> Result<(), Stop> {
        let Some(Open::Chosen) = self.open.pop() else {
            return Err(Stop::Refused(Refusal::Operand));
        };
        self.open.push(Open::Else)?;
        Ok(())
    }

    /// The innermost block has ended.
    pub(crate) fn end_block(&mut self) -> Result<Next, Stop> {
        self.open.pop();
        let statements = self.pop_block()?;
        self.close(PlusStatement::Block(statements))
    }

    /// A statement has ended: with it end the loops and branches whose last statement it is.
    pub(crate) fn close(&mut self, statement: PlusStatement) -> Result<Next, Stop> {
        self.push(statement)?;
        for _open in 0..self.open.len() {
            match self.open.pop() {
                Some(Open::Block) => return self.close_in_block(),
                Some(Open::Then) => return self.close_then(),
                Some(Open::Else) => self.close_else()?,
                Some(Open::While) => self.close_while()?,
                _ => return Err(Stop::Refused(Refusal::Operand)),
            }
        }
        Ok(Next::Nothing)
    }

    /// A statement of a block has ended.
    fn close_in_block(&mut self) -> Result<Next, Stop> {
        let mut statements = self.pop_block()?;
        statements.push(self.pop()?)?;
        self.blocks.push(statements)?;
        self.open.push(Open::Block)?;
        Ok(Next::Statement)
    }

    /// The statement behind THEN has ended.
    fn close_then(&mut self) -> Result<Next, Stop> {
        self.open.push(Open::Chosen)?;
        Ok(Next::Else)
    }

    /// The statement behind ELSE has ended, and with it the IF.
    fn close_else(&mut self) -> Result<(), Stop> {
        let otherwise = Box::new(self.alloc, self.pop()?)?;
        let then = Box::new(self.alloc, self.pop()?)?;
        let condition = self.pop_condition()?;
        self.push(PlusStatement::If(condition, then, Some(otherwise)))
    }

    /// The statement behind DO has ended, and with it the WHILE.
    fn close_while(&mut self) -> Result<(), Stop> {
        let inside = Box::new(self.alloc, self.pop()?)?;
        let condition = self.pop_condition()?;
        self.push(PlusStatement::While(condition, inside))
    }

    /// Ends the IFs behind which no ELSE stands.
    pub(crate) fn end_all(&mut self) -> Result<Next, Stop> {
        for _open in 0..self.open.len() {
            match self.end_chosen()? {
                Next::Else => {}
                next => return Ok(next),
            }
        }
        Ok(Next::Else)
    }

    /// Ends the innermost IF, behind which no ELSE stands.
    fn end_chosen(&mut self) -> Result<Next, Stop> {
        self.open.pop();
        let then = Box::new(self.alloc, self.pop()?)?;
        let condition = self.pop_condition()?;
        self.close(PlusStatement::If(condition, then, None))
    }

    /// Keeps a statement that has ended; one that nests too deep is left away.
    fn push(&mut self, statement: PlusStatement) -> Result<(), Stop> {
        if self.open.len() < MOST_NESTED {
            self.keep(statement)
        } else {
            drop(statement);
            self.keep(PlusStatement::Return(None))
        }
    }

    /// Keeps a statement.
    fn keep(&mut self, statement: PlusStatement) -> Result<(), Stop> {
        self.statements.push(statement)?;
        Ok(())
    }

    /// The statement that has ended last.
    pub(crate) fn pop(&mut self) -> Result<PlusStatement, Stop> {
        match self.statements.pop() {
            Some(statement) => Ok(statement),
            None => Err(Stop::Refused(Refusal::Operand)),
        }
    }

    /// The innermost condition.
    fn pop_condition(&mut self) -> Result<Expression, Stop> {
        match self.conditions.pop() {
            Some(condition) => Ok(condition),
            None => Err(Stop::Refused(Refusal::Operand)),
        }
    }

    /// The statements of the innermost block.
    fn pop_block(&mut self) -> Result<Vec<PlusStatement>, Stop> {
        match self.blocks.pop() {
            Some(statements) => Ok(statements),
            None => Err(Stop::Refused(Refusal::Operand)),
        }
    }
}
