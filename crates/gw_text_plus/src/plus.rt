//! PROCEDUREs of the PLUS language, token by token (GPSS World Reference Manual, chapter 8).

use crate::model::{PlusStatement, Procedure};
use crate::nesting::{Nesting, Next};
use gw_text_expressions::Expression;
use gw_text_expressions::expressions::{Expressions, Kind};
use gw_text_tokens::faults::{Lowest, Refusal, Stop};
use gw_text_tokens::is_spelled;
use gw_text_tokens::names::name_of;
use gw_text_tokens::tokens::Token;
use std::alloc::{AllocError, Global};
use std::mem;

/// What may come next.
#[derive(Clone, Copy)]
enum State {
    /// The word PROCEDURE.
    Word,
    /// The name.
    Name,
    /// The parenthesis before the arguments.
    Arguments,
    /// An argument, or the parenthesis behind them.
    FirstArgument,
    /// An argument.
    Argument,
    /// What follows an argument.
    AfterArgument,
    /// A statement.
    Statement,
    /// What follows the name to which something is assigned.
    Target,
    /// The value that is assigned to that name.
    Value,
    /// What follows RETURN.
    Return,
    /// The value that is returned.
    Returned,
    /// The parenthesis before the condition of IF, or of WHILE.
    Condition(bool),
    /// The condition of IF, or of WHILE.
    InCondition(bool),
    /// THEN.
    Then,
    /// DO.
    Do,
    /// A temporary.
    Temporary,
    /// What follows a temporary.
    AfterTemporary,
    /// What follows END.
    End,
    /// ELSE, or what follows the IF.
    Closed,
    /// Nothing.
    Done,
}

/// What became of a token.
#[derive(Clone, Copy)]
pub(crate) enum Taken {
    /// It was taken, and more must follow.
    More,
    /// It was the last one.
    Last,
    /// The PROCEDURE had ended before it.
    Not,
}

/// A reader of a PROCEDURE.
#[derive(Drop)]
pub(crate) struct Plus {
    alloc: Global,
    state: State,
    name: String,
    arguments: Vec<String>,
    /// The name to which something is assigned.
    target: String,
    /// The names of the TEMPORARY that is being read.
    temporaries: Vec<String>,
    nesting: Nesting,
    lowest: Lowest,
}

impl Plus {
    /// A reader at the word PROCEDURE.
    pub(crate) fn new(alloc: Global) -> Plus {
        Plus {
            alloc,
            state: State::Word,
            name: String::new(alloc),
            arguments: Vec::new(alloc),
            target: String::new(alloc),
            temporaries: Vec::new(alloc),
            nesting: Nesting::new(alloc),
            lowest: Lowest::NONE,
        }
    }

    /// The lowest refusal of a line so far; the reader's expression is part of it.
    pub(crate) fn lowest(&self, reader: &Expressions) -> Lowest {
        self.lowest.and(reader.lowest)
    }

    /// Takes the next token.
    pub(crate) fn take(
        &mut self,
        reader: &mut Expressions,
        token: Token<'_>,
    ) -> Result<Taken, Stop> {
        match self.state {
            State::Closed => self.take_closed(reader, token),
            State::Value | State::Returned => self.take_value(reader, token),
            State::Return => self.take_return(reader, token),
            State::End => self.take_end(token),
            State::AfterTemporary => self.take_after_temporary(token),
            _ => {
                self.take_inside(reader, token)?;
                Ok(Taken::More)
            }
        }
    }

    /// Takes a token that can't be the last one.
    fn take_inside(&mut self, reader: &mut Expressions, token: Token<'_>) -> Result<(), Stop> {
        match self.state {
            State::Statement => self.take_statement(token),
            State::Target => self.take_target(reader, token),
            State::Condition(is_loop) => self.take_condition(reader, is_loop, token),
            State::InCondition(is_loop) => self.take_in_condition(reader, is_loop, token),
            State::Then => self.take_word(b"THEN", token),
            State::Do => self.take_word(b"DO", token),
            State::Temporary => self.take_temporary(reader, token),
            _ => self.take_head(reader, token),
        }
    }

    /// Takes a token of `PROCEDURE name(names)`.
    fn take_head(&mut self, reader: &mut Expressions, token: Token<'_>) -> Result<(), Stop> {
        self.state = match (self.state, token) {
            (State::Word, Token::Name(_)) => State::Name,
            (State::Name, Token::Name(spelling)) => {
                self.take_name(reader, spelling)?;
                State::Arguments
            }
            (State::Arguments, Token::Open) => State::FirstArgument,
            (State::FirstArgument, Token::Close) => State::Statement,
            (State::FirstArgument | State::Argument, Token::Name(spelling)) => {
                self.take_argument(reader, spelling)?;
                State::AfterArgument
            }
            (State::AfterArgument, Token::Comma) => State::Argument,
            (State::AfterArgument, Token::Close) => State::Statement,
            _ => return Err(Stop::Refused(Refusal::Operand)),
        };
        Ok(())
    }

    /// The name of the PROCEDURE; 74 Label where another one has it.
    fn take_name(&mut self, reader: &mut Expressions, spelling: &[u8]) -> Result<(), Stop> {
        self.name = self.kept(spelling)?;
        if reader.procedures.contains(self.name.as_str()) {
            self.lowest.note(Refusal::Label);
        }
        Ok(())
    }

    /// An argument.
    fn take_argument(&mut self, reader: &mut Expressions, spelling: &[u8]) -> Result<(), Stop> {
        let name = self.kept(spelling)?;
        self.declare(reader, name.clone()?)?;
        self.arguments.push(name)?;
        Ok(())
    }

    /// A name as it is kept; one that is too long is noted.
    fn kept(&mut self, spelling: &[u8]) -> Result<String, AllocError> {
        let name = name_of(self.alloc, spelling);
        self.lowest.keep(name, String::new(self.alloc))
    }

    /// Declares an argument or a temporary; one that is there already is noted.
    fn declare(&mut self, reader: &mut Expressions, name: String) -> Result<(), AllocError> {
        if !reader.locals.insert(name)? {
            self.lowest.note(Refusal::Operand);
        }
        Ok(())
    }

    /// The first token of a statement.
    fn take_statement(&mut self, token: Token<'_>) -> Result<(), Stop> {
        let Token::Name(word) = token else {
            return Err(Stop::Refused(Refusal::Operand));
        };
        if is_spelled(word, b"END") {
            return self.take_end_word();
        }
        if self.nesting.is_full() {
            self.lowest.note(Refusal::Limit);
        }
        match state_after(word) {
            Some(State::Statement) => self.nesting.begin_block()?,
            Some(state) => self.state = state,
            None if is_spelled(word, b"GOTO") => return Err(Stop::Refused(Refusal::LeftOut)),
            None => {
                self.target = self.kept(word)?;
                self.state = State::Target;
            }
        }
        Ok(())
    }

    /// END, which must end a block.
    fn take_end_word(&mut self) -> Result<(), Stop> {
        if !self.nesting.is_in_block() {
            return Err(Stop::Refused(Refusal::Operand));
        }
        self.state = State::End;
        Ok(())
    }

    /// What follows END.
    fn take_end(&mut self, token: Token<'_>) -> Result<Taken, Stop> {
        let Token::Semicolon = token else {
            return Err(Stop::Refused(Refusal::Operand));
        };
        let next = self.nesting.end_block()?;
        Ok(self.follow(next))
    }

    /// What follows the name to which something is assigned: an argument or a temporary. GPSS World has other targets, too.
    fn take_target(&mut self, reader: &mut Expressions, token: Token<'_>) -> Result<(), Stop> {
        match token {
            Token::Equals => {
                if !reader.locals.contains(self.target.as_str()) {
                    self.lowest.note(Refusal::LeftOut);
                }
                self.begin_expression(reader);
                self.state = State::Value;
                Ok(())
            }
            Token::Dollar => Err(Stop::Refused(Refusal::LeftOut)),
            _ => Err(Stop::Refused(Refusal::Operand)),
        }
    }

    /// Begins an expression; what was noted of the one before is kept.
    fn begin_expression(&mut self, reader: &mut Expressions) {
        self.lowest = self.lowest.and(reader.lowest);
        reader.begin(Kind::Full);
    }

    /// What follows RETURN.
    fn take_return(&mut self, reader: &mut Expressions, token: Token<'_>) -> Result<Taken, Stop> {
        if let Token::Semicolon = token {
            return self.close(PlusStatement::Return(None));
        }
        self.begin_expression(reader);
        self.state = State::Returned;
        self.take_value(reader, token)
    }

    /// A token of a value that is assigned or returned.
    fn take_value(&mut self, reader: &mut Expressions, token: Token<'_>) -> Result<Taken, Stop> {
        if let Token::Semicolon = token {
            let value = reader.end()?;
            let statement = self.valued(value);
            return self.close(statement);
        }
        reader.take(token)?;
        Ok(Taken::More)
    }

    /// The statement that assigns or returns this value.
    fn valued(&mut self, value: Expression) -> PlusStatement {
        match self.state {
            State::Value => {
                let target = mem::replace(&mut self.target, String::new(self.alloc));
                PlusStatement::Assign(target, value)
            }
            _ => PlusStatement::Return(Some(value)),
        }
    }

    /// The parenthesis before a condition.
    fn take_condition(
        &mut self,
        reader: &mut Expressions,
        is_loop: bool,
        token: Token<'_>,
    ) -> Result<(), Stop> {
        let Token::Open = token else {
            return Err(Stop::Refused(Refusal::Operand));
        };
        self.begin_expression(reader);
        reader.take(token)?;
        self.state = State::InCondition(is_loop);
        Ok(())
    }

    /// A token of a condition.
    fn take_in_condition(
        &mut self,
        reader: &mut Expressions,
        is_loop: bool,
        token: Token<'_>,
    ) -> Result<(), Stop> {
        reader.take(token)?;
        if reader.is_closed() {
            self.nesting.begin_part(is_loop, reader.end()?)?;
            self.state = if is_loop { State::Do } else { State::Then };
        }
        Ok(())
    }

    /// THEN or DO.
    fn take_word(&mut self, word: &[u8], token: Token<'_>) -> Result<(), Stop> {
        match token {
            Token::Name(spelling) if is_spelled(spelling, word) => {
                self.state = State::Statement;
                Ok(())
            }
            _ => Err(Stop::Refused(Refusal::Operand)),
        }
    }

    /// A temporary.
    fn take_temporary(&mut self, reader: &mut Expressions, token: Token<'_>) -> Result<(), Stop> {
        let Token::Name(spelling) = token else {
            return Err(Stop::Refused(Refusal::Operand));
        };
        let name = self.kept(spelling)?;
        self.declare(reader, name.clone()?)?;
        self.temporaries.push(name)?;
        self.state = State::AfterTemporary;
        Ok(())
    }

    /// What follows a temporary.
    fn take_after_temporary(&mut self, token: Token<'_>) -> Result<Taken, Stop> {
        match token {
            Token::Comma => {
                self.state = State::Temporary;
                Ok(Taken::More)
            }
            Token::Semicolon => {
                let names = mem::replace(&mut self.temporaries, Vec::new(self.alloc));
                self.close(PlusStatement::Temporary(names))
            }
            _ => Err(Stop::Refused(Refusal::Operand)),
        }
    }

    /// ELSE, or a token behind an IF without it.
    fn take_closed(&mut self, reader: &mut Expressions, token: Token<'_>) -> Result<Taken, Stop> {
        if let Token::Name(word) = token
            && is_spelled(word, b"ELSE")
        {
            self.nesting.begin_else()?;
            self.state = State::Statement;
            return Ok(Taken::More);
        }
        self.end_all()?;
        if self.is_done() {
            return Ok(Taken::Not);
        }
        self.take_statement(token)?;
        Ok(Taken::More)
    }

    /// Ends the IFs behind which no ELSE stands.
    pub(crate) fn end_all(&mut self) -> Result<(), Stop> {
        if let State::Closed = self.state {
            let next = self.nesting.end_all()?;
            self.follow(next);
        }
        Ok(())
    }

    /// A statement has ended.
    fn close(&mut self, statement: PlusStatement) -> Result<Taken, Stop> {
        let next = self.nesting.close(statement)?;
        Ok(self.follow(next))
    }

    /// Goes on behind a statement.
    fn follow(&mut self, next: Next) -> Taken {
        self.state = match next {
            Next::Statement => State::Statement,
            Next::Else => State::Closed,
            Next::Nothing => State::Done,
        };
        match next {
            Next::Nothing => Taken::Last,
            _ => Taken::More,
        }
    }

    /// Whether the PROCEDURE is at its end.
    pub(crate) fn is_done(&self) -> bool {
        matches!(self.state, State::Done)
    }

    /// How a text is refused that ends here.
    pub(crate) fn cut_off(&self) -> Refusal {
        match self.state {
            State::Value | State::Returned | State::InCondition(_) => Refusal::Expression,
            _ => Refusal::Operand,
        }
    }

    /// The PROCEDURE, at its end; its name is then known.
    pub(crate) fn end(&mut self, reader: &mut Expressions) -> Result<Procedure, Stop> {
        reader.procedures.insert(self.name.clone()?)?;
        let statement = self.nesting.pop()?;
        Ok(self.finished(statement))
    }

    /// The PROCEDURE that does this.
    fn finished(&mut self, statement: PlusStatement) -> Procedure {
        Procedure {
            name: mem::replace(&mut self.name, String::new(self.alloc)),
            arguments: mem::replace(&mut self.arguments, Vec::new(self.alloc)),
            statement,
        }
    }
}

/// What follows a word that begins a statement: BEGIN, IF, WHILE, RETURN or TEMPORARY.
fn state_after(word: &[u8]) -> Option<State> {
    if is_spelled(word, b"BEGIN") {
        Some(State::Statement)
    } else if is_spelled(word, b"IF") {
        Some(State::Condition(false))
    } else if is_spelled(word, b"WHILE") {
        Some(State::Condition(true))
    } else if is_spelled(word, b"RETURN") {
        Some(State::Return)
    } else if is_spelled(word, b"TEMPORARY") {
        Some(State::Temporary)
    } else {
        None
    }
}
