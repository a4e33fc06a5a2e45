//! Expressions, by precedence: the operators that wait for their right operand stand on a stack, and so do the values that
//! are read (GPSS World Reference Manual, chapter 8).

ghost use Rattle.std.specs.Prelude.{◌≡◌, None};
ghost use Rattle.std.specs.BTreeSet.{IsEmpty};
ghost use Rattle.gw_text_expressions.specs.Reading.{KeepsNames};

use crate::model::{Expression, Sna};
use crate::snas::{Class, class_of, sna_by_name, sna_of};
use gw_num::{Binary, Unary};
use gw_text_tokens::faults::{Lowest, Refusal, Stop};
use gw_text_tokens::names::name_of;
use gw_text_tokens::tokens::Token;
use gw_text_tokens::words::is_library;
use std::alloc::{AllocError, Global};
use std::collections::BTreeSet;
use std::mem;

/// How deep an expression may nest.
const MOST_NESTED: usize = 1000;

/// An expression, and how deep it nests.
#[derive(Drop)]
struct Valued {
    expression: Expression,
    depth: usize,
}

/// What waits for what follows it.
#[derive(Clone, Copy)]
enum Pending {
    Parentheses,
    Call,
    Unary(Unary),
    Binary(Binary),
}

/// A call whose arguments are being read.
#[derive(Drop)]
struct Call {
    name: String,
    arguments: Vec<Expression>,
    depth: usize,
}

/// What may come next.
#[derive(Drop)]
enum State {
    /// An operand.
    Operand,
    /// The first argument of a call, or its end.
    Argument,
    /// An operator between operands, or the end of something.
    Operator,
    /// What follows a name.
    Named(String),
    /// The name behind the `$` of an attribute.
    Classed(Option<Class>),
}

/// What may stand in an expression.
#[derive(Clone, Copy, PartialEq, Eq)]
pub enum Kind {
    /// Anything.
    Full,
    /// Whole numbers and names alone, as in EQU.
    OfNumbers,
}

/// A reader of expressions, with the names that they may have.
#[derive(Drop)]
pub struct Expressions {
    /// The allocator.
    pub alloc: Global,
    /// The names of the PROCEDUREs above.
    pub procedures: BTreeSet<String>,
    /// The arguments and temporaries of the PROCEDURE that is being read.
    pub locals: BTreeSet<String>,
    kind: Kind,
    state: State,
    values: Vec<Valued>,
    pending: Vec<Pending>,
    calls: Vec<Call>,
    /// The lowest refusal of the expression so far.
    pub lowest: Lowest,
}

/// How tightly an operator binds.
fn binding(operator: Binary) -> u8 {
    match operator {
        Binary::Power => 7,
        Binary::Multiply | Binary::Divide | Binary::Remainder => 6,
        Binary::Add | Binary::Subtract => 5,
        Binary::Greater | Binary::GreaterOrEqual | Binary::Less | Binary::LessOrEqual => 4,
        Binary::Equal | Binary::NotEqual => 3,
        Binary::And => 2,
        Binary::Or => 1,
    }
}

/// Whether what waits takes its operand before this operator does: `^` goes from the right, the others from the left, and an
/// operator before its operand binds tighter than all but `^`.
fn goes_first(pending: Pending, operator: Binary) -> bool {
    match pending {
        Pending::Parentheses | Pending::Call => false,
        Pending::Unary(_) => operator != Binary::Power,
        Pending::Binary(left) => { operator != Binary::Power && binding(operator) <= binding(left) }
    }
}

/// The operator between operands that a token is.
fn operator_of(token: Token<'_>) -> Option<Binary> {
    match token {
        Token::Operator(operator) => Some(operator),
        Token::Plus => Some(Binary::Add),
        Token::Minus => Some(Binary::Subtract),
        Token::Equals => Some(Binary::Equal),
        _ => None,
    }
}

impl Expressions {
    /// A reader that knows no names.
    pub fn new(alloc: Global) -> Expressions
        ensures { IsEmpty result.procedures × IsEmpty result.locals × (result.lowest.found ≡ None) }
    {
        Expressions {
            alloc,
            procedures: BTreeSet::new(alloc),
            locals: BTreeSet::new(alloc),
            kind: Kind::Full,
            state: State::Operand,
            values: Vec::new(alloc),
            pending: Vec::new(alloc),
            calls: Vec::new(alloc),
            lowest: Lowest::NONE,
        }
    }

    /// Forgets the arguments and temporaries of the PROCEDURE before.
    pub fn begin_procedure(&mut self)
        ensures new { IsEmpty self.new.locals × (self.new.lowest.found ≡ None) }
        ensures procedures { self.new.procedures ≡ self.old.procedures }
    {
        self.locals.clear();
        self.begin(Kind::Full);
    }

    /// Begins an expression.
    pub fn begin(&mut self, kind: Kind)
        ensures names { KeepsNames self.old self.new }
        ensures new { self.new.lowest.found ≡ None }
    {
        self.kind = kind;
        self.state = State::Operand;
        self.values.clear();
        self.pending.clear();
        self.calls.clear();
        self.lowest = Lowest::NONE;
    }

    /// Whether what was read is an operand in parentheses that are closed.
    pub fn is_closed(&self) -> bool {
        self.pending.is_empty() && matches!(self.state, State::Operator)
    }

    /// Takes the next token.
    pub fn take(&mut self, token: Token<'_>) -> Result<(), Stop>
        ensures { KeepsNames self.old self.new }
    {
        match mem::replace(&mut self.state, State::Operand) {
            State::Operand => self.take_operand(token),
            State::Argument => self.take_argument(token),
            State::Operator => self.take_operator(token),
            State::Named(name) => self.take_after(name, token),
            State::Classed(class) => self.take_name(class, token),
        }
    }

    /// The expression, at its end.
    pub fn end(&mut self) -> Result<Expression, Stop>
        ensures { KeepsNames self.old self.new }
    {
        match mem::replace(&mut self.state, State::Operand) {
            State::Operator => {}
            State::Named(name) => self.take_value(name)?,
            _ => return Err(Stop::Refused(Refusal::Expression)),
        }
        self.apply_all()?;
        if !self.pending.is_empty() {
            return Err(Stop::Refused(Refusal::Expression));
        }
        Ok(self.pop()?.expression)
    }

    /// A token where an operand is wanted.
    fn take_operand(&mut self, token: Token<'_>) -> Result<(), Stop>
        ensures { KeepsNames self.old self.new }
    {
        match token {
            Token::Name(spelling) => self.take_spelling(spelling),
            Token::Whole(number) => self.take_whole(number),
            Token::Decimal(_) | Token::Text => {
                self.lowest.note(Refusal::LeftOut);
                self.push(Expression::Whole(0), 0)
            }
            Token::Star => {
                self.lowest.note(Refusal::LeftOut);
                Ok(())
            }
            Token::Open => self.wait(Pending::Parentheses, 0),
            Token::Minus => self.take_unary(Unary::Negate),
            Token::Not => self.take_unary(Unary::Not),
            _ => Err(Stop::Refused(Refusal::Expression)),
        }
    }

    /// A token behind the `(` of a call.
    fn take_argument(&mut self, token: Token<'_>) -> Result<(), Stop>
        ensures { KeepsNames self.old self.new }
    {
        match token {
            Token::Close => {
                self.pending.pop();
                self.end_call()
            }
            _ => self.take_operand(token),
        }
    }

    /// A token behind an operand.
    fn take_operator(&mut self, token: Token<'_>) -> Result<(), Stop>
        ensures { KeepsNames self.old self.new }
    {
        match token {
            Token::Slash => {
                self.lowest.note(Refusal::LeftOut);
                self.take_binary(Binary::Divide)
            }
            Token::Comma => self.take_comma(),
            Token::Close => self.take_close(),
            _ => match operator_of(token) {
                Some(operator) => self.take_binary(operator),
                None => Err(Stop::Refused(Refusal::Expression)),
            },
        }
    }

    /// A token behind a name.
    fn take_after(&mut self, name: String, token: Token<'_>) -> Result<(), Stop>
        ensures { KeepsNames self.old self.new }
    {
        match token {
            Token::Dollar => {
                self.state = State::Classed(class_of(name.as_bytes()));
                Ok(())
            }
            Token::Open => self.begin_call(name),
            Token::Star if class_of(name.as_bytes()).is_some() => {
                self.lowest.note(Refusal::LeftOut);
                Ok(())
            }
            _ => {
                self.take_value(name)?;
                self.state = State::Operand;
                self.take_operator(token)
            }
        }
    }

    /// A token behind the `$` of an attribute.
    fn take_name(&mut self, class: Option<Class>, token: Token<'_>) -> Result<(), Stop>
        ensures { KeepsNames self.old self.new }
    {
        let Token::Name(spelling) = token else {
            return Err(Stop::Refused(Refusal::Expression));
        };
        let name = self.name(spelling)?;
        self.take_sna(sna_by_name(class, name))
    }

    /// A name where an operand is wanted.
    fn take_spelling(&mut self, spelling: &[u8]) -> Result<(), Stop>
        ensures { KeepsNames self.old self.new }
    {
        let name = self.name(spelling)?;
        self.state = State::Named(name);
        Ok(())
    }

    /// A name as it is kept; one that is too long is noted.
    fn name(&mut self, spelling: &[u8]) -> Result<String, AllocError>
        ensures { KeepsNames self.old self.new }
    {
        let name = name_of(self.alloc, spelling);
        self.lowest.keep(name, String::new(self.alloc))
    }

    /// A whole number where an operand is wanted.
    fn take_whole(&mut self, number: u64) -> Result<(), Stop>
        ensures { KeepsNames self.old self.new }
    {
        match i64::try_from(number) {
            Ok(number) => self.push(Expression::Whole(number), 0),
            Err(_) => {
                self.lowest.note(Refusal::Limit);
                self.push(Expression::Whole(0), 0)
            }
        }
    }

    /// The operand that a name is.
    fn take_value(&mut self, name: String) -> Result<(), Stop>
        ensures { KeepsNames self.old self.new }
    {
        if self.locals.contains(name.as_str()) {
            return self.push(Expression::Name(name), 0);
        }
        match sna_of(self.alloc, name.as_bytes()) {
            Ok(None) => self.push(Expression::Name(name), 0),
            Ok(Some(sna)) => self.take_sna(Ok(sna)),
            Err(stop) => self.take_sna(Err(stop)),
        }
    }

    /// An attribute. No expression may have a random number, and an EQU none at all.
    fn take_sna(&mut self, sna: Result<Sna, Stop>) -> Result<(), Stop>
        ensures { KeepsNames self.old self.new }
    {
        let sna = self.lowest.keep(sna, Sna::Clock)?;
        if let Sna::Random(_) = sna {
            self.lowest.note(Refusal::LeftOut);
        }
        if self.kind == Kind::OfNumbers {
            self.lowest.note(Refusal::Operand);
        }
        self.push(Expression::Sna(sna), 0)
    }

    /// An operator before its operand, which can't stand right of `^`.
    fn take_unary(&mut self, operator: Unary) -> Result<(), Stop>
        ensures { KeepsNames self.old self.new }
    {
        match self.pending.last().copied() {
            Some(Pending::Binary(Binary::Power)) => Err(Stop::Refused(Refusal::Expression)),
            _ => self.wait(Pending::Unary(operator), 0),
        }
    }

    /// An operator between operands.
    fn take_binary(&mut self, operator: Binary) -> Result<(), Stop>
        ensures { KeepsNames self.old self.new }
    {
        self.apply_before(operator)?;
        let left = match self.values.last() {
            Some(value) => value.depth,
            None => 0,
        };
        self.wait(Pending::Binary(operator), left)
    }

    /// A comma, which may only stand between the arguments of a call.
    fn take_comma(&mut self) -> Result<(), Stop>
        ensures { KeepsNames self.old self.new }
    {
        self.apply_all()?;
        match self.pending.last().copied() {
            Some(Pending::Call) => self.end_argument()?,
            _ => return Err(Stop::Refused(Refusal::Expression)),
        }
        self.state = State::Operand;
        Ok(())
    }

    /// A closing parenthesis.
    fn take_close(&mut self) -> Result<(), Stop>
        ensures { KeepsNames self.old self.new }
    {
        self.apply_all()?;
        match self.pending.pop() {
            Some(Pending::Parentheses) => {
                let inner = self.pop()?;
                let depth = inner.depth.saturating_add(1);
                let inner = Box::new(self.alloc, inner.expression)?;
                self.push(Expression::Parentheses(inner), depth)
            }
            Some(Pending::Call) => {
                self.end_argument()?;
                self.end_call()
            }
            _ => Err(Stop::Refused(Refusal::Expression)),
        }
    }

    /// Begins a call.
    fn begin_call(&mut self, name: String) -> Result<(), Stop>
        ensures { KeepsNames self.old self.new }
    {
        if is_library(name.as_bytes()) && !self.procedures.contains(name.as_str()) {
            self.lowest.note(Refusal::LeftOut);
        }
        if self.kind == Kind::OfNumbers {
            self.lowest.note(Refusal::Operand);
        }
        let arguments = Vec::new(self.alloc);
        self.calls.push(Call {
            name,
            arguments,
            depth: 0,
        })?;
        self.wait(Pending::Call, 0)?;
        self.state = State::Argument;
        Ok(())
    }

    /// The value read last is an argument of the call read last.
    fn end_argument(&mut self) -> Result<(), Stop>
        ensures { KeepsNames self.old self.new }
    {
        let value = self.pop()?;
        let Some(mut call) = self.calls.pop() else {
            return Err(Stop::Refused(Refusal::Expression));
        };
        call.depth = call.depth.max(value.depth);
        call.arguments.push(value.expression)?;
        self.calls.push(call)?;
        Ok(())
    }

    /// Ends the call read last.
    fn end_call(&mut self) -> Result<(), Stop>
        ensures { KeepsNames self.old self.new }
    {
        let Some(call) = self.calls.pop() else {
            return Err(Stop::Refused(Refusal::Expression));
        };
        let depth = call.depth.saturating_add(1);
        self.push(Expression::Call(call.name, call.arguments), depth)
    }

    /// Lets something wait for what follows, whose left operand nests this deep.
    fn wait(&mut self, pending: Pending, left: usize) -> Result<(), Stop>
        ensures { KeepsNames self.old self.new }
    {
        self.pending.push(pending)?;
        if self.pending.len().saturating_add(left) > MOST_NESTED {
            self.lowest.note(Refusal::Limit);
        }
        self.state = State::Operand;
        Ok(())
    }

    /// Applies the operators that go before this one.
    fn apply_before(&mut self, operator: Binary) -> Result<(), Stop>
        ensures { KeepsNames self.old self.new }
    {
        for _operator in 0..self.pending.len() {
            match self.pending.last().copied() {
                Some(pending) if goes_first(pending, operator) => self.apply()?,
                _ => return Ok(()),
            }
        }
        Ok(())
    }

    /// Applies the operators up to the last parenthesis that is open.
    fn apply_all(&mut self) -> Result<(), Stop>
        ensures { KeepsNames self.old self.new }
    {
        self.apply_before(Binary::Or)
    }

    /// Applies the operator that waits last.
    fn apply(&mut self) -> Result<(), Stop>
        ensures { KeepsNames self.old self.new }
    {
        match self.pending.pop() {
            Some(Pending::Unary(operator)) => {
                let operand = self.pop()?;
                let depth = operand.depth.saturating_add(1);
                let operand = Box::new(self.alloc, operand.expression)?;
                self.push(Expression::Unary(operator, operand), depth)
            }
            Some(Pending::Binary(operator)) => self.apply_binary(operator),
            _ => Err(Stop::Refused(Refusal::Expression)),
        }
    }

    /// Applies an operator to the two values read last.
    fn apply_binary(&mut self, operator: Binary) -> Result<(), Stop>
        ensures { KeepsNames self.old self.new }
    {
        let right = self.pop()?;
        let left = self.pop()?;
        let depth = left.depth.max(right.depth).saturating_add(1);
        let left = Box::new(self.alloc, left.expression)?;
        let right = Box::new(self.alloc, right.expression)?;
        self.push(Expression::Binary(operator, left, right), depth)
    }

    /// The value read last.
    fn pop(&mut self) -> Result<Valued, Stop>
        ensures { KeepsNames self.old self.new }
    {
        match self.values.pop() {
            Some(value) => Ok(value),
            None => Err(Stop::Refused(Refusal::Expression)),
        }
    }

    /// Keeps a value that was read, unless it nests too deep.
    fn push(&mut self, expression: Expression, depth: usize) -> Result<(), Stop>
        ensures { KeepsNames self.old self.new }
    {
        let value = if depth <= MOST_NESTED {
            Valued { expression, depth }
        } else {
            self.lowest.note(Refusal::Limit);
            Valued {
                expression: Expression::Whole(0),
                depth: 0,
            }
        };
        self.values.push(value)?;
        self.state = State::Operator;
        Ok(())
    }
}

/// The expression that these tokens are; the lowest of 72, 73, 75 and 76 where they are none.
pub fn expression_of(
    reader: &mut Expressions,
    kind: Kind,
    tokens: &[Token<'_>],
) -> Result<Expression, Stop>
    ensures { KeepsNames reader.old reader.new }
{
    reader.begin(kind);
    match take_all(reader, tokens) {
        Ok(expression) => {
            reader.lowest.check()?;
            Ok(expression)
        }
        Err(Stop::Refused(refusal)) => Err(Stop::Refused(reader.lowest.lower(refusal))),
        Err(Stop::Memory) => Err(Stop::Memory),
    }
}

/// The expression that these tokens are, but for what was noted.
fn take_all(reader: &mut Expressions, tokens: &[Token<'_>]) -> Result<Expression, Stop>
    ensures { KeepsNames reader.old reader.new }
{
    for token in tokens {
        reader.take(*token)?;
    }
    reader.end()
}
