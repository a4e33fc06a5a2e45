//! What is evaluated: for a block, for an entity and for an operand.

ghost use Rattle.std.specs.Prelude.{◌≡◌, [], ◌∷◌, option_to_list};
ghost use Rattle.gw_rules.specs.Sources as model;

use gw_object::{Block, Entity, EntityAttribute, Kind, Operand, Sna, Spread};
use std::marker::Model;

/// Operands, in order: at most two.
#[derive(Drop)]
pub struct Operands {
    operands: [Operand; 2],
    count: usize,
}

impl Model for Operands {
    ghost use Rattle.std.specs.Prelude.{◌≤◌, List, take};
    ghost use Rattle.gw_object.specs.declared.blocks.Operand.{Operand};

    ghost Value = { List Operand };

    ghost view = { λ v. take v.count v.operands };

    ghost invariant = { λ v. v.count ≤ 2 };
}

impl Operands {
    /// No operand.
    fn none() -> Operands
        ensures { result ≡ [] }
    {
        let operands = [Operand::Constant(0); 2];
        Operands { operands, count: 0 }
    }

    /// One operand.
    fn one(operand: Operand) -> Operands
        ensures { result ≡ operand ∷ [] }
    {
        let operands = [operand; 2];
        Operands { operands, count: 1 }
    }

    /// One operand, if there is one.
    fn of_option(operand: Option<Operand>) -> Operands
        ensures { result ≡ option_to_list operand }
    {
        match operand {
            Some(operand) => Operands::one(operand),
            None => Operands::none(),
        }
    }

    /// Two operands.
    fn two(first: Operand, second: Operand) -> Operands
        ensures { result ≡ first ∷ second ∷ [] }
    {
        let operands = [first, second];
        Operands { operands, count: 2 }
    }

    /// The mean of a time, and half its range.
    fn of_time(time: Spread) -> Operands
        ensures { result ≡ time.mean ∷ time.half ∷ [] }
    {
        Operands::two(time.mean, time.half)
    }

    /// The operands, in order.
    pub fn as_slice(&self) -> &[Operand]
        ensures { result.now ≡ self.now }
    {
        &self.operands[..self.count]
    }
}

/// The operand that is evaluated for an entity of this kind, if one is: the argument of a TABLE or a FUNCTION, a call of the
/// procedure of a VARIABLE or a BVARIABLE.
pub fn operand_of(kind: &Kind) -> Option<Operand>
    ensures { result ≡ model.operand_of kind.now }
{
    match kind {
        Kind::Table(table) => Some(table.argument),
        Kind::Variable(procedure) | Kind::BooleanVariable(procedure) => {
            Some(Operand::Procedure(*procedure))
        }
        Kind::Function(function) => Some(function.argument),
        _ => None,
    }
}

/// The operand that is evaluated for the entity of this number, from 0, if one is: the argument of a TABLE or a FUNCTION
/// (GPSS World Reference Manual, chapter 6), and for a VARIABLE or a BVARIABLE a call of the procedure that its
/// expression became (docs/plus-code.md).
pub fn operand_at(entities: &[Entity], number: u16) -> Option<Operand>
    ensures { result ≡ model.operand_at entities.now number }
{
    let entity = entities.get(number as usize)?;
    operand_of(&entity.kind)
}

/// The operands of a block that are evaluated, in order (GPSS World Reference Manual, chapter 7): the mean and half the
/// range of a GENERATE or an ADVANCE, what a TERMINATE, an ASSIGN or a SAVEVALUE takes, what a TEST compares, the new
/// priority of a PRIORITY, and what a PLUS evaluates.
pub fn values(block: &Block) -> Operands
    ensures { result ≡ model.values block.now }
{
    match block {
        Block::Generate(generate) => Operands::of_time(generate.interval),
        Block::Advance(time) => Operands::of_time(*time),
        Block::Terminate(by) => Operands::one(*by),
        Block::Assign(assign) => Operands::one(assign.value),
        Block::Test(test) => Operands::two(test.left, test.right),
        Block::Savevalue(save) => Operands::one(save.value),
        Block::Priority(priority) => Operands::one(priority.value),
        Block::Plus(plus) => Operands::one(plus.value),
        _ => Operands::none(),
    }
}

/// The operands that are evaluated when a transaction enters a block, in order: its `values`, and at a TABULATE the
/// argument of its table (GPSS World Reference Manual, chapter 7).
pub fn evaluation_operands(entities: &[Entity], block: &Block) -> Operands
    ensures { result ≡ model.evaluation_operands entities.now block.now }
{
    match block {
        Block::Tabulate(table) => Operands::of_option(operand_at(entities, *table)),
        _ => values(block),
    }
}

/// Of an attribute that is a function's value, this operand; of another one the other.
fn if_function(attribute: EntityAttribute, argument: Operand, other: Operand) -> Operand
    ensures { result ≡ model.if_function attribute argument other }
{
    match attribute {
        EntityAttribute::FunctionValue => argument,
        _ => other,
    }
}

/// Of an attribute that is a variable's value, this operand; of another one the other.
fn if_variable(attribute: EntityAttribute, call: Operand, other: Operand) -> Operand
    ensures { result ≡ model.if_variable attribute call other }
{
    match attribute {
        EntityAttribute::VariableValue | EntityAttribute::BooleanValue => call,
        _ => other,
    }
}

/// The operand that an operand's value is made of where it is an FN, the value of a function (GPSS World Reference
/// Manual, chapter 3): the function's argument. Any other operand is its own.
pub fn argument_in(entities: &[Entity], operand: Operand) -> Operand
    ensures { result ≡ model.argument_in entities.now operand }
{
    match operand {
        Operand::OfEntity(of) => {
            let argument = operand_at(entities, of.number).unwrap_or(operand);
            if_function(of.attribute, argument, operand)
        }
        _ => operand,
    }
}

/// The operand that an operand's value is made of where it is a V or a BV, the value of a variable: a call of the
/// variable's procedure. Any other operand is its own.
fn call_in(entities: &[Entity], operand: Operand) -> Operand
    ensures { result ≡ model.call_in entities.now operand }
{
    match operand {
        Operand::OfEntity(of) => {
            let call = operand_at(entities, of.number).unwrap_or(operand);
            if_variable(of.attribute, call, operand)
        }
        _ => operand,
    }
}

/// What is evaluated for an operand in the end: for an FN what is evaluated for the function's argument, for a V or a BV
/// the procedure of the variable (docs/plus-code.md), and for any other operand that one itself.
pub fn source_of(entities: &[Entity], operand: Operand) -> Operand
    ensures { result ≡ model.source_of entities.now operand }
{
    call_in(entities, argument_in(entities, operand))
}

/// An attribute that code reads, as an operand, so that V, BV and FN mean the same in code and at a block
/// (docs/plus-code.md).
pub fn as_operand(sna: Sna) -> Operand
    ensures { result ≡ model.as_operand sna }
{
    match sna {
        Sna::Parameter(number) => Operand::Parameter(number),
        Sna::Attribute(attribute) => Operand::Attribute(attribute),
        Sna::OfEntity(of) => Operand::OfEntity(of),
    }
}

/// Whether an operand is drawn: an RN (GPSS World Reference Manual, chapter 3).
pub fn is_drawn(operand: Operand) -> bool
    ensures { result ≡ model.is_drawn operand }
{
    matches!(operand, Operand::Random(_))
}
