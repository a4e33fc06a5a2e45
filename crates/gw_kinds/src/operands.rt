//! What operands name, and where one may be a function's value.

ghost use Rattle.std.specs.Prelude.{◌≡◌};
ghost use Rattle.gw_rules.specs.Sources as evaluation;
ghost use Rattle.gw_rules.specs.Kinds as model;

use crate::calls::{is_procedure, procedure_named, takes_no_arguments};
use crate::checks::NumberedChecks;
use crate::entities::{entity_of, is_no_other_kind, is_there};
use crate::targets::{block_of, is_block};
use gw_object::{Block, Entity, EntityAttribute, Fault, Kind, Operand, Parts, Place};
use gw_rules::kinds_codes::{NO_BLOCK, NO_ENTITY, WRONG_KIND};
use gw_rules::{check, operand_of};

/// Whether an operand names no entity of another kind than what it needs, and calls no procedure that takes arguments.
fn names_well(parts: &Parts, operand: Operand) -> bool
    ensures { result ≡ model.names_well parts.now operand }
{
    let entities = parts.entities.as_slice();
    let procedures = parts.procedures.as_slice();
    let named = entity_of(&operand);
    let called = procedure_named(&operand);
    named.is_none_or(|named| is_no_other_kind(entities, named))
        && called.is_none_or(|called| takes_no_arguments(procedures, called))
}

/// Whether the entity that an operand names and the procedure that it calls are there.
fn names_what_is_there(parts: &Parts, operand: Operand) -> bool
    ensures { result ≡ model.names_what_is_there parts.now operand }
{
    let entities = parts.entities.as_slice();
    let procedures = parts.procedures.as_slice();
    let named = entity_of(&operand);
    let called = procedure_named(&operand);
    named.is_none_or(|named| is_there(entities, named))
        && called.is_none_or(|called| is_procedure(procedures, called))
}

/// Whether the block that an operand names is there.
fn names_a_block(parts: &Parts, operand: Operand) -> bool
    ensures { result ≡ model.names_a_block parts.now operand }
{
    let blocks = parts.blocks.as_slice();
    block_of(&operand).is_none_or(|named| is_block(blocks, named))
}

/// Whether an operand is a function's value.
fn is_function_value(operand: Operand) -> bool
    ensures { result ≡ evaluation.is_function_value operand }
{
    match operand {
        Operand::OfEntity(of) => matches!(of.attribute, EntityAttribute::FunctionValue),
        _ => false,
    }
}

/// Whether the argument of a function isn't a function's value itself.
fn has_plain_argument(kind: &Kind) -> bool
    ensures { result ≡ model.has_plain_argument kind.now }
{
    match kind {
        Kind::Function(function) => !is_function_value(function.argument),
        _ => true,
    }
}

/// Whether half the range of a time isn't a function's value: that would stand for a factor of the mean (GPSS World
/// Reference Manual, chapter 7).
pub(crate) fn has_plain_half(block: &Block) -> bool
    ensures { result ≡ model.has_plain_half block.now }
{
    match block {
        Block::Generate(generate) => !is_function_value(generate.interval.half),
        Block::Advance(time) => !is_function_value(time.half),
        _ => true,
    }
}

/// The checks of entities, by the operands that are evaluated for them.
pub(crate) struct Entities;

impl NumberedChecks<Entity> for Entities {
    ghost checks = { λ _. model.entity_checks };

    fn check_one(&self, parts: &Parts, number: u16, element: &Entity) -> Result<(), Fault> {
        let place = Place::Entity(number);
        let operand = operand_of(&element.kind);
        let is_right = operand.is_none_or(|operand| names_well(parts, operand));
        check(
            WRONG_KIND,
            place,
            is_right && has_plain_argument(&element.kind),
        )?;
        let are_there = operand.is_none_or(|operand| names_what_is_there(parts, operand));
        check(NO_ENTITY, place, are_there)?;
        let block_is_there = operand.is_none_or(|operand| names_a_block(parts, operand));
        check(NO_BLOCK, place, block_is_there)
    }
}
