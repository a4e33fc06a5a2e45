//! What the operands of a statement become.

ghost use Rattle.std.specs.Prelude.{◌≡◌, pos};
ghost use Rattle.gw_object_records.specs.Operands as model;

use gw_compile::{Equ, Numbering, attribute_in};
use gw_object::{LinkOrder, Operand};
use gw_rules::{EntityKind, as_operand};
use gw_text::{Operand as Text, Sna};

/// The value that an EQU is.
fn equ_value(equ: Equ) -> Operand
    ensures { result ≡ model.equ_value equ }
{
    match equ {
        Equ::Number(number) => Operand::Constant(number),
        Equ::Procedure(procedure) => Operand::Procedure(procedure),
    }
}

/// An attribute as a value, if what it is of is known; a random number is one too.
fn attribute_value<N: Numbering>(names: &N, sna: &Sna) -> Option<Operand>
    ensures { result ≡ model.attribute_value (N.numbers names.now) sna.now }
{
    match sna {
        Sna::Random(stream) => Some(Operand::Random(*stream)),
        _ => match attribute_in(names, sna) {
            Some(sna) => Some(as_operand(sna)),
            None => None,
        },
    }
}

/// A value, by the number of the procedure that the operand becomes, if it is an expression; a missing one is 0.
pub(crate) fn value_of<N: Numbering>(
    names: &N,
    compiled: Option<u16>,
    operand: &Text,
) -> Option<Operand>
    ensures { result ≡ model.value_in (N.numbers names.now) compiled operand.now }
{
    match operand {
        Text::Missing => Some(Operand::Constant(0)),
        Text::Whole(number) => Some(Operand::Constant(*number)),
        Text::Name(name) => names.equ(name).map(equ_value),
        Text::Sna(sna) => attribute_value(names, sna),
        Text::Expression(_) => compiled.map(Operand::Procedure),
        Text::Fraction(_) | Text::Both => None,
    }
}

/// The procedure that the operand at a position becomes, if it is an expression.
pub(crate) fn procedure_at(procedures: &[Option<u16>], position: usize) -> Option<u16>
    ensures { result ≡ model.procedure_at procedures.now position }
{
    match procedures.get(position) {
        Some(procedure) => *procedure,
        None => None,
    }
}

/// The entity of a kind, if it is known.
pub(crate) fn entity_of<N: Numbering>(names: &N, kind: EntityKind, operand: &Text) -> Option<u16>
    ensures { result ≡ model.entity_in (N.numbers names.now) kind operand.now }
{
    match operand {
        Text::Name(name) => names.entity(kind, name),
        _ => None,
    }
}

/// The block of a label, if it is known.
pub(crate) fn block_of<N: Numbering>(names: &N, operand: &Text) -> Option<u16>
    ensures { result ≡ model.block_in (N.numbers names.now) operand.now }
{
    match operand {
        Text::Name(label) => names.block(label),
        _ => None,
    }
}

/// The block of a label, if it is known, or none where it is missing.
pub(crate) fn optional_block_of<N: Numbering>(names: &N, operand: &Text) -> Option<Option<u16>>
    ensures { result ≡ model.optional_block_in (N.numbers names.now) operand.now }
{
    match operand {
        Text::Missing => Some(None),
        Text::Name(label) => names.block(label).map(Some),
        _ => None,
    }
}

/// A whole number; a missing one is this.
fn whole_of(missing: i64, operand: &Text) -> Option<i64>
    ensures { result ≡ model.whole_in missing operand.now }
{
    match operand {
        Text::Missing => Some(missing),
        Text::Whole(number) => Some(*number),
        _ => None,
    }
}

/// A whole number; a missing one is 0.
pub(crate) fn limit_of(operand: &Text) -> Option<i64>
    ensures { result ≡ model.whole_in (pos 0) operand.now }
{
    whole_of(0, operand)
}

/// A whole number that is written, in 32 bits.
pub(crate) fn number_of(operand: &Text) -> Option<u32>
    ensures { result ≡ model.number_in 4294967295 operand.now }
{
    match operand {
        Text::Whole(number) => u32::try_from(*number).ok(),
        _ => None,
    }
}

/// The same in 16 bits.
pub(crate) fn short_number_of(operand: &Text) -> Option<u16>
    ensures { result ≡ model.number_in 65535 operand.now }
{
    match operand {
        Text::Whole(number) => u16::try_from(*number).ok(),
        _ => None,
    }
}

/// A priority; a missing one is 0.
pub(crate) fn priority_of(operand: &Text) -> Option<i32>
    ensures { result ≡ model.priority_in operand.now }
{
    i32::try_from(whole_of(0, operand)?).ok()
}

/// How many units; a missing number is 1.
pub(crate) fn units_of(operand: &Text) -> Option<u32>
    ensures { result ≡ model.count_in 4294967295 1 operand.now }
{
    u32::try_from(whole_of(1, operand)?).ok()
}

/// How many copies or partners; a missing number is 0.
pub(crate) fn partners_of(operand: &Text) -> Option<u16>
    ensures { result ≡ model.count_in 65535 0 operand.now }
{
    u16::try_from(whole_of(0, operand)?).ok()
}

/// A whole number, or none where it is missing.
pub(crate) fn optional_whole_of(operand: &Text) -> Option<Option<i64>>
    ensures { result ≡ model.optional_whole_in operand.now }
{
    match operand {
        Text::Missing => Some(None),
        Text::Whole(number) => Some(Some(*number)),
        _ => None,
    }
}

/// How many there are of something, or none where it is missing.
pub(crate) fn optional_count_of(operand: &Text) -> Option<Option<u32>>
    ensures { result ≡ model.optional_count_in operand.now }
{
    match operand {
        Text::Missing => Some(None),
        Text::Whole(number) => u32::try_from(*number).ok().map(Some),
        _ => None,
    }
}

/// A parameter, by its number or by its name.
pub(crate) fn parameter_of<N: Numbering>(names: &N, operand: &Text) -> Option<u8>
    ensures { result ≡ model.parameter_in (N.numbers names.now) operand.now }
{
    match operand {
        Text::Name(name) => names.parameter(name),
        Text::Whole(number) => u8::try_from(*number).ok(),
        _ => None,
    }
}

/// A parameter, or none where it is missing.
pub(crate) fn optional_parameter_of<N: Numbering>(names: &N, operand: &Text) -> Option<Option<u8>>
    ensures { result ≡ model.optional_parameter_in (N.numbers names.now) operand.now }
{
    match operand {
        Text::Missing => Some(None),
        Text::Name(name) => names.parameter(name).map(Some),
        Text::Whole(number) => u8::try_from(*number).ok().map(Some),
        _ => None,
    }
}

/// At which end of a user chain a LINK joins: LIFO, or FIFO where that is written or nothing is.
pub(crate) fn order_of(operand: &Text) -> LinkOrder
    ensures { result ≡ model.order_in operand.now }
{
    match operand {
        Text::Name(name) if name.as_str() == "LIFO" => LinkOrder::Lifo,
        _ => LinkOrder::Fifo,
    }
}

/// Whether something is written.
pub(crate) fn is_written(operand: &Text) -> bool
    ensures { result ≡ model.is_written operand.now }
{
    match operand {
        Text::Missing => false,
        _ => true,
    }
}
