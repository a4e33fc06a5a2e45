//! Operands, as a text has them, but that blocks and procedures have numbers.

use gw_object::{
    Attribute, Entity, EntityAttribute, Memory, Mode, Numbered, Operand, Spread, Units,
};
use gw_writing::{put, put_number};

/// The name of an entity, by its number from 0.
pub(crate) fn put_name(out: &mut Vec<u8>, entities: &[Entity], number: u16) -> Result<(), Memory> {
    match entities.get(number as usize) {
        Some(entity) => out.extend_from_slice(entity.name.as_slice()),
        None => put_number(out, "entity ", number),
    }
}

/// The word of an attribute.
fn attribute_word(attribute: Attribute) -> &'static str {
    match attribute {
        Attribute::Clock => "C1",
        Attribute::AbsoluteClock => "AC1",
        Attribute::Priority => "PR",
        Attribute::TransitTime => "M1",
        Attribute::TransactionNumber => "XN1",
        Attribute::TerminationCount => "TG1",
    }
}

/// The word of an attribute of an entity or a block, with the sign behind it.
fn entity_word(attribute: EntityAttribute) -> &'static str {
    match attribute {
        EntityAttribute::FacilityOwned => "F$",
        EntityAttribute::StorageContent => "S$",
        EntityAttribute::StorageRemaining => "R$",
        EntityAttribute::QueueContent => "Q$",
        EntityAttribute::SavevalueValue => "X$",
        EntityAttribute::SwitchSetting => "LS$",
        EntityAttribute::ChainMembers => "CH$",
        EntityAttribute::VariableValue => "V$",
        EntityAttribute::BooleanValue => "BV$",
        EntityAttribute::FunctionValue => "FN$",
        EntityAttribute::BlockEntries => "N",
        EntityAttribute::BlockCount => "W",
    }
}

/// An attribute of the clock, the termination count or the transaction.
pub(crate) fn put_attribute(out: &mut Vec<u8>, attribute: Attribute) -> Result<(), Memory> {
    put(out, attribute_word(attribute))
}

/// An attribute of an entity, by its name, or of a block, by its number.
pub(crate) fn put_numbered(
    out: &mut Vec<u8>,
    entities: &[Entity],
    numbered: Numbered,
) -> Result<(), Memory> {
    put(out, entity_word(numbered.attribute))?;
    match numbered.attribute {
        EntityAttribute::BlockEntries | EntityAttribute::BlockCount => put_number(
            out,
            "",
            numbered.number,
        ),
        _ => put_name(out, entities, numbered.number),
    }
}

/// An operand. A procedure is given by its number.
pub(crate) fn put_operand(
    out: &mut Vec<u8>,
    entities: &[Entity],
    operand: Operand,
) -> Result<(), Memory> {
    match operand {
        Operand::Constant(number) => put_number(out, "", number),
        Operand::Parameter(number) => put_number(out, "P", number),
        Operand::Attribute(attribute) => put_attribute(out, attribute),
        Operand::OfEntity(numbered) => put_numbered(out, entities, numbered),
        Operand::Random(stream) => put_number(out, "RN", stream),
        Operand::Procedure(number) => put_number(out, "procedure ", number),
    }
}

/// A mean, and half the range.
pub(crate) fn put_spread(
    out: &mut Vec<u8>,
    entities: &[Entity],
    spread: Spread,
) -> Result<(), Memory> {
    put_operand(out, entities, spread.mean)?;
    put(out, ",")?;
    put_operand(out, entities, spread.half)
}

/// The units of an entity.
pub(crate) fn put_units(
    out: &mut Vec<u8>,
    entities: &[Entity],
    units: Units,
) -> Result<(), Memory> {
    put_name(out, entities, units.entity)?;
    put_number(out, ",", units.number)
}

/// The sign of a mode.
pub(crate) fn mode_sign(mode: Mode) -> &'static str {
    match mode {
        Mode::Set => "",
        Mode::Add => "+",
        Mode::Subtract => "-",
    }
}
