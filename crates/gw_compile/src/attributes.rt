//! The attributes of a model text, in numbers.

ghost use Rattle.std.specs.Prelude.{◌≡◌};
ghost use Rattle.gw_compile.specs.Attributes as model;

use crate::numbering::Numbering;
use gw_object::{Attribute, EntityAttribute, Numbered, Sna};
use gw_rules::EntityKind;
use gw_text_expressions::{BlockName, BlockValue, EntityValue, Parameter, Sna as TextSna};

/// What is asked of an entity.
#[derive(Clone, Copy)]
pub struct Question {
    /// The kind of the entity.
    pub kind: EntityKind,
    /// The attribute of it.
    pub attribute: EntityAttribute,
}

/// A question for this attribute of an entity of this kind.
fn question_about(kind: EntityKind, attribute: EntityAttribute) -> Question
    ensures { result ≡ model.question_about kind attribute }
{
    Question { kind, attribute }
}

/// What is asked of an entity, by the letters of the attribute.
pub fn question_of(value: EntityValue) -> Question
    ensures { result ≡ model.question_of value }
{
    match value {
        EntityValue::Facility => question_about(
            EntityKind::Facility,
            EntityAttribute::FacilityOwned,
        ),
        EntityValue::StorageContent => {
            question_about(EntityKind::Storage, EntityAttribute::StorageContent)
        }
        EntityValue::StorageRoom => {
            question_about(EntityKind::Storage, EntityAttribute::StorageRemaining)
        }
        EntityValue::Queue => question_about(EntityKind::Queue, EntityAttribute::QueueContent),
        EntityValue::Savevalue => question_about(
            EntityKind::Savevalue,
            EntityAttribute::SavevalueValue,
        ),
        EntityValue::Switch => question_about(EntityKind::Switch, EntityAttribute::SwitchSetting),
        EntityValue::Chain => question_about(EntityKind::Chain, EntityAttribute::ChainMembers),
        EntityValue::Variable => question_about(
            EntityKind::Variable,
            EntityAttribute::VariableValue,
        ),
        EntityValue::BVariable => {
            question_about(EntityKind::BooleanVariable, EntityAttribute::BooleanValue)
        }
        EntityValue::Function => question_about(
            EntityKind::Function,
            EntityAttribute::FunctionValue,
        ),
    }
}

/// The attribute that is asked of a block.
fn block_attribute_for(value: BlockValue) -> EntityAttribute
    ensures { result ≡ model.block_attribute_for value }
{
    match value {
        BlockValue::Entries => EntityAttribute::BlockEntries,
        BlockValue::Waiting => EntityAttribute::BlockCount,
    }
}

/// The number of a block.
fn block_number<N: Numbering>(names: &N, block: &BlockName) -> Option<u16>
    ensures { result ≡ model.block_number (N.numbers names.now) block.now }
{
    match block {
        BlockName::Number(number) => Some(*number),
        BlockName::Label(label) => names.block(label),
    }
}

/// The number of a parameter.
fn parameter_number<N: Numbering>(names: &N, parameter: &Parameter) -> Option<u8>
    ensures { result ≡ model.parameter_number (N.numbers names.now) parameter.now }
{
    match parameter {
        Parameter::Number(number) => Some(*number),
        Parameter::Name(name) => names.parameter(name),
    }
}

/// An attribute of the entity or the block of a number, if it is known.
fn sna_if_known(attribute: EntityAttribute, number: Option<u16>) -> Option<Sna>
    ensures { result ≡ model.sna_if_known attribute number }
{
    match number {
        Some(number) => Some(Sna::OfEntity(Numbered { attribute, number })),
        None => None,
    }
}

/// A parameter, if it is known.
fn parameter_if_known(number: Option<u8>) -> Option<Sna>
    ensures { result ≡ model.parameter_if_known number }
{
    match number {
        Some(number) => Some(Sna::Parameter(number)),
        None => None,
    }
}

/// An attribute in numbers, if what it is of is known; a random number is none that code reads (docs/plus-code.md).
pub fn attribute_in<N: Numbering>(names: &N, sna: &TextSna) -> Option<Sna>
    ensures { result ≡ model.attribute_in (N.numbers names.now) sna.now }
{
    match sna {
        TextSna::Clock => Some(Sna::Attribute(Attribute::Clock)),
        TextSna::AbsoluteClock => Some(Sna::Attribute(Attribute::AbsoluteClock)),
        TextSna::Priority => Some(Sna::Attribute(Attribute::Priority)),
        TextSna::TransitTime => Some(Sna::Attribute(Attribute::TransitTime)),
        TextSna::TransactionNumber => Some(Sna::Attribute(Attribute::TransactionNumber)),
        TextSna::TerminationCount => Some(Sna::Attribute(Attribute::TerminationCount)),
        TextSna::Parameter(of) => parameter_if_known(parameter_number(names, of)),
        TextSna::Random(_) => None,
        TextSna::OfEntity(value, name) => {
            let question = question_of(*value);
            sna_if_known(question.attribute, names.entity(question.kind, name))
        }
        TextSna::OfBlock(value, block) => {
            sna_if_known(block_attribute_for(*value), block_number(names, block))
        }
    }
}
