//! What operands choose from: the values for each of which a byte stands, in the order of their bytes.

ghost use Rattle.std.specs.Prelude.{◌≡◌};
ghost use Rattle.gw_object.specs.BlockGrammar.{action_byte, actions, attribute_byte, attributes, comparison_byte, comparisons, condition_byte, conditions, entity_attribute_byte, entity_attributes, mode_byte, modes, order_byte, orders};

use crate::BlockFormat;
use gw_field_bytes::OneByte;
use gw_object::{Attribute, Comparison, Condition, EntityAttribute, LinkOrder, Mode, SwitchAction};

impl OneByte<BlockFormat> for Attribute {
    ghost byte_of = { attribute_byte };

    ghost values = { attributes };

    fn all() -> &'static [Attribute] {
        &[
            Attribute::Clock,
            Attribute::AbsoluteClock,
            Attribute::Priority,
            Attribute::TransitTime,
            Attribute::TransactionNumber,
            Attribute::TerminationCount,
        ]
    }

    fn byte(self) -> u8 {
        self as u8
    }
}

impl OneByte<BlockFormat> for EntityAttribute {
    ghost byte_of = { entity_attribute_byte };

    ghost values = { entity_attributes };

    fn all() -> &'static [EntityAttribute] {
        &[
            EntityAttribute::FacilityOwned,
            EntityAttribute::StorageContent,
            EntityAttribute::StorageRemaining,
            EntityAttribute::QueueContent,
            EntityAttribute::SavevalueValue,
            EntityAttribute::SwitchSetting,
            EntityAttribute::ChainMembers,
            EntityAttribute::VariableValue,
            EntityAttribute::BooleanValue,
            EntityAttribute::FunctionValue,
            EntityAttribute::BlockEntries,
            EntityAttribute::BlockCount,
        ]
    }

    fn byte(self) -> u8 {
        self as u8
    }
}

impl OneByte<BlockFormat> for Mode {
    ghost byte_of = { mode_byte };

    ghost values = { modes };

    fn all() -> &'static [Mode] {
        &[Mode::Set, Mode::Add, Mode::Subtract]
    }

    fn byte(self) -> u8 {
        self as u8
    }
}

impl OneByte<BlockFormat> for Comparison {
    ghost byte_of = { comparison_byte };

    ghost values = { comparisons };

    fn all() -> &'static [Comparison] {
        &[
            Comparison::Equal,
            Comparison::NotEqual,
            Comparison::Greater,
            Comparison::GreaterOrEqual,
            Comparison::Less,
            Comparison::LessOrEqual,
        ]
    }

    fn byte(self) -> u8 {
        self as u8
    }
}

impl OneByte<BlockFormat> for Condition {
    ghost byte_of = { condition_byte };

    ghost values = { conditions };

    fn all() -> &'static [Condition] {
        &[
            Condition::SwitchSet,
            Condition::SwitchReset,
            Condition::FacilityInUse,
            Condition::FacilityNotInUse,
            Condition::StorageFull,
            Condition::StorageEmpty,
            Condition::StorageNotFull,
            Condition::StorageNotEmpty,
        ]
    }

    fn byte(self) -> u8 {
        self as u8
    }
}

impl OneByte<BlockFormat> for SwitchAction {
    ghost byte_of = { action_byte };

    ghost values = { actions };

    fn all() -> &'static [SwitchAction] {
        &[SwitchAction::Set, SwitchAction::Reset, SwitchAction::Invert]
    }

    fn byte(self) -> u8 {
        self as u8
    }
}

impl OneByte<BlockFormat> for LinkOrder {
    ghost byte_of = { order_byte };

    ghost values = { orders };

    fn all() -> &'static [LinkOrder] {
        &[LinkOrder::Fifo, LinkOrder::Lifo]
    }

    fn byte(self) -> u8 {
        self as u8
    }
}
