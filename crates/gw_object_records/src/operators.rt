//! Operators of TEST, GATE and LOGIC, and the signs behind what is changed.

ghost use Rattle.std.specs.Prelude.{◌≡◌};
ghost use Rattle.gw_object_records.specs.Operands.{mode_in};
ghost use Rattle.gw_object_records.specs.Records as model;

use gw_object::{Comparison, Condition, Mode, SwitchAction};
use gw_rules::EntityKind;
use gw_text::{Gate, Modifier, Switching, Test};

/// How the two values of a TEST are compared.
pub(crate) fn comparison_of(test: Test) -> Comparison
    ensures { result ≡ model.comparison_of test }
{
    match test {
        Test::Equal => Comparison::Equal,
        Test::NotEqual => Comparison::NotEqual,
        Test::Greater => Comparison::Greater,
        Test::GreaterOrEqual => Comparison::GreaterOrEqual,
        Test::Less => Comparison::Less,
        Test::LessOrEqual => Comparison::LessOrEqual,
    }
}

/// What a GATE asks.
pub(crate) fn condition_of(gate: Gate) -> Condition
    ensures { result ≡ model.condition_of gate }
{
    match gate {
        Gate::Set => Condition::SwitchSet,
        Gate::Reset => Condition::SwitchReset,
        Gate::InUse => Condition::FacilityInUse,
        Gate::NotInUse => Condition::FacilityNotInUse,
        Gate::Full => Condition::StorageFull,
        Gate::Empty => Condition::StorageEmpty,
        Gate::NotFull => Condition::StorageNotFull,
        Gate::NotEmpty => Condition::StorageNotEmpty,
    }
}

/// Of what a GATE asks it.
pub(crate) fn asked_of(gate: Gate) -> EntityKind
    ensures { result ≡ model.asked_of gate }
{
    match gate {
        Gate::Set | Gate::Reset => EntityKind::Switch,
        Gate::InUse | Gate::NotInUse => EntityKind::Facility,
        Gate::Full | Gate::Empty | Gate::NotFull | Gate::NotEmpty => EntityKind::Storage,
    }
}

/// What a LOGIC block does.
pub(crate) fn action_of(switching: Switching) -> SwitchAction
    ensures { result ≡ model.action_of switching }
{
    match switching {
        Switching::Set => SwitchAction::Set,
        Switching::Reset => SwitchAction::Reset,
        Switching::Invert => SwitchAction::Invert,
    }
}

/// How ASSIGN and SAVEVALUE change a value, by the sign behind it.
pub(crate) fn mode_of(modifier: Option<Modifier>) -> Mode
    ensures { result ≡ mode_in modifier }
{
    match modifier {
        Some(Modifier::Plus) => Mode::Add,
        Some(Modifier::Minus) => Mode::Subtract,
        Some(Modifier::Test(_) | Modifier::Gate(_) | Modifier::Logic(_)) | None => Mode::Set,
    }
}
