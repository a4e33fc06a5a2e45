//! What the operands of statements stand for.

ghost use Rattle.std.specs.Prelude.{◌≡◌};
ghost use Rattle.gw_name_uses.specs.Roles as model;

use gw_rules::EntityKind;
use gw_text::{Gate, Modifier, Operand, Word};

/// What an operand stands for.
#[derive(Clone, Copy)]
pub(crate) enum Role {
    /// Nothing that has a name.
    Plain,
    /// A value.
    Value,
    /// An entity of a kind.
    Entity(EntityKind),
    /// A block, by its label.
    Label,
    /// A parameter.
    Parameter,
}

/// The kind of the entity that a GATE asks.
fn asked_kind(gate: Gate) -> EntityKind
    ensures { result ≡ model.asked_kind gate }
{
    match gate {
        Gate::Set | Gate::Reset => EntityKind::Switch,
        Gate::InUse | Gate::NotInUse => EntityKind::Facility,
        Gate::Full | Gate::Empty | Gate::NotFull | Gate::NotEmpty => EntityKind::Storage,
    }
}

/// What the operand of a statement of one operand stands for.
pub(crate) fn role_of_one(word: Word) -> Role
    ensures { result ≡ model.role_of_one word }
{
    match word {
        Word::Seize | Word::Release => Role::Entity(EntityKind::Facility),
        Word::Tabulate => Role::Entity(EntityKind::Table),
        Word::Logic => Role::Entity(EntityKind::Switch),
        Word::Mark => Role::Parameter,
        Word::Terminate | Word::Function | Word::Variable | Word::BVariable | Word::Equ => {
            Role::Value
        }
        _ => Role::Plain,
    }
}

/// What the two operands of a GATE stand for.
fn roles_of_gate(modifier: Option<Modifier>) -> (Role, Role)
    ensures { result ≡ model.roles_of_gate modifier }
{
    match modifier {
        Some(Modifier::Gate(gate)) => (Role::Entity(asked_kind(gate)), Role::Label),
        _ => (Role::Plain, Role::Plain),
    }
}

/// What the second operand of a TRANSFER with two operands stands for: a block, or back from a subroutine a parameter.
fn role_behind_form(form: &Operand) -> Role
    ensures { result ≡ model.role_behind_form form.now }
{
    match form {
        Operand::Missing => Role::Label,
        Operand::Name(_) => Role::Parameter,
        _ => Role::Plain,
    }
}

/// What the operands of a statement of two operands stand for, of which this is the first.
pub(crate) fn roles_of_two(word: Word, modifier: Option<Modifier>, first: &Operand) -> (Role, Role)
    ensures { result ≡ model.roles_of_two word modifier first.now }
{
    match word {
        Word::Advance => (Role::Value, Role::Value),
        Word::Enter | Word::Leave => (Role::Entity(EntityKind::Storage), Role::Plain),
        Word::Queue | Word::Depart => (Role::Entity(EntityKind::Queue), Role::Plain),
        Word::Assign => (Role::Parameter, Role::Value),
        Word::Savevalue => (Role::Entity(EntityKind::Savevalue), Role::Value),
        Word::Gate => roles_of_gate(modifier),
        Word::Transfer => (Role::Plain, role_behind_form(first)),
        Word::Loop => (Role::Parameter, Role::Label),
        Word::Split => (Role::Plain, Role::Label),
        Word::Link => (Role::Entity(EntityKind::Chain), Role::Plain),
        Word::Priority | Word::Initial => (Role::Value, Role::Plain),
        Word::Plus => (Role::Value, Role::Parameter),
        _ => (Role::Plain, Role::Plain),
    }
}

/// What the two operands behind the form of a TRANSFER stand for: two blocks, or a subroutine and the parameter by which it
/// returns.
fn roles_behind_form(form: &Operand) -> (Role, Role)
    ensures { result ≡ model.roles_behind_form form.now }
{
    match form {
        Operand::Fraction(_) | Operand::Both => (Role::Label, Role::Label),
        Operand::Name(_) => (Role::Label, Role::Parameter),
        _ => (Role::Plain, Role::Plain),
    }
}

/// What the first operand of a statement of three operands stands for.
pub(crate) fn first_role_of_three(word: Word) -> Role
    ensures { result ≡ model.first_role_of_three word }
{
    match word {
        Word::Test => Role::Value,
        Word::Unlink => Role::Entity(EntityKind::Chain),
        _ => Role::Plain,
    }
}

/// What the two operands behind it stand for.
pub(crate) fn last_roles_of_three(word: Word, first: &Operand) -> (Role, Role)
    ensures { result ≡ model.last_roles_of_three word first.now }
{
    match word {
        Word::Test => (Role::Value, Role::Label),
        Word::Transfer => roles_behind_form(first),
        Word::Unlink => (Role::Label, Role::Plain),
        _ => (Role::Plain, Role::Plain),
    }
}

/// What the first operand of a statement of four operands stands for.
pub(crate) fn first_role_of_four(word: Word) -> Role
    ensures { result ≡ model.first_role_of_four word }
{
    match word {
        Word::Table => Role::Value,
        _ => Role::Plain,
    }
}

/// What the first two operands of a statement of five operands stand for.
pub(crate) fn first_roles_of_five(word: Word) -> (Role, Role)
    ensures { result ≡ model.first_roles_of_five word }
{
    match word {
        Word::Generate => (Role::Value, Role::Value),
        _ => (Role::Plain, Role::Plain),
    }
}
