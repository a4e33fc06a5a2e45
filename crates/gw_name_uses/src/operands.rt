//! What operands use by name.

ghost use Rattle.gw_name_uses.specs.Mentions.{Puts};
ghost use Rattle.gw_name_uses.specs.Statements as model;

use crate::expressions::{put_attribute, put_uses_of_operand};
use crate::roles::Role;
use crate::uses::{Use, put};
use gw_text::Operand;
use std::alloc::AllocError;

/// What an operand uses that is a value.
fn put_value<'a>(uses: &mut Vec<Use<'a>>, operand: &'a Operand) -> Result<(), AllocError>
    ensures { Puts result uses.old uses.new (model.in_value operand.now) }
{
    match operand {
        Operand::Missing | Operand::Whole(_) | Operand::Fraction(_) | Operand::Both => Ok(()),
        Operand::Name(name) => put(uses, Use::Equ(name)),
        Operand::Sna(sna) => put_attribute(uses, sna),
        Operand::Expression(expression) => put_uses_of_operand(uses, expression),
    }
}

/// What a parameter's number uses.
fn put_number<'a>(uses: &mut Vec<Use<'a>>, number: i64) -> Result<(), AllocError>
    ensures { Puts result uses.old uses.new (model.of_number number) }
{
    match u8::try_from(number) {
        Ok(number) => put(uses, Use::ParameterNumber(number)),
        Err(_) => Ok(()),
    }
}

/// What an operand uses that is a parameter.
fn put_parameter<'a>(uses: &mut Vec<Use<'a>>, operand: &'a Operand) -> Result<(), AllocError>
    ensures { Puts result uses.old uses.new (model.in_parameter operand.now) }
{
    match operand {
        Operand::Name(name) => put(uses, Use::Parameter(name)),
        Operand::Whole(number) => put_number(uses, *number),
        _ => Ok(()),
    }
}

/// What an operand uses that stands for this.
pub(crate) fn put_operand<'a>(
    uses: &mut Vec<Use<'a>>,
    role: Role,
    operand: &'a Operand,
) -> Result<(), AllocError>
    ensures { Puts result uses.old uses.new (model.in_role role operand.now) }
{
    match (role, operand) {
        (Role::Value, _) => put_value(uses, operand),
        (Role::Parameter, _) => put_parameter(uses, operand),
        (Role::Entity(kind), Operand::Name(name)) => put(uses, Use::Entity(kind, name)),
        (Role::Label, Operand::Name(label)) => put(uses, Use::Label(label)),
        _ => Ok(()),
    }
}

/// What two operands use that stand for these.
pub(crate) fn put_both<'a>(
    uses: &mut Vec<Use<'a>>,
    roles: (Role, Role),
    first: &'a Operand,
    second: &'a Operand,
) -> Result<(), AllocError>
    ensures { Puts result uses.old uses.new (model.in_both roles first.now second.now) }
{
    put_operand(uses, roles.0, first)?;
    put_operand(uses, roles.1, second)
}
