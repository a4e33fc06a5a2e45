//! What expressions use by name.

ghost use Rattle.std.specs.Prelude.{[], string_bytes};
ghost use Rattle.gw_name_uses.specs.Locals.{names_of};
ghost use Rattle.gw_name_uses.specs.Mentions.{Puts, of_name, in_attribute, in_expression, in_all};

use crate::locals::is_local;
use crate::uses::{Use, put};
use gw_compile::question_of;
use gw_text_expressions::{BlockName, Expression, Parameter, Sna};
use indexmap::IndexSet;
use std::alloc::AllocError;

/// What an attribute uses.
pub(crate) fn put_attribute<'a>(uses: &mut Vec<Use<'a>>, sna: &'a Sna) -> Result<(), AllocError>
    ensures { Puts result uses.old uses.new (in_attribute sna.now) }
{
    match sna {
        Sna::Parameter(Parameter::Number(number)) => put(uses, Use::ParameterNumber(*number)),
        Sna::Parameter(Parameter::Name(name)) => put(uses, Use::Parameter(name)),
        Sna::OfEntity(value, name) => put(uses, Use::Entity(question_of(*value).kind, name)),
        Sna::OfBlock(_, BlockName::Label(label)) => put(uses, Use::Label(label)),
        _ => Ok(()),
    }
}

/// What a bare name uses: an EQU, where it is no local.
fn put_name<'a>(uses: &mut Vec<Use<'a>>, is_local: bool, name: &'a String) -> Result<(), AllocError>
    ensures { Puts result uses.old uses.new (of_name is_local (string_bytes name.now)) }
{
    if is_local {
        Ok(())
    } else {
        put(uses, Use::Equ(name))
    }
}

/// What expressions use, in order, where these locals hold.
#[cycle(expressions)]
fn put_all<'a>(
    uses: &mut Vec<Use<'a>>,
    locals: &IndexSet<String>,
    expressions: &'a [Expression],
) -> Result<(), AllocError>
    ensures { Puts result uses.old uses.new (in_all (names_of locals.now) expressions.now) }
{
    for expression in expressions {
        put_expression(uses, locals, expression)?;
    }
    Ok(())
}

/// What an expression uses, from left to right, where these locals hold.
#[cycle(expressions)]
pub(crate) fn put_expression<'a>(
    uses: &mut Vec<Use<'a>>,
    locals: &IndexSet<String>,
    expression: &'a Expression,
) -> Result<(), AllocError>
    ensures { Puts result uses.old uses.new (in_expression (names_of locals.now) expression.now) }
{
    match expression {
        Expression::Whole(_) => Ok(()),
        Expression::Name(name) => put_name(uses, is_local(locals, name), name),
        Expression::Sna(sna) => put_attribute(uses, sna),
        Expression::Parentheses(inner) => put_expression(uses, locals, inner),
        Expression::Unary(_, operand) => put_expression(uses, locals, operand),
        Expression::Binary(_, left, right) => {
            put_expression(uses, locals, left)?;
            put_expression(uses, locals, right)
        }
        Expression::Call(name, arguments) => match put_all(uses, locals, arguments) {
            Ok(()) => put(uses, Use::Call(name, arguments.len())),
            Err(error) => Err(error),
        },
    }
}

/// Behind what there is, what an expression outside of PROCEDUREs uses, from left to right. `Err` where memory runs out; the
/// list may then have grown.
pub fn put_uses_of_operand<'a>(
    uses: &mut Vec<Use<'a>>,
    operand: &'a Expression,
) -> Result<(), AllocError>
    ensures { Puts result uses.old uses.new (in_expression [] operand.now) }
{
    let locals = IndexSet::new(*uses.allocator());
    put_expression(uses, &locals, operand)
}
