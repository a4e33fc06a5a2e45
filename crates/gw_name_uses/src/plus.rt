//! What PROCEDUREs use by name.

ghost use Rattle.std.specs.Prelude.{string_bytes};
ghost use Rattle.gw_name_uses.specs.Locals.{Hold, names_of};
ghost use Rattle.gw_name_uses.specs.Mentions.{Puts, of_target, in_returned, in_plus, in_sequence, in_procedure};
ghost use Rattle.gw_name_uses.specs.Mentions.{scope_after, scope_after_sequence};

use crate::expressions::put_expression;
use crate::locals::{declare_all, is_local};
use crate::uses::{Use, put};
use gw_text_expressions::Expression;
use gw_text_plus::{PlusStatement, Procedure};
use indexmap::IndexSet;
use std::alloc::AllocError;

/// What an assignment's target uses.
fn put_target<'a>(
    uses: &mut Vec<Use<'a>>,
    is_local: bool,
    name: &'a String,
) -> Result<(), AllocError>
    ensures { Puts result uses.old uses.new (of_target is_local (string_bytes name.now)) }
{
    if is_local {
        Ok(())
    } else {
        put(uses, Use::Target(name))
    }
}

/// What the value that is returned uses.
fn put_returned<'a>(
    uses: &mut Vec<Use<'a>>,
    locals: &IndexSet<String>,
    value: &'a Option<Expression>,
) -> Result<(), AllocError>
    ensures { Puts result uses.old uses.new (in_returned (names_of locals.now) value.now) }
{
    match value {
        Some(value) => put_expression(uses, locals, value),
        None => Ok(()),
    }
}

/// What the statements of a block use, in order.
#[cycle(statements)]
fn put_block<'a>(
    uses: &mut Vec<Use<'a>>,
    locals: &mut IndexSet<String>,
    block: &'a [PlusStatement],
) -> Result<(), AllocError>
    ensures uses { Puts result uses.old uses.new (in_sequence (names_of locals.old) block.now) }
    ensures locals { Hold result locals.new (scope_after_sequence (names_of locals.old) block.now) }
{
    for i in 0..block.len() {
        put_statement(uses, locals, &block[i])?;
    }
    Ok(())
}

/// What a statement uses, where these locals hold; the locals that hold behind it.
#[cycle(statements)]
fn put_statement<'a>(
    uses: &mut Vec<Use<'a>>,
    locals: &mut IndexSet<String>,
    statement: &'a PlusStatement,
) -> Result<(), AllocError>
    ensures uses { Puts result uses.old uses.new (in_plus (names_of locals.old) statement.now) }
    ensures locals { Hold result locals.new (scope_after (names_of locals.old) statement.now) }
{
    match statement {
        PlusStatement::Block(statements) => put_block(uses, locals, statements),
        PlusStatement::Temporary(names) => declare_all(locals, names),
        PlusStatement::Assign(name, value) => {
            put_target(uses, is_local(locals, name), name)?;
            put_expression(uses, locals, value)
        }
        PlusStatement::If(test, first, other) => {
            put_expression(uses, locals, test)?;
            put_statement(uses, locals, first)?;
            match other {
                Some(other) => put_statement(uses, locals, other),
                None => Ok(()),
            }
        }
        PlusStatement::While(test, body) => {
            put_expression(uses, locals, test)?;
            put_statement(uses, locals, body)
        }
        PlusStatement::Return(value) => put_returned(uses, locals, value),
    }
}

/// Behind what there is, what a PROCEDURE uses, in the order of its text. Its arguments and the temporaries declared above are
/// locals. `Err` where memory runs out; the list may then have grown.
pub fn put_uses_of_procedure<'a>(
    uses: &mut Vec<Use<'a>>,
    procedure: &'a Procedure,
) -> Result<(), AllocError>
    ensures { Puts result uses.old uses.new (in_procedure procedure.now) }
{
    let mut locals = IndexSet::new(*uses.allocator());
    declare_all(&mut locals, &procedure.arguments)?;
    put_statement(uses, &mut locals, &procedure.statement)
}
