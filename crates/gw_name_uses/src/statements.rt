//! What statements use by name.

ghost use Rattle.std.specs.Prelude.{◌≡◌};
ghost use Rattle.gw_name_uses.specs.Mentions.{Puts};
ghost use Rattle.gw_name_uses.specs.Statements as model;

use crate::operands::{put_both, put_operand};
use crate::plus::put_uses_of_procedure;
use crate::roles::{
    first_role_of_four, first_role_of_three, first_roles_of_five, last_roles_of_three, role_of_one,
    roles_of_two,
};
use crate::uses::{Use, put};
use gw_rules::EntityKind;
use gw_text::{Body, Modifier, Operand, Statement, Word};
use std::alloc::AllocError;

/// The kind of what a statement of this word declares, if that is an entity.
pub fn declared_kind(word: Word) -> Option<EntityKind>
    ensures { result ≡ model.declared_kind word }
{
    match word {
        Word::Storage => Some(EntityKind::Storage),
        Word::Table => Some(EntityKind::Table),
        Word::Function => Some(EntityKind::Function),
        Word::Variable => Some(EntityKind::Variable),
        Word::BVariable => Some(EntityKind::BooleanVariable),
        _ => None,
    }
}

/// What the label uses: the entity that it declares.
fn put_declared<'a>(
    uses: &mut Vec<Use<'a>>,
    kind: Option<EntityKind>,
    label: &'a Option<String>,
) -> Result<(), AllocError>
    ensures { Puts result uses.old uses.new (model.in_declared kind label.now) }
{
    match (kind, label) {
        (Some(kind), Some(name)) => put(uses, Use::Entity(kind, name)),
        _ => Ok(()),
    }
}

/// What the operands of a statement use.
fn put_operands<'a>(
    uses: &mut Vec<Use<'a>>,
    word: Word,
    modifier: Option<Modifier>,
    operands: &'a [Operand],
) -> Result<(), AllocError>
    ensures { Puts result uses.old uses.new (model.in_operands word modifier operands.now) }
{
    match operands {
        [a] => put_operand(uses, role_of_one(word), a),
        [a, b] => put_both(uses, roles_of_two(word, modifier, a), a, b),
        [a, b, c] => {
            put_operand(uses, first_role_of_three(word), a)?;
            put_both(uses, last_roles_of_three(word, a), b, c)
        }
        [a, _, _, _] => put_operand(uses, first_role_of_four(word), a),
        [a, b, _, _, _] => put_both(uses, first_roles_of_five(word), a, b),
        _ => Ok(()),
    }
}

/// What the lines behind the first one use.
fn put_body<'a>(uses: &mut Vec<Use<'a>>, body: &'a Body) -> Result<(), AllocError>
    ensures { Puts result uses.old uses.new (model.in_body body.now) }
{
    match body {
        Body::Procedure(procedure) => put_uses_of_procedure(uses, procedure),
        Body::Nothing | Body::Points(_) => Ok(()),
    }
}

/// Behind what there is, what a statement uses, in the order of the text: the entity that its label declares, its operands,
/// and what a PROCEDURE does. `Err` where memory runs out; the list may then have grown.
pub fn put_uses<'a>(uses: &mut Vec<Use<'a>>, statement: &'a Statement) -> Result<(), AllocError>
    ensures { Puts result uses.old uses.new (model.in_statement statement.now) }
{
    put_declared(uses, declared_kind(statement.word), &statement.label)?;
    put_operands(
        uses,
        statement.word,
        statement.modifier,
        &statement.operands,
    )?;
    put_body(uses, &statement.body)
}
