//! What declarations make of entities.

ghost use Rattle.std.specs.Prelude.{◌≡◌, ◌∷◌, [], Some, None, map, IfOk};
ghost use Rattle.gw_text_tokens.specs.declared.words.Word.TheVariants as words;
ghost use Rattle.gw_object_records.specs.Entities as model;

use crate::operands::{limit_of, number_of, procedure_at, short_number_of, value_of};
use gw_compile::Numbering;
use gw_object::{Function, Items, Kind, Memory, Operand, Point, Table};
use gw_text::{Body, Operand as Text, Point as TextPoint, Statement, Word};
use std::alloc::Global;

/// A point of a function.
fn point_of(point: TextPoint) -> Point
    ensures { result ≡ model.point_of point }
{
    Point {
        x: point.x,
        y: point.y,
    }
}

/// The points of a function.
fn points_of(alloc: Global, points: &[TextPoint]) -> Result<Vec<Point>, Memory>
    ensures { IfOk result (λ ps. ps.items ≡ map model.point_of points.now) }
{
    let mut kept = Vec::with_capacity(alloc, points.len())?;
    for point in points {
        kept.push(point_of(*point))?;
    }
    Ok(kept)
}

/// TABLE, with this argument.
fn table_of(argument: Option<Operand>, limit: &Text, width: &Text, classes: &Text) -> Option<Kind>
    ensures { result ≡ model.table_of argument limit.now width.now classes.now }
{
    Some(Kind::Table(Table {
        argument: argument?,
        limit: limit_of(limit)?,
        width: number_of(width)?,
        classes: short_number_of(classes)?,
    }))
}

/// FUNCTION, with this argument and these points.
fn function_of(
    alloc: Global,
    argument: Option<Operand>,
    points: &[TextPoint],
) -> Result<Option<Kind>, Memory>
    ensures { IfOk result (model.IsFunction argument points.now) }
{
    match argument {
        Some(argument) => {
            let points = Items::from_vec(points_of(alloc, points)?);
            Ok(Some(Kind::Function(Function { argument, points })))
        }
        None => Ok(None),
    }
}

/// A declaration of one operand, but FUNCTION.
fn of_one(procedures: &[Option<u16>], word: Word, operand: &Text) -> Option<Kind>
    ensures { result ≡ model.of_one procedures.now word operand.now }
{
    match word {
        Word::Storage => number_of(operand).map(Kind::Storage),
        Word::Variable => procedure_at(procedures, 0).map(Kind::Variable),
        Word::BVariable => procedure_at(procedures, 0).map(Kind::BooleanVariable),
        _ => None,
    }
}

/// What a declaration makes of an entity (docs/object-format.md), where the operands that are expressions become these
/// procedures, by their numbers from 0; nothing where a name in it isn't known, where the operands aren't those of its word,
/// or where the statement declares no entity.
pub fn kind_of<N: Numbering>(
    alloc: Global,
    names: &N,
    procedures: &[Option<u16>],
    statement: &Statement,
) -> Result<Option<Kind>, Memory>
    ensures { IfOk result (model.IsEntityKind (N.numbers names.now) procedures.now statement.now) }
{
    match statement.operands.as_slice() {
        [a] => match (statement.word, &statement.body) {
            (Word::Function, Body::Points(points)) => {
                let argument = value_of(names, procedure_at(procedures, 0), a);
                function_of(alloc, argument, points.as_slice())
            }
            _ => Ok(of_one(procedures, statement.word, a)),
        },
        [a, b, c, d] => match statement.word {
            Word::Table => {
                let argument = value_of(names, procedure_at(procedures, 0), a);
                Ok(table_of(argument, b, c, d))
            }
            _ => Ok(None),
        },
        _ => Ok(None),
    }
}
