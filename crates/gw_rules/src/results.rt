//! What is made of the value of an operand's source: V, BV and FN (docs/plus-code.md).

ghost use Rattle.std.specs.Prelude.{◌≡◌, int_le};
ghost use Rattle.std.specs.List.{find};
ghost use Rattle.std.specs.Option.{option_copied};
ghost use Rattle.gw_rules.specs.Sources.{kind_at};
ghost use Rattle.gw_rules.specs.Results as model;

use crate::evaluation::argument_in;
use gw_num::truth_value;
use gw_object::{Entity, EntityAttribute, Kind, Operand, Point};

/// The points of the function of this number; another entity has none.
fn points_at(entities: &[Entity], number: u16) -> &[Point]
    ensures { result.now ≡ model.points_of (kind_at entities.now number) }
{
    match entities.get(number as usize) {
        Some(
            Entity {
                kind: Kind::Function(function),
                ..
            },
        ) => function.points.as_slice(),
        _ => &[],
    }
}

/// The first point which an argument isn't above, if there is one.
fn first_from(argument: i64, points: &[Point]) -> Option<&Point>
    ensures { option_copied result ≡ find (λ q. int_le argument q.x) points.now }
{
    for point in points {
        if argument <= point.x {
            return Some(point);
        }
    }
    None
}

/// The point that counts for an argument: the first one which the argument isn't above, else the last.
fn point_for(argument: i64, points: &[Point]) -> Option<&Point>
    ensures { option_copied result ≡ model.point_for argument points.now }
{
    match first_from(argument, points) {
        Some(point) => Some(point),
        None => points.last(),
    }
}

/// The value of a function with these points at an argument (GPSS World Reference Manual, "FUNCTION": a discrete one).
fn y_at(argument: i64, points: &[Point]) -> i64
    ensures { result ≡ model.y_at argument points.now }
{
    match point_for(argument, points) {
        Some(point) => point.y,
        None => 0,
    }
}

/// What an attribute makes of the value of a procedure: a boolean variable asks whether it isn't 0.
fn as_truth(attribute: EntityAttribute, value: i64) -> i64
    ensures { result ≡ model.as_truth attribute value }
{
    match attribute {
        EntityAttribute::BooleanValue => truth_value(value != 0),
        _ => value,
    }
}

/// What an operand that is no function's value makes of the value of its source.
fn truth_made(operand: Operand, value: i64) -> i64
    ensures { result ≡ model.truth_made operand value }
{
    match operand {
        Operand::OfEntity(of) => as_truth(of.attribute, value),
        _ => value,
    }
}

/// What an attribute makes of the value of a function's argument: a function with these points has its value there.
fn at_points(attribute: EntityAttribute, points: &[Point], value: i64) -> i64
    ensures { result ≡ model.at_points attribute points.now value }
{
    match attribute {
        EntityAttribute::FunctionValue => y_at(value, points),
        _ => value,
    }
}

/// What a function makes of its argument's value; another operand leaves a value as it is.
fn function_made(entities: &[Entity], operand: Operand, value: i64) -> i64
    ensures { result ≡ model.function_made entities.now operand value }
{
    match operand {
        Operand::OfEntity(of) => at_points(of.attribute, points_at(entities, of.number), value),
        _ => value,
    }
}

/// What an operand makes of the value of its source (`source_of`): a V is the value of its procedure, a BV is 1
/// where that isn't 0, else 0 (docs/plus-code.md), and an FN is the value that its function has at the value of its
/// argument (GPSS World Reference Manual, "FUNCTION": a discrete one, so that of the first point which it isn't above,
/// else that of the last). Any other operand is its own source, and leaves the value as it is.
pub fn operand_value(entities: &[Entity], operand: Operand, value: i64) -> i64
    ensures { result ≡ model.value_by_operand entities.now operand value }
{
    let of_argument = truth_made(argument_in(entities, operand), value);
    function_made(entities, operand, of_argument)
}
