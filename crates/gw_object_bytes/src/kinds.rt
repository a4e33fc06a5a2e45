//! The kinds of entities and their fields, in bytes and against the rules of the object format.

ghost use Rattle.std.specs.Prelude.{◌≡◌, ◌↔◌, IsTrue, int_lt};
ghost use Rattle.std.specs.List.{All};
ghost use Rattle.gw_field_bytes.specs.Receivers.{Puts};
ghost use Rattle.gw_object.specs.Entities.{FunctionFits, KindAscends, KindFits, PointFits, PointsAscend, TableFits, function, kind_fields, kind_tag, point, table};
ghost use Rattle.gw_fields.specs.Answers.{Gives};
ghost use Rattle.gw_object_bytes.specs.Keys.{argument_above};

use crate::ObjectFormat;
use gw_block_bytes::operand_fits;
use gw_field_bytes::{
    Elements, Front, Put, Reading, Receiver, Spelled, put_listed, read_listed, read_ranged_u16,
    read_ranged_u32,
};
use gw_fields::{Items, ReadError, fault};
use gw_object::codes::NOT_CANONICAL;
use gw_object::{
    Function, GREATEST_CAPACITY, GREATEST_WIDTH, Kind, LEAST_CLASSES, MOST_CLASSES, MOST_POINTS,
    Operand, Point, Table,
};
use std::alloc::Global;

/// The byte that stands for a kind.
pub fn tag_of(kind: &Kind) -> u8
    ensures { result ≡ kind_tag kind.now }
{
    match kind {
        Kind::Facility => 1,
        Kind::Storage(_) => 2,
        Kind::Queue => 3,
        Kind::Switch(_) => 4,
        Kind::Savevalue(_) => 5,
        Kind::Table(_) => 6,
        Kind::Chain => 7,
        Kind::Variable(_) => 8,
        Kind::BooleanVariable(_) => 9,
        Kind::Function(_) => 10,
    }
}

impl Spelled<ObjectFormat> for Table {
    ghost spelling = { table.spell };

    ghost reading = { table.read };

    #[tactic(auto, unfolding(gw_object::specs::Entities::table))]
    fn put<R: Receiver>(&self, to: &mut R) -> Result<(), R::Refusal> {
        (self.argument, (self.limit, (self.width, self.classes))).put(to)
    }

    #[tactic(auto, unfolding(gw_object::specs::Entities::table))]
    fn read(alloc: Global, bytes: &[u8]) -> Result<(Table, &[u8]), ReadError> {
        let (argument, rest) = Operand::read(alloc, bytes)?;
        let (limit, rest) = i64::read(alloc, rest)?;
        let (width, rest) = read_ranged_u32(alloc, rest, 1, GREATEST_WIDTH)?;
        let (classes, rest) = read_ranged_u16(alloc, rest, LEAST_CLASSES, MOST_CLASSES)?;
        let table = Table {
            argument,
            limit,
            width,
            classes,
        };
        Ok((table, rest))
    }
}

/// An argument that is above the one of the point before it, if there is one.
fn read_above(alloc: Global, before: Option<i64>, bytes: &[u8]) -> Result<(i64, &[u8]), ReadError>
    ensures { Gives (λ x. (x.0, x.1.now)) result ((argument_above before).read bytes.now) }
{
    let (x, rest) = i64::read(alloc, bytes)?;
    if before.is_some_and(|before| x <= before) {
        return Err(fault(NOT_CANONICAL, bytes));
    }
    Ok((x, rest))
}

impl Put<ObjectFormat> for Point {
    ghost spelling = { point.spell };

    fn put_into<R: Receiver>(&self, to: &mut R) -> Result<(), R::Refusal> {
        (self.x, self.y).put(to)
    }
}

/// The points of a function, ascending by argument.
struct Points;

impl Elements for Points {
    type Item = Point;

    ghost reading = { point.read };

    fn read<'a>(alloc: Global, front: Front<Self>, _: usize, bytes: &'a [u8]) -> Reading<'a, Self> {
        let before = front.last().map(|point| point.x);
        let (x, rest) = read_above(alloc, before, bytes)?;
        let (y, rest) = i64::read(alloc, rest)?;
        Ok((Point { x, y }, rest))
    }
}

impl Spelled<ObjectFormat> for Function {
    ghost spelling = { function.spell };

    ghost reading = { function.read };

    #[tactic(auto, using(gw_field_bytes::proofs::Receiving::joining), unfolding(gw_object::specs::Entities::function))]
    fn put<R: Receiver>(&self, to: &mut R) -> Result<(), R::Refusal> {
        self.argument.put(to)?;
        put_listed(to, self.points.as_slice())
    }

    #[tactic(auto, unfolding(gw_object::specs::Entities::function))]
    fn read(alloc: Global, bytes: &[u8]) -> Result<(Function, &[u8]), ReadError> {
        let (argument, rest) = Operand::read(alloc, bytes)?;
        let (points, rest) = read_listed::<Points>(alloc, rest, 1, MOST_POINTS)?;
        let points = Items::from_vec(points);
        Ok((Function { argument, points }, rest))
    }
}

/// Puts the fields of a kind into a receiver.
#[tactic(auto, using(gw_field_bytes::proofs::Receiving::joining))]
pub fn put_fields<R: Receiver>(to: &mut R, kind: &Kind) -> Result<(), R::Refusal>
    ensures { Puts R.content to.old to.new (kind_fields kind.now) result }
{
    match kind {
        Kind::Facility | Kind::Queue | Kind::Chain => Ok(()),
        Kind::Storage(capacity) => capacity.put(to),
        Kind::Switch(set) => set.put(to),
        Kind::Savevalue(value) => value.put(to),
        Kind::Table(table) => table.put(to),
        Kind::Variable(procedure) | Kind::BooleanVariable(procedure) => procedure.put(to),
        Kind::Function(function) => function.put(to),
    }
}

/// Whether the operands of a table keep their limits.
fn table_fits(table: Table) -> bool
    ensures { IsTrue result ↔ TableFits table }
{
    operand_fits(table.argument)
        && 1 <= table.width
        && LEAST_CLASSES <= table.classes
        && table.classes <= MOST_CLASSES
}

/// Whether a point keeps its limits: it does by its type.
fn point_fits(_point: Point) -> bool
    ensures { IsTrue result ↔ PointFits _point }
{
    true
}

/// Whether a function keeps its limits.
fn function_fits(function: &Function) -> bool
    ensures { IsTrue result ↔ FunctionFits function.now }
{
    let points = function.points.as_slice();
    if points.is_empty() || points.len() > MOST_POINTS {
        return false;
    }
    operand_fits(function.argument) && points.iter().all(|point| point_fits(*point))
}

/// Whether a kind's fields keep their limits.
pub fn kind_fits(kind: &Kind) -> bool
    ensures { IsTrue result ↔ KindFits kind.now }
{
    match *kind {
        Kind::Facility | Kind::Queue | Kind::Switch(_) | Kind::Chain => true,
        // What these hold keeps its limits by its type.
        Kind::Savevalue(_value) => true,
        Kind::Variable(_procedure) | Kind::BooleanVariable(_procedure) => true,
        Kind::Storage(capacity) => 1 <= capacity && capacity <= GREATEST_CAPACITY,
        Kind::Table(table) => table_fits(table),
        Kind::Function(ref function) => function_fits(function),
    }
}

/// Whether the argument of a point is below that of another.
fn is_below(point: &Point, other: &Point) -> bool
    ensures { result ≡ int_lt point.now.x other.now.x }
{
    point.x < other.x
}

/// Whether the points of a function ascend: the argument of each is above that of the one before it.
fn points_ascend(function: &Function) -> bool
    ensures { IsTrue result ↔ PointsAscend function.now }
{
    let points = function.points.as_slice();
    for i in 1..points.len() {
        if !is_below(&points[i - 1], &points[i]) {
            return false;
        }
    }
    true
}

/// Whether the points of a kind ascend, if it is a function.
pub fn kind_ascends(kind: &Kind) -> bool
    ensures { IsTrue result ↔ KindAscends kind.now }
{
    match kind {
        Kind::Function(function) => points_ascend(function),
        _ => true,
    }
}
