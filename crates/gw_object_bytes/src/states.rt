//! States of the state table, in bytes and against the rules of the object format.

ghost use Rattle.std.specs.Prelude.{◌≡◌, ◌↔◌, ◌<◌, IsTrue, IfSome};
ghost use Rattle.std.specs.List.{All, AllPairs};
ghost use Rattle.gw_object.specs.Grammar.{HeldFits, IsAscending, ParameterFits, StateFits, TableKindFits, held_units, owned_facility, parameter, state, table_kind};
ghost use Rattle.gw_fields.specs.Answers.{Gives};
ghost use Rattle.gw_object_bytes.specs.Keys.{entity_above};
ghost use Rattle.gw_object.specs.declared.blocks.Units.{Units};
ghost use Rattle.gw_object.specs.declared.parts.TableParameter.{TableParameter};

use crate::ObjectFormat;
use gw_block_bytes::{is_parameter, read_parameter_above};
use gw_field_bytes::{
    Elements, Front, Put, Reading, Receiver, Spelled, keys_ascend, put_behind, put_listed,
    read_listed, read_ranged_u32,
};
use gw_fields::{Items, ReadError, fault};
use gw_object::codes::{NOT_CANONICAL, TAG};
use gw_object::{
    GREATEST_UNITS, MOST_ENTITIES, MOST_PARAMETERS, TableKind, TableParameter, TableState, Units,
};
use std::alloc::Global;

/// An entity's number that is above the one before it, if there is one.
fn read_above(alloc: Global, before: Option<u16>, bytes: &[u8]) -> Result<(u16, &[u8]), ReadError>
    ensures { Gives (λ x. (x.0, x.1.now)) result ((entity_above before).read bytes.now) }
{
    let (entity, rest) = u16::read(alloc, bytes)?;
    if before.is_some_and(|before| entity <= before) {
        return Err(fault(NOT_CANONICAL, bytes));
    }
    Ok((entity, rest))
}

impl Spelled<ObjectFormat> for TableKind {
    ghost spelling = { table_kind.spell };

    ghost reading = { table_kind.read };

    fn put<R: Receiver>(&self, to: &mut R) -> Result<(), R::Refusal> {
        match self {
            TableKind::Num => to.put_bytes(&[0]),
            TableKind::Ret(row) => put_behind(to, 1, row),
        }
    }

    #[tactic(auto, unfolding(gw_object::specs::Grammar::table_kind_read))]
    fn read(alloc: Global, bytes: &[u8]) -> Result<(TableKind, &[u8]), ReadError> {
        let (tag, rest) = u8::read(alloc, bytes)?;
        match tag {
            0 => Ok((TableKind::Num, rest)),
            1 => {
                let (row, rest) = u16::read(alloc, rest)?;
                Ok((TableKind::Ret(row), rest))
            }
            _ => Err(fault(TAG, bytes)),
        }
    }
}

impl Put<ObjectFormat> for TableParameter {
    ghost spelling = { parameter.spell };

    fn put_into<R: Receiver>(&self, to: &mut R) -> Result<(), R::Refusal> {
        (self.number, self.kind).put(to)
    }
}

/// The parameters that are set, ascending by number.
struct SetParameters;

impl Elements for SetParameters {
    type Item = TableParameter;

    ghost reading = { parameter.read };

    fn read<'a>(alloc: Global, front: Front<Self>, _: usize, bytes: &'a [u8]) -> Reading<'a, Self> {
        let before = front.last().map(|parameter| parameter.number);
        let (number, rest) = read_parameter_above(alloc, before, bytes)?;
        let (kind, rest) = TableKind::read(alloc, rest)?;
        Ok((TableParameter { number, kind }, rest))
    }
}

/// Numbers that ascend: the facilities that a transaction owns, and the blocks of a return row.
pub struct AscendingNumbers;

impl Elements for AscendingNumbers {
    type Item = u16;

    ghost reading = { owned_facility.read };

    fn read<'a>(alloc: Global, front: Front<Self>, _: usize, bytes: &'a [u8]) -> Reading<'a, Self> {
        read_above(alloc, front.last().copied(), bytes)
    }
}

/// The units that a transaction holds, ascending by entity.
struct Held;

impl Elements for Held {
    type Item = Units;

    ghost reading = { held_units.read };

    fn read<'a>(alloc: Global, front: Front<Self>, _: usize, bytes: &'a [u8]) -> Reading<'a, Self> {
        let before = front.last().map(|units| units.entity);
        let (entity, rest) = read_above(alloc, before, bytes)?;
        let (number, rest) = read_ranged_u32(alloc, rest, 1, GREATEST_UNITS)?;
        Ok((Units { entity, number }, rest))
    }
}

impl Spelled<ObjectFormat> for TableState {
    ghost spelling = { state.spell };

    ghost reading = { state.read };

    #[tactic(auto, using(gw_field_bytes::proofs::Receiving::joining), unfolding(gw_object::specs::Grammar::state))]
    fn put<R: Receiver>(&self, to: &mut R) -> Result<(), R::Refusal> {
        put_listed(to, self.parameters.as_slice())?;
        put_listed(to, self.facilities.as_slice())?;
        put_listed(to, self.units.as_slice())
    }

    /// Parameters, facilities and units.
    #[tactic(auto, unfolding(gw_object::specs::Grammar::state))]
    fn read(alloc: Global, bytes: &[u8]) -> Result<(TableState, &[u8]), ReadError> {
        let (parameters, rest) = read_listed::<SetParameters>(alloc, bytes, 0, MOST_PARAMETERS)?;
        let (facilities, rest) = read_listed::<AscendingNumbers>(alloc, rest, 0, MOST_ENTITIES)?;
        let (units, rest) = read_listed::<Held>(alloc, rest, 0, MOST_ENTITIES)?;
        let state = TableState {
            parameters: Items::from_vec(parameters),
            facilities: Items::from_vec(facilities),
            units: Items::from_vec(units),
        };
        Ok((state, rest))
    }
}

/// Whether units keep their limits.
fn held_fits(units: Units) -> bool
    ensures { IsTrue result ↔ HeldFits units }
{
    1 <= units.number && units.number <= GREATEST_UNITS
}

/// Whether what a parameter holds keeps its limits: it does by its type.
fn kind_fits(kind: TableKind) -> bool
    ensures { IsTrue result ↔ TableKindFits kind }
{
    match kind {
        TableKind::Num | TableKind::Ret(_) => true,
    }
}

/// Whether a parameter keeps its limits.
fn parameter_fits(parameter: &TableParameter) -> bool
    ensures { IsTrue result ↔ ParameterFits parameter.now }
{
    is_parameter(parameter.number) && kind_fits(parameter.kind)
}

/// Whether a state keeps its limits.
fn state_fits(state: &TableState) -> bool
    ensures { IsTrue result ↔ StateFits state.now }
{
    let parameters = state.parameters.as_slice();
    let facilities = state.facilities.as_slice();
    let units = state.units.as_slice();
    if parameters.len() > MOST_PARAMETERS {
        return false;
    }
    if facilities.len() > MOST_ENTITIES || units.len() > MOST_ENTITIES {
        return false;
    }
    parameters.iter().all(parameter_fits) && units.iter().all(|units| held_fits(*units))
}

/// Whether each state keeps its limits.
pub fn states_fit(states: &[Option<TableState>]) -> bool
    ensures { IsTrue result ↔ All (λ row. IfSome row StateFits) states.now }
{
    states.iter().all(|row| row.as_ref().is_none_or(state_fits))
}

/// Whether the lists of a state ascend.
fn is_ascending(state: &TableState) -> bool
    ensures { IsTrue result ↔ IsAscending state.now }
{
    keys_ascend(state.parameters.as_slice())
        && keys_ascend(state.facilities.as_slice())
        && keys_ascend(state.units.as_slice())
}

/// Whether the lists of each state ascend.
pub fn states_ascend(states: &[Option<TableState>]) -> bool
    ensures { IsTrue result ↔ All (λ row. IfSome row IsAscending) states.now }
{
    states
        .iter()
        .all(|row| row.as_ref().is_none_or(is_ascending))
}
