//! Abstract states, as calls carry them: what is known of a transaction, in numbers of the caller's own.

ghost use Rattle.std.specs.Prelude.{◌≡◌, ◌↔◌, map, IsTrue, Ok, IfOk, IfErr, All};
ghost use Rattle.gw_object.specs.Grammar.{HeldFits, IsAscending};
ghost use Rattle.gw_flow.specs.Known.{ParametersAscend, NumbersAscend, AmountsAscend, AreSome, PartsAscend};
ghost use Rattle.gw_flow.specs.Known.{kind_carried, parameter_carried, Carries};

use crate::lists::{amounts_seen, copy_of};
use gw_object::{Items, Memory, TableKind, TableParameter, TableState};
use gw_rules::{Parameter, ParameterKind};
use std::alloc::Global;
use std::marker::Model;

/// Units of a storage or a queue.
#[derive(Clone, Copy, PartialEq, Eq)]
pub struct Amount {
    /// The entity's number, from 0.
    pub entity: u16,
    /// How many units.
    pub number: u64,
}

/// The parts of an abstract state, as a plain record.
#[derive(Drop, PartialEq, Eq)]
pub struct StateParts {
    /// The parameters that are sure to be set.
    pub parameters: Items<Parameter>,
    /// The facilities that the transaction owns, by their entities' numbers from 0.
    pub facilities: Items<u16>,
    /// The units that it is sure to hold, of storages and queues.
    pub units: Items<Amount>,
}

/// An abstract state: what is known of a transaction that is about to enter a block (ours: docs/object-format.md). Its lists
/// ascend, and no amount is 0.
#[derive(Drop)]
pub struct AbsState {
    parts: StateParts,
}

impl Model for AbsState {
    ghost use Rattle.gw_flow.specs.declared.abstract_state.StateParts.{StateParts};
    ghost use Rattle.gw_flow.specs.Known.{PartsAscend};

    ghost Value = { StateParts };

    ghost view = { λ s. s.parts };

    ghost invariant = { λ s. PartsAscend s.parts };
}

/// Whether parameters ascend by their numbers.
fn parameters_ascend(parameters: &[Parameter]) -> bool
    ensures { IsTrue result ↔ ParametersAscend parameters.now }
{
    parameters.is_sorted_by(|a, b| a.number < b.number)
}

/// Whether facilities ascend.
fn facilities_ascend(facilities: &[u16]) -> bool
    ensures { IsTrue result ↔ NumbersAscend facilities.now }
{
    facilities.is_sorted_by(|a, b| a < b)
}

/// Whether amounts ascend by their entities.
fn amounts_ascend(amounts: &[Amount]) -> bool
    ensures { IsTrue result ↔ AmountsAscend amounts.now }
{
    amounts.is_sorted_by(|a, b| a.entity < b.entity)
}

/// Whether no amount is 0.
fn none_is_0(amounts: &[Amount]) -> bool
    ensures { IsTrue result ↔ AreSome amounts.now }
{
    amounts.iter().all(|a| a.number != 0)
}

/// Whether parameters and facilities ascend.
fn numbers_ascend(parameters: &[Parameter], facilities: &[u16]) -> bool
    ensures { IsTrue result ↔ (ParametersAscend parameters.now × NumbersAscend facilities.now) }
{
    parameters_ascend(parameters) && facilities_ascend(facilities)
}

/// Whether amounts ascend by their entities, and none is 0.
fn amounts_are_ordered(amounts: &[Amount]) -> bool
    ensures { IsTrue result ↔ (AmountsAscend amounts.now × AreSome amounts.now) }
{
    amounts_ascend(amounts) && none_is_0(amounts)
}

/// Whether the lists of a state ascend and no amount is 0.
fn is_ordered(parts: &StateParts) -> bool
    ensures { IsTrue result ↔ PartsAscend parts.now }
{
    numbers_ascend(parts.parameters.as_slice(), parts.facilities.as_slice())
        && amounts_are_ordered(parts.units.as_slice())
}

/// What a row of the state table says that a parameter holds, in the row's own numbers.
fn kind_of_row(kind: TableKind) -> ParameterKind
    ensures { result ≡ kind_carried kind }
{
    match kind {
        TableKind::Num => ParameterKind::Num,
        TableKind::Ret(row) => ParameterKind::Ret(row),
    }
}

/// A parameter of a row of the state table, in the row's own numbers.
fn parameter_of_row(parameter: &TableParameter) -> Parameter
    ensures { result ≡ parameter_carried parameter.now }
{
    Parameter {
        number: parameter.number,
        kind: kind_of_row(parameter.kind),
    }
}

/// The parameters of a row of the state table, in the row's own numbers.
fn parameters_of_row(alloc: Global, parameters: &[TableParameter]) -> Result<Vec<Parameter>, Memory>
    ensures { IfOk result (λ all. all.items ≡ map parameter_carried parameters.now) }
{
    parameters.iter().map(parameter_of_row).collect(alloc)
}

impl AbsState {
    /// The state of parts that are known to ascend.
    pub(crate) fn of(parts: StateParts) -> AbsState
        requires { PartsAscend parts }
        ensures { result ≡ parts }
    {
        AbsState { parts }
    }

    /// What a row of the state table says, in the row's own numbers.
    pub(crate) fn of_row(alloc: Global, row: &TableState) -> Result<AbsState, Memory>
        requires ascending { IsAscending row.now }
        requires amounts { All HeldFits row.now.units }
        ensures { IfOk result (λ state. Carries state row.now) }
    {
        let parameters = parameters_of_row(alloc, row.parameters.as_slice())?;
        let units = amounts_seen(alloc, row.units.as_slice())?;
        Ok(AbsState::of(StateParts {
            parameters: Items::from_vec(parameters),
            facilities: copy_of(alloc, &row.facilities)?,
            units: Items::from_vec(units),
        }))
    }

    /// The state of these parts. Parts whose lists don't ascend strictly, or that have an amount 0, are handed back.
    pub fn build(parts: StateParts) -> Result<AbsState, StateParts>
        ensures accepted { IfOk result (λ s. (s ≡ parts) × PartsAscend parts) }
        ensures exactly { PartsAscend parts → result ≡ Ok parts }
        ensures refused { IfErr result (λ back. (back ≡ parts) × ¬ PartsAscend parts) }
    {
        if is_ordered(&parts) {
            Ok(AbsState::of(parts))
        } else {
            Err(parts)
        }
    }

    /// Its parts.
    pub fn parts(&self) -> &StateParts
        ensures value { result.now ≡ self.now }
        ensures ordered { PartsAscend self.now }
    {
        &self.parts
    }
}
