//! What is known of a transaction, as flow works with it: its parameters, the facilities that it owns, and the units
//! that it is sure to hold.

ghost use Rattle.std.specs.Prelude.{◌≡◌, ◌<◌, IfOk, All};
ghost use Rattle.gw_object.specs.Grammar.{AreAscending};
ghost use Rattle.gw_rules.specs.Rows as rows;
ghost use Rattle.gw_rules.specs.Rows.{Ret, with_parameter};
ghost use Rattle.gw_rules.specs.Seen.{row_blocks, kind_seen};
ghost use Rattle.gw_flow.specs.Known.{params_of, known_row};
ghost use Rattle.gw_flow.specs.Known.{ParametersAscend, IsInNumbersOf};
ghost use Rattle.gw_flow.specs.Viewed.{kind_viewed, params_viewed, row_view};

use crate::abstract_state::{AbsState, Amount, StateParts};
use crate::fits::{has_params, has_units};
use crate::lists::{Keyed, copy_of, in_place, of_key, with_amount, without_number};
use crate::lookups::Lookups;
use gw_object::{Items, Memory, ReturnRow};
use gw_rules::{Parameter, ParameterKind};
use std::alloc::Global;
use std::marker::Model;

/// What a parameter holds.
#[derive(Clone, Copy, PartialEq, Eq)]
pub enum ParamKind<'a> {
    /// A number.
    Num,
    /// A return to one of these blocks, by their numbers from 1, which ascend.
    Ret(&'a [u16]),
    /// The return to the block of this number, from 1.
    RetTo(u16),
}

impl<'a> ParamKind<'a> {
    /// A return to one of the blocks of the return row of this number; to none where there is no such row.
    pub(crate) fn of_return_row(returns: &'a [ReturnRow], row: u16) -> ParamKind<'a>
        ensures { kind_viewed result ≡ Ret (row_blocks returns.now row) }
    {
        match returns.get(row as usize) {
            Some(row) => ParamKind::Ret(row.blocks.as_slice()),
            None => ParamKind::Ret(&[]),
        }
    }
}

/// A parameter that is set.
#[derive(Clone, Copy, PartialEq, Eq)]
pub struct Param<'a> {
    /// Its number, from 1 to 64.
    pub number: u8,
    /// What it holds.
    pub kind: ParamKind<'a>,
}

impl<'a> Keyed for Param<'a> {
    ghost key = { λ p. p.number };

    fn key(&self) -> u16 {
        self.number as u16
    }
}

/// An abstract state, as flow works with it: what is known of a transaction that is about to go on to a block or a user
/// chain. Its lists ascend, and no amount is 0. The blocks of returns are lent, by an object's return rows or by who computes
/// a state table.
#[derive(Drop)]
pub struct State<'a> {
    params: Items<Param<'a>>,
    facilities: Items<u16>,
    units: Items<Amount>,
}

impl<'a> Model for State<'a> {
    ghost use Rattle.gw_rules.specs.Rows.{Row, IsOrdered};
    ghost use Rattle.gw_flow.specs.Viewed.{row_view};

    ghost Value = { Row };

    ghost view = { λ s. row_view s.params s.facilities s.units };

    ghost invariant = { λ s. IsOrdered (row_view s.params s.facilities s.units) };
}

/// A parameter as flow works with it.
pub(crate) fn param_seen<'a>(returns: &'a [ReturnRow], parameter: &Parameter) -> Param<'a>
    ensures number { result.number ≡ parameter.now.number }
    ensures kind { kind_viewed result.kind ≡ kind_seen returns.now parameter.now.kind }
{
    Param {
        number: parameter.number,
        kind: match parameter.kind {
            ParameterKind::Num => ParamKind::Num,
            ParameterKind::Ret(row) => ParamKind::of_return_row(returns, row),
            ParameterKind::RetTo(block) => ParamKind::RetTo(block),
        },
    }
}

/// Parameters as flow works with them.
fn params_seen<'a>(
    alloc: Global,
    returns: &'a [ReturnRow],
    parameters: &[Parameter],
) -> Result<Vec<Param<'a>>, Memory>
    ensures { IfOk result (λ ps. params_viewed ps.items ≡ params_of returns.now parameters.now) }
{
    parameters
        .iter()
        .map(|p| param_seen(returns, p))
        .collect(alloc)
}

impl<'a> State<'a> {
    /// The state of these lists, which ascend.
    pub fn of_lists(params: Vec<Param<'a>>, facilities: Vec<u16>, units: Vec<Amount>) -> State<'a>
        requires { rows.IsOrdered (row_view params.items facilities.items units.items) }
        ensures { result ≡ row_view params.entry.items facilities.items units.items }
    {
        State {
            params: Items::from_vec(params),
            facilities: Items::from_vec(facilities),
            units: Items::from_vec(units),
        }
    }

    /// The parameters that are sure to be set, ascending.
    pub fn params(&self) -> &[Param<'a>]
        ensures value { params_viewed result.now ≡ self.now.params }
        ensures ordered { rows.IsOrdered self.now }
    {
        self.params.as_slice()
    }

    /// What an abstract state says.
    pub(crate) fn of(
        alloc: Global,
        returns: &'a [ReturnRow],
        state: &AbsState,
    ) -> Result<State<'a>, Memory>
        requires { All AreAscending returns.now }
        ensures { IfOk result (λ s. s ≡ known_row returns.now state.now) }
    {
        let parts = state.parts();
        let params = params_seen(alloc, returns, parts.parameters.as_slice())?;
        Ok(State {
            params: Items::from_vec(params),
            facilities: copy_of(alloc, &parts.facilities)?,
            units: copy_of(alloc, &parts.units)?,
        })
    }

    /// This state in the numbers of these parameters, which say what it says of them.
    pub(crate) fn in_numbers_of(
        &self,
        alloc: Global,
        parameters: &Items<Parameter>,
    ) -> Result<AbsState, Memory>
        requires { ParametersAscend parameters.now }
        ensures same { IfOk result (λ s. IsInNumbersOf parameters.now s self.now) }
        ensures own { IfOk result (λ s. s.parameters ≡ parameters.now) }
    {
        Ok(AbsState::of(StateParts {
            parameters: copy_of(alloc, parameters)?,
            facilities: copy_of(alloc, &self.facilities)?,
            units: copy_of(alloc, &self.units)?,
        }))
    }

    /// This state once more.
    pub fn copy(&self, alloc: Global) -> Result<State<'a>, Memory>
        ensures { IfOk result (λ state. state ≡ self.now) }
    {
        Ok(State {
            params: copy_of(alloc, &self.params)?,
            facilities: copy_of(alloc, &self.facilities)?,
            units: copy_of(alloc, &self.units)?,
        })
    }

    /// What is known of a copy: its parameters are those of its parent, and it owns and holds nothing.
    pub(crate) fn parameters_alone(&self, alloc: Global) -> Result<State<'a>, Memory>
        ensures { IfOk result (λ state. state ≡ rows.parameters_alone self.now) }
    {
        Ok(State {
            params: copy_of(alloc, &self.params)?,
            facilities: Items::from_vec(Vec::new(alloc)),
            units: Items::from_vec(Vec::new(alloc)),
        })
    }

    /// The state once a parameter is set to what it then holds.
    pub(crate) fn with_parameter(
        &self,
        alloc: Global,
        number: u8,
        kind: ParamKind<'a>,
    ) -> Result<State<'a>, Memory>
        requires { rows.KindAscends (kind_viewed kind) }
        ensures { IfOk result (λ s. s ≡ with_parameter number (kind_viewed kind.entry) self.now) }
    {
        let param = Param { number, kind };
        let params = in_place(alloc, self.params.as_slice(), param)?;
        Ok(State {
            params: Items::from_vec(params),
            facilities: copy_of(alloc, &self.facilities)?,
            units: copy_of(alloc, &self.units)?,
        })
    }

    /// The state where these facilities are owned, which ascend.
    fn with_facilities(&self, alloc: Global, facilities: Vec<u16>) -> Result<State<'a>, Memory>
        requires { rows.IsOrdered (rows.with_facilities facilities.items self.now) }
        ensures { IfOk result (λ state. state ≡ rows.with_facilities facilities.items self.now) }
    {
        Ok(State {
            params: copy_of(alloc, &self.params)?,
            facilities: Items::from_vec(facilities),
            units: copy_of(alloc, &self.units)?,
        })
    }

    /// The state once a facility is owned.
    pub(crate) fn with_facility(&self, alloc: Global, facility: u16) -> Result<State<'a>, Memory>
        ensures { IfOk result (λ state. state ≡ rows.with_facility facility self.now) }
    {
        let facilities = in_place(alloc, self.facilities.as_slice(), facility)?;
        self.with_facilities(alloc, facilities)
    }

    /// The state once a facility is given up.
    pub(crate) fn without_facility(&self, alloc: Global, facility: u16) -> Result<State<'a>, Memory>
        ensures { IfOk result (λ state. state ≡ rows.without_facility facility self.now) }
    {
        let facilities = without_number(alloc, self.facilities.as_slice(), facility)?;
        self.with_facilities(alloc, facilities)
    }

    /// The state once so many units of an entity are held.
    pub(crate) fn with_units(
        &self,
        alloc: Global,
        entity: u16,
        number: u64,
    ) -> Result<State<'a>, Memory>
        ensures { IfOk result (λ state. state ≡ rows.with_units entity number self.now) }
    {
        let units = with_amount(alloc, self.units.as_slice(), entity, number)?;
        Ok(State {
            params: copy_of(alloc, &self.params)?,
            facilities: copy_of(alloc, &self.facilities)?,
            units: Items::from_vec(units),
        })
    }

    /// Whether this state has what a row knows of parameters.
    pub fn has_params_of(&self, row: &State<'_>) -> bool
        ensures { result ≡ rows.params_fit self.now.params row.now.params }
    {
        has_params(self.params.as_slice(), row.params.as_slice())
    }

    /// Whether this state has at least the units of a row.
    pub fn has_units_of(&self, row: &State<'_>) -> bool
        ensures { result ≡ rows.units_fit self.now.units row.now.units }
    {
        has_units(self.units.as_slice(), row.units.as_slice())
    }
}

impl<'a> Lookups for State<'a> {
    ghost known = { λ s. s };

    fn sets_nothing(&self) -> bool {
        self.params.as_slice().is_empty()
    }

    fn kind_of(&self, parameter: u8) -> Option<ParamKind<'_>> {
        of_key(self.params.as_slice(), parameter as u16).map(|param| param.kind)
    }

    fn facilities(&self) -> &[u16] {
        self.facilities.as_slice()
    }

    fn units(&self) -> &[Amount] {
        self.units.as_slice()
    }
}
