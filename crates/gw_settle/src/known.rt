//! Rows of a state table that is being computed: abstract states that own their lists.

ghost use Rattle.std.specs.Prelude.{◌≡◌, ◌≢◌, ◌<◌, List, IfOk, IfSome, Some, option_map, All, AllPairs};
ghost use Rattle.gw_rules.specs.Rows.{IsOrdered, KindAscends, Ret, kind_of, return_blocks, units_of, nothing_known};
ghost use Rattle.gw_flow.specs.Known.{amounts_of, AmountsAscend};
ghost use Rattle.gw_flow.specs.Viewed.{kind_viewed, params_viewed};
ghost use Rattle.gw_settle.specs.Joins as model;
ghost use Rattle.gw_settle.specs.Joins.{kind_in, kind_with, params_with, units_with, AddsJoined, AddsUnits};
ghost use Rattle.gw_settle.specs.Jumps as jumps;
ghost use Rattle.gw_settle.specs.Drafts.{held_units_after};
ghost use Rattle.gw_settle.specs.Known.{kind_known, params_known, known_viewed};

use crate::amounts::units_near;
use crate::sets::united;
use gw_flow::{Amount, Lookups, Param, ParamKind, State};
use gw_object::{Items, Memory};
use std::alloc::{AllocError, Global};
use std::marker::Model;
use std::rc::Rc;

/// What a parameter holds.
#[derive(Drop)]
pub(crate) enum KnownKind {
    /// A number.
    Num,
    /// A return to one of these blocks, by their numbers from 1, which ascend.
    Ret(Items<u16>),
}

/// A parameter that is sure to be set.
#[derive(Drop)]
pub(crate) struct KnownParam {
    /// Its number, from 1 to 64.
    pub number: u8,
    /// What it holds.
    pub kind: KnownKind,
}

/// The lists of a row.
#[derive(Drop)]
pub(crate) struct Lists {
    /// The parameters that are sure to be set.
    pub params: Items<KnownParam>,
    /// The facilities that are owned, by their entities' numbers from 0.
    pub facilities: Items<u16>,
    /// The units that are sure to be held, of storages and queues.
    pub units: Items<Amount>,
}

/// A row of a state table: what is known of a transaction that is about to go to one place. Its lists ascend, and no amount
/// is 0. A row once more shares its lists.
#[derive(Drop)]
pub(crate) struct Known {
    lists: Rc<Lists, Global>,
}

impl Model for Known {
    ghost use Rattle.gw_rules.specs.Rows.{Row, IsOrdered};

    ghost Value = { Row };

    ghost use Rattle.gw_settle.specs.Known.{known_viewed};

    ghost view = { λ k. known_viewed k.lists.value };

    ghost invariant = { λ k. IsOrdered (known_viewed k.lists.value) };
}

/// What a parameter holds, with blocks of its own.
fn kind_owned(alloc: Global, kind: ParamKind<'_>) -> Result<KnownKind, Memory>
    ensures { IfOk result (λ own. kind_known own ≡ kind_viewed kind.entry) }
{
    match kind {
        ParamKind::Num => Ok(KnownKind::Num),
        ParamKind::Ret(blocks) => {
            let own = Vec::from_slice(alloc, blocks)?;
            Ok(KnownKind::Ret(Items::from_vec(own)))
        }
        ParamKind::RetTo(block) => {
            let own = Vec::from_slice(alloc, &[block])?;
            Ok(KnownKind::Ret(Items::from_vec(own)))
        }
    }
}

/// Parameters, with blocks of their own.
fn params_owned(alloc: Global, params: &[Param<'_>]) -> Result<Vec<KnownParam>, Memory>
    ensures { IfOk result (λ own. params_known own.items ≡ params_viewed params.now) }
{
    let mut own = Vec::with_capacity(alloc, params.len())?;
    for param in params {
        let kind = kind_owned(alloc, param.kind)?;
        own.push(KnownParam {
            number: param.number,
            kind,
        })?;
    }
    Ok(own)
}

/// What a parameter holds, lent.
fn kind_lent(kind: &KnownKind) -> ParamKind<'_>
    ensures { kind_viewed result ≡ kind_known kind.now }
{
    match kind {
        KnownKind::Num => ParamKind::Num,
        KnownKind::Ret(blocks) => ParamKind::Ret(blocks.as_slice()),
    }
}

/// The blocks of a return; none of a number.
fn blocks_of(kind: &KnownKind) -> &[u16]
    ensures { result.now ≡ return_blocks (Some (kind_known kind.now)) }
{
    match kind {
        KnownKind::Num => &[],
        KnownKind::Ret(blocks) => blocks.as_slice(),
    }
}

/// A parameter, lent.
fn param_lent(param: &KnownParam) -> Param<'_>
    ensures number { result.number ≡ param.now.number }
    ensures kind { kind_viewed result.kind ≡ kind_known param.now.kind }
{
    Param {
        number: param.number,
        kind: kind_lent(&param.kind),
    }
}

/// Parameters, lent.
fn params_lent<'k>(alloc: Global, params: &'k [KnownParam]) -> Result<Vec<Param<'k>>, Memory>
    ensures { IfOk result (λ lent. params_viewed lent.items ≡ params_known params.now) }
{
    params.iter().map(|p| param_lent(p)).collect(alloc)
}

/// The blocks of returns on either way.
fn returns_joined(
    alloc: Global,
    blocks: &Items<u16>,
    others: &[u16],
) -> Result<Option<KnownKind>, Memory>
    requires blocks { AllPairs (λ a b. a < b) blocks.now }
    requires others { AllPairs (λ a b. a < b) others.now }
    ensures { IfOk result (λ k. kind_in k ≡ Some (Ret (model.union_of blocks.now others.now))) }
{
    let all = united(alloc, blocks.as_slice(), others)?;
    Ok(Some(KnownKind::Ret(Items::from_vec(all))))
}

/// What a parameter holds on either way, if it holds a number on both, or a return on both.
fn kind_joined(
    alloc: Global,
    kind: &KnownKind,
    other: Option<ParamKind<'_>>,
) -> Result<Option<KnownKind>, Memory>
    requires kind { KindAscends (kind_known kind.now) }
    requires other { IfSome (option_map kind_viewed other) KindAscends }
    ensures { IfOk result (λ k. kind_in k ≡ kind_with kind.now other.entry) }
{
    match kind {
        KnownKind::Num => match other {
            Some(ParamKind::Num) => Ok(Some(KnownKind::Num)),
            Some(ParamKind::Ret(_) | ParamKind::RetTo(_)) | None => Ok(None),
        },
        KnownKind::Ret(blocks) => match other {
            Some(ParamKind::Ret(others)) => returns_joined(alloc, blocks, others),
            Some(ParamKind::RetTo(block)) => returns_joined(alloc, blocks, &[block]),
            Some(ParamKind::Num) | None => Ok(None),
        },
    }
}

/// Adds a parameter with what it holds by a row and by a state, where both have it.
fn push_joined(
    alloc: Global,
    all: &mut Vec<KnownParam>,
    param: &KnownParam,
    state: &State<'_>,
) -> Result<(), Memory>
    requires kind { KindAscends (kind_known param.now.kind) }
    requires state { IsOrdered state.now }
    ensures { IfOk result (λ _. AddsJoined param.now state.now all.old.items all.new.items) }
{
    let number = param.number;
    match kind_joined(alloc, &param.kind, state.kind_of(number))? {
        Some(kind) => {
            all.push(KnownParam { number, kind })?;
            Ok(())
        }
        None => Ok(()),
    }
}

/// The parameters of a row that a state has too, with what they hold on either way.
fn params_joined(
    alloc: Global,
    params: &[KnownParam],
    state: &State<'_>,
) -> Result<Vec<KnownParam>, Memory>
    requires params { AllPairs (λ (a b : KnownParam). a.number < b.number) params.now }
    requires kinds { All (λ (p : KnownParam). KindAscends (kind_known p.kind)) params.now }
    requires state { IsOrdered state.now }
    ensures { IfOk result (λ all. params_known all.items ≡ params_with params.now state.now) }
{
    let mut all = Vec::with_capacity(alloc, params.len())?;
    for param in params {
        push_joined(alloc, &mut all, param, state)?;
    }
    Ok(all)
}

/// Adds so many units of an entity, if there are any.
fn push_units(all: &mut Vec<Amount>, entity: u16, number: u64) -> Result<(), Memory>
    ensures { IfOk result (λ _. AddsUnits entity number all.old.items all.new.items) }
{
    if number == 0 {
        return Ok(());
    }
    all.push(Amount { entity, number })?;
    Ok(())
}

/// The units of an entity that a state holds; this place among them, from 0, is looked at first.
fn state_units_near(state: &State<'_>, place: usize, entity: u16) -> u64
    requires { IsOrdered state.now }
    ensures { result ≡ units_of state.now entity }
{
    units_near(state.units(), place, entity)
}

/// The lesser of the units of a row and of a state, of each entity of which both have some.
fn units_joined(alloc: Global, units: &[Amount], state: &State<'_>) -> Result<Vec<Amount>, Memory>
    requires units { AmountsAscend units.now }
    requires state { IsOrdered state.now }
    ensures { IfOk result (λ all. amounts_of all.items ≡ units_with units.now state.now) }
{
    let mut all = Vec::with_capacity(alloc, units.len())?;
    for i in 0..units.len() {
        let entity = units[i].entity;
        let number = units[i].number.min(state_units_near(state, i, entity));
        push_units(&mut all, entity, number)?;
    }
    Ok(all)
}

/// What a number is once it has fallen so many times by as much as to the next.
pub(crate) fn number_after(number: u64, next: u64, times: u64) -> u64
    ensures { result ≡ jumps.number_after times number next }
{
    number.saturating_sub(times.saturating_mul(number.saturating_sub(next)))
}

/// Units once they have fallen so many times by as much as to the next row.
fn units_after(
    alloc: Global,
    units: &[Amount],
    next: &Known,
    times: u64,
) -> Result<Vec<Amount>, Memory>
    requires { AmountsAscend units.now }
    ensures { IfOk result (λ us. amounts_of us.items ≡ held_units_after times units.now next.now) }
{
    let mut all = Vec::with_capacity(alloc, units.len())?;
    for i in 0..units.len() {
        let entity = units[i].entity;
        let number = number_after(units[i].number, next.units_near(i, entity), times);
        push_units(&mut all, entity, number)?;
    }
    Ok(all)
}

/// Parameters, facilities and units as the lists of a row.
fn lists_of(params: Vec<KnownParam>, facilities: Vec<u16>, units: Vec<Amount>) -> Lists
    ensures params { result.params ≡ params.items }
    ensures facilities { result.facilities ≡ facilities.items }
    ensures units { result.units ≡ units.items }
{
    Lists {
        params: Items::from_vec(params),
        facilities: Items::from_vec(facilities),
        units: Items::from_vec(units),
    }
}

impl Known {
    /// The row of these lists.
    fn of_lists(alloc: Global, lists: Lists) -> Result<Known, Memory>
        requires { IsOrdered (known_viewed lists) }
        ensures { IfOk result (λ row. row ≡ known_viewed lists) }
    {
        match Rc::new(alloc, lists) {
            Ok(lists) => Ok(Known { lists }),
            Err(_) => Err(AllocError),
        }
    }

    /// The row that says what a state says.
    pub(crate) fn of(alloc: Global, state: &State<'_>) -> Result<Known, Memory>
        ensures { IfOk result (λ row. row ≡ state.now) }
    {
        let params = params_owned(alloc, state.params())?;
        let facilities = Vec::from_slice(alloc, state.facilities())?;
        let units = Vec::from_slice(alloc, state.units())?;
        Known::of_lists(alloc, lists_of(params, facilities, units))
    }

    /// The row of which nothing is known, but that no facility is owned.
    pub(crate) fn nothing(alloc: Global) -> Result<Known, Memory>
        ensures { IfOk result (λ row. row ≡ nothing_known) }
    {
        let lists = lists_of(Vec::new(alloc), Vec::new(alloc), Vec::new(alloc));
        Known::of_lists(alloc, lists)
    }

    /// This row once more; its lists are shared.
    pub(crate) fn share(&self) -> Result<Known, Memory>
        ensures { IfOk result (λ row. row ≡ self.now) }
    {
        Ok(Known {
            lists: self.lists.clone()?,
        })
    }

    /// The state that this row says; its blocks of returns are lent.
    pub(crate) fn lent(&self, alloc: Global) -> Result<State<'_>, Memory>
        ensures { IfOk result (λ state. state ≡ self.now) }
    {
        let lists = self.lists.as_ref();
        let params = params_lent(alloc, lists.params.as_slice())?;
        let owned = Vec::from_slice(alloc, lists.facilities.as_slice())?;
        let held = Vec::from_slice(alloc, lists.units.as_slice())?;
        Ok(State::of_lists(params, owned, held))
    }

    /// Whether a state has at least what this row knows of parameters and units.
    pub(crate) fn knows_no_more(&self, alloc: Global, state: &State<'_>) -> Result<bool, Memory>
        ensures { IfOk result (λ yes. yes ≡ model.is_within state.now self.now) }
    {
        let row = self.lent(alloc)?;
        Ok(state.has_params_of(&row) && state.has_units_of(&row))
    }

    /// What is known by this row and by a state; the facilities are the row's.
    pub(crate) fn joined(&self, alloc: Global, state: &State<'_>) -> Result<Known, Memory>
        ensures { IfOk result (λ row. row ≡ model.join_rows self.now state.now) }
    {
        state.params();
        let lists = self.lists.as_ref();
        let params = params_joined(alloc, lists.params.as_slice(), state)?;
        let facilities = Vec::from_slice(alloc, lists.facilities.as_slice())?;
        let units = units_joined(alloc, lists.units.as_slice(), state)?;
        Known::of_lists(alloc, lists_of(params, facilities, units))
    }

    /// This row once its amounts have fallen so many times by as much as to the next row.
    pub(crate) fn after(&self, alloc: Global, next: &Known, times: u64) -> Result<Known, Memory>
        ensures { IfOk result (λ row. row ≡ jumps.row_after times self.now next.now) }
    {
        let lists = self.lists.as_ref();
        let params = params_lent(alloc, lists.params.as_slice())?;
        let owned = Vec::from_slice(alloc, lists.facilities.as_slice())?;
        let units = units_after(alloc, lists.units.as_slice(), next, times)?;
        Known::of(alloc, &State::of_lists(params, owned, units))
    }

    /// The parameters that are sure to be set, ascending.
    pub(crate) fn params(&self) -> &[KnownParam]
        ensures value { params_known result.now ≡ self.now.params }
        ensures ordered { IsOrdered self.now }
    {
        self.lists.as_ref().params.as_slice()
    }

    /// The blocks to which a parameter may return, ascending; none where it holds no return.
    pub(crate) fn callers(&self, parameter: u8) -> &[u16]
        ensures { result.now ≡ return_blocks (kind_of self.now parameter) }
    {
        let params = self.lists.as_ref().params.as_slice();
        for i in 0..params.len() {
            if params[i].number == parameter {
                return blocks_of(&params[i].kind);
            }
        }
        &[]
    }

    /// The facilities that are owned, ascending.
    pub(crate) fn facilities(&self) -> &[u16]
        ensures { result.now ≡ self.now.facilities }
    {
        self.lists.as_ref().facilities.as_slice()
    }

    /// The units of a storage or queue that are sure to be held; this place among them, from 0, is looked at first.
    pub(crate) fn units_near(&self, place: usize, entity: u16) -> u64
        ensures { result ≡ units_of self.now entity }
    {
        units_near(self.lists.as_ref().units.as_slice(), place, entity)
    }

    /// The units of a storage or queue that are sure to be held.
    pub(crate) fn units_of(&self, entity: u16) -> u64
        ensures { result ≡ units_of self.now entity }
    {
        self.units_near(0, entity)
    }

    /// The units that are sure to be held, ascending by entity.
    pub(crate) fn units(&self) -> &[Amount]
        ensures { amounts_of result.now ≡ self.now.units }
    {
        self.lists.as_ref().units.as_slice()
    }
}
