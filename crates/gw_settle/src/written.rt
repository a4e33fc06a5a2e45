//! The state table as an object has it: its sets of blocks as return rows.

ghost use Rattle.std.specs.Prelude.{◌≡◌, ◌<◌, ◌≤◌, ◌++◌, ◌∷◌, [], IfOk, IfErr, IfSome, is_some, length, option_map};
ghost use Rattle.gw_rules.specs.Seen.{row_blocks, kind_said, params_said, units_seen, row_meaning, seen_rows};
ghost use Rattle.gw_flow.specs.Known.{amounts_of};
ghost use Rattle.gw_settle.specs.Known.{kind_known, params_known};
ghost use Rattle.gw_settle.specs.Numbers.{sets_of, has_set, AddsSet, AddsKind, AddsParams, AddsRow, AddsRows, MayAddSet, MayAddKind, MayAddParams, MayAddRow, MayAddRows, MayNameKind, MayNameParams};
ghost use Rattle.gw_settle.specs.Rounds.{rows_of};
ghost use Rattle.gw_settle.specs.Written.{NamesRow, NamesRows, ParamsName, StatesName, SaysRows, AmountsFit, RowFits, RowsFit, CanBeWritten, StopsUnless};
ghost use Rattle.gw_settle.specs.declared.written.Stop.TheVariants as stops;

use crate::known::{Known, KnownKind, KnownParam};
use gw_flow::Amount;
use gw_object::{
    GREATEST_UNITS, Items, MOST_RETURN_ROWS, Memory, ReturnRow, TableKind, TableParameter,
    TableState, Units,
};
use std::alloc::{AllocError, Global};

/// Why a state table can't be written.
#[derive(Clone, Copy, PartialEq, Eq)]
pub(crate) enum Stop {
    /// It passes a limit of the object format.
    Limit,
    /// Memory ran out.
    Memory,
}

impl From<AllocError> for Stop {
    ghost from_gives = { λ _ stop. stop ≡ stops.Memory };

    fn from(_: AllocError) -> Stop {
        Stop::Memory
    }
}

/// A state table, as an object has it.
#[derive(Drop)]
pub struct Written {
    /// The return rows.
    pub returns: Items<ReturnRow>,
    /// The rows of the blocks.
    pub states: Items<Option<TableState>>,
    /// The rows of the user chains.
    pub chain_states: Items<Option<TableState>>,
}

/// Adds an element behind others.
fn push<T: Drop>(all: &mut Vec<T>, item: T) -> Result<(), Memory>
    ensures { IfOk result (λ _. all.new.items ≡ all.old.items ++ item ∷ []) }
{
    all.push(item)?;
    Ok(())
}

/// The number of the return row of these blocks, if there is one.
fn row_number(returns: &[ReturnRow], blocks: &Items<u16>) -> Option<usize>
    ensures found { IfSome result (λ i. row_blocks returns.now i ≡ blocks.now) }
    ensures within { IfSome result (λ i. i < length returns.now) }
    ensures exactly { is_some result ≡ has_set (sets_of returns.now) blocks.now }
{
    for i in 0..returns.len() {
        if returns[i].blocks.as_slice() == blocks.as_slice() {
            return Some(i);
        }
    }
    None
}

/// The return rows with one of these blocks.
fn add_row(alloc: Global, returns: &mut Vec<ReturnRow>, blocks: &Items<u16>) -> Result<(), Stop>
    requires { length returns.old.items ≤ 4096 }
    ensures sets { IfOk result (λ _. AddsSet blocks.now returns.old.items returns.new.items) }
    ensures few { IfOk result (λ _. length returns.new.items ≤ 4096) }
    ensures stops { IfErr result (StopsUnless (MayAddSet blocks.now returns.old.items)) }
{
    if row_number(returns, blocks).is_some() {
        return Ok(());
    }
    if returns.len() == MOST_RETURN_ROWS {
        return Err(Stop::Limit);
    }
    let own = Vec::from_slice(alloc, blocks.as_slice())?;
    let blocks = Items::from_vec(own);
    push(returns, ReturnRow { blocks })?;
    Ok(())
}

/// The return rows with that of what a parameter holds, if it holds a return.
fn add_kind(alloc: Global, returns: &mut Vec<ReturnRow>, kind: &KnownKind) -> Result<(), Stop>
    requires { length returns.old.items ≤ 4096 }
    ensures sets { IfOk result (λ _. AddsKind kind.now returns.old.items returns.new.items) }
    ensures few { IfOk result (λ _. length returns.new.items ≤ 4096) }
    ensures stops { IfErr result (StopsUnless (MayAddKind kind.now returns.old.items)) }
{
    match kind {
        KnownKind::Num => Ok(()),
        KnownKind::Ret(blocks) => add_row(alloc, returns, blocks),
    }
}

/// The return rows with those of these parameters.
fn add_params(
    alloc: Global,
    returns: &mut Vec<ReturnRow>,
    params: &[KnownParam],
) -> Result<(), Stop>
    requires { length returns.old.items ≤ 4096 }
    ensures sets { IfOk result (λ _. AddsParams params.now returns.old.items returns.new.items) }
    ensures few { IfOk result (λ _. length returns.new.items ≤ 4096) }
    ensures stops { IfErr result (StopsUnless (MayAddParams params.now returns.old.items)) }
{
    for param in params {
        add_kind(alloc, returns, &param.kind)?;
    }
    Ok(())
}

/// The return rows with those of a row of a state table, if there is one.
fn add_state(alloc: Global, returns: &mut Vec<ReturnRow>, row: &Option<Known>) -> Result<(), Stop>
    requires { length returns.old.items ≤ 4096 }
    ensures sets { IfOk result (λ _. AddsRow row.now returns.old.items returns.new.items) }
    ensures few { IfOk result (λ _. length returns.new.items ≤ 4096) }
    ensures stops { IfErr result (StopsUnless (MayAddRow row.now returns.old.items)) }
{
    match row {
        Some(row) => add_params(alloc, returns, row.params()),
        None => Ok(()),
    }
}

/// The return rows with those of these rows of a state table.
fn add_states(
    alloc: Global,
    returns: &mut Vec<ReturnRow>,
    rows: &[Option<Known>],
) -> Result<(), Stop>
    requires { length returns.old.items ≤ 4096 }
    ensures sets { IfOk result (λ _. AddsRows rows.now returns.old.items returns.new.items) }
    ensures few { IfOk result (λ _. length returns.new.items ≤ 4096) }
    ensures stops { IfErr result (StopsUnless (MayAddRows rows.now returns.old.items)) }
{
    for row in rows {
        add_state(alloc, returns, row)?;
    }
    Ok(())
}

/// What a parameter holds, by the return rows.
fn kind_written(returns: &[ReturnRow], kind: &KnownKind) -> Result<TableKind, Stop>
    requires { length returns.now ≤ 4096 }
    ensures said { IfOk result (λ k. kind_said returns.now k ≡ kind_known kind.now) }
    ensures number { IfOk result (NamesRow (length returns.now)) }
    ensures stops { IfErr result (StopsUnless (MayNameKind kind.now returns.now)) }
{
    match kind {
        KnownKind::Num => Ok(TableKind::Num),
        KnownKind::Ret(blocks) => match row_number(returns, blocks) {
            Some(number) => Ok(TableKind::Ret(number as u16)),
            None => Err(Stop::Limit),
        },
    }
}

/// Parameters, by the return rows.
fn params_written(
    alloc: Global,
    returns: &[ReturnRow],
    params: &[KnownParam],
) -> Result<Vec<TableParameter>, Stop>
    requires { length returns.now ≤ 4096 }
    ensures said { IfOk result (λ ps. params_said returns.now ps.items ≡ params_known params.now) }
    ensures numbers { IfOk result (λ all. ParamsName (length returns.now) all.items) }
    ensures stops { IfErr result (StopsUnless (MayNameParams params.now returns.now)) }
{
    let mut all = Vec::with_capacity(alloc, params.len())?;
    for param in params {
        let kind = kind_written(returns, &param.kind)?;
        let number = param.number;
        push(&mut all, TableParameter { number, kind })?;
    }
    Ok(all)
}

/// Units, where none are more than an object may have.
fn units_written(alloc: Global, units: &[Amount]) -> Result<Vec<Units>, Stop>
    ensures seen { IfOk result (λ all. units_seen all.items ≡ amounts_of units.now) }
    ensures stops { IfErr result (StopsUnless (AmountsFit (amounts_of units.now))) }
{
    let mut all = Vec::with_capacity(alloc, units.len())?;
    for amount in units {
        if amount.number > GREATEST_UNITS as u64 {
            return Err(Stop::Limit);
        }
        let entity = amount.entity;
        let number = amount.number as u32;
        push(&mut all, Units { entity, number })?;
    }
    Ok(all)
}

/// A row of a state table, by the return rows.
fn row_written(alloc: Global, returns: &[ReturnRow], row: &Known) -> Result<TableState, Stop>
    requires { length returns.now ≤ 4096 }
    ensures seen { IfOk result (λ state. row_meaning returns.now state ≡ row.now) }
    ensures numbers { IfOk result (λ state. NamesRows (length returns.now) state) }
    ensures stops { IfErr result (StopsUnless (RowFits (sets_of returns.now) row.now)) }
{
    let parameters = params_written(alloc, returns, row.params())?;
    let facilities = Vec::from_slice(alloc, row.facilities())?;
    let units = units_written(alloc, row.units())?;
    Ok(TableState {
        parameters: Items::from_vec(parameters),
        facilities: Items::from_vec(facilities),
        units: Items::from_vec(units),
    })
}

/// A row of a state table, if there is one.
fn state_written(
    alloc: Global,
    returns: &[ReturnRow],
    row: &Option<Known>,
) -> Result<Option<TableState>, Stop>
    requires { length returns.now ≤ 4096 }
    ensures seen { IfOk result (λ state. option_map (row_meaning returns.now) state ≡ row.now) }
    ensures numbers { IfOk result (λ state. IfSome state (NamesRows (length returns.now))) }
    ensures stops { IfErr result (StopsUnless (IfSome row.now (RowFits (sets_of returns.now)))) }
{
    match row {
        Some(row) => Ok(Some(row_written(alloc, returns, row)?)),
        None => Ok(None),
    }
}

/// Rows of a state table, by the return rows.
fn states_written(
    alloc: Global,
    returns: &[ReturnRow],
    rows: &[Option<Known>],
) -> Result<Vec<Option<TableState>>, Stop>
    requires { length returns.now ≤ 4096 }
    ensures seen { IfOk result (λ all. seen_rows returns.now all.items ≡ rows.now) }
    ensures numbers { IfOk result (λ all. StatesName (length returns.now) all.items) }
    ensures stops { IfErr result (StopsUnless (RowsFit (sets_of returns.now) rows.now)) }
{
    let mut all = Vec::with_capacity(alloc, rows.len())?;
    for row in rows {
        push(&mut all, state_written(alloc, returns, row)?)?;
    }
    Ok(all)
}

/// The state table of these rows, as an object has it.
pub(crate) fn table_written(
    alloc: Global,
    blocks: &[Option<Known>],
    chains: &[Option<Known>],
) -> Result<Written, Stop>
    ensures says { IfOk result (λ table. SaysRows table (rows_of blocks.now chains.now)) }
    ensures stops { IfErr result (StopsUnless (CanBeWritten (rows_of blocks.now chains.now))) }
{
    let mut returns = Vec::new(alloc);
    add_states(alloc, &mut returns, blocks)?;
    add_states(alloc, &mut returns, chains)?;
    let states = states_written(alloc, &returns, blocks)?;
    let chain_states = states_written(alloc, &returns, chains)?;
    Ok(Written {
        returns: Items::from_vec(returns),
        states: Items::from_vec(states),
        chain_states: Items::from_vec(chain_states),
    })
}
