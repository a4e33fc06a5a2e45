//! The rows of a state table, as checks work with them: by the numbers of return rows.

ghost use Rattle.std.specs.Prelude.{◌≡◌, IfOk, IfSome, All, option_copied};
ghost use Rattle.gw_object.specs.Grammar.{StateFits, IsAscending, HasSpelling};
ghost use Rattle.gw_rules.specs.Kinds.{for_chain};
ghost use Rattle.gw_rules.specs.Flow as model;
ghost use Rattle.gw_flow.specs.Known.{row_by, CarriesRow, CarryRows};
ghost use Rattle.gw_flow.specs.ViewedTable.{table_viewed};

use crate::abstract_state::AbsState;
use gw_object::{Entity, Memory, Parts, TableState};
use gw_returns::Inclusions;
use gw_rules::{Target, chain_place};
use std::alloc::Global;

/// A row of an object, if there is one.
fn own_row(alloc: Global, row: &Option<TableState>) -> Result<Option<AbsState>, Memory>
    requires limits { IfSome row.now StateFits }
    requires ascending { IfSome row.now IsAscending }
    ensures { IfOk result (λ state. CarriesRow state row.now) }
{
    match row {
        None => Ok(None),
        Some(row) => Ok(Some(AbsState::of_row(alloc, row)?)),
    }
}

/// The rows of an object for these states, in order.
fn own_rows(alloc: Global, states: &[Option<TableState>]) -> Result<Vec<Option<AbsState>>, Memory>
    requires limits { All (λ row. IfSome row StateFits) states.now }
    requires ascending { All (λ row. IfSome row IsAscending) states.now }
    ensures { IfOk result (λ rows. CarryRows rows.items states.now) }
{
    let mut rows = Vec::with_capacity(alloc, states.len())?;
    for state in states {
        rows.push(own_row(alloc, state)?)?;
    }
    Ok(rows)
}

/// The rows of an object's table.
#[derive(Drop)]
pub(crate) struct OwnRows {
    /// Those of its blocks, in order.
    pub blocks: Vec<Option<AbsState>>,
    /// Those of its user chains, in order.
    pub chains: Vec<Option<AbsState>>,
}

/// The rows of an object's blocks, and those of its user chains, each in order.
pub(crate) fn rows_of(alloc: Global, parts: &Parts) -> Result<OwnRows, Memory>
    requires spelled { HasSpelling parts.now }
    ensures blocks { IfOk result (λ rows. CarryRows rows.blocks.items parts.now.states) }
    ensures chains { IfOk result (λ rows. CarryRows rows.chains.items parts.now.chain_states) }
{
    Ok(OwnRows {
        blocks: own_rows(alloc, parts.states.as_slice())?,
        chains: own_rows(alloc, parts.chain_states.as_slice())?,
    })
}

/// The row of the block of this number, from 1.
fn row_at(rows: &[Option<AbsState>], number: u16) -> Option<&AbsState>
    ensures { option_copied result ≡ model.row_at rows.now number }
{
    if number == 0 {
        return None;
    }
    rows.get(number as usize - 1)?.as_ref()
}

/// The row of the user chain that is the entity of this number, from 0, among those of all.
fn row_for_chain<'r>(
    entities: &[Entity],
    rows: &'r [Option<AbsState>],
    entity: u16,
) -> Option<&'r AbsState>
    ensures { option_copied result ≡ for_chain entities.now rows.now entity }
{
    rows.get(chain_place(entities, entity))?.as_ref()
}

/// A state table: what is known of a transaction that is about to go to a target.
#[derive(Clone, Copy)]
pub(crate) struct StateTable<'r, 'a> {
    /// The return rows that its rows name.
    pub returns: &'r Inclusions<'a>,
    /// The rows of the blocks, in order.
    pub blocks: &'r [Option<AbsState>],
    /// The entities.
    pub entities: &'r [Entity],
    /// The rows of those that are user chains, in order.
    pub chains: &'r [Option<AbsState>],
}

impl<'r, 'a> StateTable<'r, 'a> {
    /// The row of a target, if it has one.
    pub(crate) fn row(self, target: Target) -> Option<&'r AbsState>
        ensures { row_by self.entry.returns.now result ≡ table_viewed self.entry target }
    {
        match target {
            Target::Block(number) => row_at(self.blocks, number),
            Target::Chain(entity) => row_for_chain(self.entities, self.chains, entity),
        }
    }
}
