//! Checks of where transactions go on from a block: whether what is known of them there fits the row of the target.

ghost use Rattle.std.specs.Prelude.{◌≡◌, ◌≤◌};
ghost use Rattle.gw_rules.specs.Blocks.{known_of, edge_along, edges_along, edges_from, edges_of, chain_edges};
ghost use Rattle.gw_rules.specs.Flow.{fits_row as row_fits};
ghost use Rattle.gw_flow.specs.Answered.{HasPassed};
ghost use Rattle.gw_rules.specs.Rows.{fits as fits_of, parameters_alone, HasRoom};
ghost use Rattle.gw_flow.specs.Known.{known_row, row_by};
ghost use Rattle.gw_flow.specs.ViewedTable.{FindsMisfit, MayFindMisfit};

use crate::abstract_state::AbsState;
use crate::edges::exits_of_return;
use crate::fits::{has_parameters, has_units};
use crate::flow::OUT_OF_MEMORY;
use crate::lookups::{Carried, Lookups};
use crate::table::StateTable;
use gw_object::{Block, Fault, Place};
use gw_returns::Inclusions;
use gw_rules::flow_codes::{CHAIN_STATE, EDGE_STATE};
use gw_rules::{Exit, Target, Who, check, exits, is_used, leads_to};
use std::alloc::{AllocError, Global};

/// Whether a state fits a row: it has at least the row's parameters, exactly its facilities, and at least its units.
pub(crate) fn fits(by: &Inclusions<'_>, state: &AbsState, row: &AbsState) -> bool
    ensures { result ≡ fits_of (known_row by.now state.now) (known_row by.now row.now) }
{
    let held = state.parts();
    let asked = row.parts();
    has_parameters(by, held.parameters.as_slice(), asked.parameters.as_slice())
        && held.facilities.as_slice() == asked.facilities.as_slice()
        && has_units(held.units.as_slice(), asked.units.as_slice())
}

/// Whether a copy of a transaction in a state fits a row: it owns and holds nothing.
fn copy_fits(by: &Inclusions<'_>, state: &AbsState, row: &AbsState) -> bool
    ensures { result ≡ fits_of (parameters_alone (known_row by.now state.now)) (known_row by.now row.now) }
{
    let none: &[u16] = &[];
    let asked = row.parts();
    has_parameters(
        by,
        state.parts().parameters.as_slice(),
        asked.parameters.as_slice(),
    ) && none == asked.facilities.as_slice()
        && has_units(&[], asked.units.as_slice())
}

/// Whether there is a row, and who goes on fits it, of a transaction in a state.
fn fits_row(by: &Inclusions<'_>, who: Who, state: &AbsState, row: Option<&AbsState>) -> bool
    ensures { result ≡ row_fits (known_of who (known_row by.now state.now)) (row_by by.now row.entry) }
{
    match row {
        Some(row) => match who {
            Who::Itself => fits(by, state, row),
            Who::Copies(_) => copy_fits(by, state, row),
        },
        None => false,
    }
}

/// The fault of an exit of the block of this number, of a transaction that has passed it, if there is one.
fn check_exit(
    table: StateTable<'_, '_>,
    number: u16,
    exit: Exit,
    passed: &AbsState,
) -> Result<(), Fault>
    requires { number ≤ 4096 }
    ensures { FindsMisfit table.entry number (λ _ s. edge_along number s exit) passed.now result }
{
    if !is_used(exit.who) {
        return Ok(());
    }
    let to = leads_to(number, exit.way);
    let row = table.row(Target::Block(to));
    let fits = fits_row(table.returns, exit.who, passed, row);
    check(EDGE_STATE, Place::Edge(number, to), fits)
}

/// The first fault of these exits of the block of this number, of a transaction that has passed it, if there is one.
fn check_exits(
    table: StateTable<'_, '_>,
    number: u16,
    exits: &[Exit],
    passed: &AbsState,
) -> Result<(), Fault>
    requires { number ≤ 4096 }
    ensures { FindsMisfit table.entry number (λ _. edges_along number exits.now) passed.now result }
{
    for exit in exits {
        check_exit(table, number, *exit, passed)?;
    }
    Ok(())
}

/// The first fault of the edges to blocks of the block of this number in a state, of those who have passed it, if there is one.
fn check_moves(
    alloc: Global,
    table: StateTable<'_, '_>,
    number: u16,
    block: &Block,
    state: &AbsState,
    passed: &AbsState,
) -> Result<(), Fault>
    requires number { number ≤ 4096 }
    requires room { HasRoom (known_row table.returns.now state.now) }
    requires passed { HasPassed table.returns.now number block.now state.now passed.now }
    ensures { MayFindMisfit table.entry number (λ _. edges_from number block.now) state.now result }
{
    match block {
        Block::TransferByParameter(parameter) => {
            let returns = table.returns.rows();
            let carried = Carried { state, returns };
            match exits_of_return(alloc, carried.kind_of(*parameter)) {
                Ok(exits) => check_exits(table, number, &exits, passed),
                Err(AllocError) => Err(OUT_OF_MEMORY),
            }
        }
        _ => check_exits(table, number, &exits(block), passed),
    }
}

/// The fault of the edge of the block of this number to a user chain or from one, in a state, if there is one: of who joins
/// the user chain, if it is a LINK; of the members whom it sends on, if it is an UNLINK, and they have a row.
fn check_chains(
    table: StateTable<'_, '_>,
    number: u16,
    block: &Block,
    state: &AbsState,
) -> Result<(), Fault>
    ensures { FindsMisfit table.entry number (λ t. chain_edges t block.now) state.now result }
{
    match block {
        Block::Link(link) => {
            let row = table.row(Target::Chain(link.chain));
            let fits = fits_row(table.returns, Who::Itself, state, row);
            check(CHAIN_STATE, Place::Edge(number, number), fits)
        }
        Block::Unlink(unlink) => match table.row(Target::Chain(unlink.chain)) {
            Some(members) => {
                let row = table.row(Target::Block(unlink.target));
                let fits = fits_row(table.returns, Who::Itself, members, row);
                check(CHAIN_STATE, Place::Edge(number, unlink.target), fits)
            }
            None => Ok(()),
        },
        _ => Ok(()),
    }
}

/// The first fault of the edges of the block of this number in a state, where this is known of those who have passed it, if
/// there is one.
pub(crate) fn check_edges(
    alloc: Global,
    table: StateTable<'_, '_>,
    number: u16,
    block: &Block,
    state: &AbsState,
    passed: &AbsState,
) -> Result<(), Fault>
    requires number { number ≤ 4096 }
    requires room { HasRoom (known_row table.returns.now state.now) }
    requires passed { HasPassed table.returns.now number block.now state.now passed.now }
    ensures { MayFindMisfit table.entry number (λ t. edges_of t number block.now) state.now result }
{
    check_moves(alloc, table, number, block, state, passed)?;
    check_chains(table, number, block, state)
}
