//! The checks of flow, in order.

ghost use Rattle.std.specs.Prelude.{◌≡◌, ◌≤◌, All, length};
ghost use Rattle.gw_object.specs.Grammar.{AreAscending, HasSpelling};
ghost use Rattle.gw_rules.specs.Pass.{KindsPass};
ghost use Rattle.gw_rules.specs.Rows.{HasRoom};
ghost use Rattle.gw_rules.specs.Flow as model;
ghost use Rattle.gw_rules.specs.Flow.{MayFind};
ghost use Rattle.gw_rules.specs.Seen.{HaveNext};
ghost use Rattle.gw_flow.specs.Known.{known_row};
ghost use Rattle.gw_flow.specs.ViewedTable.{table_viewed, HaveRoom, checks_by, checks_in_row};
ghost use Rattle.gw_flow.specs.ReturnEdges.{PassesBy, GoesBy, way_back_checks};

use crate::abstract_state::AbsState;
use crate::flow::{OUT_OF_MEMORY, passed};
use crate::leaving::check_edges;
use crate::lookups::Carried;
use crate::return_edges::{Return, is_like_latest, return_of};
use crate::rules::{check_rules, check_without_row};
use crate::table::{StateTable, rows_of};
use gw_object::{Block, Fault, Object, Parts};
use gw_returns::Inclusions;
use gw_rules::Target;
use std::alloc::{AllocError, Global};

/// The first fault of the block of this number in a state, if there is one.
fn check_in(
    alloc: Global,
    parts: &Parts,
    table: StateTable<'_, '_>,
    number: u16,
    block: &Block,
    state: &AbsState,
) -> Result<(), Fault>
    requires number { number ≤ 4096 }
    requires returns { All AreAscending table.returns.now }
    requires room { HasRoom (known_row table.returns.now state.now) }
    ensures { MayFind result (checks_by parts.now table.entry number block.now state.now) }
{
    let returns = table.returns.rows();
    check_rules(parts, number, block, &Carried { state, returns })?;
    match passed(alloc, returns, number, block, state) {
        Ok(passed) => check_edges(alloc, table, number, block, state, &passed),
        Err(AllocError) => Err(OUT_OF_MEMORY),
    }
}

/// The first fault of a TRANSFER in parameter mode in a state, if there is one; and what it passes by, behind the earlier ones.
fn check_way_back<'r>(
    alloc: Global,
    parts: &Parts,
    table: StateTable<'r, '_>,
    number: u16,
    parameter: u8,
    this: Return<'r>,
    earlier: &mut Vec<Return<'r>>,
) -> Result<(), Fault>
    requires number { number ≤ 4096 }
    requires returns { All AreAscending table.returns.now }
    requires room { HasRoom (known_row table.returns.now this.state.now) }
    requires held { GoesBy table parameter this }
    requires pass { All (PassesBy table) earlier.old.items }
    ensures found { MayFind result (way_back_checks parts.now table.entry number parameter this.entry) }
    ensures pass { All (PassesBy table.entry) earlier.new.items }
{
    if is_like_latest(table, this, earlier) {
        return Ok(());
    }
    let block = Block::TransferByParameter(parameter);
    check_in(alloc, parts, table, number, &block, this.state)?;
    match earlier.push(this) {
        Ok(()) => Ok(()),
        Err(_) => Err(OUT_OF_MEMORY),
    }
}

/// The first fault of the block of this number in a state, if there is one. Of a TRANSFER in parameter mode what it passes by
/// comes behind the earlier ones.
fn check_with_row<'r>(
    alloc: Global,
    parts: &Parts,
    table: StateTable<'r, '_>,
    number: u16,
    block: &Block,
    state: &'r AbsState,
    earlier: &mut Vec<Return<'r>>,
) -> Result<(), Fault>
    requires number { number ≤ 4096 }
    requires returns { All AreAscending table.returns.now }
    requires room { HasRoom (known_row table.returns.now state.now) }
    requires pass { All (PassesBy table) earlier.old.items }
    ensures found { MayFind result
        (checks_by parts.now table.entry number block.now state.now) }
    ensures pass { All (PassesBy table.entry) earlier.new.items }
{
    if let Block::TransferByParameter(parameter) = block {
        if let Some(this) = return_of(*parameter, state) {
            return check_way_back(alloc, parts, table, number, *parameter, this, earlier);
        }
    }
    check_in(alloc, parts, table, number, block, state)
}

/// The first fault of the block of this number in its row of a table, if there is one. Of a TRANSFER in parameter mode what it
/// passes by comes behind the earlier ones.
fn check_block<'r>(
    alloc: Global,
    parts: &Parts,
    table: StateTable<'r, '_>,
    number: u16,
    block: &Block,
    earlier: &mut Vec<Return<'r>>,
) -> Result<(), Fault>
    requires number { number ≤ 4096 }
    requires returns { All AreAscending table.returns.now }
    requires room { HaveRoom (table_viewed table) }
    requires pass { All (PassesBy table) earlier.old.items }
    ensures found { MayFind result (checks_in_row parts.now table.entry number block.now) }
    ensures pass { All (PassesBy table.entry) earlier.new.items }
{
    match table.row(Target::Block(number)) {
        Some(state) => check_with_row(alloc, parts, table, number, block, state, earlier),
        None => check_without_row(parts, number, block),
    }
}

/// The first fault of the blocks with this table, if there is one.
#[tactic(auto, unfolding(gw_rules::specs::Flow::flow_checks))]
fn check_blocks(alloc: Global, parts: &Parts, table: StateTable<'_, '_>) -> Result<(), Fault>
    requires few { length parts.now.blocks ≤ 4096 }
    requires returns { All AreAscending table.returns.now }
    requires room { HaveRoom (table_viewed table) }
    ensures { MayFind result (model.flow_checks parts.now (table_viewed table.entry)) }
{
    let blocks = parts.blocks.as_slice();
    let mut earlier = Vec::new(alloc);
    for i in 0..blocks.len() {
        check_block(
            alloc,
            parts,
            table,
            (i + 1) as u16,
            &blocks[i],
            &mut earlier,
        )?;
    }
    Ok(())
}

/// The first fault of the blocks of an object with its own table, whose return rows are given with their inclusions, if there
/// is one.
fn check_by(alloc: Global, parts: &Parts, returns: &Inclusions<'_>) -> Result<(), Fault>
    requires returns { returns.now ≡ parts.now.returns }
    requires spelled { HasSpelling parts.now }
    requires next { HaveNext parts.now.returns }
    ensures { MayFind result (model.flow_checks parts.now (model.own_table parts.now)) }
{
    match rows_of(alloc, parts) {
        Ok(rows) => {
            let table = StateTable {
                returns,
                blocks: &rows.blocks,
                entities: parts.entities.as_slice(),
                chains: &rows.chains,
            };
            check_blocks(alloc, parts, table)
        }
        Err(AllocError) => Err(OUT_OF_MEMORY),
    }
}

/// Accepts an object exactly where flow holds of it and its own state table: each GENERATE has a row, the rules of each
/// block with a row hold in it, and what is known of a transaction where it goes on to fits the row there. Else the first
/// fault: the blocks in ascending order, and of one block its rules and then its edges in order: 20 UnsetParam,
/// 21 AlreadyOwned, 22 NotOwner, 23 TooFewUnits, 24 OwnsAtEnd, 25 EdgeState, 26 ChainState of a LINK's edge to its user
/// chain and of the edge on which an UNLINK sends the chain's members, 27 ParamKind, 28 OverCapacity (ours:
/// docs/refusals.md); or 8 Memory at Nowhere where memory runs out. Kinds have to pass before.
pub fn check_flow(alloc: Global, object: &Object) -> Result<(), Fault>
    requires kinds { KindsPass object.now }
    ensures { MayFind result (model.flow_checks object.now (model.own_table object.now)) }
{
    let parts = object.parts();
    let bound = parts.blocks.as_slice().len() + 1;
    match Inclusions::of(alloc, parts.returns.as_slice(), bound) {
        Ok(returns) => check_by(alloc, parts, &returns),
        Err(AllocError) => Err(OUT_OF_MEMORY),
    }
}
