//! The rows of a state table in the making, and what visits of blocks make of them.

ghost use Rattle.std.specs.Prelude.{◌≡◌, ◌≤◌, ◌<◌, ◌-◌, Some, IfOk, IsSome, All, length, slice_set};
ghost use Rattle.gw_rules.specs.Kinds.{block_at};
ghost use Rattle.gw_rules.specs.declared.edges.Target.TheVariants as targets;
ghost use Rattle.gw_rules.specs.Blocks.{FlowEdge as DeclaredEdge};
ghost use Rattle.gw_rules.specs.Rows.{HasRoom};
ghost use Rattle.gw_settle.specs.Drafts.{rows_held, table_in, members_at, with_members, AreNoted, IsWhole, MayVisit, IsRound, IsVisit, IsSending, AreSendings, NotesGoOn, Sends};
ghost use Rattle.gw_settle.specs.Keeps.{MayEnter, IsWell, AreSound};
ghost use Rattle.gw_settle.specs.Marks.{with_mark, UnlinksMarked, UnlinksFollow};
ghost use Rattle.gw_settle.specs.Versions.{without_version};
ghost use Rattle.gw_settle.specs.Jumps.{row_in};
ghost use Rattle.gw_settle.specs.Rounds as model;
ghost use Rattle.gw_settle.specs.Rounds.{sent_at, change_of};

use crate::draft::Draft;
use crate::known::Known;
use crate::passing::{behind_of, is_sent_already, visit_behind, visit_return};
use gw_flow::{State, check_rules, own_edges_of};
use gw_object::{Block, Memory, Parts};
use gw_rules::flow_codes::CHAIN_STATE;
use gw_rules::{FlowEdge, Target, chain_place};
use std::alloc::Global;
use std::mem;

/// What a state that is sent makes of the rows.
#[derive(Clone, Copy, PartialEq, Eq)]
pub(crate) enum Change {
    /// Nothing: what it says was known.
    Same,
    /// A row knows less than before.
    Less,
    /// A place has a row that had none.
    More,
}

/// Two changes, one after the other.
pub(crate) fn followed_by(first: Change, second: Change) -> Change
    ensures { result ≡ model.followed_by first second }
{
    match first {
        Change::Same => second,
        Change::Less => match second {
            Change::Same | Change::Less => Change::Less,
            Change::More => Change::More,
        },
        Change::More => Change::More,
    }
}

/// Puts a row at a place, from 0; the one that stood there is let go.
fn put_row(rows: &mut Vec<Option<Known>>, place: usize, row: Known)
    requires { place < length rows.old.items }
    ensures { rows.new.items ≡ slice_set rows.old.items place (Some row) }
{
    drop(mem::replace(&mut rows[place], Some(row)));
}

/// Sends a state to the row at a place, from 0.
pub(crate) fn send_at(
    alloc: Global,
    state: &State<'_>,
    place: usize,
    rows: &mut Vec<Option<Known>>,
) -> Result<Change, Memory>
    requires { place < length rows.old.items }
    ensures rows { IfOk result (λ _. rows.new.items ≡ sent_at state.now place rows.old.items) }
    ensures change { IfOk result (λ c. c ≡ change_of state.now (row_in rows.old.items place)) }
{
    match &rows[place] {
        None => {
            put_row(rows, place, Known::of(alloc, state)?);
            Ok(Change::More)
        }
        Some(row) => {
            if row.knows_no_more(alloc, state)? {
                return Ok(Change::Same);
            }
            let joined = row.joined(alloc, state)?;
            put_row(rows, place, joined);
            Ok(Change::Less)
        }
    }
}

/// Marks the block at a place, from 0, and takes its row's version away, if the row has changed.
pub(crate) fn note(change: Change, place: usize, marks: &mut Vec<bool>, versions: &mut Vec<u64>)
    requires marks { place < length marks.old.items }
    requires versions { place < length versions.old.items }
    ensures marks { marks.new.items ≡ with_mark change place marks.old.items }
    ensures versions { versions.new.items ≡ without_version change place versions.old.items }
{
    match change {
        Change::Same => {}
        Change::Less | Change::More => {
            marks[place] = true;
            versions[place] = 0;
        }
    }
}

/// Marks each UNLINK.
fn mark_unlinks(blocks: &[Block], marks: &mut Vec<bool>)
    requires { length marks.old.items ≡ length blocks.now }
    ensures { UnlinksMarked blocks.now marks.old.items marks.new.items }
{
    for i in 0..blocks.len() {
        if let Block::Unlink(_) = &blocks[i] {
            marks[i] = true;
        }
    }
}

/// Sends a state to the user chain at a place, from 0, and marks each UNLINK if its row has changed.
fn send_to_chain(
    alloc: Global,
    blocks: &[Block],
    state: &State<'_>,
    place: usize,
    chains: &mut Vec<Option<Known>>,
    marks: &mut Vec<bool>,
) -> Result<Change, Memory>
    requires place { place < length chains.old.items }
    requires marks { length marks.old.items ≡ length blocks.now }
    ensures rows { IfOk result (λ _. chains.new.items ≡ sent_at state.now place chains.old.items) }
    ensures change { IfOk result (λ c. c ≡ change_of state.now (row_in chains.old.items place)) }
    ensures marks { IfOk result (UnlinksFollow blocks.now marks.old.items marks.new.items) }
{
    let change = send_at(alloc, state, place, chains)?;
    if change != Change::Same {
        mark_unlinks(blocks, marks);
    }
    Ok(change)
}

/// Sends the state of an edge to its target, and marks the blocks that send something else then.
fn send(
    alloc: Global,
    parts: &Parts,
    edge: &FlowEdge<State<'_>>,
    draft: &mut Draft,
) -> Result<Change, Memory>
    requires enters { MayEnter parts.now edge.now.target }
    requires whole { IsWhole parts.now draft.old }
    ensures sent { IfOk result (IsSending parts.now edge.now draft.old draft.new) }
    ensures noted { IfOk result (λ _. NotesGoOn parts.now draft.old draft.new) }
{
    match edge.target {
        Target::Block(block) => {
            let place = block as usize - 1;
            let change = send_at(alloc, &edge.state, place, &mut draft.rows.blocks)?;
            note(change, place, &mut draft.marks, &mut draft.versions);
            Ok(change)
        }
        Target::Chain(chain) => {
            let place = chain_place(parts.entities.as_slice(), chain);
            let all = parts.blocks.as_slice();
            let change = send_to_chain(
                alloc,
                all,
                &edge.state,
                place,
                &mut draft.rows.chains,
                &mut draft.marks,
            )?;
            Ok(change)
        }
    }
}

/// Sends the states of edges to their targets, one after the other.
fn send_all(
    alloc: Global,
    parts: &Parts,
    edges: &[FlowEdge<State<'_>>],
    draft: &mut Draft,
) -> Result<Change, Memory>
    requires enter { All (λ (e : DeclaredEdge). MayEnter parts.now e.target) edges.now }
    requires whole { IsWhole parts.now draft.old }
    ensures sent { IfOk result (AreSendings parts.now edges.now draft.old draft.new) }
    ensures noted { IfOk result (λ _. NotesGoOn parts.now draft.old draft.new) }
{
    let mut change = Change::Same;
    for edge in edges {
        let next = send(alloc, parts, edge, draft)?;
        change = followed_by(change, next);
    }
    Ok(change)
}

/// The row at a place, from 0, once more, if there is one.
pub(crate) fn row_shared(rows: &[Option<Known>], place: usize) -> Result<Option<Known>, Memory>
    ensures { IfOk result (λ row. row ≡ row_in rows.now place) }
{
    match rows.get(place) {
        Some(Some(row)) => Ok(Some(row.share()?)),
        Some(None) | None => Ok(None),
    }
}

/// The row of the user chain from which a block sends members on, if it is an UNLINK, and there is one.
fn members_shared(parts: &Parts, block: &Block, draft: &Draft) -> Result<Option<Known>, Memory>
    ensures { IfOk result (λ row. row ≡ members_at parts.now draft.now block.now) }
{
    let Block::Unlink(unlink) = block else {
        return Ok(None);
    };
    row_shared(
        &draft.rows.chains,
        chain_place(parts.entities.as_slice(), unlink.chain),
    )
}

/// Adds the edge of the members whom a block sends on from their user chain, if it is an UNLINK, and they have a row.
fn push_members<'r>(
    alloc: Global,
    all: &mut Vec<FlowEdge<State<'r>>>,
    block: &Block,
    members: &'r Option<Known>,
) -> Result<(), Memory>
    ensures { IfOk result (λ _. all.new.items ≡ with_members all.old.items block.now members.now) }
{
    let Block::Unlink(unlink) = block else {
        return Ok(());
    };
    match members {
        Some(row) => {
            all.push(FlowEdge {
                code: CHAIN_STATE,
                target: Target::Block(unlink.target),
                state: row.lent(alloc)?,
            })?;
            Ok(())
        }
        None => Ok(()),
    }
}

/// The edges that the block of this number sends in a state, where its rules hold, with those of the members whom it sends
/// on from a user chain.
fn edges_sent<'r>(
    alloc: Global,
    parts: &Parts,
    number: u16,
    block: &Block,
    state: &State<'r>,
    members: &'r Option<Known>,
) -> Result<Vec<FlowEdge<State<'r>>>, Memory>
    requires number { number ≤ 4096 }
    requires room { HasRoom state.now }
    ensures { IfOk result (λ es. Sends parts.now number block.now state.now members.now es.items) }
{
    if check_rules(parts, number, block, state).is_err() {
        return Ok(Vec::new(alloc));
    }
    let mut edges = own_edges_of(alloc, number, block, state)?;
    push_members(alloc, &mut edges, block, members)?;
    Ok(edges)
}

/// The edges that the block of this number sends in its row, where its rules hold, with those of the members whom it sends
/// on from a user chain.
fn edges_in<'r>(
    alloc: Global,
    parts: &Parts,
    number: u16,
    block: &Block,
    row: &'r Known,
    members: &'r Option<Known>,
) -> Result<Vec<FlowEdge<State<'r>>>, Memory>
    requires number { number ≤ 4096 }
    requires room { HasRoom row.now }
    ensures { IfOk result (λ es. Sends parts.now number block.now row.now members.now es.items) }
{
    let state = row.lent(alloc)?;
    let edges = edges_sent(alloc, parts, number, block, &state, members);
    drop(state);
    edges
}

/// The block of this number, from 1, that is there.
fn block_of(parts: &Parts, number: u16) -> &Block
    requires { IsSome (block_at parts.now.blocks number) }
    ensures there { block_at parts.now.blocks number ≡ Some result.now }
    ensures number { number ≤ length parts.now.blocks }
{
    &parts.blocks.as_slice()[number as usize - 1]
}

/// Visits the block of this number in its row, and sends the edges that it has there, with those of the members whom it sends
/// on from a user chain.
fn visit_by_edges(
    alloc: Global,
    parts: &Parts,
    number: u16,
    block: &Block,
    row: &Known,
    members: &Option<Known>,
    draft: &mut Draft,
) -> Result<Change, Memory>
    requires number { number ≤ 4096 }
    requires there { block_at parts.now.blocks number ≡ Some block.now }
    requires may { MayVisit parts.now draft.old }
    requires row { table_in parts.now draft.old (targets.Block number) ≡ Some row.now }
    requires members { members.now ≡ members_at parts.now draft.old block.now }
    ensures visited { IfOk result (IsVisit parts.now number draft.old draft.new) }
    ensures noted { IfOk result (λ _. NotesGoOn parts.now draft.old draft.new) }
{
    let edges = edges_in(alloc, parts, number, block, row, members)?;
    let change = send_all(alloc, parts, &edges, draft);
    drop(edges);
    change
}

/// Visits the block of this number in its row: it sends its edges, with those of the members whom it sends on from a user
/// chain.
fn visit_in(
    alloc: Global,
    parts: &Parts,
    number: u16,
    block: &Block,
    row: &Known,
    members: &Option<Known>,
    draft: &mut Draft,
) -> Result<Change, Memory>
    requires number { number ≤ 4096 }
    requires there { block_at parts.now.blocks number ≡ Some block.now }
    requires may { MayVisit parts.now draft.old }
    requires row { table_in parts.now draft.old (targets.Block number) ≡ Some row.now }
    requires members { members.now ≡ members_at parts.now draft.old block.now }
    ensures visited { IfOk result (IsVisit parts.now number draft.old draft.new) }
    ensures noted { IfOk result (λ _. NotesGoOn parts.now draft.old draft.new) }
{
    if let Block::TransferByParameter(parameter) = block {
        let change = visit_return(alloc, parts, number, *parameter, row, draft)?;
        return Ok(change);
    }
    if let Some(behind) = behind_of(number, block) {
        let change = visit_behind(alloc, parts, number, block, row, behind, draft)?;
        return Ok(change);
    }
    visit_by_edges(alloc, parts, number, block, row, members, draft)
}

/// Visits the block of this number, if it has a row.
fn visit(alloc: Global, parts: &Parts, number: u16, draft: &mut Draft) -> Result<Change, Memory>
    requires there { IsSome (block_at parts.now.blocks number) }
    requires may { MayVisit parts.now draft.old }
    ensures visited { IfOk result (IsVisit parts.now number draft.old draft.new) }
    ensures noted { IfOk result (λ _. NotesGoOn parts.now draft.old draft.new) }
{
    let block = block_of(parts, number);
    let members = members_shared(parts, block, draft)?;
    match row_shared(&draft.rows.blocks, number as usize - 1)? {
        Some(row) => visit_in(alloc, parts, number, block, &row, &members, draft),
        None => Ok(Change::Same),
    }
}

/// Visits the block of this number, if it is marked; else it would change nothing.
fn visit_marked(
    alloc: Global,
    parts: &Parts,
    number: u16,
    draft: &mut Draft,
) -> Result<Change, Memory>
    requires there { IsSome (block_at parts.now.blocks number) }
    requires first { 1 ≤ number }
    requires well { IsWell parts.now }
    requires sound { AreSound parts.now (rows_held draft.old.rows) }
    requires noted { AreNoted parts.now draft.old }
    ensures visited { IfOk result (IsVisit parts.now number draft.old draft.new) }
    ensures noted { IfOk result (λ _. AreNoted parts.now draft.new) }
{
    let place = number as usize - 1;
    if !draft.marks[place] {
        return Ok(Change::Same);
    }
    let is_sent = is_sent_already(parts, place, draft);
    draft.marks[place] = false;
    if is_sent {
        return Ok(Change::Same);
    }
    let change = visit(alloc, parts, number, draft)?;
    Ok(change)
}

/// One more round: visits each block that is marked, in ascending order; the others would change nothing.
pub(crate) fn next_round(alloc: Global, parts: &Parts, draft: &mut Draft) -> Result<Change, Memory>
    requires well { IsWell parts.now }
    requires sound { AreSound parts.now (rows_held draft.old.rows) }
    requires noted { AreNoted parts.now draft.old }
    ensures round { IfOk result (IsRound parts.now draft.old draft.new) }
    ensures noted { IfOk result (λ _. AreNoted parts.now draft.new) }
{
    let mut change = Change::Same;
    for i in 0..parts.blocks.as_slice().len() {
        let next = visit_marked(alloc, parts, (i + 1) as u16, draft)?;
        change = followed_by(change, next);
    }
    Ok(change)
}
