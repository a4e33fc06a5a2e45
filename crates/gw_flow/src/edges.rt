//! Flow edges: where a transaction goes on to, and what is known of it there.

ghost use Rattle.std.specs.Prelude.{◌≡◌, ◌≤◌, ◌<◌, map, option_to_list, IfOk, All};
ghost use Rattle.gw_rules.specs.Exits.{returns_to as exit_after};
ghost use Rattle.gw_rules.specs.Rows.{HasRoom};
ghost use Rattle.gw_flow.specs.Viewed.{blocks_viewed};
ghost use Rattle.gw_rules.specs.Blocks as model;
ghost use Rattle.gw_flow.specs.Known.{ParametersAscend, IsInNumbersOf};

use crate::abstract_state::AbsState;
use crate::lists::with_last;
use crate::lookups::Lookups;
use crate::setting::parameter_set;
use crate::state::{ParamKind, State, param_seen};
use gw_object::{Block, Items, Memory};
use gw_rules::flow_codes::{CHAIN_STATE, EDGE_STATE};
use gw_rules::{Exit, FlowEdge, Parameter, Target, Who, exits, is_used, leads_to, returns_to};
use std::alloc::Global;

/// An edge of a block.
#[derive(Drop)]
pub struct Edge {
    /// Where the transaction goes on to.
    pub target: Target,
    /// What is known of it there.
    pub state: AbsState,
}

/// A flow edge in the numbers of these parameters, which say what its state says of them.
pub(crate) fn edge_in_numbers_of(
    alloc: Global,
    edge: &FlowEdge<State<'_>>,
    parameters: &Items<Parameter>,
) -> Result<Edge, Memory>
    requires { ParametersAscend parameters.now }
    ensures target { IfOk result (λ e. e.target ≡ edge.now.target) }
    ensures same { IfOk result (λ e. IsInNumbersOf parameters.now e.state edge.now.state) }
    ensures own { IfOk result (λ e. e.state.parameters ≡ parameters.now) }
{
    Ok(Edge {
        target: edge.target,
        state: edge.state.in_numbers_of(alloc, parameters)?,
    })
}

/// The state once this parameter is set, if one is; no return row is named.
fn with_setting<'a>(
    alloc: Global,
    set: Option<Parameter>,
    state: &State<'a>,
) -> Result<State<'a>, Memory>
    ensures { IfOk result (λ s. s ≡ model.with_setting set state.now) }
{
    match set {
        Some(parameter) => {
            let param = param_seen(&[], &parameter);
            state.with_parameter(alloc, param.number, param.kind)
        }
        None => state.copy(alloc),
    }
}

/// What is known of a transaction once it has passed the block of this number in a state.
pub(crate) fn after<'a>(
    alloc: Global,
    number: u16,
    block: &Block,
    state: &State<'a>,
) -> Result<State<'a>, Memory>
    requires { HasRoom state.now }
    ensures { IfOk result (λ s. s ≡ model.after number block.now state.now) }
{
    match block {
        Block::Seize(f) => state.with_facility(alloc, *f),
        Block::Release(f) => state.without_facility(alloc, *f),
        Block::Enter(u) | Block::Queue(u) => {
            let units = state.units_of(u.entity) + u.number as u64;
            state.with_units(alloc, u.entity, units)
        }
        Block::Leave(u) | Block::Depart(u) => {
            let units = state.units_of(u.entity).saturating_sub(u.number as u64);
            state.with_units(alloc, u.entity, units)
        }
        _ => with_setting(alloc, parameter_set(number, block), state),
    }
}

/// The edge of a transaction that goes on to a block.
fn move_to<'a>(target: u16, state: State<'a>) -> FlowEdge<State<'a>>
    ensures { result ≡ model.move target state.entry }
{
    FlowEdge {
        code: EDGE_STATE,
        target: Target::Block(target),
        state,
    }
}

/// What is known of who goes along an exit, of a transaction that has passed the block.
fn known_of<'a>(alloc: Global, who: Who, passed: &State<'a>) -> Result<State<'a>, Memory>
    ensures { IfOk result (λ state. state ≡ model.known_of who passed.now) }
{
    match who {
        Who::Itself => passed.copy(alloc),
        Who::Copies(_) => passed.parameters_alone(alloc),
    }
}

/// The edges along these exits of the block of this number, in order, of a transaction that has passed it.
fn edges_along<'a>(
    alloc: Global,
    number: u16,
    exits: &[Exit],
    passed: &State<'a>,
) -> Result<Vec<FlowEdge<State<'a>>>, Memory>
    requires { number ≤ 4096 }
    ensures { IfOk result (λ edges. edges.items ≡ model.edges_along number exits.now passed.now) }
{
    let mut edges = Vec::new(alloc);
    for exit in exits {
        if is_used(exit.who) {
            let state = known_of(alloc, exit.who, passed)?;
            edges.push(move_to(leads_to(number, exit.way), state))?;
        }
    }
    Ok(edges)
}

/// The exits to the blocks after these.
fn exits_after(alloc: Global, blocks: &[u16]) -> Result<Vec<Exit>, Memory>
    requires { All (λ b. b < 65535) blocks.now }
    ensures { IfOk result (λ exits. exits.items ≡ map exit_after blocks.now) }
{
    let mut exits = Vec::with_capacity(alloc, blocks.len())?;
    for block in blocks {
        exits.push(returns_to(*block))?;
    }
    Ok(exits)
}

/// The exits of a TRANSFER in parameter mode whose parameter holds this, if it is set.
pub(crate) fn exits_of_return(
    alloc: Global,
    kind: Option<ParamKind<'_>>,
) -> Result<Vec<Exit>, Memory>
    requires { All (λ b. b < 65535) (blocks_viewed kind) }
    ensures { IfOk result (λ exits. exits.items ≡ map exit_after (blocks_viewed kind.entry)) }
{
    match kind {
        Some(ParamKind::Ret(blocks)) => exits_after(alloc, blocks),
        Some(ParamKind::RetTo(block)) => exits_after(alloc, &[block]),
        Some(ParamKind::Num) | None => Ok(Vec::new(alloc)),
    }
}

/// The edges of the block of this number to blocks in a state, in order.
fn edges_of<'a>(
    alloc: Global,
    number: u16,
    block: &Block,
    state: &State<'a>,
) -> Result<Vec<FlowEdge<State<'a>>>, Memory>
    requires number { number ≤ 4096 }
    requires room { HasRoom state.now }
    ensures { IfOk result (λ edges. edges.items ≡ model.edges_from number block.now state.now) }
{
    let passed = after(alloc, number, block, state)?;
    match block {
        Block::TransferByParameter(parameter) => {
            let exits = exits_of_return(alloc, state.kind_of(*parameter))?;
            edges_along(alloc, number, &exits, &passed)
        }
        _ => edges_along(alloc, number, &exits(block), &passed),
    }
}

/// The edge of who enters a block to the user chain that it joins, if it is a LINK.
fn join<'a>(
    alloc: Global,
    block: &Block,
    state: &State<'a>,
) -> Result<Option<FlowEdge<State<'a>>>, Memory>
    ensures { IfOk result (λ edge. option_to_list edge ≡ model.joins block.now state.now) }
{
    match block {
        Block::Link(link) => Ok(Some(FlowEdge {
            code: CHAIN_STATE,
            target: Target::Chain(link.chain),
            state: state.copy(alloc)?,
        })),
        _ => Ok(None),
    }
}

/// The edges of the block of this number in a state, in order, of those who enter it and of their copies.
pub fn own_edges_of<'a>(
    alloc: Global,
    number: u16,
    block: &Block,
    state: &State<'a>,
) -> Result<Vec<FlowEdge<State<'a>>>, Memory>
    requires number { number ≤ 4096 }
    requires room { HasRoom state.now }
    ensures { IfOk result (λ edges. edges.items ≡ model.own_edges_in number block.now state.now) }
{
    let edges = edges_of(alloc, number, block, state)?;
    with_last(edges, join(alloc, block, state)?)
}
