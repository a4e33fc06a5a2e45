//! The edges of a block in a state, in the numbers of that state.

ghost use Rattle.std.specs.Prelude.{◌≡◌, ◌≤◌, IfOk, IfSome, IsSome, All, option_to_list};
ghost use Rattle.gw_rules.specs.Checks.{Finds};
ghost use Rattle.gw_object.specs.Grammar.{AreAscending, IsAscending, StateFits, HasSpelling};
ghost use Rattle.gw_rules.specs.Kinds.{block_at};
ghost use Rattle.gw_rules.specs.Rows.{HasRoom};
ghost use Rattle.gw_flow.specs.Answered.{HasPassed, HaveParameters, HaveGiven, KeepOwn};
ghost use Rattle.gw_flow.specs.Answered.{ForBlock, rule_checks_in};
ghost use Rattle.gw_flow.specs.Answered.{parameters_with as with_parameter_set};
ghost use Rattle.gw_flow.specs.Answered.{AreInNumbersOf, AreOwnEdges, AreMembersEdges, AreEdges, AnswersEdges};
ghost use Rattle.gw_flow.specs.Known.{known_row, ParametersAscend};

use crate::abstract_state::AbsState;
use crate::edges::{Edge, after, edge_in_numbers_of, own_edges_of};
use crate::lists::{copy_of, in_place, with_last};
use crate::lookups::Carried;
use crate::rules::check_rules;
use crate::setting::parameter_set;
use crate::state::State;
use gw_object::codes::MEMORY;
use gw_object::{Block, Fault, Items, Memory, Object, Parts, Place, ReturnRow};
use gw_rules::{FlowEdge, Parameter, Target, chain_row};
use std::alloc::{AllocError, Global};

/// That memory ran out.
pub(crate) const OUT_OF_MEMORY: Fault = Fault {
    code: MEMORY,
    place: Place::Nowhere,
};

/// The parameters of a state once one is set, if one is: each other one is as it was given.
fn parameters_with(
    alloc: Global,
    set: Option<Parameter>,
    given: &Items<Parameter>,
) -> Result<Items<Parameter>, Memory>
    ensures { IfOk result (λ own. own ≡ with_parameter_set set given.now) }
{
    match set {
        Some(parameter) => {
            let all = in_place(alloc, given.as_slice(), parameter)?;
            Ok(Items::from_vec(all))
        }
        None => copy_of(alloc, given),
    }
}

/// What is known of a transaction once it has passed the block of this number in a state, in the numbers of that state.
pub(crate) fn passed(
    alloc: Global,
    returns: &[ReturnRow],
    number: u16,
    block: &Block,
    state: &AbsState,
) -> Result<AbsState, Memory>
    requires returns { All AreAscending returns.now }
    requires room { HasRoom (known_row returns.now state.now) }
    ensures { IfOk result (λ s. HasPassed returns.now number block.now state.now s) }
{
    let set = parameter_set(number, block);
    let parameters = parameters_with(alloc, set, &state.parts().parameters)?;
    let seen = State::of(alloc, returns, state)?;
    let passed = after(alloc, number, block, &seen);
    drop(seen);
    let passed = passed?;
    let out = passed.in_numbers_of(alloc, &parameters);
    drop(passed);
    out
}

/// Edges in the numbers of these parameters, where these say what the edges' states say of them.
fn in_numbers_of(
    alloc: Global,
    edges: &[FlowEdge<State<'_>>],
    parameters: &Items<Parameter>,
) -> Result<Vec<Edge>, Memory>
    requires { ParametersAscend parameters.now }
    ensures same { IfOk result (λ out. AreInNumbersOf parameters.now out.items edges.now) }
    ensures own { IfOk result (λ out. HaveParameters out.items parameters.now) }
{
    let mut out = Vec::new(alloc);
    for edge in edges {
        out.push(edge_in_numbers_of(alloc, edge, parameters)?)?;
    }
    Ok(out)
}

/// The edges of the block of this number in a state, in its own numbers, of those who enter it and of their copies.
fn own_edges(
    alloc: Global,
    returns: &[ReturnRow],
    number: u16,
    block: &Block,
    state: &AbsState,
) -> Result<Vec<Edge>, Memory>
    requires number { number ≤ 4096 }
    requires returns { All AreAscending returns.now }
    requires room { HasRoom (known_row returns.now state.now) }
    ensures same { IfOk result (λ es. AreOwnEdges returns.now number block.now state.now es.items) }
    ensures own { IfOk result (λ es. HaveGiven es.items number block.now state.now.parameters) }
{
    let set = parameter_set(number, block);
    let parameters = parameters_with(alloc, set, &state.parts().parameters)?;
    let seen = State::of(alloc, returns, state)?;
    let edges = own_edges_of(alloc, number, block, &seen);
    drop(seen);
    let edges = edges?;
    let out = in_numbers_of(alloc, &edges, &parameters);
    drop(edges);
    out
}

/// The edge of the members whom a block sends on from their user chain, in the numbers of their row of the state table, if
/// it is an UNLINK, and they have a row.
fn members_move(alloc: Global, parts: &Parts, block: &Block) -> Result<Option<Edge>, Memory>
    requires limits { All (λ row. IfSome row StateFits) parts.now.chain_states }
    requires ascending { All (λ row. IfSome row IsAscending) parts.now.chain_states }
    ensures { IfOk result (λ edge. AreMembersEdges parts.now block.now (option_to_list edge)) }
{
    let Block::Unlink(unlink) = block else {
        return Ok(None);
    };
    match chain_row(parts, unlink.chain) {
        Some(row) => Ok(Some(Edge {
            target: Target::Block(unlink.target),
            state: AbsState::of_row(alloc, row)?,
        })),
        None => Ok(None),
    }
}

/// The edges of the block of this number in a state, in its own numbers: also that of the members of a user chain.
fn all_edges(
    alloc: Global,
    parts: &Parts,
    number: u16,
    block: &Block,
    state: &AbsState,
) -> Result<Vec<Edge>, Memory>
    requires number { number ≤ 4096 }
    requires spelled { HasSpelling parts.now }
    requires room { HasRoom (known_row parts.now.returns state.now) }
    ensures same { IfOk result (λ out. AreEdges parts.now number block.now state.now out.items) }
    ensures own { KeepOwn number state.now result block.now }
{
    let edges = own_edges(alloc, parts.returns.as_slice(), number, block, state)?;
    with_last(edges, members_move(alloc, parts, block)?)
}

/// The fault of the first rule of the block of this number that is broken in a state, if there is one.
fn check_rules_in(parts: &Parts, number: u16, block: &Block, state: &AbsState) -> Result<(), Fault>
    ensures { Finds result (rule_checks_in parts.now number state.now block.now) }
{
    let returns = parts.returns.as_slice();
    check_rules(parts, number, block, &Carried { state, returns })
}

/// The edges of the block of this number in a state; else the fault of the first rule that is broken, or that memory ran
/// out.
fn edges_or_fault(
    alloc: Global,
    parts: &Parts,
    number: u16,
    block: &Block,
    state: &AbsState,
) -> Result<Vec<Edge>, Fault>
    requires number { number ≤ 4096 }
    requires spelled { HasSpelling parts.now }
    requires room { HasRoom (known_row parts.now.returns state.now) }
    ensures edges { AnswersEdges parts.now number state.now result block.now }
    ensures own { KeepOwn number state.now result block.now }
{
    check_rules_in(parts, number, block, state)?;
    match all_edges(alloc, parts, number, block, state) {
        Ok(edges) => Ok(edges),
        Err(AllocError) => Err(OUT_OF_MEMORY),
    }
}

/// The edges of the block of this number, from 1, that is there, for a transaction in a state: where it goes on to, and
/// what is known of it there, in the numbers of that state: a parameter that the block leaves alone comes back as it was
/// given, and one that it sets is a number, or the return to this block. Else the fault of the block's first rule that is
/// broken in that state: first 20 UnsetParam or 27 ParamKind of a parameter that its values ask for, through procedures,
/// variables and functions too; then 21 AlreadyOwned, 22 NotOwner, 23 TooFewUnits, 24 OwnsAtEnd, 25 EdgeState for a
/// GENERATE, 28 OverCapacity, or 20 and 27 of a parameter that it changes or goes by (ours: docs/refusals.md); or 8 Memory
/// at Nowhere where memory runs out. No edge is compared with a row here: 25 EdgeState of an edge and 26 ChainState are
/// [`check_flow`]'s.
///
/// A LINK has one edge, to its user chain. An UNLINK has a second one where the object has a row of its user chain: that of
/// the chain's members to its target, with the parameters of that row in the object's own numbers.
pub fn out_edges(
    alloc: Global,
    object: &Object,
    block: u16,
    state: &AbsState,
) -> Result<Vec<Edge>, Fault>
    requires block { IsSome (block_at object.now.blocks block) }
    requires room { HasRoom (known_row object.now.returns state.now) }
    ensures edges { ForBlock object.now block (AnswersEdges object.now block state.now result) }
    ensures own { ForBlock object.now block (KeepOwn block state.now result) }
{
    let parts = object.parts();
    let there = &parts.blocks.as_slice()[block as usize - 1];
    edges_or_fault(alloc, parts, block, there, state)
}
