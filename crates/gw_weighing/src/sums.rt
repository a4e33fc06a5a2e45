//! What the rules of weights ask of a block in its row of the state table, as sums.

ghost use Rattle.std.specs.Prelude.{◌≡◌, ◌≤◌};
ghost use Rattle.gw_weighing.specs.Sums as model;

use crate::layout::Layout;
use gw_least_weights::{Sum, Term, nothing};
use gw_object::{Block, GREATEST_WEIGHT, Parts, Slope, TableKind, TableState};
use gw_rules::{Exit, Treatment, Way, Who, above, exits, leads_to, slope_at, treats};
use gw_weights::{goes_at_once, parameter_of};

/// 1 for an entry, and the weight at a place.
fn with_entry(place: usize) -> Sum
    ensures { result ≡ model.with_entry place }
{
    Sum {
        own: 1,
        first: Term { times: 1, place },
        ..nothing()
    }
}

/// What a slope of the next block adds, by what is done to its parameter: what it makes of a constant, or the greatest weight,
/// which is too much already.
fn surcharge(slope: Slope, treatment: Treatment) -> u32
    ensures { result ≡ model.surcharge slope treatment }
{
    match treatment {
        Treatment::SetsTo(value) => {
            let added = slope.1 as u128 * above(value) as u128;
            added.min(GREATEST_WEIGHT as u128) as u32
        }
        Treatment::Keeps | Treatment::Lowers | Treatment::RunsOut | Treatment::Changes => 0,
    }
}

/// And what it takes off: what it makes of 1.
fn discount(slope: Slope, treatment: Treatment) -> u32
    ensures { result ≡ model.discount slope treatment }
{
    match treatment {
        Treatment::Lowers => slope.1,
        Treatment::Keeps | Treatment::SetsTo(_) | Treatment::RunsOut | Treatment::Changes => 0,
    }
}

/// 1 for an entry, and the weight at a place with this slope, by what is done to its parameter.
fn with_slope(place: usize, slope: Slope, treatment: Treatment) -> Sum
    ensures { result ≡ model.with_slope place slope treatment }
{
    Sum {
        own: 1 + surcharge(slope, treatment),
        less: discount(slope, treatment),
        ..with_entry(place)
    }
}

/// What is asked for who goes along a way of a block to a place with this slope or with none.
fn for_next(place: usize, block: &Block, way: Way, slope: Option<Slope>) -> Sum
    ensures { result ≡ model.for_next place block.now way slope }
{
    match slope {
        Some(slope) => with_slope(place, slope, treats(block, way, slope.0)),
        None => with_entry(place),
    }
}

/// What the block of this number asks for who goes along a way of it.
fn for_who(layout: Layout, parts: &Parts, number: u16, block: &Block, way: Way, who: Who) -> Sum
    requires { number ≤ 4096 }
    ensures { result ≡ model.for_who layout parts.now number block.now way who }
{
    let target = leads_to(number, way);
    let place = layout.of_block(target);
    match who {
        Who::Itself => for_next(place, block, way, slope_at(parts.slopes.as_slice(), target)),
        Who::Copies(copies) => Sum {
            second: Term {
                times: copies,
                place,
            },
            ..with_entry(layout.of_block(number + 1))
        },
    }
}

/// What the block of this number asks for an exit of it.
fn for_exit(layout: Layout, parts: &Parts, number: u16, block: &Block, exit: Exit) -> Sum
    requires { number ≤ 4096 }
    ensures { result ≡ model.for_exit layout parts.now number block.now exit }
{
    if !goes_at_once(exit) {
        return nothing();
    }
    for_who(layout, parts, number, block, exit.way, exit.who)
}

/// And for one that it may have.
fn for_exit_there(
    layout: Layout,
    parts: &Parts,
    number: u16,
    block: &Block,
    exit: Option<Exit>,
) -> Sum
    requires { number ≤ 4096 }
    ensures { result ≡ model.for_exit_there layout parts.now number block.now exit }
{
    match exit {
        Some(exit) => for_exit(layout, parts, number, block, exit),
        None => nothing(),
    }
}

/// The number of the return row whose blocks a parameter may return to by a row of the state table, if it holds a return.
fn row_held(row: &TableState, parameter: u8) -> Option<u16>
    ensures { result ≡ model.row_held row.now parameter }
{
    match parameter_of(row.parameters.as_slice(), parameter)?.kind {
        TableKind::Num => None,
        TableKind::Ret(row) => Some(row),
    }
}

/// Whether there is a block behind one of these.
fn is_one_followed(layout: Layout, blocks: &[u16]) -> bool
    ensures { result ≡ model.is_one_followed layout blocks.now }
{
    blocks.iter().any(|block| *block < layout.blocks)
}

/// What is asked for a return to the blocks of the return row of this number.
fn for_returns(layout: Layout, parts: &Parts, row: u16) -> Sum
    ensures { result ≡ model.for_returns layout parts.now.returns row }
{
    match parts.returns.as_slice().get(row as usize) {
        Some(returns) if is_one_followed(layout, returns.blocks.as_slice()) => {
            with_entry(layout.of_row(row))
        }
        _ => nothing(),
    }
}

/// And of one that a parameter may hold.
fn for_returns_held(layout: Layout, parts: &Parts, row: Option<u16>) -> Sum
    ensures { result ≡ model.for_returns_held layout parts.now.returns row }
{
    match row {
        Some(row) => for_returns(layout, parts, row),
        None => nothing(),
    }
}

/// What the block of this number asks first in its row: for its user chain, for the returns that it reads, or for its first
/// exit.
pub(crate) fn first_sum(
    layout: Layout,
    parts: &Parts,
    number: u16,
    block: &Block,
    row: &TableState,
) -> Sum
    requires { number ≤ 4096 }
    ensures { result ≡ model.first_sum layout parts.now number block.now row.now }
{
    match block {
        Block::TransferByParameter(parameter) => {
            for_returns_held(layout, parts, row_held(row, *parameter))
        }
        Block::Link(link) => with_entry(layout.of_chain(parts.entities.as_slice(), link.chain)),
        _ => for_exit_there(layout, parts, number, block, exits(block).first().copied()),
    }
}

/// What it asks besides: for its second exit.
pub(crate) fn second_sum(layout: Layout, parts: &Parts, number: u16, block: &Block) -> Sum
    requires { number ≤ 4096 }
    ensures { result ≡ model.second_sum layout parts.now number block.now }
{
    for_exit_there(layout, parts, number, block, exits(block).get(1).copied())
}
