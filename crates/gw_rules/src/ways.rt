//! Exits: where transactions go on to from a block.

ghost use Rattle.std.specs.Prelude.{◌≡◌, ◌<◌, ◌+◌, Some};
ghost use Rattle.gw_rules.specs.Exits as model;
ghost use Rattle.gw_rules.specs.Blocks.{is_used as is_used_of};
ghost use Rattle.gw_rules.specs.declared.ways.Way.TheVariants.{Falls};

use arrayvec::ArrayVec;
use gw_object::{Block, Operand, Spread};

/// The way on from a block.
#[derive(Clone, Copy, PartialEq, Eq)]
pub enum Way {
    /// To the next block.
    Falls,
    /// To the block of this number, from 1.
    Goes(u16),
}

/// Who goes on along an exit.
#[derive(Clone, Copy, PartialEq, Eq)]
pub enum Who {
    /// The transaction that entered the block.
    Itself,
    /// So many copies of it.
    Copies(u16),
}

/// An exit of a block.
#[derive(Clone, Copy, PartialEq, Eq)]
pub struct Exit {
    /// The way on.
    pub way: Way,
    /// Whether at least one clock unit passes before a transaction is there.
    pub passes_time: bool,
    /// Who goes on along it.
    pub who: Who,
}

impl Default for Exit {
    ghost is_default = { λ exit. exit ≡ model.at_once Falls };

    /// That of most blocks: it falls to the next one at once.
    fn default() -> Exit {
        at_once(Way::Falls)
    }
}

/// An exit on which no time passes.
fn at_once(way: Way) -> Exit
    ensures { result ≡ model.at_once way }
{
    Exit {
        way,
        passes_time: false,
        who: Who::Itself,
    }
}

/// An exit at once of so many copies.
fn for_copies(copies: u16, way: Way) -> Exit
    ensures { result ≡ model.for_copies copies way }
{
    Exit {
        way,
        passes_time: false,
        who: Who::Copies(copies),
    }
}

/// Whether the least time that may be drawn of an ADVANCE, or between two arrivals of a GENERATE, is known to be 1 clock unit
/// or more: both operands are constants, and the half range is 0 or more and less than the mean.
pub fn takes_time(time: Spread) -> bool
    ensures { result ≡ model.takes_time time.mean time.half }
{
    match (time.mean, time.half) {
        (Operand::Constant(mean), Operand::Constant(half)) => 0 <= half && half < mean,
        _ => false,
    }
}

/// The exits of a block, in order: where it sends transactions, and whether time passes (GPSS World Reference Manual,
/// chapter 7). A TRANSFER in parameter mode has none of its own: it leads to where the returns in its parameter do. A LINK
/// leads to no block.
pub fn exits(block: &Block) -> ArrayVec<Exit, 2>
    ensures { result.items ≡ model.exits block.now }
{
    let mut exits = ArrayVec::new();
    match block {
        Block::Terminate(_) | Block::TransferByParameter(_) | Block::Link(_) => {}
        Block::Advance(time) => exits.push(Exit {
            way: Way::Falls,
            passes_time: takes_time(*time),
            who: Who::Itself,
        }),
        Block::Test(test) => exits = falls_or_goes(test.otherwise),
        Block::Gate(gate) => exits = falls_or_goes(gate.otherwise),
        Block::Transfer(target) => exits.push(at_once(Way::Goes(*target))),
        Block::TransferByFraction(fraction) => {
            exits.push(at_once(goes_or_falls(fraction.otherwise)));
            exits.push(at_once(Way::Goes(fraction.target)));
        }
        Block::TransferBoth(both) => {
            exits.push(at_once(goes_or_falls(both.first)));
            exits.push(at_once(Way::Goes(both.second)));
        }
        Block::TransferToSubroutine(call) => exits.push(at_once(Way::Goes(call.target))),
        Block::Loop(looping) => {
            exits.push(at_once(Way::Falls));
            exits.push(at_once(Way::Goes(looping.target)));
        }
        Block::Split(split) => {
            exits.push(at_once(Way::Falls));
            exits.push(for_copies(split.copies, goes_or_falls(split.target)));
        }
        _ => exits.push(at_once(Way::Falls)),
    }
    exits
}

/// The exits of a block that tests something: to the next block, and to the one of this number where one is given.
fn falls_or_goes(target: Option<u16>) -> ArrayVec<Exit, 2>
    ensures { result.items ≡ model.falls_or_goes target }
{
    let mut exits = ArrayVec::new();
    exits.push(at_once(Way::Falls));
    if let Some(target) = target {
        exits.push(at_once(Way::Goes(target)));
    }
    exits
}

/// Whether a block calls a subroutine.
pub fn is_call(block: &Block) -> bool
    ensures { result ≡ model.is_call block.now }
{
    matches!(block, Block::TransferToSubroutine(_))
}

/// The way besides its exits on which a block sends somebody, if there is one: once a subroutine that it calls comes back,
/// or whom it takes from a user chain.
pub fn other_way(block: &Block) -> Option<Way>
    ensures { result ≡ model.other_way block.now }
{
    match block {
        Block::TransferToSubroutine(_) => Some(Way::Falls),
        Block::Unlink(unlink) => Some(Way::Goes(unlink.target)),
        _ => None,
    }
}

/// The exit to the block after the one of this number, which called the subroutine that ends here.
pub fn returns_to(number: u16) -> Exit
    requires { number < 65535 }
    ensures { result ≡ model.returns_to number }
{
    at_once(Way::Goes(number + 1))
}

/// To the block of this number; without one to the next.
fn goes_or_falls(target: Option<u16>) -> Way
    ensures { result ≡ model.goes_or_falls target }
{
    target.map_or(Way::Falls, Way::Goes)
}

/// The number of the block to which a way leads from the block of this number.
pub fn leads_to(number: u16, way: Way) -> u16
    requires { number < 65535 }
    ensures { result ≡ model.leads_to number way }
{
    match way {
        Way::Falls => number + 1,
        Way::Goes(target) => target,
    }
}

/// Whether somebody may go along an exit: the way of no copies isn't gone.
pub fn is_used(who: Who) -> bool
    ensures { result ≡ is_used_of who }
{
    match who {
        Who::Itself => true,
        Who::Copies(copies) => copies != 0,
    }
}
