//! What user chains need: that a LINK pays for its chain, a chain for where an UNLINK sends its members, and that there is no
//! slope there.

ghost use Rattle.gw_object.specs.declared.blocks.Block.TheVariants as blocks;
ghost use Rattle.gw_rules.specs.Checks.{Finds};
ghost use Rattle.gw_rules.specs.Weights as model;

use gw_object::{Block, Fault, Link, Parts, Place, Unlink};
use gw_rules::weights_codes::CHAIN_WEIGHT;
use gw_rules::{chain_row, chain_weight, check, slope_at, weight_at};

/// The fault of a LINK, which is the block of this number, that doesn't pay for the entry and for its user chain.
fn check_link(parts: &Parts, number: u16, link: &Link) -> Result<(), Fault>
    ensures { Finds result (model.chain_checks parts.now number (blocks.Link link.now)) }
{
    let weight = weight_at(parts.weights.as_slice(), number) as u64;
    let needed = 1 + chain_weight(parts, link.chain) as u64;
    check(CHAIN_WEIGHT, Place::Block(number), needed <= weight)
}

/// The fault of an UNLINK, which is the block of this number, that sends members to a block with a slope, or whose user chain
/// has a row of the state table and doesn't pay for where they go.
fn check_unlink(parts: &Parts, number: u16, unlink: &Unlink) -> Result<(), Fault>
    ensures { Finds result (model.chain_checks parts.now number (blocks.Unlink unlink.now)) }
{
    let place = Place::Block(number);
    let slope = slope_at(parts.slopes.as_slice(), unlink.target);
    check(CHAIN_WEIGHT, place, slope.is_none())?;
    if chain_row(parts, unlink.chain).is_none() {
        return Ok(());
    }
    let needed = weight_at(parts.weights.as_slice(), unlink.target);
    let weight = chain_weight(parts, unlink.chain);
    check(CHAIN_WEIGHT, place, needed <= weight)
}

/// The fault of the block of this number at its user chain, if it is a LINK or an UNLINK and has one.
pub(crate) fn check_chain(parts: &Parts, number: u16, block: &Block) -> Result<(), Fault>
    ensures { Finds result (model.chain_checks parts.now number block.now) }
{
    match block {
        Block::Link(link) => check_link(parts, number, link),
        Block::Unlink(unlink) => check_unlink(parts, number, unlink),
        _ => Ok(()),
    }
}
