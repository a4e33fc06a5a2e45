//! The ranges of constants.

ghost use Rattle.std.specs.Prelude.{◌≡◌};
ghost use Rattle.gw_rules.specs.Kinds as model;

use gw_object::{Block, Generate};

/// The most units that a block moves: 2^20 (ours: docs/refusals.md).
const MOST_UNITS: u32 = 1_048_576;

/// The whole of a fraction in thousandths.
const WHOLE: u16 = 1000;

/// Whether a block may move so many units.
fn are_units(number: u32) -> bool
    ensures { result ≡ model.are_units number }
{
    1 <= number && number <= MOST_UNITS
}

/// Whether no first arrival comes before clock 0, no limit of arrivals is 0, units are within their range, a
/// fraction is at most the whole, an assembly set isn't empty, and a limit of those who are taken from a user chain isn't
/// 0.
pub(crate) fn has_good_constants(block: &Block) -> bool
    ensures { result ≡ model.has_good_constants block.now }
{
    match block {
        Block::Generate(Generate { first, limit, .. }) => {
            first.is_none_or(|first| 0 <= first) && limit.is_none_or(|limit| 0 < limit)
        }
        Block::Enter(units) | Block::Leave(units) | Block::Queue(units) | Block::Depart(units) => {
            are_units(units.number)
        }
        Block::TransferByFraction(fraction) => fraction.thousandths <= WHOLE,
        Block::Assemble(size) => 0 < *size,
        Block::Unlink(unlink) => unlink.most.is_none_or(|most| 0 < most),
        _ => true,
    }
}
