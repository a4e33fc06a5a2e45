//! What arrivals need: that only so many come in one clock moment.

ghost use Rattle.std.specs.Prelude.{◌≡◌};
ghost use Rattle.gw_rules.specs.Checks.{Finds};
ghost use Rattle.gw_rules.specs.Weights as model;

use gw_object::{Block, Fault, Generate, Place};
use gw_rules::weights_codes::ARRIVAL_WEIGHT;
use gw_rules::{check, takes_time};

/// Whether only so many arrivals of a GENERATE may come in one clock moment: time passes in its interval, or it has a limit.
fn is_bounded(generate: &Generate) -> bool
    ensures { result ≡ model.is_bounded generate.now }
{
    takes_time(generate.interval) || generate.limit.is_some()
}

/// The fault of a GENERATE, which is the block of this number, whose arrivals may come for ever in one clock moment.
pub(crate) fn check_arrivals(number: u16, block: &Block) -> Result<(), Fault>
    ensures { Finds result (model.arrival_checks number block.now) }
{
    match block {
        Block::Generate(generate) => {
            check(ARRIVAL_WEIGHT, Place::Block(number), is_bounded(generate))
        }
        _ => Ok(()),
    }
}
