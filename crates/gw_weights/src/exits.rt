//! What the exits of a block need: that it pays for the entry, and for where they lead at once.

ghost use Rattle.std.specs.Prelude.{◌≡◌, ◌<◌, ◌≤◌, All, map};
ghost use Rattle.gw_rules.specs.Checks.{Finds};
ghost use Rattle.gw_rules.specs.Exits.{returns_to as exit_after};
ghost use Rattle.gw_rules.specs.Weights as model;

use crate::paying::pays_way;
use gw_object::{Block, Fault, Parts, Place};
use gw_rules::weights_codes::WEIGHT_EDGE;
use gw_rules::{Exit, check, is_used, leads_to, returns_to};

/// Whether somebody may go along an exit in the clock moment of the entry (ours: docs/weights.md).
pub fn goes_at_once(exit: Exit) -> bool
    ensures { result ≡ model.goes_at_once exit }
{
    is_used(exit.who) && !exit.passes_time
}

/// The fault of an exit of the block of this number that the block doesn't pay for, if somebody goes along it at once.
fn check_exit(parts: &Parts, number: u16, block: &Block, exit: Exit) -> Result<(), Fault>
    requires { number ≤ 4096 }
    ensures { Finds result (model.exit_checks parts.now number block.now exit) }
{
    if !goes_at_once(exit) {
        return Ok(());
    }
    let place = Place::Edge(number, leads_to(number, exit.way));
    let is_paid = pays_way(parts, number, block, exit.way, exit.who);
    check(WEIGHT_EDGE, place, is_paid)
}

/// The fault of the first of these exits of the block of this number that the block doesn't pay for, if there is one.
pub(crate) fn check_exits(
    parts: &Parts,
    number: u16,
    block: &Block,
    exits: &[Exit],
) -> Result<(), Fault>
    requires { number ≤ 4096 }
    ensures { Finds result (model.exits_checks parts.now number block.now exits.now) }
{
    for exit in exits {
        check_exit(parts, number, block, *exit)?;
    }
    Ok(())
}

/// The fault of the first of the exits to the blocks after these callers that the block of this number doesn't pay for, if
/// there is one.
pub(crate) fn check_returns(
    parts: &Parts,
    number: u16,
    block: &Block,
    callers: &[u16],
) -> Result<(), Fault>
    requires number { number ≤ 4096 }
    requires next { All (λ b. b < 65535) callers.now }
    ensures { Finds result (model.exits_checks parts.now number block.now (map exit_after callers.now)) }
{
    for caller in callers {
        check_exit(parts, number, block, returns_to(*caller))?;
    }
    Ok(())
}
