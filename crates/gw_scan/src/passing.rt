//! Blocks that let other transactions go first: PRIORITY and BUFFER.
#![tactic(auto, unfolding(gw_step::specs::Blocks::act, gw_step::specs::Blocks::effect))]

ghost use Rattle.std.specs.Prelude.{◌≡◌, if◌then◌else◌, IfSome, is_some};
ghost use Rattle.gw_step.specs.Blocks as model;
ghost use Rattle.gw_scan.specs.Origins.{priority_of};
ghost use Rattle.gw_scan.specs.Visiting.{ActsOnOk, Meets};

use crate::decoding::PriorityConstant;
use crate::visit::Visit;
use gw_machine::{Machine, Made, end_by};
use gw_members::Memory;
use gw_object::{Block, Priority};
use gw_step::{End, Placement};

/// A value as a priority, if it is one: a number of 32 bits.
fn priority_from(value: i64) -> Option<i32>
    ensures fits { is_some result ≡ model.is_priority value }
    ensures same { IfSome result (λ priority. priority ≡ value) }
{
    i32::try_from(value).ok()
}

/// Where a transaction rests that lets others go first: behind its peers, or ahead of them.
fn rests(behind: bool) -> Placement
    ensures { result ≡ (if behind then Placement.RestsBehind else Placement.RestsAhead) }
{
    if behind {
        Placement::RestsBehind
    } else {
        Placement::RestsAhead
    }
}

impl Visit<'_> {
    /// PRIORITY: the transaction has another priority from now on, and lets others go first. A value that isn't one is a
    /// named end.
    pub(crate) fn set_priority(
        &self,
        machine: &mut Machine,
        change: Priority,
    ) -> Result<Made, Memory>
        requires { Meets self.now machine.old (Block.Priority change) }
        ensures { ActsOnOk result self.now (Block.Priority change) machine.old machine.new }
    {
        let mut streams = machine.streams();
        let value = match self.value(machine, change.value, &mut streams) {
            Ok(value) => value,
            Err(end) => return Ok(Made::Ends(end_by(end))),
        };
        let Some(priority) = priority_from(value) else {
            return Ok(Made::Ends(End::Number));
        };
        let placement = rests(change.behind);
        self.pass_with_priority(machine, priority, &streams, placement)?;
        Ok(Made::Step)
    }

    /// PRIORITY with a constant.
    pub(crate) fn set_constant_priority(
        &self,
        machine: &mut Machine,
        change: PriorityConstant,
    ) -> Result<Made, Memory>
        requires { Meets self.now machine.old (Block.Priority (priority_of change)) }
        ensures { ActsOnOk result self.now (Block.Priority (priority_of change))
            machine.old machine.new }
    {
        let placement = rests(change.behind);
        self.pass_and_rise(machine, change.value, placement)?;
        Ok(Made::Step)
    }

    /// BUFFER: the transaction lets the others of its priority go first.
    pub(crate) fn buffer(&self, machine: &mut Machine) -> Result<Made, Memory>
        requires { Meets self.now machine.old Block.Buffer }
        ensures { ActsOnOk result self.now Block.Buffer machine.old machine.new }
    {
        self.pass_to(machine, Placement::RestsBehind)?;
        Ok(Made::Step)
    }
}
