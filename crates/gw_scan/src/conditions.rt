//! Blocks that let transactions pass on a condition: TEST and GATE.
#![tactic(auto, unfolding(gw_step::specs::Blocks::act, gw_step::specs::Blocks::effect))]

ghost use Rattle.std.specs.Prelude.{◌≡◌, ◌≤◌, IfSome};
ghost use Rattle.gw_step.specs.Blocks as model;
ghost use Rattle.gw_step.specs.Placing.{place_by};
ghost use Rattle.gw_machine.specs.Leaving.{BecomesOnOk};
ghost use Rattle.gw_scan.specs.Makes.{MakesOnOk};
ghost use Rattle.gw_scan.specs.Visiting.{ActsOnOk, IsVisit, MayFall, MayGo, Meets, retries_after, passes_after};

use crate::visit::Visit;
use gw_machine::{Machine, Made, end_by};
use gw_members::Memory;
use gw_num::Stream;
use gw_object::{Block, Comparison, Gate, Test};
use gw_step::Placement;

/// Whether two values compare so.
pub(crate) fn compares(comparison: Comparison, left: i64, right: i64) -> bool
    ensures { result ≡ model.compares comparison left right }
{
    match comparison {
        Comparison::Equal => left == right,
        Comparison::NotEqual => left != right,
        Comparison::Greater => left > right,
        Comparison::GreaterOrEqual => left >= right,
        Comparison::Less => left < right,
        Comparison::LessOrEqual => left <= right,
    }
}

/// Where a TEST or a GATE, the block of this number, leads to: to the next block where it is true, else to the other one that
/// it names.
fn led_by(block: u16, otherwise: Option<u16>, so: bool) -> u16
    requires { block ≤ 4096 }
    ensures { result ≡ model.led_by block otherwise so }
{
    if so {
        block + 1
    } else {
        otherwise.unwrap_or(block + 1)
    }
}

impl Visit<'_> {
    /// The transaction is refused, and waits on the retry list.
    #[inline(never)]
    pub(crate) fn wait_to_retry(self, machine: &mut Machine) -> Result<(), Memory>
        requires { IsVisit self machine.old }
        ensures { BecomesOnOk result (place_by self.entry.tx.number Placement.JoinsRetryList)
            machine.old machine.new }
    {
        machine.reserve_rest()?;
        machine.reserve_retry()?;
        machine.place(
            self.tx,
            self.transaction.priority,
            Placement::JoinsRetryList,
        );
        Ok(())
    }

    /// The transaction is refused after draws that left the streams here, and waits on the retry list.
    fn wait_after_draws(&self, machine: &mut Machine, streams: &[Stream; 16]) -> Result<(), Memory>
        requires { IsVisit self.now machine.old }
        ensures { BecomesOnOk result (retries_after streams.now self.now) machine.old machine.new }
    {
        machine.reserve_rest()?;
        machine.reserve_retry()?;
        machine.set_streams(streams);
        machine.place(
            self.tx,
            self.transaction.priority,
            Placement::JoinsRetryList,
        );
        Ok(())
    }

    /// After draws that left the streams here, the transaction goes to the next block where it is so, else to the other one;
    /// without another one it waits.
    #[tactic(auto, using(crate::proofs::Leading::led_by_leads))]
    fn pass_or_retry(
        &self,
        machine: &mut Machine,
        otherwise: Option<u16>,
        so: bool,
        streams: &[Stream; 16],
    ) -> Result<Made, Memory>
        requires visit { IsVisit self.now machine.old }
        requires falls { MayFall self.now }
        requires goes { IfSome otherwise (MayGo self.now) }
        ensures { MakesOnOk result (passes_after streams.now self.now otherwise so) machine.old machine.new }
    {
        if otherwise.is_none() && !so {
            self.wait_after_draws(machine, streams)?;
            return Ok(Made::Step);
        }
        let target = led_by(self.transaction.next, otherwise, so);
        machine.set_streams(streams);
        machine.enter_as_found(self.tx, self.transaction, target);
        Ok(Made::Step)
    }

    /// TEST: two values are compared.
    pub(crate) fn test(&self, machine: &mut Machine, test: Test) -> Result<Made, Memory>
        requires { Meets self.now machine.old (Block.Test test) }
        ensures { ActsOnOk result self.now (Block.Test test) machine.old machine.new }
    {
        let mut streams = machine.streams();
        let left = match self.value(machine, test.left, &mut streams) {
            Ok(left) => left,
            Err(end) => return Ok(Made::Ends(end_by(end))),
        };
        let right = match self.value(machine, test.right, &mut streams) {
            Ok(right) => right,
            Err(end) => return Ok(Made::Ends(end_by(end))),
        };
        let so = compares(test.comparison, left, right);
        self.pass_or_retry(machine, test.otherwise, so, &streams)
    }

    /// GATE: an entity is looked at.
    #[tactic(auto, unfolding(gw_step::specs::Blocks::act, gw_step::specs::Blocks::effect), using(crate::proofs::Leading::led_by_leads))]
    pub(crate) fn gate(&self, machine: &mut Machine, gate: Gate) -> Result<Made, Memory>
        requires { Meets self.now machine.old (Block.Gate gate) }
        ensures { ActsOnOk result self.now (Block.Gate gate) machine.old machine.new }
    {
        let so = machine.is_so(gate.condition, gate.entity);
        if gate.otherwise.is_none() && !so {
            self.wait_to_retry(machine)?;
            return Ok(Made::Step);
        }
        let target = led_by(self.transaction.next, gate.otherwise, so);
        machine.enter_as_found(self.tx, self.transaction, target);
        Ok(Made::Step)
    }
}
