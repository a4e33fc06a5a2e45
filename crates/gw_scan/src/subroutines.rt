//! Subroutines: transfers to them, and back from them.
#![tactic(auto, unfolding(gw_step::specs::Blocks::act, gw_step::specs::Blocks::effect))]

ghost use Rattle.std.specs.Prelude.{◌≡◌, ◌≤◌};
ghost use Rattle.gw_step.specs.Blocks as model;
ghost use Rattle.gw_scan.specs.Visiting.{Acts, Meets};

use crate::visit::Visit;
use gw_machine::{Machine, Made};
use gw_object::{Block, Call};

/// The number of the block after the one whose number a value is.
fn block_after(value: i64) -> u16
    requires { (1 ≤ model.block_after value) × (model.block_after value ≤ 4096) }
    ensures { result ≡ model.block_after value }
{
    (value + 1) as u16
}

impl Visit<'_> {
    /// TRANSFER in subroutine mode: a parameter of the transaction is set to the number of the block, and the transaction
    /// goes to the subroutine.
    pub(crate) fn call_subroutine(&self, machine: &mut Machine, call: Call) -> Made
        requires { Meets self.now machine.old (Block.TransferToSubroutine call) }
        ensures { Acts result self.now (Block.TransferToSubroutine call) machine.old machine.new }
    {
        let number = i64::from(self.transaction.next);
        self.assign_and_enter(machine, call.target, call.parameter, number);
        Made::Step
    }

    /// TRANSFER in parameter mode: the transaction goes to the block after the one whose number is in a parameter of it.
    pub(crate) fn come_back(&self, machine: &mut Machine, parameter: u8) -> Made
        requires { Meets self.now machine.old (Block.TransferByParameter parameter) }
        ensures { Acts result self.now (Block.TransferByParameter parameter)
            machine.old machine.new }
    {
        let value = machine.parameter(self.tx, parameter);
        machine.enter_as_found(self.tx, self.transaction, block_after(value));
        Made::Step
    }
}
