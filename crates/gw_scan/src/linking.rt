//! Blocks that put transactions on user chains, and those that take them from there: LINK and UNLINK.
#![tactic(auto, unfolding(gw_step::specs::Blocks::act, gw_step::specs::Blocks::effect))]

ghost use Rattle.std.specs.Prelude.{◌≡◌, ◌<◌, length};
ghost use Rattle.gw_step.specs.Blocks as model;
ghost use Rattle.gw_machine.specs.View.{state_of, entity_count};
ghost use Rattle.gw_machine.specs.Leaving.{BecomesOnOk};
ghost use Rattle.gw_scan.specs.Visiting.{ActsOnOk, IsVisit, Meets, falls_and_unlinks};

use crate::visit::Visit;
use gw_machine::{Machine, Made};
use gw_members::Memory;
use gw_object::{Block, Link, Unlink};
use gw_step::Placement;

/// How many members an UNLINK takes from its user chain: as many as it asks for at most, or all.
fn taken_by(machine: &Machine, unlink: Unlink) -> usize
    requires there { unlink.chain < entity_count machine.now }
    ensures { result ≡ model.taken_by unlink (state_of machine.now) }
{
    let members = machine.members(unlink.chain);
    match unlink.most {
        None => members,
        Some(most) => (most as usize).min(members),
    }
}

impl Visit<'_> {
    /// LINK: the transaction joins a user chain, at its front or its end.
    pub(crate) fn link(&self, machine: &mut Machine, link: Link) -> Result<Made, Memory>
        requires { Meets self.now machine.old (Block.Link link) }
        ensures { ActsOnOk result self.now (Block.Link link) machine.old machine.new }
    {
        machine.reserve_rest()?;
        machine.reserve_link(link.chain)?;
        machine.enter_as_found(self.tx, self.transaction, self.transaction.next);
        machine.place(
            self.tx,
            self.transaction.priority,
            Placement::JoinsChain(link),
        );
        Ok(Made::Step)
    }

    /// The transaction enters its UNLINK, and so many members leave a user chain for a block.
    fn pass_and_unlink(
        &self,
        machine: &mut Machine,
        unlink: Unlink,
        count: usize,
    ) -> Result<(), Memory>
        requires visit { IsVisit self.now machine.old }
        requires there { unlink.chain < entity_count machine.old }
        ensures { BecomesOnOk result (falls_and_unlinks count unlink self.now) machine.old machine.new }
    {
        machine.reserve_current(count)?;
        machine.enter_as_found(self.tx, self.transaction, self.transaction.next + 1);
        machine.unlink(unlink.chain, unlink.target, count);
        Ok(())
    }

    /// UNLINK: members leave a user chain, from its front, and go to a block; the transaction goes on to the next one.
    pub(crate) fn unlink(&self, machine: &mut Machine, unlink: Unlink) -> Result<Made, Memory>
        requires { Meets self.now machine.old (Block.Unlink unlink) }
        ensures { ActsOnOk result self.now (Block.Unlink unlink) machine.old machine.new }
    {
        let count = taken_by(machine, unlink);
        self.pass_and_unlink(machine, unlink, count)?;
        Ok(Made::Step)
    }
}
