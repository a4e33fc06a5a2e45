//! Blocks that make copies of transactions, and those that assemble them: SPLIT and ASSEMBLE.
#![tactic(auto, unfolding(gw_step::specs::Blocks::act, gw_step::specs::Blocks::effect))]

ghost use Rattle.std.specs.Prelude.{◌≡◌, ◌≤◌, Some, false};
ghost use Rattle.gw_rules.specs.Exits.{leads_to, goes_or_falls};
ghost use Rattle.gw_entities.specs.Facility.{owns_any};
ghost use Rattle.gw_machine.specs.View.{assembly_of};
ghost use Rattle.gw_machine.specs.Leaving.{BecomesOnOk};
ghost use Rattle.gw_scan.specs.Makes.{MakesOnOk};
ghost use Rattle.gw_scan.specs.Visiting.{ActsOnOk, IsVisit, MayFall, Meets, assembly_met, falls_and_copies, first_assembles, joins_and_leaves, other_assembles};

use crate::visit::Visit;
use gw_assemblies::Assembly;
use gw_machine::{Machine, Made};
use gw_members::Memory;
use gw_object::{Block, Split};
use gw_step::{Assembling, End, Placement};

/// The block to which the copies go that a SPLIT, the block of this number, makes.
fn copies_go_to(block: u16, split: Split) -> u16
    requires { block ≤ 4096 }
    ensures { result ≡ leads_to block (goes_or_falls split.target) }
{
    split.target.unwrap_or(block + 1)
}

impl Visit<'_> {
    // COPIES

    /// The transaction enters its SPLIT, and copies of it are made that go to a block.
    fn pass_and_copy(&self, machine: &mut Machine, copies: u16, target: u16) -> Result<(), Memory>
        requires { IsVisit self.now machine.old }
        ensures { BecomesOnOk result (falls_and_copies copies target self.now) machine.old machine.new }
    {
        let parameters = machine.reserve_copies(self.tx, copies)?;
        machine.enter_as_found(self.tx, self.transaction, self.transaction.next + 1);
        let mut parent = self.transaction;
        parent.current = self.transaction.next;
        machine.make_copies(self.tx, parent, target, copies, parameters);
        Ok(())
    }

    /// SPLIT: copies of the transaction are made, if so many more may live; it goes on to the next block.
    pub(crate) fn split(&self, machine: &mut Machine, split: Split) -> Result<Made, Memory>
        requires { Meets self.now machine.old (Block.Split split) }
        ensures { ActsOnOk result self.now (Block.Split split) machine.old machine.new }
    {
        if !machine.may_live(split.copies) {
            return Ok(Made::Ends(End::Live));
        }
        let target = copies_go_to(self.transaction.next, split);
        self.pass_and_copy(machine, split.copies, target)?;
        Ok(Made::Step)
    }

    // ASSEMBLY

    /// ASSEMBLE for the first of a set: it waits at the next block for so many more.
    fn begin_assembly(&self, machine: &mut Machine, missing: u16) -> Result<Made, Memory>
        requires visit { IsVisit self.now machine.old }
        requires falls { MayFall self.now }
        ensures { MakesOnOk result (first_assembles missing self.now) machine.old machine.new }
    {
        machine.reserve_assembly()?;
        let begins = Placement::AwaitsSet(Assembling {
            block: self.transaction.next,
            set: self.transaction.set,
            missing,
        });
        self.pass_to(machine, begins)?;
        Ok(Made::Step)
    }

    /// The transaction enters the ASSEMBLE at which the first of its set waits, and is destroyed.
    fn pass_and_join(&self, machine: &mut Machine, assembly: Assembly) -> Result<(), Memory>
        requires visit { IsVisit self.now machine.old }
        requires there { assembly_met self.now machine.old ≡ Some (assembly_of assembly) }
        ensures { BecomesOnOk result (joins_and_leaves assembly self.now) machine.old machine.new }
    {
        machine.reserve_rest()?;
        machine.reserve_assembled()?;
        machine.enter_as_found(self.tx, self.transaction, self.transaction.next);
        machine.join_assembly(assembly);
        machine.place(self.tx, self.transaction.priority, Placement::LeavesModel);
        Ok(())
    }

    /// ASSEMBLE for another of a set, which owns nothing: it is destroyed, and where it is the last the first goes on.
    fn come_to_assembly(&self, machine: &mut Machine, assembly: Assembly) -> Result<Made, Memory>
        requires visit { IsVisit self.now machine.old }
        requires there { assembly_met self.now machine.old ≡ Some (assembly_of assembly) }
        requires nothing { owns_any self.now.tx.number machine.old.entities.facilities.values ≡ false }
        ensures { MakesOnOk result (other_assembles assembly self.now) machine.old machine.new }
    {
        self.pass_and_join(machine, assembly)?;
        Ok(Made::Step)
    }

    /// ASSEMBLE: transactions of one set, as many as its size, become one; where one is the whole set it passes.
    pub(crate) fn assemble(&self, machine: &mut Machine, size: u16) -> Result<Made, Memory>
        requires { Meets self.now machine.old (Block.Assemble size) }
        ensures { ActsOnOk result self.now (Block.Assemble size) machine.old machine.new }
    {
        if size <= 1 {
            machine.enter_as_found(self.tx, self.transaction, self.transaction.next + 1);
            return Ok(Made::Step);
        }
        match machine.assembly(self.transaction.next, self.transaction.set) {
            None => self.begin_assembly(machine, size - 1),
            Some(assembly) => self.come_to_assembly(machine, assembly),
        }
    }
}
