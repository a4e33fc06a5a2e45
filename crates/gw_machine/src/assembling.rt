//! Assembly sets: who waits for the rest of its set, and who comes to it.

ghost use Rattle.std.specs.Prelude.{◌≡◌, ◌<◌, IfSome, option_map, OnOk};
ghost use Rattle.gw_step.specs.Changes as change;
ghost use Rattle.gw_step.specs.Blocks as model;
ghost use Rattle.gw_machine.specs.View.{state_of, assembly_of};
ghost use Rattle.gw_machine.specs.Leaving.{HasBegun, BecomesBy};
ghost use Rattle.gw_machine.specs.Frames.{OnlyAssembliesMove, LosesRoomToMove};

use crate::machine::Machine;
use gw_assemblies::Assembly;
use gw_members::Memory;

impl Machine {
    /// The assembly of a set at a block, if it has begun.
    pub fn assembly(&self, block: u16, set: u64) -> Option<Assembly>
        ensures value { option_map assembly_of result
            ≡ model.assembly_at block set (state_of self.now) }
        ensures own { IfSome result (λ a. (a.block ≡ block) × (a.set ≡ set)) }
    {
        self.assemblies.find(block, set)
    }

    /// Makes room for one more assembly.
    ///
    /// It fails for want of memory.
    pub fn reserve_assembly(&mut self) -> Result<(), Memory>
        ensures state { state_of self.new ≡ state_of self.old }
        ensures room { OnOk result (0 < self.new.assemblies.room) }
        ensures frame { self.new ≡ record self.old { assemblies = self.new.assemblies } }
    {
        self.assemblies.reserve(1)
    }

    /// The last of its set has come to an assembly: who waited joins the current events chain, behind its peers.
    fn assemble(&mut self, assembly: Assembly)
        requires there { HasBegun assembly self.old }
        requires room { 0 < self.old.current_events.room }
        ensures state { BecomesBy (change.assemble_all (assembly_of assembly)) self.old self.new }
        ensures room { LosesRoomToMove 1 self.old self.new }
        ensures frame { OnlyAssembliesMove self.old self.new }
    {
        let first = self.assemblies.finish(assembly.block, assembly.set).first;
        let priority = self.transactions.get(first).priority;
        self.current_events.insert_behind(first, priority);
    }

    /// Another of its set has come to an assembly that has begun, where it finds the first: where it is the last of its
    /// set, that one goes on.
    pub fn join_assembly(&mut self, assembly: Assembly)
        requires there { HasBegun assembly self.old }
        requires room { 0 < self.old.current_events.room }
        ensures state { state_of self.new
            ≡ model.joined_by_one (assembly_of assembly) (state_of self.old) }
        ensures room { LosesRoomToMove 1 self.old self.new }
        ensures frame { OnlyAssembliesMove self.old self.new }
    {
        if assembly.missing <= 1 {
            self.assemble(assembly);
        } else {
            self.assemblies.come(assembly.block, assembly.set);
        }
    }
}
