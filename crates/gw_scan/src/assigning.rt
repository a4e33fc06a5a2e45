//! Blocks that set parameters, logic switches and savevalues, and those that enter values into tables.
#![tactic(auto, unfolding(gw_step::specs::Blocks::act, gw_step::specs::Blocks::effect))]

ghost use Rattle.std.specs.Prelude.{◌≡◌, ◌≤◌, ◌<◌, Some, None, length, IfSome};
ghost use Rattle.gw_step.specs.Blocks as model;
ghost use Rattle.gw_machine.specs.Coherence.{HasSlot};
ghost use Rattle.gw_machine.specs.Leaving.{BecomesBy};
ghost use Rattle.gw_machine.specs.View.{entity_count};
ghost use Rattle.gw_scan.specs.Makes.{MakesFrom};
ghost use Rattle.gw_scan.specs.Origins.{assign_of, save_of};
ghost use Rattle.gw_scan.specs.Visiting.{Acts, IsVisit, MayFall, Meets, after_assignment, plus_after, tabulate_after};

use crate::decoding::{AssignConstant, SaveConstant};
use crate::visit::Visit;
use gw_machine::{Machine, Made, end_by, end_by_fault};
use gw_num::{NumFault, Stream, add, sub};
use gw_object::{Assign, Block, Logic, Loop, Mode, Plus, Save};
use gw_rules::operand_at;

/// A value put where an old one is: it takes its place, or is added to it, or subtracted from it.
fn put_by(mode: Mode, old: i64, value: i64) -> Result<i64, NumFault>
    ensures { result ≡ model.put_by mode old value }
{
    match mode {
        Mode::Set => Ok(value),
        Mode::Add => add(old, value),
        Mode::Subtract => sub(old, value),
    }
}

/// Where a LOOP, the block of this number, leads to when its parameter has come to this.
fn looped(block: u16, target: u16, left: i64) -> u16
    requires { block ≤ 4096 }
    ensures { result ≡ model.loop_target block target left }
{
    if 0 < left { target } else { block + 1 }
}

impl Visit<'_> {
    // PARAMETERS

    /// A parameter of the transaction is set, and it enters its next block; the one after is now `next`.
    #[inline(always)]
    pub(crate) fn assign_and_enter(
        &self,
        machine: &mut Machine,
        next: u16,
        parameter: u8,
        value: i64,
    )
        requires visit { IsVisit self.now machine.old }
        requires parameter { HasSlot machine.old parameter }
        ensures { BecomesBy (after_assignment self.now next parameter value) machine.old machine.new }
    {
        machine.assign(self.tx, parameter, value);
        machine.enter(self.tx, self.transaction, next);
    }

    /// ASSIGN: a parameter of the transaction is set, or its value, 0 where it has none, is raised or lowered.
    pub(crate) fn assign(&self, machine: &mut Machine, assign: Assign) -> Made
        requires { Meets self.now machine.old (Block.Assign assign) }
        ensures { Acts result self.now (Block.Assign assign) machine.old machine.new }
    {
        let mut streams = machine.streams();
        let value = match self.value(machine, assign.value, &mut streams) {
            Ok(value) => value,
            Err(end) => return Made::Ends(end_by(end)),
        };
        let old = machine.parameter_or_zero(self.tx, assign.parameter);
        let new = match put_by(assign.mode, old, value) {
            Ok(new) => new,
            Err(fault) => return Made::Ends(end_by_fault(fault)),
        };
        let next = self.transaction.next + 1;
        self.assign_and_enter(machine, next, assign.parameter, new);
        machine.set_streams(&streams);
        Made::Step
    }

    /// ASSIGN of a constant.
    pub(crate) fn assign_constant(&self, machine: &mut Machine, assign: AssignConstant) -> Made
        requires { Meets self.now machine.old (Block.Assign (assign_of assign)) }
        ensures { Acts result self.now (Block.Assign (assign_of assign)) machine.old machine.new }
    {
        let old = machine.parameter_or_zero(self.tx, assign.parameter);
        let new = match put_by(assign.mode, old, assign.value) {
            Ok(new) => new,
            Err(fault) => return Made::Ends(end_by_fault(fault)),
        };
        let next = self.transaction.next + 1;
        self.assign_and_enter(machine, next, assign.parameter, new);
        Made::Step
    }

    /// LOOP: a parameter of the transaction falls by one, and while it is above 0 the transaction goes to a block.
    pub(crate) fn loop_back(&self, machine: &mut Machine, l: Loop) -> Made
        requires { Meets self.now machine.old (Block.Loop l) }
        ensures { Acts result self.now (Block.Loop l) machine.old machine.new }
    {
        let old = machine.parameter(self.tx, l.parameter);
        let left = match sub(old, 1) {
            Ok(left) => left,
            Err(fault) => return Made::Ends(end_by_fault(fault)),
        };
        let next = looped(self.transaction.next, l.target, left);
        self.assign_and_enter(machine, next, l.parameter, left);
        Made::Step
    }

    // MARK TIMES

    /// MARK with no parameter: the transaction enters, and its mark time is the clock.
    #[inline(always)]
    pub(crate) fn mark(&self, machine: &mut Machine) -> Made
        requires { Meets self.now machine.old (Block.Mark None) }
        ensures { Acts result self.now (Block.Mark None) machine.old machine.new }
    {
        machine.enter_marked(self.tx, self.transaction);
        Made::Step
    }

    /// MARK with a parameter: its value is the clock from now on.
    pub(crate) fn mark_parameter(&self, machine: &mut Machine, parameter: u8) -> Made
        requires { Meets self.now machine.old (Block.Mark (Some parameter)) }
        ensures { Acts result self.now (Block.Mark (Some parameter)) machine.old machine.new }
    {
        let next = self.transaction.next + 1;
        let clock = machine.clock();
        self.assign_and_enter(machine, next, parameter, clock);
        Made::Step
    }

    // PLUS

    /// PLUS whose value is known, with the streams here: a parameter has it from now on, if one takes it, and the
    /// transaction enters.
    fn take_value(
        &self,
        machine: &mut Machine,
        parameter: Option<u8>,
        value: i64,
        streams: &[Stream; 16],
    ) -> Made
        requires visit { IsVisit self.now machine.old }
        requires parameter { IfSome parameter (HasSlot machine.old) }
        requires falls { MayFall self.now }
        ensures { MakesFrom result (plus_after streams.now parameter value self.now) machine.old machine.new }
    {
        let next = self.transaction.next + 1;
        match parameter {
            None => {
                machine.enter_as_found(self.tx, self.transaction, next);
                machine.set_streams(streams);
                Made::Step
            }
            Some(parameter) => {
                self.assign_and_enter(machine, next, parameter, value);
                machine.set_streams(streams);
                Made::Step
            }
        }
    }

    /// PLUS: an expression is evaluated, and its value is a parameter's from now on, if one takes it.
    pub(crate) fn plus(&self, machine: &mut Machine, plus: Plus) -> Made
        requires { Meets self.now machine.old (Block.Plus plus) }
        ensures { Acts result self.now (Block.Plus plus) machine.old machine.new }
    {
        let mut streams = machine.streams();
        match self.value(machine, plus.value, &mut streams) {
            Ok(value) => self.take_value(machine, plus.parameter, value, &streams),
            Err(end) => Made::Ends(end_by(end)),
        }
    }

    // LOGIC SWITCHES AND SAVEVALUES

    /// LOGIC: a logic switch is set, reset or inverted.
    pub(crate) fn logic(&self, machine: &mut Machine, logic: Logic) -> Made
        requires { Meets self.now machine.old (Block.Logic logic) }
        ensures { Acts result self.now (Block.Logic logic) machine.old machine.new }
    {
        machine.turn_switch(logic);
        machine.enter_as_found(self.tx, self.transaction, self.transaction.next + 1);
        Made::Step
    }

    /// SAVEVALUE: a savevalue is set, or is raised or lowered.
    pub(crate) fn save(&self, machine: &mut Machine, save: Save) -> Made
        requires { Meets self.now machine.old (Block.Savevalue save) }
        ensures { Acts result self.now (Block.Savevalue save) machine.old machine.new }
    {
        let mut streams = machine.streams();
        let value = match self.value(machine, save.value, &mut streams) {
            Ok(value) => value,
            Err(end) => return Made::Ends(end_by(end)),
        };
        let old = machine.entities().savevalues.get(save.savevalue);
        let new = match put_by(save.mode, old, value) {
            Ok(new) => new,
            Err(fault) => return Made::Ends(end_by_fault(fault)),
        };
        machine.set_streams(&streams);
        machine.set_savevalue(save.savevalue, new);
        machine.enter_as_found(self.tx, self.transaction, self.transaction.next + 1);
        Made::Step
    }

    /// SAVEVALUE with a constant.
    pub(crate) fn save_constant(&self, machine: &mut Machine, save: SaveConstant) -> Made
        requires { Meets self.now machine.old (Block.Savevalue (save_of save)) }
        ensures { Acts result self.now (Block.Savevalue (save_of save)) machine.old machine.new }
    {
        let old = machine.entities().savevalues.get(save.savevalue);
        let new = match put_by(save.mode, old, save.value) {
            Ok(new) => new,
            Err(fault) => return Made::Ends(end_by_fault(fault)),
        };
        machine.set_savevalue(save.savevalue, new);
        machine.enter_as_found(self.tx, self.transaction, self.transaction.next + 1);
        Made::Step
    }

    // TABLES

    /// TABULATE whose value is known, with the streams here: it is entered into the table, and the transaction enters.
    fn enter_value(
        &self,
        machine: &mut Machine,
        table: u16,
        value: i64,
        streams: &[Stream; 16],
    ) -> Made
        requires visit { IsVisit self.now machine.old }
        requires there { table < entity_count machine.old }
        requires falls { MayFall self.now }
        ensures { MakesFrom result (tabulate_after streams.now table value self.now) machine.old machine.new }
    {
        match machine.tabulate(table, value) {
            Ok(()) => machine.enter_as_found(self.tx, self.transaction, self.transaction.next + 1),
            Err(fault) => return Made::Ends(end_by_fault(fault)),
        }
        machine.set_streams(streams);
        Made::Step
    }

    /// TABULATE: the argument of a table is evaluated, and its value is entered into the table.
    pub(crate) fn tabulate(&self, machine: &mut Machine, table: u16) -> Made
        requires { Meets self.now machine.old (Block.Tabulate table) }
        ensures { Acts result self.now (Block.Tabulate table) machine.old machine.new }
    {
        let mut streams = machine.streams();
        let entities = self.verified.object().parts().entities.as_slice();
        let argument = operand_at(entities, table).unwrap();
        match self.value(machine, argument, &mut streams) {
            Ok(value) => self.enter_value(machine, table, value, &streams),
            Err(end) => Made::Ends(end_by(end)),
        }
    }
}
