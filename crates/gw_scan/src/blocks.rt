//! What the active transaction does at its next block.
#![tactic(auto, unfolding(gw_step::specs::Blocks::act, gw_step::specs::Blocks::effect))]

ghost use Rattle.std.specs.Prelude.{◌≡◌, ◌≤◌, ◌<◌, ◌+◌, pos, ◌≤ℤ◌, [], true, None, length, map};
ghost use Rattle.gw_num.specs.Table.{at};
ghost use Rattle.gw_entities.specs.Facility.{is_idle as is_idle_now};
ghost use Rattle.gw_step.specs.Changes as change;
ghost use Rattle.gw_step.specs.Blocks as model;
ghost use Rattle.gw_machine.specs.View.{state_of, entity_count};
ghost use Rattle.gw_machine.specs.Leaving.{BecomesBy, BecomesOnOk};
ghost use Rattle.gw_machine.specs.Spans.{spread_of};
ghost use Rattle.gw_scan.specs.Origins.{generate_of, origin};
ghost use Rattle.gw_scan.specs.Makes.{IsToldStep, MakesOnOk, RunsOn};
ghost use Rattle.gw_scan.specs.Visiting.{Acts, ActsOnOk, IsEntering, IsVisit, MayMake, Meets, arrival_with, arrival_drawn, falls_and_hands_over, falls_and_admits, leaves_after, enters_and_leaves, meets_its_next};

use crate::decoding::{Arrivals, Decoded, decoded_at};
use crate::visit::{Visit, blocks_of};
use gw_machine::{Machine, Made, Span, active_subject, drawn_thousandths, end_by};
use gw_members::Memory;
use gw_num::Stream;
use gw_object::{Block, Both, Fraction, Generate, Operand, Spread, Units};
use gw_step::{End, Placement};

/// Where a TRANSFER by fraction, the block of this number, leads to when so many thousandths are drawn.
fn chosen(block: u16, fraction: Fraction, drawn: i64) -> u16
    requires { block ≤ 4096 }
    ensures { result ≡ model.choice_of block fraction drawn }
{
    if drawn < i64::from(fraction.thousandths) {
        fraction.target
    } else {
        fraction.otherwise.unwrap_or(block + 1)
    }
}

/// What a step made that may have brought a named end.
#[inline(always)]
fn told_step(machine: &Machine) -> Made
    ensures { IsToldStep result machine.now }
{
    if machine.named_end().is_some() {
        return Made::Last;
    }
    Made::Step
}

impl Visit<'_> {
    // TIME

    /// GENERATE, with the next arrival at a moment, after whose draw the streams are here.
    fn generate_and_arrive(
        &self,
        machine: &mut Machine,
        priority: i32,
        moment: i64,
        streams: &[Stream; 16],
    ) -> Result<(), Memory>
        requires { IsVisit self.now machine.old }
        ensures { BecomesOnOk result (arrival_with streams.now priority moment self.now) machine.old machine.new }
    {
        let parameters = machine.reserve_arrival()?;
        machine.set_streams(streams);
        machine.arrive(self.transaction.next, priority, moment, parameters);
        machine.enter_marked(self.tx, self.transaction);
        Ok(())
    }

    /// GENERATE: the transaction enters the model, and the next arrival is scheduled, if one is owed.
    fn generate(&self, machine: &mut Machine, g: Generate) -> Result<Made, Memory>
        requires { Meets self.now machine.old (Block.Generate g) }
        ensures { ActsOnOk result self.now (Block.Generate g) machine.old machine.new }
    {
        if !machine.owes(self.transaction.next, g.limit) {
            machine.enter_marked(self.tx, self.transaction);
            return Ok(Made::Step);
        }
        let mut streams = machine.streams();
        let next = machine.next_subject(g.priority);
        let moment = match machine.drawn_moment(self.verified, next, g.interval, &mut streams) {
            Ok(moment) => moment,
            Err(end) => return Ok(Made::Ends(end)),
        };
        if !machine.may_live(1) {
            return Ok(Made::Ends(End::Live));
        }
        self.generate_and_arrive(machine, g.priority, moment, &streams)?;
        Ok(Made::Step)
    }

    /// GENERATE, with the next arrival at a moment, after whose draw the first stream is here.
    fn enter_and_arrive(
        &self,
        machine: &mut Machine,
        priority: i32,
        moment: i64,
        stream: Stream,
    ) -> Result<(), Memory>
        requires { IsVisit self.now machine.old }
        ensures { BecomesOnOk result (arrival_drawn stream priority moment self.now) machine.old machine.new }
    {
        let unset = machine.reserve_arrival()?;
        machine.set_first_stream(stream);
        machine.arrive(self.transaction.next, priority, moment, unset);
        machine.enter_marked(self.tx, self.transaction);
        Ok(())
    }

    /// GENERATE that owes an arrival, whose interval is of constants.
    fn arrive_within(&self, machine: &mut Machine, g: Arrivals) -> Result<Made, Memory>
        requires meets { Meets self.now machine.old (Block.Generate (generate_of g)) }
        requires owed { model.is_owed g.limit
            (at 0 machine.old.scheduled self.now.transaction.next) ≡ true }
        ensures { ActsOnOk result self.now (Block.Generate (generate_of g))
            machine.old machine.new }
    {
        let (moment, stream) = match machine.moment_within(g.interval) {
            Ok(drawn) => drawn,
            Err(end) => return Ok(Made::Ends(end)),
        };
        if !machine.may_live(1) {
            return Ok(Made::Ends(End::Live));
        }
        self.enter_and_arrive(machine, g.priority, moment, stream)?;
        Ok(Made::Step)
    }

    /// GENERATE whose interval is of constants: the transaction enters the model, and the next arrival is scheduled, if one
    /// is owed.
    fn generate_within(&self, machine: &mut Machine, g: Arrivals) -> Result<Made, Memory>
        requires { Meets self.now machine.old (Block.Generate (generate_of g)) }
        ensures { ActsOnOk result self.now (Block.Generate (generate_of g))
            machine.old machine.new }
    {
        if !machine.owes(self.transaction.next, g.limit) {
            machine.enter_marked(self.tx, self.transaction);
            return Ok(Made::Step);
        }
        self.arrive_within(machine, g)
    }

    /// ADVANCE by constants: the transaction rests for a time of a span; where that is 0 it stays active.
    fn advance_within(&self, machine: &mut Machine, span: Span) -> Result<Made, Memory>
        requires { Meets self.now machine.old (Block.Advance (spread_of span)) }
        ensures { ActsOnOk result self.now (Block.Advance (spread_of span))
            machine.old machine.new }
    {
        let (moment, stream) = match machine.moment_within(span) {
            Ok(drawn) => drawn,
            Err(end) => return Ok(Made::Ends(end)),
        };
        self.pass_until_after(machine, stream, moment)?;
        Ok(Made::Step)
    }

    /// ADVANCE: the transaction rests for a drawn time; where that is 0 it stays active.
    fn advance(&self, machine: &mut Machine, time: Spread) -> Result<Made, Memory>
        requires { Meets self.now machine.old (Block.Advance time) }
        ensures { ActsOnOk result self.now (Block.Advance time) machine.old machine.new }
    {
        let mut streams = machine.streams();
        let subject = active_subject(self.tx, self.transaction);
        let moment = match machine.drawn_moment(self.verified, subject, time, &mut streams) {
            Ok(moment) => moment,
            Err(end) => return Ok(Made::Ends(end)),
        };
        self.pass_until(machine, &streams, moment)?;
        Ok(Made::Step)
    }

    // FACILITIES

    /// SEIZE: the transaction owns an idle facility from now on, and waits for one that another owns.
    #[tactic(auto, unfolding(gw_step::specs::Blocks::act, gw_step::specs::Blocks::effect), using(crate::proofs::Taking::seizes))]
    fn seize(&self, machine: &mut Machine, f: u16) -> Result<Made, Memory>
        requires { Meets self.now machine.old (Block.Seize f) }
        ensures { ActsOnOk result self.now (Block.Seize f) machine.old machine.new }
    {
        if machine.waits_for_facility(f, self.tx.number) {
            machine.wait_for(f, self.tx, self.transaction.priority)?;
            return Ok(Made::Step);
        }
        machine.enter_as_found(self.tx, self.transaction, self.transaction.next + 1);
        machine.seize_facility(f, self.tx.number);
        Ok(Made::Step)
    }

    /// RELEASE where the facility was given up: the transaction enters, and the facility is handed over.
    fn pass_and_hand_over(&self, machine: &mut Machine, f: u16)
        requires entering { IsEntering self.now machine.old }
        requires there { f < length machine.old.entities.facilities.values }
        requires idle { is_idle_now (change.facility f (state_of machine.old)) ≡ true }
        requires room { 0 < machine.old.current_events.room }
        ensures { BecomesBy (falls_and_hands_over f self.now) machine.old machine.new }
    {
        machine.enter_as_found(self.tx, self.transaction, self.transaction.next + 1);
        machine.hand_over(blocks_of(self.verified), f);
    }

    /// RELEASE: its owner gives a facility up, and it is handed over.
    fn release(&self, machine: &mut Machine, f: u16) -> Result<Made, Memory>
        requires { Meets self.now machine.old (Block.Release f) }
        ensures { ActsOnOk result self.now (Block.Release f) machine.old machine.new }
    {
        machine.reserve_current(1)?;
        machine.release_facility(f, self.tx.number);
        self.pass_and_hand_over(machine, f);
        Ok(Made::Step)
    }

    // STORAGES

    /// ENTER: units are taken where they are free; else the transaction waits.
    #[tactic(auto, unfolding(gw_step::specs::Blocks::act, gw_step::specs::Blocks::effect), using(crate::proofs::Taking::enters))]
    fn enter_storage(&self, machine: &mut Machine, u: Units) -> Result<Made, Memory>
        requires { Meets self.now machine.old (Block.Enter u) }
        ensures { ActsOnOk result self.now (Block.Enter u) machine.old machine.new }
    {
        if machine.waits_for_units(u) {
            machine.wait_for(u.entity, self.tx, self.transaction.priority)?;
            return Ok(Made::Step);
        }
        machine.enter_as_found(self.tx, self.transaction, self.transaction.next + 1);
        machine.take(u);
        Ok(Made::Step)
    }

    /// LEAVE where the units were given back: the transaction enters, and waiters are admitted.
    fn pass_and_admit(&self, machine: &mut Machine, e: u16)
        requires entering { IsEntering self.now machine.old }
        requires there { e < entity_count machine.old }
        requires room { length (at [] machine.old.waits.lists e) ≤ machine.old.current_events.room }
        ensures { BecomesBy (falls_and_admits e self.now) machine.old machine.new }
    {
        machine.enter_as_found(self.tx, self.transaction, self.transaction.next + 1);
        machine.admit(blocks_of(self.verified), e);
    }

    /// LEAVE where nobody waits: units are given back.
    fn leave_alone(&self, machine: &mut Machine, u: Units) -> Made
        requires meets { Meets self.now machine.old (Block.Leave u) }
        requires nobody { length (at [] machine.old.waits.lists u.entity) ≡ 0 }
        ensures { Acts result self.now (Block.Leave u) machine.old machine.new }
    {
        machine.enter_as_found(self.tx, self.transaction, self.transaction.next + 1);
        machine.give_back(u);
        Made::Step
    }

    /// LEAVE: units are given back, and waiters are admitted.
    fn leave(&self, machine: &mut Machine, u: Units) -> Result<Made, Memory>
        requires { Meets self.now machine.old (Block.Leave u) }
        ensures { ActsOnOk result self.now (Block.Leave u) machine.old machine.new }
    {
        let waiting = machine.waiting_len(u.entity);
        if waiting == 0 {
            return Ok(self.leave_alone(machine, u));
        }
        machine.reserve_current(waiting)?;
        machine.give_back(u);
        self.pass_and_admit(machine, u.entity);
        Ok(Made::Step)
    }

    // QUEUES

    /// QUEUE: units join a queue.
    fn join_queue(&self, machine: &mut Machine, u: Units) -> Made
        requires { Meets self.now machine.old (Block.Queue u) }
        ensures { Acts result self.now (Block.Queue u) machine.old machine.new }
    {
        machine.enter_as_found(self.tx, self.transaction, self.transaction.next + 1);
        machine.join(u);
        Made::Step
    }

    /// DEPART: units depart from a queue.
    fn depart(&self, machine: &mut Machine, u: Units) -> Made
        requires { Meets self.now machine.old (Block.Depart u) }
        ensures { Acts result self.now (Block.Depart u) machine.old machine.new }
    {
        machine.enter_as_found(self.tx, self.transaction, self.transaction.next + 1);
        machine.depart_units(u);
        Made::Step
    }

    // TRANSFERS

    /// TRANSFER in unconditional mode: the transaction goes to the block of a number.
    fn transfer(&self, machine: &mut Machine, target: u16) -> Made
        requires { Meets self.now machine.old (Block.Transfer target) }
        ensures { Acts result self.now (Block.Transfer target) machine.old machine.new }
    {
        machine.enter_as_found(self.tx, self.transaction, target);
        Made::Step
    }

    /// TRANSFER in fractional mode: thousandths are drawn from the first stream, and the transaction goes to one block or
    /// the other.
    #[tactic(auto, unfolding(gw_step::specs::Blocks::act, gw_step::specs::Blocks::effect), using(crate::proofs::Leading::chosen_leads))]
    fn transfer_by_fraction(&self, machine: &mut Machine, fraction: Fraction) -> Made
        requires { Meets self.now machine.old (Block.TransferByFraction fraction) }
        ensures { Acts result self.now (Block.TransferByFraction fraction) machine.old machine.new }
    {
        let mut streams = machine.streams();
        let drawn = drawn_thousandths(1, &mut streams);
        let target = chosen(self.transaction.next, fraction, drawn);
        machine.set_streams(&streams);
        machine.enter_as_found(self.tx, self.transaction, target);
        Made::Step
    }

    /// TRANSFER BOTH: the transaction enters, and goes on from there to one of two blocks.
    fn transfer_to_either(&self, machine: &mut Machine, _both: Both) -> Made
        requires { Meets self.now machine.old (Block.TransferBoth _both) }
        ensures { Acts result self.now (Block.TransferBoth _both) machine.old machine.new }
    {
        machine.enter_as_found(self.tx, self.transaction, self.transaction.next);
        Made::Step
    }

    // THE END OF A TRANSACTION

    /// The transaction enters its TERMINATE block, the termination count falls, and it is destroyed.
    fn pass_and_leave(
        &self,
        machine: &mut Machine,
        by: i64,
        streams: &[Stream; 16],
    ) -> Result<(), Memory>
        requires visit { IsVisit self.now machine.old }
        requires by { pos 0 ≤ℤ by }
        ensures { BecomesOnOk result (leaves_after streams.now by self.now) machine.old machine.new }
    {
        machine.reserve_wake()?;
        machine.set_streams(streams);
        machine.enter_as_found(self.tx, self.transaction, self.transaction.next);
        machine.count_down(by);
        machine.place_nowhere(self.tx);
        Ok(())
    }

    /// The transaction enters its TERMINATE block with no draw, the termination count falls, and it is destroyed.
    fn enter_and_leave(&self, machine: &mut Machine, by: i64) -> Result<(), Memory>
        requires visit { IsVisit self.now machine.old }
        requires by { pos 0 ≤ℤ by }
        ensures { BecomesOnOk result (enters_and_leaves by self.now) machine.old machine.new }
    {
        machine.reserve_wake()?;
        machine.enter_as_found(self.tx, self.transaction, self.transaction.next);
        machine.count_down(by);
        machine.place_nowhere(self.tx);
        Ok(())
    }

    /// TERMINATE by a constant.
    fn terminate_by(&self, machine: &mut Machine, by: u32) -> Result<Made, Memory>
        requires { Meets self.now machine.old (Block.Terminate (Operand.Constant (pos by))) }
        ensures made { ActsOnOk result self.now (Block.Terminate (Operand.Constant (pos by)))
            machine.old machine.new }
        ensures on { RunsOn result machine.new }
    {
        self.enter_and_leave(machine, i64::from(by))?;
        Ok(told_step(machine))
    }

    /// TERMINATE: the transaction, which owns nothing, is destroyed, and the termination count falls. Less than 0 is a
    /// named end.
    fn terminate(&self, machine: &mut Machine, by: Operand) -> Result<Made, Memory>
        requires { Meets self.now machine.old (Block.Terminate by) }
        ensures made { ActsOnOk result self.now (Block.Terminate by) machine.old machine.new }
        ensures on { RunsOn result machine.new }
    {
        let mut streams = machine.streams();
        let by = match self.value(machine, by, &mut streams) {
            Ok(by) => by,
            Err(end) => return Ok(Made::Ends(end_by(end))),
        };
        if by < 0 {
            return Ok(Made::Ends(End::Number));
        }
        self.pass_and_leave(machine, by, &streams)?;
        Ok(told_step(machine))
    }

    // THE STEP

    /// What the transaction does at its one next block, which is among these that are decoded; on Memory, nothing.
    #[inline(always)]
    pub(crate) fn meet(&self, machine: &mut Machine, decoded: &[Decoded]) -> Result<Made, Memory>
        requires may { MayMake self.now machine.old }
        requires table { map origin decoded.now ≡ self.now.verified.now.blocks }
        ensures made { MakesOnOk result (meets_its_next self.now) machine.old machine.new }
        ensures on { machine.old.ended ≡ None → RunsOn result machine.new }
    {
        let block = decoded_at(decoded, self.transaction.next);
        self.act(machine, block)
    }

    /// What the transaction does at its next block, which is the origin of this one; on Memory, nothing.
    #[inline(always)]
    pub(crate) fn act(&self, machine: &mut Machine, block: &Decoded) -> Result<Made, Memory>
        requires { Meets self.now machine.old (origin block.now) }
        ensures made { ActsOnOk result self.now (origin block.now) machine.old machine.new }
        ensures on { model.is_terminate (origin block.now) ≡ true → RunsOn result machine.new }
    {
        match block {
            Decoded::GenerateWithin(arrivals) => self.generate_within(machine, *arrivals),
            Decoded::AdvanceWithin(span) => self.advance_within(machine, *span),
            Decoded::TerminateBy(by) => self.terminate_by(machine, *by),
            Decoded::AssignConstant(assign) => Ok(self.assign_constant(machine, *assign)),
            Decoded::SavevalueConstant(save) => Ok(self.save_constant(machine, *save)),
            Decoded::PriorityConstant(change) => self.set_constant_priority(machine, *change),
            Decoded::Generate(g) => self.generate(machine, *g),
            Decoded::Terminate(by) => self.terminate(machine, *by),
            Decoded::Advance(time) => self.advance(machine, *time),
            Decoded::Seize(f) => self.seize(machine, *f),
            Decoded::Release(f) => self.release(machine, *f),
            Decoded::Enter(units) => self.enter_storage(machine, *units),
            Decoded::Leave(units) => self.leave(machine, *units),
            Decoded::Queue(units) => Ok(self.join_queue(machine, *units)),
            Decoded::Depart(units) => Ok(self.depart(machine, *units)),
            Decoded::Test(test) => self.test(machine, *test),
            Decoded::Gate(gate) => self.gate(machine, *gate),
            Decoded::Transfer(target) => Ok(self.transfer(machine, *target)),
            Decoded::TransferByFraction(f) => Ok(self.transfer_by_fraction(machine, *f)),
            Decoded::TransferBoth(both) => Ok(self.transfer_to_either(machine, *both)),
            Decoded::TransferToSubroutine(call) => Ok(self.call_subroutine(machine, *call)),
            Decoded::TransferByParameter(p) => Ok(self.come_back(machine, *p)),
            Decoded::Assign(assign) => Ok(self.assign(machine, *assign)),
            Decoded::Plus(plus) => Ok(self.plus(machine, *plus)),
            Decoded::Loop(l) => Ok(self.loop_back(machine, *l)),
            Decoded::Split(split) => self.split(machine, *split),
            Decoded::Assemble(size) => self.assemble(machine, *size),
            Decoded::Link(link) => self.link(machine, *link),
            Decoded::Unlink(unlink) => self.unlink(machine, *unlink),
            Decoded::Priority(change) => self.set_priority(machine, *change),
            Decoded::Buffer => self.buffer(machine),
            Decoded::Logic(logic) => Ok(self.logic(machine, *logic)),
            Decoded::Savevalue(save) => Ok(self.save(machine, *save)),
            Decoded::Tabulate(table) => Ok(self.tabulate(machine, *table)),
            Decoded::Mark(None) => Ok(self.mark(machine)),
            Decoded::Mark(Some(p)) => Ok(self.mark_parameter(machine, *p)),
        }
    }
}
