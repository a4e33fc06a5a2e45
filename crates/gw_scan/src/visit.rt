//! The visit of the active transaction to its next block: values of operands, and the way on.

ghost use Rattle.std.specs.Prelude.{◌≡◌, ◌≤◌, ◌<◌, length};
ghost use Rattle.gw_step.specs.Blocks as model;
ghost use Rattle.gw_step.specs.Operands.{MayEvaluate};
ghost use Rattle.gw_step.specs.Placing.{place_by};
ghost use Rattle.gw_machine.specs.Coherence.{CanBePlaced, CanRest, IsOf};
ghost use Rattle.gw_machine.specs.Leaving.{BecomesBy};
ghost use Rattle.gw_scan.specs.Visiting.{IsVisit, PassesOnOk, environment_in, with_priority, EvaluatesFor, PassesUndrawn, PassesUntil, PassesWithin};

use gw_machine::{Machine, active_subject};
use gw_members::{Memory, Tx};
use gw_num::Stream;
use gw_object::{Block, Operand};
use gw_rules::{PlusEnd, Verified};
use gw_step::Placement;
use gw_transactions::Transaction;

/// The visit of a machine's active transaction to its next block, which it is about to enter. What it has stays the same
/// until then; the machine, which the block changes, is passed beside it.
#[derive(Clone, Copy)]
pub(crate) struct Visit<'a> {
    /// The object that the machine runs.
    pub verified: &'a Verified,
    /// The transaction's handle.
    pub tx: Tx,
    /// The transaction's attributes.
    pub transaction: Transaction,
}

/// The blocks of an object, in order.
pub(crate) fn blocks_of(verified: &Verified) -> &[Block]
    ensures { result.now ≡ verified.now.blocks }
{
    verified.object().parts().blocks.as_slice()
}

/// The active transaction rests until a moment; where that is now it stays active.
#[inline(always)]
fn rest_until(machine: &mut Machine, tx: Tx, moment: i64)
    requires rests { CanRest machine.old tx }
    requires wake { length machine.old.waits.retry ≤ machine.old.current_events.room }
    requires room { 0 < machine.old.future_events.room }
    ensures { BecomesBy (place_by tx.number (model.until machine.old.clock moment))
        machine.old machine.new }
{
    if machine.clock() < moment {
        machine.place_until(tx, moment);
    }
}

impl Visit<'_> {
    /// The value of an operand, evaluated for the transaction with these streams, or how its evaluation ends.
    #[inline(always)]
    pub(crate) fn value(
        &self,
        machine: &Machine,
        operand: Operand,
        streams: &mut [Stream; 16],
    ) -> Result<i64, PlusEnd>
        requires visit { IsVisit self.now machine.now }
        requires own { IsOf self.now.verified.now machine.now }
        requires operand { MayEvaluate self.now.verified.now
            (environment_in self.now machine.now) operand }
        ensures { EvaluatesFor self.now operand machine.now result streams.old streams.new }
    {
        let subject = active_subject(self.tx, self.transaction);
        machine.value(self.verified, subject, operand, streams)
    }

    /// The transaction enters its next block with this priority and with the streams here, and is then placed.
    pub(crate) fn pass_with_priority(
        &self,
        machine: &mut Machine,
        priority: i32,
        streams: &[Stream; 16],
        placement: Placement,
    ) -> Result<(), Memory>
        requires visit { IsVisit self.now machine.old }
        requires there { CanBePlaced placement machine.old }
        ensures { PassesOnOk result (with_priority priority self.now) streams.now placement
            machine.old machine.new }
    {
        machine.reserve_rest()?;
        machine.set_streams(streams);
        machine.enter_with_priority(self.tx, self.transaction, priority);
        machine.place(self.tx, priority, placement);
        Ok(())
    }

    /// The transaction enters its next block with this priority and no draw, and is then placed.
    pub(crate) fn pass_and_rise(
        &self,
        machine: &mut Machine,
        priority: i32,
        placement: Placement,
    ) -> Result<(), Memory>
        requires visit { IsVisit self.now machine.old }
        requires there { CanBePlaced placement machine.old }
        ensures { PassesUndrawn result (with_priority priority self.now) placement machine.old machine.new }
    {
        machine.reserve_rest()?;
        machine.enter_with_priority(self.tx, self.transaction, priority);
        machine.place(self.tx, priority, placement);
        Ok(())
    }

    /// The transaction enters its next block, and is then placed.
    pub(crate) fn pass_to(&self, machine: &mut Machine, placement: Placement) -> Result<(), Memory>
        requires visit { IsVisit self.now machine.old }
        requires there { CanBePlaced placement machine.old }
        ensures { PassesUndrawn result self.now placement machine.old machine.new }
    {
        machine.reserve_rest()?;
        machine.enter_as_found(self.tx, self.transaction, self.transaction.next + 1);
        machine.place(self.tx, self.transaction.priority, placement);
        Ok(())
    }

    /// The transaction enters its next block with the streams here, and rests until a moment; where that is now it stays
    /// active.
    pub(crate) fn pass_until(
        &self,
        machine: &mut Machine,
        streams: &[Stream; 16],
        moment: i64,
    ) -> Result<(), Memory>
        requires { IsVisit self.now machine.old }
        ensures { PassesUntil result self.now streams.now moment machine.old machine.new }
    {
        machine.reserve_time()?;
        machine.set_streams(streams);
        machine.enter_as_found(self.tx, self.transaction, self.transaction.next + 1);
        rest_until(machine, self.tx, moment);
        Ok(())
    }

    /// The transaction enters its next block after a draw, with the first stream here, and rests until a moment; where that is
    /// now it stays active.
    pub(crate) fn pass_until_after(
        &self,
        machine: &mut Machine,
        stream: Stream,
        moment: i64,
    ) -> Result<(), Memory>
        requires { IsVisit self.now machine.old }
        ensures { PassesWithin result self.now stream moment machine.old machine.new }
    {
        machine.reserve_time()?;
        machine.set_first_stream(stream);
        machine.enter_as_found(self.tx, self.transaction, self.transaction.next + 1);
        rest_until(machine, self.tx, moment);
        Ok(())
    }
}
