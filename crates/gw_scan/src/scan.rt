//! The scan: who is active next, and one step.

ghost use Rattle.std.specs.Prelude.{◌≡◌, ◌<◌, ◌^◌, Some, None, false, is_some, map, IfOk, OnOk, OnErr};
ghost use Rattle.gw_transactions.specs.Transactions.{Holds, attributes_at};
ghost use Rattle.gw_step.specs.Step as model;
ghost use Rattle.gw_machine.specs.View.{state_of};
ghost use Rattle.gw_machine.specs.Coherence.{IsRunning};
ghost use Rattle.gw_scan.specs.Origins.{origin};
ghost use Rattle.gw_scan.specs.Makes.{MakesOnOk, RunsOn, StepsPastBudget, scan_outcome};
ghost use Rattle.gw_scan.specs.Trying.{MakesOrUndoes, IsAsBefore};
ghost use Rattle.gw_scan.specs.Visiting.{IsReady};

use crate::both::{Before, nothing_before, undo};
use crate::decoding::Decoded;
use crate::visit::{Visit, blocks_of};
use gw_machine::{Machine, Made};
use gw_members::{Memory, Tx};
use gw_object::Block;
use gw_rules::Verified;
use gw_step::End;
use gw_transactions::Transaction;

/// Nobody is active: the first of the current events chain becomes so; else the clock moves; else nothing is left.
fn next_active(machine: &mut Machine, blocks: &[Block]) -> Result<Made, Memory>
    requires running { IsRunning blocks.now machine.old }
    requires nobody { machine.old.active ≡ None }
    ensures { MakesOnOk result (λ s. model.next_active s.lists.current_events s)
        machine.old machine.new }
{
    if machine.activate_first() {
        return Ok(Made::Step);
    }
    match machine.first_time() {
        Some(time) => {
            machine.move_clock_and_wake(time)?;
            Ok(Made::Step)
        }
        None => Ok(Made::Ends(End::NoMoreEvents)),
    }
}

/// The attributes that a transaction has, which was like this before it might turn: where it had two next blocks it has turned
/// to one, and else it is as it was.
#[inline(always)]
fn once_turned(machine: &Machine, tx: Tx, transaction: Transaction) -> Transaction
    requires held { Holds machine.now.transactions tx }
    requires same { IsAsBefore tx transaction machine.now }
    ensures { attributes_at tx.number machine.now.transactions.txs ≡ Some result }
{
    if transaction.current == transaction.next {
        machine.transaction(tx)
    } else {
        transaction
    }
}

/// What a step does, but for the count of steps. Where it comes to nothing, what was done has to be undone.
fn scan(
    machine: &mut Machine,
    verified: &Verified,
    decoded: &[Decoded],
    before: &mut Before,
) -> Result<Made, Memory>
    requires ready { IsReady verified.now machine.old }
    requires table { map origin decoded.now ≡ verified.now.blocks }
    requires before { before.old.turned ≡ false }
    ensures made { MakesOrUndoes result (scan_outcome verified.now) before.new
        machine.old machine.new }
    ensures on { machine.old.ended ≡ None → RunsOn result machine.new }
{
    let tx = match machine.active() {
        Some(tx) => tx,
        None => return next_active(machine, blocks_of(verified)),
    };
    let transaction = machine.transaction(tx);
    let visit = Visit {
        verified,
        tx,
        transaction,
    };
    if let Some(made) = visit.turn_if_two(machine, before)? {
        return Ok(made);
    }
    let transaction = once_turned(machine, tx, transaction);
    let onward = Visit {
        verified,
        tx,
        transaction,
    };
    onward.meet(machine, decoded)
}

/// One step of a running job, but that its budget doesn't end it, and whether a named end stands then; on Memory nothing changes.
/// What the step would have to undo is kept in `before`. An end is looked for only where a block may have brought one.
#[inline(always)]
pub(crate) fn step_past_budget(
    machine: &mut Machine,
    verified: &Verified,
    decoded: &[Decoded],
    before: &mut Before,
) -> Result<bool, Memory>
    requires ready { IsReady verified.now machine.old }
    requires table { map origin decoded.now ≡ verified.now.blocks }
    requires runs { machine.old.ended ≡ None }
    requires few { machine.old.steps < 2 ^ 60 }
    ensures made { OnOk result (StepsPastBudget verified.now
        (state_of machine.old) (state_of machine.new)) }
    ensures ended { IfOk result (λ ended. ended ≡ is_some machine.new.ended) }
    ensures slots { machine.new.last ≡ machine.old.last }
    ensures err { OnErr result (state_of machine.new ≡ state_of machine.old) }
{
    before.turned = false;
    match scan(machine, verified, decoded, before) {
        Ok(Made::Step) => {
            machine.add_step();
            Ok(false)
        }
        Ok(Made::Last) => {
            machine.add_step();
            Ok(true)
        }
        Ok(Made::Ends(end)) => {
            undo(machine, before);
            machine.end_by(end);
            Ok(true)
        }
        Err(memory) => {
            undo(machine, before);
            Err(memory)
        }
    }
}

/// One step of a running job; on Memory nothing changes.
pub(crate) fn step(
    machine: &mut Machine,
    verified: &Verified,
    decoded: &[Decoded],
    budget: u64,
) -> Result<(), Memory>
    requires ready { IsReady verified.now machine.old }
    requires table { map origin decoded.now ≡ verified.now.blocks }
    requires runs { machine.old.ended ≡ None }
    requires few { machine.old.steps < 2 ^ 60 }
    ensures made { OnOk result
        (model.step verified.now budget (state_of machine.old) ≡ Some (state_of machine.new)) }
    ensures slots { machine.new.last ≡ machine.old.last }
    ensures err { OnErr result (state_of machine.new ≡ state_of machine.old) }
{
    let mut before = nothing_before(machine.streams());
    let _ = step_past_budget(machine, verified, decoded, &mut before)?;
    machine.end_at_budget(budget);
    Ok(())
}
