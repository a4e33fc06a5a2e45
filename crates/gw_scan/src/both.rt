//! Transactions with two next blocks: who has entered a TRANSFER BOTH goes on to the first of two blocks that doesn't refuse
//! it (GPSS World Reference Manual, "TRANSFER").

ghost use Rattle.std.specs.Prelude.{◌≡◌, ◌≢◌, ◌≤◌, length, Some, None, false};
ghost use Rattle.gw_rules.specs.Kinds.{block_at};
ghost use Rattle.gw_transactions.specs.Transactions.{Holds};
ghost use Rattle.gw_step.specs.Placing.{place_by};
ghost use Rattle.gw_step.specs.Turning as turning;
ghost use Rattle.gw_machine.specs.View.{state_of};
ghost use Rattle.gw_machine.specs.Leaving.{BecomesBy, BecomesOnOk};
ghost use Rattle.gw_scan.specs.Visiting.{IsReady, IsVisit, MayMake, MayTry, Meets};
ghost use Rattle.gw_scan.specs.Trying.{GoesOn, TellsOfNext, TellsRefusal, TurnsTo, TurnsToOne, goes_from, tries_two, undo_from, visit_towards, GoesOnByHandle};

use crate::conditions::compares;
use crate::visit::{Visit, blocks_of};
use gw_machine::{Machine, Made, block_of, end_by};
use gw_members::{Memory, Tx};
use gw_num::Stream;
use gw_object::{Block, Parts, Test};
use gw_rules::{PlusEnd, Verified};
use gw_step::Placement;
use gw_transactions::Transaction;

/// What a step has to undo where it comes to nothing.
#[derive(Clone, Copy)]
pub(crate) struct Before {
    /// Whether the active transaction has turned to one of two next blocks.
    pub turned: bool,
    /// The streams as they were, where it has.
    pub streams: [Stream; 16],
}

/// Nothing to undo yet.
pub(crate) fn nothing_before(streams: [Stream; 16]) -> Before
    ensures { result.turned ≡ false }
{
    Before {
        turned: false,
        streams,
    }
}

/// The two blocks that the block of this number, from 1, gives who enters it, if it is a TRANSFER BOTH.
#[inline(never)]
fn choice_at(blocks: &[Block], number: u16) -> Option<(u16, u16)>
    requires { length blocks.now ≤ 4096 }
    ensures { result ≡ turning.choice_of number (block_at blocks.now number) }
{
    match block_of(blocks, number) {
        Some(Block::TransferBoth(both)) => {
            let first = both.first.unwrap_or(number + 1);
            Some((first, both.second))
        }
        _ => None,
    }
}

/// The two next blocks of a transaction, by their numbers from 1, if it has two: those of the TRANSFER BOTH that it has
/// entered and not left.
#[inline(always)]
pub(crate) fn two_next(parts: &Parts, transaction: Transaction) -> Option<(u16, u16)>
    requires { length parts.now.blocks ≤ 4096 }
    ensures { result ≡ turning.two_next parts.now transaction }
{
    if transaction.current == transaction.next {
        choice_at(parts.blocks.as_slice(), transaction.next)
    } else {
        None
    }
}

/// The streams are now here, and nothing else changes.
fn let_draws_stand(machine: &mut Machine, streams: &[Stream; 16])
    ensures streams { (machine.new.streams ≡ streams.now) × (length streams.now ≡ 16) }
    ensures frame { machine.new ≡ record machine.old { streams = machine.new.streams } }
{
    machine.set_streams(streams);
}

impl Visit<'_> {
    // REFUSAL

    /// Whether a TEST without another block is false; its draws stand then, and only then. Or how its evaluation ends.
    fn fails_test(&self, machine: &mut Machine, test: Test) -> Result<bool, PlusEnd>
        requires meets { Meets self.now machine.old (Block.Test test) }
        requires alone { test.otherwise ≡ None }
        ensures answer { TellsRefusal result machine.new.streams self.now (Block.Test test)
            (state_of machine.old) }
        ensures streams { length machine.new.streams ≡ 16 }
        ensures frame { machine.new ≡ record machine.old { streams = machine.new.streams } }
    {
        let mut streams = machine.streams();
        let left = self.value(machine, test.left, &mut streams)?;
        let right = self.value(machine, test.right, &mut streams)?;
        let fails = !compares(test.comparison, left, right);
        if fails {
            let_draws_stand(machine, &streams);
        }
        Ok(fails)
    }

    /// Whether a block refuses the transaction: a SEIZE or an ENTER at which it would have to wait, a GATE or a TEST that
    /// is false and names no other block; the draws for its operands stand then, and only then. The operands of a block that
    /// never refuses aren't evaluated.
    fn is_refused_by(&self, machine: &mut Machine, block: &Block) -> Result<bool, PlusEnd>
        requires { Meets self.now machine.old block.now }
        ensures answer { TellsRefusal result machine.new.streams self.now block.now
            (state_of machine.old) }
        ensures streams { length machine.new.streams ≡ 16 }
        ensures frame { machine.new ≡ record machine.old { streams = machine.new.streams } }
    {
        match block {
            Block::Seize(f) => Ok(machine.waits_for_facility(*f, self.tx.number)),
            Block::Enter(units) => Ok(machine.waits_for_units(*units)),
            Block::Gate(gate) => {
                let so = machine.is_so(gate.condition, gate.entity);
                Ok(gate.otherwise.is_none() && !so)
            }
            Block::Test(test) => match test.otherwise {
                None => self.fails_test(machine, *test),
                Some(_) => Ok(false),
            },
            _ => Ok(false),
        }
    }

    /// Whether its next block refuses the transaction, or how the evaluation of that ends. Where it does the draws for the
    /// block's operands stand, and else nothing changes.
    fn is_refused(&self, machine: &mut Machine) -> Result<bool, PlusEnd>
        requires { MayMake self.now machine.old }
        ensures answer { TellsOfNext result self.now machine.old machine.new }
        ensures streams { length machine.new.streams ≡ 16 }
        ensures frame { machine.new ≡ record machine.old { streams = machine.new.streams } }
    {
        let block = block_of(blocks_of(self.verified), self.transaction.next).unwrap();
        self.is_refused_by(machine, block)
    }

    // ONE OF TWO

    /// The same visit, to this block.
    fn towards(&self, next: u16) -> Self
        ensures { result ≡ visit_towards next self.now }
    {
        let mut visit = *self;
        visit.transaction.next = next;
        visit
    }

    /// The transaction turns to one of its two next blocks, where that doesn't refuse it, and it is answered whether it has,
    /// or how the evaluation of that ends. Where it hasn't it has both, and the draws for the block's operands stand.
    fn turn_unless_refused(&self, machine: &mut Machine, next: u16) -> Result<bool, PlusEnd>
        requires { MayTry self.now next machine.old }
        ensures { TurnsTo result self.now next machine.old machine.new }
    {
        let turned = self.towards(next);
        machine.turn(self.tx, self.transaction, next);
        match turned.is_refused(machine) {
            Ok(false) => Ok(true),
            Ok(true) => {
                machine.turn(self.tx, turned.transaction, self.transaction.next);
                Ok(false)
            }
            Err(end) => {
                machine.turn(self.tx, turned.transaction, self.transaction.next);
                Err(end)
            }
        }
    }

    /// The transaction turns to the first of its two next blocks that doesn't refuse it, if there is one, and it is answered
    /// whether it has, or how the evaluation of that ends. Where it hasn't it has both; the draws stand in any case.
    fn turn_to_one(&self, machine: &mut Machine, pair: (u16, u16)) -> Result<bool, PlusEnd>
        requires first { MayTry self.now pair.0 machine.old }
        requires second { MayTry self.now pair.1 machine.old }
        ensures { TurnsToOne result self.now pair machine.old machine.new }
    {
        match self.turn_unless_refused(machine, pair.0) {
            Ok(true) => Ok(true),
            Ok(false) => self.turn_unless_refused(machine, pair.1),
            Err(end) => Err(end),
        }
    }

    /// The transaction, refused at both its next blocks, waits on the retry list, and keeps both. On Memory nothing changes.
    fn wait_for_both(&self, machine: &mut Machine) -> Result<(), Memory>
        requires { IsVisit self.now machine.old }
        ensures { BecomesOnOk result (place_by self.now.tx.number Placement.JoinsRetryList)
            machine.old machine.new }
    {
        self.wait_to_retry(machine)
    }

    /// The transaction turns to the first of its two next blocks that doesn't refuse it: `None`. Else it waits, or the job
    /// ends. On Memory nothing changes.
    fn turn_or_wait(
        &self,
        machine: &mut Machine,
        pair: (u16, u16),
        before: &mut Before,
    ) -> Result<Option<Made>, Memory>
        requires two { turning.two_next self.now.verified.now self.now.transaction ≡ Some pair }
        requires first { MayTry self.now pair.0 machine.old }
        requires second { MayTry self.now pair.1 machine.old }
        requires before { before.old.turned ≡ false }
        ensures { GoesOn result self.now (tries_two self.now pair) before.new
            machine.old machine.new }
    {
        before.streams = machine.streams();
        match self.turn_to_one(machine, pair) {
            Ok(true) => {
                before.turned = true;
                Ok(None)
            }
            Ok(false) => match self.wait_for_both(machine) {
                Ok(()) => Ok(Some(Made::Step)),
                Err(memory) => {
                    machine.set_streams(&before.streams);
                    Err(memory)
                }
            },
            Err(end) => {
                machine.set_streams(&before.streams);
                Ok(Some(Made::Ends(end_by(end))))
            }
        }
    }

    /// The transaction has one next block from now on, which it may enter: `None`. Else it waits, or the job ends. On Memory
    /// nothing changes. Who has two next blocks is in the block that is its next one, so that is looked at first.
    #[inline(always)]
    pub(crate) fn turn_if_two(
        &self,
        machine: &mut Machine,
        before: &mut Before,
    ) -> Result<Option<Made>, Memory>
        requires ready { IsReady self.now.verified.now machine.old }
        requires visit { IsVisit self.now machine.old }
        requires before { before.old.turned ≡ false }
        ensures goes { GoesOn result self.now (goes_from self.now) before.new
            machine.old machine.new }
        ensures same { self.now.transaction.current ≢ self.now.transaction.next
            → machine.new ≡ machine.old }
    {
        if self.transaction.current != self.transaction.next {
            return Ok(None);
        }
        turn_at_block(machine, self.verified, self.tx, before)
    }
}

/// The same of a transaction that is in the block that is its next one.
#[inline(never)]
fn turn_at_block(
    machine: &mut Machine,
    verified: &Verified,
    tx: Tx,
    before: &mut Before,
) -> Result<Option<Made>, Memory>
    requires ready { IsReady verified.now machine.old }
    requires active { machine.old.active ≡ Some tx }
    requires held { Holds machine.old.transactions tx }
    requires before { before.old.turned ≡ false }
    ensures { GoesOnByHandle result verified.entry tx before.new machine.old machine.new }
{
    let transaction = machine.transaction(tx);
    let visit = Visit {
        verified,
        tx,
        transaction,
    };
    match two_next(verified.object().parts(), transaction) {
        None => Ok(None),
        Some(pair) => visit.turn_or_wait(machine, pair, before),
    }
}

/// Where the active transaction has turned to one of two next blocks it has both again, and the streams are as they were.
#[inline(never)]
pub(crate) fn undo(machine: &mut Machine, before: &Before)
    ensures { BecomesBy (undo_from before.now) machine.old machine.new }
{
    if !before.turned {
        return;
    }
    if let Some(tx) = machine.active() {
        let turned = machine.transaction(tx);
        machine.turn(tx, turned, turned.current);
    }
    machine.set_streams(&before.streams);
}
