//! Transactions: each call once, on three of them whose numbers and counts are worked out by hand.

ghost use Rattle.std.specs.Prelude.{◌≡◌, ◌≤◌, ◌<◌, ◌+◌, ◌^◌, length, IfOk};
ghost use Rattle.gw_unit_tests.specs.Transactions.{put_made};
ghost use Rattle.gw_transactions.specs.Transactions.{Holds, KeepsHandles};

use gw_members::{Memory, Tx};
use gw_transactions::{Transaction, Transactions};
use std::test::Fail;

/// Makes a transaction, of which no parameter is set.
pub(crate) fn add(transactions: &mut Transactions, transaction: Transaction) -> Result<Tx, Memory>
    requires block { transaction.current ≤ 4096 }
    requires few { length transactions.old.txs < 2 ^ 62 }
    ensures number { IfOk result (λ tx. tx.number ≡ length transactions.old.txs) }
    ensures txs { IfOk result (λ tx.
        transactions.new.txs ≡ put_made tx.number transaction transactions.old.txs) }
    ensures one { IfOk result (λ _. length transactions.new.txs ≡ length transactions.old.txs + 1) }
    ensures held { IfOk result (λ tx. Holds transactions.new tx) }
    ensures handles { KeepsHandles transactions.old transactions.new }
    ensures last { transactions.new.last ≡ transactions.old.last }
{
    transactions.reserve(1)?;
    let unset = transactions.new_parameters()?;
    Ok(transactions.insert_with(transaction, unset))
}

/// A transaction that is in a block, and tries to enter block 9.
fn in_block(current: u16, set: u64) -> Transaction
    ensures { result.current ≡ current }
{
    Transaction {
        current,
        next: 9,
        priority: -3,
        mark: 17,
        set,
    }
}

/// Which answers are right where a third transaction comes after the first of two was removed.
fn third_after_the_first_left(transactions: &mut Transactions) -> Result<[bool; 9], Memory>
    requires { length transactions.old.txs ≤ 1 }
{
    let next_at_first = transactions.next_number();
    let first = add(transactions, in_block(0, 1))?;
    let second = add(transactions, in_block(4, 2))?;
    let removed = transactions.remove(first);
    let next_at_last = transactions.next_number();
    let third = add(transactions, in_block(4, 3))?;
    Ok([
        next_at_first == 1,
        first.number == 1,
        second.number == 2,
        first.place != second.place,
        removed == in_block(0, 1),
        next_at_last == 3,
        third.number == 3,
        *transactions.get(second) == in_block(4, 2),
        *transactions.get(third) == in_block(4, 3),
    ])
}

#[test]
fn numbers_count_from_one_and_come_once(rt: HostRuntime) -> Result<(), Fail> {
    let mut transactions = Transactions::new(rt.alloc(), 3)?;
    assert!(rt; third_after_the_first_left(&mut transactions)? == [true; 9]);
    Ok(())
}

/// Which counts are those of so many live transactions, and of those in the blocks 4, 5 and 6.
fn counts(transactions: &Transactions, live: usize, here: [usize; 3]) -> bool {
    let [in_4, in_5, in_6] = here;
    transactions.live() == live
        && transactions.here(4) == in_4
        && transactions.here(5) == in_5
        && transactions.here(6) == in_6
}

/// Which answers are right where of two transactions in block 4 and one in block 5 the second goes to block 5, and then
/// the first is removed.
fn three_that_move(transactions: &mut Transactions) -> Result<[bool; 6], Memory>
    requires { length transactions.old.txs ≤ 1 }
{
    let at_first = counts(transactions, 0, [0, 0, 0]);
    let first = add(transactions, in_block(4, 1))?;
    let second = add(transactions, in_block(4, 2))?;
    let third = add(transactions, in_block(5, 3))?;
    let all_there = counts(transactions, 3, [2, 1, 0]);
    transactions.set(second, in_block(5, 2));
    let written = *transactions.get(second) == in_block(5, 2);
    let one_moved = counts(transactions, 3, [1, 2, 0]);
    transactions.remove(first);
    let one_left = counts(transactions, 2, [0, 2, 0]);
    let is_kept = transactions.get(third).next == 9;
    Ok([at_first, all_there, written, one_moved, one_left, is_kept])
}

#[test]
fn live_and_here_count_those_that_are_there(rt: HostRuntime) -> Result<(), Fail> {
    let mut transactions = Transactions::new(rt.alloc(), 3)?;
    assert!(rt; three_that_move(&mut transactions)? == [true; 6]);
    Ok(())
}

/// Which answers are right where of two transactions in block 4 the second steps to block 5, and tries block 6 next.
fn one_that_steps(transactions: &mut Transactions) -> Result<[bool; 3], Memory>
    requires { length transactions.old.txs ≤ 1 }
{
    let first = add(transactions, in_block(4, 1))?;
    let second = add(transactions, in_block(4, 2))?;
    transactions.step_to(second, 5, 6);
    let mut stepped = in_block(5, 2);
    stepped.next = 6;
    let is_written = *transactions.get(second) == stepped;
    let is_kept = *transactions.get(first) == in_block(4, 1);
    Ok([is_written, is_kept, counts(transactions, 2, [1, 1, 0])])
}

#[test]
fn who_steps_changes_its_blocks_alone(rt: HostRuntime) -> Result<(), Fail> {
    let mut transactions = Transactions::new(rt.alloc(), 3)?;
    assert!(rt; one_that_steps(&mut transactions)? == [true; 3]);
    Ok(())
}
