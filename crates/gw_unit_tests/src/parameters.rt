//! Parameters of transactions: what was set is read again, by the transaction and the number.

ghost use Rattle.std.specs.Prelude.{◌≡◌, ◌≤◌, length, None, [], ◌∷◌};
ghost use Rattle.gw_transactions.specs.Transactions.{Holds};

use crate::transactions::add;
use gw_members::{Memory, Tx};
use gw_transactions::{Transaction, Transactions};
use std::test::Fail;

/// A transaction that was just made.
const MADE: Transaction = Transaction {
    current: 0,
    next: 1,
    priority: 0,
    mark: 0,
    set: 1,
};

/// Whether these are the values of the parameters 1, 2 and 64 of a transaction, 0 where one isn't set.
fn have_values(transactions: &Transactions, tx: Tx, values: [i64; 3]) -> bool
    requires held { Holds transactions.now tx }
    requires last { transactions.now.last ≡ 64 }
{
    let parameters = transactions.parameters(tx);
    let [first, second, last] = values;
    parameters.get_or_zero(1) == first
        && parameters.get_or_zero(2) == second
        && parameters.get_or_zero(64) == last
}

/// Which answers are right where parameters of the first of two transactions are set, and no parameter of the second is.
fn two_transactions(transactions: &mut Transactions) -> Result<[bool; 6], Memory>
    requires none { transactions.old.txs ≡ None ∷ [] }
    requires last { transactions.old.last ≡ 64 }
{
    let first = add(transactions, MADE)?;
    let second = add(transactions, MADE)?;
    let none_at_first = have_values(transactions, first, [0, 0, 0]);
    transactions.assign(first, 1, 7);
    transactions.assign(first, 64, -9);
    let set = have_values(transactions, first, [7, 0, -9]);
    let read = transactions.parameters(first).get(64) == -9;
    transactions.assign(first, 1, i64::MIN);
    let set_again = have_values(transactions, first, [i64::MIN, 0, -9]);
    transactions.set(
        first,
        Transaction {
            priority: 4,
            ..MADE
        },
    );
    let kept = have_values(transactions, first, [i64::MIN, 0, -9]);
    let none_of_the_second = have_values(transactions, second, [0, 0, 0]);
    Ok([
        none_at_first,
        set,
        read,
        set_again,
        kept,
        none_of_the_second,
    ])
}

#[test]
fn parameters_are_read_as_they_were_set(rt: HostRuntime) -> Result<(), Fail> {
    let mut transactions = Transactions::new(rt.alloc(), 64)?;
    assert!(rt; two_transactions(&mut transactions)? == [true; 6]);
    Ok(())
}

/// Which answers are right where a transaction comes to the place of one that was removed, of which a parameter was set.
fn one_at_the_place_of_another(transactions: &mut Transactions) -> Result<[bool; 2], Memory>
    requires none { length transactions.old.txs ≤ 1 }
    requires last { transactions.old.last ≡ 64 }
{
    let first = add(transactions, MADE)?;
    transactions.assign(first, 2, 5);
    transactions.remove(first);
    let second = add(transactions, MADE)?;
    Ok([
        second.place == first.place,
        have_values(transactions, second, [0, 0, 0]),
    ])
}

#[test]
fn a_removed_transaction_leaves_no_parameter(rt: HostRuntime) -> Result<(), Fail> {
    let mut transactions = Transactions::new(rt.alloc(), 64)?;
    assert!(rt; one_at_the_place_of_another(&mut transactions)? == [true; 2]);
    Ok(())
}

/// Which answers are right where a parameter was set to 0, the others weren't set, and numbers of no parameter are asked.
fn told_where_set(transactions: &mut Transactions) -> Result<[bool; 4], Memory>
    requires none { length transactions.old.txs ≤ 1 }
    requires last { transactions.old.last ≡ 64 }
{
    let tx = add(transactions, MADE)?;
    transactions.assign(tx, 64, 0);
    let parameters = transactions.parameters(tx);
    Ok([
        parameters.get_if_set(64) == Some(0),
        parameters.get_if_set(63).is_none(),
        parameters.get_if_set(0).is_none(),
        parameters.get_if_set(65).is_none(),
    ])
}

#[test]
fn a_parameter_of_value_0_is_set(rt: HostRuntime) -> Result<(), Fail> {
    let mut transactions = Transactions::new(rt.alloc(), 64)?;
    assert!(rt; told_where_set(&mut transactions)? == [true; 4]);
    Ok(())
}
