//! What a thread counts of a shared table.

ghost use Rattle.std.specs.Prelude.{◌≡◌, ◌+◌, ◌≤◌, ◌<◌, ◌^◌};
ghost use Rattle.gw_pool.specs.Shares.{share_of};

use std::marker::Model;
use std::sync::ledger;
use std::sync::ledger::{Book, Ledger};

/// Parts of two ledgers, with the rows that were taken by it and not given back, and the steps that were given back by it.
/// A count is never lost: shares that are joined count together what each of them did, and the share that has every part
/// counts what the table does. It is made by `new_shared`, and by cutting another in two.
#[derive(Drop)]
pub struct Share<R: Ledger, S: Ledger> {
    rows: u32,
    steps: u128,
    row_mark: ledger::Share<R>,
    step_mark: ledger::Share<S>,
}

impl<R: Ledger, S: Ledger> Model for Share<R, S> {
    ghost use Rattle.std.specs.Prelude.{◌≡◌};
    ghost use Rattle.gw_pool.specs.Shares as shares;

    ghost Value = { shares.Share };

    ghost view = { λ s. shares.share_of s.row_mark.parts s.rows s.steps };

    ghost invariant = { λ s. (s.row_mark.amount ≡ s.rows) × (s.step_mark.amount ≡ s.steps)
        × (s.row_mark.parts ≡ s.step_mark.parts) };
}

impl<R: Ledger, S: Ledger> Share<R, S> {
    /// A share that counts nothing yet.
    pub(crate) fn new(row_mark: ledger::Share<R>, step_mark: ledger::Share<S>) -> Share<R, S>
        requires parts { row_mark.parts ≡ step_mark.parts }
        requires rows { row_mark.amount ≡ 0 }
        requires steps { step_mark.amount ≡ 0 }
        ensures { result ≡ share_of row_mark.parts 0 0 }
    {
        Share {
            rows: 0,
            steps: 0,
            row_mark,
            step_mark,
        }
    }

    /// The rows that it took and that weren't given back by it.
    pub fn rows(&self) -> u32
        ensures { result ≡ self.now.rows }
    {
        self.rows
    }

    /// The steps that were given back by it.
    pub fn steps(&self) -> u128
        ensures { result ≡ self.now.steps }
    {
        self.steps
    }

    /// Cuts off so many parts, which count nothing. It takes no memory.
    pub fn split(&mut self, parts: u64) -> Share<R, S>
        requires parts { parts ≤ self.old.parts }
        // A share without a part counts nothing.
        requires backed { parts ≡ self.old.parts → (self.old.rows ≡ 0) × (self.old.steps ≡ 0) }
        ensures cut { result ≡ share_of parts 0 0 }
        ensures parts { self.new.parts + parts ≡ self.old.parts }
        ensures rows { self.new.rows ≡ self.old.rows }
        ensures steps { self.new.steps ≡ self.old.steps }
    {
        Share {
            rows: 0,
            steps: 0,
            row_mark: self.row_mark.split_off(parts, 0),
            step_mark: self.step_mark.split_off(parts, 0),
        }
    }

    /// Takes in another, with its parts and all that it counts. It takes no memory.
    pub fn join(&mut self, other: Share<R, S>)
        requires rows { self.old.rows + other.rows < 2 ^ 32 }
        requires steps { self.old.steps + other.steps < 2 ^ 128 }
        ensures parts { self.new.parts ≡ self.old.parts + other.parts }
        ensures rows { self.new.rows ≡ self.old.rows + other.rows }
        ensures steps { self.new.steps ≡ self.old.steps + other.steps }
    {
        let Share {
            rows,
            steps,
            row_mark,
            step_mark,
        } = other;
        self.row_mark.merge(row_mark);
        self.step_mark.merge(step_mark);
        self.rows += rows;
        self.steps += steps;
    }

    /// Counts a row that went out, with the book, where so many are out now.
    pub(crate) fn count_taken(&mut self, book: &mut Book<R>, out: u32)
        requires parts { 0 < self.old.parts }
        requires out { out ≡ book.old.total + 1 }
        ensures book { book.new.total ≡ book.old.total + 1 }
        ensures share { self.new ≡ share_of self.old.parts (self.old.rows + 1) self.old.steps }
    {
        book.add(&mut self.row_mark, 1);
        book.audit(&mut self.row_mark);
        prove!(self.rows < out);
        self.rows += 1;
    }

    /// Counts a row that came back, with the book.
    pub(crate) fn count_returned(&mut self, book: &mut Book<R>)
        requires { 1 ≤ self.old.rows }
        ensures book { book.new.total + 1 ≡ book.old.total }
        ensures parts { self.new.parts ≡ self.old.parts }
        ensures rows { self.new.rows + 1 ≡ self.old.rows }
        ensures steps { self.new.steps ≡ self.old.steps }
    {
        book.sub(&mut self.row_mark, 1);
        self.rows -= 1;
    }

    /// Counts steps that were given back, with the book.
    pub(crate) fn count_steps(&mut self, book: &mut Book<S>, more: u64)
        requires parts { 0 < self.old.parts }
        requires room { book.old.total + more < 2 ^ 64 }
        ensures book { book.new.total ≡ book.old.total + more }
        ensures share { self.new ≡ share_of self.old.parts self.old.rows (self.old.steps + more) }
    {
        book.add(&mut self.step_mark, more);
        book.audit(&mut self.step_mark);
        self.steps += u128::from(more);
    }

    /// Compares its counts with the totals of the books: they are at most these, and these where it has every part.
    pub(crate) fn compare(&mut self, rows: &mut Book<R>, steps: &mut Book<S>)
        ensures same { self.new ≡ self.old }
        ensures totals { (rows.new.total ≡ rows.old.total) × (steps.new.total ≡ steps.old.total) }
        ensures bound { (self.old.rows ≤ rows.old.total) × (self.old.steps ≤ steps.old.total) }
        ensures rows { self.old.parts ≡ R.parts → self.old.rows ≡ rows.old.total }
        ensures steps { self.old.parts ≡ S.parts → self.old.steps ≡ steps.old.total }
    {
        rows.audit(&mut self.row_mark);
        steps.audit(&mut self.step_mark);
    }
}
