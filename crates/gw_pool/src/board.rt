//! The progress board, and the seats that step on it.

ghost use Rattle.std.specs.Prelude.{◌≡◌, ◌<◌, IfOk};
ghost use Rattle.gw_service.specs.Calls.{most_jobs};
ghost use Rattle.gw_pool.specs.Board.{IsBoard, Publishes, Reads, IsRaised, IsReading, empty_view};

use crate::view::View;
use atomic_table::{Join, Play, Split, Table, TableRule};
use gw_jobs::Returned;
use gw_object::Memory;
use std::alloc::Global;
use std::marker::Model;

/// How many slots a board has.
const SLOTS: usize = 1024;

/// Each seat's count for a slot is at most the slot's word, and each word is at most 2^40.
struct Rule;

impl TableRule<u8, View, ()> for Rule {
    ghost holds = { λ _ s. IsBoard s.words s.views };

    ghost first = { λ _. empty_view };
}

/// The step of a seat that publishes.
struct Publishing;

impl Play<u8, View> for Publishing {
    ghost then = { Publishes };
}

/// The step of a seat that reads.
struct Reading;

impl Play<u8, View> for Reading {
    ghost then = { Reads };
}

/// The first of two seats has the view: after a split, and of a join.
struct FirstKeeps;

impl Split<View> for FirstKeeps {
    ghost left = { λ v. v };

    ghost right = { λ _. empty_view };
}

impl Join<View> for FirstKeeps {
    ghost both = { λ v _. v };

    ghost spent = { empty_view };
}

/// The right to publish and to read on one board. Contracts see it as its board and its **view**: for each slot the greatest
/// count that the seat published or read.
#[derive(Drop)]
pub struct Seat {
    inner: atomic_table::Seat<u8, View>,
}

impl Model for Seat {
    ghost use Rattle.std.specs.Prelude.{◌≡◌, []};
    ghost use Rattle.gw_pool.specs.Board as board;

    ghost Value = { board.Seat };

    ghost view = { λ s. board.seat_of s.inner.table_id s.inner.me.0 };

    ghost invariant = { λ s. s.inner.me.1 ≡ [] };
}

/// A count for each of 1,024 slots: how many steps a job is known to have made. Threads raise and read the counts without a
/// lock, each with a seat of its own.
#[derive(Drop)]
pub struct Board {
    table: Table<u8, View, (), Rule, Global>,
}

impl Model for Board {
    ghost use Rattle.std.specs.Prelude.{◌≡◌};
    ghost use Rattle.atomic_table.specs.Seated.{TableId};
    ghost use Rattle.gw_service.specs.Calls.{most_jobs};

    ghost Value = { TableId };

    ghost view = { λ b. b.table.shared.table_id };

    ghost invariant = { λ b. b.table.shared.table_id.words ≡ most_jobs };
}

impl Board {
    /// A board on which each count is 0, and its first seat.
    pub fn new(alloc: Global) -> Result<(Board, Seat), Memory>
        ensures board { IfOk result (λ r. r.1.board ≡ r.0) }
        ensures view { IfOk result (λ r. r.1.view ≡ empty_view) }
    {
        let (table, inner) = Table::of_words(alloc, &[0u64; SLOTS], &())?;
        Ok((Board { table }, Seat { inner }))
    }

    /// A second seat, which knows nothing yet. It takes no memory.
    pub(crate) fn split_off(&self, seat: &mut Seat) -> Seat
        requires { seat.old.board ≡ self.now }
        ensures same { seat.new ≡ seat.old }
        ensures board { result.board ≡ self.now }
        ensures view { result.view ≡ empty_view }
    {
        let inner = self.table.shared.split_seat::<FirstKeeps>(&mut seat.inner);
        Seat { inner }
    }

    /// Two seats for one: the first keeps the view, the second knows nothing yet. It takes no memory.
    pub fn split(&self, seat: Seat) -> (Seat, Seat)
        requires { seat.board ≡ self.now }
        ensures first { result.0 ≡ seat }
        ensures board { result.1.board ≡ self.now }
        ensures view { result.1.view ≡ empty_view }
    {
        let mut seat = seat;
        let second = self.split_off(&mut seat);
        (seat, second)
    }

    /// One seat for two: it keeps the first's view. It takes no memory.
    pub fn join(&self, seat: Seat, other: Seat) -> Seat
        requires first { seat.board ≡ self.now }
        requires second { other.board ≡ self.now }
        ensures { result ≡ seat }
    {
        let Seat { mut inner } = seat;
        let Seat { inner: other } = other;
        self.table.shared.join_seat::<FirstKeeps>(&mut inner, other);
        Seat { inner }
    }

    /// Tells of a task that was given back: the count of its slot becomes its steps, unless it is greater already. It takes
    /// no memory and waits for nobody.
    pub fn publish(&self, seat: &mut Seat, returned: &Returned)
        requires { seat.old.board ≡ self.now }
        ensures board { seat.new.board ≡ seat.old.board }
        ensures view { IsRaised returned.now.slot returned.now.steps seat.old.view seat.new.view }
    {
        let slot = returned.slot() as usize;
        let steps = returned.steps();
        self.table
            .shared
            .fetch_max::<Publishing>(&mut seat.inner, slot, steps);
    }

    /// The count of a slot, at least what the seat knew of it, and at most 2^40. It takes no memory and waits for nobody.
    pub fn progress(&self, seat: &mut Seat, slot: u32) -> u64
        requires board { seat.old.board ≡ self.now }
        requires slot { slot < most_jobs }
        ensures board { seat.new.board ≡ seat.old.board }
        ensures view { IsReading slot result seat.old.view seat.new.view }
    {
        self.table
            .shared
            .load::<Reading>(&mut seat.inner, slot as usize)
    }
}
