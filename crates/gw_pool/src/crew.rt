//! What is counted of all workers of a service.

ghost use Rattle.std.specs.Prelude.{◌≡◌};
ghost use Rattle.gw_service.specs.Rows.{out_of, steps_of};

use crate::board::Seat;
use crate::share::Share;
use crate::shared::Shared;
use std::marker::Model;
use std::sync::ledger::Ledger;

/// The rows that the workers of a service took and that weren't given back, and the steps that they gave back, over all runs.
/// It has every part of both ledgers, so it counts just what the service's table does. Contracts see it as its counts and
/// the board of its service.
#[derive(Drop)]
pub struct Crew<R: Ledger, S: Ledger> {
    pub(crate) share: Share<R, S>,
    pub(crate) seat: Seat,
}

impl<R: Ledger, S: Ledger> Model for Crew<R, S> {
    ghost use Rattle.std.specs.Prelude.{◌≡◌};
    ghost use Rattle.gw_pool.specs.Shares.{all_parts, AreWhole};
    ghost use Rattle.gw_pool.specs.Workers as model;

    ghost Value = { model.Crew };

    ghost view = { λ c. model.crew_of c.seat.board c.share.rows c.share.steps };

    ghost invariant = { λ c. (c.share.parts ≡ all_parts) × AreWhole R.parts S.parts };
}

impl<R: Ledger, S: Ledger> Crew<R, S> {
    /// The rows that were taken and not given back. It takes no memory.
    pub fn rows(&self) -> u32
        ensures { result ≡ self.now.rows }
    {
        self.share.rows()
    }

    /// The steps that were given back. It takes no memory.
    pub fn steps(&self) -> u128
        ensures { result ≡ self.now.steps }
    {
        self.share.steps()
    }

    /// The steps that were given back, and how many rows are out, of the table of the crew's service, to whoever has both: just
    /// what the crew counts. Nothing changes, and it takes no memory.
    pub fn audit(&mut self, table: &mut Shared<R, S>) -> (u128, u32)
        ensures steps { result.0 ≡ steps_of table.old.now.rows }
        ensures out { result.1 ≡ out_of table.old.now.rows }
        ensures counts_steps { result.0 ≡ self.old.steps }
        ensures counts_rows { result.1 ≡ self.old.rows }
        ensures table { table.new ≡ table.old }
        ensures same { self.new ≡ self.old }
    {
        table.audit(&mut self.share)
    }
}
