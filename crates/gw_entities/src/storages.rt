//! Storages.

ghost use Rattle.std.specs.Prelude.{◌≡◌, ◌≤◌, ◌<◌, ◌+◌, ◌^◌, ℕ, length, IfOk, Some, false, true};
ghost use Rattle.gw_object.specs.Entities.{capacity_of};
ghost use Rattle.std.proofs.Common.{rules};
ghost use Rattle.gw_entities.specs.Average.{average};
ghost use Rattle.gw_entities.specs.Fits.{StorageFits, StaysFit};
ghost use Rattle.gw_entities.specs.Storage as model;
ghost use Rattle.gw_entities.specs.Storage.{storage_at};
ghost use Rattle.gw_entities.specs.Numbered.{OthersStay};

use crate::average::{Average, average_of};
use crate::contents::Contents;
use crate::numbered::{Numbered, Timed};
use gw_object::Kind;

/// A storage: at most so many units are inside (GPSS World Reference Manual, "ENTER" and "LEAVE").
#[derive(Clone, Copy, PartialEq, Eq)]
pub struct Storage {
    /// The most units that may be inside at one moment.
    pub capacity: u32,
    /// What is inside.
    pub contents: Contents,
}

impl Storage {
    /// Whether there is room for `n` units more.
    fn has_room(&self, n: u32) -> bool
        requires { self.now.contents.content ≤ 2 ^ 62 }
        ensures { result ≡ model.has_room n self.now }
    {
        self.contents.content + u64::from(n) <= u64::from(self.capacity)
    }

    /// Lets `n` units enter, if there is room.
    fn enter(&mut self, n: u32) -> bool
        requires fits { (passed : ℕ) × StorageFits passed self.old }
        requires few { self.old.contents.entries + n ≤ 2 ^ 62 }
        requires whole { n ≤ self.old.capacity }
        ensures value { model.entry_of n self.old ≡ Some (result, self.new) }
        ensures full { result ≡ false → self.new ≡ self.old }
        ensures fits { StaysFit StorageFits self.old self.new }
    {
        if !self.has_room(n) {
            return false;
        }
        self.contents.add(n);
        true
    }

    /// Lets `n` units leave.
    fn leave(&mut self, n: u32)
        requires { n ≤ self.old.contents.content }
        ensures value { model.exit_of n self.old ≡ Some self.new }
        ensures fits { StaysFit StorageFits self.old self.new }
    {
        self.contents.take(n);
    }
}

impl Timed for Storage {
    ghost none = { model.vacant 0 };

    ghost fresh = { λ kind. model.vacant (capacity_of kind) };

    ghost after = { model.storage_after };

    ghost Fits = { StorageFits };

    fn fresh(kind: &Kind) -> Storage {
        let capacity = match kind {
            Kind::Storage(capacity) => *capacity,
            _ => 0,
        };
        Storage {
            capacity,
            contents: Contents::empty(),
        }
    }

    fn pass_time(&mut self, dt: u64) {
        self.contents.accrue(dt);
    }

    ghost at_once = { λ value. Prim.search rules };

    ghost in_parts = { λ a b value. Prim.search rules };
}

/// The storages of a job, each by its number as an entity of the object.
pub type Storages = Numbered<Storage>;

impl Numbered<Storage> {
    /// Lets `n` units, at most the whole capacity, enter the storage `s`, if there is room; false where there isn't now, and
    /// nothing changes (GPSS World Reference Manual, "ENTER").
    #[tactic(auto, using(crate::proofs::Rules::tables))]
    pub fn enter(&mut self, s: u16, n: u32) -> bool
        requires there { s < length self.old.values }
        requires few { (storage_at s self.old).contents.entries + n ≤ 2 ^ 62 }
        requires whole { n ≤ (storage_at s self.old).capacity }
        ensures value { model.entry_of n (storage_at s self.old)
            ≡ Some (result, storage_at s self.new) }
        ensures others { OthersStay (model.vacant 0) s self.old self.new }
        ensures full { result ≡ false → self.new ≡ self.old }
        ensures count { length self.new.values ≡ length self.old.values }
    {
        let mut storage = self.get(s);
        let entered = storage.enter(n);
        self.set(s, storage);
        entered
    }

    /// Lets `n` units leave the storage `s`, where at least so many are inside (GPSS World Reference Manual, "LEAVE").
    #[tactic(auto, using(crate::proofs::Rules::tables))]
    pub fn leave(&mut self, s: u16, n: u32)
        requires there { s < length self.old.values }
        requires inside { n ≤ (storage_at s self.old).contents.content }
        ensures value { model.exit_of n (storage_at s self.old) ≡ Some (storage_at s self.new) }
        ensures others { OthersStay (model.vacant 0) s self.old self.new }
        ensures count { length self.new.values ≡ length self.old.values }
    {
        let mut storage = self.get(s);
        storage.leave(n);
        self.set(s, storage);
    }

    /// The average content of the storage `s` over the time so far, at most the most that were inside at one moment
    /// (GPSS World Reference Manual, "Standard Reports"; thousandths are ours: docs/report.md).
    pub fn average(&self, s: u16) -> Average
        requires { s < length self.now.values }
        ensures value { result ≡ average (storage_at s self.now).contents.time_sum self.now.passed }
        ensures most { result.whole ≤ (storage_at s self.now).contents.maximum }
    {
        average_of(self.get(s).contents.time_sum, self.passed())
    }
}
