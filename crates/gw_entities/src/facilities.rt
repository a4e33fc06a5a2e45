//! Facilities.

ghost use Rattle.std.specs.Prelude.{◌≡◌, ◌≤◌, ◌<◌, ◌+◌, ◌^◌, ℕ, length, IfOk, Some, false, true};
ghost use Rattle.std.proofs.Common.{rules};
ghost use Rattle.std.proofs.lemmas.Grind.{common_steps};
ghost use Rattle.gw_entities.specs.Average.{average};
ghost use Rattle.gw_entities.specs.Facility as model;
ghost use Rattle.gw_entities.specs.Facility.{facility_at};
ghost use Rattle.gw_entities.specs.Fits.{FacilityFits, StaysFit};
ghost use Rattle.gw_entities.specs.Numbered.{OthersStay};

use crate::average::{Average, average_of};
use crate::numbered::{Numbered, Timed};
use gw_object::Kind;

/// A facility: at most one transaction owns it (GPSS World Reference Manual, "SEIZE" and "RELEASE").
#[derive(Clone, Copy, PartialEq, Eq)]
pub struct Facility {
    /// The number of the transaction that owns it, from 1, if one does.
    pub owner: Option<u64>,
    /// How often it was seized.
    pub entries: u64,
    /// How long it was owned so far, in clock units.
    pub busy: u128,
}

impl Facility {
    /// Whether nobody owns it.
    fn is_idle(&self) -> bool
        ensures { result ≡ model.is_idle self.now }
    {
        self.owner.is_none()
    }

    /// The transaction `xn` seizes it, if it is idle.
    fn seize(&mut self, xn: u64) -> bool
        requires few { self.old.entries < 2 ^ 62 }
        requires other { model.is_owned_by xn self.old ≡ false }
        ensures value { model.seizure_by xn self.old ≡ Some (result, self.new) }
        ensures busy { result ≡ false → self.new ≡ self.old }
        ensures fits { StaysFit FacilityFits self.old self.new }
    {
        if !self.is_idle() {
            return false;
        }
        self.owner = Some(xn);
        self.entries += 1;
        true
    }

    /// Its owner gives it up.
    fn release(&mut self)
        ensures value { self.new ≡ model.without_owner self.old }
        ensures fits { StaysFit FacilityFits self.old self.new }
    {
        self.owner = None;
    }
}

impl Timed for Facility {
    ghost none = { model.idle };

    ghost fresh = { λ kind. model.idle };

    ghost after = { model.facility_after };

    ghost Fits = { FacilityFits };

    fn fresh(_kind: &Kind) -> Facility {
        Facility {
            owner: None,
            entries: 0,
            busy: 0,
        }
    }

    fn pass_time(&mut self, dt: u64) {
        if !self.is_idle() {
            self.busy += u128::from(dt);
        }
    }

    ghost at_once = { λ value. Prim.search (rules, common_steps) };

    ghost in_parts = { λ a b value. Prim.search (rules, common_steps) };
}

/// The facilities of a job, each by its number as an entity of the object.
pub type Facilities = Numbered<Facility>;

impl Numbered<Facility> {
    /// The transaction `xn`, which doesn't own the facility `f`, seizes it, if it is idle; false where another owns it, and
    /// nothing changes (GPSS World Reference Manual, "SEIZE").
    #[tactic(auto, using(crate::proofs::Rules::tables))]
    pub fn seize(&mut self, f: u16, xn: u64) -> bool
        requires there { f < length self.old.values }
        requires few { (facility_at f self.old).entries < 2 ^ 62 }
        requires other { model.is_owned_by xn (facility_at f self.old) ≡ false }
        ensures value { model.seizure_by xn (facility_at f self.old)
            ≡ Some (result, facility_at f self.new) }
        ensures others { OthersStay model.idle f self.old self.new }
        ensures busy { result ≡ false → self.new ≡ self.old }
        ensures count { length self.new.values ≡ length self.old.values }
    {
        let mut facility = self.get(f);
        let seized = facility.seize(xn);
        self.set(f, facility);
        seized
    }

    /// The transaction `xn` gives up the facility `f`, which it owns, and which is then idle (GPSS World Reference Manual,
    /// "RELEASE").
    #[tactic(auto, using(crate::proofs::Rules::tables))]
    pub fn release(&mut self, f: u16, xn: u64)
        requires there { f < length self.old.values }
        requires owner { model.is_owned_by xn (facility_at f self.old) ≡ true }
        ensures value { model.release_by xn (facility_at f self.old)
            ≡ Some (facility_at f self.new) }
        ensures others { OthersStay model.idle f self.old self.new }
        ensures count { length self.new.values ≡ length self.old.values }
    {
        let mut facility = self.get(f);
        facility.release();
        self.set(f, facility);
    }

    /// The utilisation of the facility `f`: the part of the time so far for which it was owned, at most 1
    /// (GPSS World Reference Manual, "Standard Reports"; thousandths are ours: docs/report.md).
    pub fn average(&self, f: u16) -> Average
        requires { f < length self.now.values }
        ensures value { result ≡ average (facility_at f self.now).busy self.now.passed }
        ensures most { result.whole ≤ 1 }
    {
        average_of(self.get(f).busy, self.passed())
    }
}
