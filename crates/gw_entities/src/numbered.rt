//! Values by entity number, over which time passes.

ghost use Rattle.std.specs.Prelude.{◌≡◌, ◌≤◌, ◌<◌, ◌+◌, ◌^◌, ℕ, length, map, IfOk};
ghost use Rattle.gw_object.specs.declared.parts.Kind.{Kind};
ghost use Rattle.std.specs.List.{All};
ghost use Rattle.gw_entities.specs.Numbered.{IsKept, at_start, values_after, value_at, with_value, today, of_each};

use gw_object::{Entity, Kind, Memory, Object};
use std::alloc::Global;
use std::marker::Model;

/// What is kept of an entity while time passes.
pub trait Timed: Copy {
    /// The value of a number that no entity has.
    ghost none: { Self };

    /// The value of an entity of this kind to which nothing happened.
    ghost fresh: { Kind → Self };

    /// The value so many clock units later, if nothing else happens.
    ghost after: { ℕ → Self → Self };

    /// How far its numbers may have come in so many clock units.
    ghost Fits: { ℕ → Self → Type 0 };

    /// The value of an entity of this kind to which nothing happened.
    fn fresh(kind: &Kind) -> Self
        ensures value { result ≡ fresh kind.now }
        ensures fits { Fits 0 result };

    /// Lets `dt` clock units pass.
    fn pass_time(&mut self, dt: u64)
        requires { (passed : ℕ) × Fits passed self.old × (passed + dt < 2 ^ 63) }
        ensures value { self.new ≡ after dt self.old }
        ensures fits { (passed : ℕ) → Fits passed self.old → Fits (passed + dt) self.new };

    /// Where no time passes, nothing changes.
    ghost at_once: { (value : Self) → after 0 value ≡ value };

    /// Time that passes in two parts makes the same of a value as it does in one.
    ghost in_parts: { (a b : ℕ) (value : Self) → after b (after a value) ≡ after (a + b) value };
}

/// The value of an entity as it was when it last changed.
#[derive(Clone, Copy)]
pub(crate) struct Kept<T: Timed> {
    /// The value at that time.
    pub value: T,
    /// The clock units that had passed at that time.
    pub since: u64,
}

impl<T: Timed> Kept<T> {
    /// The value once so many clock units have passed in all.
    fn today(&self, passed: u64) -> T
        requires since { self.now.since ≤ passed }
        requires few { passed < 2 ^ 63 }
        requires fits { T.Fits self.now.since self.now.value }
        ensures value { result ≡ today T.after passed self.now }
        ensures fits { T.Fits passed result }
    {
        let mut value = self.value;
        value.pass_time(passed - self.since);
        value
    }
}

/// What is kept of each entity by its number in the object, from 0, while time passes. The entities of other kinds have a
/// value too, of which nobody speaks.
///
/// Contracts see a table with a value at the number of each entity, and the clock units that passed so far. Time that
/// passes is only counted: a value is brought up to date when it is read or changed.
#[derive(Drop)]
pub struct Numbered<T: Timed> {
    kept: Vec<Kept<T>>,
    passed: u64,
}

impl<T: Timed> Model for Numbered<T> {
    ghost use Rattle.std.specs.Prelude.{◌<◌, ◌^◌, map};
    ghost use Rattle.std.specs.List.{All};
    ghost use Rattle.gw_entities.specs.Numbered.{ByNumber, IsKept, today};

    ghost Value = { ByNumber T };

    ghost view = { λ n. record { values = map (today T.after n.passed) n.kept.items; passed = n.passed } };

    ghost invariant = { λ n. All (IsKept T.Fits n.passed) n.kept.items × (n.passed < 2 ^ 63) };
}

/// What is kept of each of these entities at clock 0.
fn kept_at_start<T: Timed>(alloc: Global, entities: &[Entity]) -> Result<Vec<Kept<T>>, Memory>
    ensures values { IfOk result (λ kept. map (today T.after 0) kept.items ≡ of_each T.fresh entities.now) }
    ensures fits { IfOk result (λ kept. All (IsKept T.Fits 0) kept.items) }
{
    let mut kept = Vec::new(alloc);
    for entity in entities {
        kept.push(Kept {
            value: T::fresh(&entity.kind),
            since: 0,
        })?;
    }
    Ok(kept)
}

impl<T: Timed> Numbered<T> {
    /// The entities of this object at clock 0, to which nothing happened.
    pub fn new(alloc: Global, object: &Object) -> Result<Numbered<T>, Memory>
        ensures { IfOk result (λ t. t ≡ at_start T.fresh object.now.entities) }
    {
        let kept = kept_at_start(alloc, object.parts().entities.as_slice())?;
        Ok(Numbered { kept, passed: 0 })
    }

    /// What is kept of an entity.
    #[tactic(auto, using(crate::proofs::Rules::tables))]
    pub fn get(&self, number: u16) -> T
        requires { number < length self.now.values }
        ensures value { result ≡ value_at T.none number self.now }
        ensures fits { T.Fits self.now.passed result }
    {
        self.kept[number as usize].today(self.passed)
    }

    /// Gives an entity another value, or the same.
    #[tactic(auto, using(crate::proofs::Rules::tables))]
    pub(crate) fn set(&mut self, number: u16, value: T)
        requires there { number < length self.old.values }
        requires fits { T.Fits self.old.passed value }
        ensures written { self.new ≡ with_value T.none number value self.old }
        ensures left { value_at T.none number self.new ≡ value }
        ensures same { value ≡ value_at T.none number self.old → self.new ≡ self.old }
        ensures count { length self.new.values ≡ length self.old.values }
    {
        self.kept[number as usize] = Kept {
            value,
            since: self.passed,
        };
    }

    /// Lets `dt` clock units pass.
    pub fn pass_time(&mut self, dt: u64)
        requires { self.old.passed + dt < 2 ^ 63 }
        ensures { self.new ≡ values_after T.after dt self.old }
    {
        self.passed += dt;
    }

    /// How many clock units passed so far.
    pub(crate) fn passed(&self) -> u64
        ensures { result ≡ self.now.passed }
    {
        self.passed
    }
}
