//! Tables: values are counted by classes.

ghost use Rattle.std.specs.Prelude.{◌≡◌, ◌≤◌, ◌<◌, ◌+◌, ◌-◌, ◌/◌, ◌^◌, ℕ, length, IfOk, OnErr};
ghost use Rattle.std.specs.List.{All};
ghost use Rattle.gw_object.specs.Entities.{KindFits, EntityFits};
ghost use Rattle.gw_entities.specs.Tabulation as model;
ghost use Rattle.gw_entities.specs.Numbered.{of_each};
ghost use Rattle.gw_entities.specs.Table.{empty_table, nothing_entered, table_at, set_table, left_by};

use crate::Memory;
use gw_num::{NumFault, add};
use gw_object::{Entity, Kind, Object};
use std::alloc::Global;
use std::marker::Model;

/// Counts a value in a class, if there is one: an entity that is no table has none.
fn count_in(class: usize, classes: &mut [u64])
    requires { All (λ n. n < 2 ^ 62) classes.old }
    ensures value { classes.new ≡ model.counted_in class classes.old }
    ensures count { length classes.new ≡ length classes.old }
    ensures most { model.RisesByOne classes.old classes.new }
{
    if class < classes.len() {
        classes[class] += 1;
    }
}

/// How many widths reach so far.
#[tactic(auto, using(crate::proofs::Classes::rounded_up))]
fn widths_to(far: u64, width: u32) -> u64
    requires { 0 < width }
    ensures { result ≡ (far + width - 1) / width }
{
    far.div_ceil(u64::from(width))
}

/// What was entered into a table so far (GPSS World Reference Manual, "TABULATE").
///
/// Contracts see the upper limit of the first class and the width of the others too.
#[derive(Drop)]
pub struct Tabulation {
    limit: i64,
    width: u32,
    count: u64,
    sum: i64,
    classes: Vec<u64>,
}

impl Model for Tabulation {
    ghost use Rattle.std.specs.Prelude.{◌≤◌};
    ghost use Rattle.std.specs.List.{All};
    ghost use Rattle.gw_entities.specs.Tabulation.{Tabulation};

    ghost Value = { Tabulation };

    ghost view = { λ t. record { limit = t.limit; width = t.width; count = t.count; sum = t.sum; classes = t.classes.items } };

    ghost invariant = { λ t. (1 ≤ t.width) × All (λ n. n ≤ t.count) t.classes.items };
}

impl Tabulation {
    /// A table with so many classes, into which nothing was entered.
    fn empty(alloc: Global, limit: i64, width: u32, classes: u16) -> Result<Tabulation, Memory>
        requires { 0 < width }
        ensures { IfOk result (λ t. t ≡ empty_table limit width classes) }
    {
        let classes = vec![in alloc; 0; classes as usize]?;
        Ok(Tabulation {
            limit,
            width,
            count: 0,
            sum: 0,
            classes,
        })
    }

    /// The table that an entity is at first; one without a class where it is no table.
    fn of(alloc: Global, kind: &Kind) -> Result<Tabulation, Memory>
        requires { KindFits kind.now }
        ensures { IfOk result (λ t. t ≡ nothing_entered kind.now) }
    {
        match kind {
            Kind::Table(table) => Tabulation::empty(alloc, table.limit, table.width, table.classes),
            _ => Tabulation::empty(alloc, 0, 1, 0),
        }
    }

    /// How many values were entered.
    pub fn count(&self) -> u64
        ensures { result ≡ self.now.count }
    {
        self.count
    }

    /// The sum of the values that were entered.
    pub fn sum(&self) -> i64
        ensures { result ≡ self.now.sum }
    {
        self.sum
    }

    /// How many values each class has.
    pub fn classes(&self) -> &[u64]
        ensures { result.now ≡ self.now.classes }
    {
        self.classes.as_slice()
    }

    /// How many widths above the limit of the first class the class of a value lies, if there are classes enough: 0 where
    /// it is at most that limit.
    fn widths_above(&self, value: i64) -> u64
        ensures { result ≡ model.widths_above self.now value }
    {
        if value <= self.limit {
            return 0;
        }
        widths_to(value.abs_diff(self.limit), self.width)
    }

    /// The class of a value; the last class has all values that are above the others.
    fn class_of(&self, value: i64) -> usize
        ensures { result ≡ model.class_of self.now value }
    {
        let last = self.classes.len().saturating_sub(1);
        self.widths_above(value).min(last as u64) as usize
    }

    /// Counts a value in its class; `sum` is what it makes of the sum.
    fn count_value(&mut self, value: i64, sum: i64)
        requires { self.old.count < 2 ^ 62 }
        ensures { self.new ≡ model.with_entry value sum self.old }
    {
        let class = self.class_of(value);
        self.sum = sum;
        self.count += 1;
        count_in(class, &mut self.classes);
    }

    /// Enters a value: `Number` where an `i64` can't hold the sum, and nothing changes.
    fn enter(&mut self, value: i64) -> Result<(), NumFault>
        requires { self.old.count < 2 ^ 62 }
        ensures value { left_by result self.new ≡ model.tabulation_of value self.old }
        ensures refused { OnErr result (self.new ≡ self.old) }
    {
        let sum = add(self.sum, value)?;
        self.count_value(value, sum);
        Ok(())
    }
}

/// The tables of these entities, into which nothing was entered.
fn tables_of(alloc: Global, entities: &[Entity]) -> Result<Vec<Tabulation>, Memory>
    requires { All EntityFits entities.now }
    ensures { IfOk result (λ tables. tables.items ≡ of_each nothing_entered entities.now) }
{
    let mut tables = Vec::new(alloc);
    for entity in entities {
        tables.push(Tabulation::of(alloc, &entity.kind)?)?;
    }
    Ok(tables)
}

/// The tables of a job, each by its number as an entity of the object.
///
/// Contracts see a table with an entry at the number of each entity.
#[derive(Drop)]
pub struct Tables {
    tables: Vec<Tabulation>,
}

impl Model for Tables {
    ghost use Rattle.std.specs.Prelude.{List};
    ghost use Rattle.gw_entities.specs.Tabulation.{Tabulation};

    ghost Value = { List Tabulation };

    ghost view = { λ t. t.tables.items };
}

impl Tables {
    /// The tables of this object as they are at first, with nothing entered.
    pub fn new(alloc: Global, object: &Object) -> Result<Tables, Memory>
        ensures { IfOk result (λ tables. tables ≡ of_each nothing_entered object.now.entities) }
    {
        let tables = tables_of(alloc, object.parts().entities.as_slice())?;
        Ok(Tables { tables })
    }

    /// Enters a value into the table `t`, in the class to which it belongs (GPSS World Reference Manual, "TABULATE").
    ///
    /// `Number` where an `i64` can't hold the sum of the values, and nothing changes.
    #[tactic(auto, using(crate::proofs::Rules::tables))]
    pub fn tabulate(&mut self, t: u16, value: i64) -> Result<(), NumFault>
        requires there { t < length self.old }
        requires few { (table_at t self.old).count < 2 ^ 62 }
        ensures value { left_by result (table_at t self.new)
            ≡ model.tabulation_of value (table_at t self.old) }
        ensures others { self.new ≡ set_table t (table_at t self.new) self.old }
        ensures refused { OnErr result (self.new ≡ self.old) }
        ensures count { length self.new ≡ length self.old }
    {
        self.tables[t as usize].enter(value)
    }

    /// What was entered into the table `t`.
    #[tactic(auto, using(crate::proofs::Rules::tables))]
    pub fn get(&self, t: u16) -> &Tabulation
        requires { t < length self.now }
        ensures { result.now ≡ table_at t self.now }
    {
        &self.tables[t as usize]
    }
}
