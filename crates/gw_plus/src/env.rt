//! What procedures read of the job, and of the transaction that they are evaluated for.

ghost use Rattle.std.specs.Prelude.{◌≡◌, ◌≤◌, ◌^◌, ◌-ℤ◌, pos, ◌≤ℤ◌, not, Some, None};
ghost use Rattle.std.specs.Option.{IsSome};
ghost use Rattle.gw_num.specs.Table.{at};
ghost use Rattle.gw_entities.specs.Attributes as model;
ghost use Rattle.gw_entities.specs.Facility.{is_idle};
ghost use Rattle.gw_rules.specs.Environment.{attribute_value, kept_value};
ghost use Rattle.gw_plus.specs.Reading.{readings_of, environment_of, AttributesFit, MayRead, MayReadKept};

use gw_entities::{Facilities, Facility, Queues, Savevalues, Storage, Storages, Switches, Tables};
use gw_num::truth_value;
use gw_object::{Attribute, EntityAttribute, Operand};
use gw_transactions::Parameters;
use gw_user_chains::UserChains;

/// What procedures read: it lends what is to be read of the job and of one transaction.
#[derive(Clone, Copy)]
pub struct Env<'a> {
    /// The transaction's number, from 1.
    pub number: u64,
    /// Its priority.
    pub priority: i32,
    /// Its mark time, in clock units.
    pub mark: i64,
    /// Its parameters.
    pub parameters: &'a Parameters,
    /// The clock, in clock units.
    pub clock: i64,
    /// What is left of the termination count.
    pub count: i64,
    /// The facilities, each by its number as an entity.
    pub facilities: &'a Facilities,
    /// The storages, each by its number as an entity.
    pub storages: &'a Storages,
    /// The queues, each by its number as an entity.
    pub queues: &'a Queues,
    /// The logic switches, each by its number as an entity.
    pub switches: &'a Switches,
    /// The savevalues, each by its number as an entity.
    pub savevalues: &'a Savevalues,
    /// The tables, each by its number as an entity.
    pub tables: &'a Tables,
    /// The user chains, each by its number as an entity.
    pub chains: &'a UserChains,
    /// The entries of each block so far, by the blocks' numbers, which begin with 1.
    pub entries: &'a [u64],
    /// How many transactions have each block as their current one, by the blocks' numbers, which begin with 1.
    pub here: &'a [usize],
}

/// A count as a value.
fn value_of(count: u64) -> i64
    requires { count ≤ 2 ^ 62 }
    ensures { result ≡ pos count }
{
    count as i64
}

/// The clock less a mark time, in clock units.
fn transit_time(clock: i64, mark: i64) -> i64
    requires { (pos 0 ≤ℤ clock) × (pos 0 ≤ℤ mark) }
    ensures { result ≡ clock -ℤ mark }
{
    clock - mark
}

/// What is left of a storage's capacity, in units.
fn remaining(storage: Storage) -> i64
    requires { storage.contents.content ≤ 2 ^ 62 }
    ensures { result ≡ pos storage.capacity -ℤ pos storage.contents.content }
{
    i64::from(storage.capacity) - value_of(storage.contents.content)
}

/// Whether somebody owns a facility.
fn is_owned(facility: Facility) -> bool
    ensures { result ≡ not (is_idle facility) }
{
    facility.owner.is_some()
}

/// The entry of a block, by its number; `none` where the table has no such entry.
fn entry_at<T: Copy>(table: &[T], none: T, block: u16) -> T
    ensures { result ≡ at none table.now block }
{
    table.get(block as usize).copied().unwrap_or(none)
}

impl Env<'_> {
    /// An attribute of the clock, the termination count or the transaction (docs/plus-code.md).
    pub fn attribute(&self, attribute: Attribute) -> i64
        requires { AttributesFit self.now }
        ensures { result ≡ attribute_value (environment_of self.now) attribute }
    {
        match attribute {
            Attribute::Clock | Attribute::AbsoluteClock => self.clock,
            Attribute::Priority => i64::from(self.priority),
            Attribute::TransitTime => transit_time(self.clock, self.mark),
            Attribute::TransactionNumber => value_of(self.number),
            Attribute::TerminationCount => self.count,
        }
    }

    /// An attribute of an entity, by its number from 0, or of a block, by its number from 1 (docs/plus-code.md): 0 where
    /// nothing is kept of it, since a procedure evaluates it.
    pub fn attribute_of(&self, attribute: EntityAttribute, number: u16) -> i64
        requires { MayRead self.now attribute number }
        ensures { result ≡ model.attribute_of (readings_of self.now) attribute number }
    {
        match attribute {
            EntityAttribute::FacilityOwned => truth_value(is_owned(self.facilities.get(number))),
            EntityAttribute::StorageContent => value_of(self.storages.get(number).contents.content),
            EntityAttribute::StorageRemaining => remaining(self.storages.get(number)),
            EntityAttribute::QueueContent => value_of(self.queues.get(number).content),
            EntityAttribute::SavevalueValue => self.savevalues.get(number),
            EntityAttribute::SwitchSetting => truth_value(self.switches.get(number)),
            EntityAttribute::ChainMembers => value_of(self.chains.members(number) as u64),
            EntityAttribute::VariableValue
            | EntityAttribute::BooleanValue
            | EntityAttribute::FunctionValue => 0,
            EntityAttribute::BlockEntries => value_of(entry_at(self.entries, 0, number)),
            EntityAttribute::BlockCount => value_of(entry_at(self.here, 0, number) as u64),
        }
    }

    /// The value of a parameter that is set.
    fn parameter(&self, number: u8) -> i64
        requires { IsSome (at None self.now.parameters.now.values number) }
        ensures { at None self.now.parameters.now.values number ≡ Some result }
    {
        self.parameters.get(number)
    }

    /// The value of an operand that is kept: a constant, a parameter that is set, or an attribute (docs/plus-code.md).
    pub fn kept_value(&self, operand: Operand) -> i64
        requires { MayReadKept self.now operand }
        ensures { kept_value (environment_of self.now) operand ≡ Some result }
    {
        match operand {
            Operand::Constant(value) => value,
            Operand::Parameter(number) => self.parameter(number),
            Operand::Attribute(attribute) => self.attribute(attribute),
            Operand::OfEntity(of) => self.attribute_of(of.attribute, of.number),
            Operand::Random(_) | Operand::Procedure(_) => unreachable!(),
        }
    }
}
