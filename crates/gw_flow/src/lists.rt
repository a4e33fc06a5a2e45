//! The lists of abstract states.

ghost use Rattle.std.specs.Prelude.{◌≡◌, ℕ, ◌==◌, ◌++◌, filter, nat_lt, option_to_list, IfOk};
ghost use Rattle.std.specs.List.{find};
ghost use Rattle.gw_rules.specs.Entries as entries;
ghost use Rattle.gw_rules.specs.Seen.{units_seen};
ghost use Rattle.gw_flow.specs.Known.{amounts_of, ArePut};

use crate::abstract_state::Amount;
use gw_object::{Items, Memory, Units};
use gw_rules::Parameter;
use std::alloc::Global;

/// A list once more.
pub(crate) fn copy_of<T: Copy>(alloc: Global, items: &Items<T>) -> Result<Items<T>, Memory>
    ensures { IfOk result (λ copy. copy ≡ items.now) }
{
    let copy = Vec::from_slice(alloc, items.as_slice())?;
    Ok(Items::from_vec(copy))
}

/// A list with one more element behind it, if there is one.
pub(crate) fn with_last<T: Drop>(items: Vec<T>, last: Option<T>) -> Result<Vec<T>, Memory>
    ensures { IfOk result (λ all. all.items ≡ items.items ++ option_to_list last) }
{
    let mut all = items;
    match last {
        Some(item) => {
            all.push(item)?;
            Ok(all)
        }
        None => Ok(all),
    }
}

/// The amounts of a row of the state table.
pub(crate) fn amounts_seen(alloc: Global, units: &[Units]) -> Result<Vec<Amount>, Memory>
    ensures { IfOk result (λ amounts. amounts_of amounts.items ≡ units_seen units.now) }
{
    let mut amounts = Vec::with_capacity(alloc, units.len())?;
    for u in units {
        amounts.push(Amount {
            entity: u.entity,
            number: u.number as u64,
        })?;
    }
    Ok(amounts)
}

/// An element of a list that ascends by a key.
pub(crate) trait Keyed: Copy {
    /// Its key.
    ghost key: { Self → ℕ };

    /// Its key.
    fn key(&self) -> u16
        ensures { result ≡ key self.now };
}

impl Keyed for u16 {
    ghost key = { λ n. n };

    fn key(&self) -> u16 {
        *self
    }
}

impl Keyed for Amount {
    ghost key = { λ a. a.entity };

    fn key(&self) -> u16 {
        self.entity
    }
}

impl Keyed for Parameter {
    ghost key = { λ p. p.number };

    fn key(&self) -> u16 {
        self.number as u16
    }
}

/// The first element of a key, if there is one.
pub(crate) fn of_key<T: Keyed>(items: &[T], key: u16) -> Option<T>
    ensures { result ≡ find (λ item. T.key item == key) items.now }
{
    for item in items {
        if item.key() == key {
            return Some(*item);
        }
    }
    None
}

/// The elements whose keys are below this one.
fn those_below<T: Keyed>(alloc: Global, items: &[T], key: u16) -> Result<Vec<T>, Memory>
    ensures { IfOk result (λ all. all.items ≡ filter (λ x. nat_lt (T.key x) key) items.now) }
{
    items
        .iter()
        .copied()
        .filter(|other| other.key() < key)
        .collect(alloc)
}

/// The elements whose keys are above this one.
fn those_above<T: Keyed>(alloc: Global, items: &[T], key: u16) -> Result<Vec<T>, Memory>
    ensures { IfOk result (λ all. all.items ≡ filter (λ x. nat_lt key (T.key x)) items.now) }
{
    items
        .iter()
        .copied()
        .filter(|other| key < other.key())
        .collect(alloc)
}

/// A list with an element, in its place by its key; it stands there for the one of its key.
pub(crate) fn in_place<T: Keyed>(alloc: Global, items: &[T], item: T) -> Result<Vec<T>, Memory>
    ensures { IfOk result (λ all. all.items ≡ entries.in_place T.key item items.now) }
{
    let key = item.key();
    let mut all = those_below(alloc, items, key)?;
    all.push(item)?;
    let above = those_above(alloc, items, key)?;
    all.extend_from_slice(&above)?;
    Ok(all)
}

/// A list without a number.
pub(crate) fn without_number(
    alloc: Global,
    numbers: &[u16],
    number: u16,
) -> Result<Vec<u16>, Memory>
    ensures { IfOk result (λ all. all.items ≡ entries.without_number number numbers.now) }
{
    numbers
        .iter()
        .copied()
        .filter(|n| *n != number)
        .collect(alloc)
}

/// The units of an entity, 0 where there is no amount of it.
pub(crate) fn amount_in(amounts: &[Amount], entity: u16) -> u64
    ensures { result ≡ entries.amount_of (amounts_of amounts.now) entity }
{
    of_key(amounts, entity).map_or(0, |amount| amount.number)
}

/// The amounts with this one for its entity, in its ascending place; without one of 0.
pub(crate) fn with_amount(
    alloc: Global,
    amounts: &[Amount],
    entity: u16,
    number: u64,
) -> Result<Vec<Amount>, Memory>
    ensures { IfOk result (λ all. ArePut entity number amounts.now all.items) }
{
    let mut all = those_below(alloc, amounts, entity)?;
    if number != 0 {
        all.push(Amount { entity, number })?;
    }
    let above = those_above(alloc, amounts, entity)?;
    all.extend_from_slice(&above)?;
    Ok(all)
}
