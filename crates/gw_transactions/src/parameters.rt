//! The parameters of a transaction.

ghost use Rattle.std.specs.Prelude.{◌≡◌, ◌≤◌, ◌==◌, ℕ, pos, Some, None, IfOk, unwrap_or};
ghost use Rattle.std.specs.Option.{IsSome};
ghost use Rattle.gw_num.specs.Table.{at, put};
ghost use Rattle.gw_transactions.specs.Parameters.{none_of};

use gw_members::Memory;
use std::alloc::Global;
use std::marker::Model;

/// The parameters of a transaction, each by its number from 1 on, up to the greatest that its object names.
///
/// Each has a slot, which is 0 as long as it isn't set. Which are set is kept beside the slots, so that the state can be told
/// from what is kept; nothing is decided by it.
#[derive(Drop)]
pub struct Parameters {
    // The values, from number 1 on.
    slots: Vec<i64>,
    // A bit for each slot: whether it is set.
    mask: u64,
}

impl Model for Parameters {
    ghost use Rattle.gw_transactions.specs.Parameters.{Numbered};

    ghost Value = { Numbered };

    ghost use Rattle.gw_transactions.specs.Parameters.{numbered_slots, AreBare};

    ghost view = { λ p. numbered_slots p.mask p.slots.items };

    ghost invariant = { λ p. AreBare p.mask p.slots.items };
}

impl Parameters {
    /// As many parameters, none of which is set.
    ///
    /// It fails for want of memory.
    pub(crate) fn unset(alloc: Global, last: u8) -> Result<Parameters, Memory>
        requires { last ≤ 64 }
        ensures { IfOk result (λ made. made ≡ none_of last) }
    {
        let slots = vec![in alloc; 0i64; last as usize]?;
        Ok(Parameters { slots, mask: 0 })
    }

    /// Whether there is no parameter.
    pub(crate) fn is_empty(&self) -> bool
        ensures value { result ≡ (self.now.last == 0) }
        ensures none { self.now.last ≡ 0 → self.now ≡ none_of 0 }
    {
        self.slots.is_empty()
    }

    /// The parameters once more.
    ///
    /// It fails for want of memory.
    pub(crate) fn copy(&self, alloc: Global) -> Result<Parameters, Memory>
        ensures { IfOk result (λ copy. copy ≡ self.now) }
    {
        if self.slots.is_empty() {
            return Ok(Parameters {
                slots: Vec::new(alloc),
                mask: 0,
            });
        }
        let slots = Vec::from_slice(alloc, self.slots.as_slice())?;
        Ok(Parameters {
            slots,
            mask: self.mask,
        })
    }

    /// The value of a parameter that is set.
    pub fn get(&self, number: u8) -> i64
        requires { IsSome (at None self.now.values number) }
        ensures { at None self.now.values number ≡ Some result }
    {
        self.slots[number as usize - 1]
    }

    /// The value of a parameter; 0 where it isn't set.
    pub fn get_or_zero(&self, number: u8) -> i64
        requires { (1 ≤ number) × (number ≤ self.now.last) }
        ensures { result ≡ unwrap_or (at None self.now.values number) (pos 0) }
    {
        let slot = number as usize - 1;
        self.slots[slot]
    }

    /// The value of a parameter where it is set, by any number: one that names no parameter is of none that is set.
    pub fn get_if_set(&self, number: u8) -> Option<i64>
        ensures { result ≡ at None self.now.values number }
    {
        let has_slot = 0 < number && number as usize <= self.slots.len();
        if !has_slot {
            return None;
        }
        let place = number as usize - 1;
        let is_set = self.mask >> place & 1 == 1;
        if is_set {
            Some(self.slots[place])
        } else {
            None
        }
    }

    /// Sets a parameter.
    pub(crate) fn set(&mut self, number: u8, value: i64)
        requires { (1 ≤ number) × (number ≤ self.old.last) }
        ensures values { self.new.values ≡ put None self.old.values number (Some value) }
        ensures last { self.new.last ≡ self.old.last }
    {
        let place = number as usize - 1;
        self.slots[place] = value;
        self.mask |= 1 << place;
    }
}
