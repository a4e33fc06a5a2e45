//! The live transactions of a job, one after the other.

ghost use Rattle.std.specs.Iterator.{YieldsFirstBy, item_count};

use crate::beside::row;
use crate::{Kept, Parameters, Transaction};
use slab::Slab;
use std::marker::Model;

/// The live transactions of a job, in no particular order: the attributes of each, the entity, by its number from 0,
/// that is the user chain of which it is a member, and its parameters. Contracts see those that are still to come.
#[derive(Drop)]
pub struct Iter<'a> {
    pub(crate) slots: slab::Iter<'a, (u64, Kept)>,
    pub(crate) beside: &'a Slab<Parameters>,
    pub(crate) unset: &'a Parameters,
}

impl<'a> Model for Iter<'a> {
    ghost use Rattle.std.specs.Prelude.{◌≡◌, List, map};
    ghost use Rattle.gw_transactions.specs.Parameters.{none_of};
    ghost use Rattle.gw_transactions.specs.Transactions.{ListedTransaction};
    ghost use Rattle.gw_transactions.specs.Slots.{listed_in};

    ghost Value = { List ListedTransaction };

    ghost invariant = { λ it. it.unset.now ≡ none_of it.unset.now.last };

    ghost view = { λ it. map (listed_in it.beside.now) it.slots };
}

impl<'a> Iterator for Iter<'a> {
    type Item = (&'a Transaction, Option<u16>, &'a Parameters);

    ghost next_gives = { YieldsFirstBy (λ item. (item.0.now, item.1, item.2.now.values)) (λ rest. rest) };

    ghost remaining = { item_count (λ rest. rest) };

    fn next(&mut self) -> Option<(&'a Transaction, Option<u16>, &'a Parameters)> {
        let (_, slot) = self.slots.next()?;
        let kept = &slot.1;
        let parameters = row(self.beside, self.unset, kept.key);
        Some((&kept.attributes, kept.chain, parameters))
    }
}
