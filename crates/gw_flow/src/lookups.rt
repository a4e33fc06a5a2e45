//! What the rules of blocks look up in what is known of a transaction.

ghost use Rattle.std.specs.Prelude.{◌≡◌, ◌==◌, length, is_some, option_map};
ghost use Rattle.gw_rules.specs.Rows.{Row};
ghost use Rattle.gw_rules.specs.Rows as rows;
ghost use Rattle.gw_flow.specs.Viewed.{kind_viewed};
ghost use Rattle.gw_flow.specs.Known.{known_row as known_of, amounts_of};

use crate::abstract_state::{AbsState, Amount};
use crate::lists::{amount_in, of_key};
use crate::state::{ParamKind, param_seen};
use gw_object::ReturnRow;

/// What is known of a transaction, by lookups that take no memory.
pub trait Lookups {
    /// The abstract state that is looked into.
    ghost known: { Self → Row };

    /// Whether no parameter is sure to be set.
    fn sets_nothing(&self) -> bool
        ensures { result ≡ (length (known self.now).params == 0) };

    /// What a parameter, given by its number, is sure to hold.
    fn kind_of(&self, parameter: u8) -> Option<ParamKind<'_>>
        ensures { option_map kind_viewed result ≡ rows.kind_of (known self.now) parameter };

    /// The facilities that are owned.
    fn facilities(&self) -> &[u16]
        ensures { result.now ≡ (known self.now).facilities };

    /// The units that are sure to be held.
    fn units(&self) -> &[Amount]
        ensures { amounts_of result.now ≡ (known self.now).units };

    /// Whether a parameter is sure to be set.
    fn is_set(&self, parameter: u8) -> bool
        ensures { result ≡ is_some (rows.kind_of (known self.now) parameter) }
    {
        self.kind_of(parameter).is_some()
    }

    /// Whether a parameter is sure to hold a number.
    fn is_number(&self, parameter: u8) -> bool
        ensures { result ≡ rows.is_number (rows.kind_of (known self.now) parameter) }
    {
        match self.kind_of(parameter) {
            Some(ParamKind::Num) => true,
            Some(ParamKind::Ret(_) | ParamKind::RetTo(_)) | None => false,
        }
    }

    /// Whether a parameter is known to hold a return.
    fn is_return(&self, parameter: u8) -> bool
        ensures { result ≡ rows.is_return (rows.kind_of (known self.now) parameter) }
    {
        match self.kind_of(parameter) {
            Some(ParamKind::Ret(_) | ParamKind::RetTo(_)) => true,
            Some(ParamKind::Num) | None => false,
        }
    }

    /// Whether no facility is owned.
    fn owns_nothing(&self) -> bool
        ensures { result ≡ (length (known self.now).facilities == 0) }
    {
        self.facilities().is_empty()
    }

    /// Whether a facility is owned.
    fn owns(&self, facility: u16) -> bool
        ensures { result ≡ rows.owns (known self.now) facility }
    {
        self.facilities().contains(&facility)
    }

    /// The units of a storage or a queue that are sure to be held.
    fn units_of(&self, entity: u16) -> u64
        ensures { result ≡ rows.units_of (known self.now) entity }
    {
        amount_in(self.units(), entity)
    }

    /// Whether nothing is known but that no facility is owned.
    fn is_empty(&self) -> bool
        ensures { result ≡ rows.is_empty (known self.now) }
    {
        self.sets_nothing() && self.owns_nothing() && self.units().is_empty()
    }
}

/// An abstract state, with the return rows that it names.
#[derive(Clone, Copy)]
pub(crate) struct Carried<'a> {
    /// The state.
    pub state: &'a AbsState,
    /// The return rows.
    pub returns: &'a [ReturnRow],
}

impl<'a> Lookups for Carried<'a> {
    ghost known = { λ c. known_of c.returns.now c.state.now };

    fn sets_nothing(&self) -> bool {
        self.state.parts().parameters.as_slice().is_empty()
    }

    fn kind_of(&self, parameter: u8) -> Option<ParamKind<'_>> {
        let parameters = self.state.parts().parameters.as_slice();
        of_key(parameters, parameter as u16).map(|found| param_seen(self.returns, &found).kind)
    }

    fn facilities(&self) -> &[u16] {
        self.state.parts().facilities.as_slice()
    }

    fn units(&self) -> &[Amount] {
        self.state.parts().units.as_slice()
    }
}

/// A row that isn't there: by it nothing is known.
pub(crate) struct NoRow;

impl Lookups for NoRow {
    ghost known = { λ _. rows.nothing_known };

    fn sets_nothing(&self) -> bool {
        true
    }

    fn kind_of(&self, _: u8) -> Option<ParamKind<'_>> {
        None
    }

    fn facilities(&self) -> &[u16] {
        &[]
    }

    fn units(&self) -> &[Amount] {
        &[]
    }
}
