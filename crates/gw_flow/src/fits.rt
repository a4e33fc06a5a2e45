//! Whether what is known of a transaction suffices for what a row of the state table asks. Both lists ascend, so each is
//! walked once. Returns are compared block by block, or by the numbers of return rows whose inclusions are known.

ghost use Rattle.std.specs.Prelude.{◌≡◌, ◌<◌, Bool, true, [], ◌∷◌, nat_le, All, AllPairs};
ghost use Rattle.std.specs.List.{list_all};
ghost use Rattle.gw_rules.specs.Entries as entries;
ghost use Rattle.gw_rules.specs.Entries.{lists};
ghost use Rattle.gw_rules.specs.Rows as rows;
ghost use Rattle.gw_rules.specs.Seen.{kind_seen};
ghost use Rattle.gw_flow.specs.Known.{amounts_of, params_of};
ghost use Rattle.gw_flow.specs.Known.{ParametersAscend, NumbersAscend, AmountsAscend, AreSome};
ghost use Rattle.gw_flow.specs.Viewed.{kind_viewed, params_viewed};

use crate::abstract_state::Amount;
use crate::lists::Keyed;
use crate::state::{Param, ParamKind};
use gw_returns::Inclusions;
use gw_rules::{Parameter, ParameterKind};

/// An entry of a list that ascends by number, which is compared by what else is known.
trait Entry<C: Copy>: Keyed {
    /// Whether the first, which is held, suffices for the second, which is asked.
    ghost enough: { C → Self → Self → Bool };

    /// An entry may be compared: a list of its own ascends.
    ghost can_compare: { Self → Type 0 } = { λ _. Unit {0} };

    /// Whether it suffices where another of its number is asked.
    fn suffices(&self, asked: &Self, by: C) -> bool
        requires held { can_compare self.now }
        requires asked { can_compare asked.now }
        ensures { result ≡ enough by self.now asked.now };
}

impl Entry<()> for u16 {
    ghost enough = { λ by held asked. true };

    fn suffices(&self, _: &u16, _: ()) -> bool {
        true
    }
}

/// Whether each of these blocks is among others.
fn are_among(blocks: &[u16], others: &[u16]) -> bool
    requires blocks { NumbersAscend blocks.now }
    requires others { NumbersAscend others.now }
    ensures { result ≡ list_all (λ b. lists others.now b) blocks.now }
{
    has_each(others, blocks, ())
}

/// Whether each of these blocks is this one.
fn are_all(blocks: &[u16], block: u16) -> bool
    ensures { result ≡ list_all (λ b. lists (block ∷ []) b) blocks.now }
{
    blocks.iter().all(|b| *b == block)
}

/// Whether what a parameter holds suffices where this is asked: a number for a number, and a return for one to at least the
/// same blocks.
fn kind_suffices(held: ParamKind<'_>, asked: ParamKind<'_>) -> bool
    requires held { rows.KindAscends (kind_viewed held) }
    requires asked { rows.KindAscends (kind_viewed asked) }
    ensures { result ≡ rows.suffices (kind_viewed held.entry) (kind_viewed asked.entry) }
{
    match held {
        ParamKind::Num => asked == ParamKind::Num,
        ParamKind::RetTo(block) => match asked {
            ParamKind::Num => false,
            ParamKind::RetTo(other) => other == block,
            ParamKind::Ret(others) => others.contains(&block),
        },
        ParamKind::Ret(blocks) => match asked {
            ParamKind::Num => false,
            ParamKind::RetTo(other) => are_all(blocks, other),
            ParamKind::Ret(others) => are_among(blocks, others),
        },
    }
}

impl<'a> Entry<()> for Param<'a> {
    ghost enough = { λ by held asked. rows.suffices (kind_viewed held.kind) (kind_viewed asked.kind) };

    ghost can_compare = { λ p. rows.KindAscends (kind_viewed p.kind) };

    fn suffices(&self, asked: &Param<'a>, _: ()) -> bool {
        kind_suffices(self.kind, asked.kind)
    }
}

impl Entry<()> for Amount {
    ghost enough = { λ by held asked. nat_le asked.number held.number };

    fn suffices(&self, asked: &Amount, _: ()) -> bool {
        asked.number <= self.number
    }
}

/// Whether what a parameter holds suffices where this is asked, both by the numbers of return rows.
pub(crate) fn own_suffices(by: &Inclusions<'_>, held: ParameterKind, asked: ParameterKind) -> bool
    ensures { result ≡ rows.suffices (kind_seen by.now held) (kind_seen by.now asked) }
{
    match held {
        ParameterKind::Num => asked == ParameterKind::Num,
        ParameterKind::RetTo(block) => match asked {
            ParameterKind::Num => false,
            ParameterKind::RetTo(other) => other == block,
            ParameterKind::Ret(row) => by.has(row, block),
        },
        ParameterKind::Ret(row) => match asked {
            ParameterKind::Num => false,
            ParameterKind::RetTo(other) => are_all(by.blocks(row), other),
            ParameterKind::Ret(other) => by.is_within(row, other),
        },
    }
}

impl<'s, 'a> Entry<&'s Inclusions<'a>> for Parameter {
    ghost enough = { λ by held asked. rows.suffices (kind_seen by.now held.kind) (kind_seen by.now asked.kind) };

    fn suffices(&self, asked: &Parameter, by: &'s Inclusions<'a>) -> bool {
        own_suffices(by, self.kind, asked.kind)
    }
}

/// Whether for each entry that is asked one of its number is held that suffices.
fn has_each<C: Copy, T: Entry<C>>(held: &[T], asked: &[T], by: C) -> bool
    requires held { AllPairs (λ a b. T.key a < T.key b) held.now }
    requires asked { AllPairs (λ a b. T.key a < T.key b) asked.now }
    requires each_held { All T.can_compare held.now }
    requires each_asked { All T.can_compare asked.now }
    ensures { result ≡ entries.has_each T.key (T.enough by) held.now asked.now }
{
    let mut left = asked;
    for entry in held {
        let Some((next, later)) = left.split_first() else {
            return true;
        };
        if next.key() < entry.key() {
            return false;
        }
        if next.key() == entry.key() {
            if !entry.suffices(next, by) {
                return false;
            }
            left = later;
        }
    }
    left.is_empty()
}

/// Whether at least these units are held.
pub(crate) fn has_units(held: &[Amount], asked: &[Amount]) -> bool
    requires held { AmountsAscend held.now }
    requires asked { AmountsAscend asked.now }
    requires amounts { AreSome asked.now }
    ensures { result ≡ rows.units_fit (amounts_of held.now) (amounts_of asked.now) }
{
    has_each(held, asked, ())
}

/// Whether at least these parameters are set, to what fits.
pub(crate) fn has_params(held: &[Param<'_>], asked: &[Param<'_>]) -> bool
    requires held { AllPairs (λ (a b : Param). a.number < b.number) held.now }
    requires asked { AllPairs (λ (a b : Param). a.number < b.number) asked.now }
    requires each_held { All (λ (p : Param). rows.KindAscends (kind_viewed p.kind)) held.now }
    requires each_asked { All (λ (p : Param). rows.KindAscends (kind_viewed p.kind)) asked.now }
    ensures { result ≡ rows.params_fit (params_viewed held.now) (params_viewed asked.now) }
{
    has_each(held, asked, ())
}

/// Whether at least these parameters are set, to what fits, both by the numbers of return rows.
pub(crate) fn has_parameters(by: &Inclusions<'_>, held: &[Parameter], asked: &[Parameter]) -> bool
    requires held { ParametersAscend held.now }
    requires asked { ParametersAscend asked.now }
    ensures { result ≡ rows.params_fit (params_of by.now held.now) (params_of by.now asked.now) }
{
    has_each(held, asked, by)
}
