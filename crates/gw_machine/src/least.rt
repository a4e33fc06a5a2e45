//! The least units that those ask who wait for a storage, where many wait.

ghost use Rattle.std.specs.Prelude.{◌≡◌, ◌<◌, ◌+◌, Some, false, length};
ghost use Rattle.std.specs.Option.{option_copied};
ghost use Rattle.gw_step.specs.Residence.{occurrences};
ghost use Rattle.gw_step.specs.Blocks as model;
ghost use Rattle.gw_machine.specs.Admission.{AdmitsNobody, AllAskInVain};
ghost use Rattle.gw_machine.specs.Coherence.{IsSteady};
ghost use Rattle.gw_machine.specs.View.{state_of, entity_count};
ghost use Rattle.gw_machine.specs.Wants.{IsKnown, IsLeast, lesser as lesser_of, nexts, want_count};

use crate::machine::{Machine, entry_or_none};
use crate::transfers::{asked, block_of};
use crate::wants::{Want, are_told, count_newcomer};
use gw_object::{Block, Units};

/// From how many waiters on those of a delay list are counted by the blocks that they want to enter.
const MANY: usize = 64;

/// The least units that those ask who wait for a storage.
#[derive(Clone, Copy, PartialEq, Eq)]
pub(crate) enum Least {
    /// It isn't known.
    Unknown,
    /// Nobody asks for any.
    Nobody,
    /// So many.
    Units(u32),
}

/// The lesser of the least so far and of what a block asks of a storage.
fn lesser(least: Least, e: u16, block: Option<&Block>) -> Least
    ensures { result ≡ lesser_of least (model.units_asked e (option_copied block.entry)) }
{
    let Some(units) = asked(e, block) else {
        return least;
    };
    match least {
        Least::Units(number) if number <= units.number => least,
        _ => Least::Units(units.number),
    }
}

/// The least units that those ask of a storage who are counted.
fn least_of(wants: &[Want], blocks: &[Block], e: u16) -> Least
    ensures { IsLeast blocks.now e (λ b. want_count b wants.now) result }
{
    let mut least = Least::Nobody;
    for want in wants {
        if want.waiting != 0 {
            least = lesser(least, e, block_of(blocks, want.block));
        }
    }
    least
}

impl Machine {
    /// The least units that those ask who wait for a storage, as far as it is known.
    fn least_want(&self, blocks: &[Block], e: u16) -> Least
        ensures { IsLeast blocks.now e
            (λ b. occurrences b (nexts e (state_of self.now))) result }
    {
        let wants = self.wants.of(e);
        if wants.is_empty() || !are_told(wants, &self.entries) {
            return Least::Unknown;
        }
        least_of(wants, blocks, e)
    }

    /// Those who wait for a storage, by the blocks that they want to enter; nothing where there is no memory for it.
    fn counted_wants(&self, e: u16) -> Vec<Want>
        requires { e < entity_count self.now }
        ensures { IsKnown result.items e (state_of self.now) }
    {
        let mut wants = Vec::new(self.wants.alloc());
        for waiter in self.waits.waiters(e) {
            let block = self.transactions.get(waiter.tx).next;
            let entries = entry_or_none(&self.entries, block as usize);
            if count_newcomer(&mut wants, block, entries).is_err() {
                wants.clear();
                return wants;
            }
        }
        wants
    }

    /// Which blocks those who wait for a storage want to enter is known from now on, if many wait, and there is memory.
    fn count_wants(&mut self, e: u16)
        requires { e < entity_count self.old }
        ensures { self.new ≡ self.old }
    {
        if self.waits.waiting_len(e) < MANY {
            return;
        }
        let wants = self.counted_wants(e);
        self.wants.put(e, wants);
    }

    /// Whether the least units are free that those ask who wait for a storage, if it is known.
    fn is_least_free(&self, blocks: &[Block], e: u16) -> Option<bool>
        requires steady { IsSteady blocks.now (self.now.steps + 1) self.now }
        requires there { e < entity_count self.now }
        ensures { result ≡ Some false → AllAskInVain blocks.now e (state_of self.now) }
    {
        match self.least_want(blocks, e) {
            Least::Unknown => None,
            Least::Nobody => Some(false),
            Least::Units(number) => Some(self.has_free(Units { entity: e, number })),
        }
    }

    /// Whether anybody who waits for a storage may be admitted, as far as it is known with no look at them.
    pub(crate) fn may_admit_more(&self, blocks: &[Block], e: u16) -> bool
        requires steady { IsSteady blocks.now (self.now.steps + 1) self.now }
        requires there { e < entity_count self.now }
        ensures { result ≡ false → AllAskInVain blocks.now e (state_of self.now) }
    {
        match self.is_least_free(blocks, e) {
            Some(may) => may,
            None => true,
        }
    }

    /// Whether anybody who waits for a storage can be admitted. Where many wait, and it wasn't known which blocks they want to
    /// enter, it is from now on.
    pub(crate) fn may_admit(&mut self, blocks: &[Block], e: u16) -> bool
        requires steady { IsSteady blocks.now (self.old.steps + 1) self.old }
        requires there { e < entity_count self.old }
        ensures vain { result ≡ false → AdmitsNobody blocks.now e (state_of self.old) }
        ensures frame { self.new ≡ self.old }
    {
        if let Some(may) = self.is_least_free(blocks, e) {
            return may;
        }
        let may = self.can_admit(blocks, e);
        if !may {
            self.count_wants(e);
        }
        may
    }
}
