//! Where weights stand while they are looked for: those of the blocks, then those of the user chains, and behind them what
//! return rows gather.

ghost use Rattle.std.specs.Prelude.{◌≡◌};
ghost use Rattle.gw_weighing.specs.Certificates.{IsCounted};
ghost use Rattle.gw_weighing.specs.Layout as model;

use gw_object::{Entity, Parts, chains_in};
use gw_rules::chain_place;

/// How many places there are of each sort.
#[derive(Clone, Copy, PartialEq, Eq)]
pub(crate) struct Layout {
    /// Of the blocks.
    pub(crate) blocks: u16,
    /// Of the user chains.
    pub(crate) chains: u16,
    /// Of the return rows.
    pub(crate) rows: u16,
}

impl Layout {
    /// Those of an object.
    pub(crate) fn of(parts: &Parts) -> Layout
        requires { IsCounted parts.now }
        ensures { result ≡ model.layout_of parts.now }
    {
        Layout {
            blocks: parts.blocks.as_slice().len() as u16,
            chains: chains_in(parts.entities.as_slice()) as u16,
            rows: parts.returns.as_slice().len() as u16,
        }
    }

    /// How many places of blocks and of user chains there are.
    pub(crate) fn counted(self) -> usize
        ensures { result ≡ model.place_count self }
    {
        self.blocks as usize + self.chains as usize
    }

    /// How many places there are.
    pub(crate) fn places(self) -> usize
        ensures { result ≡ model.places self }
    {
        self.counted() + self.rows as usize
    }

    /// The place of the block of this number, from 1; one that isn't there, where there is no such block.
    pub(crate) fn of_block(self, number: u16) -> usize
        ensures { result ≡ model.of_block self number }
    {
        if number == 0 || number > self.blocks {
            return self.places();
        }
        number as usize - 1
    }

    /// The place of the user chain that is the entity of this number, from 0; one that isn't there, where there is none.
    pub(crate) fn of_chain(self, entities: &[Entity], entity: u16) -> usize
        ensures { result ≡ model.of_chain self entities.now entity }
    {
        let place = chain_place(entities, entity);
        if place >= self.chains as usize {
            return self.places();
        }
        self.blocks as usize + place
    }

    /// The place of the return row of this number, from 0.
    pub(crate) fn of_row(self, number: u16) -> usize
        ensures { result ≡ model.of_row self number }
    {
        self.counted() + number as usize
    }
}
