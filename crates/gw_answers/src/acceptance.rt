//! Accepted objects, as they are printed.

ghost use Rattle.std.specs.Prelude.{Some};
ghost use Rattle.gw_answers.specs.Acceptance.{accepted_text};

use std::fmt;

/// An accepted object, which prints as `accepted N blocks P procedures weight W`, of which W is the greatest weight of a block.
#[derive(Drop)]
pub struct Acceptance {
    /// How many blocks it has.
    pub blocks: u16,
    /// How many procedures it has.
    pub procedures: u16,
    /// The greatest weight of a block, or 0 where it has none.
    pub weight: u32,
}

impl fmt::Display for Acceptance {
    ghost output = { λ a. Some (accepted_text a.blocks a.procedures a.weight) };

    fn fmt<W: fmt::Write>(&self, f: &mut fmt::Formatter<W>) -> fmt::Result {
        let blocks = self.blocks;
        let procedures = self.procedures;
        let weight = self.weight;
        write!(
            f,
            "accepted {blocks} blocks {procedures} procedures weight {weight}"
        )
    }
}
