//! The user chains among entities.

ghost use Rattle.std.specs.Prelude.{◌≡◌};
ghost use Rattle.gw_object.specs.Entities as model;

use crate::parts::*;

impl Kind {
    /// Whether it is that of user chains.
    pub fn is_chain(&self) -> bool
        ensures { result ≡ model.is_chain self.now }
    {
        matches!(self, Kind::Chain)
    }
}

/// How many of these entities are user chains: as many rows of the state table and weights an object has for them
/// (docs/object-format.md).
pub fn chains_in(entities: &[Entity]) -> usize
    ensures { result ≡ model.chains_in entities.now }
{
    entities
        .iter()
        .filter(|entity| entity.kind.is_chain())
        .count()
}
