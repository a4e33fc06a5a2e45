//! Values by entity number that stay until they are set.

ghost use Rattle.std.specs.Prelude.{◌≡◌, ◌<◌, length, IfOk};
ghost use Rattle.gw_num.specs.Table.{at, put};
ghost use Rattle.gw_object.specs.declared.parts.Kind.{Kind};
ghost use Rattle.gw_entities.specs.Numbered.{of_each};

use gw_object::{Entity, Kind, Memory, Object};
use std::alloc::Global;
use std::marker::Model;

/// What an entity has at first, and until another is set.
pub trait Initial: Copy {
    /// The value of a number that no entity has.
    ghost none: { Self };

    /// The value that an entity of this kind has at first.
    ghost initial: { Kind → Self };

    /// The value that an entity of this kind has at first.
    fn initial(kind: &Kind) -> Self
        ensures { result ≡ initial kind.now };
}

/// The value that each of these entities has at first.
fn initial_values<T: Initial>(alloc: Global, entities: &[Entity]) -> Result<Vec<T>, Memory>
    ensures { IfOk result (λ values. values.items ≡ of_each T.initial entities.now) }
{
    entities
        .iter()
        .map(|entity| T::initial(&entity.kind))
        .collect(alloc)
}

/// A value of each entity by its number in the object, from 0, which stays until another one is set. The entities of other
/// kinds have a value too, of which nobody speaks.
///
/// Contracts see a table with an entry at the number of each entity.
#[derive(Drop)]
pub struct ByEntity<T: Initial> {
    values: Vec<T>,
}

impl<T: Initial> Model for ByEntity<T> {
    ghost use Rattle.std.specs.Prelude.{List};

    ghost Value = { List T };

    ghost view = { λ t. t.values.items };
}

impl<T: Initial> ByEntity<T> {
    /// The values that the entities of this object have at first.
    pub fn new(alloc: Global, object: &Object) -> Result<ByEntity<T>, Memory>
        ensures { IfOk result (λ t. t ≡ of_each T.initial object.now.entities) }
    {
        let values = initial_values(alloc, object.parts().entities.as_slice())?;
        Ok(ByEntity { values })
    }

    /// The value of an entity.
    #[tactic(auto, using(crate::proofs::Rules::tables))]
    pub fn get(&self, number: u16) -> T
        requires { number < length self.now }
        ensures { result ≡ at T.none self.now number }
    {
        self.values[number as usize]
    }

    /// Gives an entity another value, or the same.
    #[tactic(auto, using(crate::proofs::Rules::tables))]
    pub fn set(&mut self, number: u16, value: T)
        requires { number < length self.old }
        ensures value { self.new ≡ put T.none self.old number value }
        ensures count { length self.new ≡ length self.old }
    {
        self.values[number as usize] = value;
    }
}
