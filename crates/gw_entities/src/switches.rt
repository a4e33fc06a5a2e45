//! Logic switches.

ghost use Rattle.std.specs.Prelude.{◌≡◌, ◌<◌, length, not};
ghost use Rattle.gw_entities.specs.Table as model;

use crate::by_entity::{ByEntity, Initial};
use gw_object::Kind;

impl Initial for bool {
    ghost use Rattle.std.specs.Prelude.{false};

    ghost none = { false };

    ghost initial = { model.initial_setting };

    fn initial(kind: &Kind) -> bool {
        match kind {
            Kind::Switch(set) => *set,
            _ => false,
        }
    }
}

/// The logic switches of a job, each by its number as an entity of the object: whether it is set (GPSS World Reference
/// Manual, "LOGIC").
pub type Switches = ByEntity<bool>;

impl ByEntity<bool> {
    /// Sets the logic switch `s` where it is reset, and resets it where it is set.
    pub fn invert(&mut self, s: u16)
        requires { s < length self.old }
        ensures value { self.new ≡ model.set_switch s (not (model.switch_at s self.old)) self.old }
        ensures count { length self.new ≡ length self.old }
    {
        let was_set = self.get(s);
        self.set(s, !was_set);
    }
}
