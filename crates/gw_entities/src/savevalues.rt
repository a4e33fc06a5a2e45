//! Savevalues.

ghost use Rattle.gw_entities.specs.Table as model;

use crate::by_entity::{ByEntity, Initial};
use gw_object::Kind;

impl Initial for i64 {
    ghost use Rattle.std.specs.Prelude.{pos};

    ghost none = { pos 0 };

    ghost initial = { model.initial_value };

    fn initial(kind: &Kind) -> i64 {
        match kind {
            Kind::Savevalue(value) => *value,
            _ => 0,
        }
    }
}

/// The savevalues of a job, each by its number as an entity of the object (GPSS World Reference Manual, "SAVEVALUE").
pub type Savevalues = ByEntity<i64>;
