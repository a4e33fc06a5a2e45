//! An object: parts that have a spelling.

ghost use Rattle.std.specs.Prelude.{◌≡◌};
ghost use Rattle.gw_object.specs.Grammar.{HasSpelling};

use crate::parts::Parts;
use std::marker::Model;

/// An object: parts that keep every rule of the object format, so that they have exactly one spelling.
#[derive(Drop)]
pub struct Object {
    parts: Parts,
}

impl Model for Object {
    ghost use Rattle.gw_object.specs.declared.parts.Parts.{Parts};
    ghost use Rattle.gw_object.specs.Grammar.{HasSpelling};

    ghost Value = { Parts };

    ghost view = { λ o. o.parts };

    ghost invariant = { λ o. HasSpelling o.parts };
}

impl Object {
    /// The object of parts that are known to have a spelling.
    pub fn of(parts: Parts) -> Object
        requires { HasSpelling parts }
        ensures { result ≡ parts }
    {
        Object { parts }
    }

    /// Its parts.
    pub fn parts(&self) -> &Parts
        ensures value { result.now ≡ self.now }
        ensures limits { HasSpelling self.now }
    {
        &self.parts
    }

    /// Its parts, given back.
    pub fn into_parts(self) -> Parts
        ensures value { result ≡ self }
        ensures limits { HasSpelling self }
    {
        let Object { parts } = self;
        parts
    }
}
