//! What all names of a model text stand for.

ghost use Rattle.gw_names.specs.Numbers.{numbers_of};

use crate::entities::EntityNames;
use gw_compile::{Callee, Equ, Numbering};
use gw_object::{Entity, Numbered, Operand};
use gw_rules::{EntityKind, source_of};
use indexmap::IndexMap;

/// The numbers that names have, and the entities of the object, in order of their numbers.
#[derive(Drop)]
pub struct Names {
    /// The numbers of entities.
    pub entities: EntityNames,
    /// The entities.
    pub list: Vec<Entity>,
    /// The numbers of blocks by label, from 1.
    pub blocks: IndexMap<String, u16>,
    /// The numbers of parameters, from 1 to 64.
    pub parameters: IndexMap<String, u8>,
    /// PROCEDUREs.
    pub procedures: IndexMap<String, Callee>,
    /// EQUs.
    pub equs: IndexMap<String, Equ>,
}

impl Numbering for Names {
    ghost numbers = { numbers_of };

    fn entity(&self, kind: EntityKind, name: &String) -> Option<u16> {
        self.entities.get(kind, name)
    }

    fn block(&self, label: &String) -> Option<u16> {
        self.blocks.get(label.as_str()).copied()
    }

    fn parameter(&self, name: &String) -> Option<u8> {
        self.parameters.get(name.as_str()).copied()
    }

    fn procedure(&self, name: &String) -> Option<Callee> {
        self.procedures.get(name.as_str()).copied()
    }

    fn equ(&self, name: &String) -> Option<Equ> {
        self.equs.get(name.as_str()).copied()
    }

    fn source(&self, of: Numbered) -> Operand {
        source_of(self.list.as_slice(), Operand::OfEntity(of))
    }
}
