//! What is kept of entities, by kind and name.

ghost use Rattle.std.specs.Prelude.{◌≡◌, ℕ, List, None, string_bytes};
ghost use Rattle.gw_rules.specs.declared.entities.EntityKind.{EntityKind};
ghost use Rattle.gw_names.specs.Known.{entity_of};
ghost use Rattle.gw_names.specs.Places.{SetsKeys, entry};

use crate::maps::set;
use gw_rules::EntityKind;
use indexmap::IndexMap;
use std::alloc::{AllocError, Global};

/// Something of each entity by its name, for each kind.
#[derive(Drop)]
pub struct ByKind<T> {
    /// Facilities.
    pub facilities: IndexMap<String, T>,
    /// Storages.
    pub storages: IndexMap<String, T>,
    /// Queues.
    pub queues: IndexMap<String, T>,
    /// Logic switches.
    pub switches: IndexMap<String, T>,
    /// Savevalues.
    pub savevalues: IndexMap<String, T>,
    /// Tables.
    pub tables: IndexMap<String, T>,
    /// User chains.
    pub chains: IndexMap<String, T>,
    /// Variables.
    pub variables: IndexMap<String, T>,
    /// Boolean variables.
    pub boolean_variables: IndexMap<String, T>,
    /// Functions.
    pub functions: IndexMap<String, T>,
}

/// The numbers of entities by their names, from 0, in the order in which they were seen first.
pub type EntityNames = ByKind<u16>;

/// The statements, from 0, that declare entities, by their names.
pub type Declarations = ByKind<usize>;

impl<T: Copy + Drop> ByKind<T> {
    /// Nothing is kept yet.
    pub fn new(alloc: Global) -> ByKind<T>
        ensures { (kind : EntityKind) (name : List ℕ) → entity_of result kind name ≡ None }
    {
        ByKind {
            facilities: IndexMap::new(alloc),
            storages: IndexMap::new(alloc),
            queues: IndexMap::new(alloc),
            switches: IndexMap::new(alloc),
            savevalues: IndexMap::new(alloc),
            tables: IndexMap::new(alloc),
            chains: IndexMap::new(alloc),
            variables: IndexMap::new(alloc),
            boolean_variables: IndexMap::new(alloc),
            functions: IndexMap::new(alloc),
        }
    }

    /// What is kept of the entity of a kind and a name, if it is known.
    pub fn get(&self, kind: EntityKind, name: &String) -> Option<T>
        ensures { result ≡ entity_of self.now kind (string_bytes name.now) }
    {
        match kind {
            EntityKind::Facility => self.facilities.get(name.as_str()).copied(),
            EntityKind::Storage => self.storages.get(name.as_str()).copied(),
            EntityKind::Queue => self.queues.get(name.as_str()).copied(),
            EntityKind::Switch => self.switches.get(name.as_str()).copied(),
            EntityKind::Savevalue => self.savevalues.get(name.as_str()).copied(),
            EntityKind::Table => self.tables.get(name.as_str()).copied(),
            EntityKind::Chain => self.chains.get(name.as_str()).copied(),
            EntityKind::Variable => self.variables.get(name.as_str()).copied(),
            EntityKind::BooleanVariable => self.boolean_variables.get(name.as_str()).copied(),
            EntityKind::Function => self.functions.get(name.as_str()).copied(),
            EntityKind::StorageOrQueue => None,
        }
    }

    /// From now on this is kept of the entity of a kind and a name.
    pub(crate) fn set(
        &mut self,
        kind: EntityKind,
        name: &String,
        value: T,
    ) -> Result<(), AllocError>
        ensures { SetsKeys result self.old self.new (entry kind (string_bytes name.now) value) }
    {
        match kind {
            EntityKind::Facility => set(&mut self.facilities, name, value),
            EntityKind::Storage => set(&mut self.storages, name, value),
            EntityKind::Queue => set(&mut self.queues, name, value),
            EntityKind::Switch => set(&mut self.switches, name, value),
            EntityKind::Savevalue => set(&mut self.savevalues, name, value),
            EntityKind::Table => set(&mut self.tables, name, value),
            EntityKind::Chain => set(&mut self.chains, name, value),
            EntityKind::Variable => set(&mut self.variables, name, value),
            EntityKind::BooleanVariable => set(&mut self.boolean_variables, name, value),
            EntityKind::Function => set(&mut self.functions, name, value),
            EntityKind::StorageOrQueue => Ok(()),
        }
    }
}
