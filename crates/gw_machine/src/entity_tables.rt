//! The entities of a job, a table for each kind.

ghost use Rattle.std.specs.Prelude.{◌≡◌, ◌<◌, ◌+◌, ◌^◌, ℕ, pos, IfOk};
ghost use Rattle.gw_machine.specs.EntityTables.{AreAtStart, AreTimed, tables_after};

use gw_entities::{Facilities, Queues, Savevalues, Storages, Switches, Tables};
use gw_members::Memory;
use gw_object::Object;
use std::alloc::Global;

/// The entities of a job, a table for each kind, in which what is kept of an entity is found by its number.
#[derive(Drop)]
pub struct EntityTables {
    /// The facilities: who owns each, and for how many clock units it was owned.
    pub facilities: Facilities,
    /// The storages: how many units of each are taken.
    pub storages: Storages,
    /// The queues: how many units are in each.
    pub queues: Queues,
    /// The logic switches: whether each is set.
    pub switches: Switches,
    /// The savevalues: the value of each.
    pub savevalues: Savevalues,
    /// The tables: what was entered into each.
    pub tables: Tables,
}

impl EntityTables {
    /// The entities of an object as they are at first. It fails for want of memory.
    pub(crate) fn new(alloc: Global, object: &Object) -> Result<EntityTables, Memory>
        ensures { IfOk result (AreAtStart object.now.entities) }
    {
        Ok(EntityTables {
            facilities: Facilities::new(alloc, object)?,
            storages: Storages::new(alloc, object)?,
            queues: Queues::new(alloc, object)?,
            switches: Switches::new(alloc, object)?,
            savevalues: Savevalues::new(alloc, object)?,
            tables: Tables::new(alloc, object)?,
        })
    }

    /// So many clock units pass over the entities. The same time passed over all of them so far.
    #[inline(always)]
    pub(crate) fn pass_time(&mut self, time: u64)
        requires { (clock : ℕ) × AreTimed self.old (pos clock) × (clock + time < 2 ^ 63) }
        ensures { self.new ≡ tables_after time self.old }
    {
        self.facilities.pass_time(time);
        self.storages.pass_time(time);
        self.queues.pass_time(time);
    }
}
