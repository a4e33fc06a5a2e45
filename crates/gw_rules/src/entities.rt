//! What numbers name that stand for entities.

ghost use Rattle.std.specs.Prelude.{◌≡◌};
ghost use Rattle.gw_rules.specs.Kinds as model;
ghost use Rattle.gw_rules.specs.declared.entities.EntityKind.TheVariants as needed;

/// What an entity is needed as: SEIZE and RELEASE need a facility, ENTER and LEAVE a storage, QUEUE and DEPART a queue,
/// GATE what its condition asks of, LOGIC a logic switch, SAVEVALUE a savevalue, TABULATE a table, and LINK and UNLINK a
/// user chain (GPSS World Reference Manual, chapter 7); an attribute needs what it is of (chapter 3).
#[derive(Clone, Copy, PartialEq, Eq)]
pub enum EntityKind {
    /// A facility.
    Facility,
    /// A storage.
    Storage,
    /// A queue.
    Queue,
    /// A logic switch.
    Switch,
    /// A savevalue.
    Savevalue,
    /// A table.
    Table,
    /// A user chain.
    Chain,
    /// A variable.
    Variable,
    /// A boolean variable.
    BooleanVariable,
    /// A function.
    Function,
    /// What units can be inside: a storage or a queue.
    StorageOrQueue,
}

/// An entity that is named.
#[derive(Clone, Copy, PartialEq, Eq)]
pub struct Named {
    /// What it is needed as.
    pub needed: EntityKind,
    /// Its number, from 0.
    pub entity: u16,
}

impl Default for Named {
    ghost is_default = { λ named. named ≡ model.needs needed.Facility 0 };

    /// A facility of number 0.
    fn default() -> Named {
        needs(EntityKind::Facility, 0)
    }
}

/// An entity that is named by its number, and what it is needed as.
pub fn needs(needed: EntityKind, entity: u16) -> Named
    ensures { result ≡ model.needs needed entity }
{
    Named { needed, entity }
}
