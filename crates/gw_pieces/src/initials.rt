//! What INITIAL sets.

ghost use Rattle.std.specs.Prelude.{◌≡◌, IfOk, option_map, slice_get, string_bytes};
ghost use Rattle.std.specs.Option.{option_copied};
ghost use Rattle.gw_names.specs.Known.{Finds, found_in};
ghost use Rattle.gw_names.specs.Places.{Sets, last_of};
ghost use Rattle.gw_pieces.specs.Entities as model;

use crate::settings::number_at;
use gw_names::set;
use gw_text::{EntityValue, Operand, Sna, Statement, Word};
use indexmap::IndexMap;
use std::alloc::{AllocError, Global};

/// What INITIALs set, of each entity the last one.
#[derive(Drop)]
pub(crate) struct Initials {
    /// The values of savevalues.
    savevalues: IndexMap<String, i64>,
    /// Whether switches are set: by another number than 0.
    switches: IndexMap<String, i64>,
}

/// What an INITIAL sets.
#[derive(Clone, Copy)]
enum Initial {
    /// A savevalue.
    Savevalue,
    /// A switch.
    Switch,
}

/// The name of what an attribute is of, if an INITIAL of this sort sets it.
fn name_of(initial: Initial, sna: &Sna) -> Option<&String>
    ensures { option_map string_bytes (option_copied result) ≡ model.name_of initial sna.now }
{
    match sna {
        Sna::OfEntity(value, name) => match (initial, *value) {
            (Initial::Savevalue, EntityValue::Savevalue) => Some(name),
            (Initial::Switch, EntityValue::Switch) => Some(name),
            _ => None,
        },
        _ => None,
    }
}

/// The name of what the first operand of an INITIAL is of.
fn name_in(initial: Initial, operands: &[Operand]) -> Option<&String>
    ensures { option_map string_bytes (option_copied result)
        ≡ model.name_in initial (slice_get operands.now 0) }
{
    match operands.first() {
        Some(Operand::Sna(sna)) => name_of(initial, sna),
        _ => None,
    }
}

/// What a statement sets, if it is an INITIAL of this sort.
fn set_initial(
    initials: &mut IndexMap<String, i64>,
    initial: Initial,
    statement: &Statement,
) -> Result<(), AllocError>
    ensures { Sets result initials.old initials.new (model.initial_by initial statement.now) }
{
    match (statement.word, name_in(initial, &statement.operands)) {
        (Word::Initial, Some(name)) => set(initials, name, number_at(&statement.operands, 1)),
        _ => Ok(()),
    }
}

/// What the INITIALs of this sort set.
fn initials_in(
    alloc: Global,
    sort: Initial,
    statements: &[Statement],
) -> Result<IndexMap<String, i64>, AllocError>
    ensures { IfOk result (Finds (last_of (model.initials_in sort statements.now))) }
{
    let mut initials = IndexMap::new(alloc);
    for statement in statements {
        match set_initial(&mut initials, sort, statement) {
            Ok(()) => {}
            Err(error) => {
                drop(initials);
                return Err(error);
            }
        }
    }
    Ok(initials)
}

impl Initials {
    /// What the INITIALs among these statements set.
    pub(crate) fn of(alloc: Global, statements: &[Statement]) -> Result<Initials, AllocError>
        ensures savevalues { IfOk result (model.AreSavevalues statements.now) }
        ensures switches { IfOk result (model.AreSwitches statements.now) }
    {
        let savevalues = initials_in(alloc, Initial::Savevalue, statements)?;
        match initials_in(alloc, Initial::Switch, statements) {
            Ok(switches) => Ok(Initials {
                savevalues,
                switches,
            }),
            Err(error) => {
                drop(savevalues);
                Err(error)
            }
        }
    }

    /// The initial value of a savevalue.
    pub(crate) fn savevalue(&self, name: &String) -> i64
        ensures { result ≡ model.initial_in (found_in self.now.savevalues) (string_bytes name.now) }
    {
        self.savevalues.get(name.as_str()).copied().unwrap_or(0)
    }

    /// Whether a switch is set at first.
    pub(crate) fn switch(&self, name: &String) -> bool
        ensures { result ≡ model.is_set_in (found_in self.now.switches) (string_bytes name.now) }
    {
        self.switches.get(name.as_str()).copied().unwrap_or(0) != 0
    }
}
