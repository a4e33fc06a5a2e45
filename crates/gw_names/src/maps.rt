//! Maps by name.

ghost use Rattle.std.specs.Prelude.{◌≡◌, ◌∷◌, [], option_map, string_bytes};
ghost use Rattle.gw_names.specs.Known.{found_in};
ghost use Rattle.gw_names.specs.Places.{Sets, name_entry};

use indexmap::IndexMap;
use std::alloc::AllocError;

/// What a name stands for, if it is known.
pub fn value_of_name<T: Copy + Drop>(map: &IndexMap<String, T>, name: &String) -> Option<T>
    ensures { result ≡ found_in map.now (string_bytes name.now) }
{
    map.get(name.as_str()).copied()
}

/// A name stands for this from now on.
pub fn set<T: Drop>(
    map: &mut IndexMap<String, T>,
    name: &String,
    value: T,
) -> Result<(), AllocError>
    ensures { Sets result map.old map.new ((string_bytes name.now, value) ∷ []) }
{
    let name = name.clone()?;
    map.insert(name, value)?;
    Ok(())
}

/// The same, if there is a name.
pub fn set_label<T: Drop>(
    map: &mut IndexMap<String, T>,
    label: &Option<String>,
    value: T,
) -> Result<(), AllocError>
    ensures { Sets result map.old map.new (name_entry (option_map string_bytes label.now) value) }
{
    match label {
        Some(label) => set(map, label, value),
        None => Ok(()),
    }
}
