//! The numbers of parameters that have names.

ghost use Rattle.std.specs.Prelude.{◌≡◌, ◌<◌, ◌++◌, None, Some, length, map, slice_get, OnOk, IfOk, string_bytes};
ghost use Rattle.gw_name_uses.specs.Mentions.{mention};
ghost use Rattle.gw_name_uses.specs.Sites.{mention_at};
ghost use Rattle.gw_names.specs.Known.{found_in};
ghost use Rattle.gw_names.specs.Ledger.{Notes};
ghost use Rattle.gw_names.specs.Sights as model;
ghost use Rattle.gw_names.specs.Sights.{parameters_among, parameter_limits_among};
ghost use Rattle.gw_names.specs.Sighting.{AddsName, HaveNumbers, SeesName, SeesNameIn, SeesNames};
ghost use Rattle.gw_names.specs.Sighting.{RefusesName, RefusesNameIn, RefusesNames, names_of};

use crate::codes;
use crate::ledger::Ledger;
use crate::maps::value_of_name;
use gw_name_uses::{Site, Use};
use indexmap::IndexMap;
use std::alloc::{AllocError, Global};

/// The highest number of a parameter.
const MOST_PARAMETERS: u8 = 64;

/// Whether a use is of the parameter of this number.
fn uses_number(used: Use<'_>, number: u8) -> bool
    ensures { result ≡ model.uses_number number (mention used.entry) }
{
    match used {
        Use::ParameterNumber(used) => used == number,
        _ => false,
    }
}

/// Whether a text uses the parameter of this number.
fn is_used(sites: &[Site<'_>], number: u8) -> bool
    ensures { result ≡ model.is_used (map mention_at sites.now) number }
{
    for i in 0..sites.len() {
        let site = sites[i];
        if uses_number(site.used, number) {
            return true;
        }
    }
    false
}

/// One more number, if it is free.
fn put_free(free: &mut Vec<u8>, is_used: bool, number: u8) -> Result<(), AllocError>
    ensures { OnOk result (free.new.items ≡ free.old.items ++ model.unless_used is_used number) }
{
    if is_used {
        return Ok(());
    }
    match free.push(number) {
        Ok(()) => Ok(()),
        Err(_) => Err(AllocError),
    }
}

/// The numbers from 1 to 64 that a text doesn't use, ascending.
fn free_numbers(alloc: Global, sites: &[Site<'_>]) -> Result<Vec<u8>, AllocError>
    ensures { IfOk result (λ free. free.items ≡ model.free_numbers (map mention_at sites.now)) }
{
    let mut free = Vec::new(alloc);
    for below in 0..MOST_PARAMETERS {
        let number = below + 1;
        put_free(&mut free, is_used(sites, number), number)?;
    }
    Ok(free)
}

/// One more parameter, which wasn't seen yet.
fn add(
    parameters: &mut IndexMap<String, u8>,
    free: &[u8],
    name: &String,
    number: u8,
) -> Result<(), AllocError>
    requires new { found_in parameters.old (string_bytes name.now) ≡ None }
    requires number { slice_get free.now (length (names_of parameters.old)) ≡ Some number }
    requires given { HaveNumbers free.now parameters.old }
    ensures given { OnOk result (HaveNumbers free.now parameters.new) }
    ensures names { OnOk result (AddsName (string_bytes name.now) parameters.old parameters.new) }
{
    let _ = free;
    let name = name.clone()?;
    parameters.insert(name, number)?;
    Ok(())
}

/// A parameter is seen: where it is a new one, it gets the next of the free numbers. 82 Limit where none is left.
fn see(
    parameters: &mut IndexMap<String, u8>,
    ledger: &mut Ledger,
    free: &[u8],
    line: u32,
    name: &String,
) -> Result<(), AllocError>
    requires given { HaveNumbers free.now parameters.old }
    ensures given { OnOk result (HaveNumbers free.now parameters.new) }
    ensures names { OnOk result (SeesName free.now name.now parameters.old parameters.new) }
    ensures ledger { OnOk result (RefusesName free.now parameters.old line name.now
        ledger.old ledger.new) }
{
    if value_of_name(parameters, name).is_some() {
        Ok(())
    } else if parameters.len() < free.len() {
        let number = free[parameters.len()];
        add(parameters, free, name, number)
    } else {
        ledger.note(line, codes::LIMIT);
        Ok(())
    }
}

/// What is used is seen, if it is a named parameter.
fn see_site(
    parameters: &mut IndexMap<String, u8>,
    ledger: &mut Ledger,
    free: &[u8],
    line: u32,
    used: Use<'_>,
) -> Result<(), AllocError>
    requires given { HaveNumbers free.now parameters.old }
    ensures given { OnOk result (HaveNumbers free.now parameters.new) }
    ensures names { OnOk result (SeesNameIn free.now used.entry parameters.old parameters.new) }
    ensures ledger { OnOk result (RefusesNameIn free.now parameters.old line used.entry
        ledger.old ledger.new) }
{
    match used {
        Use::Parameter(name) => see(parameters, ledger, free, line, name),
        _ => Ok(()),
    }
}

/// All parameters that a text names are seen, where these numbers are free.
fn see_sites(
    parameters: &mut IndexMap<String, u8>,
    ledger: &mut Ledger,
    free: &[u8],
    sites: &[Site<'_>],
) -> Result<(), AllocError>
    requires given { HaveNumbers free.now parameters.old }
    ensures given { OnOk result (HaveNumbers free.now parameters.new) }
    ensures names { OnOk result (SeesNames free.now sites.now parameters.old parameters.new) }
    ensures ledger { OnOk result (RefusesNames free.now parameters.old sites.now
        ledger.old ledger.new) }
{
    for i in 0..sites.len() {
        let site = sites[i];
        see_site(parameters, ledger, free, site.line, site.used)?;
    }
    Ok(())
}

/// The numbers of a text's parameters by name: in order of first sight the lowest ones that the text doesn't use. 82 Limit at
/// the line of the first sight of one for which none is left.
pub(crate) fn parameters_in(
    alloc: Global,
    sites: &[Site<'_>],
    ledger: &mut Ledger,
) -> Result<IndexMap<String, u8>, AllocError>
    ensures given { IfOk result (HaveNumbers (model.free_numbers (map mention_at sites.now))) }
    ensures names { IfOk result (λ ps. names_of ps ≡ parameters_among (map mention_at sites.now)) }
    ensures ledger { OnOk result (Notes ledger.old ledger.new
        (parameter_limits_among (map mention_at sites.now))) }
{
    let free = free_numbers(alloc, sites)?;
    let mut parameters = IndexMap::new(alloc);
    see_sites(&mut parameters, ledger, free.as_slice(), sites)?;
    Ok(parameters)
}
