//! The units of an entity in a list that ascends by entity.

ghost use Rattle.std.specs.Prelude.{◌≡◌};
ghost use Rattle.gw_rules.specs.Entries.{amount_of};
ghost use Rattle.gw_flow.specs.Known.{amounts_of, AmountsAscend};

use gw_flow::Amount;

/// The units of an entity, found by halving the list; 0 where there is no amount of it.
fn units_sought(units: &[Amount], entity: u16) -> u64
    requires { AmountsAscend units.now }
    ensures { result ≡ amount_of (amounts_of units.now) entity }
{
    let place = units.partition_point(|a| a.entity < entity);
    if place < units.len() && units[place].entity == entity {
        return units[place].number;
    }
    0
}

/// The units of an entity, 0 where there is no amount of it. The place, from 0, at which it is likely to stand is looked at
/// first: lists that are compared mostly have the same entities.
pub(crate) fn units_near(units: &[Amount], place: usize, entity: u16) -> u64
    requires { AmountsAscend units.now }
    ensures { result ≡ amount_of (amounts_of units.now) entity }
{
    if place < units.len() && units[place].entity == entity {
        return units[place].number;
    }
    units_sought(units, entity)
}
