//! Percentiles of a table.

ghost use Rattle.std.specs.Prelude.{◌≡◌, ◌≤◌, ◌<◌, ◌^◌, ◌*◌, length, unsigned_abs};
ghost use Rattle.gw_figures.specs.Values as model;
ghost use Rattle.gw_figures.specs.Values.{class_reaching as reaching};

use crate::quotients::signed_units;
use gw_object::Table;

/// The place of the first class up to which the classes hold as much as this, where each value counts as a hundred; how many
/// classes there are where they don't.
#[tactic(auto, unfolding(crate::specs::Values::class_reaching))]
fn class_reaching(goal: u128, classes: &[u64]) -> usize
    ensures value { result ≡ reaching goal classes.now }
    ensures range { result ≤ length classes.now }
{
    let mut left = goal;
    let mut place = 0;
    while place < classes.len() && left > 100 * u128::from(classes[place]) {
        left -= 100 * u128::from(classes[place]);
        place += 1;
    }
    place
}

/// By how much the upper limit of a class of a table is above that of the first, by its number.
fn distance(table: &Table, class: u64) -> u128
    ensures value { result ≡ class * table.now.width }
    ensures range { result ≤ 2 ^ 96 }
{
    u128::from(class) * u128::from(table.width)
}

/// The upper limit of a class of a table, by its number.
pub fn upper_limit(table: &Table, class: u64) -> i128
    ensures value { result ≡ model.upper_limit table.now class }
    ensures range { unsigned_abs result ≤ 2 ^ 97 }
{
    i128::from(table.limit) + distance(table, class) as i128
}

/// A percentile of so many values of a table, where its classes have these: the upper limit of the first class up to which so
/// many of a hundred of them lie. None of no value, and where that is the last class, which has no upper limit.
pub(crate) fn percentile(table: &Table, percent: u64, count: u64, classes: &[u64]) -> Option<i128>
    requires { percent ≤ 100 }
    ensures { result ≡ model.percentile table.now percent count classes.now }
{
    if count == 0 {
        return None;
    }
    let class = class_reaching(u128::from(percent) * u128::from(count), classes);
    if class + 1 < classes.len() {
        signed_units(upper_limit(table, class as u64))
    } else {
        None
    }
}
