//! What the values of a figure say.

ghost use Rattle.std.specs.Prelude.{◌≡◌, ◌≤◌, length, option_copied, IfOk};
ghost use Rattle.gw_comparison.specs.Points as model;

use crate::point::Column;
use gw_object::Memory;
use gw_statistics::{Summary, summarize};
use std::alloc::Global;

/// Whether a column has this name.
fn is_named(column: &Column, name: &[u8]) -> bool
    ensures { result ≡ model.is_named name.now column.now }
{
    column.name.as_slice() == name
}

/// The first column of a name.
#[tactic(auto, unfolding(crate::specs::Points::column_of))]
pub fn column_of<'a>(columns: &'a [Column], name: &[u8]) -> Option<&'a Column>
    ensures { option_copied result ≡ model.column_of name.now columns.now }
{
    for i in 0..columns.len() {
        if is_named(&columns[i], name) {
            return Some(&columns[i]);
        }
    }
    None
}

/// Whether a column is told.
pub(crate) fn is_told(column: &Column, all: bool) -> bool
    ensures { result ≡ model.is_told all column.now }
{
    all || column.is_main
}

/// The values that are there.
#[tactic(auto, unfolding(crate::specs::Points::values_in))]
fn values_in(alloc: Global, values: &[Option<i128>]) -> Result<Vec<i128>, Memory>
    ensures values { IfOk result (λ found. found.items ≡ model.values_in values.now) }
    ensures few { IfOk result (λ found. length found.items ≤ length values.now) }
{
    let mut found = Vec::new(alloc);
    for i in 0..values.len() {
        if let Some(value) = values[i] {
            found.push(value)?;
        }
    }
    Ok(found)
}

/// What the values of a column say, and how many there are.
#[derive(Clone, Copy)]
pub(crate) struct Account {
    /// How many values there are.
    pub(crate) count: usize,
    /// What they say, if there are any and none is too great.
    pub(crate) summary: Option<Summary>,
}

/// The account of values.
pub(crate) fn account_of(values: &[i128]) -> Account
    requires { length values.now ≤ 512 }
    ensures { model.IsAccount values.now result }
{
    Account {
        count: values.len(),
        summary: summarize(values),
    }
}

/// The account of a column.
pub(crate) fn account_in(alloc: Global, column: &Column) -> Result<Account, Memory>
    ensures { IfOk result (model.IsAccount (model.values_in column.now.values.items)) }
{
    let values = values_in(alloc, &column.values)?;
    Ok(account_of(&values))
}
