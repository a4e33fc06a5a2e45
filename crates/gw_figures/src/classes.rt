//! How many values each class of a table got.

ghost use Rattle.std.specs.Prelude.{◌≡◌, vec_len, IfOk};
ghost use Rattle.gw_figures.specs.Windows as model;

use gw_object::Memory;
use std::alloc::Global;

/// How many values a class has, by its number; none where there is no such class.
fn class_at(classes: &[u64], class: usize) -> u64
    ensures { result ≡ model.class_at classes.now class }
{
    classes.get(class).copied().unwrap_or(0)
}

/// How many values each of so many classes got from one state to another.
pub(crate) fn rises(
    alloc: Global,
    classes: u16,
    before: &[u64],
    after: &[u64],
) -> Result<Vec<u64>, Memory>
    ensures { IfOk result (λ rises. rises.items ≡ model.rises classes before.now after.now) }
{
    let classes = usize::from(classes);
    let mut rises = Vec::with_capacity(alloc, classes)?;
    for i in 0..classes {
        rises.push(class_at(after, i).saturating_sub(class_at(before, i)))?;
    }
    Ok(rises)
}
