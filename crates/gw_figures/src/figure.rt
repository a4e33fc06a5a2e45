//! A figure.

ghost use Rattle.std.specs.Prelude.{◌≡◌, ◌++◌, [], ◌∷◌, IfOk, OnOk};
ghost use Rattle.gw_figures.specs.Labels.{AddsFigures, Label, labels, plain, detail, mean, content};

use gw_object::Memory;
use std::alloc::Global;

/// A figure of a model.
#[derive(Drop)]
pub struct Figure {
    /// What it is called.
    pub name: Vec<u8>,
    /// Whether it is told where not all are asked for.
    pub main: bool,
    /// Whether it is an average over time, over units or over values.
    pub average: bool,
    /// Whether it is how many are there at a moment: in a queue or a storage, or waiting for a facility or a storage.
    pub content: bool,
}

/// What a figure tells of, and what it is called there.
fn name_of(alloc: Global, front: &[u8], what: &[u8]) -> Result<Vec<u8>, Memory>
    ensures { IfOk result (λ name. name.items ≡ front.now ++ what.now) }
{
    let mut name = Vec::with_capacity(alloc, front.len().saturating_add(what.len()))?;
    name.extend_from_slice(front)?;
    name.extend_from_slice(what)?;
    Ok(name)
}

/// Adds a number that is always told, under this name.
pub(crate) fn put_named(
    alloc: Global,
    out: &mut Vec<Figure>,
    front: &[u8],
    what: &[u8],
) -> Result<(), Memory>
    ensures { AddsFigures result out.old out.new (plain front.now what.now ∷ []) }
{
    let name = name_of(alloc, front, what)?;
    out.push(Figure {
        name,
        main: true,
        average: false,
        content: false,
    })?;
    Ok(())
}

/// Adds a number that is always told.
pub(crate) fn put_plain(
    alloc: Global,
    out: &mut Vec<Figure>,
    front: &[u8],
    what: &str,
) -> Result<(), Memory>
    ensures { AddsFigures result out.old out.new (plain front.now what.now ∷ []) }
{
    put_named(alloc, out, front, what.as_bytes())
}

/// Adds a number that is told where all are asked for.
pub(crate) fn put_detail(
    alloc: Global,
    out: &mut Vec<Figure>,
    front: &[u8],
    what: &str,
) -> Result<(), Memory>
    ensures { AddsFigures result out.old out.new (detail front.now what.now ∷ []) }
{
    let name = name_of(alloc, front, what.as_bytes())?;
    out.push(Figure {
        name,
        main: false,
        average: false,
        content: false,
    })?;
    Ok(())
}

/// Adds an average.
pub(crate) fn put_mean(
    alloc: Global,
    out: &mut Vec<Figure>,
    front: &[u8],
    what: &str,
) -> Result<(), Memory>
    ensures { AddsFigures result out.old out.new (mean front.now what.now ∷ []) }
{
    let name = name_of(alloc, front, what.as_bytes())?;
    out.push(Figure {
        name,
        main: true,
        average: true,
        content: false,
    })?;
    Ok(())
}

/// Adds how many are there at a moment.
pub(crate) fn put_content(
    alloc: Global,
    out: &mut Vec<Figure>,
    front: &[u8],
    what: &str,
) -> Result<(), Memory>
    ensures { AddsFigures result out.old out.new (content front.now what.now ∷ []) }
{
    let name = name_of(alloc, front, what.as_bytes())?;
    out.push(Figure {
        name,
        main: true,
        average: false,
        content: true,
    })?;
    Ok(())
}
