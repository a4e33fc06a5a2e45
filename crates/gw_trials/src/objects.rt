//! Objects of files, damaged in each way that cuts them short or changes one byte.

use crate::damages::{Tally, changes, cuts};
use std::alloc::{AllocError, Global};
use std::rt::Files;
use std::{fs, io};

/// Appends the line of an object and a kind of damage.
fn put_tally(
    alloc: Global,
    out: &mut Vec<u8>,
    name: &str,
    kind: &str,
    tally: Tally,
) -> Result<(), AllocError> {
    let Tally { tried, right } = tally;
    let line = format!(in alloc; "{name}: {kind} {tried}, as they must be {right}\n")?;
    out.extend_from_slice(line.as_bytes())
}

/// Damages one object, and answers whether each damage was answered as it has to be.
fn damage<R: Files + AllocGlobal>(rt: &R, out: &mut Vec<u8>, name: &str) -> io::Result<bool> {
    let path = format!(in rt.alloc(); "{name}.gpso")?;
    let object = fs::read(rt, path.as_str())?;
    let cut = cuts(rt.alloc(), object.as_slice())?;
    put_tally(rt.alloc(), out, name, "cuts", cut)?;
    let changed = changes(rt.alloc(), object.as_slice())?;
    put_tally(rt.alloc(), out, name, "changes", changed)?;
    Ok(cut.is_right() && changed.is_right())
}

/// Damages the objects of these names, as `three_blocks` of `three_blocks.gpso`. A line for each object and kind of damage says how
/// often the object was damaged, and how often that was answered as it has to be; it answers whether it always was.
pub fn damage_objects<R: Files + Print + AllocGlobal>(
    rt: &R,
    names: &[String],
) -> io::Result<bool> {
    let mut out = Vec::new(rt.alloc());
    let mut is_right = true;
    for name in names {
        is_right &= damage(rt, &mut out, name.as_str())?;
    }
    io::Write::write_all(&mut io::writer(rt), out.as_slice())?;
    Ok(is_right)
}
