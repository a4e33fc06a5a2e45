//! Text behind text.

use crate::changes::{Change, Replacement};
use crate::plan::Plan;
use gw_writing::{put, put_number};
use std::alloc::AllocError;

/// A new name: a word, as many `_` as keep it apart from the names of the text, and a number.
pub(crate) fn put_name(
    out: &mut Vec<u8>,
    plan: &Plan<'_>,
    word: &str,
    number: usize,
) -> Result<(), AllocError> {
    put(out, word)?;
    for _underscore in 0..plan.underscores {
        out.push(b'_')?;
    }
    put_number(out, "", number as u64)
}

/// What is written in place of bytes of a line, behind what there is.
fn put_replacement(
    out: &mut Vec<u8>,
    plan: &Plan<'_>,
    replacement: Replacement,
) -> Result<(), AllocError> {
    match replacement {
        Replacement::Words(words) => out.extend_from_slice(words),
        Replacement::Number(number) => put_number(out, "", number),
        Replacement::Drawn(number) => {
            put(out, "FN$")?;
            put_name(out, plan, "TIMES", number)
        }
        Replacement::Since(number) => {
            put(out, "(C1-P$")?;
            put_name(out, plan, "SINCE", number)?;
            put(out, ")")
        }
    }
}

/// A line with its changes, behind what there is.
pub(crate) fn put_changed(
    out: &mut Vec<u8>,
    plan: &Plan<'_>,
    line: &[u8],
    changes: &[Change],
) -> Result<(), AllocError> {
    let mut done = 0usize;
    for change in changes {
        out.extend_from_slice(line.get(done..change.from).unwrap_or(&[]))?;
        put_replacement(out, plan, change.replacement)?;
        done = change.to;
    }
    out.extend_from_slice(line.get(done..).unwrap_or(&[]))
}
