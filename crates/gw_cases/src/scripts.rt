//! A script: many cases of one subject, one after the other.

ghost use Rattle.std.specs.Prelude.{◌≡◌, ◌≤◌, ◌++◌, ◌∷◌, [], length, OnOk};
ghost use Rattle.gw_cases.specs.Cases.{case_passes, GrowsByOne};

use crate::cases::{Case, behind};
use std::alloc::{AllocError, Global};

/// Whether a line is a remark of the script's author.
fn is_remark(line: &[u8]) -> bool {
    line.starts_with(b"% because") || line.starts_with(b"%  ")
}

/// Whether a line is the script's, and not of a text, of bytes or of what must come.
fn is_script(line: &[u8]) -> bool {
    line.starts_with(b"%")
}

/// Whether a case begins with a line.
fn begins_case(line: &[u8]) -> bool {
    line.starts_with(b"% case ")
}

/// The lines of a script but its remarks.
fn lines_of(alloc: Global, script: &[u8]) -> Result<Vec<&[u8]>, AllocError> {
    let mut lines = Vec::new(alloc);
    for line in script.split(|byte| *byte == b'\n') {
        if !is_remark(line) {
            lines.push(line)?;
        }
    }
    Ok(lines)
}

/// How many lines stand in front of the first case, or of its end where there is none.
fn case_begin(lines: &[&[u8]]) -> usize
    ensures { result ≤ length lines.now }
{
    match lines.iter().position(|line| begins_case(line)) {
        Some(place) => place,
        None => lines.len(),
    }
}

/// How many lines stand in front of the first one of the script's.
fn section_end(lines: &[&[u8]]) -> usize
    ensures { result ≤ length lines.now }
{
    match lines.iter().position(|line| is_script(line)) {
        Some(place) => place,
        None => lines.len(),
    }
}

/// The lines of a text, of bytes or of what must come that stand at the front of these.
fn body_of<'a, 'b>(lines: &'b [&'a [u8]]) -> &'b [&'a [u8]] {
    let (body, _) = lines.split_at(section_end(lines));
    body
}

/// Reads the sections of a case behind its first.
fn read_case<'a>(alloc: Global, case: &mut Case<'a>, lines: &[&'a [u8]]) -> Result<(), AllocError> {
    for i in 0..lines.len() {
        if is_script(lines[i]) {
            let (_, rest) = lines.split_at(i + 1);
            case.read_section(alloc, lines[i], body_of(rest))?;
        }
    }
    Ok(())
}

/// Tells how the case of this first line went, and takes note whether it passes.
fn tell(
    out: &mut Vec<u8>,
    outcomes: &mut Vec<bool>,
    line: &[u8],
    case: &Case,
) -> Result<(), AllocError>
    ensures { OnOk result (outcomes.new.items ≡ outcomes.old.items ++ case_passes case.now ∷ []) }
{
    if case.passes() {
        out.extend_from_slice(b"passed: ")?;
    } else {
        out.extend_from_slice(b"FAILED: ")?;
    }
    out.extend_from_slice(behind(line, b"% case "))?;
    out.push(b'\n')?;
    out.extend_from_slice(case.differences())?;
    outcomes.push(case.passes())?;
    Ok(())
}

/// Runs the case of this first line, which says its name, and of these lines below it.
fn run_case<'a>(
    alloc: Global,
    out: &mut Vec<u8>,
    outcomes: &mut Vec<bool>,
    line: &'a [u8],
    lines: &[&'a [u8]],
) -> Result<(), AllocError>
    ensures { OnOk result (GrowsByOne outcomes.old.items outcomes.new.items) }
{
    let mut case = Case::new(alloc);
    case.read_section(alloc, line, body_of(lines))?;
    read_case(alloc, &mut case, lines)?;
    tell(out, outcomes, line, &case)
}

/// Runs the cases of which these are the lines.
fn run_cases(
    alloc: Global,
    out: &mut Vec<u8>,
    outcomes: &mut Vec<bool>,
    lines: &[&[u8]],
) -> Result<(), AllocError> {
    for i in 0..lines.len() {
        if begins_case(lines[i]) {
            let (_, rest) = lines.split_at(i + 1);
            let (body, _) = rest.split_at(case_begin(rest));
            run_case(alloc, out, outcomes, lines[i], body)?;
        }
    }
    Ok(())
}

/// Runs the cases of a script. It appends a line for each, with what was wanted and what came where it fails, and takes note
/// whether it passed.
pub fn run_script(
    alloc: Global,
    out: &mut Vec<u8>,
    outcomes: &mut Vec<bool>,
    script: &[u8],
) -> Result<(), AllocError> {
    let lines = lines_of(alloc, script)?;
    run_cases(alloc, out, outcomes, lines.as_slice())
}
