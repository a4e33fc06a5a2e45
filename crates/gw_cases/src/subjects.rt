//! The cases of subjects, each in a script of its own, and how many of them passed.

ghost use Rattle.std.specs.Prelude.{◌≡◌, Bool};
ghost use Rattle.std.specs.List.{count_by};

use crate::scripts::run_script;
use std::alloc::{AllocError, Global};
use std::rt::Files;
use std::{fs, io};

/// How many of the cases passed.
fn passed(outcomes: &[bool]) -> usize
    ensures { result ≡ count_by (λ (passes : Bool). passes) outcomes.now }
{
    outcomes.iter().filter(|passes| **passes).count()
}

/// The line of how many cases of a subject passed.
fn tally(
    alloc: Global,
    out: &mut Vec<u8>,
    subject: &str,
    outcomes: &[bool],
) -> Result<(), AllocError> {
    let passed = passed(outcomes);
    let all = outcomes.len();
    let line = format!(in alloc; "{subject}: {passed} of {all} cases passed\n")?;
    out.extend_from_slice(line.as_bytes())
}

/// Runs the cases of a subject, and takes note of each.
fn run_subject<R: Files + AllocGlobal>(
    rt: &R,
    out: &mut Vec<u8>,
    outcomes: &mut Vec<bool>,
    subject: &str,
) -> io::Result<()> {
    let path = format!(in rt.alloc(); "{subject}.cases")?;
    let script = fs::read(rt, path.as_str())?;
    let mut own = Vec::new(rt.alloc());
    run_script(rt.alloc(), out, &mut own, script.as_slice())?;
    tally(rt.alloc(), out, subject, own.as_slice())?;
    outcomes.extend_from_slice(own.as_slice())?;
    Ok(())
}

/// Runs the cases of these subjects; each is the name of a script, as `facilities` of `facilities.cases`. It prints of each case
/// whether it passed, and of one that fails what was wanted and what came; then how many of each subject passed, and of all. It
/// answers whether all did.
pub fn run_subjects<R: Files + Print + AllocGlobal>(
    rt: &R,
    subjects: &[String],
) -> io::Result<bool> {
    let mut out = Vec::new(rt.alloc());
    let mut outcomes = Vec::new(rt.alloc());
    for subject in subjects {
        run_subject(rt, &mut out, &mut outcomes, subject.as_str())?;
    }
    tally(rt.alloc(), &mut out, "all", outcomes.as_slice())?;
    io::Write::write_all(&mut io::writer(rt), out.as_slice())?;
    Ok(outcomes.iter().all(|passes| *passes))
}
