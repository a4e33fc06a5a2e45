//! Which calls were refused memory.

use std::fmt;

/// How often each call was refused memory.
#[derive(Clone, Copy)]
pub struct Refusals {
    /// Reading a text.
    pub parse: u32,
    /// Assembling.
    pub assemble: u32,
    /// Writing an object.
    pub write: u32,
    /// Reading an object.
    pub read: u32,
    /// Verifying.
    pub verify: u32,
    /// Making a job.
    pub spec: u32,
    /// Starting it.
    pub start: u32,
    /// Steps.
    pub step: u32,
    /// The report.
    pub report: u32,
    /// Steps that were refused and yet changed what there is to see of a job.
    pub moved: u32,
}

impl Refusals {
    /// None was.
    pub fn new() -> Refusals {
        Refusals {
            parse: 0,
            assemble: 0,
            write: 0,
            read: 0,
            verify: 0,
            spec: 0,
            start: 0,
            step: 0,
            report: 0,
            moved: 0,
        }
    }

    /// Whether no step that was refused changed anything.
    pub fn is_unmoved(&self) -> bool {
        self.moved == 0
    }
}

/// One more.
pub fn count(refusals: &mut u32) {
    *refusals = refusals.saturating_add(1);
}

impl fmt::Display for Refusals {
    fn fmt<W: fmt::Write>(&self, f: &mut fmt::Formatter<W>) -> fmt::Result {
        let Refusals {
            parse,
            assemble,
            write,
            read,
            verify,
            spec,
            start,
            step,
            report,
            moved,
        } = *self;
        write!(
            f,
            "parse {parse} assemble {assemble} write {write} read {read} verify {verify} "
        )?;
        write!(
            f,
            "spec {spec} start {start} step {step} report {report} moved {moved}"
        )
    }
}
