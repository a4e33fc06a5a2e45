//! The first refusal of the assembler's passes.

ghost use Rattle.std.specs.Prelude.{◌≡◌, None, Some, is_none};
ghost use Rattle.gw_names.specs.Ledger as model;

use gw_object::{Fault, Place};

/// A refusal at a line.
#[derive(Clone, Copy)]
pub struct Noted {
    /// The line. Lines count from 1.
    pub line: u32,
    /// The code.
    pub code: u16,
}

/// Takes note of refusals, and keeps the first one: that of the least line, and there of the lowest code.
#[derive(Clone, Copy)]
pub struct Ledger {
    /// The first one so far.
    pub least: Option<Noted>,
}

/// Whether one refusal goes before another.
fn is_before(one: Noted, other: Noted) -> bool
    ensures { result ≡ model.is_before one other }
{
    one.line < other.line || (one.line == other.line && one.code < other.code)
}

/// The first of what was noted and one more.
fn with_note(least: Option<Noted>, one: Noted) -> Option<Noted>
    ensures { result ≡ model.with_note least one }
{
    match least {
        None => Some(one),
        Some(least) => {
            if is_before(one, least) {
                Some(one)
            } else {
                Some(least)
            }
        }
    }
}

impl Ledger {
    /// Nothing is noted.
    pub fn new() -> Ledger
        ensures { result.least ≡ None }
    {
        Ledger { least: None }
    }

    /// Takes note of a refusal.
    pub fn note(&mut self, line: u32, code: u16)
        ensures { self.new.least ≡ model.with_note self.old.least (model.noted_at line code) }
    {
        self.least = with_note(self.least, Noted { line, code });
    }

    /// The first refusal, if there is one.
    pub fn first(&self) -> Option<Fault>
        ensures { result ≡ model.first_fault self.now.least }
    {
        match self.least {
            Some(noted) => Some(Fault {
                code: noted.code,
                place: Place::Line(noted.line),
            }),
            None => None,
        }
    }

    /// Whether nothing is noted.
    pub fn is_clear(&self) -> bool
        ensures { result ≡ is_none self.now.least }
    {
        self.least.is_none()
    }
}

/// Takes note of a refusal at a line, if there is one.
pub(crate) fn note_if(ledger: &mut Ledger, line: u32, code: Option<u16>)
    ensures { model.Notes ledger.old ledger.new (model.noted_if line code) }
{
    if let Some(code) = code {
        ledger.note(line, code);
    }
}
