//! What is told of an entry.

ghost use Rattle.std.specs.Prelude.{◌≡◌};
ghost use Rattle.gw_batch.specs.Parts.{IsRefusalTold};
ghost use Rattle.gw_batch.specs.Told.{told_text, told_refused};

use gw_answers::{Refusal, answer_refusal};
use std::alloc::Global;

/// What is told of an entry.
#[derive(Drop)]
pub(crate) enum Told {
    /// The report of its job.
    Report(Vec<u8>),
    /// The line of a refusal.
    Refusal(Vec<u8>),
    /// Want of memory.
    NoMemory,
}

impl Told {
    /// The text.
    pub(crate) fn text(&self) -> &[u8]
        ensures { result.now ≡ told_text self.now }
    {
        match self {
            Told::Report(text) => text,
            Told::Refusal(text) => text,
            Told::NoMemory => b"refused 8 Memory\n",
        }
    }

    /// Whether it is a refusal.
    pub(crate) fn is_refused(&self) -> bool
        ensures { result ≡ told_refused self.now }
    {
        match self {
            Told::Report(_) => false,
            Told::Refusal(_) | Told::NoMemory => true,
        }
    }
}

/// What is told of a refusal.
pub(crate) fn told_refusal(alloc: Global, refusal: Refusal) -> Told
    ensures { IsRefusalTold refusal.0 (told_text result) (told_refused result) }
{
    match answer_refusal(alloc, refusal) {
        Ok(answer) => Told::Refusal(answer.text),
        Err(_) => Told::NoMemory,
    }
}
