//! The entries of a batch that wait to be told.

ghost use Rattle.std.specs.Prelude.{◌≡◌, IfOk, map};
ghost use Rattle.gw_answers.specs.Refusal.{refusal_line};
ghost use Rattle.gw_batch.specs.Batch.{entry_of, Broken};
ghost use Rattle.gw_batch.specs.Waiting.{waiting_entry};

use crate::entry::Entry;
use gw_answers::{Refusal, answer_refusal};
use gw_object::{Fault, Memory};
use std::alloc::Global;
use std::collections::VecDeque;
use std::marker::Model;

/// The line of a refusal, which is made beforehand, so that no memory is wanted where it is told. Contracts see it as its fault.
#[derive(Drop)]
pub(crate) struct Line {
    fault: Fault,
    text: Vec<u8>,
}

impl Model for Line {
    ghost use Rattle.std.specs.Prelude.{◌≡◌};
    ghost use Rattle.gw_object.specs.declared.fault.Fault.{Fault};
    ghost use Rattle.gw_answers.specs.Refusal.{refusal_line};

    ghost Value = { Fault };

    ghost view = { λ l. l.fault };

    ghost invariant = { λ l. l.text.items ≡ refusal_line l.fault };
}

impl Line {
    /// The line of a refusal.
    fn new(alloc: Global, fault: Fault) -> Result<Line, Memory>
        ensures { IfOk result (λ line. line ≡ fault) }
    {
        let answer = answer_refusal(alloc, Refusal(fault))?;
        Ok(Line {
            fault,
            text: answer.text,
        })
    }

    /// Its text. It takes no memory.
    pub(crate) fn into_text(self) -> Vec<u8>
        ensures { result.items ≡ refusal_line self }
    {
        let Line { fault: _, text } = self;
        text
    }
}

/// An entry that waits to be told.
#[derive(Drop)]
pub(crate) enum Waiting {
    /// The bytes of an object.
    Object(Vec<u8>),
    /// What ended the reading.
    Broken(Line),
}

/// An entry, as it waits.
fn waiting_of(alloc: Global, entry: Entry) -> Result<Waiting, Memory>
    ensures { IfOk result (λ w. waiting_entry w ≡ entry_of entry) }
{
    match entry {
        Entry::Object(bytes) => Ok(Waiting::Object(bytes)),
        Entry::Broken(fault) => Ok(Waiting::Broken(Line::new(alloc, fault)?)),
    }
}

/// All entries, in order, as they wait.
pub(crate) fn wait_all(
    alloc: Global,
    mut entries: VecDeque<Entry>,
) -> Result<VecDeque<Waiting>, Memory>
    ensures { IfOk result (λ all. map waiting_entry all.items ≡ map entry_of entries.items) }
{
    let mut all = VecDeque::new(alloc);
    while let Some(entry) = entries.pop_front() {
        let waiting = waiting_of(alloc, entry)?;
        if all.push_back(waiting).is_err() {
            return Err(Memory);
        }
    }
    Ok(all)
}
