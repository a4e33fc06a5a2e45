//! From a batch to what is written of it, and a status.

ghost use Rattle.std.specs.Prelude.{◌≡◌, false, IfOk, IfErr, OnOk, map};
ghost use Rattle.gw_batch.specs.Batch.{entry_of};
ghost use Rattle.gw_batch.specs.Parts.{status_if};
ghost use Rattle.gw_batch.specs.Windows.{StopsAt, TellsAll, WritesEntries};
ghost use Rattle.gw_batch.specs.Writing.{IsLeft, TellsWrites};

use crate::entry::Entry;
use crate::progress::Progress;
use crate::shift::Shift;
use crate::telling::Telling;
use crate::waiting::{Waiting, wait_all};
use crate::window::tell_window;
use gw_answers::status::{ENDED, REFUSED};
use gw_console::{ProgramFault, write_text};
use gw_streams::Output;
use std::alloc::Global;
use std::collections::VecDeque;
use std::io::{Eprint, Write};
use std::sync::Wait;
use std::thread::Threads;
use std::time::Clock;

/// The status of a text in which something is refused, or nothing.
fn status_of(refused: bool) -> u8
    ensures { result ≡ status_if refused }
{
    if refused { REFUSED } else { ENDED }
}

/// Tells all entries that wait, window by window.
fn tell_waiting<W: Threads + Wait + Sync + Eprint + Clock, O: Write>(
    rt: &W,
    alloc: Global,
    shift: Shift,
    mut waiting: VecDeque<Waiting>,
    telling: &mut Telling,
    writer: &mut Output<O>,
) -> Result<(), ProgramFault>
    requires writer { writer.old.failed ≡ false }
    requires start { telling.old.number ≡ 0 }
    ensures advances { TellsAll result telling.old telling.new waiting.items writer.old writer.new }
    ensures stops { StopsAt result telling.old waiting.items writer.old writer.new }
    ensures marks { TellsWrites result writer.old.failed writer.new.failed }
    ensures flushed { OnOk result (writer.new.waits ≡ false) }
{
    let all = waiting.len();
    let mut progress = Progress::new(rt, shift.is_watched, all);
    while telling.number() < all {
        tell_window(
            rt,
            alloc,
            shift,
            &mut progress,
            &mut waiting,
            telling,
            writer,
        )?;
    }
    progress.finish(rt);
    write_text(writer, b"")
}

/// Writes what is told of a batch, and answers the status. Its entries are told window by window: their jobs are submitted to a new
/// service, so many workers run them in slices of so many steps, and each entry is told, in order, as soon as the workers of its
/// window have ended. A job that isn't ended then is refused (65 NotEnded). Want of memory for one entry is told of it; elsewhere it is
/// the answer, and nothing is written. It waits for the workers.
pub fn answer_batch<W: Threads + Wait + Sync + Eprint + Clock, O: Write>(
    rt: &W,
    alloc: Global,
    shift: Shift,
    entries: VecDeque<Entry>,
    writer: &mut Output<O>,
) -> Result<u8, ProgramFault>
    requires writer { writer.old.failed ≡ false }
    ensures whole { IfOk result (WritesEntries entries.items writer.old writer.new) }
    ensures left { IfErr result (IsLeft
        (map entry_of entries.items) writer.old.held writer.new.held) }
    ensures marks { TellsWrites result writer.old.failed writer.new.failed }
    ensures flushed { OnOk result (writer.new.waits ≡ false) }
{
    let Ok(waiting) = wait_all(alloc, entries) else {
        return Err(ProgramFault::Memory);
    };
    let Ok(mut telling) = Telling::new(alloc) else {
        return Err(ProgramFault::Memory);
    };
    tell_waiting(rt, alloc, shift, waiting, &mut telling, writer)?;
    Ok(status_of(telling.has_refused()))
}
