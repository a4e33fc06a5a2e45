//! The window of a batch: the entries whose jobs are in a service at once.

ghost use Rattle.std.specs.Prelude.{◌≡◌, ◌+◌, ◌<◌, ◌^◌, false, length, OnOk};
ghost use Rattle.gw_pool.specs.Shares.{AreWhole};
ghost use Rattle.gw_batch.specs.Parts.{IsTold};
ghost use Rattle.gw_batch.specs.Waiting.{waiting_entry};
ghost use Rattle.gw_batch.specs.Told.{told_text, told_refused};
ghost use Rattle.gw_batch.specs.Windows.{KeepsCount, StopsAt, StopsAtTickets, Tells, TellsTickets};
ghost use Rattle.gw_batch.specs.Writing.{TellsWrites};

use crate::progress::{Progress, Watch};
use crate::shift::Shift;
use crate::submission::submit_some;
use crate::telling::{Telling, tell_all};
use crate::ticket::Ticket;
use crate::told::Told;
use crate::waiting::Waiting;
use crate::workers::run;
use gw_console::ProgramFault;
use gw_pool::{Crew, Service};
use gw_streams::Output;
use std::alloc::Global;
use std::collections::VecDeque;
use std::io::{Eprint, Write};
use std::marker::Brand;
use std::sync::Wait;
use std::sync::ledger::{Blank, Ledger};
use std::thread::Threads;
use std::time::Clock;

/// The parts of each ledger of a service.
const PARTS: u64 = 17;

/// What is told of an entry without a service: of an object, that memory is wanted for it.
fn told_without(waiting: Waiting) -> Told
    ensures { IsTold (waiting_entry waiting) (told_text result) (told_refused result) }
{
    match waiting {
        Waiting::Object(_) => Told::NoMemory,
        Waiting::Broken(line) => Told::Refusal(line.into_text()),
    }
}

/// Tells the first entry that waits, if there is one, without a service. Where nothing is told yet, want of memory is the answer.
fn do_without<O: Write>(
    waiting: &mut VecDeque<Waiting>,
    telling: &mut Telling,
    writer: &mut Output<O>,
) -> Result<(), ProgramFault>
    requires writer { writer.old.failed ≡ false }
    requires fits { telling.old.number + length waiting.old.items < 2 ^ 64 }
    requires some { 0 < length waiting.old.items }
    ensures advances { Tells result telling.old telling.new waiting.old.items waiting.new.items
        writer.old writer.new }
    ensures stops { StopsAt result telling.old waiting.old.items writer.old writer.new }
    ensures count { KeepsCount result telling.old telling.new waiting.old.items waiting.new.items }
    ensures more { OnOk result (telling.old.number < telling.new.number) }
    ensures marks { TellsWrites result writer.old.failed writer.new.failed }
{
    if telling.number() == 0 {
        return Err(ProgramFault::Memory);
    }
    match waiting.pop_front() {
        Some(first) => telling.tell(writer, told_without(first)),
        None => unreachable!(),
    }
}

/// Runs the jobs of tickets, and tells these. Where memory is wanted for the workers and nothing is told yet, that is the answer.
fn run_and_tell<
    R: Ledger + Send + Sync,
    S: Ledger + Send + Sync,
    W: Threads + Wait + Sync + Eprint + Clock,
    O: Write,
>(
    rt: &W,
    alloc: Global,
    service: &Service<R, S>,
    crew: &mut Crew<R, S>,
    shift: Shift,
    progress: &mut Progress,
    tickets: VecDeque<Ticket>,
    telling: &mut Telling,
    writer: &mut Output<O>,
) -> Result<(), ProgramFault>
    requires crew { crew.old.board ≡ service.now }
    requires writer { writer.old.failed ≡ false }
    requires fits { telling.old.number + length tickets.items < 2 ^ 64 }
    ensures advances { TellsTickets result telling.old telling.new tickets.items
        writer.old writer.new }
    ensures stops { StopsAtTickets result telling.old tickets.items writer.old writer.new }
    ensures number { OnOk result (telling.new.number ≡ telling.old.number + length tickets.items) }
    ensures marks { TellsWrites result writer.old.failed writer.new.failed }
{
    let watch = Watch {
        rt,
        table: service.table(),
        tickets: &tickets,
        progress: &*progress,
    };
    let ran = run(rt, alloc, service, crew, shift, &watch);
    if ran.is_err() && telling.number() == 0 {
        return Err(ProgramFault::Memory);
    }
    progress.add(tickets.len(), crew.steps());
    tell_all(rt, alloc, service.table(), tickets, telling, writer)
}

/// Tells the entries of the next window with a service that has no job.
fn tell_with<
    R: Ledger + Send + Sync,
    S: Ledger + Send + Sync,
    W: Threads + Wait + Sync + Eprint + Clock,
    O: Write,
>(
    rt: &W,
    alloc: Global,
    service: &Service<R, S>,
    crew: &mut Crew<R, S>,
    shift: Shift,
    progress: &mut Progress,
    waiting: &mut VecDeque<Waiting>,
    telling: &mut Telling,
    writer: &mut Output<O>,
) -> Result<(), ProgramFault>
    requires crew { crew.old.board ≡ service.now }
    requires writer { writer.old.failed ≡ false }
    requires fits { telling.old.number + length waiting.old.items < 2 ^ 64 }
    requires some { 0 < length waiting.old.items }
    ensures advances { Tells result telling.old telling.new waiting.old.items waiting.new.items
        writer.old writer.new }
    ensures stops { StopsAt result telling.old waiting.old.items writer.old writer.new }
    ensures count { KeepsCount result telling.old telling.new waiting.old.items waiting.new.items }
    ensures more { OnOk result (telling.old.number < telling.new.number) }
    ensures marks { TellsWrites result writer.old.failed writer.new.failed }
{
    let first = telling.number();
    match submit_some(rt, alloc, service.table(), shift.workers, first, waiting) {
        Ok(tickets) => run_and_tell(
            rt, alloc, service, crew, shift, progress, tickets, telling, writer,
        ),
        Err(_) => do_without(waiting, telling, writer),
    }
}

/// Tells the entries of the next window with a service whose ledgers the type parameters name.
fn tell_window_by<
    R: Ledger + Send + Sync,
    S: Ledger + Send + Sync,
    W: Threads + Wait + Sync + Eprint + Clock,
    O: Write,
>(
    rt: &W,
    alloc: Global,
    rows: Blank,
    steps: Blank,
    shift: Shift,
    progress: &mut Progress,
    waiting: &mut VecDeque<Waiting>,
    telling: &mut Telling,
    writer: &mut Output<O>,
) -> Result<(), ProgramFault>
    requires names { (rows.name ≡ R.name) × (steps.name ≡ S.name) }
    requires parts { (rows.parts ≡ R.parts) × (steps.parts ≡ S.parts) }
    requires whole { AreWhole rows.parts steps.parts }
    requires writer { writer.old.failed ≡ false }
    requires fits { telling.old.number + length waiting.old.items < 2 ^ 64 }
    requires some { 0 < length waiting.old.items }
    ensures advances { Tells result telling.old telling.new waiting.old.items waiting.new.items
        writer.old writer.new }
    ensures stops { StopsAt result telling.old waiting.old.items writer.old writer.new }
    ensures count { KeepsCount result telling.old telling.new waiting.old.items waiting.new.items }
    ensures more { OnOk result (telling.old.number < telling.new.number) }
    ensures marks { TellsWrites result writer.old.failed writer.new.failed }
{
    match Service::<R, S>::new(alloc, rows, steps) {
        Ok((service, mut crew, seat)) => {
            let told = tell_with(
                rt, alloc, &service, &mut crew, shift, progress, waiting, telling, writer,
            );
            drop(service);
            drop(crew);
            drop(seat);
            told
        }
        Err(_) => do_without(waiting, telling, writer),
    }
}

/// Tells the entries of the next window: their jobs are submitted to a new service, the workers run them, and each is told, in
/// order.
pub(crate) fn tell_window<W: Threads + Wait + Sync + Eprint + Clock, O: Write>(
    rt: &W,
    alloc: Global,
    shift: Shift,
    progress: &mut Progress,
    waiting: &mut VecDeque<Waiting>,
    telling: &mut Telling,
    writer: &mut Output<O>,
) -> Result<(), ProgramFault>
    requires writer { writer.old.failed ≡ false }
    requires fits { telling.old.number + length waiting.old.items < 2 ^ 64 }
    requires some { 0 < length waiting.old.items }
    ensures advances { Tells result telling.old telling.new waiting.old.items waiting.new.items
        writer.old writer.new }
    ensures stops { StopsAt result telling.old waiting.old.items writer.old writer.new }
    ensures count { KeepsCount result telling.old telling.new waiting.old.items waiting.new.items }
    ensures more { OnOk result (telling.old.number < telling.new.number) }
    ensures marks { TellsWrites result writer.old.failed writer.new.failed }
{
    tell_window_by::<Brand, Brand, W, O>(
        rt,
        alloc,
        Blank::new(PARTS),
        Blank::new(PARTS),
        shift,
        progress,
        waiting,
        telling,
        writer,
    )
}
