//! The program, over its words, a reader and a writer.

ghost use Rattle.std.specs.Prelude.{◌≡◌, ◌≢◌, ◌↔◌, ◌+◌, [], ◌∷◌, map, false, IsTrue, None, IfOk, OnOk, Contains};
ghost use Rattle.std.specs.String.{string_bytes};
ghost use Rattle.gw_answers.specs.Status.{end_status, refusal_status, wrong_words, failure_status, no_memory};
ghost use Rattle.gw_answers.specs.Requests as requests;
ghost use Rattle.gw_answers.specs.Answer.{IsAnswer, IsCheck};
ghost use Rattle.gw_answers.specs.Assembly.{IsAssembly};
ghost use Rattle.gw_batch.specs.Batch.{entry_of};
ghost use Rattle.gw_batch.specs.Codes.{words_fault};
ghost use Rattle.gw_batch.specs.Parts.{IsPool};
ghost use Rattle.gpssw.specs.Words.{command_in};
ghost use Rattle.gw_console.specs.Output.{IsAnswerTo, Responds, Delivers};
ghost use Rattle.gw_console.specs.Calls.{LosesFront, LosesAtMost, TellsReads, TellsCalls};
ghost use Rattle.gpssw.specs.Output.{command_answering, RespondsToBatch, RespondsToWords};
ghost use Rattle.gpssw.specs.Calls.{TellsCallsOf, TellsPoolCalls, tells_calls};

use crate::framing::read_batch;
use crate::words::{Command, command_of};
use gw_answers::status::{FAILED, WRONG_WORDS};
use gw_answers::{Answer, Request, answer_refusal, answer_to};
use gw_batch::{Entry, Shift, answer_batch, refusal_of_words};
use gw_console::{ProgramFault, deliver, or_no_memory, read_input, write_and_end};
use gw_object::{MOST_BYTES, Memory};
use gw_streams::{Input, Output};
use std::alloc::Global;
use std::collections::VecDeque;
use std::io::{Eprint, Read, Write};
use std::sync::Wait;
use std::thread::Threads;
use std::time::Clock;

/// Reads all that is to be read, and then answers it.
fn read_and_answer<R: Read>(
    alloc: Global,
    request: Request,
    reader: &mut Input<R>,
) -> Result<Answer, ProgramFault>
    requires { reader.old.failed ≡ false }
    ensures answer { IfOk result (IsAnswerTo (requests.answers_to request) reader.old.left) }
    ensures told { TellsReads result reader.old.failed reader.new.failed }
    ensures whole { OnOk result (LosesFront (MOST_BYTES + 1) reader.old.left reader.new.left) }
    ensures limited { LosesAtMost (MOST_BYTES + 1) reader.old.left reader.new.left }
{
    let input = read_input(alloc, reader)?;
    or_no_memory(answer_to(alloc, request, &input))
}

/// Carries out a command on one input: reads all of it, and writes the answer. It answers the status: 0 where the command came to its end, 1
/// where something was refused, 3 where a read or a write failed, 4 where memory ran out. Nothing is written before all input is
/// read (ours: docs/program.md).
fn respond<R: Read, W: Write>(
    alloc: Global,
    request: Request,
    reader: &mut Input<R>,
    writer: &mut Output<W>,
) -> u8
    requires reader { reader.old.failed ≡ false }
    requires writer { writer.old.failed ≡ false }
    ensures written { Delivers (requests.answers_to request)
        reader.old.left result writer.old.held writer.new.held }
    ensures calls { TellsCalls result reader.old reader.new writer.old writer.new }
{
    deliver(writer, read_and_answer(alloc, request, reader))
}

/// The command `asm`: reads a model text and writes the object that it becomes, in its one spelling, or the refusal line. It
/// answers the status, as [`respond`] does.
pub fn asm<R: Read, W: Write>(alloc: Global, reader: &mut Input<R>, writer: &mut Output<W>) -> u8
    requires reader { reader.old.failed ≡ false }
    requires writer { writer.old.failed ≡ false }
    ensures written { Delivers IsAssembly
        reader.old.left result writer.old.held writer.new.held }
    ensures calls { TellsCalls result reader.old reader.new writer.old writer.new }
{
    respond(alloc, Request::Asm, reader, writer)
}

/// The command `check`: reads an object and writes that it is accepted, with how many blocks and procedures it has and the greatest
/// weight of a block, or the refusal line. It answers the status, as [`respond`] does.
pub fn check<R: Read, W: Write>(alloc: Global, reader: &mut Input<R>, writer: &mut Output<W>) -> u8
    requires reader { reader.old.failed ≡ false }
    requires writer { writer.old.failed ≡ false }
    ensures written { Delivers IsCheck
        reader.old.left result writer.old.held writer.new.held }
    ensures calls { TellsCalls result reader.old reader.new writer.old writer.new }
{
    respond(alloc, Request::Check, reader, writer)
}

/// The command `run`: reads an object and writes the report of its run, or the refusal line. It answers the status, as [`respond`]
/// does: 0 where the job came to a named end.
pub fn run<R: Read, W: Write>(
    alloc: Global,
    seed: u32,
    count: u64,
    reader: &mut Input<R>,
    writer: &mut Output<W>,
) -> u8
    requires reader { reader.old.failed ≡ false }
    requires writer { writer.old.failed ≡ false }
    ensures written { Delivers (IsAnswer seed count)
        reader.old.left result writer.old.held writer.new.held }
    ensures calls { TellsCalls result reader.old reader.new writer.old writer.new }
{
    respond(alloc, Request::Run { seed, count }, reader, writer)
}

/// Runs the jobs of a batch, writes what is told of it, and answers the status; where memory ran out, its line is written.
fn run_batch<W: Write, T: Threads + Wait + Sync + Eprint + Clock>(
    rt: &T,
    alloc: Global,
    shift: Shift,
    entries: VecDeque<Entry>,
    writer: &mut Output<W>,
) -> u8
    requires { writer.old.failed ≡ false }
    ensures bytes { RespondsToBatch
        (map entry_of entries.items) result writer.old.held writer.new.held }
    ensures told { (result ≡ failure_status) ↔ IsTrue writer.new.failed }
    ensures flushed { result ≢ failure_status → writer.new.waits ≡ false }
{
    match answer_batch(rt, alloc, shift, entries, writer) {
        Ok(status) => status,
        Err(ProgramFault::Memory) => deliver(writer, Err(ProgramFault::Memory)),
        Err(ProgramFault::Read) => FAILED,
        Err(ProgramFault::Write) => FAILED,
    }
}

/// The command `pool`: reads a batch of objects, each behind its length, has so many workers run their jobs in slices of so many
/// steps, and writes for each object, in order, the line `JOB` with its number, and the report of its run or the refusal line. It
/// answers the status: 0 where no object was refused, 1 where one was, 3 where a read or a write failed, 4 where memory ran out.
/// Nothing is written before all is read that is read; then each part is, as soon as the workers of its window have ended, and on
/// standard error, where it is watched, how far the batch is. Where the words are out of range (docs/program.md) the refusal line is
/// all that is written, with status 1, and nothing is read. It waits for the workers.
pub fn pool<R: Read, W: Write, T: Threads + Wait + Sync + Eprint + Clock>(
    rt: &T,
    alloc: Global,
    workers: u32,
    slice: u32,
    is_watched: bool,
    reader: &mut Input<R>,
    writer: &mut Output<W>,
) -> u8
    requires reader { reader.old.failed ≡ false }
    requires writer { writer.old.failed ≡ false }
    ensures written { Delivers (IsPool workers slice)
        reader.old.left result writer.old.held writer.new.held }
    ensures unread { words_fault workers slice ≢ None → reader.new ≡ reader.old }
    ensures calls { TellsPoolCalls workers slice result reader.old reader.new writer.old writer.new }
{
    if let Some(refusal) = refusal_of_words(workers, slice) {
        return deliver(writer, or_no_memory(answer_refusal(alloc, refusal)));
    }
    match read_batch(alloc, reader) {
        Ok(entries) => {
            let shift = Shift {
                workers,
                slice,
                is_watched,
            };
            run_batch(rt, alloc, shift, entries, writer)
        }
        Err(fault) => deliver(writer, Err(fault)),
    }
}

/// Carries out a command, by its function.
fn perform<R: Read, W: Write, T: Threads + Wait + Sync + Eprint + Clock>(
    rt: &T,
    alloc: Global,
    command: Command,
    is_terminal: bool,
    reader: &mut Input<R>,
    writer: &mut Output<W>,
) -> u8
    requires reader { reader.old.failed ≡ false }
    requires writer { writer.old.failed ≡ false }
    ensures done { Responds (command_answering command) reader.old.left result writer.old.held writer.new.held }
    ensures statuses { Contains (end_status ∷ refusal_status ∷ failure_status ∷ no_memory ∷ []) result }
    ensures calls { tells_calls command result reader.old reader.new writer.old writer.new }
{
    match command {
        Command::Single(Request::Asm) => asm(alloc, reader, writer),
        Command::Single(Request::Check) => check(alloc, reader, writer),
        Command::Single(Request::Run { seed, count }) => run(alloc, seed, count, reader, writer),
        Command::Pool {
            workers,
            slice,
            is_watched,
        } => {
            let is_watched = is_watched || is_terminal;
            pool(rt, alloc, workers, slice, is_watched, reader, writer)
        }
    }
}

/// The program: the command that its words name. On any other words it writes the usage line, with status 2, and
/// reads nothing. Only `pool` waits; how far it is it tells on standard error, where that is a terminal or its words ask for it.
pub fn dispatch<R: Read, W: Write, T: Threads + Wait + Sync + Eprint + Clock>(
    rt: &T,
    alloc: Global,
    words: &[String],
    is_terminal: bool,
    reader: &mut Input<R>,
    writer: &mut Output<W>,
) -> u8
    requires reader { reader.old.failed ≡ false }
    requires writer { writer.old.failed ≡ false }
    ensures output { RespondsToWords words.now reader.old.left result
        writer.old.held writer.new.held }
    ensures unread { command_in (map string_bytes words.now) ≡ None → reader.new ≡ reader.old }
    ensures usage { result ≡ wrong_words → command_in (map string_bytes words.now) ≡ None }
    ensures calls { TellsCallsOf words.now result reader.old reader.new writer.old writer.new }
{
    match command_of(words) {
        Some(command) => perform(rt, alloc, command, is_terminal, reader, writer),
        None => write_and_end(
            writer,
            b"usage: gpssw asm | check | run SEED COUNT | pool WORKERS SLICE\n",
            WRONG_WORDS,
        ),
    }
}
