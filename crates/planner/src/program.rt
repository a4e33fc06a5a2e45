//! The program, over its words, a reader and a writer.

ghost use Rattle.std.specs.Prelude.{◌≡◌, ◌+◌, map, false, true, OnOk};
ghost use Rattle.std.specs.String.{string_bytes};
ghost use Rattle.gw_answers.specs.Requests.{AnswersAs};
ghost use Rattle.gw_console.specs.Output.{AnswersReader, Delivers};
ghost use Rattle.gw_console.specs.Calls.{LosesFront, LosesAtMost, TellsReads, TellsCalls};
ghost use Rattle.gw_command_line.specs.Asking.{MayBeCarriedOut};
ghost use Rattle.gw_command_line.specs.Words.{act_of};
ghost use Rattle.gw_explain.specs.Meaning.{meaning};
ghost use Rattle.gw_planner.specs.Answers.{act_answering, is_of_input};
ghost use Rattle.planner.specs.Answers.{of_front, DoesCommand, DoesWords, Tells};

use crate::help::{HELP, USAGE, VERSION};
use crate::rows::ask_summary;
use gw_answers::Answer;
use gw_answers::status::{ENDED, WRONG_WORDS};
use gw_command_line::{Command, command_of};
use gw_console::{ProgramFault, deliver, or_no_memory, read_input, write_and_end};
use gw_explain::explain_code;
use gw_object::MOST_BYTES;
use gw_planner::answer_command;
use gw_streams::{Input, Output};
use std::alloc::Global;
use std::io::{Eprint, Read, Write};
use std::thread::Threads;

/// Reads all that is to be read, and then carries a command out.
fn read_and_answer<R: Read, T: Threads + Sync + Eprint>(
    rt: &T,
    alloc: Global,
    command: &Command<'_>,
    reader: &mut Input<R>,
) -> Result<Answer, ProgramFault>
    requires fit { MayBeCarriedOut command.now }
    requires asked { is_of_input (act_of command.now) ≡ true }
    requires reader { reader.old.failed ≡ false }
    ensures answer { AnswersAs result
        (AnswersReader (of_front (act_answering (act_of command.now))) reader.old.left) }
    ensures told { TellsReads result reader.old.failed reader.new.failed }
    ensures whole { OnOk result (LosesFront (MOST_BYTES + 1) reader.old.left reader.new.left) }
    ensures limited { LosesAtMost (MOST_BYTES + 1) reader.old.left reader.new.left }
{
    let input = read_input(alloc, reader)?;
    or_no_memory(answer_command(rt, alloc, command, &input))
}

/// Carries a command about a model out: reads all of the model, and writes the answer. It answers the status: 0 where the answer came,
/// 1 where something was refused, 3 where a read or a write failed, 4 where memory ran out. Nothing is written before all input is
/// read; notes, and how far runs are, go to standard error.
pub fn ask<R: Read, W: Write, T: Threads + Sync + Eprint>(
    rt: &T,
    alloc: Global,
    command: &Command<'_>,
    reader: &mut Input<R>,
    writer: &mut Output<W>,
) -> u8
    requires fit { MayBeCarriedOut command.now }
    requires asked { is_of_input (act_of command.now) ≡ true }
    requires reader { reader.old.failed ≡ false }
    requires writer { writer.old.failed ≡ false }
    ensures written { Delivers (of_front (act_answering (act_of command.now)))
        reader.old.left result writer.old.held writer.new.held }
    ensures calls { TellsCalls result reader.old reader.new writer.old writer.new }
{
    deliver(writer, read_and_answer(rt, alloc, command, reader))
}

/// Tells what the code of a refusal means, and reads nothing. It answers the status: 0, 3 where a write failed, 4 where memory ran
/// out.
pub fn tell_code<W: Write>(alloc: Global, code: u16, writer: &mut Output<W>) -> u8
    requires { writer.old.failed ≡ false }
    ensures { Tells (meaning code) result writer.old.held writer.new.held }
{
    deliver(writer, or_no_memory(explain_code(alloc, code)))
}

/// Carries a command out.
#[tactic(auto, using(crate::proofs::Commands::does))]
fn do_command<R: Read, W: Write, T: Threads + Sync + Eprint>(
    rt: &T,
    alloc: Global,
    command: &Command<'_>,
    reader: &mut Input<R>,
    writer: &mut Output<W>,
) -> u8
    requires fit { MayBeCarriedOut command.now }
    requires reader { reader.old.failed ≡ false }
    requires writer { writer.old.failed ≡ false }
    ensures { DoesCommand (act_of command.now)
        reader.old.left result writer.old.held writer.new.held }
{
    match command {
        Command::Summary(summing) => ask_summary(alloc, *summing, reader, writer),
        Command::Code(code) => tell_code(alloc, *code, writer),
        Command::Help => write_and_end(writer, HELP, ENDED),
        Command::Version => write_and_end(writer, VERSION, ENDED),
        Command::Ask(_)
        | Command::Chart(_)
        | Command::Study(_)
        | Command::Compare(_)
        | Command::Runs(_)
        | Command::Object(_)
        | Command::Shard(_) => ask(rt, alloc, command, reader, writer),
    }
}

/// The program: the command that its words name. On any other words it writes the usage line, with status 2, and reads nothing.
pub fn dispatch<R: Read, W: Write, T: Threads + Sync + Eprint>(
    rt: &T,
    alloc: Global,
    words: &[String],
    reader: &mut Input<R>,
    writer: &mut Output<W>,
) -> u8
    requires reader { reader.old.failed ≡ false }
    requires writer { writer.old.failed ≡ false }
    ensures { DoesWords (map string_bytes words.now) reader.old.left result writer.old.held writer.new.held }
{
    match command_of(words) {
        Some(command) => do_command(rt, alloc, &command, reader, writer),
        None => write_and_end(writer, USAGE, WRONG_WORDS),
    }
}
