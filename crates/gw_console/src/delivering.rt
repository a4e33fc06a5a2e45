//! Delivering an answer.

ghost use Rattle.std.specs.Prelude.{◌≡◌, ◌≢◌, false, MatchResult};
ghost use Rattle.gw_answers.specs.Status.{failure_status};
ghost use Rattle.gw_console.specs.Output.{Writes, WritesOrFails};
ghost use Rattle.gw_console.specs.Calls.{wanted_status, EndsWith};

use crate::fault::ProgramFault;
use crate::output::write_text;
use gw_answers::Answer;
use gw_answers::status::{FAILED, NO_MEMORY};
use gw_object::Memory;
use gw_streams::Output;
use std::io::Write;

/// Writes a text, and answers its status, or 3 where a write failed.
pub fn write_and_end<W: Write>(writer: &mut Output<W>, text: &[u8], status: u8) -> u8
    requires { writer.old.failed ≡ false }
    ensures bytes { Writes text.now status result writer.old.held writer.new.held }
    ensures told { EndsWith status result writer.new.failed }
    ensures flushed { result ≢ failure_status → writer.new.waits ≡ false }
{
    match write_text(writer, text) {
        Ok(()) => status,
        Err(_) => FAILED,
    }
}

/// Writes an answer, or the line on want of memory; where a read failed, nothing. It answers the status.
pub fn deliver<W: Write>(writer: &mut Output<W>, answer: Result<Answer, ProgramFault>) -> u8
    requires { writer.old.failed ≡ false }
    ensures bytes { WritesOrFails answer result writer.old.held writer.new.held }
    ensures told { EndsWith (wanted_status answer) result writer.new.failed }
    ensures flushed { result ≢ failure_status → writer.new.waits ≡ false }
{
    match answer {
        Ok(Answer { text, status }) => write_and_end(writer, &text, status),
        Err(ProgramFault::Memory) => write_and_end(writer, b"refused 8 Memory\n", NO_MEMORY),
        Err(ProgramFault::Read) => FAILED,
        Err(ProgramFault::Write) => FAILED,
    }
}

/// An answer, or that memory ran out.
pub fn or_no_memory(answer: Result<Answer, Memory>) -> Result<Answer, ProgramFault>
    ensures { MatchResult answer (λ a. result ≡ Ok a) (λ _. result ≡ Err ProgramFault.Memory) }
{
    match answer {
        Ok(answer) => Ok(answer),
        Err(_) => Err(ProgramFault::Memory),
    }
}
