//! Writing the output.

ghost use Rattle.std.specs.Prelude.{◌≡◌, ◌<◌, false, length, OnOk};
ghost use Rattle.gw_streams.specs.Streams.{MarksFailure};
ghost use Rattle.gw_console.specs.Output.{WritesSome, WritesText};

use crate::fault::ProgramFault;
use gw_streams::Output;
use std::io::Write;

/// One write of a text that isn't empty. It answers how many bytes the writer took, at least 1; a write that takes none
/// is a fault.
fn write_some<W: Write>(writer: &mut Output<W>, text: &[u8]) -> Result<usize, ProgramFault>
    requires some { 0 < length text.now }
    requires unfailed { writer.old.failed ≡ false }
    ensures bytes { WritesSome text.now result writer.old.held writer.new.held }
    ensures told { MarksFailure result writer.old.failed writer.new.failed }
{
    match writer.write(text) {
        Ok(count) => Ok(count),
        Err(_) => Err(ProgramFault::Write),
    }
}

/// Writes all of a text. A write that fails ends it, an interrupted one too, and so does one that takes no byte; the
/// writer then has a front of the text.
pub fn write_text<W: Write>(writer: &mut Output<W>, text: &[u8]) -> Result<(), ProgramFault>
    requires { writer.old.failed ≡ false }
    ensures bytes { WritesText text.now result writer.old.held writer.new.held }
    ensures told { MarksFailure result writer.old.failed writer.new.failed }
    ensures flushed { OnOk result (writer.new.waits ≡ false) }
{
    let mut written = 0;
    while written < text.len() {
        let count = write_some(writer, &text[written..])?;
        written += count;
    }
    match writer.flush() {
        Ok(()) => Ok(()),
        Err(_) => Err(ProgramFault::Write),
    }
}
