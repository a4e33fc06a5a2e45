//! Summaries of rows, which are read piece by piece.

ghost use Rattle.std.specs.Prelude.{◌≡◌, ◌<◌, [], length, false, IfOk, OnOk};
ghost use Rattle.gw_answers.specs.Requests.{AnswersAs};
ghost use Rattle.gw_answers.specs.Status.{refusal_status};
ghost use Rattle.gw_console.specs.Output.{AnswersReader, Delivers};
ghost use Rattle.gw_console.specs.Calls.{TellsReads};
ghost use Rattle.gw_summary.specs.Keeping.{IsRead};
ghost use Rattle.gw_summary.specs.StudyRows.{StudyRuns, IsReadOf};
ghost use Rattle.planner.specs.Reading.{ReadsAll, ReadsPiece, RefusesNoRows, RefusesNoStudy, TellsRows};
ghost use Rattle.planner.specs.Answers.{summary_answering};

use gw_answers::Answer;
use gw_answers::status::REFUSED;
use gw_command_line::Summing;
use gw_console::{ProgramFault, deliver, or_no_memory};
use gw_object::Memory;
use gw_streams::{Input, Output};
use gw_summary::{NoRow, Pieces, RowFault, SummaryRequest, refusal_of, summary};
use std::alloc::Global;
use std::io::{Read, Write};

/// How many bytes of rows are read at once.
const PIECE: usize = 16_384;

/// What keeps rows from being read to the end.
#[derive(Drop)]
enum NoRows {
    /// A line isn't taken.
    Row(NoRow),
    /// A read failed.
    Read,
}

/// One read of rows. It answers how many bytes came; 0 is the end.
fn read_piece<R: Read>(
    alloc: Global,
    reader: &mut Input<R>,
    buffer: &mut [u8],
    pieces: &mut Pieces,
) -> Result<usize, NoRows>
    requires reader { reader.old.failed ≡ false }
    requires room { 0 < length buffer.old }
    ensures told { TellsRows result reader.new.failed }
    ensures read { IfOk result (λ count. ReadsPiece count reader.old.left reader.new.left pieces.old pieces.new) }
    ensures study { RefusesNoStudy result reader.old.left pieces.old }
{
    match reader.read(buffer) {
        Ok(count) => match pieces.add(alloc, &buffer[..count]) {
            Ok(()) => Ok(count),
            Err(none) => Err(NoRows::Row(none)),
        },
        Err(_) => Err(NoRows::Read),
    }
}

/// Reads rows to their end, or to a line that is refused. More reads than the loop has would be told as want of memory.
fn read_pieces<R: Read>(
    alloc: Global,
    reader: &mut Input<R>,
    pieces: &mut Pieces,
) -> Result<(), NoRows>
    requires reader { reader.old.failed ≡ false }
    requires none { IsRead [] pieces.old }
    requires nothing { (s : StudyRuns) → IsReadOf s [] pieces.old }
    ensures told { TellsRows result reader.new.failed }
    ensures read { OnOk result (ReadsAll reader.old.left pieces.new) }
    ensures study { RefusesNoRows result reader.old.left }
{
    let mut buffer = [0; PIECE];
    for _ in 0..u64::MAX {
        if read_piece(alloc, reader, &mut buffer, pieces)? == 0 {
            return Ok(());
        }
    }
    Err(NoRows::Row(NoRow::Memory))
}

/// The answer that refuses a line.
fn refused(alloc: Global, line: u64, fault: RowFault) -> Result<Answer, Memory>
    ensures { IfOk result (λ a. a.status ≡ refusal_status) }
{
    Ok(Answer {
        text: refusal_of(alloc, line, &[], fault)?,
        status: REFUSED,
    })
}

/// Reads rows, and then tells what they say.
fn read_and_sum<R: Read>(
    alloc: Global,
    summing: Summing,
    reader: &mut Input<R>,
) -> Result<Answer, ProgramFault>
    requires { reader.old.failed ≡ false }
    ensures answer { AnswersAs result (AnswersReader (summary_answering summing) reader.old.left) }
    ensures told { TellsReads result reader.old.failed reader.new.failed }
{
    let mut pieces = Pieces::new(alloc);
    let request = SummaryRequest {
        seeds: summing.seeds,
        all: summing.all,
    };
    match read_pieces(alloc, reader, &mut pieces) {
        Ok(()) => or_no_memory(summary(alloc, &pieces, request)),
        Err(NoRows::Row(NoRow::Fault(line, fault))) => or_no_memory(refused(alloc, line, fault)),
        Err(NoRows::Row(NoRow::Memory)) => Err(ProgramFault::Memory),
        Err(NoRows::Read) => Err(ProgramFault::Read),
    }
}

/// Sums up rows of runs: reads them to their end, piece by piece, and writes what a study tells of the same runs, or why a line is
/// refused.
pub fn ask_summary<R: Read, W: Write>(
    alloc: Global,
    summing: Summing,
    reader: &mut Input<R>,
    writer: &mut Output<W>,
) -> u8
    requires reader { reader.old.failed ≡ false }
    requires writer { writer.old.failed ≡ false }
    ensures { Delivers (summary_answering summing) reader.old.left result writer.old.held writer.new.held }
{
    deliver(writer, read_and_sum(alloc, summing, reader))
}
