//! Why rows are refused.

ghost use Rattle.std.specs.Prelude.{◌≡◌, ◌++◌, IfOk};
ghost use Rattle.gw_summary.specs.Refusals as model;
ghost use Rattle.gw_writing.specs.Text.{Puts};

use gw_answers::codes::ROW;
use gw_answers::refusal_with_reason;
use gw_object::Memory;
use gw_writing::{put, put_number};
use std::alloc::Global;

/// Why a line is refused.
#[derive(Clone, Copy, PartialEq, Eq)]
pub enum RowFault {
    /// It has no line feed at its end: it was cut off.
    Cut,
    /// It is longer than any row.
    Long,
    /// It isn't a row with the fields that the header names, as `planner runs` writes it.
    Form,
    /// No line is a header.
    NoHeader,
    /// It is a header of other figures than the first.
    OtherFigures,
    /// It is of another model.
    OtherModel,
    /// It has another count, another window, or another number of rows in all.
    OtherStudy,
    /// It has other names before its numbers.
    OtherNames,
    /// Another line has the same run of the same point with other numbers.
    Unlike,
    /// This run isn't one of the study.
    Surplus(u32),
    /// This run isn't there.
    Missing(u32),
    /// So many rows are there, of so many that there are by what they say.
    Few(u64, u64),
}

/// Why a line isn't taken, or all lines aren't.
#[derive(Drop)]
pub enum NoRow {
    /// A line is refused, by its number, from 1.
    Fault(u64, RowFault),
    /// Memory ran out.
    Memory,
}

/// Why a line is refused, in words, where they are the same each time.
fn reason_of(fault: RowFault) -> &'static str
    ensures { result.now ≡ model.reason_of fault }
{
    match fault {
        RowFault::Cut => "the line is cut off: no line feed ends it",
        RowFault::Long => "the line is longer than a row can be",
        RowFault::Form => "this isn't a row with the fields that the header names",
        RowFault::NoHeader => "no line names the fields of this row",
        RowFault::OtherFigures => "the header names other figures than the first one",
        RowFault::OtherModel => "the row is of another model than the first one",
        RowFault::OtherStudy =>
            "the row has another count, window or number of rows than the first one",
        RowFault::OtherNames => "the row has other names before its numbers than the first one",
        RowFault::Unlike => "another row has this run with other numbers",
        RowFault::Surplus(_) => " isn't one of the study",
        RowFault::Missing(_) => " is missing",
        RowFault::Few(_, _) => " rows are there",
    }
}

/// Of which point a run is one, where that has a name.
fn put_point(out: &mut Vec<u8>, point: &[u8]) -> Result<(), Memory>
    ensures { Puts result out.old out.new (model.of_point point.now) }
{
    if point.is_empty() {
        return Ok(());
    }
    put(out, " of ")?;
    out.extend_from_slice(point)
}

/// A run, and of which point it is one.
fn put_run(out: &mut Vec<u8>, run: u32, point: &[u8]) -> Result<(), Memory>
    ensures { Puts result out.old out.new (model.run_text run point.now) }
{
    put_number(out, "run ", run)?;
    put_point(out, point)
}

/// What is wrong, before the words of the reason.
fn put_wrong(out: &mut Vec<u8>, point: &[u8], fault: RowFault) -> Result<(), Memory>
    ensures { Puts result out.old out.new (model.wrong point.now fault) }
{
    match fault {
        RowFault::Surplus(run) | RowFault::Missing(run) => put_run(out, run, point),
        RowFault::Few(there, all) => {
            put_number(out, "", there)?;
            put_number(out, " of ", all)
        }
        _ => Ok(()),
    }
}

/// Why a line is refused.
fn put_reason(out: &mut Vec<u8>, point: &[u8], fault: RowFault) -> Result<(), Memory>
    ensures { Puts result out.old out.new (model.wrong point.now fault ++ model.reason_of fault) }
{
    put_wrong(out, point, fault)?;
    put(out, reason_of(fault))
}

/// The refusal of a line by its number, from 1, as it is printed: its code and name, the number, and why, with the point of a run that
/// isn't there or shouldn't be. What misses is told at the line behind the last.
#[tactic(auto, unfolding(crate::specs::Refusals::refusal_text))]
pub fn refusal_of(
    alloc: Global,
    line: u64,
    point: &[u8],
    fault: RowFault,
) -> Result<Vec<u8>, Memory>
    ensures { IfOk result (λ text. text.items ≡ model.refusal_text line point.now fault) }
{
    let mut subject = Vec::new(alloc);
    let mut reason = Vec::new(alloc);
    put_number(&mut subject, "line ", line)?;
    put_reason(&mut reason, point, fault)?;
    refusal_with_reason(alloc, ROW, &subject, &reason)
}
