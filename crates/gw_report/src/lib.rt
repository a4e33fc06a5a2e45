//! The figures of a job's state, exact, and the report text that they make.
//!
//! It promises that the figures are the numbers of the state, and that the text is what they make.
//! The layout stands here alone (docs/report.md). It makes no step.
#![tactic(auto)]

mod average;
mod blocks;
mod entities;
mod entries;
mod figures;
mod room;
mod tables;
mod text;

ghost use Rattle.std.specs.Prelude.{◌≡◌, ◌≤◌, length, IfOk};
ghost use Rattle.gw_writing.specs.Text.{Puts};
ghost use Rattle.gw_report.specs.Report.{status_word as word_of_status, counts, end_line, report_text as text_of, report_of};

use blocks::put_block_lines;
use entities::put_entity_lines;
pub use entries::{BlockFigures, EntityFigures, TableFigures};
pub use figures::Figures;
use room::bytes_about;
/// The word of a block in a model text.
pub use gw_object::block_word;
use gw_object::{Memory, Parts};
use gw_scan::{End, Sim, Status};
use gw_writing::{put, put_number};
use std::alloc::Global;

/// How a job stands: the name of its end, if one stands.
pub fn status_word(status: Status) -> &'static str
    ensures { result.now ≡ word_of_status status }
{
    match status {
        Status::Running => "Running",
        Status::Ended(End::Done) => "Done",
        Status::Ended(End::Number) => "Number",
        Status::Ended(End::ZeroDivisor) => "ZeroDivisor",
        Status::Ended(End::NegativeTime) => "NegativeTime",
        Status::Ended(End::LoopLimit) => "LoopLimit",
        Status::Ended(End::NoMoreEvents) => "NoMoreEvents",
        Status::Ended(End::Budget) => "Budget",
        Status::Ended(End::Live) => "Live",
    }
}

/// The entries of all blocks, and the termination count.
fn put_counts(out: &mut Vec<u8>, figures: &Figures) -> Result<(), Memory>
    ensures { Puts result out.old out.new (counts figures.now) }
{
    put_number(out, " ENTRIES ", figures.entries())?;
    put_number(out, " COUNT ", figures.count())
}

fn put_end_line(out: &mut Vec<u8>, figures: &Figures) -> Result<(), Memory>
    ensures { Puts result out.old out.new (end_line figures.now) }
{
    put(out, "END ")?;
    put(out, status_word(figures.status()))?;
    put_number(out, " CLOCK ", figures.clock())?;
    put_number(out, " STEPS ", figures.steps())?;
    put_counts(out, figures)?;
    put(out, "\n")
}

/// The report that figures make, of a job of these parts: lines that each end by LF, for how it stands, its blocks, and its
/// entities (ours: docs/report.md). The parts have at most 65,535 blocks, as those of any object have. Room for about as much as it
/// takes is asked for at once, so that it isn't moved as it grows.
pub fn report_text(alloc: Global, parts: &Parts, figures: &Figures) -> Result<Vec<u8>, Memory>
    requires { length parts.now.blocks ≤ 65535 }
    ensures { IfOk result (λ text. text.items ≡ text_of parts.now figures.now) }
{
    let mut out = Vec::with_capacity(alloc, bytes_about(parts))?;
    put_end_line(&mut out, figures)?;
    put_block_lines(&mut out, figures, parts.blocks.as_slice())?;
    put_entity_lines(&mut out, figures, parts.entities.as_slice())?;
    Ok(out)
}

/// The report of a job as it stands: its figures, as `report_text` prints them.
pub fn report(alloc: Global, sim: &Sim) -> Result<Vec<u8>, Memory>
    ensures { IfOk result (λ text. text.items ≡ report_of sim.now) }
{
    let figures = Figures::of(alloc, sim)?;
    report_text(
        alloc,
        sim.spec().verified_object().object().parts(),
        &figures,
    )
}
