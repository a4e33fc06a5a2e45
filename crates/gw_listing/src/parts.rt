//! The lines of an object, part by part.

ghost use Rattle.std.specs.Prelude.{slice_get, IfOk};
ghost use Rattle.gw_source_lines.specs.Sites.{sites_told};
ghost use Rattle.gw_listing.specs.Lines.{Whole, PutsLines};
ghost use Rattle.gw_listing.specs.Listing.{IsListingOf};
ghost use Rattle.gw_listing.specs.Shape.{procedure_openings, procedures_openings};
ghost use Rattle.gw_listing.specs.Shape as shape;

use crate::code::{put_code, put_head};
use crate::sections::{Section, put_section};
use gw_object::{Memory, Parts, Procedure};
use gw_source_lines::Sources;
use gw_writing::{put, put_number};
use std::alloc::Global;

/// What a procedure takes, and its instructions, if it is there.
#[tactic(auto, using(crate::proofs::Adding::begun))]
fn put_code_at(alloc: Global, out: &mut Vec<u8>, parts: &Parts, number: usize) -> Result<(), Memory>
    ensures { PutsLines result out.old out.new (shape.code_openings (slice_get parts.now.procedures number)) }
{
    match parts.procedures.as_slice().get(number) {
        Some(procedure) => put_code(alloc, out, parts, procedure),
        None => Ok(()),
    }
}

/// The lines of a procedure: its number, its line in the text and what stands there, what it takes, and its instructions.
#[tactic(auto, using(crate::proofs::Adding::joined))]
fn put_procedure(
    alloc: Global,
    out: &mut Vec<u8>,
    parts: &Parts,
    text: &[u8],
    lines: &[u32],
    number: usize,
) -> Result<(), Memory>
    ensures { PutsLines result out.old out.new (procedure_openings lines.now parts.now.procedures number) }
{
    put_head(alloc, out, text, lines, number)?;
    put_code_at(alloc, out, parts, number)
}

/// The lines of each procedure.
#[tactic(auto, using(crate::proofs::Adding::begun, crate::proofs::Adding::one_more))]
fn put_procedures(
    alloc: Global,
    out: &mut Vec<u8>,
    parts: &Parts,
    text: &[u8],
    lines: &[u32],
) -> Result<(), Memory>
    ensures { PutsLines result out.old out.new (procedures_openings lines.now parts.now.procedures) }
{
    for i in 0..parts.procedures.as_slice().len() {
        put_procedure(alloc, out, parts, text, lines, i)?;
    }
    Ok(())
}

/// The line of the version, where it isn't 1.
#[tactic(auto, using(crate::proofs::Adding::begun, crate::proofs::Adding::whole))]
fn put_version(out: &mut Vec<u8>, parts: &Parts) -> Result<(), Memory>
    ensures { PutsLines result out.old out.new (shape.version_openings parts.now.version) }
{
    if parts.version == 1 {
        return Ok(());
    }
    put_number(out, "VERSION ", parts.version)?;
    put(out, "\n")
}

/// The line of the termination count.
#[tactic(auto, using(crate::proofs::Adding::whole))]
fn put_start(out: &mut Vec<u8>, parts: &Parts) -> Result<(), Memory>
    ensures { PutsLines result out.old out.new (shape.start_opening parts.now.count) }
{
    put_number(out, "START ", parts.count)?;
    put(out, "\n")
}

/// The line of the version, where it isn't 1, and that of the termination count.
#[tactic(auto, using(crate::proofs::Adding::joined))]
fn put_first_lines(out: &mut Vec<u8>, parts: &Parts) -> Result<(), Memory>
    ensures { PutsLines result out.old out.new (shape.first_openings parts.now) }
{
    put_version(out, parts)?;
    put_start(out, parts)
}

/// The listing of an object. Where it comes from a text, the lines of its parts are known.
pub(crate) fn listing_of(
    alloc: Global,
    parts: &Parts,
    text: &[u8],
    sources: &Sources,
) -> Result<Vec<u8>, Memory>
    ensures { IfOk result (λ out. IsListingOf parts.now (sites_told sources.now) out.items) }
{
    let mut out = Vec::new(alloc);
    put_first_lines(&mut out, parts)?;
    put_section(alloc, &mut out, parts, &Section::Blocks(&sources.blocks))?;
    put_section(
        alloc,
        &mut out,
        parts,
        &Section::Entities(&sources.entities),
    )?;
    put_section(alloc, &mut out, parts, &Section::Chains)?;
    put_procedures(alloc, &mut out, parts, text, &sources.procedures)?;
    put_section(alloc, &mut out, parts, &Section::Returns)?;
    Ok(out)
}
