//! The lines of a model text that a refusal is about.

ghost use Rattle.std.specs.Prelude.{◌≡◌, take, slice_get, option_map};
ghost use Rattle.gw_writing.specs.Text.{Puts};
ghost use Rattle.gw_source_lines.specs.Sites.{sites_told};
ghost use Rattle.gw_explain.specs.Shown as shown;
ghost use Rattle.gw_explain.specs.Shown.{bytes_of, shown_lines};

use gw_object::{Memory, Place};
use gw_source_lines::Sources;
use gw_writing::{put, put_number};

/// The most bytes of a line that are shown.
const MOST_SHOWN: usize = 1000;

/// The line at a place, from 0.
fn line_at<'a>(lines: &[&'a [u8]], place: usize) -> Option<&'a [u8]>
    ensures { option_map (λ l. l.now) result ≡ slice_get (bytes_of lines.now) place }
{
    lines.get(place).copied()
}

/// The line of a number, from 1; an empty one where there is none.
pub(crate) fn text_line<'a>(lines: &[&'a [u8]], number: u32) -> &'a [u8]
    ensures { result.now ≡ shown.text_line (bytes_of lines.now) number }
{
    if number == 0 {
        return &[];
    }
    match line_at(lines, number as usize - 1) {
        Some(line) => line,
        None => &[],
    }
}

/// The lines of a model text, and which its blocks stand on; none where there is no text.
#[derive(Clone, Copy)]
pub(crate) struct Text<'a> {
    /// The lines.
    pub(crate) lines: &'a [&'a [u8]],
    /// The numbers of the lines of the blocks, both from 1.
    pub(crate) blocks: &'a [u32],
}

/// As much of a line as is shown.
fn front_of(line: &[u8]) -> &[u8]
    ensures { result.now ≡ take 1000 line.now }
{
    if line.len() > MOST_SHOWN {
        &line[..MOST_SHOWN]
    } else {
        line
    }
}

/// A line with its number, behind what there is.
fn put_line(out: &mut Vec<u8>, lines: &[&[u8]], number: u32) -> Result<(), Memory>
    ensures { Puts result out.old out.new (shown.shown_line (bytes_of lines.now) number) }
{
    put_number(out, "line ", number)?;
    put(out, " | ")?;
    out.extend_from_slice(front_of(text_line(lines, number)))?;
    put(out, "\n")
}

/// The line at a place among others, if it is there.
fn put_line_at(
    out: &mut Vec<u8>,
    lines: &[&[u8]],
    numbers: &[u32],
    place: usize,
) -> Result<(), Memory>
    ensures { Puts result out.old out.new (shown.shown_at (bytes_of lines.now) numbers.now place) }
{
    match numbers.get(place) {
        Some(number) => put_line(out, lines, *number),
        None => Ok(()),
    }
}

/// The line of the block of a number, from 1.
fn put_block(out: &mut Vec<u8>, lines: &[&[u8]], blocks: &[u32], number: u16) -> Result<(), Memory>
    ensures { Puts result out.old out.new (shown.shown_block (bytes_of lines.now) blocks.now number) }
{
    if number == 0 {
        Ok(())
    } else {
        put_line_at(out, lines, blocks, number as usize - 1)
    }
}

/// The lines of the two blocks of an edge.
fn put_edge(
    out: &mut Vec<u8>,
    lines: &[&[u8]],
    blocks: &[u32],
    from: u16,
    to: u16,
) -> Result<(), Memory>
    ensures { Puts result out.old out.new (shown.shown_edge (bytes_of lines.now) blocks.now from to) }
{
    put_block(out, lines, blocks, from)?;
    if from == to {
        Ok(())
    } else {
        put_block(out, lines, blocks, to)
    }
}

/// The lines of blocks of these numbers, from 1, in this order, behind what there is.
pub(crate) fn put_blocks(out: &mut Vec<u8>, text: &Text<'_>, numbers: &[u16]) -> Result<(), Memory>
    ensures { Puts result out.old out.new (shown.blocks_in text.now numbers.now) }
{
    for number in numbers {
        put_block(out, text.lines, text.blocks, *number)?;
    }
    Ok(())
}

/// The lines that a refusal at a place is about, behind what there is.
pub(crate) fn put_lines_of(
    out: &mut Vec<u8>,
    lines: &[&[u8]],
    sources: &Sources,
    place: Place,
) -> Result<(), Memory>
    ensures { Puts result out.old out.new (shown_lines (bytes_of lines.now) (sites_told sources.now) place) }
{
    match place {
        Place::Line(number) => put_line(out, lines, number),
        Place::Block(number) => put_block(out, lines, &sources.blocks, number),
        Place::Edge(from, to) => put_edge(out, lines, &sources.blocks, from, to),
        Place::Entity(number) | Place::Chain(number) => put_line_at(
            out,
            lines,
            &sources.entities,
            number as usize,
        ),
        Place::Code(procedure, _) => put_line_at(
            out,
            lines,
            &sources.procedures,
            procedure as usize,
        ),
        Place::Byte(_) | Place::Row(_) | Place::Nowhere => Ok(()),
    }
}
