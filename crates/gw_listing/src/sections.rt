//! The parts of an object that have a line each.

ghost use Rattle.std.specs.Prelude.{◌≡◌, ◌<◌};
ghost use Rattle.gw_writing.specs.Text.{Puts};
ghost use Rattle.gw_listing.specs.Lines.{PutsLines};
ghost use Rattle.gw_listing.specs.Sections.{section_length, section_front, section_opening, section_openings};

use crate::blocks::put_block;
use crate::code::put_instruction;
use crate::entities::{put_entity, put_return_row, put_state};
use crate::text::{end_line, put_slope_at, put_told};
use gw_object::{Instruction, Memory, Parts};
use gw_writing::{put, put_number};
use std::alloc::Global;

/// Parts of one kind, each with a line of the listing.
#[derive(Clone, Copy)]
pub(crate) enum Section<'a> {
    /// The blocks, with the lines of the text where they stand.
    Blocks(&'a [u32]),
    /// The entities, with the lines of the text where they stand.
    Entities(&'a [u32]),
    /// The user chains.
    Chains,
    /// The instructions of a procedure.
    Instructions(&'a [Instruction]),
    /// The return rows.
    Returns,
}

impl Section<'_> {
    /// How many parts there are.
    fn count(&self, parts: &Parts) -> usize
        ensures { result ≡ section_length parts.now self.now }
    {
        match *self {
            Section::Blocks(_) => parts.blocks.as_slice().len(),
            Section::Entities(_) => parts.entities.as_slice().len(),
            Section::Chains => parts.chain_weights.as_slice().len(),
            Section::Instructions(code) => code.len(),
            Section::Returns => parts.returns.as_slice().len(),
        }
    }

    /// What the line of a part begins with, by its place from 0: its number, and its line, its weight and the slope of that, if it
    /// has them.
    fn put_front(&self, out: &mut Vec<u8>, parts: &Parts, place: usize) -> Result<(), Memory>
        requires { place < usize.MAX }
        ensures { Puts result out.old out.new (section_front parts.now self.now place) }
    {
        let weights = parts.weights.as_slice();
        let chain_weights = parts.chain_weights.as_slice();
        match *self {
            Section::Blocks(lines) => {
                put_number(out, "BLOCK ", place + 1)?;
                put_told(out, " line ", lines, place)?;
                put_told(out, " weight ", weights, place)?;
                put_slope_at(out, parts.slopes.as_slice(), place)?;
                put(out, " ")
            }
            Section::Entities(lines) => {
                put_number(out, "ENTITY ", place)?;
                put_told(out, " line ", lines, place)?;
                put(out, " ")
            }
            Section::Chains => {
                put_number(out, "CHAIN ", place)?;
                put_told(out, " weight ", chain_weights, place)?;
                put(out, " ;")
            }
            Section::Instructions(_) => {
                put_number(out, "    ", place)?;
                put(out, " ")
            }
            Section::Returns => {
                put_number(out, "RETURN ", place)?;
                put(out, " blocks")
            }
        }
    }

    /// What a part is, and what is known of who comes there.
    fn put_words(&self, words: &mut Vec<u8>, parts: &Parts, place: usize) -> Result<(), Memory> {
        let entities = parts.entities.as_slice();
        match *self {
            Section::Blocks(_) => put_block_words(words, parts, place),
            Section::Entities(_) => match entities.get(place) {
                Some(entity) => put_entity(words, entities, entity),
                None => Ok(()),
            },
            Section::Chains => {
                put_state(words, entities, parts.chain_states.as_slice().get(place))
            }
            Section::Instructions(code) => match code.get(place) {
                Some(instruction) => put_instruction(words, entities, *instruction),
                None => Ok(()),
            },
            Section::Returns => match parts.returns.as_slice().get(place) {
                Some(row) => put_return_row(words, row),
                None => Ok(()),
            },
        }
    }
}

/// What a block does, and what is known of who comes there.
fn put_block_words(words: &mut Vec<u8>, parts: &Parts, place: usize) -> Result<(), Memory> {
    let entities = parts.entities.as_slice();
    if let Some(block) = parts.blocks.as_slice().get(place) {
        put_block(words, entities, block)?;
    }
    put(words, " ;")?;
    put_state(words, entities, parts.states.as_slice().get(place))
}

/// The words of a part.
fn words_of(
    alloc: Global,
    parts: &Parts,
    section: &Section<'_>,
    place: usize,
) -> Result<Vec<u8>, Memory> {
    let mut words = Vec::new(alloc);
    section.put_words(&mut words, parts, place)?;
    Ok(words)
}

/// The line of a part, by its place from 0.
#[tactic(auto, using(crate::proofs::Adding::fronted))]
fn put_line(
    alloc: Global,
    out: &mut Vec<u8>,
    parts: &Parts,
    section: &Section<'_>,
    place: usize,
) -> Result<(), Memory>
    requires { place < usize.MAX }
    ensures { PutsLines result out.old out.new (section_opening parts.now section.now place) }
{
    let words = words_of(alloc, parts, section, place)?;
    section.put_front(out, parts, place)?;
    end_line(alloc, out, &words)
}

/// A line for each part: its number, its line and its weight, if it has them, and what it is.
#[tactic(auto, using(crate::proofs::Adding::begun, crate::proofs::Adding::one_more))]
pub(crate) fn put_section(
    alloc: Global,
    out: &mut Vec<u8>,
    parts: &Parts,
    section: &Section<'_>,
) -> Result<(), Memory>
    ensures { PutsLines result out.old out.new (section_openings parts.now section.now) }
{
    for i in 0..section.count(parts) {
        put_line(alloc, out, parts, section, i)?;
    }
    Ok(())
}
