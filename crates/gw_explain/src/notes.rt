//! What is noted of a model that is accepted, in words.

use crate::known::put_name;
use gw_answers::is_object;
use gw_notes::{Note, notes};
use gw_object::{Entity, Kind, Memory, Parts};
use gw_source_lines::{Sources, sources};
use gw_text::parse;
use gw_writing::{put, put_number};
use std::alloc::Global;

/// What an entity is called, by its kind.
fn kind_word(kind: &Kind) -> &'static str {
    match kind {
        Kind::Facility => "facility ",
        Kind::Storage(_) => "storage ",
        Kind::Queue => "queue ",
        Kind::Switch(_) => "logic switch ",
        Kind::Savevalue(_) => "savevalue ",
        Kind::Table(_) => "table ",
        Kind::Chain => "user chain ",
        Kind::Variable(_) => "variable ",
        Kind::BooleanVariable(_) => "boolean variable ",
        Kind::Function(_) => "function ",
    }
}

/// An entity, by its number, with its kind.
fn put_entity(out: &mut Vec<u8>, entities: &[Entity], number: u16) -> Result<(), Memory> {
    if let Some(entity) = entities.get(number as usize) {
        put(out, kind_word(&entity.kind))?;
    }
    put_name(out, entities, number)
}

/// A block, by its number, with its line, where it has one.
fn put_block(out: &mut Vec<u8>, lines: &[u32], number: u16) -> Result<(), Memory> {
    put_number(out, "block ", number)?;
    if number == 0 {
        return Ok(());
    }
    match lines.get(number as usize - 1) {
        Some(line) => {
            put_number(out, " (line ", *line)?;
            put(out, ")")
        }
        None => Ok(()),
    }
}

/// A note, in a line.
fn put_note(
    out: &mut Vec<u8>,
    entities: &[Entity],
    lines: &[u32],
    note: Note,
) -> Result<(), Memory> {
    put(out, "note: ")?;
    match note {
        Note::OwnSeeds(first, second) => {
            put_number(out, "random numbers come from stream ", first)?;
            put_number(out, " and stream ", second)?;
            put(
                out,
                " by their own seeds, and what the one draws is like what the other draws: give RMULT large seeds, as RMULT 748932582,1985072130 (planner study has seeds of its own)\n",
            )
        }
        Note::OtherStream(stream) => {
            put_number(out, "random numbers come from stream ", stream)?;
            put(
                out,
                ", and gpssw run SEED sets stream 1 alone, so this one draws the same with each SEED: make many runs by planner study, runs or shard, or the object of one by planner object RUN\n",
            )
        }
        Note::ReadsAsAttribute(entity) => {
            put_entity(out, entities, entity)?;
            put(
                out,
                " has a name that reads as an attribute: it is one entity of that name, and not that whose number the attribute has\n",
            )
        }
        Note::NothingCounts => put(
            out,
            "no TERMINATE counts, so the run goes on until its budget of steps is used up: let the block that ends what is to be counted be TERMINATE 1\n",
        ),
        Note::HoldsAtEnd(block, entity) => {
            put(out, "who comes to ")?;
            put_block(out, lines, block)?;
            put(out, " ends there with units of ")?;
            put_entity(out, entities, entity)?;
            put(
                out,
                ", which are never given back: LEAVE or DEPART before\n",
            )
        }
        Note::OnlyGrows(entity) => {
            put_entity(out, entities, entity)?;
            put(out, " only grows: nobody departs from it\n")
        }
    }
}

/// The notes on what an object has, each in a line, behind what there is.
pub(crate) fn put_notes(
    alloc: Global,
    out: &mut Vec<u8>,
    parts: &Parts,
    sources: &Sources,
) -> Result<(), Memory> {
    let notes = notes(alloc, parts)?;
    for note in &notes {
        put_note(out, parts.entities.as_slice(), &sources.blocks, *note)?;
    }
    Ok(())
}

/// Whether a note is on a model of which a study is made, too: there each run has seeds for all streams.
fn is_on_study(note: Note) -> bool {
    !matches!(note, Note::OtherStream(_))
}

/// What is noted of an object of which a study is made.
fn noted_on_study(alloc: Global, parts: &Parts) -> Result<Vec<Note>, Memory> {
    let mut noted = Vec::new(alloc);
    let all = notes(alloc, parts)?;
    for note in &all {
        if is_on_study(*note) {
            noted.push(*note)?;
        }
    }
    Ok(noted)
}

/// These notes on an object, with the lines of its blocks, where it has such, each in a line.
fn lines_of_notes(
    alloc: Global,
    parts: &Parts,
    noted: &[Note],
    sources: &Sources,
) -> Result<Vec<u8>, Memory> {
    let mut out = Vec::new(alloc);
    for note in noted {
        put_note(&mut out, parts.entities.as_slice(), &sources.blocks, *note)?;
    }
    Ok(out)
}

/// The lines of a model's parts; none where it is an object.
fn sources_of(alloc: Global, model: &[u8]) -> Result<Sources, Memory> {
    if is_object(model) {
        return Ok(Sources::none(alloc));
    }
    match parse(alloc, model) {
        Ok(model) => {
            let sources = sources(alloc, &model);
            drop(model);
            sources
        }
        Err(_) => Ok(Sources::none(alloc)),
    }
}

/// The notes on a study of a model, a text or an object, of which these are the parts, each in a line, as they stand in its
/// explanation; that one seed doesn't reach all streams isn't noted. `Err` where memory runs out.
pub fn notes_on(alloc: Global, model: &[u8], parts: &Parts) -> Result<Vec<u8>, Memory> {
    let noted = noted_on_study(alloc, parts)?;
    if noted.is_empty() {
        return Ok(Vec::new(alloc));
    }
    let sources = sources_of(alloc, model)?;
    lines_of_notes(alloc, parts, &noted, &sources)
}
