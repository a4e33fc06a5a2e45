//! What a model or an object that is accepted has, in words.

use crate::notes::put_notes;
use gw_object::{Entity, Kind, Memory, Parts};
use gw_rules::Verified;
use gw_source_lines::{Sources, sources};
use gw_text::Model;
use gw_writing::{put, put_number};
use std::alloc::Global;

/// A kind of entities.
#[derive(Clone, Copy, PartialEq, Eq)]
enum Group {
    Facilities,
    Storages,
    Queues,
    Switches,
    Savevalues,
    Tables,
    Chains,
    Variables,
    BooleanVariables,
    Functions,
}

/// All kinds, in the order in which they are told.
const GROUPS: [Group; 10] = [
    Group::Facilities,
    Group::Storages,
    Group::Queues,
    Group::Switches,
    Group::Savevalues,
    Group::Tables,
    Group::Chains,
    Group::Variables,
    Group::BooleanVariables,
    Group::Functions,
];

impl Group {
    /// The kind of an entity.
    fn of(kind: &Kind) -> Group {
        match kind {
            Kind::Facility => Group::Facilities,
            Kind::Storage(_) => Group::Storages,
            Kind::Queue => Group::Queues,
            Kind::Switch(_) => Group::Switches,
            Kind::Savevalue(_) => Group::Savevalues,
            Kind::Table(_) => Group::Tables,
            Kind::Chain => Group::Chains,
            Kind::Variable(_) => Group::Variables,
            Kind::BooleanVariable(_) => Group::BooleanVariables,
            Kind::Function(_) => Group::Functions,
        }
    }

    /// What the entities of a kind are called.
    fn title(self) -> &'static str {
        match self {
            Group::Facilities => "facilities: ",
            Group::Storages => "storages: ",
            Group::Queues => "queues: ",
            Group::Switches => "logic switches: ",
            Group::Savevalues => "savevalues: ",
            Group::Tables => "tables: ",
            Group::Chains => "user chains: ",
            Group::Variables => "variables: ",
            Group::BooleanVariables => "boolean variables: ",
            Group::Functions => "functions: ",
        }
    }
}

/// A title, and how many there are.
fn put_count(out: &mut Vec<u8>, title: &str, count: usize) -> Result<(), Memory> {
    put(out, title)?;
    if count == 0 {
        put(out, "none")
    } else {
        put_number(out, "", count)
    }
}

/// On which lines what has these begins and ends, where there are lines.
fn put_span(out: &mut Vec<u8>, lines: &[u32]) -> Result<(), Memory> {
    match lines {
        [] => Ok(()),
        [only] => put_number(out, ", on line ", *only),
        [first, .., last] => {
            put_number(out, ", on lines ", *first)?;
            put_number(out, " to ", *last)
        }
    }
}

/// How many blocks there are, and on which lines they begin and end.
fn put_blocks(out: &mut Vec<u8>, count: usize, lines: &[u32]) -> Result<(), Memory> {
    put_count(out, "blocks: ", count)?;
    put_span(out, lines)?;
    put(out, "\n")
}

/// The name of an entity, and its line, where it has one.
fn put_entity(out: &mut Vec<u8>, entity: &Entity, line: Option<&u32>) -> Result<(), Memory> {
    out.extend_from_slice(entity.name.as_slice())?;
    match line {
        Some(line) => {
            put_number(out, " (line ", *line)?;
            put(out, ")")
        }
        None => Ok(()),
    }
}

/// The entities of a kind, if there are some.
fn put_group(
    out: &mut Vec<u8>,
    entities: &[Entity],
    lines: &[u32],
    group: Group,
) -> Result<(), Memory> {
    let mut before = group.title();
    for i in 0..entities.len() {
        if Group::of(&entities[i].kind) == group {
            put(out, before)?;
            put_entity(out, &entities[i], lines.get(i))?;
            before = ", ";
        }
    }
    if before == ", " {
        put(out, "\n")
    } else {
        Ok(())
    }
}

/// The entities of each kind.
fn put_entities(out: &mut Vec<u8>, entities: &[Entity], lines: &[u32]) -> Result<(), Memory> {
    for group in GROUPS {
        put_group(out, entities, lines, group)?;
    }
    Ok(())
}

/// Numbers after a title, with a comma between two.
fn put_numbers(out: &mut Vec<u8>, title: &str, numbers: &[u32]) -> Result<(), Memory> {
    put(out, title)?;
    for i in 0..numbers.len() {
        if i > 0 {
            put(out, ", ")?;
        }
        put_number(out, "", numbers[i])?;
    }
    put(out, "\n")
}

/// How many procedures there are, and on which lines what they are made of begins.
fn put_procedures(out: &mut Vec<u8>, count: usize, lines: &[u32]) -> Result<(), Memory> {
    put_count(out, "procedures: ", count)?;
    if lines.is_empty() {
        put(out, "\n")
    } else {
        put_numbers(out, ", from lines ", lines)
    }
}

/// With which count and seeds a run begins.
fn put_start(out: &mut Vec<u8>, count: u64, seeds: &[u32]) -> Result<(), Memory> {
    put_number(out, "start: termination count ", count)?;
    if seeds.is_empty() {
        put(out, ", each stream's own seed\n")
    } else {
        put_numbers(out, ", seeds ", seeds)
    }
}

/// What an object has: its blocks, its entities by kind, its procedures, with the lines of the text that it comes from, how a run
/// begins, and what is noted of it.
fn summary_of(alloc: Global, parts: &Parts, sources: &Sources) -> Result<Vec<u8>, Memory> {
    let mut out = Vec::new(alloc);
    put_blocks(&mut out, parts.blocks.as_slice().len(), &sources.blocks)?;
    put_entities(&mut out, parts.entities.as_slice(), &sources.entities)?;
    put_procedures(
        &mut out,
        parts.procedures.as_slice().len(),
        &sources.procedures,
    )?;
    put_start(&mut out, parts.count, parts.seeds.as_slice())?;
    put_notes(alloc, &mut out, parts, sources)?;
    Ok(out)
}

/// What a model that is accepted has, with lines of its text.
pub(crate) fn model_summary(
    alloc: Global,
    model: &Model,
    verified: &Verified,
) -> Result<Vec<u8>, Memory> {
    let sources = sources(alloc, model)?;
    summary_of(alloc, verified.object().parts(), &sources)
}

/// What an object that is accepted has.
pub(crate) fn object_summary(alloc: Global, verified: &Verified) -> Result<Vec<u8>, Memory> {
    let parts = verified.object().parts();
    summary_of(alloc, parts, &Sources::none(alloc))
}
