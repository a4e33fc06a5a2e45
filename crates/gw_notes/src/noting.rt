//! The notes on a model.

ghost use Rattle.std.specs.Prelude.{◌≡◌, ◌≤◌, ◌<◌, ◌+◌, true, map, All, Contains, IfOk, IfSome, OnOk};
ghost use Rattle.std.specs.Char.{is_ascii_digit};
ghost use Rattle.std.specs.List.{list_all};
ghost use Rattle.gw_num.specs.Numerals as numerals;
ghost use Rattle.gw_notes.specs.Drawing as drawing;
ghost use Rattle.gw_notes.specs.Notes as model;
ghost use Rattle.gw_notes.specs.Notes.{Holds, HoldsUnits};

use crate::drawing::draws;
use crate::queues::{nothing_counts, only_grows};
use gw_object::{Block, Kind, Memory, Parts, Units};
use std::alloc::Global;

/// Something that is noted of a model.
#[derive(Clone, Copy, PartialEq, Eq)]
pub enum Note {
    /// It draws from two streams, by their numbers from 1, and no seeds are given: their own seeds lie so close that what is drawn
    /// from the one is like what is drawn from the other.
    OwnSeeds(u8, u8),
    /// It draws from a stream other than the first, which is given by its number: the one seed with which an object is run doesn't
    /// reach that.
    OtherStream(u8),
    /// The name of an entity, which is given by its number from 0, reads as an attribute.
    ReadsAsAttribute(u16),
    /// No block lets the termination count fall.
    NothingCounts,
    /// Who comes to a TERMINATE, which is given by its number from 1, holds units of an entity, which is given by its number from 0.
    HoldsAtEnd(u16, u16),
    /// A queue, which is given by its entity's number from 0, is joined, and nobody departs from it.
    OnlyGrows(u16),
}

/// Whether all of these bytes are digits.
fn are_digits(bytes: &[u8]) -> bool
    ensures { result ≡ list_all is_ascii_digit bytes.now }
{
    bytes.iter().all(|byte| byte.is_ascii_digit())
}

/// Whether these are the digits of a number.
fn is_number(bytes: &[u8]) -> bool
    ensures { result ≡ numerals.is_number bytes.now }
{
    !bytes.is_empty() && are_digits(bytes)
}

/// Whether a name is a class of attributes and a number.
fn is_numbered(name: &[u8], class: &[u8]) -> bool
    ensures { result ≡ model.is_numbered name.now class.now }
{
    name.starts_with(class) && is_number(&name[class.len()..])
}

/// Whether a name reads as an attribute: a parameter, a savevalue, a variable, a function or a random number.
#[tactic(auto, unfolding(crate::specs::Notes::reads_as_attribute))]
fn reads_as_attribute(name: &[u8]) -> bool
    ensures { result ≡ model.reads_as_attribute name.now }
{
    is_numbered(name, b"P")
        || is_numbered(name, b"X")
        || is_numbered(name, b"V")
        || is_numbered(name, b"FN")
        || is_numbered(name, b"RN")
}

/// The first stream from one on, by their numbers from 1, from which a model draws, if there is one.
fn stream_drawn(parts: &Parts, first: u8) -> Option<u8>
    ensures { IfSome result (λ stream.
        (first ≤ stream) × (drawing.draws parts.now stream ≡ true)) }
{
    for stream in first..17 {
        if draws(parts, stream) {
            return Some(stream);
        }
    }
    None
}

/// Two streams by whose own seeds a model draws, if it has no others. The first behind stream 1 from which it draws is given.
fn own_seeds(parts: &Parts, other: Option<u8>) -> Option<Note>
    requires { IfSome other (λ stream. (2 ≤ stream) × (drawing.draws parts.now stream ≡ true)) }
    ensures { IfSome result (Holds parts.now) }
{
    if !parts.seeds.as_slice().is_empty() {
        return None;
    }
    let other = other?;
    if draws(parts, 1) {
        return Some(Note::OwnSeeds(1, other));
    }
    let second = stream_drawn(parts, other.saturating_add(1))?;
    Some(Note::OwnSeeds(other, second))
}

/// The note on a stream behind the first from which a model draws, if there is one.
fn other_stream(parts: &Parts, other: Option<u8>) -> Option<Note>
    requires { IfSome other (λ stream. (2 ≤ stream) × (drawing.draws parts.now stream ≡ true)) }
    ensures { IfSome result (Holds parts.now) }
{
    let stream = other?;
    Some(Note::OtherStream(stream))
}

/// Whether an entity, by its number from 0, is a queue.
fn is_queue(parts: &Parts, number: u16) -> bool {
    match parts.entities.as_slice().get(number as usize) {
        Some(entity) => matches!(entity.kind, Kind::Queue),
        None => false,
    }
}

/// Whether the name of an entity reads as an attribute.
fn name_noted(parts: &Parts, number: u16) -> Option<Note>
    ensures { IfSome result (Holds parts.now) }
{
    let entity = parts.entities.as_slice().get(number as usize)?;
    if reads_as_attribute(entity.name.as_slice()) {
        Some(Note::ReadsAsAttribute(number))
    } else {
        None
    }
}

/// Whether an entity is a queue that only grows.
fn growth_noted(parts: &Parts, number: u16) -> Option<Note>
    ensures { IfSome result (Holds parts.now) }
{
    if is_queue(parts, number) && only_grows(parts, number) {
        Some(Note::OnlyGrows(number))
    } else {
        None
    }
}

/// Whether there are blocks and none lets the termination count fall.
fn count_noted(parts: &Parts) -> Option<Note>
    ensures { IfSome result (Holds parts.now) }
{
    if !parts.blocks.as_slice().is_empty() && nothing_counts(parts) {
        Some(Note::NothingCounts)
    } else {
        None
    }
}

/// The entity of the first of these units, if there are any.
fn first_entity(units: &[Units]) -> Option<u16>
    ensures { IfSome result (λ e. Contains (map (λ u. u.entity) units.now) e) }
{
    match units {
        [first, ..] => Some(first.entity),
        [] => None,
    }
}

/// The first units that who comes to a block holds, by its place from 0, if that is a TERMINATE.
fn unit_held(parts: &Parts, place: usize) -> Option<u16>
    ensures { IfSome result (HoldsUnits parts.now place) }
{
    match (
        parts.blocks.as_slice().get(place),
        parts.states.as_slice().get(place),
    ) {
        (Some(Block::Terminate(_)), Some(Some(row))) => first_entity(row.units.as_slice()),
        _ => None,
    }
}

/// Whether who comes to a block, by its place from 0, holds units at a TERMINATE.
fn holding_noted(parts: &Parts, place: usize) -> Option<Note>
    requires { place < 4096 }
    ensures { IfSome result (Holds parts.now) }
{
    let entity = unit_held(parts, place)?;
    Some(Note::HoldsAtEnd(place as u16 + 1, entity))
}

/// Adds a note, if there is one.
fn add(parts: &Parts, notes: &mut Vec<Note>, note: Option<Note>) -> Result<(), Memory>
    requires note { IfSome note (Holds parts.now) }
    requires notes { All (Holds parts.now) notes.old.items }
    ensures { OnOk result (All (Holds parts.now) notes.new.items) }
{
    if let Some(note) = note {
        notes.push(note)?;
    }
    Ok(())
}

/// The notes on a model: each says what is so. `Err` where memory runs out.
pub fn notes(alloc: Global, parts: &Parts) -> Result<Vec<Note>, Memory>
    ensures { IfOk result (λ notes. All (Holds parts.now) notes.items) }
{
    let mut notes = Vec::new(alloc);
    let other = stream_drawn(parts, 2);
    add(parts, &mut notes, own_seeds(parts, other))?;
    add(parts, &mut notes, other_stream(parts, other))?;
    add(parts, &mut notes, count_noted(parts))?;
    for number in 0..1024 {
        add(parts, &mut notes, name_noted(parts, number))?;
    }
    for number in 0..1024 {
        add(parts, &mut notes, growth_noted(parts, number))?;
    }
    for place in 0..4096 {
        add(parts, &mut notes, holding_noted(parts, place))?;
    }
    Ok(notes)
}
