//! Entities, in bytes and against the rules of the object format.

ghost use Rattle.std.specs.Prelude.{◌≡◌, ◌↔◌, IsTrue};
ghost use Rattle.std.specs.List.{All, AllPairs, list_any};
ghost use Rattle.gw_fields.specs.Fields.{plain};
ghost use Rattle.gw_object.specs.Entities.{is_letter, letter, IsLettered, EntityFits, EntityAscends, AreNamesakes, is_named, new_name, entity};
ghost use Rattle.gw_fields.specs.Answers.{Gives};

use crate::ObjectFormat;
use crate::kinds::{kind_ascends, kind_fits, put_fields, tag_of};
use gw_field_bytes::{
    Elements, Front, Put, Reading, Receiver, Spelled, put_listed, read_listed, read_ranged_u32,
};
use gw_fields::{Items, ReadError, fault};
use gw_object::codes::{NOT_CANONICAL, TAG};
use gw_object::{Entity, Function, GREATEST_CAPACITY, Kind, MOST_LETTERS, Table};
use std::alloc::Global;

/// Whether a byte is a letter of a name: `A` to `Z`, `0` to `9` or `_`.
fn is_letter_of_name(byte: u8) -> bool
    ensures { result ≡ is_letter byte }
{
    byte.is_ascii_uppercase() || byte.is_ascii_digit() || byte == b'_'
}

/// Whether an entity is of the kind of this byte and has this name.
fn has_name(entity: &Entity, tag: u8, name: &[u8]) -> bool
    ensures { result ≡ is_named tag name.now entity.now }
{
    tag_of(&entity.kind) == tag && entity.name.as_slice() == name
}

/// Whether one of these entities is of the kind of this byte and has this name.
fn has_namesake(entities: &[Entity], tag: u8, name: &[u8]) -> bool
    ensures { result ≡ list_any (is_named tag name.now) entities.now }
{
    entities.iter().any(|entity| has_name(entity, tag, name))
}

/// The letters of a name.
struct Letters;

impl Elements for Letters {
    type Item = u8;

    ghost reading = { (plain letter).read };

    fn read<'a>(alloc: Global, _: Front<Self>, _: usize, bytes: &'a [u8]) -> Reading<'a, Self> {
        let (letter, rest) = u8::read(alloc, bytes)?;
        if !is_letter_of_name(letter) {
            return Err(fault(TAG, bytes));
        }
        Ok((letter, rest))
    }
}

/// A name that no entity of the kind of this byte has at the front.
fn read_new_name<'a>(
    alloc: Global,
    front: &[Entity],
    tag: u8,
    bytes: &'a [u8],
) -> Result<(Items<u8>, &'a [u8]), ReadError>
    ensures { Gives (λ x. (x.0, x.1.now)) result ((new_name front.now tag).read bytes.now) }
{
    let (name, rest) = read_listed::<Letters>(alloc, bytes, 1, MOST_LETTERS)?;
    if has_namesake(front, tag, &name) {
        return Err(fault(NOT_CANONICAL, bytes));
    }
    Ok((Items::from_vec(name), rest))
}

impl Put<ObjectFormat> for Entity {
    ghost spelling = { entity.spell };

    #[tactic(auto, using(gw_field_bytes::proofs::Receiving::joining))]
    fn put_into<R: Receiver>(&self, to: &mut R) -> Result<(), R::Refusal> {
        tag_of(&self.kind).put(to)?;
        put_listed(to, self.name.as_slice())?;
        put_fields(to, &self.kind)
    }
}

/// The entities; no two of a kind have one name.
pub struct Entities;

impl Elements for Entities {
    type Item = Entity;

    ghost reading = { entity.read };

    #[tactic(auto, unfolding(gw_object::specs::Entities::entity_read))]
    fn read<'a>(alloc: Global, front: Front<Self>, _: usize, bytes: &'a [u8]) -> Reading<'a, Self> {
        let (tag, rest) = u8::read(alloc, bytes)?;
        match tag {
            1 => {
                let (name, rest) = read_new_name(alloc, front, tag, rest)?;
                let kind = Kind::Facility;
                Ok((Entity { name, kind }, rest))
            }
            2 => {
                let (name, rest) = read_new_name(alloc, front, tag, rest)?;
                let (capacity, rest) = read_ranged_u32(alloc, rest, 1, GREATEST_CAPACITY)?;
                let kind = Kind::Storage(capacity);
                Ok((Entity { name, kind }, rest))
            }
            3 => {
                let (name, rest) = read_new_name(alloc, front, tag, rest)?;
                let kind = Kind::Queue;
                Ok((Entity { name, kind }, rest))
            }
            4 => {
                let (name, rest) = read_new_name(alloc, front, tag, rest)?;
                let (set, rest) = bool::read(alloc, rest)?;
                let kind = Kind::Switch(set);
                Ok((Entity { name, kind }, rest))
            }
            5 => {
                let (name, rest) = read_new_name(alloc, front, tag, rest)?;
                let (value, rest) = i64::read(alloc, rest)?;
                let kind = Kind::Savevalue(value);
                Ok((Entity { name, kind }, rest))
            }
            6 => {
                let (name, rest) = read_new_name(alloc, front, tag, rest)?;
                let (table, rest) = Table::read(alloc, rest)?;
                let kind = Kind::Table(table);
                Ok((Entity { name, kind }, rest))
            }
            7 => {
                let (name, rest) = read_new_name(alloc, front, tag, rest)?;
                let kind = Kind::Chain;
                Ok((Entity { name, kind }, rest))
            }
            8 => {
                let (name, rest) = read_new_name(alloc, front, tag, rest)?;
                let (procedure, rest) = u16::read(alloc, rest)?;
                let kind = Kind::Variable(procedure);
                Ok((Entity { name, kind }, rest))
            }
            9 => {
                let (name, rest) = read_new_name(alloc, front, tag, rest)?;
                let (procedure, rest) = u16::read(alloc, rest)?;
                let kind = Kind::BooleanVariable(procedure);
                Ok((Entity { name, kind }, rest))
            }
            10 => {
                let (name, rest) = read_new_name(alloc, front, tag, rest)?;
                let (function, rest) = Function::read(alloc, rest)?;
                let kind = Kind::Function(function);
                Ok((Entity { name, kind }, rest))
            }
            _ => Err(fault(TAG, bytes)),
        }
    }
}

/// Whether each byte of the entity's name is a letter of a name.
fn is_lettered(entity: &Entity) -> bool
    ensures { IsTrue result ↔ IsLettered entity.now }
{
    entity
        .name
        .as_slice()
        .iter()
        .all(|letter| is_letter_of_name(*letter))
}

/// Whether each byte of each name is a letter of a name.
pub fn are_lettered(entities: &[Entity]) -> bool
    ensures { IsTrue result ↔ All IsLettered entities.now }
{
    entities.iter().all(is_lettered)
}

/// Whether an entity keeps its limits.
fn entity_fits(entity: &Entity) -> bool
    ensures { IsTrue result ↔ EntityFits entity.now }
{
    let length = entity.name.as_slice().len();
    1 <= length && length <= MOST_LETTERS && kind_fits(&entity.kind)
}

/// Whether each entity keeps its limits.
pub fn entities_fit(entities: &[Entity]) -> bool
    ensures { IsTrue result ↔ All EntityFits entities.now }
{
    entities.iter().all(entity_fits)
}

/// Whether no two entities of a kind have one name.
pub fn names_are_own(entities: &[Entity]) -> bool
    ensures { IsTrue result ↔ AllPairs (λ a b. ¬ AreNamesakes a b) entities.now }
{
    for (number, entity) in entities.iter().enumerate() {
        let tag = tag_of(&entity.kind);
        if has_namesake(&entities[..number], tag, entity.name.as_slice()) {
            return false;
        }
    }
    true
}

/// Whether the points of an entity ascend, if it is a function.
fn entity_ascends(entity: &Entity) -> bool
    ensures { IsTrue result ↔ EntityAscends entity.now }
{
    kind_ascends(&entity.kind)
}

/// Whether the points of each function ascend.
pub fn entities_ascend(entities: &[Entity]) -> bool
    ensures { IsTrue result ↔ All EntityAscends entities.now }
{
    entities.iter().all(entity_ascends)
}
