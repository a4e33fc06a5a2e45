//! Lines, from 1.

ghost use Rattle.std.specs.Prelude.{◌≡◌, ◌++◌, ◌∷◌, [], map, slice_get, OnOk, IfOk, string_bytes};
ghost use Rattle.gw_name_uses.specs.Mentions.{mention};
ghost use Rattle.gw_name_uses.specs.Sites.{mention_at, mentioned_in};
ghost use Rattle.gw_names.specs.Known as known;
ghost use Rattle.gw_names.specs.Naming.{Knows};
ghost use Rattle.gw_names.specs.Sights.{entity_in};
ghost use Rattle.gw_names.specs.Sighting.{key_of};
ghost use Rattle.gw_pieces.specs.Reasons as origin;
ghost use Rattle.gw_source_lines.specs.Lines as model;

use crate::places::Sources;
use gw_name_uses::{Site, uses_in};
use gw_names::{Known, Ledger, Sighted, Use, known_names};
use gw_object::Memory;
use gw_pieces::procedure_lines;
use gw_rules::EntityKind;
use gw_text::{Model, Statement};
use std::alloc::Global;

/// A line, behind others.
fn put(lines: &mut Vec<u32>, line: u32) -> Result<(), Memory>
    ensures { OnOk result (lines.new.items ≡ lines.old.items ++ line ∷ []) }
{
    lines.push(line).map_err(|_| Memory)
}

/// The line of a statement, if it is a block, behind others.
fn put_block(lines: &mut Vec<u32>, statement: &Statement) -> Result<(), Memory>
    ensures { OnOk result (lines.new.items ≡ lines.old.items ++ model.block_line statement.now) }
{
    if statement.word.is_block() {
        put(lines, statement.line)
    } else {
        Ok(())
    }
}

/// The lines of the blocks, in order.
fn block_lines(alloc: Global, statements: &[Statement]) -> Result<Vec<u32>, Memory>
    ensures { IfOk result (λ lines. lines.items ≡ model.block_lines statements.now) }
{
    let mut lines = Vec::new(alloc);
    for i in 0..statements.len() {
        put_block(&mut lines, &statements[i])?;
    }
    Ok(lines)
}

/// Whether both are one kind of entities.
fn is_same_kind(one: EntityKind, other: EntityKind) -> bool
    ensures { result ≡ known.is_same_kind one other }
{
    match one {
        EntityKind::Facility => matches!(other, EntityKind::Facility),
        EntityKind::Storage => matches!(other, EntityKind::Storage),
        EntityKind::Queue => matches!(other, EntityKind::Queue),
        EntityKind::Switch => matches!(other, EntityKind::Switch),
        EntityKind::Savevalue => matches!(other, EntityKind::Savevalue),
        EntityKind::Table => matches!(other, EntityKind::Table),
        EntityKind::Chain => matches!(other, EntityKind::Chain),
        EntityKind::Variable => matches!(other, EntityKind::Variable),
        EntityKind::BooleanVariable => matches!(other, EntityKind::BooleanVariable),
        EntityKind::Function => matches!(other, EntityKind::Function),
        EntityKind::StorageOrQueue => false,
    }
}

/// Whether an entity is of this kind and name.
fn is_same(entity: &Sighted, kind: EntityKind, name: &String) -> bool
    ensures { result ≡ known.is_same (key_of entity.now) (known.key kind (string_bytes name.now)) }
{
    is_same_kind(entity.kind, kind) && entity.name.as_bytes() == name.as_bytes()
}

/// Whether what is used is an entity, and this one.
fn is_entity(entity: &Sighted, used: Use<'_>) -> bool
    ensures { result ≡ model.is_entity (key_of entity.now) (entity_in (mention used.entry)) }
{
    match used {
        Use::Entity(kind, name) => is_same(entity, kind, name),
        _ => false,
    }
}

/// The line of the first mention of an entity, or 0.
fn first_line(sites: &[Site<'_>], entity: &Sighted) -> u32
    ensures { result ≡ model.first_line (key_of entity.now) (map mention_at sites.now) }
{
    for i in 0..sites.len() {
        let site = sites[i];
        if is_entity(entity, site.used) {
            return site.line;
        }
    }
    0
}

/// The line of the statement of a number, from 0; 0 where there is none.
fn line_of(statements: &[Statement], number: usize) -> u32
    ensures { result ≡ origin.line_of (slice_get statements.now number) }
{
    match statements.get(number) {
        Some(statement) => statement.line,
        None => 0,
    }
}

/// The line of an entity.
fn entity_line(statements: &[Statement], sites: &[Site<'_>], entity: &Sighted) -> u32
    requires { map mention_at sites.now ≡ mentioned_in statements.now }
    ensures { result ≡ model.line_by statements.now (key_of entity.now) entity.now.declaration }
{
    match entity.declaration {
        Some(number) => line_of(statements, number),
        None => first_line(sites, entity),
    }
}

/// The line of an entity, behind others.
fn put_entity(
    lines: &mut Vec<u32>,
    statements: &[Statement],
    sites: &[Site<'_>],
    entity: &Sighted,
) -> Result<(), Memory>
    requires { map mention_at sites.now ≡ mentioned_in statements.now }
    ensures { OnOk result (lines.new.items ≡ lines.old.items ++ model.sighted_line statements.now entity.now ∷ []) }
{
    put(lines, entity_line(statements, sites, entity))
}

/// The lines of entities, in order, where a text mentions what it uses so.
fn lines_of(
    alloc: Global,
    statements: &[Statement],
    sites: &[Site<'_>],
    entities: &[Sighted],
) -> Result<Vec<u32>, Memory>
    requires { map mention_at sites.now ≡ mentioned_in statements.now }
    ensures { IfOk result (λ lines. lines.items ≡ map (model.sighted_line statements.now) entities.now) }
{
    let mut lines = Vec::new(alloc);
    for i in 0..entities.len() {
        put_entity(&mut lines, statements, sites, &entities[i])?;
    }
    Ok(lines)
}

/// The lines of entities, in order.
fn entity_lines(
    alloc: Global,
    statements: &[Statement],
    entities: &[Sighted],
) -> Result<Vec<u32>, Memory>
    ensures { IfOk result (λ lines. lines.items ≡ map (model.sighted_line statements.now) entities.now) }
{
    let sites = uses_in(alloc, statements)?;
    lines_of(alloc, statements, &sites, entities)
}

/// The lines of a text whose names are known.
fn sources_known(alloc: Global, text: &Model, known: &Known) -> Result<Sources, Memory>
    requires { Knows text.now.statements.items known.now }
    ensures { IfOk result (model.AreSources text.now.statements.items) }
{
    let blocks = block_lines(alloc, text.statements.as_slice())?;
    let entities = entity_lines(alloc, text.statements.as_slice(), known.sighted.as_slice())?;
    let procedures = procedure_lines(alloc, text, known)?;
    Ok(Sources {
        blocks,
        entities,
        procedures,
    })
}

/// The same, where what is known is done with.
fn sources_with(alloc: Global, text: &Model, known: Known) -> Result<Sources, Memory>
    requires { Knows text.now.statements.items known }
    ensures { IfOk result (model.AreSources text.now.statements.items) }
{
    let sources = sources_known(alloc, text, &known);
    drop(known);
    sources
}

/// Where the blocks, the entities and the procedures of the object that a model text becomes stand in the text, also where no
/// object comes of it. `Err` where memory runs out.
pub fn sources(alloc: Global, text: &Model) -> Result<Sources, Memory>
    ensures { IfOk result (model.AreSources text.now.statements.items) }
{
    match known_names(alloc, text.statements.as_slice(), &mut Ledger::new()) {
        Ok(known) => sources_with(alloc, text, known),
        Err(_) => Err(Memory),
    }
}
