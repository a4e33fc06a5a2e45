//! The entities that operands, blocks and rows of the state table name.

ghost use Rattle.std.specs.Prelude.{◌≡◌};
ghost use Rattle.gw_rules.specs.Kinds as model;

use gw_object::{Block, Condition, Entity, EntityAttribute, Kind, Numbered, Operand};
use gw_rules::{EntityKind, Named, needs, values};

/// What an attribute needs its entity to be; an attribute of a block needs none.
pub(crate) fn needed_for(attribute: EntityAttribute) -> Option<EntityKind>
    ensures { result ≡ model.needed_for attribute }
{
    match attribute {
        EntityAttribute::FacilityOwned => Some(EntityKind::Facility),
        EntityAttribute::StorageContent | EntityAttribute::StorageRemaining => {
            Some(EntityKind::Storage)
        }
        EntityAttribute::QueueContent => Some(EntityKind::Queue),
        EntityAttribute::SavevalueValue => Some(EntityKind::Savevalue),
        EntityAttribute::SwitchSetting => Some(EntityKind::Switch),
        EntityAttribute::ChainMembers => Some(EntityKind::Chain),
        EntityAttribute::VariableValue => Some(EntityKind::Variable),
        EntityAttribute::BooleanValue => Some(EntityKind::BooleanVariable),
        EntityAttribute::FunctionValue => Some(EntityKind::Function),
        EntityAttribute::BlockEntries | EntityAttribute::BlockCount => None,
    }
}

/// The entity that an attribute with a number names, if it does.
pub(crate) fn entity_named(of: Numbered) -> Option<Named>
    ensures { result ≡ model.entity_named of }
{
    needed_for(of.attribute).map(|needed| needs(needed, of.number))
}

/// The entity that an operand names, if it does.
pub(crate) fn entity_of(operand: &Operand) -> Option<Named>
    ensures { result ≡ model.entity_of operand.now }
{
    match operand {
        Operand::OfEntity(of) => entity_named(*of),
        _ => None,
    }
}

/// What a condition needs its entity to be.
fn needed_by(condition: Condition) -> EntityKind
    ensures { result ≡ model.needed_by condition }
{
    match condition {
        Condition::SwitchSet | Condition::SwitchReset => EntityKind::Switch,
        Condition::FacilityInUse | Condition::FacilityNotInUse => EntityKind::Facility,
        Condition::StorageFull
        | Condition::StorageEmpty
        | Condition::StorageNotFull
        | Condition::StorageNotEmpty => EntityKind::Storage,
    }
}

/// The entity that a block itself names, if it does.
fn own_entity(block: &Block) -> Option<Named>
    ensures { result ≡ model.own_entity block.now }
{
    match block {
        Block::Seize(f) | Block::Release(f) => Some(needs(EntityKind::Facility, *f)),
        Block::Enter(u) | Block::Leave(u) => Some(needs(EntityKind::Storage, u.entity)),
        Block::Queue(u) | Block::Depart(u) => Some(needs(EntityKind::Queue, u.entity)),
        Block::Gate(g) => Some(needs(needed_by(g.condition), g.entity)),
        Block::Link(l) => Some(needs(EntityKind::Chain, l.chain)),
        Block::Unlink(u) => Some(needs(EntityKind::Chain, u.chain)),
        Block::Logic(l) => Some(needs(EntityKind::Switch, l.switch)),
        Block::Savevalue(s) => Some(needs(EntityKind::Savevalue, s.savevalue)),
        Block::Tabulate(table) => Some(needs(EntityKind::Table, *table)),
        _ => None,
    }
}

/// Whether an entity is what it is needed as.
fn serves_as(needed: EntityKind, kind: &Kind) -> bool
    ensures { result ≡ model.serves_as needed kind.now }
{
    match (needed, kind) {
        (EntityKind::Facility, Kind::Facility) => true,
        (EntityKind::Storage | EntityKind::StorageOrQueue, Kind::Storage(_)) => true,
        (EntityKind::Queue | EntityKind::StorageOrQueue, Kind::Queue) => true,
        (EntityKind::Switch, Kind::Switch(_)) => true,
        (EntityKind::Savevalue, Kind::Savevalue(_)) => true,
        (EntityKind::Table, Kind::Table(_)) => true,
        (EntityKind::Chain, Kind::Chain) => true,
        (EntityKind::Variable, Kind::Variable(_)) => true,
        (EntityKind::BooleanVariable, Kind::BooleanVariable(_)) => true,
        (EntityKind::Function, Kind::Function(_)) => true,
        _ => false,
    }
}

/// Whether an entity that is named is of no other kind; one that isn't there is of none.
pub(crate) fn is_no_other_kind(entities: &[Entity], named: Named) -> bool
    ensures { result ≡ model.is_no_other_kind entities.now named }
{
    entities
        .get(named.entity as usize)
        .is_none_or(|entity| serves_as(named.needed, &entity.kind))
}

/// Whether none of the entities that operands name is of another kind than what it is needed as.
fn read_no_other_kind(entities: &[Entity], operands: &[Operand]) -> bool
    ensures { result ≡ model.names_no_other_kind entities.now (model.entities_of operands.now) }
{
    operands
        .iter()
        .filter_map(entity_of)
        .all(|named| is_no_other_kind(entities, named))
}

/// Whether none of the entities that a block names is of another kind than what it is needed as.
#[tactic(auto, using(gw_rules::proofs::EachNamed::tests_both))]
pub(crate) fn names_no_other_kind(entities: &[Entity], block: &Block) -> bool
    ensures { result ≡ model.names_no_other_kind entities.now (model.named_entities block.now) }
{
    let own = own_entity(block);
    own.is_none_or(|named| is_no_other_kind(entities, named))
        && read_no_other_kind(entities, values(block).as_slice())
}

/// Whether an entity that is named is there.
pub(crate) fn is_there(entities: &[Entity], named: Named) -> bool
    ensures { result ≡ model.is_there entities.now named }
{
    (named.entity as usize) < entities.len()
}

/// Whether the entities that operands name are there.
fn read_are_there(entities: &[Entity], operands: &[Operand]) -> bool
    ensures { result ≡ model.are_there entities.now (model.entities_of operands.now) }
{
    operands
        .iter()
        .filter_map(entity_of)
        .all(|named| is_there(entities, named))
}

/// Whether the entities that a block names are there.
#[tactic(auto, using(gw_rules::proofs::EachNamed::tests_both))]
pub(crate) fn are_there(entities: &[Entity], block: &Block) -> bool
    ensures { result ≡ model.are_there entities.now (model.named_entities block.now) }
{
    let own = own_entity(block);
    own.is_none_or(|named| is_there(entities, named))
        && read_are_there(entities, values(block).as_slice())
}
