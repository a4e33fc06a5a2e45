//! Blocks, each as a statement of a model text, but that targets are numbers of blocks.

use crate::operands::{mode_sign, put_name, put_operand, put_spread, put_units};
use crate::text::put_optional;
use gw_object::{
    Assign, Block, Both, Call, Comparison, Condition, Entity, Fraction, Gate, Generate, Link,
    LinkOrder, Logic, Loop, Memory, Operand, Plus, Priority, Save, Split, Spread, SwitchAction,
    Test, Units, Unlink,
};
use gw_writing::{put, put_number};

fn put_generate(out: &mut Vec<u8>, entities: &[Entity], generate: Generate) -> Result<(), Memory> {
    put(out, "GENERATE ")?;
    put_spread(out, entities, generate.interval)?;
    put_optional(out, " first ", generate.first)?;
    put_optional(out, " limit ", generate.limit)?;
    put_number(out, " priority ", generate.priority)
}

fn put_terminate(out: &mut Vec<u8>, entities: &[Entity], by: Operand) -> Result<(), Memory> {
    put(out, "TERMINATE ")?;
    put_operand(out, entities, by)
}

fn put_advance(out: &mut Vec<u8>, entities: &[Entity], time: Spread) -> Result<(), Memory> {
    put(out, "ADVANCE ")?;
    put_spread(out, entities, time)
}

fn put_assign(out: &mut Vec<u8>, entities: &[Entity], assign: Assign) -> Result<(), Memory> {
    put_number(out, "ASSIGN ", assign.parameter)?;
    put(out, mode_sign(assign.mode))?;
    put(out, ",")?;
    put_operand(out, entities, assign.value)
}

/// The word of a comparison.
fn comparison_word(comparison: Comparison) -> &'static str {
    match comparison {
        Comparison::Equal => "E ",
        Comparison::NotEqual => "NE ",
        Comparison::Greater => "G ",
        Comparison::GreaterOrEqual => "GE ",
        Comparison::Less => "L ",
        Comparison::LessOrEqual => "LE ",
    }
}

fn put_test(out: &mut Vec<u8>, entities: &[Entity], test: Test) -> Result<(), Memory> {
    put(out, "TEST ")?;
    put(out, comparison_word(test.comparison))?;
    put_operand(out, entities, test.left)?;
    put(out, ",")?;
    put_operand(out, entities, test.right)?;
    put_optional(out, ",block ", test.otherwise)
}

/// The word of what a GATE asks.
fn condition_word(condition: Condition) -> &'static str {
    match condition {
        Condition::SwitchSet => "LS ",
        Condition::SwitchReset => "LR ",
        Condition::FacilityInUse => "U ",
        Condition::FacilityNotInUse => "NU ",
        Condition::StorageFull => "SF ",
        Condition::StorageEmpty => "SE ",
        Condition::StorageNotFull => "SNF ",
        Condition::StorageNotEmpty => "SNE ",
    }
}

fn put_gate(out: &mut Vec<u8>, entities: &[Entity], gate: Gate) -> Result<(), Memory> {
    put(out, "GATE ")?;
    put(out, condition_word(gate.condition))?;
    put_name(out, entities, gate.entity)?;
    put_optional(out, ",block ", gate.otherwise)
}

fn put_fraction(out: &mut Vec<u8>, fraction: Fraction) -> Result<(), Memory> {
    put_number(out, "TRANSFER ", fraction.thousandths)?;
    put(out, " of 1000")?;
    put_number(out, " to block ", fraction.target)?;
    put_optional(out, ", others to block ", fraction.otherwise)
}

fn put_both(out: &mut Vec<u8>, both: Both) -> Result<(), Memory> {
    put(out, "TRANSFER BOTH,")?;
    put_optional(out, "block ", both.first)?;
    put_number(out, ",block ", both.second)
}

fn put_call(out: &mut Vec<u8>, call: Call) -> Result<(), Memory> {
    put_number(out, "TRANSFER SBR,block ", call.target)?;
    put_number(out, ",", call.parameter)
}

fn put_loop(out: &mut Vec<u8>, counted: Loop) -> Result<(), Memory> {
    put_number(out, "LOOP ", counted.parameter)?;
    put_number(out, ",block ", counted.target)
}

fn put_split(out: &mut Vec<u8>, split: Split) -> Result<(), Memory> {
    put_number(out, "SPLIT ", split.copies)?;
    put_optional(out, ",block ", split.target)
}

fn put_link(out: &mut Vec<u8>, entities: &[Entity], link: Link) -> Result<(), Memory> {
    put(out, "LINK ")?;
    put_name(out, entities, link.chain)?;
    match link.order {
        LinkOrder::Fifo => put(out, ",FIFO"),
        LinkOrder::Lifo => put(out, ",LIFO"),
    }
}

fn put_unlink(out: &mut Vec<u8>, entities: &[Entity], unlink: Unlink) -> Result<(), Memory> {
    put(out, "UNLINK ")?;
    put_name(out, entities, unlink.chain)?;
    put_number(out, ",block ", unlink.target)?;
    match unlink.most {
        Some(most) => put_number(out, ",", most),
        None => put(out, ",ALL"),
    }
}

fn put_logic(out: &mut Vec<u8>, entities: &[Entity], logic: Logic) -> Result<(), Memory> {
    put(
        out,
        match logic.action {
            SwitchAction::Set => "LOGIC S ",
            SwitchAction::Reset => "LOGIC R ",
            SwitchAction::Invert => "LOGIC I ",
        },
    )?;
    put_name(out, entities, logic.switch)
}

fn put_save(out: &mut Vec<u8>, entities: &[Entity], save: Save) -> Result<(), Memory> {
    put(out, "SAVEVALUE ")?;
    put_name(out, entities, save.savevalue)?;
    put(out, mode_sign(save.mode))?;
    put(out, ",")?;
    put_operand(out, entities, save.value)
}

fn put_mark(out: &mut Vec<u8>, parameter: Option<u8>) -> Result<(), Memory> {
    put(out, "MARK")?;
    put_optional(out, " ", parameter)
}

fn put_priority(out: &mut Vec<u8>, entities: &[Entity], priority: Priority) -> Result<(), Memory> {
    put(out, "PRIORITY ")?;
    put_operand(out, entities, priority.value)?;
    put(out, if priority.behind { ",BU" } else { "" })
}

fn put_plus(out: &mut Vec<u8>, entities: &[Entity], plus: Plus) -> Result<(), Memory> {
    put(out, "PLUS ")?;
    put_operand(out, entities, plus.value)?;
    put_optional(out, ",", plus.parameter)
}

/// A word, and the name of an entity.
fn put_of(out: &mut Vec<u8>, entities: &[Entity], word: &str, entity: u16) -> Result<(), Memory> {
    put(out, word)?;
    put_name(out, entities, entity)
}

/// A word, and the units of an entity.
fn put_units_of(
    out: &mut Vec<u8>,
    entities: &[Entity],
    word: &str,
    units: Units,
) -> Result<(), Memory> {
    put(out, word)?;
    put_units(out, entities, units)
}

/// A block, with its operands.
pub(crate) fn put_block(
    out: &mut Vec<u8>,
    entities: &[Entity],
    block: &Block,
) -> Result<(), Memory> {
    match *block {
        Block::Generate(generate) => put_generate(out, entities, generate),
        Block::Terminate(by) => put_terminate(out, entities, by),
        Block::Advance(time) => put_advance(out, entities, time),
        Block::Seize(facility) => put_of(out, entities, "SEIZE ", facility),
        Block::Release(facility) => put_of(out, entities, "RELEASE ", facility),
        Block::Enter(units) => put_units_of(out, entities, "ENTER ", units),
        Block::Leave(units) => put_units_of(out, entities, "LEAVE ", units),
        Block::Queue(units) => put_units_of(out, entities, "QUEUE ", units),
        Block::Depart(units) => put_units_of(out, entities, "DEPART ", units),
        Block::Assign(assign) => put_assign(out, entities, assign),
        Block::Test(test) => put_test(out, entities, test),
        Block::Gate(gate) => put_gate(out, entities, gate),
        Block::Transfer(target) => put_number(out, "TRANSFER block ", target),
        Block::TransferByFraction(fraction) => put_fraction(out, fraction),
        Block::TransferBoth(both) => put_both(out, both),
        Block::TransferToSubroutine(call) => put_call(out, call),
        Block::TransferByParameter(parameter) => put_number(out, "TRANSFER P,", parameter),
        Block::Loop(counted) => put_loop(out, counted),
        Block::Split(split) => put_split(out, split),
        Block::Assemble(size) => put_number(out, "ASSEMBLE ", size),
        Block::Link(link) => put_link(out, entities, link),
        Block::Unlink(unlink) => put_unlink(out, entities, unlink),
        Block::Mark(parameter) => put_mark(out, parameter),
        Block::Priority(priority) => put_priority(out, entities, priority),
        Block::Buffer => put(out, "BUFFER"),
        Block::Logic(logic) => put_logic(out, entities, logic),
        Block::Savevalue(save) => put_save(out, entities, save),
        Block::Tabulate(table) => put_of(out, entities, "TABULATE ", table),
        Block::Plus(plus) => put_plus(out, entities, plus),
    }
}
