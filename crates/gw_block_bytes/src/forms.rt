//! The forms of blocks: what stands behind each tag, as a block.

ghost use Rattle.gw_object.specs.BlockGrammar.{generate, operand, spread, entity_number, units, assign, test_operands, gate, block_number};
ghost use Rattle.gw_object.specs.BlockGrammar.{fraction, call, parameter_number, countdown, split, set_size, link, unlink, logic, save};
ghost use Rattle.gw_object.specs.BlockGrammar.{priority, plus};
ghost use Rattle.gw_object.specs.declared.blocks.Block.TheVariants as blocks;
ghost use Rattle.gw_block_bytes.specs.Forms.{GivesBlock};
ghost use Rattle.gw_fields.specs.Fields.{optional};

use crate::operands::{read_parameter_if_any, read_parameter_number};
use gw_field_bytes::Spelled;
use gw_fields::ReadError;
use gw_object::{
    Assign, Block, Call, Fraction, Gate, Generate, Link, Logic, Loop, Operand, Plus, Priority,
    Save, Split, Spread, Test, Units, Unlink,
};
use std::alloc::Global;

/// What stands behind the tag of a GENERATE.
pub fn read_generate(alloc: Global, bytes: &[u8]) -> Result<(Block, &[u8]), ReadError>
    ensures { GivesBlock (λ x. blocks.Generate x) generate bytes.now result }
{
    let ((interval, (first, (limit, priority))), rest) = Spelled::read(alloc, bytes)?;
    let generate = Generate {
        interval,
        first,
        limit,
        priority,
    };
    Ok((Block::Generate(generate), rest))
}

/// What stands behind the tag of a TERMINATE.
pub fn read_terminate(alloc: Global, bytes: &[u8]) -> Result<(Block, &[u8]), ReadError>
    ensures { GivesBlock (λ x. blocks.Terminate x) operand bytes.now result }
{
    let (decrement, rest) = Operand::read(alloc, bytes)?;
    Ok((Block::Terminate(decrement), rest))
}

/// What stands behind the tag of an ADVANCE.
pub fn read_advance(alloc: Global, bytes: &[u8]) -> Result<(Block, &[u8]), ReadError>
    ensures { GivesBlock (λ x. blocks.Advance x) spread bytes.now result }
{
    let (time, rest) = Spread::read(alloc, bytes)?;
    Ok((Block::Advance(time), rest))
}

/// What stands behind the tag of a SEIZE.
pub fn read_seize(alloc: Global, bytes: &[u8]) -> Result<(Block, &[u8]), ReadError>
    ensures { GivesBlock (λ x. blocks.Seize x) entity_number bytes.now result }
{
    let (facility, rest) = u16::read(alloc, bytes)?;
    Ok((Block::Seize(facility), rest))
}

/// What stands behind the tag of a RELEASE.
pub fn read_release(alloc: Global, bytes: &[u8]) -> Result<(Block, &[u8]), ReadError>
    ensures { GivesBlock (λ x. blocks.Release x) entity_number bytes.now result }
{
    let (facility, rest) = u16::read(alloc, bytes)?;
    Ok((Block::Release(facility), rest))
}

/// What stands behind the tag of an ENTER.
pub fn read_enter(alloc: Global, bytes: &[u8]) -> Result<(Block, &[u8]), ReadError>
    ensures { GivesBlock (λ x. blocks.Enter x) units bytes.now result }
{
    let (units, rest) = Units::read(alloc, bytes)?;
    Ok((Block::Enter(units), rest))
}

/// What stands behind the tag of a LEAVE.
pub fn read_leave(alloc: Global, bytes: &[u8]) -> Result<(Block, &[u8]), ReadError>
    ensures { GivesBlock (λ x. blocks.Leave x) units bytes.now result }
{
    let (units, rest) = Units::read(alloc, bytes)?;
    Ok((Block::Leave(units), rest))
}

/// What stands behind the tag of a QUEUE.
pub fn read_queue(alloc: Global, bytes: &[u8]) -> Result<(Block, &[u8]), ReadError>
    ensures { GivesBlock (λ x. blocks.Queue x) units bytes.now result }
{
    let (units, rest) = Units::read(alloc, bytes)?;
    Ok((Block::Queue(units), rest))
}

/// What stands behind the tag of a DEPART.
pub fn read_depart(alloc: Global, bytes: &[u8]) -> Result<(Block, &[u8]), ReadError>
    ensures { GivesBlock (λ x. blocks.Depart x) units bytes.now result }
{
    let (units, rest) = Units::read(alloc, bytes)?;
    Ok((Block::Depart(units), rest))
}

/// What stands behind the tag of an ASSIGN.
pub fn read_assign(alloc: Global, bytes: &[u8]) -> Result<(Block, &[u8]), ReadError>
    ensures { GivesBlock (λ x. blocks.Assign x) assign bytes.now result }
{
    let (parameter, rest) = read_parameter_number(alloc, bytes)?;
    let ((mode, value), rest) = Spelled::read(alloc, rest)?;
    let assign = Assign {
        parameter,
        mode,
        value,
    };
    Ok((Block::Assign(assign), rest))
}

/// What stands behind the tag of a TEST.
pub fn read_test(alloc: Global, bytes: &[u8]) -> Result<(Block, &[u8]), ReadError>
    ensures { GivesBlock (λ x. blocks.Test x) test_operands bytes.now result }
{
    let ((comparison, (left, (right, otherwise))), rest) = Spelled::read(alloc, bytes)?;
    let test = Test {
        comparison,
        left,
        right,
        otherwise,
    };
    Ok((Block::Test(test), rest))
}

/// What stands behind the tag of a GATE.
pub fn read_gate(alloc: Global, bytes: &[u8]) -> Result<(Block, &[u8]), ReadError>
    ensures { GivesBlock (λ x. blocks.Gate x) gate bytes.now result }
{
    let ((condition, (entity, otherwise)), rest) = Spelled::read(alloc, bytes)?;
    let gate = Gate {
        condition,
        entity,
        otherwise,
    };
    Ok((Block::Gate(gate), rest))
}

/// What stands behind the tag of a TRANSFER to one block.
pub fn read_transfer(alloc: Global, bytes: &[u8]) -> Result<(Block, &[u8]), ReadError>
    ensures { GivesBlock (λ x. blocks.Transfer x) block_number bytes.now result }
{
    let (target, rest) = u16::read(alloc, bytes)?;
    Ok((Block::Transfer(target), rest))
}

/// What stands behind the tag of a TRANSFER by a fraction.
pub fn read_transfer_by_fraction(alloc: Global, bytes: &[u8]) -> Result<(Block, &[u8]), ReadError>
    ensures { GivesBlock (λ x. blocks.TransferByFraction x) fraction bytes.now result }
{
    let ((thousandths, (otherwise, target)), rest) = Spelled::read(alloc, bytes)?;
    let fraction = Fraction {
        thousandths,
        otherwise,
        target,
    };
    Ok((Block::TransferByFraction(fraction), rest))
}

/// What stands behind the tag of a TRANSFER to a subroutine.
pub fn read_transfer_to_subroutine(alloc: Global, bytes: &[u8]) -> Result<(Block, &[u8]), ReadError>
    ensures { GivesBlock (λ x. blocks.TransferToSubroutine x) call bytes.now result }
{
    let (target, rest) = u16::read(alloc, bytes)?;
    let (parameter, rest) = read_parameter_number(alloc, rest)?;
    Ok((
        Block::TransferToSubroutine(Call { target, parameter }),
        rest,
    ))
}

/// What stands behind the tag of a TRANSFER to where a parameter leads.
pub fn read_transfer_by_parameter(alloc: Global, bytes: &[u8]) -> Result<(Block, &[u8]), ReadError>
    ensures { GivesBlock (λ x. blocks.TransferByParameter x) parameter_number bytes.now result }
{
    let (parameter, rest) = read_parameter_number(alloc, bytes)?;
    Ok((Block::TransferByParameter(parameter), rest))
}

/// What stands behind the tag of a LOOP.
pub fn read_loop(alloc: Global, bytes: &[u8]) -> Result<(Block, &[u8]), ReadError>
    ensures { GivesBlock (λ x. blocks.Loop x) countdown bytes.now result }
{
    let (parameter, rest) = read_parameter_number(alloc, bytes)?;
    let (target, rest) = u16::read(alloc, rest)?;
    Ok((Block::Loop(Loop { parameter, target }), rest))
}

/// What stands behind the tag of a SPLIT.
pub fn read_split(alloc: Global, bytes: &[u8]) -> Result<(Block, &[u8]), ReadError>
    ensures { GivesBlock (λ x. blocks.Split x) split bytes.now result }
{
    let ((copies, target), rest) = Spelled::read(alloc, bytes)?;
    Ok((Block::Split(Split { copies, target }), rest))
}

/// What stands behind the tag of an ASSEMBLE.
pub fn read_assemble(alloc: Global, bytes: &[u8]) -> Result<(Block, &[u8]), ReadError>
    ensures { GivesBlock (λ x. blocks.Assemble x) set_size bytes.now result }
{
    let (size, rest) = u16::read(alloc, bytes)?;
    Ok((Block::Assemble(size), rest))
}

/// What stands behind the tag of a LINK.
pub fn read_link(alloc: Global, bytes: &[u8]) -> Result<(Block, &[u8]), ReadError>
    ensures { GivesBlock (λ x. blocks.Link x) link bytes.now result }
{
    let ((chain, order), rest) = Spelled::read(alloc, bytes)?;
    Ok((Block::Link(Link { chain, order }), rest))
}

/// What stands behind the tag of an UNLINK.
pub fn read_unlink(alloc: Global, bytes: &[u8]) -> Result<(Block, &[u8]), ReadError>
    ensures { GivesBlock (λ x. blocks.Unlink x) unlink bytes.now result }
{
    let ((chain, (target, most)), rest) = Spelled::read(alloc, bytes)?;
    let unlink = Unlink {
        chain,
        target,
        most,
    };
    Ok((Block::Unlink(unlink), rest))
}

/// What stands behind the tag of a LOGIC.
pub fn read_logic(alloc: Global, bytes: &[u8]) -> Result<(Block, &[u8]), ReadError>
    ensures { GivesBlock (λ x. blocks.Logic x) logic bytes.now result }
{
    let ((action, switch), rest) = Spelled::read(alloc, bytes)?;
    Ok((Block::Logic(Logic { action, switch }), rest))
}

/// What stands behind the tag of a SAVEVALUE.
pub fn read_savevalue(alloc: Global, bytes: &[u8]) -> Result<(Block, &[u8]), ReadError>
    ensures { GivesBlock (λ x. blocks.Savevalue x) save bytes.now result }
{
    let ((savevalue, (mode, value)), rest) = Spelled::read(alloc, bytes)?;
    let save = Save {
        savevalue,
        mode,
        value,
    };
    Ok((Block::Savevalue(save), rest))
}

/// What stands behind the tag of a MARK.
pub fn read_mark(alloc: Global, bytes: &[u8]) -> Result<(Block, &[u8]), ReadError>
    ensures { GivesBlock (λ x. blocks.Mark x) (optional parameter_number) bytes.now result }
{
    let (parameter, rest) = read_parameter_if_any(alloc, bytes)?;
    Ok((Block::Mark(parameter), rest))
}

/// What stands behind the tag of a PRIORITY.
pub fn read_priority(alloc: Global, bytes: &[u8]) -> Result<(Block, &[u8]), ReadError>
    ensures { GivesBlock (λ x. blocks.Priority x) priority bytes.now result }
{
    let ((value, behind), rest) = Spelled::read(alloc, bytes)?;
    Ok((Block::Priority(Priority { value, behind }), rest))
}

/// What stands behind the tag of a PLUS.
pub fn read_plus(alloc: Global, bytes: &[u8]) -> Result<(Block, &[u8]), ReadError>
    ensures { GivesBlock (λ x. blocks.Plus x) plus bytes.now result }
{
    let (value, rest) = Operand::read(alloc, bytes)?;
    let (parameter, rest) = read_parameter_if_any(alloc, rest)?;
    Ok((Block::Plus(Plus { value, parameter }), rest))
}

/// What stands behind the tag of a TABULATE.
pub fn read_tabulate(alloc: Global, bytes: &[u8]) -> Result<(Block, &[u8]), ReadError>
    ensures { GivesBlock (λ x. blocks.Tabulate x) entity_number bytes.now result }
{
    let (table, rest) = u16::read(alloc, bytes)?;
    Ok((Block::Tabulate(table), rest))
}
