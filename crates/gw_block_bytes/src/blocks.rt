//! Blocks, in bytes and against the rules of the object format. They are put alike in each version, and read here as in
//! version 1.

ghost use Rattle.std.specs.Prelude.{◌↔◌, IsTrue};
ghost use Rattle.std.specs.List.{All};
ghost use Rattle.gw_object.specs.BlockGrammar.{GenerateFits, block, BlockFits};

use crate::BlockFormat;
use crate::forms::*;
use crate::operands::*;
use gw_field_bytes::{Receiver, Spelled, put_behind};
use gw_fields::codes::TAG;
use gw_fields::{ReadError, fault};
use gw_object::{Block, Generate};
use std::alloc::Global;

impl Spelled<BlockFormat> for Block {
    ghost spelling = { (block 1).spell };

    ghost reading = { (block 1).read };

    fn put<R: Receiver>(&self, to: &mut R) -> Result<(), R::Refusal> {
        match self {
            Block::Generate(generate) => put_behind(
                to,
                1,
                &(
                    generate.interval,
                    (generate.first, (generate.limit, generate.priority)),
                ),
            ),
            Block::Terminate(decrement) => put_behind(to, 2, decrement),
            Block::Advance(time) => put_behind(to, 3, time),
            Block::Seize(facility) => put_behind(to, 4, facility),
            Block::Release(facility) => put_behind(to, 5, facility),
            Block::Enter(units) => put_behind(to, 6, units),
            Block::Leave(units) => put_behind(to, 7, units),
            Block::Queue(units) => put_behind(to, 8, units),
            Block::Depart(units) => put_behind(to, 9, units),
            Block::Assign(assign) => put_behind(
                to,
                10,
                &(assign.parameter, (assign.mode, assign.value)),
            ),
            Block::Test(test) => put_behind(
                to,
                11,
                &(test.comparison, (test.left, (test.right, test.otherwise))),
            ),
            Block::Gate(gate) => put_behind(
                to,
                12,
                &(gate.condition, (gate.entity, gate.otherwise)),
            ),
            Block::Transfer(target) => put_behind(to, 13, target),
            Block::TransferByFraction(fraction) => put_behind(
                to,
                14,
                &(fraction.thousandths, (fraction.otherwise, fraction.target)),
            ),
            Block::TransferBoth(choice) => put_behind(to, 29, &(choice.first, choice.second)),
            Block::TransferToSubroutine(call) => put_behind(to, 15, &(call.target, call.parameter)),
            Block::TransferByParameter(parameter) => put_behind(to, 16, parameter),
            Block::Loop(counted) => put_behind(to, 17, &(counted.parameter, counted.target)),
            Block::Split(split) => put_behind(to, 18, &(split.copies, split.target)),
            Block::Assemble(size) => put_behind(to, 19, size),
            Block::Link(link) => put_behind(to, 20, &(link.chain, link.order)),
            Block::Unlink(unlink) => put_behind(
                to,
                21,
                &(unlink.chain, (unlink.target, unlink.most)),
            ),
            Block::Logic(logic) => put_behind(to, 22, &(logic.action, logic.switch)),
            Block::Savevalue(save) => put_behind(
                to,
                23,
                &(save.savevalue, (save.mode, save.value)),
            ),
            Block::Mark(parameter) => put_behind(to, 24, parameter),
            Block::Priority(priority) => put_behind(to, 25, &(priority.value, priority.behind)),
            Block::Buffer => to.put_bytes(&[26]),
            Block::Plus(plus) => put_behind(to, 27, &(plus.value, plus.parameter)),
            Block::Tabulate(table) => put_behind(to, 28, table),
        }
    }

    #[tactic(auto, unfolding(gw_object::specs::BlockGrammar::block_read))]
    fn read(alloc: Global, bytes: &[u8]) -> Result<(Block, &[u8]), ReadError> {
        let (tag, rest) = u8::read(alloc, bytes)?;
        match tag {
            1 => read_generate(alloc, rest),
            2 => read_terminate(alloc, rest),
            3 => read_advance(alloc, rest),
            4 => read_seize(alloc, rest),
            5 => read_release(alloc, rest),
            6 => read_enter(alloc, rest),
            7 => read_leave(alloc, rest),
            8 => read_queue(alloc, rest),
            9 => read_depart(alloc, rest),
            10 => read_assign(alloc, rest),
            11 => read_test(alloc, rest),
            12 => read_gate(alloc, rest),
            13 => read_transfer(alloc, rest),
            14 => read_transfer_by_fraction(alloc, rest),
            15 => read_transfer_to_subroutine(alloc, rest),
            16 => read_transfer_by_parameter(alloc, rest),
            17 => read_loop(alloc, rest),
            18 => read_split(alloc, rest),
            19 => read_assemble(alloc, rest),
            20 => read_link(alloc, rest),
            21 => read_unlink(alloc, rest),
            22 => read_logic(alloc, rest),
            23 => read_savevalue(alloc, rest),
            24 => read_mark(alloc, rest),
            25 => read_priority(alloc, rest),
            26 => Ok((Block::Buffer, rest)),
            27 => read_plus(alloc, rest),
            28 => read_tabulate(alloc, rest),
            _ => Err(fault(TAG, bytes)),
        }
    }
}

/// Whether the operands of a GENERATE block keep their limits.
fn generate_fits(generate: Generate) -> bool
    ensures { IsTrue result ↔ GenerateFits generate }
{
    spread_fits(generate.interval)
}

/// Whether a block's operands keep their limits; those of the blocks that aren't named here do by their types.
fn block_fits(block: Block) -> bool
    ensures { IsTrue result ↔ BlockFits block }
{
    match block {
        Block::Generate(generate) => generate_fits(generate),
        Block::Terminate(decrement) => operand_fits(decrement),
        Block::Advance(time) => spread_fits(time),
        Block::Assign(assign) => is_parameter(assign.parameter) && operand_fits(assign.value),
        Block::Test(test) => operand_fits(test.left) && operand_fits(test.right),
        Block::TransferToSubroutine(call) => is_parameter(call.parameter),
        Block::TransferByParameter(parameter) => is_parameter(parameter),
        Block::Loop(counted) => is_parameter(counted.parameter),
        Block::Savevalue(save) => operand_fits(save.value),
        Block::Mark(parameter) => parameter.is_none_or(is_parameter),
        Block::Priority(priority) => operand_fits(priority.value),
        Block::Plus(plus) => operand_fits(plus.value) && plus.parameter.is_none_or(is_parameter),
        _ => true,
    }
}

/// Whether each block keeps its limits.
pub fn blocks_fit(blocks: &[Block]) -> bool
    ensures { IsTrue result ↔ All BlockFits blocks.now }
{
    blocks.iter().all(|block| block_fits(*block))
}
