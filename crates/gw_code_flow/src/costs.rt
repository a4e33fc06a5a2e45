//! What procedures cost: at least as much as the instructions that they execute (docs/plus-code.md).

ghost use Rattle.std.specs.Prelude.{◌≡◌, ◌<◌, ◌≤◌, ◌+◌, ◌*◌, ◌^◌, length, drop, IfSome, IfNone};
ghost use Rattle.gw_num.specs.Table.{at};
ghost use Rattle.gw_rules.specs.Code as model;
ghost use Rattle.gw_rules.specs.PlusChecks.{IsTooCostly, MayCost};

use crate::instructions::called_in;
use gw_object::{Entity, Instruction};

/// The most that a procedure may cost, in instructions.
const GREATEST_COST: u64 = 1_000_000_000;

/// What the procedure of this number costs, by the costs of the first procedures; 0 where it is none of these.
fn cost_at(costs: &[u32], procedure: u16) -> u32
    ensures { result ≡ at 0 costs.now procedure }
{
    match costs.get(procedure as usize) {
        Some(cost) => *cost,
        None => 0,
    }
}

/// What the procedure that is called, if one is, costs, by the costs of the procedures below.
fn cost_of_called(costs: &[u32], called: Option<u16>) -> u32
    ensures { result ≡ model.cost_of_called costs.now called }
{
    match called {
        Some(procedure) => cost_at(costs, procedure),
        None => 0,
    }
}

/// What an instruction costs, by the costs of the procedures below: 1, and what it calls.
fn cost_of_instruction(entities: &[Entity], costs: &[u32], instruction: Instruction) -> u64
    ensures value { result ≡ model.cost_of_instruction entities.now costs.now instruction }
    ensures bound { result ≤ 2 ^ 32 }
{
    1 + u64::from(cost_of_called(costs, called_in(entities, instruction)))
}

/// How often an instruction may jump back.
fn turns(instruction: Instruction) -> u32
    ensures { result ≡ model.turns instruction }
{
    match instruction {
        Instruction::Back(back) => back.count,
        _ => 0,
    }
}

/// What code costs, by the costs of the procedures below: the sum of its instructions, once and once more for each jump
/// back; none where that is more than a procedure may cost.
pub(crate) fn cost_of_code(entities: &[Entity], costs: &[u32], code: &[Instruction]) -> Option<u32>
    requires { length code.now ≤ 4096 }
    ensures none { IfNone result (IsTooCostly entities.now costs.now code.now) }
    ensures some { IfSome result (MayCost entities.now costs.now code.now) }
{
    let mut body: u64 = 0;
    let mut back: u64 = 0;
    for instruction in code {
        body += cost_of_instruction(entities, costs, *instruction);
        back += u64::from(turns(*instruction));
    }
    if body <= GREATEST_COST / (1 + back) {
        Some((body * (1 + back)) as u32)
    } else {
        None
    }
}
