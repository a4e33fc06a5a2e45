//! The rules of weights of an object, as rules at places.

ghost use Rattle.std.specs.Prelude.{◌≡◌, ◌<◌, ◌≤◌, IfOk, option_map, option_to_list, length};
ghost use Rattle.gw_object.specs.declared.blocks.Block.TheVariants as blocks;
ghost use Rattle.gw_weighing.specs.Certificates.{IsCounted};
ghost use Rattle.gw_weighing.specs.Rules as model;
ghost use Rattle.gw_weighing.specs.Rules.{AddsRules};

use crate::layout::Layout;
use crate::sums::{first_sum, second_sum};
use gw_least_weights::{Rule, nothing, once};
use gw_object::{Block, Memory, Parts, TableState, Unlink};
use gw_rules::chain_row;
use std::alloc::Global;

/// The row of the state table of the block at a place, from 0, if it has one.
fn state_at(parts: &Parts, place: usize) -> Option<&TableState>
    ensures { option_map (λ row. row.now) result ≡ model.state_at parts.now place }
{
    parts.states.as_slice().get(place)?.as_ref()
}

/// The rule at the block at a place, from 0: what it asks in its row of the state table; nothing, where it has none.
fn block_rule(layout: Layout, parts: &Parts, place: usize, block: &Block) -> Rule
    requires { place < 4096 }
    ensures { result ≡ model.block_rule layout parts.now place block.now (model.state_at parts.now place) }
{
    let number = (place + 1) as u16;
    let idle = Rule {
        turn: 2 * place,
        at: place,
        first: nothing(),
        second: nothing(),
    };
    match state_at(parts, place) {
        Some(row) => Rule {
            first: first_sum(layout, parts, number, block, row),
            second: second_sum(layout, parts, number, block),
            ..idle
        },
        None => idle,
    }
}

/// The rule at the user chain of an UNLINK, which is the block at this place: what the members need where they go. There is
/// none where the block or the user chain has no row of the state table.
fn unlink_rule(layout: Layout, parts: &Parts, place: usize, unlink: &Unlink) -> Option<Rule>
    ensures { result ≡ model.chain_rule layout parts.now place (blocks.Unlink unlink.now) }
{
    if state_at(parts, place).is_none() || chain_row(parts, unlink.chain).is_none() {
        return None;
    }
    Some(Rule {
        turn: 2 * layout.blocks as usize,
        at: layout.of_chain(parts.entities.as_slice(), unlink.chain),
        first: once(layout.of_block(unlink.target)),
        second: nothing(),
    })
}

/// The rule at the user chain of the block at this place, if that is an UNLINK.
fn chain_rule(layout: Layout, parts: &Parts, place: usize, block: &Block) -> Option<Rule>
    ensures { result ≡ model.chain_rule layout parts.now place block.now }
{
    match block {
        Block::Unlink(unlink) => unlink_rule(layout, parts, place, unlink),
        _ => None,
    }
}

/// The rule by which a return row gathers the weight of the block after this one, if there is one: so it has the greatest of
/// those to which a return may lead, and has it right after that has risen.
fn gathering_rule(layout: Layout, row: u16, block: u16) -> Option<Rule>
    ensures { result ≡ model.gathering_rule layout row block }
{
    if block >= layout.blocks {
        return None;
    }
    Some(Rule {
        turn: 2 * block as usize + 1,
        at: layout.of_row(row),
        first: once(block as usize),
        second: nothing(),
    })
}

/// Adds a rule, if there is one.
fn add(rules: &mut Vec<Rule>, rule: Option<Rule>) -> Result<(), Memory>
    ensures { AddsRules result rules.old rules.new (option_to_list rule) }
{
    if let Some(rule) = rule {
        rules.push(rule)?;
    }
    Ok(())
}

/// Adds the rules of the block at a place, from 0.
fn add_block(
    rules: &mut Vec<Rule>,
    layout: Layout,
    parts: &Parts,
    place: usize,
    block: &Block,
) -> Result<(), Memory>
    requires { place < 4096 }
    ensures { AddsRules result rules.old rules.new (model.rules_of_block layout parts.now place block.now) }
{
    rules.push(block_rule(layout, parts, place, block))?;
    add(rules, chain_rule(layout, parts, place, block))
}

/// Adds the rules of all blocks.
fn add_blocks(rules: &mut Vec<Rule>, layout: Layout, parts: &Parts) -> Result<(), Memory>
    requires { length parts.now.blocks ≤ 4096 }
    ensures { AddsRules result rules.old rules.new (model.rules_of_blocks layout parts.now) }
{
    let blocks = parts.blocks.as_slice();
    for i in 0..blocks.len() {
        add_block(rules, layout, parts, i, &blocks[i])?;
    }
    Ok(())
}

/// Adds the rules of the return row of this number, from 0, which has these blocks.
fn add_row(rules: &mut Vec<Rule>, layout: Layout, row: u16, blocks: &[u16]) -> Result<(), Memory>
    ensures { AddsRules result rules.old rules.new (model.rules_of_row layout row blocks.now) }
{
    for i in 0..blocks.len() {
        add(rules, gathering_rule(layout, row, blocks[i]))?;
    }
    Ok(())
}

/// Adds the rules of all return rows.
fn add_rows(rules: &mut Vec<Rule>, layout: Layout, parts: &Parts) -> Result<(), Memory>
    requires { length parts.now.returns ≤ 4096 }
    ensures { AddsRules result rules.old rules.new (model.rules_of_rows layout parts.now) }
{
    let returns = parts.returns.as_slice();
    for i in 0..returns.len() {
        add_row(rules, layout, i as u16, returns[i].blocks.as_slice())?;
    }
    Ok(())
}

/// The rules of an object, each with its turn in a round: those of the blocks in order, each of them before those of the return
/// rows that gather its weight, and then those of the user chains.
#[tactic(auto, unfolding(crate::specs::Rules::rules_of))]
pub(crate) fn rules_of(alloc: Global, parts: &Parts, layout: Layout) -> Result<Vec<Rule>, Memory>
    requires { IsCounted parts.now }
    ensures { IfOk result (λ rules. rules.items ≡ model.rules_of layout parts.now) }
{
    let mut rules = Vec::new(alloc);
    add_blocks(&mut rules, layout, parts)?;
    add_rows(&mut rules, layout, parts)?;
    Ok(rules)
}
