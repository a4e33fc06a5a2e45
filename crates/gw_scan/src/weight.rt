//! The certified weight of a state: how many block entries may still be made in its clock moment (ours: docs/weights.md).

ghost use Rattle.std.specs.Prelude.{◌≡◌, ◌≤◌, ◌+◌, ◌*◌, ◌^◌, length, sum, sum_by, None, IfSome};
ghost use Rattle.std.specs.Option.{option_copied};
ghost use Rattle.gw_num.specs.Table.{at, tabulate};
ghost use Rattle.gw_object.specs.Limits.{most_blocks, greatest_weight};
ghost use Rattle.gw_object.specs.Grammar.{HasSpelling, SlopeFits};
ghost use Rattle.gw_transactions.specs.Transactions.{Holds, live_count};
ghost use Rattle.gw_step.specs.Weight as model;
ghost use Rattle.gw_machine.specs.View.{state_of};
ghost use Rattle.gw_machine.specs.Coherence.{IsHeld};
ghost use Rattle.gw_scan.specs.Weighing.{greatest_value, heaviest, later_weight, later_weights, owed_weight, weight_with, owed_weight_after};

use crate::both::two_next;
use gw_machine::{Machine, block_of};
use gw_members::{Event, Tx};
use gw_object::{Block, Generate, Parts, Slope};
use gw_rules::{above, chain_weight, slope_at, takes_time, weight_at};
use gw_transactions::{Parameters, Transaction, Transactions};

/// How far a parameter is above 0; one that isn't set counts as 0.
fn height(parameters: &Parameters, number: u8) -> u64
    ensures value { result ≡ model.height number parameters.now.values }
    ensures bound { result ≤ greatest_value }
{
    match parameters.get_if_set(number) {
        None => 0,
        Some(value) => above(value),
    }
}

/// What a slope adds to a weight, where these are the parameters.
fn added(slope: Option<Slope>, parameters: &Parameters) -> u128
    requires { IfSome slope SlopeFits }
    ensures value { result ≡ model.slope_addition slope parameters.now.values }
    ensures bound { result ≤ greatest_weight * greatest_value }
{
    match slope {
        None => 0,
        Some((number, per_unit)) => per_unit as u128 * height(parameters, number) as u128,
    }
}

/// The weight of a transaction with these parameters that is about to enter the block of this number, from 1.
fn weight_before(parts: &Parts, number: u16, parameters: &Parameters) -> u128
    requires { HasSpelling parts.now }
    ensures value { result ≡ model.weighs_there parts.now number parameters.now.values }
    ensures bound { result ≤ heaviest }
{
    let weight = weight_at(parts.weights.as_slice(), number);
    let slope = slope_at(parts.slopes.as_slice(), number);
    weight as u128 + added(slope, parameters)
}

/// The weight of a transaction with these parameters that is about to enter one of two blocks: that before the heavier.
fn heavier(parts: &Parts, pair: (u16, u16), parameters: &Parameters) -> u128
    requires { HasSpelling parts.now }
    ensures value { result ≡ model.heavier parts.now pair parameters.now.values }
    ensures bound { result ≤ heaviest }
{
    weight_before(parts, pair.0, parameters).max(weight_before(parts, pair.1, parameters))
}

/// The weight of a transaction where it is: of the user chain that it is a member of, else before the block that it is about
/// to enter, or before the heavier of two.
fn place_weight(
    parts: &Parts,
    chain: Option<u16>,
    transaction: Transaction,
    parameters: &Parameters,
) -> u128
    requires { HasSpelling parts.now }
    ensures value { result ≡ weight_with parts.now chain transaction parameters.now.values }
    ensures bound { result ≤ heaviest }
{
    if let Some(chain) = chain {
        return chain_weight(parts, chain) as u128;
    }
    match two_next(parts, transaction) {
        None => weight_before(parts, transaction.next, parameters),
        Some(pair) => heavier(parts, pair, parameters),
    }
}

/// The weights of the places of all live transactions together, of those too that are scheduled for later.
fn weight_of_all(parts: &Parts, transactions: &Transactions) -> u128
    requires spelled { HasSpelling parts.now }
    requires live { live_count transactions.now.txs ≤ 65536 }
    ensures value { result ≡ sum_by (model.weight_in parts.now) transactions.now.txs }
    ensures bound { result ≤ 65536 * heaviest }
{
    let mut weight = 0u128;
    for (transaction, chain, parameters) in transactions.iter() {
        weight += place_weight(parts, chain, *transaction, parameters);
    }
    weight
}

/// The weight of the place of a transaction.
fn weight_of(parts: &Parts, transactions: &Transactions, tx: Tx) -> u128
    requires spelled { HasSpelling parts.now }
    requires held { Holds transactions.now tx }
    ensures { result ≡ model.weight_in parts.now (at None transactions.now.txs tx.number) }
{
    let chain = transactions.chain(tx);
    let parameters = transactions.parameters(tx);
    place_weight(parts, chain, *transactions.get(tx), parameters)
}

/// The weight of the place of the transaction of an event, where it is scheduled for a time after the clock; else 0.
fn weight_if_later(parts: &Parts, machine: &Machine, event: &Event) -> u128
    requires spelled { HasSpelling parts.now }
    requires held { IsHeld machine.now.transactions event.now }
    ensures { result
        ≡ later_weight parts.now machine.now.transactions.txs machine.now.clock event.now }
{
    if machine.clock() < event.time {
        weight_of(parts, machine.transactions(), event.tx)
    } else {
        0
    }
}

/// The weights of the places of those together that are scheduled for a time after the clock.
fn weight_of_later(parts: &Parts, machine: &Machine) -> u128
    requires spelled { HasSpelling parts.now }
    requires bound { later_weights parts.now machine.now ≤ model.most_weight greatest_value }
    ensures { result ≡ later_weights parts.now machine.now }
{
    let mut weight = 0u128;
    for event in machine.future_events().iter() {
        weight += weight_if_later(parts, machine, event);
    }
    weight
}

/// How many arrivals of a GENERATE are still to be scheduled, where so many were, and all of them may come in one clock
/// moment: it has a limit, and its interval may be 0.
fn still_owed(generate: &Generate, scheduled: u64) -> u32
    ensures { result ≡ model.still_owed generate.now scheduled }
{
    if takes_time(generate.interval) {
        return 0;
    }
    let limit = generate.limit.unwrap_or(0);
    (limit as u64).saturating_sub(scheduled) as u32
}

/// The same of a block: only a GENERATE owes arrivals.
fn owed_by(block: Option<&Block>, scheduled: u64) -> u32
    ensures { result ≡ model.owed_by (option_copied block.entry) scheduled }
{
    match block {
        Some(Block::Generate(generate)) => still_owed(generate, scheduled),
        _ => 0,
    }
}

/// What the arrivals weigh that the block of this number, from 1, still owes, where so many of it were scheduled.
fn owed_at(parts: &Parts, number: u16, scheduled: u64) -> u64
    requires { HasSpelling parts.now }
    ensures value { result ≡ owed_weight_after parts.now scheduled number }
    ensures bound { result ≤ 2 ^ 32 * greatest_weight }
{
    let owed = owed_by(block_of(parts.blocks.as_slice(), number), scheduled);
    owed as u64 * weight_at(parts.weights.as_slice(), number) as u64
}

/// What the arrivals weigh together that GENERATE blocks still owe, where so many of each block, by its number, were
/// scheduled.
fn weight_owed(parts: &Parts, scheduled: &[u64]) -> u128
    requires spelled { HasSpelling parts.now }
    requires whole { length scheduled.now ≡ length parts.now.blocks + 1 }
    ensures value { result
        ≡ sum (tabulate (owed_weight parts.now scheduled.now) (length scheduled.now)) }
    ensures bound { result ≤ most_blocks * 2 ^ 32 * greatest_weight }
{
    let mut weight = 0u128;
    for (number, count) in scheduled.iter().enumerate() {
        weight += owed_at(parts, number as u16, *count) as u128;
    }
    weight
}

/// The certified weight of the state that a machine of these parts is in: the weights of the places of all live
/// transactions, but those that are scheduled for a time after the clock, and what GENERATE blocks still owe.
pub(crate) fn certified_weight(parts: &Parts, machine: &Machine) -> u128
    requires spelled { HasSpelling parts.now }
    requires live { live_count machine.now.transactions.txs ≤ 65536 }
    requires whole { length machine.now.scheduled ≡ length parts.now.blocks + 1 }
    ensures value { result ≡ model.weight parts.now (state_of machine.now) }
    ensures range { result ≤ model.most_weight greatest_value }
{
    let all = weight_of_all(parts, machine.transactions());
    let owed = weight_owed(parts, machine.arrivals());
    all + owed - weight_of_later(parts, machine)
}
