//! The rules of blocks: what a transaction must own, hold and have set to enter one.

ghost use Rattle.std.specs.Prelude.{◌≡◌};
ghost use Rattle.gw_rules.specs.Checks.{Finds};
ghost use Rattle.gw_rules.specs.Code.{parameters_asked};
ghost use Rattle.gw_rules.specs.Blocks as model;
ghost use Rattle.gw_rules.specs.Flow.{rule_checks, FindsRule};
ghost use Rattle.gw_flow.specs.Unfit as unfit;
ghost use Rattle.gw_flow.specs.Unfit.{lowest as lowest_of};

use crate::lookups::{Lookups, NoRow};
use gw_object::{Block, Entity, Fault, Kind, Mode, Operand, Parts, Place};
use gw_rules::flow_codes::*;
use gw_rules::{check, evaluation_operands, parameters_asked};

/// The capacity of the entity of this number; 0 where it is no storage, or isn't there.
fn capacity_at(entities: &[Entity], number: u16) -> u32
    ensures { result ≡ model.capacity_at entities.now number }
{
    match entities.get(number as usize) {
        Some(
            Entity {
                kind: Kind::Storage(capacity),
                ..
            },
        ) => *capacity,
        _ => 0,
    }
}

/// The lesser of two parameters, or the one that there is.
fn lower(least: Option<u8>, number: u8) -> Option<u8>
    ensures { result ≡ unfit.lower least number }
{
    match least {
        Some(other) if other <= number => Some(other),
        _ => Some(number),
    }
}

/// The least so far, lowered to a parameter, if that one isn't sure to hold a number.
fn lowered<S: Lookups>(least: Option<u8>, parameter: u8, state: &S) -> Option<u8>
    ensures { result ≡ unfit.lower_to (S.known state.now) least parameter }
{
    if state.is_number(parameter) {
        least
    } else {
        lower(least, parameter)
    }
}

/// The least so far, lowered to those of these parameters that aren't sure to hold a number.
fn lowest<S: Lookups>(so_far: Option<u8>, parameters: &[u8], state: &S) -> Option<u8>
    ensures { result ≡ lowest_of (S.known state.now) so_far parameters.now }
{
    let mut least = so_far;
    for parameter in parameters {
        least = lowered(least, *parameter, state);
    }
    least
}

/// The least so far, lowered to those of the parameters that an operand asks for that aren't sure to hold a number.
fn lowest_asked<S: Lookups>(
    so_far: Option<u8>,
    parts: &Parts,
    operand: Operand,
    state: &S,
) -> Option<u8>
    ensures { result ≡ lowest_of (S.known state.now) so_far (parameters_asked parts.now operand) }
{
    let asked = parameters_asked(parts, operand);
    lowest(so_far, asked.as_slice(), state)
}

/// The least parameter that operands ask for and that isn't sure to hold a number, if there is one.
fn first_unfit<S: Lookups>(parts: &Parts, operands: &[Operand], state: &S) -> Option<u8>
    ensures { result ≡ unfit.first_unfit parts.now operands.now (S.known state.now) }
{
    let mut least = None;
    for operand in operands {
        least = lowest_asked(least, parts, *operand, state);
    }
    least
}

/// The fault of a parameter that the block of this number uses: 20 where it isn't sure to be set, 27 where what it is set to
/// doesn't serve.
fn check_use<S: Lookups>(number: u16, parameter: u8, state: &S, serves: bool) -> Result<(), Fault>
    ensures { FindsRule result number (model.use_rules (S.known state.now) parameter serves) }
{
    let place = Place::Block(number);
    check(UNSET_PARAM, place, state.is_set(parameter))?;
    check(PARAM_KIND, place, serves)
}

/// The fault of a parameter that the block of this number uses as a number, if it isn't sure to be one.
fn check_number<S: Lookups>(number: u16, parameter: u8, state: &S) -> Result<(), Fault>
    ensures { FindsRule result number (model.number_rules (S.known state.now) parameter) }
{
    check_use(number, parameter, state, state.is_number(parameter))
}

/// The fault of the first parameter that the operands ask for which are evaluated at the block of this number, through
/// procedures, variables and functions too, and that isn't sure to hold a number, if there is one.
#[tactic(auto, using(crate::proofs::Unfit::first_unfit_tells))]
fn check_values<S: Lookups>(
    parts: &Parts,
    number: u16,
    block: &Block,
    state: &S,
) -> Result<(), Fault>
    ensures { FindsRule result number (model.value_rules parts.now block.now (S.known state.now)) }
{
    let operands = evaluation_operands(parts.entities.as_slice(), block);
    match first_unfit(parts, operands.as_slice(), state) {
        Some(parameter) => check_number(number, parameter, state),
        None => Ok(()),
    }
}

/// Whether a value takes the place of another one.
fn replaces(mode: Mode) -> bool
    ensures { result ≡ model.replaces mode }
{
    match mode {
        Mode::Set => true,
        Mode::Add | Mode::Subtract => false,
    }
}

/// The fault of the first of its own rules of the block of this number that is broken in a state, if there is one.
fn check_own_rules<S: Lookups>(
    parts: &Parts,
    number: u16,
    block: &Block,
    state: &S,
) -> Result<(), Fault>
    ensures { FindsRule result number (model.own_rules parts.now block.now (S.known state.now)) }
{
    let place = Place::Block(number);
    match block {
        Block::Generate(_) => check(EDGE_STATE, place, state.is_empty()),
        Block::Terminate(_) | Block::Assemble(_) => check(OWNS_AT_END, place, state.owns_nothing()),
        Block::Seize(f) => check(ALREADY_OWNED, place, !state.owns(*f)),
        Block::Release(f) => check(NOT_OWNER, place, state.owns(*f)),
        Block::Enter(u) => {
            let capacity = capacity_at(parts.entities.as_slice(), u.entity);
            check(OVER_CAPACITY, place, u.number <= capacity)
        }
        Block::Leave(u) | Block::Depart(u) => {
            let held = state.units_of(u.entity);
            check(TOO_FEW_UNITS, place, u.number as u64 <= held)
        }
        Block::Assign(assign) => {
            let may_change = replaces(assign.mode) || !state.is_return(assign.parameter);
            check(PARAM_KIND, place, may_change)
        }
        Block::TransferByParameter(parameter) => {
            check_use(number, *parameter, state, state.is_return(*parameter))
        }
        Block::Loop(counting) => check_number(number, counting.parameter, state),
        _ => Ok(()),
    }
}

/// The fault of the first rule of the block of this number that is broken in a state, if there is one.
pub fn check_rules<S: Lookups>(
    parts: &Parts,
    number: u16,
    block: &Block,
    state: &S,
) -> Result<(), Fault>
    ensures { Finds result (rule_checks parts.now number block.now (S.known state.now)) }
{
    check_values(parts, number, block, state)?;
    check_own_rules(parts, number, block, state)
}

/// The fault of a block for which the state table has no row, if it is to have one: a GENERATE. Where its values ask for
/// a parameter, that one isn't set.
pub(crate) fn check_without_row(parts: &Parts, number: u16, block: &Block) -> Result<(), Fault>
    ensures { FindsRule result number (model.rules_without_row parts.now block.now) }
{
    match block {
        Block::Generate(_) => {
            check_values(parts, number, block, &NoRow)?;
            check(EDGE_STATE, Place::Block(number), false)
        }
        _ => Ok(()),
    }
}
