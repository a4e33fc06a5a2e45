//! From which streams of random numbers a model draws, and how often.

ghost use Rattle.std.specs.Prelude.{◌≡◌, ◌≤◌};
ghost use Rattle.gw_notes.specs.Drawing as model;

use gw_object::{Block, Entity, Operand, Parts, Spread};
use gw_rules::{operand_at, source_of};

/// Whether an operand is RN of a stream.
fn is_random(operand: Operand, stream: u8) -> bool
    ensures { result ≡ model.is_random stream operand }
{
    match operand {
        Operand::Random(number) => number == stream,
        _ => false,
    }
}

/// Whether an operand is the number 0.
pub(crate) fn is_zero(operand: Operand) -> bool
    ensures { result ≡ model.is_zero operand }
{
    match operand {
        Operand::Constant(number) => number == 0,
        _ => false,
    }
}

/// How often an operand draws from a stream.
fn drawn(entities: &[Entity], stream: u8, operand: Operand) -> u64
    ensures value { result ≡ model.draws_of entities.now stream operand }
    ensures range { result ≤ 1 }
{
    if is_random(source_of(entities, operand), stream) {
        1
    } else {
        0
    }
}

/// How often an operand that may not be there draws from a stream.
fn drawn_if(entities: &[Entity], stream: u8, operand: Option<Operand>) -> u64
    ensures value { result ≡ model.drawn_if entities.now stream operand }
    ensures range { result ≤ 1 }
{
    match operand {
        Some(operand) => drawn(entities, stream, operand),
        None => 0,
    }
}

/// How often a random time draws from a stream itself.
fn own_draws(stream: u8, time: Spread) -> u64
    ensures value { result ≡ model.own_draws stream time }
    ensures range { result ≤ 1 }
{
    if stream == 1 && !is_zero(time.half) {
        1
    } else {
        0
    }
}

/// How often a random time draws from a stream at most.
fn time_draws(entities: &[Entity], stream: u8, time: Spread) -> u64
    ensures value { result ≡ model.time_draws entities.now stream time }
    ensures range { result ≤ 3 }
{
    drawn(entities, stream, time.mean)
        + drawn(entities, stream, time.half)
        + own_draws(stream, time)
}

/// How often a block draws at most from a stream, which is given by its number from 1, where it is met once: at most 3 times. PLUS
/// code draws nothing.
#[tactic(auto, unfolding(crate::specs::Drawing::draws_at))]
pub fn draws_at(entities: &[Entity], stream: u8, block: &Block) -> u64
    ensures value { result ≡ model.draws_at entities.now stream block.now }
    ensures range { result ≤ 3 }
{
    match block {
        Block::Generate(g) => time_draws(entities, stream, g.interval),
        Block::Advance(time) => time_draws(entities, stream, *time),
        Block::TransferByFraction(_) => u64::from(stream == 1),
        Block::Terminate(by) => drawn(entities, stream, *by),
        Block::Assign(assign) => drawn(entities, stream, assign.value),
        Block::Savevalue(save) => drawn(entities, stream, save.value),
        Block::Test(test) => {
            drawn(entities, stream, test.left) + drawn(entities, stream, test.right)
        }
        Block::Priority(change) => drawn(entities, stream, change.value),
        Block::Plus(plus) => drawn(entities, stream, plus.value),
        Block::Tabulate(table) => drawn_if(entities, stream, operand_at(entities, *table)),
        _ => 0,
    }
}

/// Whether a block draws from a stream.
fn block_draws(entities: &[Entity], stream: u8, block: &Block) -> bool
    ensures { result ≡ model.block_draws entities.now stream block.now }
{
    draws_at(entities, stream, block) > 0
}

/// Whether a model draws from a stream, which is given by its number from 1.
pub fn draws(parts: &Parts, stream: u8) -> bool
    ensures { result ≡ model.draws parts.now stream }
{
    let entities = parts.entities.as_slice();
    parts
        .blocks
        .as_slice()
        .iter()
        .any(|block| block_draws(entities, stream, block))
}
