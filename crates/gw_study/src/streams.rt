//! Whether runs may have drawn numbers that other streams draw too.

ghost use Rattle.std.specs.Prelude.{◌≡◌, ◌≤◌, ◌+◌, ◌-◌, ◌*◌, ◌^◌, ◌++◌, min, nat_lt, length, option_to_list, None, IfOk, OnOk};
ghost use Rattle.gw_notes.specs.Drawing as drawing;
ghost use Rattle.gw_study.specs.Streams as model;

use gw_figures::{Overdraw, Run, value_at};
use gw_notes::{draws, draws_at};
use gw_object::{Block, Entity, Memory, Parts};
use gw_writing::{put, put_number};
use std::alloc::Global;

/// How many numbers lie between the seeds of one stream and of the next.
const APART: u64 = 131_071;

/// So many streams a run has.
const STREAMS: u8 = 16;

/// So many numbers stand for more.
const MOST: u128 = (1 << 127) - 1;

/// How many a value in millionths is, at most 2^64; none where there is no value.
fn units_in(value: Option<i128>) -> u128
    ensures value { result ≡ model.units_in value }
    ensures range { result ≤ 2 ^ 64 }
{
    match value {
        Some(value) if value >= 0 => (value.unsigned_abs() / 1_000_000).min(1 << 64),
        _ => 0,
    }
}

/// The steps that a run made before its window.
fn steps_before(steps: u64, values: &[Option<i128>]) -> u128
    ensures value { result ≡ model.steps_before steps values.now }
    ensures range { result ≤ 2 ^ 64 }
{
    u128::from(steps).saturating_sub(units_in(value_at(values, 1)))
}

/// How often the block at a place, from 0, was entered at most.
fn entries_at(steps: u64, values: &[Option<i128>], place: usize) -> u128
    requires { place ≤ 2 ^ 32 }
    ensures value { result ≡ model.entries_at steps values.now place }
    ensures range { result ≤ 2 ^ 65 }
{
    units_in(value_at(values, 4 + 2 * place)) + steps_before(steps, values)
}

/// Whether a block that draws may refuse who comes.
fn may_refuse(block: &Block) -> bool
    ensures { result ≡ model.may_refuse block.now }
{
    match block {
        Block::Test(test) => test.otherwise.is_none(),
        _ => false,
    }
}

/// How often a block was met at most.
fn meetings(steps: u64, values: &[Option<i128>], place: usize, block: &Block) -> u128
    requires { place ≤ 2 ^ 32 }
    ensures value { result ≡ model.meetings steps values.now place block.now }
    ensures range { result ≤ 2 ^ 66 }
{
    if may_refuse(block) {
        2 * u128::from(steps)
    } else {
        entries_at(steps, values, place) + 1
    }
}

/// At most so many numbers were drawn from a stream at a block.
fn drawn_at(
    entities: &[Entity],
    stream: u8,
    steps: u64,
    values: &[Option<i128>],
    place: usize,
    block: &Block,
) -> u128
    requires { place ≤ 2 ^ 32 }
    ensures value { result ≡ drawing.draws_at entities.now stream block.now
        * model.meetings steps values.now place block.now }
    ensures range { result ≤ 3 * 2 ^ 66 }
{
    let draws = draws_at(entities, stream, block);
    if draws == 0 {
        return 0;
    }
    u128::from(draws) * meetings(steps, values, place, block)
}

/// At most so many numbers were drawn from a stream at these blocks; 2^127 - 1 stands for more.
#[tactic(auto, unfolding(crate::specs::Streams::drawn_from))]
fn drawn_from(
    entities: &[Entity],
    stream: u8,
    steps: u64,
    values: &[Option<i128>],
    blocks: &[Block],
) -> u128
    requires { length blocks.now ≤ 2 ^ 32 }
    ensures { result
        ≡ min (2 ^ 127 - 1) (model.drawn_from entities.now stream steps values.now 0 blocks.now) }
{
    let mut drawn = 0;
    for i in 0..blocks.len() {
        let more = drawn_at(entities, stream, steps, values, i, &blocks[i]);
        drawn = MOST.min(drawn + more);
    }
    drawn
}

/// At most so many numbers a run drew from a stream.
fn drawn_in(parts: &Parts, stream: u8, steps: u64, values: &[Option<i128>]) -> u128
    requires { length parts.now.blocks ≤ 2 ^ 32 }
    ensures { result ≡ model.drawn_in parts.now stream steps values.now }
{
    drawn_from(
        parts.entities.as_slice(),
        stream,
        steps,
        values,
        parts.blocks.as_slice(),
    )
}

/// How many streams behind one the next is from which a model draws; 16 where there is no other, since so far behind is the same
/// stream of the next run.
#[tactic(auto, unfolding(crate::specs::Streams::next_drawn))]
fn next_drawn(parts: &Parts, stream: u8) -> u8
    requires { stream ≤ 16 }
    ensures value { result ≡ model.next_drawn parts.now stream 1 15 }
    ensures range { result ≤ 16 }
{
    for d in 1..STREAMS {
        if draws(parts, (stream + d - 1) % STREAMS + 1) {
            return d;
        }
    }
    STREAMS
}

/// So many numbers are a stream's own: those before the next from which the model draws.
fn own_numbers(parts: &Parts, stream: u8) -> u64
    requires { stream ≤ 16 }
    ensures { result ≡ model.own_numbers parts.now stream }
{
    APART * u64::from(next_drawn(parts, stream))
}

/// Whether so many numbers of a stream are more than are its own. Each has as many as lie between two seeds, or more.
fn are_more(parts: &Parts, stream: u8, most: u128) -> bool
    requires { stream ≤ 16 }
    ensures { result ≡ nat_lt (model.own_numbers parts.now stream) most }
{
    if most <= u128::from(APART) {
        return false;
    }
    most > u128::from(own_numbers(parts, stream))
}

/// A stream from which a run may have drawn more numbers than are its own, if it may.
fn overdraw(parts: &Parts, steps: u64, values: &[Option<i128>], stream: u8) -> Option<Overdraw>
    requires stream { stream ≤ 16 }
    requires blocks { length parts.now.blocks ≤ 2 ^ 32 }
    ensures { result ≡ model.overdraw parts.now steps values.now stream }
{
    let most = drawn_in(parts, stream, steps, values);
    if !are_more(parts, stream, most) {
        return None;
    }
    Some(Overdraw {
        stream,
        most,
        own: own_numbers(parts, stream),
    })
}

/// An overdraw behind others, if there is one.
fn push(all: &mut Vec<Overdraw>, overdraw: Option<Overdraw>) -> Result<(), Memory>
    ensures { OnOk result (all.new.items ≡ all.old.items ++ option_to_list overdraw) }
{
    match overdraw {
        Some(overdraw) => {
            all.push(overdraw)?;
            Ok(())
        }
        None => Ok(()),
    }
}

/// The streams of a model of these parts from which a run of so many steps, with these values, may have drawn more numbers than lie
/// between them and the next from which the model draws: those behind them another stream of the study may have drawn too, so the
/// runs aren't independent. How many it may have drawn is a bound by the entries of the blocks that draw.
#[tactic(auto, unfolding(crate::specs::Streams::overdraws_from))]
pub(crate) fn overdraws_of(
    alloc: Global,
    parts: &Parts,
    steps: u64,
    values: &[Option<i128>],
) -> Result<Vec<Overdraw>, Memory>
    requires { length parts.now.blocks ≤ 2 ^ 32 }
    ensures { IfOk result (λ all. all.items ≡ model.overdraws_of parts.now steps values.now) }
{
    let mut all = Vec::new(alloc);
    for stream in 1..STREAMS + 1 {
        push(&mut all, overdraw(parts, steps, values, stream))?;
    }
    Ok(all)
}

/// The greater of two overdraws, of which the first may not be there.
fn greater(most: Option<Overdraw>, other: Overdraw) -> Overdraw
    ensures { result ≡ model.greater most other }
{
    match most {
        Some(most) if most.most >= other.most => most,
        _ => other,
    }
}

/// The greatest overdraw of a stream among these and the greatest so far.
#[tactic(auto, unfolding(crate::specs::Streams::greatest))]
fn greatest(stream: u8, so_far: Option<Overdraw>, overdraws: &[Overdraw]) -> Option<Overdraw>
    ensures { result ≡ model.greatest stream so_far overdraws.now }
{
    let mut most = so_far;
    for i in 0..overdraws.len() {
        if overdraws[i].stream == stream {
            most = Some(greater(most, overdraws[i]));
        }
    }
    most
}

/// The greatest overdraw of a stream in runs.
#[tactic(auto, unfolding(crate::specs::Streams::greatest_of))]
fn greatest_of(stream: u8, runs: &[Run]) -> Option<Overdraw>
    ensures { result ≡ model.greatest_of stream None runs.now }
{
    let mut most = None;
    for i in 0..runs.len() {
        most = greatest(stream, most, &runs[i].overdraws);
    }
    most
}

/// What is told of a stream that may have come to where the next begins.
#[tactic(auto, unfolding(crate::specs::Streams::stream_text))]
fn put_stream_text(out: &mut Vec<u8>, overdraw: Overdraw) -> Result<(), Memory>
    ensures { OnOk result (out.new.items ≡ out.old.items ++ model.stream_text overdraw) }
{
    put_number(out, "STREAMS RN", overdraw.stream)?;
    put_number(out, " may draw ", overdraw.most)?;
    put_number(out, " numbers in a run, and has ", overdraw.own)?;
    put(
        out,
        " of its own: then come those of another stream, so try shorter runs\n",
    )
}

/// The line of a stream, where it may have come to where the next begins.
fn put_stream(out: &mut Vec<u8>, overdraw: Option<Overdraw>) -> Result<(), Memory>
    ensures { OnOk result (out.new.items ≡ out.old.items ++ model.stream_line overdraw) }
{
    match overdraw {
        Some(overdraw) => put_stream_text(out, overdraw),
        None => Ok(()),
    }
}

/// Appends a line for each stream from which one of these runs may have drawn more numbers than are its own, with the most that one
/// may have drawn.
#[tactic(auto, unfolding(crate::specs::Streams::streams_from))]
pub(crate) fn put_streams(out: &mut Vec<u8>, runs: &[Run]) -> Result<(), Memory>
    ensures { OnOk result (out.new.items ≡ out.old.items ++ model.streams_text runs.now) }
{
    for stream in 1..STREAMS + 1 {
        put_stream(out, greatest_of(stream, runs))?;
    }
    Ok(())
}
