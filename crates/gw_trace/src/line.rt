//! The line of a step.

ghost use Rattle.std.specs.Prelude.{◌≡◌};
ghost use Rattle.std.specs.Option.{option_copied};
ghost use Rattle.gw_writing.specs.Text.{Puts};
ghost use Rattle.gw_trace.specs.Lines as model;
ghost use Rattle.gw_trace.specs.Lines.{of_step};

use crate::columns::{put_column, put_number_or_dash};
use crate::happening::{Happening, is_delayed, let_in, what_happened, woken};
use crate::sight::{Choice, Sight, next_block};
use gw_machine::block_of;
use gw_object::{Block, Memory, Parts};
use gw_report::{block_word, status_word};
use gw_scan::{Sim, Status};
use gw_writing::{put, put_number};

/// A step: what was seen before it, and the state that it led to.
#[derive(Clone, Copy)]
struct Step<'a> {
    /// What was seen before it.
    before: &'a Sight,
    /// The job after it.
    sim: &'a Sim,
}

/// The entity that a block is about, by its number from 0, if it is about one.
fn entity_of(block: &Block) -> Option<u16>
    ensures { result ≡ model.entity_of block.now }
{
    match block {
        Block::Seize(entity) | Block::Release(entity) | Block::Tabulate(entity) => Some(*entity),
        Block::Enter(units) | Block::Leave(units) | Block::Queue(units) | Block::Depart(units) => {
            Some(units.entity)
        }
        Block::Gate(gate) => Some(gate.entity),
        Block::Link(link) => Some(link.chain),
        Block::Unlink(unlink) => Some(unlink.chain),
        Block::Logic(logic) => Some(logic.switch),
        Block::Savevalue(save) => Some(save.savevalue),
        _ => None,
    }
}

/// A blank and the name of an entity, which is given by its number from 0.
fn put_name(out: &mut Vec<u8>, parts: &Parts, entity: u16) -> Result<(), Memory>
    ensures { Puts result out.old out.new (model.name_text parts.now entity) }
{
    match parts.entities.as_slice().get(entity as usize) {
        Some(entity) => {
            put(out, " ")?;
            out.extend_from_slice(entity.name.as_slice())
        }
        None => Ok(()),
    }
}

/// The word of a block, and the name of its entity.
fn put_block(out: &mut Vec<u8>, parts: &Parts, block: &Block) -> Result<(), Memory>
    ensures { Puts result out.old out.new (model.block_text parts.now block.now) }
{
    put(out, block_word(block))?;
    match entity_of(block) {
        Some(entity) => put_name(out, parts, entity),
        None => Ok(()),
    }
}

/// The block of a number, from 1.
fn put_block_at(out: &mut Vec<u8>, parts: &Parts, number: u16) -> Result<(), Memory>
    ensures { Puts result out.old out.new (model.block_at_text parts.now number) }
{
    match block_of(parts.blocks.as_slice(), number) {
        Some(block) => put_block(out, parts, block),
        None => put(out, "no block"),
    }
}

/// Where a transaction rests that entered a block of this kind and lives on.
fn resting_place(block: Option<&Block>) -> &'static str
    ensures { result.now ≡ model.resting_place (option_copied block.entry) }
{
    match block {
        Some(Block::Advance(_)) => ", waits on the future events chain",
        Some(Block::Link(_)) => ", waits on the user chain",
        Some(Block::Assemble(_)) => ", waits for the rest of its set",
        _ => ", goes back to the current events chain",
    }
}

/// What became of who entered a block: nothing is said where it is still active.
fn put_rest(out: &mut Vec<u8>, step: &Step<'_>, block: Option<&Block>) -> Result<(), Memory>
    ensures { Puts result out.old out.new (of_step step.now model.rest_text (option_copied block.entry)) }
{
    if step.sim.active().is_some() {
        Ok(())
    } else if step.sim.live() < step.before.live {
        put(out, ", leaves the model")
    } else {
        put(out, resting_place(block))
    }
}

/// The facility that a block gives up, by its number from 0 as an entity, if it is a RELEASE.
fn released_by(block: Option<&Block>) -> Option<u16>
    ensures { result ≡ model.released_by (option_copied block.entry) }
{
    match block {
        Some(Block::Release(facility)) => Some(*facility),
        _ => None,
    }
}

/// To whom a facility was handed over.
fn put_heir(out: &mut Vec<u8>, sim: &Sim, facility: u16) -> Result<(), Memory>
    ensures { Puts result out.old out.new (model.heir_text sim.now.state facility) }
{
    put_number(out, ", handed over to ", sim.owner(facility).unwrap_or(0))
}

/// How many waiters were let in.
fn put_let_in_count(out: &mut Vec<u8>, count: usize) -> Result<(), Memory>
    ensures { Puts result out.old out.new (model.let_in_count count) }
{
    put_number(out, ", let in from its delay list: ", count)
}

/// To whom the facility of a RELEASE was handed over, or how many a LEAVE let in.
fn put_taken(
    out: &mut Vec<u8>,
    sim: &Sim,
    count: usize,
    released: Option<u16>,
) -> Result<(), Memory>
    ensures { Puts result out.old out.new (model.taken_text sim.now.state count released) }
{
    match released {
        Some(facility) => put_heir(out, sim, facility),
        None => put_let_in_count(out, count),
    }
}

/// The same, if somebody left a delay list.
fn put_let_in(out: &mut Vec<u8>, step: &Step<'_>, block: Option<&Block>) -> Result<(), Memory>
    ensures { Puts result out.old out.new (of_step step.now model.let_in_text (option_copied block.entry)) }
{
    let count = let_in(step.before, step.sim);
    if count == 0 {
        return Ok(());
    }
    put_taken(out, step.sim, count, released_by(block))
}

/// An entry of the block of a number, from 1, and what became of it.
fn put_entry(out: &mut Vec<u8>, parts: &Parts, step: &Step<'_>, number: u16) -> Result<(), Memory>
    ensures { Puts result out.old out.new (of_step step.now (model.entry_text parts.now) number) }
{
    put(out, "enters ")?;
    put_block_at(out, parts, number)?;
    let block = block_of(parts.blocks.as_slice(), number);
    put_rest(out, step, block)?;
    put_let_in(out, step, block)
}

/// Two blocks, and a text between them.
fn put_choice(out: &mut Vec<u8>, parts: &Parts, choice: Choice, between: &str) -> Result<(), Memory>
    ensures { Puts result out.old out.new (model.choice_text parts.now choice between.now) }
{
    put_block_at(out, parts, choice.first.block)?;
    put(out, between)?;
    put_block_at(out, parts, choice.second.block)
}

/// Where a transaction rests that one block refused.
fn waiting_place(before: &Sight, sim: &Sim) -> &'static str
    ensures { result.now ≡ model.waiting_place before.now sim.now.state }
{
    if is_delayed(before, sim) {
        ", waits on its delay list"
    } else {
        ", waits on the retry list"
    }
}

/// A refusal by both of two blocks, and where the refused one rests.
fn put_refusal_by_both(out: &mut Vec<u8>, parts: &Parts, choice: Choice) -> Result<(), Memory>
    ensures { Puts result out.old out.new (model.refusal_by_both parts.now choice) }
{
    put(out, "refused by both ")?;
    put_choice(out, parts, choice, " and ")?;
    put(out, ", waits on the retry list")
}

/// A refusal, and where the refused one rests.
fn put_refusal(out: &mut Vec<u8>, parts: &Parts, step: &Step<'_>) -> Result<(), Memory>
    ensures { Puts result out.old out.new (of_step step.now (model.refusal_text parts.now)) }
{
    if let Some(choice) = step.before.choice {
        return put_refusal_by_both(out, parts, choice);
    }
    put(out, "refused by ")?;
    put_block_at(out, parts, step.before.next.block)?;
    put(out, waiting_place(step.before, step.sim))
}

/// What a transaction tried to enter: a block, or one of two.
fn put_tried(out: &mut Vec<u8>, parts: &Parts, before: &Sight) -> Result<(), Memory>
    ensures { Puts result out.old out.new (model.attempt_text parts.now before.now) }
{
    match before.choice {
        None => put_block_at(out, parts, before.next.block),
        Some(choice) => put_choice(out, parts, choice, " or "),
    }
}

/// Where a run stopped by an end that changes nothing else.
fn put_stop(out: &mut Vec<u8>, parts: &Parts, before: &Sight) -> Result<(), Memory>
    ensures { Puts result out.old out.new (model.stop_text parts.now before.now) }
{
    match before.active {
        None => put(out, "nobody is left to move"),
        Some(_) => {
            put(out, "stopped at ")?;
            put_tried(out, parts, before)
        }
    }
}

/// What happened, but for whom it woke and the end of the run.
fn put_happening(
    out: &mut Vec<u8>,
    parts: &Parts,
    step: &Step<'_>,
    happening: Happening,
) -> Result<(), Memory>
    ensures { Puts result out.old out.new (of_step step.now (model.happening_text parts.now) happening) }
{
    match happening {
        Happening::Activation => put(out, "becomes active"),
        Happening::ClockMove => put(out, "the clock moves"),
        Happening::Entry(number) => put_entry(out, parts, step, number),
        Happening::Refusal => put_refusal(out, parts, step),
        Happening::Stop => put_stop(out, parts, step.before),
    }
}

/// How many of the retry list were woken.
fn put_woken_count(out: &mut Vec<u8>, count: usize) -> Result<(), Memory>
    ensures { Puts result out.old out.new (model.woken_count count) }
{
    put_number(out, ", woken from the retry list: ", count)
}

/// The same, if any were.
fn put_woken(out: &mut Vec<u8>, count: usize) -> Result<(), Memory>
    ensures { Puts result out.old out.new (model.woken_text count) }
{
    if count == 0 {
        return Ok(());
    }
    put_woken_count(out, count)
}

/// The named end to which the run came, if it did.
fn put_end(out: &mut Vec<u8>, sim: &Sim) -> Result<(), Memory>
    ensures { Puts result out.old out.new (model.end_text sim.now.state.ended) }
{
    match sim.status() {
        Status::Running => Ok(()),
        Status::Ended(end) => {
            put(out, ", the run ends: ")?;
            put(out, status_word(Status::Ended(end)))
        }
    }
}

/// The numbers of a transaction and of a block, each from 1; a dash for 0, which stands for none.
fn put_numbers(out: &mut Vec<u8>, transaction: Option<u64>, block: u16) -> Result<(), Memory>
    ensures { Puts result out.old out.new (model.subject_columns transaction block) }
{
    put_number_or_dash(out, 8, transaction.unwrap_or(0))?;
    put_number_or_dash(out, 7, u64::from(block))
}

/// The numbers of the transaction and of the block that a step was about.
fn put_subject(out: &mut Vec<u8>, step: &Step<'_>, happening: Happening) -> Result<(), Memory>
    ensures { Puts result out.old out.new (of_step step.now model.subject happening) }
{
    match happening {
        Happening::Activation => put_numbers(out, step.sim.active(), next_block(step.sim)),
        Happening::Entry(block) => put_numbers(out, step.before.active, block),
        _ => put_numbers(out, step.before.active, step.before.next.block),
    }
}

/// How many are on the current events chain, on the future events chain, on delay lists and on the retry list.
fn put_lengths(out: &mut Vec<u8>, sim: &Sim) -> Result<(), Memory>
    ensures { Puts result out.old out.new (model.lengths sim.now.state) }
{
    put_column(out, 7, sim.current_events())?;
    put_column(out, 7, sim.future_events())?;
    put_column(out, 7, sim.delayed_len())?;
    put_column(out, 7, sim.retry_len())
}

/// The columns of a line.
#[tactic(auto, unfolding(crate::specs::Lines::columns))]
fn put_columns(out: &mut Vec<u8>, step: &Step<'_>, happening: Happening) -> Result<(), Memory>
    ensures { Puts result out.old out.new (of_step step.now model.columns happening) }
{
    put_column(out, 12, step.sim.clock())?;
    put_subject(out, step, happening)?;
    put_lengths(out, step.sim)?;
    put(out, "  ")
}

/// What happened, whom it woke, and the end of the run, if it ended.
#[tactic(auto, unfolding(crate::specs::Lines::words))]
fn put_words(
    out: &mut Vec<u8>,
    parts: &Parts,
    step: &Step<'_>,
    happening: Happening,
) -> Result<(), Memory>
    ensures { Puts result out.old out.new (of_step step.now (model.words parts.now) happening) }
{
    put_happening(out, parts, step, happening)?;
    put_woken(out, woken(step.before, step.sim, happening))?;
    put_end(out, step.sim)?;
    put(out, "\n")
}

/// The line of the step that led from what was seen to the state that a job is in.
pub(crate) fn put_line(out: &mut Vec<u8>, before: &Sight, sim: &Sim) -> Result<(), Memory>
    ensures { Puts result out.old out.new (model.step_line sim.now.job.parts before.now sim.now.state) }
{
    let parts = sim.spec().verified_object().object().parts();
    let happening = what_happened(before, sim);
    let step = Step { before, sim };
    put_columns(out, &step, happening)?;
    put_words(out, parts, &step, happening)
}
