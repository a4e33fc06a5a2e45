//! Decoded blocks: what of a block can be worked out before any job runs, once for each object.

ghost use Rattle.std.specs.Prelude.{◌≡◌, ◌≤◌, map, length, pos, ◌+◌, Some, IfOk, IfSome};
ghost use Rattle.gw_machine.specs.Spans.{spread_of};
ghost use Rattle.gw_rules.specs.Kinds.{block_at};
ghost use Rattle.gw_scan.specs.Origins.{origin};

use gw_machine::Span;
use gw_members::Memory;
use gw_object::{
    Assign, Block, Both, Call, Fraction, Gate, Generate, Link, Logic, Loop, Mode, Operand, Plus,
    Priority, Save, Split, Spread, Test, Units, Unlink,
};
use std::alloc::Global;

/// The operands of a GENERATE whose interval is of constants.
#[derive(Clone, Copy)]
pub(crate) struct Arrivals {
    /// The time between two arrivals.
    pub interval: Span,
    /// When the first arrival comes, in clock units; without it after a drawn interval.
    pub first: Option<i64>,
    /// How many arrivals there are at most; without it there is no such limit.
    pub limit: Option<u32>,
    /// The priority of the arrivals.
    pub priority: i32,
}

/// The operands of an ASSIGN of a constant.
#[derive(Clone, Copy)]
pub(crate) struct AssignConstant {
    /// The parameter's number, from 1 to 64.
    pub parameter: u8,
    /// How the value is put there; a parameter that isn't set counts as 0.
    pub mode: Mode,
    /// The value.
    pub value: i64,
}

/// The operands of a SAVEVALUE with a constant.
#[derive(Clone, Copy)]
pub(crate) struct SaveConstant {
    /// The savevalue's entity's number, from 0.
    pub savevalue: u16,
    /// How the value is put there.
    pub mode: Mode,
    /// The value.
    pub value: i64,
}

/// The operands of a PRIORITY with a constant that is a priority.
#[derive(Clone, Copy)]
pub(crate) struct PriorityConstant {
    /// The new priority.
    pub value: i32,
    /// Whether the transaction joins the current events chain behind those of that priority, and not ahead of them.
    pub behind: bool,
}

/// A block as a step meets it. Where operands are constants they are worked out; else they are the block's.
#[derive(Clone, Copy)]
pub(crate) enum Decoded {
    /// GENERATE with an interval of constants.
    GenerateWithin(Arrivals),
    /// ADVANCE by constants.
    AdvanceWithin(Span),
    /// TERMINATE by a constant.
    TerminateBy(u32),
    /// ASSIGN of a constant.
    AssignConstant(AssignConstant),
    /// SAVEVALUE with a constant.
    SavevalueConstant(SaveConstant),
    /// PRIORITY with a constant.
    PriorityConstant(PriorityConstant),
    /// GENERATE with another interval.
    Generate(Generate),
    /// TERMINATE by another number.
    Terminate(Operand),
    /// ADVANCE by another time.
    Advance(Spread),
    /// SEIZE.
    Seize(u16),
    /// RELEASE.
    Release(u16),
    /// ENTER.
    Enter(Units),
    /// LEAVE.
    Leave(Units),
    /// QUEUE.
    Queue(Units),
    /// DEPART.
    Depart(Units),
    /// ASSIGN.
    Assign(Assign),
    /// TEST.
    Test(Test),
    /// GATE.
    Gate(Gate),
    /// TRANSFER in unconditional mode.
    Transfer(u16),
    /// TRANSFER in fractional mode.
    TransferByFraction(Fraction),
    /// TRANSFER in both mode.
    TransferBoth(Both),
    /// TRANSFER in subroutine mode.
    TransferToSubroutine(Call),
    /// TRANSFER in parameter mode.
    TransferByParameter(u8),
    /// LOOP.
    Loop(Loop),
    /// SPLIT.
    Split(Split),
    /// ASSEMBLE.
    Assemble(u16),
    /// LINK.
    Link(Link),
    /// UNLINK.
    Unlink(Unlink),
    /// LOGIC.
    Logic(Logic),
    /// SAVEVALUE.
    Savevalue(Save),
    /// MARK.
    Mark(Option<u8>),
    /// PRIORITY.
    Priority(Priority),
    /// BUFFER.
    Buffer,
    /// PLUS.
    Plus(Plus),
    /// TABULATE.
    Tabulate(u16),
}

/// The times that a mean and a half-range of so many clock units give, where a span can hold them.
fn span_between(mean: i64, half: i64) -> Option<Span>
    ensures { IfSome result (λ span. (mean ≡ pos (span.least + span.half)) × (half ≡ pos span.half)) }
{
    let half = u32::try_from(half).ok()?;
    let least = u32::try_from(mean).ok()?.checked_sub(half)?;
    Some(Span { least, half })
}

/// The times that an operand pair gives, if both are constants and a span can hold them.
fn span_of(spread: Spread) -> Option<Span>
    ensures { IfSome result (λ span. spread ≡ spread_of span) }
{
    match (spread.mean, spread.half) {
        (Operand::Constant(mean), Operand::Constant(half)) => span_between(mean, half),
        _ => None,
    }
}

/// GENERATE, decoded.
fn decode_generate(g: Generate) -> Decoded
    ensures { origin result ≡ Block.Generate g }
{
    match span_of(g.interval) {
        Some(interval) => Decoded::GenerateWithin(Arrivals {
            interval,
            first: g.first,
            limit: g.limit,
            priority: g.priority,
        }),
        None => Decoded::Generate(g),
    }
}

/// ADVANCE, decoded.
fn decode_advance(time: Spread) -> Decoded
    ensures { origin result ≡ Block.Advance time }
{
    match span_of(time) {
        Some(span) => Decoded::AdvanceWithin(span),
        None => Decoded::Advance(time),
    }
}

/// TERMINATE by a number, decoded.
fn decode_exit(by: i64) -> Decoded
    ensures { origin result ≡ Block.Terminate (Operand.Constant by) }
{
    match u32::try_from(by) {
        Ok(by) => Decoded::TerminateBy(by),
        Err(_) => Decoded::Terminate(Operand::Constant(by)),
    }
}

/// TERMINATE, decoded.
fn decode_terminate(by: Operand) -> Decoded
    ensures { origin result ≡ Block.Terminate by }
{
    match by {
        Operand::Constant(by) => decode_exit(by),
        _ => Decoded::Terminate(by),
    }
}

/// ASSIGN, decoded.
fn decode_assign(assign: Assign) -> Decoded
    ensures { origin result ≡ Block.Assign assign }
{
    match assign.value {
        Operand::Constant(value) => Decoded::AssignConstant(AssignConstant {
            parameter: assign.parameter,
            mode: assign.mode,
            value,
        }),
        _ => Decoded::Assign(assign),
    }
}

/// SAVEVALUE, decoded.
fn decode_save(save: Save) -> Decoded
    ensures { origin result ≡ Block.Savevalue save }
{
    match save.value {
        Operand::Constant(value) => Decoded::SavevalueConstant(SaveConstant {
            savevalue: save.savevalue,
            mode: save.mode,
            value,
        }),
        _ => Decoded::Savevalue(save),
    }
}

/// PRIORITY with a number, decoded.
fn decode_priority_to(value: i64, behind: bool) -> Decoded
    ensures { origin result
        ≡ Block.Priority (record { value = Operand.Constant value; behind = behind }) }
{
    match i32::try_from(value) {
        Ok(value) => Decoded::PriorityConstant(PriorityConstant { value, behind }),
        Err(_) => Decoded::Priority(Priority {
            value: Operand::Constant(value),
            behind,
        }),
    }
}

/// PRIORITY, decoded.
fn decode_priority(change: Priority) -> Decoded
    ensures { origin result ≡ Block.Priority change }
{
    match change.value {
        Operand::Constant(value) => decode_priority_to(value, change.behind),
        _ => Decoded::Priority(change),
    }
}

/// A block, decoded.
fn decode(block: Block) -> Decoded
    ensures { origin result ≡ block }
{
    match block {
        Block::Generate(g) => decode_generate(g),
        Block::Terminate(by) => decode_terminate(by),
        Block::Advance(time) => decode_advance(time),
        Block::Seize(it) => Decoded::Seize(it),
        Block::Release(it) => Decoded::Release(it),
        Block::Enter(it) => Decoded::Enter(it),
        Block::Leave(it) => Decoded::Leave(it),
        Block::Queue(it) => Decoded::Queue(it),
        Block::Depart(it) => Decoded::Depart(it),
        Block::Assign(assign) => decode_assign(assign),
        Block::Test(it) => Decoded::Test(it),
        Block::Gate(it) => Decoded::Gate(it),
        Block::Transfer(it) => Decoded::Transfer(it),
        Block::TransferByFraction(it) => Decoded::TransferByFraction(it),
        Block::TransferBoth(it) => Decoded::TransferBoth(it),
        Block::TransferToSubroutine(it) => Decoded::TransferToSubroutine(it),
        Block::TransferByParameter(it) => Decoded::TransferByParameter(it),
        Block::Loop(it) => Decoded::Loop(it),
        Block::Split(it) => Decoded::Split(it),
        Block::Assemble(it) => Decoded::Assemble(it),
        Block::Link(it) => Decoded::Link(it),
        Block::Unlink(it) => Decoded::Unlink(it),
        Block::Logic(it) => Decoded::Logic(it),
        Block::Savevalue(save) => decode_save(save),
        Block::Mark(it) => Decoded::Mark(it),
        Block::Priority(change) => decode_priority(change),
        Block::Buffer => Decoded::Buffer,
        Block::Plus(it) => Decoded::Plus(it),
        Block::Tabulate(it) => Decoded::Tabulate(it),
    }
}

/// The decoded block of a number, from 1. There is one.
pub(crate) fn decoded_at(table: &[Decoded], number: u16) -> &Decoded
    requires { (1 ≤ number) × (number ≤ length table.now) }
    ensures { block_at (map origin table.now) number ≡ Some (origin result.now) }
{
    &table[number as usize - 1]
}

/// These blocks in their order, each decoded.
pub(crate) fn decode_all(alloc: Global, blocks: &[Block]) -> Result<Vec<Decoded>, Memory>
    ensures { IfOk result (λ table. map origin table.items ≡ blocks.now) }
{
    let mut table = Vec::new(alloc);
    for block in blocks {
        table.push(decode(*block))?;
    }
    Ok(table)
}
