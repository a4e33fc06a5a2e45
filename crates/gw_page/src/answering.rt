//! What is asked of a model, and what it is answered.

ghost use Rattle.std.specs.Prelude.{◌≡◌, true, IfOk};
ghost use Rattle.gw_command_line.specs.Asking.{MayBeCarriedOut};
ghost use Rattle.gw_command_line.specs.Options.{view};
ghost use Rattle.gw_command_line.specs.Words.{act_of};
ghost use Rattle.gw_planner.specs.Answers.{act_answering};
ghost use Rattle.gw_planner.specs.Works.{HasFewPoints, IsWorkOf};
ghost use Rattle.gw_page.specs.Inquiries.{is_offered};
ghost use Rattle.gw_page.specs.Answers as model;
ghost use Rattle.gw_page.specs.Answers.{TellsRefusal, IsSaid, IsReplyTo};
ghost use Rattle.gw_page.specs.Limits.{IsAllowance};

use crate::limits::{Allowance, allowance_of};
use crate::reply::{Kind, Outcome, Reply};
use crate::texts::{NO_MEMORY, TOO_FAR, TOO_LONG, TOO_MANY, UNCOUNTED};
use gw_answers::Answer;
use gw_answers::status::ENDED;
use gw_command_line::{Command, Options, Question};
use gw_explain::explain;
use gw_object::Memory;
use gw_planner::{Work, carry_out, work_of};
use std::alloc::Global;
use std::io::Eprint;
use std::thread::Threads;

/// What kind of text a study is.
fn kind_of_study(options: &Options<'_>) -> Kind
    ensures { result ≡ model.kind_of_study (view options.now) }
{
    if options.figure.is_some() {
        Kind::Svg
    } else if options.csv {
        Kind::Csv
    } else {
        Kind::Plain
    }
}

/// What kind of text answers a command.
fn kind_of(command: &Command<'_>) -> Kind
    ensures { result ≡ model.kind_of (act_of command.now) }
{
    match command {
        Command::Ask(Question::Points(_)) | Command::Runs(_) => Kind::Csv,
        Command::Chart(_) => Kind::Svg,
        Command::Study(study) => kind_of_study(&study.options),
        _ => Kind::Plain,
    }
}

/// What is said where a command costs more than it may.
fn excess_of(command: &Command<'_>) -> &'static [u8]
    ensures { result.now ≡ model.excess_of (act_of command.now) }
{
    match command {
        Command::Ask(Question::Trace { from: _, to: _ }) => TOO_FAR,
        Command::Study(_) | Command::Runs(_) => TOO_MANY,
        _ => TOO_LONG,
    }
}

/// A reply of this text.
pub(crate) fn said(
    alloc: Global,
    outcome: Outcome,
    kind: Kind,
    text: &[u8],
) -> Result<Reply, Memory>
    ensures { IfOk result (IsSaid outcome kind text.now) }
{
    Ok(Reply {
        outcome,
        kind,
        text: Vec::from_slice(alloc, text)?,
    })
}

/// What is told where something is refused: the explanation of the model where that is refused, else the refusal of what is asked.
fn refusal_of(alloc: Global, text: &[u8], own: Answer) -> Result<Vec<u8>, Memory>
    ensures { IfOk result (λ told. TellsRefusal text.now own.text.items told.items) }
{
    let explained = explain(alloc, text)?;
    if explained.status == ENDED {
        return Ok(own.text);
    }
    Ok(explained.text)
}

/// The reply where something is refused.
fn refusal(alloc: Global, text: &[u8], own: Answer) -> Result<Reply, Memory>
    ensures said { IfOk result (λ reply. (reply.outcome ≡ Outcome.Refused) × (reply.kind ≡ Kind.Plain)) }
    ensures told { IfOk result (λ reply. TellsRefusal text.now own.text.items reply.text.items) }
{
    Ok(Reply {
        outcome: Outcome::Refused,
        kind: Kind::Plain,
        text: refusal_of(alloc, text, own)?,
    })
}

/// The reply by an answer, of what costs what it may or can't be counted: then it has to be a refusal.
fn reply_by(
    alloc: Global,
    command: &Command<'_>,
    text: &[u8],
    answer: Answer,
    allowance: Allowance,
) -> Result<Reply, Memory>
    requires answer { act_answering (act_of command.now) text.now answer.text.items answer.status }
    requires allowed { IsAllowance (act_of command.now) text.now allowance }
    ensures { IfOk result (IsReplyTo (act_of command.now) text.now) }
{
    if answer.status != ENDED {
        return refusal(alloc, text, answer);
    }
    if allowance != Allowance::Within {
        return said(alloc, Outcome::Unavailable, Kind::Plain, UNCOUNTED);
    }
    Ok(Reply {
        outcome: Outcome::Answered,
        kind: kind_of(command),
        text: answer.text,
    })
}

/// The reply to a command about a text, with what it needs of that.
fn reply_with<T: Threads + Sync + Eprint>(
    rt: &T,
    alloc: Global,
    command: &Command<'_>,
    text: &[u8],
    work: Work,
) -> Result<Reply, Memory>
    requires fit { MayBeCarriedOut command.now }
    requires offered { is_offered (act_of command.now) ≡ true }
    requires work { IsWorkOf (act_of command.now) text.now work }
    requires few { HasFewPoints work }
    ensures { IfOk result (IsReplyTo (act_of command.now) text.now) }
{
    let allowance = allowance_of(alloc, command, &work)?;
    if allowance == Allowance::Exceeded {
        return said(alloc, Outcome::Unavailable, Kind::Plain, excess_of(command));
    }
    let answer = carry_out(rt, alloc, command, text, work)?;
    reply_by(alloc, command, text, answer, allowance)
}

/// The reply to a command about a text that the page offers. `Err` where memory runs out.
pub(crate) fn reply_to_inquiry<T: Threads + Sync + Eprint>(
    rt: &T,
    alloc: Global,
    command: &Command<'_>,
    text: &[u8],
) -> Result<Reply, Memory>
    requires fit { MayBeCarriedOut command.now }
    requires offered { is_offered (act_of command.now) ≡ true }
    ensures { IfOk result (IsReplyTo (act_of command.now) text.now) }
{
    let work = work_of(alloc, command, text)?;
    reply_with(rt, alloc, command, text, work)
}

/// The reply where memory ran out.
pub(crate) fn no_memory(alloc: Global) -> Result<Reply, Memory>
    ensures { IfOk result (IsSaid Outcome.Unavailable Kind.Plain NO_MEMORY.now) }
{
    said(alloc, Outcome::Unavailable, Kind::Plain, NO_MEMORY)
}
