//! Commands about an input in memory, and their answers.

ghost use Rattle.std.specs.Prelude.{◌≡◌, ℕ, List, true, IfOk};
ghost use Rattle.gw_command_line.specs.Asking.{MayBeCarriedOut};
ghost use Rattle.gw_command_line.specs.Words.{Ask, act_of};
ghost use Rattle.gw_planner.specs.Answers.{act_answering, question_answering, is_of_input, window_of as window_for};
ghost use Rattle.gw_planner.specs.Works.{needs_input, ArePointsFor, IsJobFor, IsJobOfQuestion, IsWorkOf};

use crate::converting::conversion;
use crate::rows::{object_of, rows_of, share_of};
use crate::studies::{comparison_of, study_of};
use crate::work::{Work, work_of};
use gw_alternatives::StudyPoint;
use gw_answers::{Answer, BUDGET, answer_of_job};
use gw_chart::{Window, chart, points};
use gw_command_line::{Command, Question, Span};
use gw_explain::{explain, explain_code};
use gw_listing::list;
use gw_object::Memory;
use gw_scan::Spec;
use gw_trace::trace;
use std::alloc::Global;
use std::io::Eprint;
use std::thread::Threads;

/// The window of a run that is shown.
fn window_of(span: Span) -> Window
    ensures { result ≡ window_for span }
{
    Window {
        from: span.from,
        to: span.to,
    }
}

/// The answer of a question that needs the input as it stands.
fn answer_question(alloc: Global, question: Question, input: &[u8]) -> Result<Answer, Memory>
    requires { needs_input (Ask question) ≡ true }
    ensures { IfOk result (λ a. question_answering question input.now a.text.items a.status) }
{
    match question {
        Question::Explain => explain(alloc, input),
        Question::List => list(alloc, input),
        Question::Convert => conversion(alloc, input),
        Question::Points(_)
        | Question::Trace { from: _, to: _ }
        | Question::Report { seed: _, count: _ } => unreachable!(),
    }
}

/// The answer of a command that needs the input as it stands.
fn answer_about_input<T: Threads + Sync + Eprint>(
    rt: &T,
    alloc: Global,
    command: &Command<'_>,
    input: &[u8],
) -> Result<Answer, Memory>
    requires fit { MayBeCarriedOut command.now }
    requires needs { needs_input (act_of command.now) ≡ true }
    ensures { IfOk result (λ a. act_answering (act_of command.now) input.now a.text.items a.status) }
{
    match command {
        Command::Ask(question) => answer_question(alloc, *question, input),
        Command::Code(code) => explain_code(alloc, *code),
        Command::Object(run) => object_of(alloc, run, input),
        Command::Shard(shard) => share_of(rt, alloc, *shard, input),
        _ => unreachable!(),
    }
}

/// The answer of a question that shows something of a job.
#[tactic(auto, using(crate::proofs::Showing::points_shown, crate::proofs::Showing::trace_shown, crate::proofs::Showing::report_shown, crate::proofs::Showing::nothing_shown))]
fn answer_question_on_job(alloc: Global, question: Question, spec: Spec) -> Result<Answer, Memory>
    requires budget { spec.budget ≡ BUDGET }
    ensures { (bytes : List ℕ) → IsJobOfQuestion question bytes spec
        → IfOk result (λ a. question_answering question bytes a.text.items a.status) }
{
    match question {
        Question::Points(span) => points(alloc, spec, window_of(span)),
        Question::Trace { from, to } => trace(alloc, spec, from, to),
        Question::Report { seed: _, count: _ }
        | Question::Explain
        | Question::List
        | Question::Convert => answer_of_job(alloc, spec),
    }
}

/// The answer of a command that shows something of a job.
#[tactic(auto, using(crate::proofs::Showing::chart_shown))]
fn answer_about_job(alloc: Global, command: &Command<'_>, spec: Spec) -> Result<Answer, Memory>
    requires budget { spec.budget ≡ BUDGET }
    ensures { (bytes : List ℕ) → IsJobFor (act_of command.now) bytes spec
        → IfOk result (λ a. act_answering (act_of command.now) bytes a.text.items a.status) }
{
    match command {
        Command::Ask(question) => answer_question_on_job(alloc, *question, spec),
        Command::Chart(asked) => chart(alloc, spec, window_of(asked.span), asked.name.as_bytes()),
        _ => answer_of_job(alloc, spec),
    }
}

/// The answer of a command that makes the runs of points.
fn answer_about_points<T: Threads + Sync + Eprint>(
    rt: &T,
    alloc: Global,
    command: &Command<'_>,
    input: &[u8],
    points: &[StudyPoint],
) -> Result<Answer, Memory>
    requires fit { MayBeCarriedOut command.now }
    requires points { ArePointsFor (act_of command.now) input.now points.now }
    ensures { IfOk result (λ a. act_answering (act_of command.now) input.now a.text.items a.status) }
{
    match command {
        Command::Study(study) => study_of(rt, alloc, study, input, points),
        Command::Compare(study) => comparison_of(rt, alloc, study, input, points),
        Command::Runs(runs) => rows_of(rt, alloc, runs, input, points),
        _ => unreachable!(),
    }
}

/// The answer of a command about an input, with what it needs of that. `Err` where memory runs out.
pub fn carry_out<T: Threads + Sync + Eprint>(
    rt: &T,
    alloc: Global,
    command: &Command<'_>,
    input: &[u8],
    work: Work,
) -> Result<Answer, Memory>
    requires fit { MayBeCarriedOut command.now }
    requires work { IsWorkOf (act_of command.now) input.now work }
    ensures { IfOk result (λ a. act_answering (act_of command.now) input.now a.text.items a.status) }
{
    match work {
        Work::Input => answer_about_input(rt, alloc, command, input),
        Work::Job(spec) => answer_about_job(alloc, command, spec),
        Work::Points(points) => answer_about_points(rt, alloc, command, input, &points),
        Work::Refused(answer) => Ok(answer),
    }
}

/// What a command about an input in memory comes to. Notes on a model, and how far runs are, are told on standard error. `Err`
/// where memory runs out.
pub fn answer_command<T: Threads + Sync + Eprint>(
    rt: &T,
    alloc: Global,
    command: &Command<'_>,
    input: &[u8],
) -> Result<Answer, Memory>
    requires fit { MayBeCarriedOut command.now }
    requires asked { is_of_input (act_of command.now) ≡ true }
    ensures { IfOk result (λ a. act_answering (act_of command.now) input.now a.text.items a.status) }
{
    let work = work_of(alloc, command, input)?;
    carry_out(rt, alloc, command, input, work)
}
