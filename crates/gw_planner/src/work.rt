//! What a command needs of its input: nothing is assembled twice.

ghost use Rattle.std.specs.Prelude.{◌≡◌, ◌≤◌, length, map, true, IfOk};
ghost use Rattle.gw_command_line.specs.Options.{view};
ghost use Rattle.gw_command_line.specs.Words.{act_of, study_view, runs_view, Ask, Studies, Compares, Rows};
ghost use Rattle.gw_planner.specs.Answers.{is_of_input, words_of as words_for};
ghost use Rattle.gw_planner.specs.Works.{HasFewPoints, IsJobWork, IsLoneWork, IsPointsWork, IsWorkOf};

use crate::studies::{is_plain, models_in, words_of};
use gw_alternatives::{StudyPoint, lone_point, models_of, points_by_words};
use gw_answers::status::REFUSED;
use gw_answers::{Answer, NoJob, answer_refusal, spec_of_model};
use gw_command_line::{Command, Question, Runs, Study};
use gw_object::Memory;
use gw_parameters::NoAnswer;
use gw_scan::Spec;
use gw_shards::refusal_of_model;
use std::alloc::Global;

/// What a command needs of its input.
#[derive(Drop)]
pub enum Work {
    /// The input as it stands.
    Input,
    /// The job of the model that the input is, with the budget of a run.
    Job(Spec),
    /// The points whose runs are asked for.
    Points(Vec<StudyPoint>),
    /// Nothing: something is refused, and this is the answer.
    Refused(Answer),
}

/// The job of a model with this seed and this count, of which 0 means the model's own; or the line of its refusal.
fn job_work(alloc: Global, input: &[u8], seed: u32, count: u64) -> Result<Work, Memory>
    ensures work { IfOk result (IsJobWork seed count input.now) }
    ensures few { IfOk result HasFewPoints }
{
    match spec_of_model(alloc, input, seed, count) {
        Ok(spec) => Ok(Work::Job(spec)),
        Err(NoJob::Refused(refusal)) => Ok(Work::Refused(answer_refusal(alloc, refusal)?)),
        Err(NoJob::OutOfMemory) => Err(Memory),
    }
}

/// What a question needs.
#[tactic(auto, using(crate::proofs::Working::points_work, crate::proofs::Working::trace_work, crate::proofs::Working::report_work))]
fn question_work(alloc: Global, question: Question, input: &[u8]) -> Result<Work, Memory>
    ensures work { IfOk result (IsWorkOf (Ask question) input.now) }
    ensures few { IfOk result HasFewPoints }
{
    match question {
        Question::Explain | Question::List | Question::Convert => Ok(Work::Input),
        Question::Points(_) => job_work(alloc, input, 0, 0),
        Question::Trace { from: _, to: _ } => job_work(alloc, input, 0, 0),
        Question::Report { seed, count } => job_work(alloc, input, seed, count),
    }
}

/// The one point of a model as it is, with this count; or the line of its refusal.
fn lone_work(alloc: Global, input: &[u8], count: u64) -> Result<Work, Memory>
    ensures work { IfOk result (IsLoneWork count input.now) }
    ensures few { IfOk result HasFewPoints }
{
    match lone_point(alloc, input, count) {
        Ok(points) => Ok(Work::Points(points)),
        Err(NoJob::Refused(refusal)) => Ok(Work::Refused(answer_refusal(alloc, refusal)?)),
        Err(NoJob::OutOfMemory) => Err(Memory),
    }
}

/// These points; or why there are none.
fn points_work(found: Result<Vec<StudyPoint>, NoAnswer>) -> Result<Work, Memory>
    requires few { IfOk found (λ all. length all.items ≤ 64) }
    ensures work { IfOk result (IsPointsWork found) }
    ensures few { IfOk result HasFewPoints }
{
    match found {
        Ok(points) => Ok(Work::Points(points)),
        Err(NoAnswer::Refused(text)) => Ok(Work::Refused(Answer {
            text,
            status: REFUSED,
        })),
        Err(NoAnswer::Memory) => Err(Memory),
    }
}

/// What a study needs.
#[tactic(auto, using(crate::proofs::Working::lone_study_work, crate::proofs::Working::study_work))]
fn study_work(alloc: Global, study: &Study<'_>, input: &[u8]) -> Result<Work, Memory>
    ensures work { IfOk result (IsWorkOf (Studies (study_view study.now)) input.now) }
    ensures few { IfOk result HasFewPoints }
{
    if is_plain(&study.options) {
        return lone_work(alloc, input, study.count);
    }
    let words = words_of(alloc, &study.options)?;
    points_work(points_by_words(alloc, input, &words, study.count))
}

/// What a comparison needs.
#[tactic(auto, using(crate::proofs::Working::comparison_work))]
fn comparison_work(alloc: Global, study: &Study<'_>, input: &[u8]) -> Result<Work, Memory>
    ensures work { IfOk result (IsWorkOf (Compares (study_view study.now)) input.now) }
    ensures few { IfOk result HasFewPoints }
{
    let (first, second) = models_in(input);
    points_work(models_of(alloc, first, second, study.count))
}

/// What runs as rows need.
fn rows_work(alloc: Global, runs: &Runs<'_>, input: &[u8]) -> Result<Work, Memory>
    ensures work { IfOk result (IsWorkOf (Rows (runs_view runs.now)) input.now) }
    ensures few { IfOk result HasFewPoints }
{
    let words = words_of(alloc, &runs.options)?;
    match points_by_words(alloc, input, &words, runs.count) {
        Ok(points) => Ok(Work::Points(points)),
        Err(NoAnswer::Refused(why)) => { Ok(Work::Refused(refusal_of_model(alloc, input, &why)?)) }
        Err(NoAnswer::Memory) => Err(Memory),
    }
}

/// What a command about an input in memory needs of it. `Err` where memory runs out.
#[tactic(auto, using(crate::proofs::Working::chart_work))]
pub fn work_of(alloc: Global, command: &Command<'_>, input: &[u8]) -> Result<Work, Memory>
    requires { is_of_input (act_of command.now) ≡ true }
    ensures work { IfOk result (IsWorkOf (act_of command.now) input.now) }
    ensures few { IfOk result HasFewPoints }
{
    match command {
        Command::Ask(question) => question_work(alloc, *question, input),
        Command::Chart(_) => job_work(alloc, input, 0, 0),
        Command::Study(study) => study_work(alloc, study, input),
        Command::Compare(study) => comparison_work(alloc, study, input),
        Command::Runs(runs) => rows_work(alloc, runs, input),
        Command::Code(_) | Command::Object(_) | Command::Shard(_) => Ok(Work::Input),
        Command::Summary(_) | Command::Help | Command::Version => unreachable!(),
    }
}
