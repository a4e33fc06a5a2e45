//! What a request may cost, counted before anything of it is answered.

ghost use Rattle.std.specs.Prelude.{◌≡◌, ◌≤◌, ◌<◌, ℕ, List, length, true, IfOk, if◌then◌else◌};
ghost use Rattle.gw_command_line.specs.Asking.{AreRunsFit, MayBeMade, MayBeCarriedOut};
ghost use Rattle.gw_command_line.specs.Words.{Ask, Rows, Studies, act_of, runs_view, study_view};
ghost use Rattle.gw_page.specs.Counting.{IsCounted};
ghost use Rattle.gw_page.specs.Inquiries.{is_offered};
ghost use Rattle.gw_page.specs.Limits.{IsAllowance, IsFound, IsShare, AreShares, AreWithin};
ghost use Rattle.gw_planner.specs.Works.{ArePointsFor, HasFewPoints, IsJobFor, IsJobOfQuestion, IsWorkOf};
ghost use Rattle.gw_figures.specs.Labels.{labels_of};
ghost use Rattle.gw_study.specs.Runs.{run_job};

use crate::counting::{END, is_short};
use gw_alternatives::StudyPoint;
use gw_answers::Time;
use gw_command_line::{Command, MOST_RUNS, Question, Runs, Study};
use gw_figures::figures;
use gw_object::Memory;
use gw_planner::Work;
use gw_scan::Spec;
use gw_study::seeds_of;
use std::alloc::Global;

/// At most so many steps are made for a request: of a run, or of all runs together.
pub const MOST_STEPS: u64 = 50_000_000;

/// At most so many steps does a run make until the last time of a trace.
pub const MOST_TRACED: u64 = 250_000;

/// At most so many figures have all runs together.
pub const MOST_NUMBERS: u64 = 2_000_000;

/// Whether a request costs what it may.
#[derive(Clone, Copy, PartialEq, Eq)]
pub(crate) enum Allowance {
    /// It does.
    Within,
    /// It costs more.
    Exceeded,
    /// It can't be said: what it asks is refused.
    Uncounted,
}

/// The allowance of what is short enough, or isn't.
fn allowance_if(short: bool) -> Allowance
    ensures { result ≡ (if short then Allowance.Within else Allowance.Exceeded) }
{
    if short {
        Allowance::Within
    } else {
        Allowance::Exceeded
    }
}

/// How many figures a run of a job's object has.
fn figures_of(alloc: Global, spec: &Spec) -> Result<u64, Memory>
    ensures { IfOk result (λ count. count ≡ length (labels_of spec.now.parts)) }
{
    Ok(figures(alloc, spec.verified_object().object().parts())?.len() as u64)
}

/// The job of a run of this number of a job's object.
fn job_of_run(spec: &Spec, number: u32) -> Result<Spec, Memory>
    requires { number < 512 }
    ensures { IfOk result (λ job. job ≡ run_job spec.now number) }
{
    match spec.reseed(&seeds_of(number), spec.count()) {
        Ok(job) => Ok(job),
        Err(_) => Err(Memory),
    }
}

/// Whether a run of this number of a job's object has no more than so many steps and figures.
fn is_share(
    alloc: Global,
    spec: &Spec,
    number: u32,
    steps: u64,
    numbers: u64,
) -> Result<bool, Memory>
    requires { number < 512 }
    ensures { IfOk result (IsShare number steps numbers spec.now) }
{
    if figures_of(alloc, spec)? > numbers {
        return Ok(false);
    }
    let job = job_of_run(spec, number)?;
    is_short(alloc, job, END, steps)
}

/// Whether each of these points' runs of this number has no more than so many steps and figures.
fn are_shares(
    alloc: Global,
    points: &[StudyPoint],
    number: u32,
    steps: u64,
    numbers: u64,
) -> Result<bool, Memory>
    requires { number < 512 }
    ensures { IfOk result (AreShares number steps numbers points.now) }
{
    for i in 0..points.len() {
        if !is_share(alloc, &points[i].spec, number, steps, numbers)? {
            return Ok(false);
        }
    }
    Ok(true)
}

/// Whether each point's run of this number has no more than its share of the limits, where there are so many runs of each point.
fn are_within(alloc: Global, points: &[StudyPoint], number: u32, runs: u64) -> Result<bool, Memory>
    requires { (number < 512) × (runs ≤ 512) × (length points.now ≤ 64) }
    ensures { IfOk result (AreWithin number runs points.now) }
{
    let all = (runs * points.len() as u64).max(1);
    are_shares(alloc, points, number, MOST_STEPS / all, MOST_NUMBERS / all)
}

/// That of so many runs of each point, the first of this number.
fn allowance_of_points(
    alloc: Global,
    points: &[StudyPoint],
    number: u32,
    runs: u64,
) -> Result<Allowance, Memory>
    requires { (number < 512) × (runs ≤ 512) × (length points.now ≤ 64) }
    ensures { IfOk result (λ found. IsFound found (AreWithin number runs points.now)) }
{
    Ok(allowance_if(are_within(alloc, points, number, runs)?))
}

/// That of a study of these points, by its first run.
fn allowance_of_study(
    alloc: Global,
    study: &Study<'_>,
    points: &[StudyPoint],
) -> Result<Allowance, Memory>
    requires made { MayBeMade study.now }
    requires few { length points.now ≤ 64 }
    ensures { (text : List ℕ) → ArePointsFor (Studies (study_view study.now)) text points.now
        → IfOk result (IsAllowance (Studies (study_view study.now)) text) }
{
    let seeds = study.options.seeds.unwrap_or(1);
    let first = (seeds - 1) * study.runs;
    allowance_of_points(alloc, points, first, u64::from(study.runs))
}

/// That of runs of these points as rows, by the first of them.
fn allowance_of_rows(
    alloc: Global,
    runs: &Runs<'_>,
    points: &[StudyPoint],
) -> Result<Allowance, Memory>
    requires fit { AreRunsFit runs.now }
    requires few { length points.now ≤ 64 }
    ensures { (text : List ℕ) → ArePointsFor (Rows (runs_view runs.now)) text points.now
        → IfOk result (IsAllowance (Rows (runs_view runs.now)) text) }
{
    let made = u64::from(runs.end - runs.first);
    allowance_of_points(alloc, points, runs.first.min(MOST_RUNS - 1), made)
}

/// That of a command that makes the runs of these points.
fn allowance_of_runs(
    alloc: Global,
    command: &Command<'_>,
    points: &[StudyPoint],
) -> Result<Allowance, Memory>
    requires fit { MayBeCarriedOut command.now }
    requires few { length points.now ≤ 64 }
    ensures { (text : List ℕ) → is_offered (act_of command.now) ≡ true
        → ArePointsFor (act_of command.now) text points.now
        → IfOk result (IsAllowance (act_of command.now) text) }
{
    match command {
        Command::Study(study) => allowance_of_study(alloc, study, points),
        Command::Runs(runs) => allowance_of_rows(alloc, runs, points),
        _ => Ok(Allowance::Uncounted),
    }
}

/// That of the run of a job until a time.
fn allowance_of_run(alloc: Global, spec: &Spec, time: Time, most: u64) -> Result<Allowance, Memory>
    ensures { IfOk result (λ found. IsFound found (IsCounted time.0 most spec.now)) }
{
    let shared = spec.share()?;
    Ok(allowance_if(is_short(alloc, shared, time, most)?))
}

/// That of a question that shows something of a job.
#[tactic(auto, using(crate::proofs::Costs::trace_found, crate::proofs::Costs::points_of_job_found, crate::proofs::Costs::report_found))]
fn allowance_of_question(
    alloc: Global,
    question: Question,
    spec: &Spec,
) -> Result<Allowance, Memory>
    ensures { (text : List ℕ) → IsJobOfQuestion question text spec.now
        → IfOk result (IsAllowance (Ask question) text) }
{
    match question {
        Question::Trace { from: _, to } => allowance_of_run(alloc, spec, Time(to), MOST_TRACED),
        Question::Points(_)
        | Question::Report { seed: _, count: _ }
        | Question::Explain
        | Question::List
        | Question::Convert => allowance_of_run(alloc, spec, END, MOST_STEPS),
    }
}

/// That of a command that shows something of a job.
#[tactic(auto, using(crate::proofs::Costs::chart_found))]
fn allowance_of_job(alloc: Global, command: &Command<'_>, spec: &Spec) -> Result<Allowance, Memory>
    ensures { (text : List ℕ) → IsJobFor (act_of command.now) text spec.now
        → IfOk result (IsAllowance (act_of command.now) text) }
{
    match command {
        Command::Ask(question) => allowance_of_question(alloc, *question, spec),
        _ => allowance_of_run(alloc, spec, END, MOST_STEPS),
    }
}

/// Whether a command costs what it may, by what it needs of its input. `Err` where memory runs out.
#[tactic(auto, using(crate::proofs::Costs::input_costs))]
pub(crate) fn allowance_of(
    alloc: Global,
    command: &Command<'_>,
    work: &Work,
) -> Result<Allowance, Memory>
    requires fit { MayBeCarriedOut command.now }
    requires few { HasFewPoints work.now }
    ensures { (text : List ℕ) → is_offered (act_of command.now) ≡ true
        → IsWorkOf (act_of command.now) text work.now
        → IfOk result (IsAllowance (act_of command.now) text) }
{
    match work {
        Work::Input => Ok(Allowance::Within),
        Work::Job(spec) => allowance_of_job(alloc, command, spec),
        Work::Points(points) => allowance_of_runs(alloc, command, points),
        Work::Refused(_) => Ok(Allowance::Uncounted),
    }
}
