//! A study of a model.

ghost use Rattle.std.specs.Prelude.{◌≡◌, ◌≤◌, ◌^◌, vec_len, IfOk};
ghost use Rattle.gw_answers.specs.ModelJobs.{Finds};
ghost use Rattle.gw_answers.specs.Status.{end_status};
ghost use Rattle.gw_study.specs.Requests.{MayBeStudied};
ghost use Rattle.gw_study.specs.Study.{with_count as counted_of, AreResultsBetween, AreResultsOf, IsTextOfResults, IsCountedJob, IsCountRefusal, IsStudyRefusal, IsTold};

use crate::request::StudyRequest;
use crate::runs::{Setup, runs_in_order, runs_of};
use crate::streams::put_streams;
use crate::telling::{Results, table};
use gw_answers::status::ENDED;
use gw_answers::{Answer, BUDGET, NoJob, Refusal, spec_of_model};
use gw_figures::figures;
use gw_object::Memory;
use gw_scan::{Spec, StartFault};
use std::alloc::Global;
use std::io::Eprint;
use std::thread::Threads;

/// The greatest termination count.
const MOST_COUNT: u64 = 1 << 40;

/// The job of the same object with this count, where 0 means the object's own; or the refusal of the count, or want of memory.
fn counted(spec: &Spec, count: u64) -> Result<Spec, NoJob>
    ensures found { Finds result (λ job. job ≡ counted_of spec.now count) (IsCountRefusal count) }
    ensures budget { IfOk result (λ job. job.budget ≡ spec.now.budget) }
{
    if count > MOST_COUNT {
        return Err(NoJob::Refused(Refusal::from(StartFault::Count)));
    }
    match spec.reseed(&[], count) {
        Ok(spec) => Ok(spec),
        Err(_) => Err(NoJob::OutOfMemory),
    }
}

/// The job of a model with this count, where 0 means the model's own, and the budget of a run; or why there is none: the refusal
/// of the model, a count above 2^40, or want of memory.
pub fn job_of_model(alloc: Global, model: &[u8], count: u64) -> Result<Spec, NoJob>
    ensures found { Finds result (IsCountedJob model.now count) (IsStudyRefusal model.now count) }
    ensures budget { IfOk result (λ spec. spec.budget ≡ BUDGET) }
{
    match spec_of_model(alloc, model, 0, 0) {
        Ok(spec) => {
            let found = counted(&spec, count);
            drop(spec);
            found
        }
        Err(none) => Err(none),
    }
}

/// The runs of a job's object, whose budget is that of a run, that a study is asked for, with the figures of its model.
pub fn results<T: Threads + Sync + Eprint>(
    rt: &T,
    alloc: Global,
    spec: &Spec,
    request: &StudyRequest,
) -> Result<Results, Memory>
    requires request { MayBeStudied request.now }
    requires budget { spec.now.budget ≡ BUDGET }
    ensures { IfOk result (AreResultsOf spec.now request.now) }
{
    let figures = figures(alloc, spec.verified_object().object().parts())?;
    let setup = Setup {
        spec,
        figures: &figures,
        from: request.from,
    };
    let runs = runs_of(rt, alloc, &setup, *request)?;
    Ok(Results { figures, runs })
}

/// What a study tells of runs of this count, of which there are at most 512: the table, and the streams that may have come to where
/// the next begins.
pub fn results_text(
    alloc: Global,
    results: &Results,
    request: &StudyRequest,
    count: u64,
) -> Result<Vec<u8>, Memory>
    requires runs { vec_len results.now.runs ≤ 512 }
    requires count { count ≤ 2 ^ 40 }
    ensures { IfOk result (λ text.
        IsTextOfResults results.now request.now count text.items) }
{
    let mut text = table(alloc, results, request, count)?;
    put_streams(&mut text, &results.runs)?;
    Ok(text)
}

/// The runs of a job's object, whose budget is that of a run, from one number to another, but not that one, by at most so many
/// workers, with the figures of its model; 0 workers mean as many as the machine has processors. They are told from where so many
/// terminations are counted.
pub fn results_between<T: Threads + Sync + Eprint>(
    rt: &T,
    alloc: Global,
    spec: &Spec,
    from: u64,
    workers: u32,
    first: u32,
    end: u32,
) -> Result<Results, Memory>
    requires numbers { (first ≤ end) × (end ≤ 512) }
    requires budget { spec.now.budget ≡ BUDGET }
    ensures { IfOk result (AreResultsBetween spec.now from first end) }
{
    let figures = figures(alloc, spec.verified_object().object().parts())?;
    let setup = Setup {
        spec,
        figures: &figures,
        from,
    };
    let runs = runs_in_order(rt, alloc, &setup, workers, first, end)?;
    Ok(Results { figures, runs })
}

/// The study of a job of a model, whose budget is that of a run: it is run so many times, each time with 16 other seeds, until so
/// many transactions have been counted. Workers make the runs. What comes is a row for each figure, with its mean over the runs
/// that came to their count, the least and the greatest, and the half-width of its 95 % confidence interval, all in thousandths,
/// how many more runs would halve that, which averages change in a run, which contents grow to its end, and which streams may have
/// come to where the next begins.
pub fn study<T: Threads + Sync + Eprint>(
    rt: &T,
    alloc: Global,
    spec: &Spec,
    request: &StudyRequest,
) -> Result<Answer, Memory>
    requires request { MayBeStudied request.now }
    requires budget { spec.now.budget ≡ BUDGET }
    ensures { IfOk result (λ a. (a.status ≡ end_status) × IsTold spec.now request.now a.text.items) }
{
    let results = results(rt, alloc, spec, request)?;
    Ok(Answer {
        text: results_text(alloc, &results, request, spec.count())?,
        status: ENDED,
    })
}
