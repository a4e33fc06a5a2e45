//! The rows of a share of a model's experiment.

ghost use Rattle.std.specs.Prelude.{◌≡◌, ◌≤◌, ◌<◌, ◌++◌, [], length, IfOk, OnOk};
ghost use Rattle.gw_answers.specs.Requests.{AnswersAs};
ghost use Rattle.gw_answers.specs.Status.{end_status};
ghost use Rattle.gw_experiment.specs.Answers.{lent_texts, view as asked};
ghost use Rattle.gw_shards.specs.Rows.{view, digest as digest_text};
ghost use Rattle.gw_shards.specs.Shares as model;

use crate::rows::{Common, put_header_if_other, put_rows_of, refused};
use gw_alternatives::{StudyPoint, points_by_words};
use gw_answers::Answer;
use gw_answers::status::ENDED;
use gw_experiment::{Experiment, Share, experiment_in, runs_of_point};
use gw_object::Memory;
use gw_parameters::NoAnswer;
use gw_rows::digest_of;
use std::alloc::Global;
use std::io::Eprint;
use std::thread::Threads;

/// The words as `NURSES=2,3` of an experiment.
fn words_of(alloc: Global, experiment: &Experiment) -> Result<Vec<&[u8]>, Memory>
    ensures { IfOk result (λ words. lent_texts words.items ≡ (asked experiment.now).parameters) }
{
    let mut words = Vec::new(alloc);
    for i in 0..experiment.parameters.len() {
        words.push(experiment.parameters[i].as_slice())?;
    }
    Ok(words)
}

/// The rows of runs of a point from one number to another, but not that one, with the line before them where it isn't the last such
/// line, which is there in `last`; nothing where there are no runs.
fn put_part<T: Threads + Sync + Eprint>(
    rt: &T,
    alloc: Global,
    out: &mut Vec<u8>,
    last: &mut Vec<u8>,
    common: &Common<'_>,
    point: &StudyPoint,
    first: u32,
    end: u32,
) -> Result<(), Memory>
    requires { (first ≤ 512) × (end ≤ 512) }
    ensures added { model.PutsPart result common.now first end last.old point.now out.old out.new }
    ensures last { OnOk result (last.new.items ≡ model.last_header first end last.old.items point.now) }
{
    if first >= end {
        return Ok(());
    }
    put_rows_of(rt, alloc, out, last, common, point, first, end)
}

/// The rows of the runs that a share has of all points, behind the line before rows that is there in `last`.
#[tactic(auto, unfolding(crate::specs::Shares::AddsParts))]
fn put_parts<T: Threads + Sync + Eprint>(
    rt: &T,
    alloc: Global,
    out: &mut Vec<u8>,
    last: &mut Vec<u8>,
    common: &Common<'_>,
    points: &[StudyPoint],
    share: Share,
    runs: u32,
) -> Result<(), Memory>
    requires { (runs ≤ 512) × (length points.now ≤ 64) }
    ensures { model.PutsParts result common.now share runs last.old points.now out.old out.new }
{
    for i in 0..points.len() {
        let (first, end) = runs_of_point(share, i as u32, runs);
        put_part(rt, alloc, out, last, common, &points[i], first, end)?;
    }
    Ok(())
}

/// The line before rows of the first point, where a share has no job.
fn put_lone_header(
    alloc: Global,
    out: &mut Vec<u8>,
    last: &mut Vec<u8>,
    points: &[StudyPoint],
    share: Share,
) -> Result<(), Memory>
    requires { last.old.items ≡ [] }
    ensures added { OnOk result (out.new.items ≡ out.old.items ++ model.lone_header share points.now) }
    ensures last { OnOk result (last.new.items ≡ model.lone_header share points.now) }
{
    match points {
        [point, ..] if share.first == share.end => put_header_if_other(alloc, out, last, point),
        _ => Ok(()),
    }
}

/// The rows of a share, where nothing is there yet.
fn put_share<T: Threads + Sync + Eprint>(
    rt: &T,
    alloc: Global,
    out: &mut Vec<u8>,
    common: &Common<'_>,
    points: &[StudyPoint],
    share: Share,
    runs: u32,
) -> Result<(), Memory>
    requires few { (runs ≤ 512) × (length points.now ≤ 64) }
    requires empty { out.old.items ≡ [] }
    ensures { OnOk result (model.AreShareRows (view common.now) share runs points.now out.new.items) }
{
    let mut last = Vec::new(alloc);
    put_lone_header(alloc, out, &mut last, points, share)?;
    put_parts(rt, alloc, out, &mut last, common, points, share, runs)
}

/// Which share is asked for.
#[derive(Clone, Copy)]
struct Part {
    /// Its number, from 0.
    number: u32,
    /// How many shares there are.
    shares: u32,
    /// How many workers make its runs; 0 means as many as there are processors.
    workers: u32,
}

/// The rows of a share of these points.
fn share_of_points<T: Threads + Sync + Eprint>(
    rt: &T,
    alloc: Global,
    digest: &[u8],
    points: &[StudyPoint],
    experiment: &Experiment,
    part: Part,
) -> Result<Answer, Memory>
    requires part { part.number < part.shares }
    requires few { (experiment.now.runs ≤ 512) × (length points.now ≤ 64) }
    ensures status { IfOk result (λ a. a.status ≡ end_status) }
    ensures rows { IfOk result (λ a.
        model.ArePartRows digest.now (asked experiment.now) part points.now a.text.items) }
{
    let jobs = points.len() as u64 * u64::from(experiment.runs);
    let common = Common {
        model: digest,
        rows: jobs,
        from: experiment.from,
        workers: part.workers,
    };
    let share = Share::of(jobs, part.number, part.shares);
    let mut text = Vec::new(alloc);
    put_share(
        rt,
        alloc,
        &mut text,
        &common,
        points,
        share,
        experiment.runs,
    )?;
    Ok(Answer {
        text,
        status: ENDED,
    })
}

/// The rows of a share of an experiment.
fn share_of<T: Threads + Sync + Eprint>(
    rt: &T,
    alloc: Global,
    text: &[u8],
    digest: &[u8],
    experiment: &Experiment,
    part: Part,
) -> Result<Answer, Memory>
    requires part { part.number < part.shares }
    requires few { experiment.now.runs ≤ 512 }
    requires digest { digest.now ≡ digest_text text.now }
    ensures { AnswersAs result
        (model.IsShareOr text.now (asked experiment.now) part.number part.shares) }
{
    let words = words_of(alloc, experiment)?;
    match points_by_words(alloc, text, &words, experiment.count) {
        Ok(points) => share_of_points(rt, alloc, digest, &points, experiment, part),
        Err(NoAnswer::Refused(refusal)) => refused(alloc, digest, &refusal),
        Err(NoAnswer::Memory) => Err(Memory),
    }
}

/// The rows of a share of the experiment that comment lines of a model ask for, by its number, from 0, of so many: some of all
/// points' runs. All shares together have each run of each point once. Where a share has none, the line that names fields comes
/// alone. A model or an experiment that is refused is told as a row that says so, before any run: the same in each share.
pub fn rows_of_share<T: Threads + Sync + Eprint>(
    rt: &T,
    alloc: Global,
    text: &[u8],
    number: u32,
    shares: u32,
    workers: u32,
) -> Result<Answer, Memory>
    requires { number < shares }
    ensures { AnswersAs result (model.IsShareAnswer text.now number shares) }
{
    let digest = digest_of(alloc, text)?;
    let part = Part {
        number,
        shares,
        workers,
    };
    match experiment_in(alloc, text) {
        Ok(experiment) => share_of(rt, alloc, text, &digest, &experiment, part),
        Err(NoAnswer::Refused(refusal)) => refused(alloc, &digest, &refusal),
        Err(NoAnswer::Memory) => Err(Memory),
    }
}
