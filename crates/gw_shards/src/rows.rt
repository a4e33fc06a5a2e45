//! The rows of runs of a model's points.

ghost use Rattle.std.specs.Prelude.{◌≡◌, ◌≤◌, ◌<◌, ◌+◌, ◌++◌, ◌∷◌, [], length, map, IfOk, OnOk};
ghost use Rattle.std.specs.List.{All};
ghost use Rattle.gw_answers.specs.Status.{end_status, refusal_status};
ghost use Rattle.gw_figures.specs.Labels.{labels};
ghost use Rattle.gw_rows.specs.Refusals.{refusal_rows};
ghost use Rattle.gw_rows.specs.Reading.{MayBeInRange};
ghost use Rattle.gw_rows.specs.Rows.{rows_by, source_of};
ghost use Rattle.gw_shards.specs.Rows as model;
ghost use Rattle.gw_shards.specs.Rows.{AreRequestRows, common_of, digest as digest_for, view};

use crate::request::RowsRequest;
use gw_alternatives::StudyPoint;
use gw_answers::Answer;
use gw_answers::status::{ENDED, REFUSED};
use gw_figures::{Figure, Run, figures};
use gw_object::Memory;
use gw_rows::{Origin, digest_of, put_header, put_refusal, put_row};
use gw_study::results_between;
use std::alloc::Global;
use std::io::Eprint;
use std::thread::Threads;

/// What the rows of all points have in common.
#[derive(Clone, Copy)]
pub(crate) struct Common<'a> {
    /// The digest of the model text.
    pub(crate) model: &'a [u8],
    /// How many rows there are in all, where that is known; else 0.
    pub(crate) rows: u64,
    /// How many terminations are counted before the window begins.
    pub(crate) from: u64,
    /// How many workers make the runs; 0 means as many as there are processors.
    pub(crate) workers: u32,
}

/// Of what the runs of a point are some.
#[tactic(auto, using(crate::proofs::Runs::may_be_read))]
fn origin_of(alloc: Global, common: &Common<'_>, point: &StudyPoint) -> Result<Origin, Memory>
    ensures source { IfOk result (λ origin. source_of origin ≡ model.source (model.view common.now) point.now) }
    ensures may { OnOk result (model.MayBeRead (model.view common.now) point.now) }
{
    let mut model = Vec::new(alloc);
    model.extend_from_slice(common.model)?;
    let mut name = Vec::new(alloc);
    name.extend_from_slice(&point.name)?;
    Ok(Origin {
        model,
        rows: common.rows,
        point: name,
        count: point.spec.count(),
        from: common.from,
    })
}

/// The rows of runs that follow one another.
fn put_rows(
    alloc: Global,
    out: &mut Vec<u8>,
    origin: &Origin,
    first: u32,
    figures: &[Figure],
    runs: &[Run],
) -> Result<(), Memory>
    requires { first + length runs.now ≤ 512 }
    ensures rows { OnOk result
        (out.new.items ≡ out.old.items ++ rows_by figures.now origin.now first runs.now) }
    ensures range { OnOk result (All (MayBeInRange (labels figures.now)) runs.now) }
{
    for i in 0..runs.len() {
        let number = first + i as u32;
        put_row(alloc, out, figures, origin, number, &runs[i])?;
    }
    Ok(())
}

/// The rows of the runs of a point from one number to another, but not that one.
fn put_point<T: Threads + Sync + Eprint>(
    rt: &T,
    alloc: Global,
    out: &mut Vec<u8>,
    common: &Common<'_>,
    point: &StudyPoint,
    first: u32,
    end: u32,
) -> Result<(), Memory>
    requires { (first ≤ end) × (end ≤ 512) }
    ensures { OnOk result
        (model.AddsLoneRows common.now point.now first end out.old.items out.new.items) }
{
    let results = results_between(
        rt,
        alloc,
        &point.spec,
        common.from,
        common.workers,
        first,
        end,
    )?;
    let origin = origin_of(alloc, common, point)?;
    put_rows(alloc, out, &origin, first, &results.figures, &results.runs)
}

/// The line before the rows of a point.
fn header_of(alloc: Global, point: &StudyPoint) -> Result<Vec<u8>, Memory>
    ensures { IfOk result (λ header. header.items ≡ model.header_of point.now) }
{
    let figures = figures(alloc, point.spec.verified_object().object().parts())?;
    let mut header = Vec::new(alloc);
    put_header(alloc, &mut header, &figures)?;
    Ok(header)
}

/// The line before the rows of a point, where it isn't the line before the last rows, which is there in `last`.
pub(crate) fn put_header_if_other(
    alloc: Global,
    out: &mut Vec<u8>,
    last: &mut Vec<u8>,
    point: &StudyPoint,
) -> Result<(), Memory>
    ensures added { OnOk result (out.new.items
        ≡ out.old.items ++ model.header_unless last.old.items point.now) }
    ensures last { OnOk result (last.new.items ≡ model.header_of point.now) }
{
    let header = header_of(alloc, point)?;
    if header.as_slice() == last.as_slice() {
        return Ok(());
    }
    out.extend_from_slice(&header)?;
    *last = header;
    Ok(())
}

/// The rows of the runs of a point from one number to another, but not that one, with the line before them where it isn't the
/// last such line, which is there in `last`.
pub(crate) fn put_rows_of<T: Threads + Sync + Eprint>(
    rt: &T,
    alloc: Global,
    out: &mut Vec<u8>,
    last: &mut Vec<u8>,
    common: &Common<'_>,
    point: &StudyPoint,
    first: u32,
    end: u32,
) -> Result<(), Memory>
    requires { (first ≤ end) × (end ≤ 512) }
    ensures added { model.PutsRowsOf result common.now first end last.old point.now
        out.old out.new }
    ensures last { OnOk result (last.new.items ≡ model.header_of point.now) }
{
    put_header_if_other(alloc, out, last, point)?;
    put_point(rt, alloc, out, common, point, first, end)
}

/// The rows of the same runs of all points, behind the line before rows that is there in `last`.
#[tactic(auto, unfolding(crate::specs::Rows::AddsRowsOfPoints))]
fn put_points<T: Threads + Sync + Eprint>(
    rt: &T,
    alloc: Global,
    out: &mut Vec<u8>,
    last: &mut Vec<u8>,
    common: &Common<'_>,
    points: &[StudyPoint],
    first: u32,
    end: u32,
) -> Result<(), Memory>
    requires { (first ≤ end) × (end ≤ 512) }
    ensures { model.PutsRowsOfPoints result common.now first end last.old points.now
        out.old out.new }
{
    for i in 0..points.len() {
        put_rows_of(rt, alloc, out, last, common, &points[i], first, end)?;
    }
    Ok(())
}

/// A refusal as a row.
pub(crate) fn refused(alloc: Global, digest: &[u8], text: &[u8]) -> Result<Answer, Memory>
    ensures { IfOk result (λ a.
        (a.status ≡ refusal_status) × (a.text.items ≡ refusal_rows digest.now text.now)) }
{
    let mut out = Vec::new(alloc);
    put_refusal(alloc, &mut out, digest, text)?;
    Ok(Answer {
        text: out,
        status: REFUSED,
    })
}

/// The rows of points that are there.
fn told<T: Threads + Sync + Eprint>(
    rt: &T,
    alloc: Global,
    common: &Common<'_>,
    points: &[StudyPoint],
    request: &RowsRequest,
) -> Result<Answer, Memory>
    requires { (request.now.first ≤ request.now.end) × (request.now.end ≤ 512) }
    ensures status { IfOk result (λ a. a.status ≡ end_status) }
    ensures rows { IfOk result (λ a.
        AreRequestRows (view common.now) request.now points.now a.text.items) }
{
    let mut text = Vec::new(alloc);
    let mut last = Vec::new(alloc);
    put_points(
        rt,
        alloc,
        &mut text,
        &mut last,
        common,
        points,
        request.first,
        request.end,
    )?;
    Ok(Answer {
        text,
        status: ENDED,
    })
}

/// The rows of runs of these points of a model: behind the line that names their fields a row for each run from one number to
/// another, but not that one, in order.
pub fn rows_of_points<T: Threads + Sync + Eprint>(
    rt: &T,
    alloc: Global,
    model: &[u8],
    points: &[StudyPoint],
    request: &RowsRequest,
) -> Result<Answer, Memory>
    requires { (request.now.first ≤ request.now.end) × (request.now.end ≤ 512) }
    ensures status { IfOk result (λ a. a.status ≡ end_status) }
    ensures rows { IfOk result (λ a.
        AreRequestRows (common_of model.now request.now) request.now points.now a.text.items) }
{
    let digest = digest_of(alloc, model)?;
    let common = Common {
        model: &digest,
        rows: 0,
        from: request.from,
        workers: request.workers,
    };
    told(rt, alloc, &common, points, request)
}

/// A refusal of a model, of a word or of a count, as a row that says so.
pub fn refusal_of_model(alloc: Global, model: &[u8], why: &[u8]) -> Result<Answer, Memory>
    ensures status { IfOk result (λ a. a.status ≡ refusal_status) }
    ensures row { IfOk result (λ a. a.text.items ≡ refusal_rows (digest_for model.now) why.now) }
{
    let digest = digest_of(alloc, model)?;
    refused(alloc, &digest, why)
}
