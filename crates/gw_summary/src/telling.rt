//! What rows tell.

ghost use Rattle.std.specs.Prelude.{◌≡◌, ◌≤◌, ◌+◌, ◌++◌, [], Some, length, IfOk, IsTrue, OnOk, vec_len};
ghost use Rattle.std.specs.List.{All};
ghost use Rattle.gw_figures.specs.Labels.{labels};
ghost use Rattle.gw_rows.specs.Reading.{NamesFigures};
ghost use Rattle.gw_rows.specs.Rows.{source_of};
ghost use Rattle.gw_summary.specs.StudyTold as told;
ghost use Rattle.gw_summary.specs.Telling as model;
ghost use Rattle.gw_answers.specs.Requests.{AnswersAs};
ghost use Rattle.gw_answers.specs.Status.{refusal_status};

use crate::fault::{RowFault, refusal_of};
use crate::gaps::gap_of;
use crate::pieces::Pieces;
use crate::point::PointRows;
use crate::rows::Rows;
use crate::study::Study;
use gw_alternatives::{point_of, put_block, put_table};
use gw_answers::Answer;
use gw_answers::status::{ENDED, REFUSED};
use gw_comparison::Point;
use gw_figures::{Figure, Run};
use gw_object::Memory;
use gw_rows::{Refused, Row, figures_in, row_in};
use gw_study::{Results, StudyRequest, results_text};
use std::alloc::Global;

/// What a summary is asked for.
#[derive(Clone, Copy, PartialEq, Eq)]
pub struct SummaryRequest {
    /// Of which study of so many runs the rows have to be, from 1.
    pub seeds: u32,
    /// Whether all figures are told.
    pub all: bool,
}

/// Whether a row is that of a run of a point of a study.
fn is_row_of(row: &Row, study: &Study, point: &[u8], number: usize) -> bool
    ensures source { IsTrue result → source_of row.now.origin ≡ model.source study.now point.now }
    ensures number { IsTrue result → row.now.number ≡ number }
{
    row.number as usize == number
        && row.origin.model.as_slice() == study.origin.model.as_slice()
        && row.origin.rows == study.origin.rows
        && row.origin.point.as_slice() == point
        && row.origin.count == study.origin.count
        && row.origin.from == study.origin.from
}

/// The run of a row, where it is that of a number of a point. Each line that was taken is that of such a row; another would be told
/// as want of memory.
fn run_if_of(row: Row, study: &Study, point: &[u8], number: usize) -> Result<Option<Run>, Memory>
    ensures run { IfOk result (λ run. run ≡ Some row.run) }
    ensures source { OnOk result (source_of row.origin ≡ model.source study.now point.now) }
    ensures number { OnOk result (row.number ≡ number) }
{
    if is_row_of(&row, study, point, number) {
        Ok(Some(row.run))
    } else {
        drop(row);
        Err(Memory)
    }
}

/// The run of the line of a number, if there is a line.
fn run_of(
    alloc: Global,
    line: &Option<Vec<u8>>,
    figures: &[Figure],
    study: &Study,
    point: &[u8],
    number: usize,
) -> Result<Option<Run>, Memory>
    ensures { IfOk result (model.IsRunOfLine (labels figures.now) (model.source study.now point.now) number line.now) }
{
    match line {
        Some(line) => match row_in(alloc, line, figures)? {
            Some(row) => run_if_of(row, study, point, number),
            None => Err(Memory),
        },
        None => Ok(None),
    }
}

/// A run behind others, if there is one.
fn push_run(runs: &mut Vec<Run>, run: Option<Run>) -> Result<(), Memory>
    ensures added { OnOk result (runs.new.items ≡ runs.old.items ++ model.with_run run []) }
    ensures few { OnOk result (vec_len runs.new ≤ vec_len runs.old + 1) }
{
    match run {
        Some(run) => {
            runs.push(run)?;
            Ok(())
        }
        None => Ok(()),
    }
}

/// The runs of the lines of a point, in order.
fn runs_of(
    alloc: Global,
    lines: &[Option<Vec<u8>>],
    figures: &[Figure],
    study: &Study,
    point: &[u8],
) -> Result<Vec<Run>, Memory>
    ensures tell { IfOk result (λ runs.
        model.LinesTellRuns figures.now study.now point.now lines.now runs.items) }
    ensures few { IfOk result (λ runs. length runs.items ≤ length lines.now) }
{
    let mut runs = Vec::new(alloc);
    for i in 0..lines.len() {
        let run = run_of(alloc, &lines[i], figures, study, point, i)?;
        push_run(&mut runs, run)?;
    }
    Ok(runs)
}

/// The figures of rows.
fn figures_of(alloc: Global, rows: &Rows) -> Result<Vec<Figure>, Memory>
    ensures { IfOk result (λ figures. NamesFigures rows.now.header.items figures.items) }
{
    match figures_in(alloc, rows.header())? {
        Some(figures) => Ok(figures),
        None => Err(Memory),
    }
}

/// The figures and runs of a point.
fn results_of(
    alloc: Global,
    rows: &Rows,
    study: &Study,
    point: &PointRows,
) -> Result<Results, Memory>
    requires { vec_len point.now.lines ≤ 512 }
    ensures results { IfOk result (model.AreResultsOf rows.now study.now point.now) }
    ensures few { IfOk result (λ results. vec_len results.runs ≤ 512) }
{
    let figures = figures_of(alloc, rows)?;
    let runs = runs_of(alloc, &point.lines, &figures, study, &point.name)?;
    Ok(Results { figures, runs })
}

/// What is asked for, as a study has it.
fn study_request(study: &Study, request: SummaryRequest, runs: u32) -> StudyRequest
    ensures { result ≡ model.study_request study.now request runs }
{
    StudyRequest {
        runs,
        count: study.origin.count,
        from: study.origin.from,
        seeds: request.seeds,
        workers: 0,
        all: request.all,
    }
}

/// The table of a point, and the point, by its name.
fn point_told(
    alloc: Global,
    out: &mut Vec<u8>,
    rows: &Rows,
    study: &Study,
    point: &PointRows,
    request: SummaryRequest,
) -> Result<Point, Memory>
    requires { vec_len point.now.lines ≤ 512 }
    ensures { model.PutsPoint result rows.now study.now request point.now out.old out.new }
{
    let results = results_of(alloc, rows, study, point)?;
    let asked = study_request(study, request, results.runs.len() as u32);
    put_table(
        alloc,
        out,
        &point.name,
        &results,
        &asked,
        study.origin.count,
    )?;
    point_of(alloc, &point.name, &results, request.all)
}

/// The differences of one more point to the first are put; or it is the first.
fn put_next(
    alloc: Global,
    behind: &mut Vec<u8>,
    first: &mut Option<Point>,
    point: Point,
    all: bool,
) -> Result<(), Memory>
    ensures { OnOk result (model.AddsNext all first.old point first.new behind.old.items behind.new.items) }
{
    match first {
        Some(first) => {
            let put = put_block(alloc, behind, first, &point, all);
            drop(point);
            put
        }
        None => {
            *first = Some(point);
            Ok(())
        }
    }
}

/// The tables of points, and for what stands behind them the differences of each to the first. No point but the first is kept, since
/// there may be many.
fn put_tables(
    alloc: Global,
    out: &mut Vec<u8>,
    behind: &mut Vec<u8>,
    rows: &Rows,
    study: &Study,
    points: &[PointRows],
    request: SummaryRequest,
) -> Result<(), Memory>
    requires few { All (λ p. vec_len p.lines ≤ 512) points.now }
    requires behind { behind.old.items ≡ [] }
    ensures { model.PutsTables result rows.now study.now request points.now behind.new
        out.old out.new }
{
    let mut first: Option<Point> = None;
    for i in 0..points.len() {
        let point = point_told(alloc, out, rows, study, &points[i], request)?;
        put_next(alloc, behind, &mut first, point, request.all)?;
    }
    Ok(())
}

/// The tables of points, and behind them the differences of each to the first.
fn points_told(
    alloc: Global,
    rows: &Rows,
    study: &Study,
    request: SummaryRequest,
) -> Result<Vec<u8>, Memory>
    requires { All (λ p. vec_len p.lines ≤ 512) rows.now.points.items }
    ensures { IfOk result (λ text. model.ArePointsTold rows.now study.now request text.items) }
{
    let mut out = Vec::new(alloc);
    let mut behind = Vec::new(alloc);
    put_tables(
        alloc,
        &mut out,
        &mut behind,
        rows,
        study,
        rows.points(),
        request,
    )?;
    out.extend_from_slice(&behind)?;
    Ok(out)
}

/// The table of the model as it is.
fn model_told(
    alloc: Global,
    rows: &Rows,
    study: &Study,
    point: &PointRows,
    request: SummaryRequest,
) -> Result<Vec<u8>, Memory>
    requires { vec_len point.now.lines ≤ 512 }
    ensures { IfOk result (λ text. model.IsModelTold rows.now study.now request point.now text.items) }
{
    let results = results_of(alloc, rows, study, point)?;
    let asked = study_request(study, request, results.runs.len() as u32);
    results_text(alloc, &results, &asked, study.origin.count)
}

/// What all rows of a study tell.
fn told(
    alloc: Global,
    rows: &Rows,
    study: &Study,
    request: SummaryRequest,
) -> Result<Vec<u8>, Memory>
    requires { All (λ p. vec_len p.lines ≤ 512) rows.now.points.items }
    ensures rows { IfOk result (λ text. model.TellsRows rows.now study.now request text.items) }
    ensures alone { told.TellsLonePoint result rows.now study.now request }
{
    match rows.points() {
        [point] if point.name.is_empty() => model_told(alloc, rows, study, point, request),
        _ => points_told(alloc, rows, study, request),
    }
}

/// The answer that refuses a line.
fn refusal(alloc: Global, line: u64, point: &[u8], fault: RowFault) -> Result<Answer, Memory>
    ensures { IfOk result (λ a. a.status ≡ refusal_status) }
{
    Ok(Answer {
        text: refusal_of(alloc, line, point, fault)?,
        status: REFUSED,
    })
}

/// What rows of runs tell, or why they are refused.
fn summary_of(
    alloc: Global,
    rows: &Rows,
    study: &Study,
    line: u64,
    request: SummaryRequest,
) -> Result<Answer, Memory>
    requires study { rows.now.study ≡ Some study.now }
    requires only { model.HasOnlyRows rows.now }
    ensures summary { AnswersAs result (model.IsSummary rows.now request) }
    ensures study { AnswersAs result (told.TellsHeld rows.now request) }
{
    match gap_of(rows, study, request.seeds) {
        Some(gap) => refusal(alloc, line, gap.point, gap.fault),
        None => Ok(Answer {
            text: told(alloc, rows, study, request)?,
            status: ENDED,
        }),
    }
}

/// The refusal that a row told.
fn refused_by(alloc: Global, refused: &Refused) -> Result<Answer, Memory>
    ensures { IfOk result (λ a. a.status ≡ refusal_status) }
{
    let mut text = Vec::new(alloc);
    text.extend_from_slice(&refused.text)?;
    Ok(Answer {
        text,
        status: REFUSED,
    })
}

/// What whole lines tell, of which none waits for a header.
fn rows_told(
    alloc: Global,
    rows: &Rows,
    line: u64,
    request: SummaryRequest,
) -> Result<Answer, Memory>
    requires { rows.now.waiting.items ≡ [] }
    ensures summary { AnswersAs result (model.IsSummary rows.now request) }
    ensures study { AnswersAs result (told.TellsHeld rows.now request) }
{
    match (rows.refused(), rows.study()) {
        (Some(refused), _) => refused_by(alloc, refused),
        (None, Some(study)) => summary_of(alloc, rows, study, line, request),
        (None, None) => refusal(alloc, line, &[], RowFault::Missing(0)),
    }
}

/// What whole lines tell.
fn lines_told(
    alloc: Global,
    rows: &Rows,
    line: u64,
    request: SummaryRequest,
) -> Result<Answer, Memory>
    ensures summary { AnswersAs result (model.IsSummary rows.now request) }
    ensures study { AnswersAs result (told.TellsHeld rows.now request) }
{
    match rows.first_waiting() {
        Some(first) => refusal(alloc, first, &[], RowFault::NoHeader),
        None => rows_told(alloc, rows, line, request),
    }
}

/// What the rows of an input tell that was read to its end: the table of a study of these runs, or, where they are of points, of
/// each, in the order of their numbers, and then the differences of each to the first. A refusal that a row tells is told. Rows are
/// refused (84 Row) that aren't those of all runs of a study, each once, and a line that is cut off.
pub fn summary(alloc: Global, pieces: &Pieces, request: SummaryRequest) -> Result<Answer, Memory>
    ensures summary { AnswersAs result (model.IsSummaryOfPieces pieces.now request) }
    ensures study { AnswersAs result (told.TellsStudiesRead pieces.now request) }
{
    if pieces.is_cut() {
        return refusal(alloc, pieces.line(), &[], RowFault::Cut);
    }
    lines_told(alloc, pieces.rows(), pieces.line(), request)
}
