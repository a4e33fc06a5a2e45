//! What is told of the runs of alternatives.

ghost use Rattle.std.specs.Prelude.{◌≡◌, ◌≤◌, ◌^◌, ◌++◌, codes, length, map, IfOk, OnOk, vec_len};
ghost use Rattle.gw_figures.specs.Labels.{label_of};
ghost use Rattle.gw_comparison.specs.Sheets.{AddsEach};
ghost use Rattle.gw_study.specs.Requests.{MayBeStudied};
ghost use Rattle.gw_study.specs.Table.{Adds};
ghost use Rattle.gw_alternatives.specs.Told as model;
ghost use Rattle.gw_alternatives.specs.Told.{AddsAllDifferences, AddsBlock, AddsRest, AreTold, IsPointBy, PutsAlternative, PutsAlternatives, series_of};

use crate::form::Form;
use crate::study_point::StudyPoint;
use gw_comparison::{Column, Point, put_differences, put_picture, put_sheet};
use gw_figures::{Figure, Run};
use gw_object::Memory;
use gw_scan::End;
use gw_study::{Results, StudyRequest, results, results_text};
use std::alloc::Global;
use std::io::Eprint;
use std::thread::Threads;

/// The value of a figure in a run that came to its count, if it has one there.
fn value_in(run: &Run, figure: usize) -> Option<i128>
    ensures { result ≡ model.value_in figure run.now }
{
    if run.end != End::Done {
        return None;
    }
    match run.values.get(figure) {
        Some(value) => *value,
        None => None,
    }
}

/// The values of a figure, run by run.
fn values_of(alloc: Global, runs: &[Run], figure: usize) -> Result<Vec<Option<i128>>, Memory>
    ensures { IfOk result (λ values. values.items ≡ map (model.value_in figure) runs.now) }
{
    let mut values = Vec::new(alloc);
    for run in runs {
        values.push(value_in(run, figure))?;
    }
    Ok(values)
}

/// A figure with its values.
fn column_of(alloc: Global, figure: &Figure, place: usize, runs: &[Run]) -> Result<Column, Memory>
    requires { length runs.now ≤ 512 }
    ensures { IfOk result (λ column.
        series_of column ≡ model.series_at runs.now place (label_of figure.now)) }
{
    let values = values_of(alloc, runs, place)?;
    let mut name = Vec::new(alloc);
    name.extend_from_slice(&figure.name)?;
    Ok(Column {
        name,
        is_main: figure.main,
        values,
    })
}

/// The figures that are told, with their values.
#[tactic(auto, unfolding(crate::specs::Told::series_from))]
fn columns_of(
    alloc: Global,
    figures: &[Figure],
    runs: &[Run],
    all: bool,
) -> Result<Vec<Column>, Memory>
    requires { length runs.now ≤ 512 }
    ensures { IfOk result (λ columns.
        map series_of columns.items ≡ model.all_series all runs.now figures.now) }
{
    let mut columns = Vec::new(alloc);
    for i in 0..figures.len() {
        if all || figures[i].main {
            columns.push(column_of(alloc, &figures[i], i, runs)?)?;
        }
    }
    Ok(columns)
}

/// The point of a name, by what its runs say, of which there are at most 512. Blocks, switches and user chains are told where all
/// figures are.
pub fn point_of(alloc: Global, point: &[u8], results: &Results, all: bool) -> Result<Point, Memory>
    requires { vec_len results.now.runs ≤ 512 }
    ensures { IfOk result (IsPointBy all point.now results.now) }
{
    let mut name = Vec::new(alloc);
    name.extend_from_slice(point)?;
    let columns = columns_of(alloc, &results.figures, &results.runs, all)?;
    Ok(Point { name, columns })
}

/// The line above the table of an alternative.
#[tactic(auto, unfolding(crate::specs::Told::head_line))]
fn put_head(out: &mut Vec<u8>, name: &[u8]) -> Result<(), Memory>
    ensures { OnOk result (out.new.items ≡ out.old.items ++ model.head_line name.now) }
{
    out.extend_from_slice(b"POINT ")?;
    out.extend_from_slice(name)?;
    out.extend_from_slice(b"\n")
}

/// A text, and the end of a line behind it.
fn put_ended(out: &mut Vec<u8>, text: &[u8]) -> Result<(), Memory>
    ensures { OnOk result (out.new.items ≡ out.old.items ++ text.now ++ codes "\n") }
{
    out.extend_from_slice(text)?;
    out.extend_from_slice(b"\n")
}

/// The head of an alternative of a name, what is told of its runs, at most 512, which have this count, and an empty line.
pub fn put_table(
    alloc: Global,
    out: &mut Vec<u8>,
    name: &[u8],
    results: &Results,
    request: &StudyRequest,
    count: u64,
) -> Result<(), Memory>
    requires runs { vec_len results.now.runs ≤ 512 }
    requires count { count ≤ 2 ^ 40 }
    ensures { OnOk result (Adds (model.IsTableOf name.now results.now request.now count)
        out.old.items out.new.items) }
{
    put_head(out, name)?;
    let text = results_text(alloc, results, request, count)?;
    put_ended(out, &text)
}

/// The same, where tables are asked for.
fn put_table_in(
    alloc: Global,
    out: &mut Vec<u8>,
    alternative: &StudyPoint,
    results: &Results,
    form: Form<'_>,
    request: &StudyRequest,
) -> Result<(), Memory>
    requires { vec_len results.now.runs ≤ 512 }
    ensures { model.PutsTableIn result form.entry request.now alternative.now results.now
        out.old out.new }
{
    match form {
        Form::Table => put_table(
            alloc,
            out,
            &alternative.name,
            results,
            request,
            alternative.spec.count(),
        ),
        Form::Csv | Form::Picture(_) => Ok(()),
    }
}

/// Runs an alternative; its table is put, where tables are asked for. What its runs say comes back.
fn point_told<W: Threads + Sync + Eprint>(
    rt: &W,
    alloc: Global,
    out: &mut Vec<u8>,
    alternative: &StudyPoint,
    form: Form<'_>,
    request: &StudyRequest,
) -> Result<Point, Memory>
    requires { MayBeStudied request.now }
    ensures { PutsAlternative result form.entry request.now alternative.now out.old out.new }
{
    let results = results(rt, alloc, &alternative.spec, request)?;
    put_table_in(alloc, out, alternative, &results, form, request)?;
    point_of(alloc, &alternative.name, &results, request.all)
}

/// Runs all alternatives, one after the other.
fn points_told<W: Threads + Sync + Eprint>(
    rt: &W,
    alloc: Global,
    out: &mut Vec<u8>,
    alternatives: &[StudyPoint],
    form: Form<'_>,
    request: &StudyRequest,
) -> Result<Vec<Point>, Memory>
    requires { MayBeStudied request.now }
    ensures { PutsAlternatives result form.entry request.now alternatives.now out.old out.new }
{
    let mut points = Vec::new(alloc);
    for i in 0..alternatives.len() {
        points.push(point_told(rt, alloc, out, &alternatives[i], form, request)?)?;
    }
    Ok(points)
}

/// The differences of a point to the first, and an empty line.
pub fn put_block(
    alloc: Global,
    out: &mut Vec<u8>,
    first: &Point,
    second: &Point,
    all: bool,
) -> Result<(), Memory>
    ensures { OnOk result (AddsBlock all first.now second.now out.old.items out.new.items) }
{
    put_differences(alloc, out, first, second, all)?;
    out.push(b'\n')?;
    Ok(())
}

/// The differences of points to the first.
fn put_blocks(
    alloc: Global,
    out: &mut Vec<u8>,
    first: &Point,
    others: &[Point],
    all: bool,
) -> Result<(), Memory>
    ensures { OnOk result
        (AddsEach (AddsBlock all first.now) others.now out.old.items out.new.items) }
{
    for i in 0..others.len() {
        put_block(alloc, out, first, &others[i], all)?;
    }
    Ok(())
}

/// The differences of all points to the first.
fn put_all_differences(
    alloc: Global,
    out: &mut Vec<u8>,
    points: &[Point],
    all: bool,
) -> Result<(), Memory>
    ensures { OnOk result (AddsAllDifferences all points.now out.old.items out.new.items) }
{
    match points {
        [first, others @ ..] => put_blocks(alloc, out, first, others, all),
        [] => Ok(()),
    }
}

/// What is told of points behind their tables: differences, records, or a picture.
fn put_points(
    alloc: Global,
    out: &mut Vec<u8>,
    points: &[Point],
    form: Form<'_>,
    all: bool,
) -> Result<(), Memory>
    ensures { OnOk result (AddsRest form.entry all points.now out.old.items out.new.items) }
{
    match form {
        Form::Table => put_all_differences(alloc, out, points, all),
        Form::Csv => put_sheet(alloc, out, points, all),
        Form::Picture(figure) => put_picture(alloc, out, figure, points),
    }
}

/// What is told of alternatives.
pub(crate) fn told<W: Threads + Sync + Eprint>(
    rt: &W,
    alloc: Global,
    alternatives: &[StudyPoint],
    form: Form<'_>,
    request: &StudyRequest,
) -> Result<Vec<u8>, Memory>
    requires { MayBeStudied request.now }
    ensures { IfOk result (λ text. AreTold form.entry request.now alternatives.now text.items) }
{
    let mut out = Vec::new(alloc);
    let points = points_told(rt, alloc, &mut out, alternatives, form, request)?;
    put_points(alloc, &mut out, &points, form, request.all)?;
    Ok(out)
}
