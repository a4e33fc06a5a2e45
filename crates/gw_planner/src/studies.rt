//! Many runs of a model, or of two.

ghost use Rattle.std.specs.Prelude.{◌≡◌, ◌<◌, ℕ, List, [], length, map, option_map, IfOk, OnOk};
ghost use Rattle.gw_command_line.specs.Asking.{MayBeMade};
ghost use Rattle.gw_command_line.specs.Words.{study_view};
ghost use Rattle.gw_command_line.specs.Options.{view};
ghost use Rattle.gw_alternatives.specs.Alternatives.{ArePoints};
ghost use Rattle.gw_study.specs.Requests.{MayBeStudied};
ghost use Rattle.gw_study.specs.Study.{IsStudy};
ghost use Rattle.gw_planner.specs.Answers.{request_of as request_for, is_plain as plain, words_of as words_for, studied_alone, comparison_answering, AddsWord, IsFormOf, IsPair};
ghost use Rattle.gw_planner.specs.Works.{ArePairPoints};

use byteorder::{BigEndian, ByteOrder};
use gw_alternatives::{Form, StudyPoint, study_points};
use gw_answers::Answer;
use gw_command_line::{Options, Study};
use gw_explain::notes_on;
use gw_object::Memory;
use gw_study::{StudyRequest, study};
use std::alloc::Global;
use std::io::Eprint;
use std::thread::Threads;

/// The bytes of the length before the first of two models.
const LENGTH_BYTES: usize = 4;

/// What is asked for, as the library of studies has it.
fn request_of(study: &Study<'_>) -> StudyRequest
    ensures { result ≡ request_for (study_view study.now) }
{
    let options = &study.options;
    StudyRequest {
        runs: study.runs,
        count: study.count,
        from: options.from.unwrap_or(0),
        seeds: options.seeds.unwrap_or(1),
        workers: options.workers.unwrap_or(0),
        all: options.all,
    }
}

/// In which form it is asked for.
fn form_of<'a>(options: &Options<'a>) -> Form<'a>
    ensures { IsFormOf (view options.now) result }
{
    match options.figure {
        Some(figure) => Form::Picture(figure.as_bytes()),
        None => { if options.csv { Form::Csv } else { Form::Table } }
    }
}

/// Adds a word, if there is one.
fn put_word<'a>(words: &mut Vec<&'a [u8]>, word: Option<&'a str>) -> Result<(), Memory>
    ensures { OnOk result
        (AddsWord words.old words.new (option_map (λ w. w.now) word.entry)) }
{
    if let Some(word) = word {
        words.push(word.as_bytes())?;
    }
    Ok(())
}

/// The words as `NURSES=2,3`.
pub(crate) fn words_of<'a>(alloc: Global, options: &Options<'a>) -> Result<Vec<&'a [u8]>, Memory>
    ensures { IfOk result (λ words.
        map (λ w. w.now) words.items ≡ words_for (view options.now)) }
{
    let mut words = Vec::new(alloc);
    put_word(&mut words, options.first)?;
    put_word(&mut words, options.second)?;
    put_word(&mut words, options.third)?;
    Ok(words)
}

/// Two models in one input: the first behind its length in four bytes, the highest first, and then the second.
pub(crate) fn models_in(input: &[u8]) -> (&[u8], &[u8])
    ensures { IsPair input.now result.0.now result.1.now }
{
    if input.len() < LENGTH_BYTES {
        return (&[], &[]);
    }
    let (length, models) = input.split_at(LENGTH_BYTES);
    models.split_at((BigEndian::read_u32(length) as usize).min(models.len()))
}

/// Whether the model is studied as it is, as a table.
pub(crate) fn is_plain(options: &Options<'_>) -> bool
    ensures { result ≡ plain (view options.now) }
{
    options.first.is_none()
        && options.second.is_none()
        && options.third.is_none()
        && options.figure.is_none()
        && !options.csv
}

/// Points but the first.
fn behind_first(points: &[StudyPoint]) -> &[StudyPoint] {
    match points {
        [_, rest @ ..] => rest,
        [] => &[],
    }
}

/// Tells on standard error what is noted of a model, whose runs are those of the first of these points, as its explanation does.
/// Where that can't be told it isn't: the study goes on.
fn tell_notes<T: Eprint>(rt: &T, alloc: Global, model: &[u8], points: &[StudyPoint]) {
    if let [point, ..] = points
        && let Ok(notes) = notes_on(alloc, model, point.spec.verified_object().object().parts())
        && let Ok(words) = str::from_utf8(&notes)
    {
        let _ = rt.eprint(words);
    }
}

/// The study of the one point of a model as it is.
fn lone_study<T: Threads + Sync + Eprint>(
    rt: &T,
    alloc: Global,
    points: &[StudyPoint],
    request: &StudyRequest,
) -> Result<Answer, Memory>
    requires studied { MayBeStudied request.now }
    requires some { 0 < length points.now }
    ensures { (bytes : List ℕ) → ArePoints bytes [] request.now.count points.now
        → IfOk result (λ a. IsStudy bytes request.now a.text.items a.status) }
{
    match points {
        [point, ..] => study(rt, alloc, &point.spec, request),
        [] => unreachable!(),
    }
}

/// What many runs of a model say, whose points are these. What is noted of it is told on standard error.
#[tactic(auto, using(crate::proofs::Working::plain_words, crate::proofs::Showing::some_point))]
pub(crate) fn study_of<T: Threads + Sync + Eprint>(
    rt: &T,
    alloc: Global,
    asked: &Study<'_>,
    model: &[u8],
    points: &[StudyPoint],
) -> Result<Answer, Memory>
    requires made { MayBeMade asked.now }
    requires points { ArePoints model.now (words_for (view asked.now.options)) asked.now.count points.now }
    ensures { IfOk result (λ a. studied_alone (study_view asked.now) model.now a.text.items a.status) }
{
    tell_notes(rt, alloc, model, points);
    let request = request_of(asked);
    if is_plain(&asked.options) {
        return lone_study(rt, alloc, points, &request);
    }
    let form = form_of(&asked.options);
    study_points(rt, alloc, points, form, &request)
}

/// What many runs of two models say, whose points are these. What is noted of them is told on standard error.
pub(crate) fn comparison_of<T: Threads + Sync + Eprint>(
    rt: &T,
    alloc: Global,
    asked: &Study<'_>,
    input: &[u8],
    points: &[StudyPoint],
) -> Result<Answer, Memory>
    requires made { MayBeMade asked.now }
    requires points { ArePairPoints asked.now.count input.now points.now }
    ensures { IfOk result (λ a. comparison_answering (study_view asked.now) input.now a.text.items a.status) }
{
    let (first, second) = models_in(input);
    tell_notes(rt, alloc, first, points);
    tell_notes(rt, alloc, second, behind_first(points));
    let form = form_of(&asked.options);
    let request = request_of(asked);
    study_points(rt, alloc, points, form, &request)
}
