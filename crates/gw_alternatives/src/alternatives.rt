//! The jobs of alternatives: each is there, or the first that is refused, before any run.

ghost use Rattle.std.specs.Prelude.{◌≡◌, ◌<◌, ◌≤◌, ◌++◌, ◌∷◌, [], length, map, IfOk, IfErr, OnOk};
ghost use Rattle.gw_answers.specs.ModelJobs.{OnRefusal};
ghost use Rattle.gw_study.specs.Study.{IsStudyRefusal};
ghost use Rattle.gw_parameters.specs.Points.{count_of, name_of as point_name};
ghost use Rattle.gw_alternatives.specs.Alternatives.{IsAlternative, IsLonePoint, IsPointAt, ArePoints, ArePointsOf, AreModels};

use crate::study_point::StudyPoint;
use gw_answers::{BUDGET, NoJob, Refusal, answer_refusal};
use gw_figures::figures;
use gw_object::Memory;
use gw_parameters::{NoAnswer, ParameterFault, Points, points_of, refusal_of as parameter_refusal};
use gw_scan::Spec;
use gw_study::job_of_model;
use std::alloc::Global;

/// The line of a refusal, and of which alternative it is.
fn line_of(alloc: Global, refusal: Refusal, name: &[u8]) -> Result<Vec<u8>, Memory> {
    let mut text = answer_refusal(alloc, refusal)?.text;
    if !name.is_empty() {
        text.extend_from_slice(b"of: ")?;
        text.extend_from_slice(name)?;
        text.extend_from_slice(b"\n")?;
    }
    Ok(text)
}

/// The refusal of a text, as it is printed.
fn refusal_of(alloc: Global, none: NoJob, name: &[u8]) -> NoAnswer {
    match none {
        NoJob::Refused(refusal) => match line_of(alloc, refusal, name) {
            Ok(text) => NoAnswer::Refused(text),
            Err(Memory) => NoAnswer::Memory,
        },
        NoJob::OutOfMemory => NoAnswer::Memory,
    }
}

/// An alternative of this name, with the job of a text.
pub(crate) fn alternative_of(
    alloc: Global,
    name: Vec<u8>,
    text: &[u8],
    count: u64,
) -> Result<StudyPoint, NoAnswer>
    ensures { IfOk result (IsAlternative name.items text.now count) }
{
    match job_of_model(alloc, text, count) {
        Ok(spec) => Ok(StudyPoint { name, spec }),
        Err(none) => {
            let none = refusal_of(alloc, none, &name);
            drop(name);
            Err(none)
        }
    }
}

/// What a point is called.
fn name_of(alloc: Global, points: &Points, point: usize) -> Result<Vec<u8>, Memory>
    requires { point < count_of points.now }
    ensures { IfOk result (λ name. name.items ≡ point_name points.now point) }
{
    let mut name = Vec::new(alloc);
    points.put_name(&mut name, point)?;
    Ok(name)
}

/// A point of a text, by its number from 0.
fn point_of(
    alloc: Global,
    text: &[u8],
    points: &Points,
    point: usize,
    count: u64,
) -> Result<StudyPoint, NoAnswer>
    requires { point < count_of points.now }
    ensures { IfOk result (IsPointAt text.now points.now count point) }
{
    match points.text_at(alloc, text, point) {
        Ok(made) => match name_of(alloc, points, point) {
            Ok(name) => alternative_of(alloc, name, &made, count),
            Err(Memory) => Err(NoAnswer::Memory),
        },
        Err(none) => Err(none),
    }
}

/// Alternatives, with one more.
fn add(alternatives: &mut Vec<StudyPoint>, alternative: StudyPoint) -> Result<(), NoAnswer>
    ensures { OnOk result (alternatives.new.items ≡ alternatives.old.items ++ alternative ∷ []) }
{
    match alternatives.push(alternative) {
        Ok(()) => Ok(()),
        Err(_) => Err(NoAnswer::Memory),
    }
}

/// The points of a text.
fn points_in(
    alloc: Global,
    text: &[u8],
    points: &Points,
    count: u64,
) -> Result<Vec<StudyPoint>, NoAnswer>
    requires { count_of points.now ≤ 64 }
    ensures { IfOk result (λ all. ArePointsOf text.now points.now count all.items) }
{
    let mut alternatives = Vec::new(alloc);
    for point in 0..points.count() {
        let alternative = point_of(alloc, text, points, point, count)?;
        add(&mut alternatives, alternative)?;
    }
    Ok(alternatives)
}

/// The points of a text that words as `NURSES=2,3` ask for.
pub fn points_by_words(
    alloc: Global,
    text: &[u8],
    words: &[&[u8]],
    count: u64,
) -> Result<Vec<StudyPoint>, NoAnswer>
    ensures points { IfOk result
        (λ all. ArePoints text.now (map (λ w. w.now) words.now) count all.items) }
    ensures few { IfOk result (λ all. length all.items ≤ 64) }
{
    match points_of(alloc, words) {
        Ok(points) => points_in(alloc, text, &points, count),
        Err(none) => Err(none),
    }
}

/// A copy of a name.
fn copy_of(alloc: Global, name: &[u8]) -> Result<Vec<u8>, NoAnswer>
    ensures { IfOk result (λ copy. copy.items ≡ name.now) }
{
    let mut copy = Vec::new(alloc);
    match copy.extend_from_slice(name) {
        Ok(()) => Ok(copy),
        Err(_) => Err(NoAnswer::Memory),
    }
}

/// An alternative without a name, with this job.
fn nameless(alloc: Global, spec: Spec) -> StudyPoint
    requires { spec.budget ≡ BUDGET }
    ensures { (result.name.items ≡ []) × (result.spec ≡ spec) }
{
    StudyPoint {
        name: Vec::new(alloc),
        spec,
    }
}

/// A list of one alternative, which has no name.
fn list_of(alloc: Global, spec: Spec) -> Result<Vec<StudyPoint>, NoAnswer>
    requires { spec.budget ≡ BUDGET }
    ensures { IfOk result (λ all. IsLonePoint spec all.items) }
{
    let mut alternatives = Vec::new(alloc);
    let alternative = nameless(alloc, spec);
    add(&mut alternatives, alternative)?;
    Ok(alternatives)
}

/// The one point of a model as it is; or why there is none, as a study tells it.
#[tactic(auto, using(crate::proofs::Lone::few))]
pub fn lone_point(alloc: Global, model: &[u8], count: u64) -> Result<Vec<StudyPoint>, NoJob>
    ensures points { IfOk result (λ all. ArePoints model.now [] count all.items) }
    ensures few { IfOk result (λ all. length all.items ≤ 64) }
    ensures none { IfErr result (λ none. OnRefusal none (IsStudyRefusal model.now count)) }
{
    match job_of_model(alloc, model, count) {
        Ok(spec) => match list_of(alloc, spec) {
            Ok(alternatives) => Ok(alternatives),
            Err(_) => Err(NoJob::OutOfMemory),
        },
        Err(none) => Err(none),
    }
}

/// Two models: A and B.
pub fn models_of(
    alloc: Global,
    first: &[u8],
    second: &[u8],
    count: u64,
) -> Result<Vec<StudyPoint>, NoAnswer>
    ensures models { IfOk result (λ all. AreModels first.now second.now count all.items) }
    ensures few { IfOk result (λ all. length all.items ≤ 64) }
{
    let mut alternatives = Vec::new(alloc);
    let name = copy_of(alloc, b"A")?;
    let alternative = alternative_of(alloc, name, first, count)?;
    add(&mut alternatives, alternative)?;
    let name = copy_of(alloc, b"B")?;
    let alternative = alternative_of(alloc, name, second, count)?;
    add(&mut alternatives, alternative)?;
    Ok(alternatives)
}

/// Whether a model has a figure of this name.
fn has_figure(alloc: Global, spec: &Spec, name: &[u8]) -> Result<bool, Memory> {
    let figures = figures(alloc, spec.verified_object().object().parts())?;
    for i in 0..figures.len() {
        if figures[i].name.as_slice() == name {
            return Ok(true);
        }
    }
    Ok(false)
}

/// The refusal of a figure that the first alternative hasn't, if it hasn't.
pub(crate) fn refusal_of_figure(
    alloc: Global,
    alternatives: &[StudyPoint],
    name: &[u8],
) -> Result<Option<Vec<u8>>, Memory> {
    match alternatives {
        [first, ..] => {
            if has_figure(alloc, &first.spec, name)? {
                Ok(None)
            } else {
                Ok(Some(parameter_refusal(alloc, name, ParameterFault::Figure)?))
            }
        }
        [] => Ok(None),
    }
}
