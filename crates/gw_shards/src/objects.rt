//! The object of one run.

ghost use Rattle.std.specs.Prelude.{◌≡◌, ◌<◌, ◌∷◌, length, map, IfOk};
ghost use Rattle.gw_object.specs.Grammar.{HasSpelling, spelling};
ghost use Rattle.gw_object.specs.Reading.{first_fault};
ghost use Rattle.gw_answers.specs.Requests.{AnswersAs};
ghost use Rattle.gw_study.specs.Seeds.{seeds_of_run};
ghost use Rattle.gw_shards.specs.Objects as model;
ghost use Rattle.gw_shards.specs.Objects.{IsObjectAnswer};

use gw_alternatives::{StudyPoint, points_by_words};
use gw_answers::status::{ENDED, REFUSED};
use gw_answers::{Answer, Refusal, answer_refusal};
use gw_fields::Items;
use gw_object::{Memory, Object, Parts, codes};
use gw_object_bytes::{build, read, write};
use gw_parameters::NoAnswer;
use gw_study::seeds_of;
use std::alloc::Global;

/// The same parts with other seeds and another count.
fn with_seeds(parts: Parts, seeds: Vec<u32>, count: u64) -> Parts
    ensures { result ≡ record parts { seeds = seeds.items; count = count } }
{
    Parts {
        seeds: Items::from_vec(seeds),
        count,
        ..parts
    }
}

/// The seeds of a run.
fn seeds_in(alloc: Global, run: u32) -> Result<Vec<u32>, Memory>
    requires { run < 512 }
    ensures { IfOk result (λ seeds. seeds.items ≡ seeds_of_run run) }
{
    let mut seeds = Vec::new(alloc);
    seeds.extend_from_slice(&seeds_of(run))?;
    Ok(seeds)
}

/// The bytes of an object of these parts, or why there is none.
fn spelled(alloc: Global, parts: Parts) -> Result<Answer, Memory>
    ensures { AnswersAs result (model.IsSpelled parts) }
{
    match build(parts) {
        Ok(object) => {
            let text = write(alloc, &object);
            drop(object);
            Ok(Answer {
                text: text?,
                status: ENDED,
            })
        }
        Err((parts, fault)) => {
            drop(parts);
            answer_refusal(alloc, Refusal(fault))
        }
    }
}

/// The bytes of an object with the seeds of a run and a count.
fn reseeded(alloc: Global, object: Object, run: u32, count: u64) -> Result<Answer, Memory>
    requires { run < 512 }
    ensures { model.Reseeds object run count result }
{
    match seeds_in(alloc, run) {
        Ok(seeds) => spelled(alloc, with_seeds(object.into_parts(), seeds, count)),
        Err(Memory) => {
            drop(object);
            Err(Memory)
        }
    }
}

/// The same of the object that bytes spell.
fn reseeded_bytes(alloc: Global, bytes: &[u8], run: u32, count: u64) -> Result<Answer, Memory>
    requires { run < 512 }
    ensures { (p : Parts) → HasSpelling p → bytes.now ≡ spelling p
        → model.Reseeds p run count result }
{
    match read(alloc, bytes) {
        Ok(object) => reseeded(alloc, object, run, count),
        Err(fault) if fault.code == codes::MEMORY => Err(Memory),
        Err(fault) => answer_refusal(alloc, Refusal(fault)),
    }
}

/// The object of a run of a point.
fn object_of_point(alloc: Global, point: &StudyPoint, run: u32) -> Result<Answer, Memory>
    requires { run < 512 }
    ensures { model.Reseeds point.now.spec.parts run point.now.spec.count result }
{
    let bytes = write(alloc, point.spec.verified_object().object())?;
    reseeded_bytes(alloc, &bytes, run, point.spec.count())
}

/// The object of a run of the first of these points.
fn object_of(alloc: Global, points: &[StudyPoint], run: u32) -> Result<Answer, Memory>
    requires { run < 512 }
    ensures { AnswersAs result (model.IsFirstObject points.now run) }
{
    match points {
        [point, ..] => object_of_point(alloc, point, run),
        [] => Err(Memory),
    }
}

/// The object of a run of a model, with the numbers that words as `NURSES=2` put into it: that of the model with the seeds of the run,
/// as a study has them, and the count, where 0 means the model's own. Its own run, that of `gpssw run 0 0`, is the run of the
/// study. A text, a word or a count that is refused is told as a study tells it. Of words that ask for several points it is that
/// of the first.
pub fn object_of_run(
    alloc: Global,
    text: &[u8],
    words: &[&[u8]],
    run: u32,
    count: u64,
) -> Result<Answer, Memory>
    requires { run < 512 }
    ensures { IfOk result (λ a.
        IsObjectAnswer text.now (map (λ w. w.now) words.now) run count a.text.items a.status) }
{
    match points_by_words(alloc, text, words, count) {
        Ok(points) => object_of(alloc, &points, run),
        Err(NoAnswer::Refused(refusal)) => Ok(Answer {
            text: refusal,
            status: REFUSED,
        }),
        Err(NoAnswer::Memory) => Err(Memory),
    }
}
