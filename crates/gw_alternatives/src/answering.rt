//! From alternatives to what is told of them.

ghost use Rattle.std.specs.Prelude.{◌≡◌};
ghost use Rattle.gw_answers.specs.Requests.{AnswersAs};
ghost use Rattle.gw_answers.specs.Status.{refusal_status};
ghost use Rattle.gw_alternatives.specs.Told.{IsAnswerAbout};
ghost use Rattle.gw_study.specs.Requests.{MayBeStudied};

use crate::alternatives::refusal_of_figure;
use crate::form::Form;
use crate::study_point::StudyPoint;
use crate::told::told;
use gw_answers::Answer;
use gw_answers::status::{ENDED, REFUSED};
use gw_object::Memory;
use gw_study::StudyRequest;
use std::alloc::Global;
use std::io::Eprint;
use std::thread::Threads;

/// Why alternatives can't be told in a form, if they can't: it is a picture of a figure that there isn't.
fn refusal_of_form(
    alloc: Global,
    alternatives: &[StudyPoint],
    form: Form<'_>,
) -> Result<Option<Vec<u8>>, Memory> {
    match form {
        Form::Picture(figure) => refusal_of_figure(alloc, alternatives, figure),
        Form::Table | Form::Csv => Ok(None),
    }
}

/// The answer that something is refused, with this text.
fn refusal(text: Vec<u8>) -> Answer
    ensures { (result.text ≡ text) × (result.status ≡ refusal_status) }
{
    Answer {
        text,
        status: REFUSED,
    }
}

/// What many runs of these points say: of a model with other numbers in it, or of two models. Run r of each point has the same
/// seeds. As tables each point has its own, and then come the differences of each to the first, by pairs of runs and by the figures
/// that both have. A picture of a figure that the first point hasn't is refused before any run.
pub fn study_points<W: Threads + Sync + Eprint>(
    rt: &W,
    alloc: Global,
    points: &[StudyPoint],
    form: Form<'_>,
    request: &StudyRequest,
) -> Result<Answer, Memory>
    requires { MayBeStudied request.now }
    ensures { AnswersAs result (IsAnswerAbout form.entry request.now points.now) }
{
    match refusal_of_form(alloc, points, form)? {
        Some(text) => Ok(refusal(text)),
        None => Ok(Answer {
            text: told(rt, alloc, points, form, request)?,
            status: ENDED,
        }),
    }
}
