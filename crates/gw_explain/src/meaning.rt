//! What a code means, and the words on it.

ghost use Rattle.std.specs.Prelude.{◌≡◌, ◌≤◌, length, drop, IfOk, OnOk};
ghost use Rattle.gw_writing.specs.Text.{Puts};
ghost use Rattle.gw_answers.specs.Status.{end_status};
ghost use Rattle.gw_explain.specs.Codes.{lines_of_words, advice_lines};
ghost use Rattle.gw_explain.specs.Explanation.{IsAdvised};
ghost use Rattle.gw_explain.specs.Meaning.{code_line, meaning};

use crate::advice::advice_on;
use gw_answers::status::ENDED;
use gw_answers::{Answer, Refusal, answer_refusal};
use gw_object::{Fault, Memory, Place};
use gw_writing::put;
use std::alloc::Global;

/// A line for what is wrong and one for how to mend it, with what is known between them, behind what there is.
fn put_lines(out: &mut Vec<u8>, wrong: &str, known: &[u8], mend: &str) -> Result<(), Memory>
    ensures { Puts result out.old out.new (lines_of_words known.now (wrong.now, mend.now)) }
{
    put(out, "wrong: ")?;
    put(out, wrong)?;
    put(out, "\n")?;
    out.extend_from_slice(known)?;
    put(out, "mend: ")?;
    put(out, mend)?;
    put(out, "\n")
}

/// The words on a code, with what is known between them, behind what there is.
fn put_words(out: &mut Vec<u8>, known: &[u8], code: u16) -> Result<(), Memory>
    ensures { Puts result out.old out.new (advice_lines known.now code) }
{
    match advice_on(code) {
        Some(advice) => put_lines(out, advice.wrong, known, advice.mend),
        None => Ok(()),
    }
}

/// The words on the code of a refusal, with what is known between them, behind what is told of it.
#[tactic(auto, using(crate::proofs::Beginning::advised))]
pub(crate) fn put_advice(out: &mut Vec<u8>, known: &[u8], code: u16) -> Result<(), Memory>
    ensures { OnOk result (IsAdvised out.old.items code out.new.items) }
{
    put_words(out, known, code)
}

/// What stands behind `refused ` in the line of a refusal.
fn behind_refused(line: &[u8]) -> &[u8]
    requires { 8 ≤ length line.now }
    ensures { result.now ≡ drop 8 line.now }
{
    &line[8..]
}

/// A code with its name, as a refusal has them, behind what there is.
#[tactic(auto, using(crate::proofs::Naming::long_enough))]
fn put_code(alloc: Global, out: &mut Vec<u8>, code: u16) -> Result<(), Memory>
    ensures { Puts result out.old out.new (code_line code) }
{
    let place = Place::Nowhere;
    let refusal = answer_refusal(alloc, Refusal(Fault { code, place }))?;
    out.extend_from_slice(behind_refused(&refusal.text))
}

/// What the code of a refusal means, and how to mend what it says: a line with the code and its name, one for what is wrong, and
/// one for how to mend it. Of a number that is no code there is the first line alone. `Err` where memory runs out.
pub fn explain_code(alloc: Global, code: u16) -> Result<Answer, Memory>
    ensures { IfOk result (λ a. (a.text.items ≡ meaning code) × (a.status ≡ end_status)) }
{
    let mut text = Vec::new(alloc);
    put_code(alloc, &mut text, code)?;
    put_words(&mut text, &[], code)?;
    Ok(Answer {
        text,
        status: ENDED,
    })
}
