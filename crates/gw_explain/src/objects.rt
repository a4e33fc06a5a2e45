//! The explanation of an object.

ghost use Rattle.std.specs.Prelude.{◌≡◌, IfOk, OnOk};
ghost use Rattle.gw_answers.specs.Status.{end_status as ended_status, refusal_status};
ghost use Rattle.gw_answers.specs.Answer.{accepted_line};
ghost use Rattle.gw_answers.specs.Refusal.{refusal_line};
ghost use Rattle.gw_explain.specs.Explanation.{Begins, IsAdvised, IsExplainedObject};

use crate::facts::known_in_object;
use crate::meaning::put_advice;
use crate::summary::object_summary;
use gw_answers::{Answer, NoJob, Refusal, accepted_in, answer_acceptance, answer_refusal};
use gw_object::{Fault, Memory};
use gw_rules::Verified;
use std::alloc::Global;

/// What an object that is accepted has, behind what there is.
#[tactic(auto, using(crate::proofs::Beginning::begun))]
fn put_summary(alloc: Global, out: &mut Vec<u8>, verified: &Verified) -> Result<(), Memory>
    ensures { OnOk result (Begins out.old.items out.new.items) }
{
    let words = object_summary(alloc, verified)?;
    out.extend_from_slice(&words)
}

/// The explanation of an object that is accepted: its line, and what it has.
#[tactic(auto, using(crate::proofs::Beginning::begun_with))]
fn acceptance_of(alloc: Global, verified: &Verified) -> Result<Answer, Memory>
    ensures text { IfOk result (λ a. Begins (accepted_line verified.now) a.text.items) }
    ensures status { IfOk result (λ a. a.status ≡ ended_status) }
{
    let mut answer = answer_acceptance(alloc, verified)?;
    put_summary(alloc, &mut answer.text, verified)?;
    Ok(answer)
}

/// The explanation of a refusal: its line, and the words on it.
#[tactic(auto, using(crate::proofs::Beginning::advised_with))]
fn refusal_of(alloc: Global, input: &[u8], fault: Fault) -> Result<Answer, Memory>
    ensures text { IfOk result (λ a. IsAdvised (refusal_line fault) fault.code a.text.items) }
    ensures status { IfOk result (λ a. a.status ≡ refusal_status) }
{
    let mut answer = answer_refusal(alloc, Refusal(fault))?;
    let known = known_in_object(alloc, input, fault)?;
    put_advice(&mut answer.text, &known, fault.code)?;
    Ok(answer)
}

/// The explanation of an object, with the status of its check: what is wrong with it, what is known there, and how to mend it; or
/// what it has. `Err` where memory runs out.
pub(crate) fn explain_object(alloc: Global, input: &[u8]) -> Result<Answer, Memory>
    ensures { IfOk result (λ a. IsExplainedObject input.now a.text.items a.status) }
{
    match accepted_in(alloc, input) {
        Ok(verified) => {
            let answer = acceptance_of(alloc, &verified);
            drop(verified);
            answer
        }
        Err(NoJob::Refused(refusal)) => refusal_of(alloc, input, refusal.0),
        Err(NoJob::OutOfMemory) => Err(Memory),
    }
}
