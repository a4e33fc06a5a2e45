//! The explanation of a model text, or of an object.

ghost use Rattle.std.specs.Prelude.{◌≡◌, IfOk, OnOk};
ghost use Rattle.gw_answers.specs.Status.{end_status as ended_status, refusal_status};
ghost use Rattle.gw_answers.specs.Answer.{accepted_line};
ghost use Rattle.gw_source_lines.specs.Sites.{no_sites, sites_told};
ghost use Rattle.gw_explain.specs.Explanation.{Begins, ExplainsRefusal, TellsFault, IsExplainedModel, IsExplainedText, IsExplained, sites_in};
ghost use Rattle.gw_explain.specs.Shown.{bytes_of};

use crate::facts::known_in_model;
use crate::forms::{put_marks, put_words_on_site, site_of};
use crate::lines::{Text, put_lines_of};
use crate::meaning::put_advice;
use crate::objects::explain_object;
use crate::summary::model_summary;
use gw_answers::{Answer, Refusal, answer_acceptance, answer_refusal, is_object};
use gw_assemble::assemble;
use gw_object::{Fault, Memory, codes};
use gw_rules::Verified;
use gw_source_lines::{Sources, sources};
use gw_text::{Model, parse};
use gw_text_tokens::lines::lines_of;
use std::alloc::Global;

/// The lines of a text that a refusal is about, with marks below the line on which a form stands that is left out, and behind them the
/// words on its code, with what is known.
#[tactic(auto, using(crate::proofs::Beginning::marked_and_advised))]
fn put_told(
    alloc: Global,
    out: &mut Vec<u8>,
    lines: &[&[u8]],
    known: &[u8],
    sources: &Sources,
    fault: Fault,
) -> Result<(), Memory>
    ensures { OnOk result (TellsFault (bytes_of lines.now) (sites_told sources.now) fault
        out.old.items out.new.items) }
{
    let site = site_of(alloc, lines, fault)?;
    put_lines_of(out, lines, sources, fault.place)?;
    put_marks(alloc, out, lines, fault.place, site)?;
    let mut words = Vec::new(alloc);
    put_words_on_site(&mut words, known, site)?;
    put_advice(out, &words, fault.code)
}

/// The explanation of a refusal: its line, the lines that it is about, and the words on it, with what is known; want of memory
/// is no explanation.
fn refusal_of(
    alloc: Global,
    text: &[u8],
    known: &[u8],
    sources: &Sources,
    fault: Fault,
) -> Result<Answer, Memory>
    ensures text { IfOk result (λ a.
        ExplainsRefusal text.now (sites_told sources.now) fault a.text.items) }
    ensures status { IfOk result (λ a. a.status ≡ refusal_status) }
{
    if fault.code == codes::MEMORY {
        return Err(Memory);
    }
    let lines = lines_of(alloc, text)?;
    let mut answer = answer_refusal(alloc, Refusal(fault))?;
    put_told(alloc, &mut answer.text, &lines, known, sources, fault)?;
    Ok(answer)
}

/// What is known at the place of a fault of a model text with these places.
fn known_of(
    alloc: Global,
    text: &[u8],
    model: &Model,
    sources: &Sources,
    fault: Fault,
) -> Result<Vec<u8>, Memory> {
    let lines = lines_of(alloc, text)?;
    let text = Text {
        lines: &lines,
        blocks: &sources.blocks,
    };
    known_in_model(alloc, model, &text, fault)
}

/// The explanation of a refusal of a model text that was read.
fn refusal_in(alloc: Global, text: &[u8], model: &Model, fault: Fault) -> Result<Answer, Memory>
    ensures text { IfOk result (λ a.
        ExplainsRefusal text.now (sites_in model.now) fault a.text.items) }
    ensures status { IfOk result (λ a. a.status ≡ refusal_status) }
{
    let sources = sources(alloc, model)?;
    let known = known_of(alloc, text, model, &sources, fault)?;
    refusal_of(alloc, text, &known, &sources, fault)
}

/// What a model that is accepted has, behind what there is.
#[tactic(auto, using(crate::proofs::Beginning::begun))]
fn put_summary(
    alloc: Global,
    out: &mut Vec<u8>,
    model: &Model,
    verified: &Verified,
) -> Result<(), Memory>
    ensures { OnOk result (Begins out.old.items out.new.items) }
{
    let words = model_summary(alloc, model, verified)?;
    out.extend_from_slice(&words)
}

/// The explanation of a model that is accepted: its line, and what it has.
#[tactic(auto, using(crate::proofs::Beginning::begun_with))]
fn acceptance_of(alloc: Global, model: &Model, verified: &Verified) -> Result<Answer, Memory>
    ensures text { IfOk result (λ a. Begins (accepted_line verified.now) a.text.items) }
    ensures status { IfOk result (λ a. a.status ≡ ended_status) }
{
    let mut answer = answer_acceptance(alloc, verified)?;
    put_summary(alloc, &mut answer.text, model, verified)?;
    Ok(answer)
}

/// The explanation of a model text that was read.
fn explain_model(alloc: Global, text: &[u8], model: &Model) -> Result<Answer, Memory>
    ensures { IfOk result (λ a.
        IsExplainedModel text.now model.now.statements.items a.text.items a.status) }
{
    match assemble(alloc, model) {
        Ok(verified) => {
            let answer = acceptance_of(alloc, model, &verified);
            drop(verified);
            answer
        }
        Err(fault) => refusal_in(alloc, text, model, fault),
    }
}

/// The explanation of a model text that can't be read.
fn explain_unread(alloc: Global, text: &[u8], fault: Fault) -> Result<Answer, Memory>
    ensures text { IfOk result (λ a. ExplainsRefusal text.now no_sites fault a.text.items) }
    ensures status { IfOk result (λ a. a.status ≡ refusal_status) }
{
    refusal_of(alloc, text, &[], &Sources::none(alloc), fault)
}

/// The explanation of a model text.
fn explain_text(alloc: Global, text: &[u8]) -> Result<Answer, Memory>
    ensures { IfOk result (λ a. IsExplainedText text.now a.text.items a.status) }
{
    match parse(alloc, text) {
        Ok(model) => {
            let answer = explain_model(alloc, text, &model);
            drop(model);
            answer
        }
        Err(fault) => explain_unread(alloc, text, fault),
    }
}

/// The explanation of a model text or of an object for planners, with the status of its assembly or of its check: 0 where it is
/// accepted, else 1.
///
/// Of one that is refused it has the refusal's line, the lines of the text that it is about, what is wrong, for 20 to 28 what
/// is known of a transaction there, and how to mend it. Of one that is accepted it has the line of the object, and what the
/// model has. An object has no lines. `Err` where memory runs out.
pub fn explain(alloc: Global, input: &[u8]) -> Result<Answer, Memory>
    ensures { IfOk result (λ a. IsExplained input.now a.text.items a.status) }
{
    if is_object(input) {
        explain_object(alloc, input)
    } else {
        explain_text(alloc, input)
    }
}
