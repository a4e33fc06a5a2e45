//! The listing of a model text, or of an object.

ghost use Rattle.std.specs.Prelude.{◌≡◌, IfOk};
ghost use Rattle.gw_answers.specs.Status.{end_status};
ghost use Rattle.gw_source_lines.specs.Sites.{sites_of, sites_told};
ghost use Rattle.gw_listing.specs.Listing.{IsListingOf, TellsRefusal, IsListedObject, IsListedModel, IsListedText, IsListed};

use crate::parts::listing_of;
use gw_answers::status::ENDED;
use gw_answers::{Answer, NoJob, Refusal, accepted_in, answer_refusal, is_object};
use gw_assemble::assemble;
use gw_object::{Fault, Memory, codes};
use gw_rules::Verified;
use gw_source_lines::{Sources, sources};
use gw_text::{Model, parse};
use std::alloc::Global;

/// The listing of an accepted object, and the lines of a text that it comes from.
fn listed(
    alloc: Global,
    verified: &Verified,
    text: &[u8],
    sources: &Sources,
) -> Result<Answer, Memory>
    ensures text { IfOk result (λ a. IsListingOf verified.now (sites_told sources.now) a.text.items) }
    ensures status { IfOk result (λ a. a.status ≡ end_status) }
{
    Ok(Answer {
        text: listing_of(alloc, verified.object().parts(), text, sources)?,
        status: ENDED,
    })
}

/// The refusal of a model text; want of memory is none.
fn refused_text(alloc: Global, fault: Fault) -> Result<Answer, Memory>
    ensures { IfOk result (λ a. TellsRefusal fault a.text.items a.status) }
{
    if fault.code == codes::MEMORY {
        Err(Memory)
    } else {
        answer_refusal(alloc, Refusal(fault))
    }
}

/// The listing of the object that bytes spell, or its refusal.
fn list_object(alloc: Global, object: &[u8]) -> Result<Answer, Memory>
    ensures { IfOk result (λ a. IsListedObject object.now a.text.items a.status) }
{
    match accepted_in(alloc, object) {
        Ok(verified) => {
            let answer = listed(alloc, &verified, &[], &Sources::none(alloc));
            drop(verified);
            answer
        }
        Err(NoJob::Refused(refusal)) => answer_refusal(alloc, refusal),
        Err(NoJob::OutOfMemory) => Err(Memory),
    }
}

/// The listing of the object that a model text becomes, with the lines of the text.
fn listed_with_lines(
    alloc: Global,
    verified: &Verified,
    text: &[u8],
    model: &Model,
) -> Result<Answer, Memory>
    ensures text { IfOk result (λ a.
        IsListingOf verified.now (sites_of model.now.statements.items) a.text.items) }
    ensures status { IfOk result (λ a. a.status ≡ end_status) }
{
    let sources = sources(alloc, model)?;
    listed(alloc, verified, text, &sources)
}

/// The listing of a model text that was read, or the refusal of its assembly.
fn list_model(alloc: Global, text: &[u8], model: &Model) -> Result<Answer, Memory>
    ensures { IfOk result (λ a. IsListedModel model.now.statements.items a.text.items a.status) }
{
    match assemble(alloc, model) {
        Ok(verified) => {
            let answer = listed_with_lines(alloc, &verified, text, model);
            drop(verified);
            answer
        }
        Err(fault) => refused_text(alloc, fault),
    }
}

/// The listing of a model text, or its refusal.
fn list_text(alloc: Global, text: &[u8]) -> Result<Answer, Memory>
    ensures { IfOk result (λ a. IsListedText text.now a.text.items a.status) }
{
    match parse(alloc, text) {
        Ok(model) => {
            let answer = list_model(alloc, text, &model);
            drop(model);
            answer
        }
        Err(fault) => refused_text(alloc, fault),
    }
}

/// The listing of a model text, or of an object: a line for each block, entity and user chain, the instructions of each procedure,
/// and the return rows, by names where there are any. A text that is refused is told as `gpssw asm` tells it, and an object as
/// `gpssw check` does.
pub fn list(alloc: Global, input: &[u8]) -> Result<Answer, Memory>
    ensures { IfOk result (λ a. IsListed input.now a.text.items a.status) }
{
    if is_object(input) {
        list_object(alloc, input)
    } else {
        list_text(alloc, input)
    }
}
