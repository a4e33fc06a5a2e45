//! From a model, a text or an object, to its job.

ghost use Rattle.std.specs.Prelude.{◌≡◌, false, IfOk};
ghost use Rattle.gw_answers.specs.Assembly.{IsPrinted};
ghost use Rattle.gw_answers.specs.Inputs as model;
ghost use Rattle.gw_answers.specs.ModelJobs.{OnRefusal, FindsJobIn, FindsJobOf};

use crate::answer::spec_with;
use crate::{BUDGET, NoJob, Refusal, is_object, spec_of};
use gw_assemble::assemble;
use gw_object::{Fault, codes};
use gw_scan::Spec;
use gw_text::{Model, parse};
use std::alloc::Global;

/// Why there is no job, by the fault of a text or of its assembly.
fn no_job(fault: Fault) -> NoJob
    ensures { OnRefusal result (λ said. (said ≡ fault) × IsPrinted said) }
{
    if fault.code == codes::MEMORY {
        NoJob::OutOfMemory
    } else {
        NoJob::Refused(Refusal(fault))
    }
}

/// The job of what a text was read as; or why there is none.
#[tactic(auto, using(crate::proofs::Finding::found_of_making))]
fn spec_in(alloc: Global, model: &Model, seed: u32, count: u64) -> Result<Spec, NoJob>
    ensures found { FindsJobIn seed count model.now.statements.items result }
    ensures budget { IfOk result (λ spec. spec.budget ≡ BUDGET) }
{
    match assemble(alloc, model) {
        Ok(verified) => spec_with(alloc, verified, seed, count),
        Err(fault) => Err(no_job(fault)),
    }
}

/// The job of a model text; or why there is none.
#[tactic(auto, using(crate::proofs::Finding::refused_text))]
fn spec_of_text(alloc: Global, text: &[u8], seed: u32, count: u64) -> Result<Spec, NoJob>
    requires { model.is_object text.now ≡ false }
    ensures found { FindsJobOf seed count text.now result }
    ensures budget { IfOk result (λ spec. spec.budget ≡ BUDGET) }
{
    match parse(alloc, text) {
        Ok(model) => {
            let spec = spec_in(alloc, &model, seed, count);
            drop(model);
            spec
        }
        Err(fault) => Err(no_job(fault)),
    }
}

/// The job of a model, a text or an object, with this one seed and this count, where 0 means the model's own, and the budget of a
/// run; or why there is none: the refusal of the text, of its assembly, of the object, of the seed or of the count, or want of
/// memory.
#[tactic(auto, using(crate::proofs::Finding::found_of_object))]
pub fn spec_of_model(alloc: Global, input: &[u8], seed: u32, count: u64) -> Result<Spec, NoJob>
    ensures found { FindsJobOf seed count input.now result }
    ensures budget { IfOk result (λ spec. spec.budget ≡ BUDGET) }
{
    if is_object(input) {
        spec_of(alloc, seed, count, input)
    } else {
        spec_of_text(alloc, input, seed, count)
    }
}
