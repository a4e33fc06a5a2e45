//! From the bytes of an object to a text and a status.

ghost use Rattle.std.specs.Prelude.{◌≡◌, OnOk, IfOk, Some};
ghost use Rattle.gw_step.specs.Job.{Alone, IsFinal};
ghost use Rattle.gw_object.specs.Grammar.{spelling};
ghost use Rattle.gw_answers.specs.Status.{end_status as ended_status, refusal_status};
ghost use Rattle.gw_answers.specs.Refusal.{refusal_line};
ghost use Rattle.gw_object.specs.Reading.{first_fault};
ghost use Rattle.gw_answers.specs.Answer.{verdict_of, job_made, job_of, object_of, accepted_line, Concludes, IsAnswer, IsCheck};
ghost use Rattle.gw_answers.specs.Assembly.{IsAssembly, IsPrinted, IsWorkOf};
ghost use Rattle.gw_answers.specs.Requests.{answers_to};
ghost use Rattle.gw_answers.specs.Finding.{FindsJob};

use crate::request::Request;
use crate::status::{ENDED, REFUSED};
use crate::{Acceptance, Refusal};
use gw_assemble::assemble;
use gw_object::{Fault, Memory, Object, codes};
use gw_object_bytes::{read, write};
use gw_report::report;
use gw_rules::Verified;
use gw_scan::{Sim, Spec, StartFault};
use gw_text::{Model, parse};
use gw_verify::verify;
use std::alloc::Global;

/// At most how many steps a run makes.
pub const BUDGET: u64 = 1_000_000_000;

/// A text to write, and the status to end with.
#[derive(Drop)]
pub struct Answer {
    pub text: Vec<u8>,
    pub status: u8,
}

/// Makes steps until a named end stands, in a job with this budget.
pub fn run_to_end(sim: &mut Sim) -> Result<(), Memory>
    requires { sim.old.job.budget ≡ BUDGET }
    ensures job { sim.new.job ≡ sim.old.job }
    ensures alone { Alone sim.new.job sim.new.state.steps sim.new.state }
    ensures over { OnOk result (IsFinal sim.new.state) }
{
    sim.run_slice(BUDGET as u32)?;
    Ok(())
}

/// The report of a job that has ended, and the status.
fn concluded(alloc: Global, sim: &Sim) -> Result<Answer, Memory>
    requires alone { Alone sim.now.job sim.now.state.steps sim.now.state }
    requires over { IsFinal sim.now.state }
    ensures { IfOk result (λ a. Concludes sim.now.job a.text.items a.status) }
{
    Ok(Answer {
        text: report(alloc, sim)?,
        status: ENDED,
    })
}

/// Runs a job to its end, and reports it.
fn run_and_report(alloc: Global, sim: &mut Sim) -> Result<Answer, Memory>
    requires budget { sim.old.job.budget ≡ BUDGET }
    ensures { IfOk result (λ a. Concludes sim.old.job a.text.items a.status) }
{
    run_to_end(sim)?;
    concluded(alloc, sim)
}

/// Runs a job to its end: the text that is to be written, and the status. `Err` where memory runs out.
pub fn answer_of_job(alloc: Global, spec: Spec) -> Result<Answer, Memory>
    requires { spec.budget ≡ BUDGET }
    ensures { IfOk result (λ a. Concludes spec a.text.items a.status) }
{
    match Sim::start(alloc, spec) {
        Ok(mut sim) => {
            let answer = run_and_report(alloc, &mut sim);
            drop(sim);
            answer
        }
        Err((spec, _)) => {
            drop(spec);
            Err(Memory)
        }
    }
}

/// The line of a refusal.
pub fn answer_refusal(alloc: Global, refusal: Refusal) -> Result<Answer, Memory>
    ensures { IfOk result (λ a. (a.text.items ≡ refusal_line refusal.0) × (a.status ≡ refusal_status)) }
{
    let line = format!(in alloc; "{refusal}\n")?;
    Ok(Answer {
        text: Vec::from_slice(alloc, line.as_bytes())?,
        status: REFUSED,
    })
}

/// Why an object has no job.
#[derive(Drop)]
pub enum NoJob {
    /// Something was refused.
    Refused(Refusal),
    /// Memory ran out.
    OutOfMemory,
}

/// Reads the object that the bytes spell.
fn object_in(alloc: Global, input: &[u8]) -> Result<Object, NoJob>
    ensures { FindsJob result (first_fault input.now) }
{
    match read(alloc, input) {
        Ok(object) => Ok(object),
        Err(fault) if fault.code == codes::MEMORY => Err(NoJob::OutOfMemory),
        Err(fault) => Err(NoJob::Refused(Refusal(fault))),
    }
}

/// Accepts an object, or refuses it.
fn verified_object(alloc: Global, object: Object) -> Result<Verified, NoJob>
    ensures { FindsJob result (verdict_of object) }
{
    match verify(alloc, object) {
        Ok(verified) => Ok(verified),
        Err((object, fault)) => {
            drop(object);
            if fault.code == codes::MEMORY {
                Err(NoJob::OutOfMemory)
            } else {
                Err(NoJob::Refused(Refusal(fault)))
            }
        }
    }
}

/// A job with this one seed and this count; 0 means the object's own.
pub(crate) fn spec_with(
    alloc: Global,
    verified: Verified,
    seed: u32,
    count: u64,
) -> Result<Spec, NoJob>
    ensures found { FindsJob result (job_made seed count verified) }
    ensures budget { IfOk result (λ spec. spec.budget ≡ BUDGET) }
{
    let given = [seed];
    let seeds: &[u32] = if seed == 0 { &[] } else { &given };
    match Spec::new(alloc, verified, seeds, count, BUDGET) {
        Ok(spec) => Ok(spec),
        Err((verified, StartFault::Memory)) => {
            drop(verified);
            Err(NoJob::OutOfMemory)
        }
        Err((verified, fault)) => {
            drop(verified);
            Err(NoJob::Refused(Refusal::from(fault)))
        }
    }
}

/// The job of the object that the bytes spell, with this one seed and this count; 0 means the object's own.
#[tactic(auto, unfolding(crate::specs::Answer::job_of))]
pub fn spec_of(alloc: Global, seed: u32, count: u64, input: &[u8]) -> Result<Spec, NoJob>
    ensures found { FindsJob result (job_of seed count input.now) }
    ensures budget { IfOk result (λ spec. spec.budget ≡ BUDGET) }
{
    let object = object_in(alloc, input)?;
    let verified = verified_object(alloc, object)?;
    spec_with(alloc, verified, seed, count)
}

/// The text that is to be written where these bytes are run with this seed and this count, and the status.
fn run_of(alloc: Global, seed: u32, count: u64, input: &[u8]) -> Result<Answer, Memory>
    ensures { IfOk result (λ a. IsAnswer seed count input.now a.text.items a.status) }
{
    match spec_of(alloc, seed, count, input) {
        Ok(spec) => answer_of_job(alloc, spec),
        Err(NoJob::Refused(refusal)) => answer_refusal(alloc, refusal),
        Err(NoJob::OutOfMemory) => Err(Memory),
    }
}

/// The accepted object that the bytes spell.
#[tactic(auto, unfolding(crate::specs::Answer::object_of))]
pub fn accepted_in(alloc: Global, input: &[u8]) -> Result<Verified, NoJob>
    ensures { FindsJob result (object_of input.now) }
{
    let object = object_in(alloc, input)?;
    verified_object(alloc, object)
}

/// The line of an accepted object, and the status.
pub fn answer_acceptance(alloc: Global, verified: &Verified) -> Result<Answer, Memory>
    ensures { IfOk result (λ a. (a.status ≡ ended_status) × (a.text.items ≡ accepted_line verified.now)) }
{
    let acceptance = Acceptance {
        blocks: verified.blocks(),
        procedures: verified.procedures(),
        weight: verified.heaviest(),
    };
    let line = format!(in alloc; "{acceptance}\n")?;
    Ok(Answer {
        text: Vec::from_slice(alloc, line.as_bytes())?,
        status: ENDED,
    })
}

/// The text that is to be written where these bytes are checked, and the status.
fn check_of(alloc: Global, input: &[u8]) -> Result<Answer, Memory>
    ensures { IfOk result (λ a. IsCheck input.now a.text.items a.status) }
{
    match accepted_in(alloc, input) {
        Ok(verified) => {
            let answer = answer_acceptance(alloc, &verified);
            drop(verified);
            answer
        }
        Err(NoJob::Refused(refusal)) => answer_refusal(alloc, refusal),
        Err(NoJob::OutOfMemory) => Err(Memory),
    }
}

/// The line of a refusal of a model text, or of its assembly; or that memory ran out.
fn refused_text(alloc: Global, fault: Fault) -> Result<Answer, Memory>
    ensures line { IfOk result (λ a. (a.status ≡ refusal_status) × (a.text.items ≡ refusal_line fault)) }
    ensures printed { OnOk result (IsPrinted fault) }
{
    match fault.code {
        codes::MEMORY => Err(Memory),
        _ => answer_refusal(alloc, Refusal(fault)),
    }
}

/// The spelling of an accepted object, and the status.
fn spelled(alloc: Global, verified: &Verified) -> Result<Answer, Memory>
    ensures { IfOk result (λ a. (a.status ≡ ended_status) × (a.text.items ≡ spelling verified.now)) }
{
    Ok(Answer {
        text: write(alloc, verified.object())?,
        status: ENDED,
    })
}

/// What the statements of a model text come to, and the status.
fn work_of(alloc: Global, model: &Model) -> Result<Answer, Memory>
    ensures { IfOk result (λ a. IsWorkOf model.now.statements.items a.text.items a.status) }
{
    match assemble(alloc, model) {
        Ok(verified) => {
            let answer = spelled(alloc, &verified);
            drop(verified);
            answer
        }
        Err(fault) => refused_text(alloc, fault),
    }
}

/// The text that is to be written where these bytes are assembled, and the status.
fn assembly_of(alloc: Global, input: &[u8]) -> Result<Answer, Memory>
    ensures { IfOk result (λ a. IsAssembly input.now a.text.items a.status) }
{
    match parse(alloc, input) {
        Ok(model) => {
            let answer = work_of(alloc, &model);
            drop(model);
            answer
        }
        Err(fault) => refused_text(alloc, fault),
    }
}

/// The text that is to be written for a request and these bytes, and the status.
pub fn answer_to(alloc: Global, request: Request, input: &[u8]) -> Result<Answer, Memory>
    ensures { IfOk result (λ a. answers_to request input.now a.text.items a.status) }
{
    match request {
        Request::Asm => assembly_of(alloc, input),
        Request::Check => check_of(alloc, input),
        Request::Run { seed, count } => run_of(alloc, seed, count, input),
    }
}
