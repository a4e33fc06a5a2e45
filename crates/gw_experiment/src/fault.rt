//! Why a model's comment lines ask for no experiment.

ghost use Rattle.std.specs.Prelude.{◌≡◌, IfOk};
ghost use Rattle.gw_experiment.specs.Refusals as model;

use gw_answers::codes::EXPERIMENT;
use gw_answers::refusal_with_reason;
use gw_object::Memory;
use gw_parameters::NoAnswer;
use gw_writing::put_number;
use std::alloc::Global;

/// Why a line is refused.
#[derive(Clone, Copy, PartialEq, Eq)]
pub enum ExperimentFault {
    /// Behind `*!` stands none of `vary`, `runs`, `count` and `from`.
    Word,
    /// `vary` has no name and numbers that rise, each within 64 bits.
    Numbers,
    /// There is a third `vary`.
    Names,
    /// `runs` isn't a number from 1 to 512.
    Runs,
    /// `count` or `from` isn't a number below 2^64.
    Number,
    /// A line says again what another says.
    Twice,
    /// No line says how many runs there are.
    None,
}

/// Why a line is refused, in words.
fn reason_of(fault: ExperimentFault) -> &'static str
    ensures { result.now ≡ model.reason_of fault }
{
    match fault {
        ExperimentFault::Word => "behind *! stands vary, runs, count or from",
        ExperimentFault::Numbers =>
            "vary has a name and whole numbers behind it, each greater than the one before",
        ExperimentFault::Names => "at most two lines are *! vary",
        ExperimentFault::Runs => "runs has one number, from 1 to 512",
        ExperimentFault::Number => "count and from have one number each, below 2^64",
        ExperimentFault::Twice => "another line says this too",
        ExperimentFault::None => "no line is *! runs, with how many runs each point has",
    }
}

/// The refusal of a line by its number, from 1, as it is printed: its code and name, the number, and why.
#[tactic(auto, unfolding(crate::specs::Refusals::refusal_text))]
pub fn refusal_of(alloc: Global, line: usize, fault: ExperimentFault) -> Result<Vec<u8>, Memory>
    ensures { IfOk result (λ text. text.items ≡ model.refusal_text line fault) }
{
    let mut subject = Vec::new(alloc);
    put_number(&mut subject, "line ", line)?;
    refusal_with_reason(alloc, EXPERIMENT, &subject, reason_of(fault).as_bytes())
}

/// The same, as the reason why there is no experiment; or want of memory.
pub(crate) fn no_experiment(alloc: Global, line: usize, fault: ExperimentFault) -> NoAnswer
    ensures { model.Tells line fault result }
{
    match refusal_of(alloc, line, fault) {
        Ok(text) => NoAnswer::Refused(text),
        Err(Memory) => NoAnswer::Memory,
    }
}
