//! A model text of GPSS World in the language of this project.

ghost use Rattle.std.specs.Prelude.{IfOk};
ghost use Rattle.gw_planner.specs.Answers.{IsConversion};

use gw_answers::status::ENDED;
use gw_answers::{Answer, Refusal};
use gw_convert::{Told, convert};
use gw_object::{Fault, Memory, Place};
use std::alloc::Global;

/// The refusal that is told: at the line of the text, where it has one.
fn refusal_of(told: &Told) -> Refusal {
    if told.line == 0 {
        return Refusal(told.fault);
    }
    Refusal(Fault {
        code: told.fault.code,
        place: Place::Line(told.line),
    })
}

/// What is still refused, each in a comment line.
fn lines_on(alloc: Global, faults: &[Told]) -> Result<Vec<u8>, Memory> {
    let mut lines = Vec::new(alloc);
    for told in faults {
        let refusal = refusal_of(told);
        let line = format!(in alloc; "; still {refusal}: planner explain tells how to mend it\n")?;
        lines.extend_from_slice(line.as_bytes())?;
    }
    Ok(lines)
}

/// A model text of GPSS World in the language of this project: behind a head a piece for each of its lines, in order, and at the end
/// what of it is still refused. `Err` where memory runs out.
#[tactic(auto, using(crate::proofs::Conversions::with_lines))]
pub(crate) fn conversion(alloc: Global, input: &[u8]) -> Result<Answer, Memory>
    ensures { IfOk result (λ a. IsConversion input.now a.text.items a.status) }
{
    let converted = convert(alloc, input)?;
    let told = lines_on(alloc, &converted.faults)?;
    let mut text = converted.text;
    text.extend_from_slice(&told)?;
    Ok(Answer {
        text,
        status: ENDED,
    })
}
