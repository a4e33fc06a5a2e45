//! The refusal of what a command is asked for, with its reason.

ghost use Rattle.std.specs.Prelude.{◌≡◌, IfOk};
ghost use Rattle.gw_answers.specs.Reasons as model;
ghost use Rattle.gw_answers.specs.Refusal.{refusal_text};

use crate::refusal::Refusal;
use crate::service::without_place;
use gw_object::Memory;
use gw_writing::put;
use std::alloc::Global;

/// A refusal, as it is printed.
fn text_of(alloc: Global, refusal: Refusal) -> Result<Vec<u8>, Memory>
    ensures { IfOk result (λ text. text.items ≡ refusal_text refusal.0) }
{
    let text = format!(in alloc; "{refusal}")?;
    Vec::from_slice(alloc, text.as_bytes())
}

/// A code and its name, what is refused, and why, on a line of its own: as `refused 83 Parameter at NURSES`, and `wrong: ` and the
/// reason below.
#[tactic(auto, unfolding(crate::specs::Reasons::refusal_with_reason))]
pub fn refusal_with_reason(
    alloc: Global,
    code: u16,
    subject: &[u8],
    reason: &[u8],
) -> Result<Vec<u8>, Memory>
    ensures { IfOk result (λ text. text.items ≡ model.refusal_with_reason code subject.now reason.now) }
{
    let mut text = text_of(alloc, without_place(code))?;
    put(&mut text, " at ")?;
    text.extend_from_slice(subject)?;
    put(&mut text, "\nwrong: ")?;
    text.extend_from_slice(reason)?;
    put(&mut text, "\n")?;
    Ok(text)
}
