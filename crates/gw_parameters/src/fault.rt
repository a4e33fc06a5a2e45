//! Why a number can't be put into a text.

ghost use Rattle.std.specs.Prelude.{◌≡◌, ◌++◌, OnOk, IfOk};
ghost use Rattle.gw_parameters.specs.Refusals as model;

use gw_answers::codes::PARAMETER;
use gw_answers::refusal_with_reason;
use gw_object::Memory;
use gw_writing::put_number;
use std::alloc::Global;

/// Why a parameter is refused.
#[derive(Clone, Copy, PartialEq, Eq)]
pub enum ParameterFault {
    /// The word isn't a name, `=`, and whole numbers with commas between them.
    Form,
    /// There are more than 64 points.
    Points,
    /// The name is there twice, or it is a third one.
    Names,
    /// No line of the text is the name's.
    Unknown,
    /// Two lines are; this is the number of the second, from 1.
    Doubled(usize),
    /// What stands on the line of this number, from 1, isn't a whole number.
    NotPlain(usize),
    /// No figure of the model has the name.
    Figure,
}

/// Why what is asked for isn't there: points, their texts, or an experiment.
#[derive(Drop)]
pub enum NoAnswer {
    /// It is refused; this is the refusal as it is printed.
    Refused(Vec<u8>),
    /// Memory ran out.
    Memory,
}

/// Why a parameter is refused, in words.
fn reason_of(fault: ParameterFault) -> &'static str
    ensures { result.now ≡ model.reason_of fault }
{
    match fault {
        ParameterFault::Form => "a parameter is a name, =, and whole numbers with commas between",
        ParameterFault::Points => "there are more than 64 points",
        ParameterFault::Names => "there are at most two names, and each stands once",
        ParameterFault::Unknown => {
            "no line of the model is NAME STORAGE, NAME EQU or INITIAL X$NAME, of this name"
        }
        ParameterFault::Doubled(_) => "more than one line of the model gives this name a number",
        ParameterFault::NotPlain(_) => "what stands on its line isn't a whole number",
        ParameterFault::Figure => "no figure of the model has this name",
    }
}

/// The line at fault, if there is one.
fn line_of(fault: ParameterFault) -> Option<usize>
    ensures { result ≡ model.line_of fault }
{
    match fault {
        ParameterFault::Doubled(line) | ParameterFault::NotPlain(line) => Some(line),
        _ => None,
    }
}

/// The line at fault, behind what is told of it.
fn put_line(out: &mut Vec<u8>, line: Option<usize>) -> Result<(), Memory>
    ensures { OnOk result (out.new.items ≡ out.old.items ++ model.place_of line) }
{
    match line {
        Some(line) => put_number(out, " line ", line),
        None => Ok(()),
    }
}

/// What is refused: a name, and the line at fault, if there is one.
fn put_subject(out: &mut Vec<u8>, name: &[u8], fault: ParameterFault) -> Result<(), Memory>
    ensures { OnOk result (out.new.items ≡ out.old.items ++ model.subject name.now fault) }
{
    out.extend_from_slice(name)?;
    put_line(out, line_of(fault))
}

/// The refusal of a name, as it is printed: its code and name, the name of the parameter, the line at fault if there is one,
/// and why.
#[tactic(auto, unfolding(crate::specs::Refusals::refusal_text))]
pub fn refusal_of(alloc: Global, name: &[u8], fault: ParameterFault) -> Result<Vec<u8>, Memory>
    ensures { IfOk result (λ text. text.items ≡ model.refusal_text name.now fault) }
{
    let mut subject = Vec::new(alloc);
    put_subject(&mut subject, name, fault)?;
    refusal_with_reason(alloc, PARAMETER, &subject, reason_of(fault).as_bytes())
}

/// The same, as the reason why there is no point; or want of memory.
pub(crate) fn no_point(alloc: Global, name: &[u8], fault: ParameterFault) -> NoAnswer
    ensures { model.Tells name.now fault result }
{
    match refusal_of(alloc, name, fault) {
        Ok(text) => NoAnswer::Refused(text),
        Err(Memory) => NoAnswer::Memory,
    }
}
