//! The parameters that have to be set for an operand, and for an instruction (docs/plus-code.md).

ghost use Rattle.std.specs.Prelude.{◌≡◌, [], ◌∷◌};
ghost use Rattle.std.specs.Option.{option_copied};
ghost use Rattle.gw_rules.specs.Code as model;

use crate::evaluation::{as_operand, source_of};
use gw_object::{Instruction, Operand, Parts, Procedure};
use std::marker::Model;
use std::slice;

/// Parameters, by their numbers from 1 to 64.
#[derive(Drop)]
enum Parameters<'a> {
    /// One.
    One(u8),
    /// These.
    These(&'a [u8]),
}

/// The parameters that have to be set for something, by their numbers from 1 to 64.
#[derive(Drop)]
pub struct Asked<'a> {
    parameters: Parameters<'a>,
}

impl<'a> Model for Asked<'a> {
    ghost use Rattle.std.specs.Prelude.{ℕ, List};
    ghost use Rattle.gw_rules.specs.Asking.{numbers_of};

    ghost Value = { List ℕ };

    ghost view = { λ a. numbers_of a.parameters };
}

impl<'a> Asked<'a> {
    /// This one.
    fn one(parameter: u8) -> Asked<'a>
        ensures { result ≡ parameter ∷ [] }
    {
        let parameters = Parameters::One(parameter);
        Asked { parameters }
    }

    /// These.
    fn these(numbers: &'a [u8]) -> Asked<'a>
        ensures { result ≡ numbers.now }
    {
        let parameters = Parameters::These(numbers);
        Asked { parameters }
    }

    /// Their numbers, in order.
    pub fn as_slice(&self) -> &[u8]
        ensures { result.now ≡ self.now }
    {
        match &self.parameters {
            Parameters::One(number) => slice::from_ref(number),
            Parameters::These(numbers) => *numbers,
        }
    }
}

/// The procedure of this number, from 0, if it is there.
pub fn procedure_at(parts: &Parts, number: u16) -> Option<&Procedure>
    ensures { option_copied result ≡ model.procedure_at parts.now number }
{
    parts.procedures.as_slice().get(number as usize)
}

/// The parameters that a procedure needs; none where it isn't there.
fn needs_of(procedure: Option<&Procedure>) -> &[u8]
    ensures { result.now ≡ model.needs_of (option_copied procedure.entry) }
{
    match procedure {
        Some(procedure) => procedure.needs.as_slice(),
        None => &[],
    }
}

/// The parameters that have to be set for a source: the one that it reads, or those that the procedure that it calls
/// needs.
fn asked_by_source(parts: &Parts, source: Operand) -> Asked<'_>
    ensures { result ≡ model.asked_by_source parts.now source }
{
    match source {
        Operand::Parameter(number) => Asked::one(number),
        Operand::Procedure(procedure) => Asked::these(needs_of(procedure_at(parts, procedure))),
        _ => Asked::these(&[]),
    }
}

/// The parameters that have to be set for an operand, by their numbers: the one that its source reads
/// (`source_of`), or those that the procedure that its source calls needs (docs/plus-code.md). It takes no
/// memory.
pub fn parameters_asked(parts: &Parts, operand: Operand) -> Asked<'_>
    ensures { result ≡ model.parameters_asked parts.now operand }
{
    asked_by_source(parts, source_of(parts.entities.as_slice(), operand))
}

/// The parameters that have to be set for an instruction, by their numbers: those for the attribute that it reads, and those
/// that the procedure that it calls needs (docs/plus-code.md). It takes no memory.
pub fn asks_for(parts: &Parts, instruction: Instruction) -> Asked<'_>
    ensures { result ≡ model.asks_for parts.now instruction }
{
    match instruction {
        Instruction::Value(sna) => parameters_asked(parts, as_operand(sna)),
        Instruction::Call(procedure) => Asked::these(needs_of(procedure_at(parts, procedure))),
        _ => Asked::these(&[]),
    }
}
