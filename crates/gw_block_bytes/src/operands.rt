//! Operands, in bytes and against the rules of the object format.

ghost use Rattle.std.specs.Prelude.{◌≡◌, ◌↔◌, IsTrue};
ghost use Rattle.gw_object.specs.BlockGrammar.{parameter_number, parameter_above, stream_number, numbered_field, operand, OperandFits, spread, SpreadFits, units};
ghost use Rattle.gw_fields.specs.Fields.{optional};
ghost use Rattle.gw_fields.specs.Answers.{Gives};

use crate::BlockFormat;
use gw_field_bytes::{Receiver, Spelled, put_behind, read_ranged_u8};
use gw_fields::codes::{NOT_CANONICAL, TAG};
use gw_fields::{ReadError, fault};
use gw_object::{Attribute, MOST_PARAMETERS, MOST_STREAMS, Numbered, Operand, Spread, Units};
use std::alloc::Global;

/// Whether this is the number of a parameter.
pub fn is_parameter(number: u8) -> bool
    ensures { IsTrue result ↔ parameter_number.Fits number }
{
    1 <= number && number <= MOST_PARAMETERS as u8
}

/// Whether this is the number of a stream.
fn is_stream(number: u8) -> bool
    ensures { IsTrue result ↔ stream_number.Fits number }
{
    1 <= number && number <= MOST_STREAMS as u8
}

/// A parameter's number.
pub fn read_parameter_number(alloc: Global, bytes: &[u8]) -> Result<(u8, &[u8]), ReadError>
    ensures { Gives (λ x. (x.0, x.1.now)) result (parameter_number.read bytes.now) }
{
    read_ranged_u8(alloc, bytes, 1, MOST_PARAMETERS as u8)
}

/// A parameter's number that is above the one before it, if there is one.
pub fn read_parameter_above(
    alloc: Global,
    before: Option<u8>,
    bytes: &[u8],
) -> Result<(u8, &[u8]), ReadError>
    ensures { Gives (λ x. (x.0, x.1.now)) result ((parameter_above before).read bytes.now) }
{
    let (number, rest) = read_parameter_number(alloc, bytes)?;
    if before.is_some_and(|before| number <= before) {
        return Err(fault(NOT_CANONICAL, bytes));
    }
    Ok((number, rest))
}

/// A parameter's number, or none.
pub fn read_parameter_if_any(alloc: Global, bytes: &[u8]) -> Result<(Option<u8>, &[u8]), ReadError>
    ensures { Gives (λ x. (x.0, x.1.now)) result ((optional parameter_number).read bytes.now) }
{
    let (flag, rest) = u8::read(alloc, bytes)?;
    match flag {
        0 => Ok((None, rest)),
        1 => {
            let (number, rest) = read_parameter_number(alloc, rest)?;
            Ok((Some(number), rest))
        }
        _ => Err(fault(TAG, bytes)),
    }
}

impl Spelled<BlockFormat> for Numbered {
    ghost spelling = { numbered_field.spell };

    ghost reading = { numbered_field.read };

    fn put<R: Receiver>(&self, to: &mut R) -> Result<(), R::Refusal> {
        (self.attribute, self.number).put(to)
    }

    fn read(alloc: Global, bytes: &[u8]) -> Result<(Numbered, &[u8]), ReadError> {
        let ((attribute, number), rest) = Spelled::read(alloc, bytes)?;
        Ok((Numbered { attribute, number }, rest))
    }
}

impl Spelled<BlockFormat> for Operand {
    ghost spelling = { operand.spell };

    ghost reading = { operand.read };

    fn put<R: Receiver>(&self, to: &mut R) -> Result<(), R::Refusal> {
        match self {
            Operand::Constant(number) => put_behind(to, 0, number),
            Operand::Parameter(number) => put_behind(to, 1, number),
            Operand::Attribute(attribute) => put_behind(to, 2, attribute),
            Operand::OfEntity(numbered) => put_behind(to, 3, numbered),
            Operand::Random(stream) => put_behind(to, 4, stream),
            Operand::Procedure(procedure) => put_behind(to, 5, procedure),
        }
    }

    #[tactic(auto, unfolding(gw_object::specs::BlockGrammar::operand_read))]
    fn read(alloc: Global, bytes: &[u8]) -> Result<(Operand, &[u8]), ReadError> {
        let (tag, rest) = u8::read(alloc, bytes)?;
        match tag {
            0 => {
                let (number, rest) = i64::read(alloc, rest)?;
                Ok((Operand::Constant(number), rest))
            }
            1 => {
                let (number, rest) = read_parameter_number(alloc, rest)?;
                Ok((Operand::Parameter(number), rest))
            }
            2 => {
                let (attribute, rest) = Attribute::read(alloc, rest)?;
                Ok((Operand::Attribute(attribute), rest))
            }
            3 => {
                let (numbered, rest) = Numbered::read(alloc, rest)?;
                Ok((Operand::OfEntity(numbered), rest))
            }
            4 => {
                let (stream, rest) = read_ranged_u8(alloc, rest, 1, MOST_STREAMS as u8)?;
                Ok((Operand::Random(stream), rest))
            }
            5 => {
                let (procedure, rest) = u16::read(alloc, rest)?;
                Ok((Operand::Procedure(procedure), rest))
            }
            _ => Err(fault(TAG, bytes)),
        }
    }
}

/// Whether an operand keeps its limits.
pub fn operand_fits(operand: Operand) -> bool
    ensures { IsTrue result ↔ OperandFits operand }
{
    match operand {
        Operand::Constant(_)
        | Operand::Attribute(_)
        | Operand::OfEntity(_)
        | Operand::Procedure(_) => true,
        Operand::Parameter(number) => is_parameter(number),
        Operand::Random(stream) => is_stream(stream),
    }
}

impl Spelled<BlockFormat> for Spread {
    ghost spelling = { spread.spell };

    ghost reading = { spread.read };

    fn put<R: Receiver>(&self, to: &mut R) -> Result<(), R::Refusal> {
        (self.mean, self.half).put(to)
    }

    fn read(alloc: Global, bytes: &[u8]) -> Result<(Spread, &[u8]), ReadError> {
        let ((mean, half), rest) = Spelled::read(alloc, bytes)?;
        Ok((Spread { mean, half }, rest))
    }
}

impl Spelled<BlockFormat> for Units {
    ghost spelling = { units.spell };

    ghost reading = { units.read };

    fn put<R: Receiver>(&self, to: &mut R) -> Result<(), R::Refusal> {
        (self.entity, self.number).put(to)
    }

    fn read(alloc: Global, bytes: &[u8]) -> Result<(Units, &[u8]), ReadError> {
        let ((entity, number), rest) = Spelled::read(alloc, bytes)?;
        Ok((Units { entity, number }, rest))
    }
}

/// Whether the operands of a time keep their limits.
pub fn spread_fits(spread: Spread) -> bool
    ensures { IsTrue result ↔ SpreadFits spread }
{
    operand_fits(spread.mean) && operand_fits(spread.half)
}
