//! Procedures, in bytes and against the rules of the object format.

ghost use Rattle.std.specs.Prelude.{◌↔◌, IsTrue};
ghost use Rattle.std.specs.List.{All};
ghost use Rattle.gw_object.specs.CodeGrammar.{InstructionFits, SnaFits, need, procedure, ProcedureFits, NeedsAscend};

use crate::CodeFormat;
use crate::instructions::*;
use gw_block_bytes::{is_parameter, read_parameter_above};
use gw_field_bytes::{
    Elements, Front, Reading, Receiver, Spelled, keys_ascend, put_listed, read_listed,
    read_ranged_u8,
};
use gw_fields::{Items, ReadError};
use gw_object::{
    Instruction, MOST_BACKS, MOST_INSTRUCTIONS, MOST_LOCALS, MOST_PARAMETERS, Procedure, Sna,
};
use std::alloc::Global;

/// The parameters that a procedure needs, ascending.
struct Needs;

impl Elements for Needs {
    type Item = u8;

    ghost reading = { need.read };

    fn read<'a>(alloc: Global, front: Front<Self>, _: usize, bytes: &'a [u8]) -> Reading<'a, Self> {
        read_parameter_above(alloc, front.last().copied(), bytes)
    }
}

impl Spelled<CodeFormat> for Procedure {
    ghost spelling = { procedure.spell };

    ghost reading = { procedure.read };

    #[tactic(auto, using(gw_field_bytes::proofs::Receiving::joining), unfolding(gw_object::specs::CodeGrammar::procedure))]
    fn put<R: Receiver>(&self, to: &mut R) -> Result<(), R::Refusal> {
        (self.arguments, self.locals).put(to)?;
        put_listed(to, self.needs.as_slice())?;
        put_listed(to, self.code.as_slice())
    }

    #[tactic(auto, unfolding(gw_object::specs::CodeGrammar::procedure))]
    fn read(alloc: Global, bytes: &[u8]) -> Result<(Procedure, &[u8]), ReadError> {
        let (arguments, rest) = u8::read(alloc, bytes)?;
        let (locals, rest) = read_ranged_u8(alloc, rest, arguments, MOST_LOCALS)?;
        let (needs, rest) = read_listed::<Needs>(alloc, rest, 0, MOST_PARAMETERS)?;
        let (code, rest) = read_listed::<Code>(alloc, rest, 0, MOST_INSTRUCTIONS)?;
        let procedure = Procedure {
            arguments,
            locals,
            needs: Items::from_vec(needs),
            code: Items::from_vec(code),
        };
        Ok((procedure, rest))
    }
}

/// Whether an attribute that code reads keeps its limits.
fn sna_fits(sna: Sna) -> bool
    ensures { IsTrue result ↔ SnaFits sna }
{
    match sna {
        Sna::Parameter(number) => is_parameter(number),
        Sna::Attribute(_) | Sna::OfEntity(_) => true,
    }
}

/// Whether an instruction keeps its limits; what the others name does by its type.
fn instruction_fits(instruction: Instruction) -> bool
    ensures { IsTrue result ↔ InstructionFits instruction }
{
    match instruction {
        Instruction::Value(sna) => sna_fits(sna),
        _ => true,
    }
}

/// Whether a procedure keeps its limits.
fn procedure_fits(procedure: &Procedure) -> bool
    ensures { IsTrue result ↔ ProcedureFits procedure.now }
{
    let needs = procedure.needs.as_slice();
    let code = procedure.code.as_slice();
    if procedure.arguments > procedure.locals || procedure.locals > MOST_LOCALS {
        return false;
    }
    if needs.len() > MOST_PARAMETERS || code.len() > MOST_INSTRUCTIONS {
        return false;
    }
    count_backs(code) <= MOST_BACKS
        && needs.iter().all(|number| is_parameter(*number))
        && code
            .iter()
            .all(|instruction| instruction_fits(*instruction))
}

/// Whether each procedure keeps its limits.
pub fn procedures_fit(procedures: &[Procedure]) -> bool
    ensures { IsTrue result ↔ All ProcedureFits procedures.now }
{
    procedures.iter().all(procedure_fits)
}

/// Whether the parameters that each procedure needs ascend.
pub fn procedures_ascend(procedures: &[Procedure]) -> bool
    ensures { IsTrue result ↔ All NeedsAscend procedures.now }
{
    procedures
        .iter()
        .all(|procedure| keys_ascend(procedure.needs.as_slice()))
}
