//! The parameters that a procedure needs.

ghost use Rattle.std.specs.Prelude.{◌≡◌, OnOk, IfOk, slice_get};
ghost use Rattle.std.specs.Option.{option_copied};
ghost use Rattle.gw_rules.specs.Code as flow;
ghost use Rattle.gw_compile.specs.Needs as model;
ghost use Rattle.gw_compile.specs.Needs.{AddsNeeds, asks};

use crate::numbering::Numbering;
use gw_object::{Instruction, Operand, Procedure, Sna};
use std::alloc::{AllocError, Global};

/// What is evaluated for an attribute in the end.
fn source_in<N: Numbering>(names: &N, sna: Sna) -> Operand
    ensures { result ≡ model.source_in (N.numbers names.now) sna }
{
    match sna {
        Sna::Parameter(number) => Operand::Parameter(number),
        Sna::Attribute(attribute) => Operand::Attribute(attribute),
        Sna::OfEntity(of) => names.source(of),
    }
}

/// The parameters that a procedure needs; none where it isn't compiled yet.
fn needs_of(procedures: &[Procedure], number: u16) -> &[u8]
    ensures { result.now ≡ flow.needs_of (slice_get procedures.now number) }
{
    match procedures.get(number as usize) {
        Some(procedure) => procedure.needs.as_slice(),
        None => &[],
    }
}

/// Puts a number among ascending ones.
fn put_number(needs: &mut Vec<u8>, number: u8) -> Result<(), AllocError>
    ensures { OnOk result (needs.new.items ≡ model.with_number number needs.old.items) }
{
    for i in 0..needs.len() {
        if number == needs[i] {
            return Ok(());
        }
        if number < needs[i] {
            return needs.insert(i, number).map_err(|_| AllocError);
        }
    }
    match needs.push(number) {
        Ok(()) => Ok(()),
        Err(_) => Err(AllocError),
    }
}

/// Puts numbers among ascending ones.
fn put_numbers(needs: &mut Vec<u8>, numbers: &[u8]) -> Result<(), AllocError>
    ensures { AddsNeeds result needs.old needs.new numbers.now }
{
    for i in 0..numbers.len() {
        put_number(needs, numbers[i])?;
    }
    Ok(())
}

/// Puts the parameters for which a source asks among ascending ones.
fn put_asked_by(
    needs: &mut Vec<u8>,
    procedures: &[Procedure],
    source: Operand,
) -> Result<(), AllocError>
    ensures { AddsNeeds result needs.old needs.new (model.asked_by procedures.now source) }
{
    match source {
        Operand::Parameter(number) => put_number(needs, number),
        Operand::Procedure(number) => put_numbers(needs, needs_of(procedures, number)),
        _ => Ok(()),
    }
}

/// Puts the parameters for which an instruction asks among ascending ones.
fn put_asked<N: Numbering>(
    needs: &mut Vec<u8>,
    names: &N,
    procedures: &[Procedure],
    instruction: Instruction,
) -> Result<(), AllocError>
    ensures { AddsNeeds result needs.old needs.new
        (asks (N.numbers names.now) procedures.now instruction) }
{
    match instruction {
        Instruction::Value(sna) => put_asked_by(needs, procedures, source_in(names, sna)),
        Instruction::Call(number) => put_numbers(needs, needs_of(procedures, number)),
        _ => Ok(()),
    }
}

/// The parameters for which code asks, ascending.
pub(crate) fn needs_in<N: Numbering>(
    alloc: Global,
    names: &N,
    procedures: &[Procedure],
    code: &[Instruction],
) -> Result<Vec<u8>, AllocError>
    ensures { IfOk result (model.AreNeeds (N.numbers names.now) procedures.now code.now) }
{
    let mut needs = Vec::new(alloc);
    for i in 0..code.len() {
        put_asked(&mut needs, names, procedures, code[i])?;
    }
    Ok(needs)
}
