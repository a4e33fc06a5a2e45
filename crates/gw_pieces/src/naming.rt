//! What the names of PROCEDUREs and EQUs stand for, once their procedures have numbers.

ghost use Rattle.std.specs.Prelude.{◌≡◌, IfOk, min, length, string_bytes};
ghost use Rattle.gw_names.specs.Places.{Sets};
ghost use Rattle.gw_pieces.specs.Naming as model;

use crate::origins::Origin;
use gw_compile::{Callee, Equ};
use gw_names::{Known, is_equ, set, set_label, value_of_name};
use gw_text::{Body, Model, Procedure, Statement};
use indexmap::IndexMap;
use std::alloc::{AllocError, Global};

/// PROCEDUREs and EQUs.
#[derive(Drop)]
pub(crate) struct Meanings {
    /// PROCEDUREs that may be called.
    pub(crate) procedures: IndexMap<String, Callee>,
    /// EQUs.
    pub(crate) equs: IndexMap<String, Equ>,
}

/// The number of the procedure at a place.
fn number_at(place: usize) -> u16
    ensures { result ≡ model.number_at place }
{
    u16::try_from(place).unwrap_or(u16::MAX)
}

/// How many arguments there are, as 8 bits hold it.
fn arguments_of(procedure: &Procedure) -> u8
    ensures { result ≡ min (length procedure.now.arguments.items) 255 }
{
    u8::try_from(procedure.arguments.len()).unwrap_or(u8::MAX)
}

/// What an EQU stands for that becomes the procedure at this place.
fn put_equ(
    equs: &mut IndexMap<String, Equ>,
    statement: &Statement,
    place: usize,
) -> Result<(), AllocError>
    ensures { Sets result equs.old equs.new (model.own_equ statement.now place) }
{
    if is_equ(statement.word) {
        set_label(equs, &statement.label, Equ::Procedure(number_at(place)))
    } else {
        Ok(())
    }
}

/// What a PROCEDURE stands for that becomes the procedure at this place.
fn put_callee(
    procedures: &mut IndexMap<String, Callee>,
    procedure: &Procedure,
    place: usize,
) -> Result<(), AllocError>
    ensures { Sets result procedures.old procedures.new (model.own_callee procedure.now place) }
{
    let number = number_at(place);
    let arguments = arguments_of(procedure);
    set(procedures, &procedure.name, Callee { number, arguments })
}

/// What a statement stands for, PROCEDURE or EQU, that becomes the procedure at this place.
fn put_meaning(
    meanings: &mut Meanings,
    statement: &Statement,
    place: usize,
) -> Result<(), AllocError>
    ensures procedures { model.SetsCallees result meanings.old meanings.new
        (model.callee_at statement.now place) }
    ensures equs { model.SetsEqus result meanings.old meanings.new
        (model.equ_by_statement statement.now place) }
{
    match &statement.body {
        Body::Procedure(procedure) => put_callee(&mut meanings.procedures, procedure, place),
        Body::Nothing => put_equ(&mut meanings.equs, statement, place),
        Body::Points(_) => Ok(()),
    }
}

/// The same of the statement of an origin.
fn put_meaning_of(
    meanings: &mut Meanings,
    text: &Model,
    origin: Origin,
    place: usize,
) -> Result<(), AllocError>
    ensures procedures { model.SetsCallees result meanings.old meanings.new
        (model.callee_in text.now origin place) }
    ensures equs { model.SetsEqus result meanings.old meanings.new
        (model.equ_in text.now origin place) }
{
    match text.statements.get(origin.statement) {
        Some(statement) => put_meaning(meanings, statement, place),
        None => Ok(()),
    }
}

/// The PROCEDUREs and EQUs of these origins, by their places.
fn put_meanings(meanings: &mut Meanings, text: &Model, order: &[Origin]) -> Result<(), AllocError>
    ensures procedures { model.SetsCallees result meanings.old meanings.new
        (model.callees_in text.now order.now) }
    ensures equs { model.SetsEqus result meanings.old meanings.new
        (model.equs_in text.now order.now) }
{
    for i in 0..order.len() {
        put_meaning_of(meanings, text, order[i], i)?;
    }
    Ok(())
}

/// The number that the name of a statement is, if it is one.
fn put_number_of(
    equs: &mut IndexMap<String, Equ>,
    known: &Known,
    name: &String,
) -> Result<(), AllocError>
    ensures { Sets result equs.old equs.new (model.known_number known.now (string_bytes name.now)) }
{
    match value_of_name(&known.equ_numbers, name) {
        Some(number) => set(equs, name, Equ::Number(number)),
        None => Ok(()),
    }
}

/// The EQU that a statement is, if it is one that is a number.
fn put_number(
    equs: &mut IndexMap<String, Equ>,
    known: &Known,
    statement: &Statement,
    place: usize,
) -> Result<(), AllocError>
    ensures { Sets result equs.old equs.new (model.known_equ known.now statement.now place) }
{
    match &statement.label {
        Some(name) => {
            if is_equ(statement.word) {
                put_number_of(equs, known, name)
            } else {
                Ok(())
            }
        }
        None => Ok(()),
    }
}

/// The EQUs that are numbers.
fn put_numbers(
    equs: &mut IndexMap<String, Equ>,
    known: &Known,
    statements: &[Statement],
) -> Result<(), AllocError>
    ensures { Sets result equs.old equs.new (model.known_equs known.now statements.now) }
{
    for i in 0..statements.len() {
        put_number(equs, known, &statements[i], i)?;
    }
    Ok(())
}

/// What the names of PROCEDUREs and EQUs stand for, where the procedures have these origins, in order.
pub(crate) fn meanings_of(
    alloc: Global,
    text: &Model,
    known: &Known,
    order: &[Origin],
) -> Result<Meanings, AllocError>
    ensures procedures { IfOk result (model.MeansCallees text.now order.now) }
    ensures equs { IfOk result (model.MeansEqus known.now text.now order.now) }
{
    let mut meanings = Meanings {
        procedures: IndexMap::new(alloc),
        equs: IndexMap::new(alloc),
    };
    match put_meanings(&mut meanings, text, order) {
        Ok(()) => {}
        Err(error) => {
            drop(meanings);
            return Err(error);
        }
    }
    match put_numbers(&mut meanings.equs, known, text.statements.as_slice()) {
        Ok(()) => Ok(meanings),
        Err(error) => {
            drop(meanings);
            Err(error)
        }
    }
}
