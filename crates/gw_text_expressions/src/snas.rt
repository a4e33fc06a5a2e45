//! System numerical attributes (GPSS World Reference Manual, chapter 3).

ghost use Rattle.std.specs.Prelude.{◌≡◌, ◌++◌, ◌&&◌, nat_lt, length, IfErr};
ghost use Rattle.std.specs.List.{list_all};
ghost use Rattle.std.specs.Char.{is_ascii_digit};
ghost use Rattle.gw_text_tokens.specs.declared.faults.Refusal.TheVariants as refusals;
ghost use Rattle.gw_text_tokens.specs.declared.faults.Stop.TheVariants.{Refused};
ghost use Rattle.gw_text_expressions.specs.Stops.{StopsAttribute};

use crate::model::{BlockName, BlockValue, EntityValue, Parameter, Sna};
use gw_text_tokens::faults::{Refusal, Stop};
use gw_text_tokens::is_spelled;
use gw_text_tokens::names::numeral;
use gw_text_tokens::tokens::value_of;
use std::alloc::Global;

/// What stands before the number of an attribute, or before its `$`.
#[derive(Clone, Copy)]
pub enum Class {
    Entity(EntityValue),
    Block(BlockValue),
    Parameter,
    Random,
}

const CLASSES: [(&[u8], Class); 14] = [
    (b"F", Class::Entity(EntityValue::Facility)),
    (b"S", Class::Entity(EntityValue::StorageContent)),
    (b"R", Class::Entity(EntityValue::StorageRoom)),
    (b"Q", Class::Entity(EntityValue::Queue)),
    (b"X", Class::Entity(EntityValue::Savevalue)),
    (b"LS", Class::Entity(EntityValue::Switch)),
    (b"CH", Class::Entity(EntityValue::Chain)),
    (b"V", Class::Entity(EntityValue::Variable)),
    (b"BV", Class::Entity(EntityValue::BVariable)),
    (b"FN", Class::Entity(EntityValue::Function)),
    (b"N", Class::Block(BlockValue::Entries)),
    (b"W", Class::Block(BlockValue::Waiting)),
    (b"P", Class::Parameter),
    (b"RN", Class::Random),
];

/// The class of this spelling.
pub fn class_of(spelling: &[u8]) -> Option<Class> {
    for entry in &CLASSES {
        if is_spelled(spelling, entry.0) {
            return Some(entry.1);
        }
    }
    None
}

/// The attribute that a name is, such as `C1`, `Q1` or `RN1`; 72 Operand where its number is out of range, 76 Limit where it
/// is past 63 bits.
pub fn sna_of(alloc: Global, name: &[u8]) -> Result<Option<Sna>, Stop>
    ensures { IfErr result StopsAttribute }
{
    if let Some(sna) = sna_of_system(name) {
        return Ok(Some(sna));
    }
    let (letters, digits) = split_letters(name);
    match class_of(letters) {
        Some(class) if is_number(digits) => {
            match sna_by_number(alloc, class, value_of(digits)) {
                Ok(sna) => Ok(Some(sna)),
                Err(stop) => Err(stop),
            }
        }
        _ => Ok(None),
    }
}

/// The attribute of the clock, the active transaction or the run that a name is.
fn sna_of_system(name: &[u8]) -> Option<Sna> {
    if is_spelled(name, b"C1") {
        Some(Sna::Clock)
    } else if is_spelled(name, b"AC1") {
        Some(Sna::AbsoluteClock)
    } else if is_spelled(name, b"PR") {
        Some(Sna::Priority)
    } else if is_spelled(name, b"M1") {
        Some(Sna::TransitTime)
    } else if is_spelled(name, b"XN1") {
        Some(Sna::TransactionNumber)
    } else if is_spelled(name, b"TG1") {
        Some(Sna::TerminationCount)
    } else {
        None
    }
}

/// The attribute of a class and a number.
fn sna_by_number(alloc: Global, class: Class, number: u64) -> Result<Sna, Stop>
    ensures { IfErr result StopsAttribute }
{
    match class {
        Class::Entity(value) => match numeral(alloc, number) {
            Ok(name) => Ok(Sna::OfEntity(value, name)),
            Err(stop) => Err(stop),
        },
        Class::Block(value) if number <= 65535 => {
            Ok(Sna::OfBlock(value, BlockName::Number(number as u16)))
        }
        Class::Parameter if 1 <= number && number <= 64 => {
            Ok(Sna::Parameter(Parameter::Number(number as u8)))
        }
        Class::Random if 1 <= number && number <= 16 => Ok(Sna::Random(number as u8)),
        _ => Err(Stop::Refused(Refusal::Operand)),
    }
}

/// The attribute of a class and a name behind its `$`; 75 LeftOut where GPSS World has another class.
pub fn sna_by_name(class: Option<Class>, name: String) -> Result<Sna, Stop>
    ensures { IfErr result (λ stop. stop ≡ Refused refusals.LeftOut) }
{
    match class {
        Some(Class::Entity(value)) => Ok(Sna::OfEntity(value, name)),
        Some(Class::Block(value)) => Ok(Sna::OfBlock(value, BlockName::Label(name))),
        Some(Class::Parameter) => Ok(Sna::Parameter(Parameter::Name(name))),
        Some(Class::Random) | None => Err(Stop::Refused(Refusal::LeftOut)),
    }
}

/// The letters at the front, and what follows them.
pub fn split_letters(name: &[u8]) -> (&[u8], &[u8])
    ensures { result.0.now ++ result.1.now ≡ name.now }
{
    for (i, byte) in name.iter().enumerate() {
        if !byte.is_ascii_alphabetic() {
            return name.split_at(i);
        }
    }
    (name, &[])
}

/// Whether it is digits alone, one or more.
pub fn is_number(bytes: &[u8]) -> bool
    ensures { result ≡ (nat_lt 0 (length bytes.now) && list_all is_ascii_digit bytes.now) }
{
    !bytes.is_empty() && are_digits(bytes)
}

fn are_digits(bytes: &[u8]) -> bool
    ensures { result ≡ list_all is_ascii_digit bytes.now }
{
    bytes.iter().all(|byte| byte.is_ascii_digit())
}
