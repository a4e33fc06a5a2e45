//! Names, as they are kept.

ghost use Rattle.std.specs.Prelude.{◌≡◌, ◌<◌, ◌≤◌, ◌^◌, ◌⊎◌, length, Err, IfOk, IfErr};
ghost use Rattle.std.specs.Fmt.{decimal};
ghost use Rattle.std.specs.String.{string_bytes};
ghost use Rattle.gw_text_tokens.specs.declared.faults.Refusal.TheVariants as refusals;
ghost use Rattle.gw_text_tokens.specs.declared.faults.Stop.TheVariants.{Refused, Memory};

use crate::faults::{Refusal, Stop};
use std::alloc::{AllocError, Global};

/// The most bytes of a name.
const LONGEST: usize = 32;

/// A name in upper case; 76 Limit where it is longer than 32 bytes.
pub fn name_of(alloc: Global, spelling: &[u8]) -> Result<String, Stop>
    ensures long { 32 < length spelling.now → result ≡ Err (Refused refusals.Limit) }
    ensures kept { IfErr result (λ stop. (stop ≡ Memory) ⊎ (32 < length spelling.now)) }
{
    if spelling.len() > LONGEST {
        return Err(Stop::Refused(Refusal::Limit));
    }
    match in_upper_case(alloc, spelling) {
        Ok(name) => Ok(name),
        Err(AllocError) => Err(Stop::Memory),
    }
}

/// A spelling in upper case.
fn in_upper_case(alloc: Global, spelling: &[u8]) -> Result<String, AllocError> {
    let mut name = String::new(alloc);
    for byte in spelling {
        name.push(char::from(byte.to_ascii_uppercase()))?;
    }
    Ok(name)
}

/// A whole number as a name, without leading zeros; 76 Limit where it is past 63 bits.
pub fn numeral(alloc: Global, number: u64) -> Result<String, Stop>
    ensures spelled { IfOk result (λ name. string_bytes name ≡ decimal number) }
    ensures large { 2 ^ 63 ≤ number → result ≡ Err (Refused refusals.Limit) }
    ensures kept { IfErr result (λ stop. (stop ≡ Memory) ⊎ (2 ^ 63 ≤ number)) }
{
    if number > i64::MAX as u64 {
        return Err(Stop::Refused(Refusal::Limit));
    }
    match number.to_string(alloc) {
        Ok(name) => Ok(name),
        Err(AllocError) => Err(Stop::Memory),
    }
}
