//! What `NURSES=2,3` asks for.

ghost use Rattle.std.specs.Prelude.{◌≡◌, ◌≤◌, ◌==◌, length, ◌∷◌, [], Some, IfOk, option_copied, option_map};
ghost use Rattle.std.specs.Char.{is_ascii_digit};
ghost use Rattle.std.specs.List.{list_all, slice_split, position_or_len};
ghost use Rattle.gw_num.specs.Numerals.{is_number as has_digits};
ghost use Rattle.gw_parameters.specs.Parameters as model;
ghost use Rattle.gw_parameters.specs.Parameters.{words_left};

use crate::fault::{NoAnswer, ParameterFault, no_point};
use gw_object::Memory;
use gw_text_tokens::tokens::value_of;
use std::alloc::Global;

/// A name, and the numbers that are to be put by it.
#[derive(Drop)]
pub struct Parameter {
    /// The name, as it was written.
    pub name: Vec<u8>,
    /// The numbers, in the order in which they were written; at least one.
    pub values: Vec<i64>,
}

/// Whether all bytes are decimal digits.
fn are_digits(word: &[u8]) -> bool
    ensures { result ≡ list_all is_ascii_digit word.now }
{
    word.iter().all(|byte| byte.is_ascii_digit())
}

/// Whether a word is decimal digits alone, one or more.
fn is_number(word: &[u8]) -> bool
    ensures { result ≡ has_digits word.now }
{
    !word.is_empty() && are_digits(word)
}

/// The number that digits spell, if it is below 2^63.
fn count_in(digits: &[u8]) -> Option<i64>
    ensures { result ≡ model.positive (model.count_in digits.now) }
{
    let value = value_of(digits);
    if is_number(digits) && value < 1 << 63 {
        Some(value as i64)
    } else {
        None
    }
}

/// The whole number that a word spells, with a `-` or none.
fn value_in(word: &[u8]) -> Option<i64>
    ensures { result ≡ model.value_in word.now }
{
    match word {
        [b'-', digits @ ..] => count_in(digits).map(|value| -value),
        _ => count_in(word),
    }
}

/// Where a byte stands first, or the length.
fn place_of(bytes: &[u8], byte: u8) -> usize
    ensures place { result ≡ position_or_len (λ b. b == byte) bytes.now }
    ensures within { result ≤ length bytes.now }
{
    for place in 0..bytes.len() {
        if bytes[place] == byte {
            return place;
        }
    }
    bytes.len()
}

/// What stands before the first comma, and what follows it, if there is one.
#[tactic(auto, using(crate::proofs::Parting::cut_first, crate::proofs::Parting::cut_none))]
fn cut(words: &[u8]) -> (&[u8], Option<&[u8]>)
    ensures { slice_split model.is_comma words.now
        ≡ result.0.now ∷ words_left (option_copied result.1) }
{
    let end = place_of(words, b',');
    if end < words.len() {
        let (first, _) = words.split_at(end);
        let (_, rest) = words.split_at(end + 1);
        (first, Some(rest))
    } else {
        (words, None)
    }
}

/// The numbers that a list with commas spells, if each part spells one.
#[tactic(auto, unfolding(crate::specs::Parameters::values_behind))]
fn values_in(alloc: Global, words: &[u8]) -> Result<Option<Vec<i64>>, Memory>
    ensures { IfOk result (λ values. option_map (λ v. v.items) values ≡ model.values_in words.now) }
{
    let mut values = Vec::new(alloc);
    let mut left = Some(words);
    while let Some(part) = left {
        let (word, rest) = cut(part);
        let Some(value) = value_in(word) else {
            return Ok(None);
        };
        values.push(value)?;
        left = rest;
    }
    Ok(Some(values))
}

/// What follows the first `=` of a word.
fn behind_equals(word: &[u8]) -> Option<&[u8]>
    ensures { option_copied result ≡ model.behind_equals word.now }
{
    let end = place_of(word, b'=');
    if end < word.len() {
        Some(word.split_at(end + 1).1)
    } else {
        None
    }
}

/// The numbers behind the first `=` of a word, if each part spells one.
#[tactic(auto, unfolding(crate::specs::Parameters::numbers_in))]
fn numbers_in(alloc: Global, word: &[u8]) -> Result<Option<Vec<i64>>, Memory>
    ensures { IfOk result (λ values. option_map (λ v. v.items) values ≡ model.numbers_in word.now) }
{
    match behind_equals(word) {
        Some(words) => values_in(alloc, words),
        None => Ok(None),
    }
}

/// What stands before the first `=` of a word.
pub(crate) fn name_before(word: &[u8]) -> &[u8]
    ensures { result.now ≡ model.name_in word.now }
{
    word.split_at(place_of(word, b'=')).0
}

/// A copy of what stands before the first `=` of a word.
fn name_in(alloc: Global, word: &[u8]) -> Result<Vec<u8>, Memory>
    ensures { IfOk result (λ name. name.items ≡ model.name_in word.now) }
{
    let mut name = Vec::new(alloc);
    name.extend_from_slice(name_before(word))?;
    Ok(name)
}

/// A name and its numbers.
fn parameter_with(alloc: Global, word: &[u8], values: Vec<i64>) -> Result<Parameter, NoAnswer>
    requires { Some values.items ≡ model.numbers_in word.now }
    ensures { model.IsParameter word.now result }
{
    match name_in(alloc, word) {
        Ok(name) => Ok(Parameter { name, values }),
        Err(Memory) => Err(NoAnswer::Memory),
    }
}

/// What a word asks for: a name, `=`, and whole numbers with commas between them, each with a `-` or none and within 64 bits.
///
/// Another word is refused (83 Parameter), under all that stands before its first `=`.
pub fn parameter_in(alloc: Global, word: &[u8]) -> Result<Parameter, NoAnswer>
    ensures { model.IsParameter word.now result }
{
    match numbers_in(alloc, word) {
        Ok(Some(values)) => parameter_with(alloc, word, values),
        Ok(None) => Err(no_point(alloc, name_before(word), ParameterFault::Form)),
        Err(Memory) => Err(NoAnswer::Memory),
    }
}
