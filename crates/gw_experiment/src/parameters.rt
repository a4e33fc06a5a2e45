//! Names and their numbers.

ghost use Rattle.std.specs.Prelude.{◌≡◌, ◌++◌, Some, IfOk, OnOk, codes};
ghost use Rattle.std.specs.List.{flat_map, join_by};
ghost use Rattle.gw_parameters.specs.Parameters.{numbers_in};
ghost use Rattle.gw_experiment.specs.Answers.{lent_texts};
ghost use Rattle.gw_experiment.specs.Experiments as model;

use gw_object::Memory;
use gw_parameters::{NoAnswer, parameter_in};
use std::alloc::Global;

/// Numbers, each behind a comma.
fn put_others(word: &mut Vec<u8>, numbers: &[&[u8]]) -> Result<(), Memory>
    ensures { OnOk result (word.new.items ≡ word.old.items
        ++ flat_map (λ n. codes "," ++ n) (lent_texts numbers.now)) }
{
    for i in 0..numbers.len() {
        word.push(b',')?;
        word.extend_from_slice(numbers[i])?;
    }
    Ok(())
}

/// Numbers with commas between them.
fn put_numbers(word: &mut Vec<u8>, numbers: &[&[u8]]) -> Result<(), Memory>
    ensures { OnOk result (word.new.items ≡ word.old.items
        ++ join_by (λ n. n) (codes ",") (lent_texts numbers.now)) }
{
    match numbers {
        [first, others @ ..] => {
            word.extend_from_slice(first)?;
            put_others(word, others)
        }
        [] => Ok(()),
    }
}

/// A name and its numbers as one word, `NURSES=2,3`.
pub(crate) fn parameter_word(
    alloc: Global,
    name: &[u8],
    numbers: &[&[u8]],
) -> Result<Vec<u8>, Memory>
    ensures { IfOk result (λ word.
        word.items ≡ model.parameter_word name.now (lent_texts numbers.now)) }
{
    let mut word = Vec::new(alloc);
    word.extend_from_slice(name)?;
    word.push(b'=')?;
    put_numbers(&mut word, numbers)?;
    Ok(word)
}

/// Whether each number is greater than the one before it, the first of them than this one.
fn rise_from(first: i64, numbers: &[i64]) -> bool
    ensures { result ≡ model.rises_from first numbers.now }
{
    let mut last = first;
    for i in 0..numbers.len() {
        if last >= numbers[i] {
            return false;
        }
        last = numbers[i];
    }
    true
}

/// Whether there are numbers, which rise.
fn are_rising(numbers: &[i64]) -> bool
    ensures { result ≡ model.are_rising (Some numbers.now) }
{
    match numbers {
        [first, rest @ ..] => rise_from(*first, rest),
        [] => false,
    }
}

/// Whether a word is a name, `=` and numbers that rise.
pub(crate) fn has_rising_numbers(alloc: Global, word: &[u8]) -> Result<bool, Memory>
    ensures { IfOk result (λ yes. yes ≡ model.are_rising (numbers_in word.now)) }
{
    match parameter_in(alloc, word) {
        Ok(parameter) => Ok(are_rising(&parameter.values)),
        Err(NoAnswer::Refused(_)) => Ok(false),
        Err(NoAnswer::Memory) => Err(Memory),
    }
}
