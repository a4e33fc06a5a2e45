//! The numbers of a point, by what it is called.

ghost use Rattle.std.specs.Prelude.{◌≡◌, ◌↔◌, [], IfOk, IsTrue};
ghost use Rattle.gw_rows.specs.Rows.{texts};
ghost use Rattle.gw_summary.specs.Holding.{HasNoNames};

use gw_object::Memory;
use gw_parameters::{NoAnswer, Parameter, parameter_in};
use itoa::Buffer;
use std::alloc::Global;

/// The names and numbers of a point, in order.
#[derive(Drop)]
pub(crate) struct Numbers {
    /// The names.
    pub(crate) names: Vec<Vec<u8>>,
    /// A number for each.
    pub(crate) values: Vec<i64>,
}

/// A name and its one number behind others, if there is one.
fn add(numbers: &mut Numbers, parameter: Parameter) -> Result<bool, Memory> {
    let Parameter { name, values } = parameter;
    if values.len() != 1 {
        drop(name);
        return Ok(false);
    }
    numbers.names.push(name)?;
    numbers.values.push(values[0])?;
    Ok(true)
}

/// The same of a word as `NURSES=2`.
fn add_word(alloc: Global, numbers: &mut Numbers, word: &[u8]) -> Result<bool, Memory> {
    match parameter_in(alloc, word) {
        Ok(parameter) => add(numbers, parameter),
        Err(NoAnswer::Refused(_)) => Ok(false),
        Err(NoAnswer::Memory) => Err(Memory),
    }
}

/// The names and numbers of words with blanks between them, each as `NURSES=2`.
fn numbers_of_words(alloc: Global, point: &[u8]) -> Result<Option<Numbers>, Memory> {
    let mut numbers = Numbers {
        names: Vec::new(alloc),
        values: Vec::new(alloc),
    };
    for word in point.split(|byte| *byte == b' ') {
        if !add_word(alloc, &mut numbers, word)? {
            return Ok(None);
        }
    }
    Ok(Some(numbers))
}

/// What a point of these names and numbers is called.
fn name_of(alloc: Global, numbers: &Numbers) -> Result<Vec<u8>, Memory> {
    let mut name = Vec::new(alloc);
    for i in 0..numbers.names.len().min(numbers.values.len()) {
        let mut buffer = Buffer::new();
        if i > 0 {
            name.push(b' ')?;
        }
        name.extend_from_slice(&numbers.names[i])?;
        name.push(b'=')?;
        name.extend_from_slice(buffer.format(numbers.values[i]).as_bytes())?;
    }
    Ok(name)
}

/// The same, if a point of them is called so.
fn if_called(alloc: Global, numbers: Numbers, point: &[u8]) -> Result<Option<Numbers>, Memory> {
    if name_of(alloc, &numbers)?.as_slice() == point {
        Ok(Some(numbers))
    } else {
        drop(numbers);
        Ok(None)
    }
}

/// The names and numbers of a point that is called so, if one can be called so: `NURSES=2 BEDS=3`. The model as it is has none.
pub(crate) fn numbers_in(alloc: Global, point: &[u8]) -> Result<Option<Numbers>, Memory>
    ensures { point.now ≡ [] → IfOk result HasNoNames }
{
    if point.is_empty() {
        return Ok(Some(Numbers {
            names: Vec::new(alloc),
            values: Vec::new(alloc),
        }));
    }
    match numbers_of_words(alloc, point)? {
        Some(numbers) => if_called(alloc, numbers, point),
        None => Ok(None),
    }
}

/// Whether two points have the same names.
pub(crate) fn are_alike(first: &[Vec<u8>], second: &[Vec<u8>]) -> bool
    ensures { IsTrue result ↔ (texts first.now ≡ texts second.now) }
{
    if first.len() != second.len() {
        return false;
    }
    for i in 0..first.len() {
        if first[i].as_slice() != second[i].as_slice() {
            return false;
        }
    }
    true
}

/// Whether a point comes before another: by the numbers of the first name, and then by those of the second.
pub(crate) fn is_before(first: &[i64], second: &[i64]) -> bool {
    for i in 0..first.len().min(second.len()) {
        if first[i] != second[i] {
            return first[i] < second[i];
        }
    }
    first.len() < second.len()
}
