//! Points: the texts that parameters make of one.

ghost use Rattle.std.specs.Prelude.{◌≡◌, ◌<◌, ◌≤◌, ◌*◌, ◌++◌, ◌∷◌, [], Some, length, map, slice_get, IfOk, OnOk};
ghost use Rattle.gw_parameters.specs.Points as model;
ghost use Rattle.gw_parameters.specs.Refusals.{Makes};

use crate::fault::{NoAnswer, ParameterFault, no_point};
use crate::parameters::{Parameter, name_before, parameter_in};
use crate::texts::text_with;
use gw_object::Memory;
use itoa::Buffer;
use std::alloc::Global;

/// At most so many points are asked for at once.
pub const MOST_POINTS: usize = 64;

/// What is asked for: one point for each number, or each pair of numbers, of at most two names.
#[derive(Drop)]
pub enum Points {
    /// The model as it is.
    One,
    /// A point for each number of a name.
    Line(Parameter),
    /// A point for each pair of numbers of two names; the second goes through all its numbers first.
    Grid(Parameter, Parameter),
}

/// Whether so many numbers of one name, with so many of another, are too many points.
fn are_too_many(first: usize, second: usize) -> bool
    ensures { result ≡ model.are_too_many first second }
{
    first > MOST_POINTS || second > MOST_POINTS || first * second > MOST_POINTS
}

/// The points of a name.
fn line_of(alloc: Global, parameter: Parameter) -> Result<Points, NoAnswer>
    ensures line { model.IsLine parameter result }
    ensures few { IfOk result (λ points. model.count_of points ≤ 64) }
{
    if are_too_many(parameter.values.len(), 1) {
        let none = no_point(alloc, &parameter.name, ParameterFault::Points);
        drop(parameter);
        return Err(none);
    }
    Ok(Points::Line(parameter))
}

/// Why two names have no points, if they have none.
fn fault_of(first: &Parameter, second: &Parameter) -> Option<ParameterFault>
    ensures { result ≡ model.fault_of first.now second.now }
{
    if first.name.eq_ignore_ascii_case(&second.name) {
        Some(ParameterFault::Names)
    } else if are_too_many(first.values.len(), second.values.len()) {
        Some(ParameterFault::Points)
    } else {
        None
    }
}

/// The points of two names.
fn grid_of(alloc: Global, first: Parameter, second: Parameter) -> Result<Points, NoAnswer>
    ensures grid { model.IsGrid first second result }
    ensures few { IfOk result (λ points. model.count_of points ≤ 64) }
{
    match fault_of(&first, &second) {
        Some(fault) => {
            let none = no_point(alloc, &second.name, fault);
            drop(first);
            drop(second);
            Err(none)
        }
        None => Ok(Points::Grid(first, second)),
    }
}

/// The points that one word asks for.
fn points_of_word(alloc: Global, word: &[u8]) -> Result<Points, NoAnswer>
    ensures points { model.AsksFor (word.now ∷ []) result }
    ensures few { IfOk result (λ points. model.count_of points ≤ 64) }
{
    match parameter_in(alloc, word) {
        Ok(parameter) => line_of(alloc, parameter),
        Err(none) => Err(none),
    }
}

/// The points that a name and another word ask for.
fn points_with(alloc: Global, first: Parameter, word: &[u8]) -> Result<Points, NoAnswer>
    ensures points { model.AsksWith first word.now result }
    ensures few { IfOk result (λ points. model.count_of points ≤ 64) }
{
    match parameter_in(alloc, word) {
        Ok(second) => grid_of(alloc, first, second),
        Err(none) => {
            drop(first);
            Err(none)
        }
    }
}

/// The points that two words ask for.
fn points_of_words(alloc: Global, first: &[u8], second: &[u8]) -> Result<Points, NoAnswer>
    ensures points { model.AsksFor (first.now ∷ second.now ∷ []) result }
    ensures few { IfOk result (λ points. model.count_of points ≤ 64) }
{
    match parameter_in(alloc, first) {
        Ok(parameter) => points_with(alloc, parameter, second),
        Err(none) => Err(none),
    }
}

/// The points that words as `NURSES=2,3` ask for: the model as it is, where there is no word; a point for each number of one
/// name; or a point for each pair of numbers of two.
///
/// A word that isn't such a one is refused (83 Parameter), and so are a third word, one name twice, and more than 64 points.
pub fn points_of(alloc: Global, words: &[&[u8]]) -> Result<Points, NoAnswer>
    ensures points { model.AsksFor (map (λ w. w.now) words.now) result }
    ensures few { IfOk result (λ points. model.count_of points ≤ 64) }
{
    match words {
        [] => Ok(Points::One),
        [word] => points_of_word(alloc, word),
        [first, second] => points_of_words(alloc, first, second),
        [_, _, third, ..] => Err(no_point(alloc, name_before(third), ParameterFault::Names)),
    }
}

/// A copy of a text.
fn copy_of(alloc: Global, text: &[u8]) -> Result<Vec<u8>, NoAnswer>
    ensures { Makes text.now result }
{
    let mut made = Vec::new(alloc);
    match made.extend_from_slice(text) {
        Ok(()) => Ok(made),
        Err(_) => Err(NoAnswer::Memory),
    }
}

/// A number of a name.
fn value_at(parameter: &Parameter, i: usize) -> i64
    requires { i < length parameter.now.values.items }
    ensures { Some result ≡ slice_get parameter.now.values.items i }
{
    parameter.values[i]
}

/// A text with a number of a name.
fn text_on_line(
    alloc: Global,
    text: &[u8],
    parameter: &Parameter,
    i: usize,
) -> Result<Vec<u8>, NoAnswer>
    requires { i < length parameter.now.values.items }
    ensures { model.IsLineText text.now parameter.now i result }
{
    text_with(alloc, text, &parameter.name, value_at(parameter, i))
}

/// A text with a number of each of two names.
fn text_on_grid(
    alloc: Global,
    text: &[u8],
    first: &Parameter,
    second: &Parameter,
    point: usize,
) -> Result<Vec<u8>, NoAnswer>
    requires { point < length first.now.values.items * length second.now.values.items }
    ensures { model.IsGridText text.now first.now second.now point result }
{
    let count = second.values.len();
    match text_on_line(alloc, text, first, point / count) {
        Ok(middle) => text_on_line(alloc, &middle, second, point % count),
        Err(none) => Err(none),
    }
}

impl Points {
    /// How many there are, 1 to 64.
    pub fn count(&self) -> usize
        requires { model.count_of self.now ≤ 64 }
        ensures { result ≡ model.count_of self.now }
    {
        match self {
            Points::One => 1,
            Points::Line(parameter) => parameter.values.len(),
            Points::Grid(first, second) => first.values.len() * second.values.len(),
        }
    }

    /// The text of a point, by its number from 0: the model's but for the numbers of its names.
    ///
    /// A name that the text gives no number, or more than one line, is refused (83 Parameter).
    pub fn text_at(&self, alloc: Global, text: &[u8], point: usize) -> Result<Vec<u8>, NoAnswer>
        requires { point < model.count_of self.now }
        ensures { model.IsPointText text.now self.now point result }
    {
        match self {
            Points::One => copy_of(alloc, text),
            Points::Line(parameter) => text_on_line(alloc, text, parameter, point),
            Points::Grid(first, second) => text_on_grid(alloc, text, first, second, point),
        }
    }

    /// What a point is called, by its number from 0: `NURSES=2`, of two names `NURSES=2 BEDS=3`; nothing where there is no name.
    pub fn put_name(&self, out: &mut Vec<u8>, point: usize) -> Result<(), Memory>
        requires { point < model.count_of self.now }
        ensures { OnOk result (out.new.items ≡ out.old.items ++ model.name_of self.now point) }
    {
        match self {
            Points::One => Ok(()),
            Points::Line(parameter) => put_value(out, parameter, point),
            Points::Grid(first, second) => put_pair(out, first, second, point),
        }
    }
}

/// A name and one of its numbers.
fn put_value(out: &mut Vec<u8>, parameter: &Parameter, i: usize) -> Result<(), Memory>
    requires { i < length parameter.now.values.items }
    ensures { OnOk result (out.new.items ≡ out.old.items ++ model.value_text parameter.now i) }
{
    let mut buffer = Buffer::new();
    out.extend_from_slice(&parameter.name)?;
    out.extend_from_slice(b"=")?;
    out.extend_from_slice(buffer.format(parameter.values[i]).as_bytes())
}

/// Two names, each with one of its numbers.
fn put_pair(
    out: &mut Vec<u8>,
    first: &Parameter,
    second: &Parameter,
    point: usize,
) -> Result<(), Memory>
    requires { point < length first.now.values.items * length second.now.values.items }
    ensures { OnOk result (out.new.items ≡ out.old.items ++ model.pair_text first.now second.now point) }
{
    let count = second.values.len();
    put_value(out, first, point / count)?;
    out.extend_from_slice(b" ")?;
    put_value(out, second, point % count)
}
