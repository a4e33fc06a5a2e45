//! What a comment line asks for, with what was asked for before.

ghost use Rattle.std.specs.Prelude.{◌≡◌};
ghost use Rattle.gw_experiment.specs.Answers.{Gives, Takes, lent_texts, view_of_draft};
ghost use Rattle.gw_experiment.specs.Experiments as model;

use crate::draft::{Draft, Refused};
use crate::fault::ExperimentFault;
use crate::parameters::{has_rising_numbers, parameter_word};
use crate::words::{behind_mark, is_word, number_in, runs_in, words_in};
use gw_object::Memory;
use std::alloc::Global;

/// The most words as `NURSES=2,3`.
const MOST_PARAMETERS: usize = 2;

/// One more word as `NURSES=2,3`, with those that were there.
fn add_parameter(alloc: Global, draft: &mut Draft, word: Vec<u8>) -> Result<(), Refused>
    ensures { Takes (model.with_parameter (view_of_draft draft.old) word.items) draft.new result }
{
    if draft.parameters.len() >= MOST_PARAMETERS {
        drop(word);
        return Err(Refused::Fault(ExperimentFault::Names));
    }
    match has_rising_numbers(alloc, &word) {
        Ok(true) => match draft.parameters.push(word) {
            Ok(()) => Ok(()),
            Err(_) => Err(Refused::Memory),
        },
        Ok(false) => {
            drop(word);
            Err(Refused::Fault(ExperimentFault::Numbers))
        }
        Err(Memory) => {
            drop(word);
            Err(Refused::Memory)
        }
    }
}

/// A name, and numbers behind it.
fn add_name(alloc: Global, draft: &mut Draft, words: &[&[u8]]) -> Result<(), Refused>
    ensures { Takes (model.with_name (view_of_draft draft.old) (lent_texts words.now))
        draft.new result }
{
    match words {
        [name, numbers @ ..] => match parameter_word(alloc, name, numbers) {
            Ok(word) => add_parameter(alloc, draft, word),
            Err(Memory) => Err(Refused::Memory),
        },
        [] => Err(Refused::Fault(ExperimentFault::Numbers)),
    }
}

/// A number that words say, where no line before says it; where they say none, this is wrong.
fn once(
    before: Option<u64>,
    wrong: ExperimentFault,
    number: Option<u64>,
) -> Result<Option<u64>, Refused>
    ensures { Gives (model.once before wrong number) result }
{
    match (number, before) {
        (None, _) => Err(Refused::Fault(wrong)),
        (Some(_), None) => Ok(number),
        (Some(_), Some(_)) => Err(Refused::Fault(ExperimentFault::Twice)),
    }
}

/// How many runs each point has.
fn set_runs(draft: &mut Draft, words: &[&[u8]]) -> Result<(), Refused>
    ensures { Takes (model.with_runs (view_of_draft draft.old) (lent_texts words.now))
        draft.new result }
{
    draft.runs = once(draft.runs, ExperimentFault::Runs, runs_in(words))?;
    Ok(())
}

/// The termination count.
fn set_count(draft: &mut Draft, words: &[&[u8]]) -> Result<(), Refused>
    ensures { Takes (model.with_count (view_of_draft draft.old) (lent_texts words.now))
        draft.new result }
{
    draft.count = once(draft.count, ExperimentFault::Number, number_in(words))?;
    Ok(())
}

/// Where the window begins.
fn set_from(draft: &mut Draft, words: &[&[u8]]) -> Result<(), Refused>
    ensures { Takes (model.with_from (view_of_draft draft.old) (lent_texts words.now))
        draft.new result }
{
    draft.from = once(draft.from, ExperimentFault::Number, number_in(words))?;
    Ok(())
}

/// What the words of a line ask for, with what was asked for before.
fn add_words(alloc: Global, draft: &mut Draft, words: &[&[u8]]) -> Result<(), Refused>
    ensures { Takes (model.with_words (view_of_draft draft.old) (lent_texts words.now))
        draft.new result }
{
    let [word, rest @ ..] = words else {
        return Err(Refused::Fault(ExperimentFault::Word));
    };
    if is_word(word, "vary") {
        add_name(alloc, draft, rest)
    } else if is_word(word, "runs") {
        set_runs(draft, rest)
    } else if is_word(word, "count") {
        set_count(draft, rest)
    } else if is_word(word, "from") {
        set_from(draft, rest)
    } else {
        Err(Refused::Fault(ExperimentFault::Word))
    }
}

/// What a line asks for, if it begins with `*!`.
pub(crate) fn add_line(alloc: Global, draft: &mut Draft, line: &[u8]) -> Result<(), Refused>
    ensures { Takes (model.with_line (view_of_draft draft.old) line.now) draft.new result }
{
    match behind_mark(line) {
        Some(text) => match words_in(alloc, text) {
            Ok(words) => add_words(alloc, draft, &words),
            Err(Memory) => Err(Refused::Memory),
        },
        None => Ok(()),
    }
}
