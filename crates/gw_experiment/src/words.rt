//! The words of a line of an experiment.

ghost use Rattle.std.specs.Prelude.{◌≡◌, ◌≤◌, IfOk, IfSome, option_copied, ◌^◌};
ghost use Rattle.std.specs.Str.{bytes_eq};
ghost use Rattle.gw_num.specs.Numerals.{number_below};
ghost use Rattle.gw_text_tokens.specs.Lines.{is_blank as parts_words};
ghost use Rattle.gw_experiment.specs.Answers.{lent_texts};
ghost use Rattle.gw_experiment.specs.Experiments as model;

use gw_num::count_in;
use gw_object::Memory;
use std::alloc::Global;

/// The most runs of a point.
const MOST_RUNS: u64 = 512;

/// Whether a byte parts words.
fn is_blank(byte: u8) -> bool
    ensures { result ≡ parts_words byte }
{
    byte == b' ' || byte == b'\t'
}

/// What stands behind `*!` at the front of a line, if it has that.
pub(crate) fn behind_mark(line: &[u8]) -> Option<&[u8]>
    ensures { option_copied result ≡ model.behind_mark line.now }
{
    match line {
        [b'*', b'!', rest @ ..] => Some(rest),
        _ => None,
    }
}

/// The words of a text, which blanks part.
pub(crate) fn words_in(alloc: Global, text: &[u8]) -> Result<Vec<&[u8]>, Memory>
    ensures { IfOk result (λ words. lent_texts words.items ≡ model.words_in text.now) }
{
    text.split(|byte| is_blank(*byte))
        .filter(|word| !word.is_empty())
        .collect(alloc)
}

/// Whether a word is this one.
pub(crate) fn is_word(word: &[u8], name: &str) -> bool
    ensures { result ≡ bytes_eq word.now name.now }
{
    word == name.as_bytes()
}

/// The number that a word of decimal digits alone spells, if it is below 2^64.
fn number_of(word: &[u8]) -> Option<u64>
    ensures { result ≡ number_below (2 ^ 64) word.now }
{
    match str::from_utf8(word) {
        Ok(text) => count_in(text),
        Err(_) => None,
    }
}

/// The number below 2^64 that words say: one word of digits.
pub(crate) fn number_in(words: &[&[u8]]) -> Option<u64>
    ensures { result ≡ model.number_in (lent_texts words.now) }
{
    match words {
        [word] => number_of(word),
        _ => None,
    }
}

/// How many runs words say: a number from 1 to 512.
pub(crate) fn runs_in(words: &[&[u8]]) -> Option<u64>
    ensures value { result ≡ model.runs_in (lent_texts words.now) }
    ensures range { IfSome result (λ n. (1 ≤ n) × (n ≤ 512)) }
{
    match number_in(words) {
        Some(runs) if 1 <= runs && runs <= MOST_RUNS => Some(runs),
        _ => None,
    }
}
