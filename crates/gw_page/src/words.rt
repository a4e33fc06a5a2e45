//! The words that a request names.

ghost use Rattle.std.specs.Prelude.{◌≡◌, ◌∷◌, map, option_map, unwrap_or, [], IfOk, OnOk};
ghost use Rattle.std.specs.String.{string_bytes};
ghost use Rattle.gw_page.specs.Words as model;

use form_urlencoded::{decode, raw_pairs};
use std::alloc::{AllocError, Global};

/// What a piece of a query stands for.
fn word_in(alloc: Global, piece: &[u8]) -> Result<String, AllocError>
    ensures { IfOk result (λ word. string_bytes word ≡ model.word_in piece.now) }
{
    decode(alloc, piece)?.into_owned(alloc)
}

/// Adds a word, `=`, and another: one word as `NURSES=2,3`.
fn put_parameter(words: &mut Vec<String>, key: String, value: &str) -> Result<(), AllocError>
    ensures { OnOk result (model.AddsWords words.old words.new
        (model.parameter (string_bytes key) value.now ∷ [])) }
{
    let mut word = key;
    word.push_str("=")?;
    word.push_str(value)?;
    Ok(words.push(word)?)
}

/// Adds the words of a pair: a lone word; an option and its word, as `--from=100`; or one word as `NURSES=2,3`.
fn put_pair(
    alloc: Global,
    words: &mut Vec<String>,
    key: &[u8],
    value: &[u8],
) -> Result<(), AllocError>
    ensures { OnOk result
        (model.AddsWords words.old words.new (model.words_of_pair (key.now, value.now))) }
{
    let key = word_in(alloc, key)?;
    if value.is_empty() {
        return Ok(words.push(key)?);
    }
    let value = word_in(alloc, value)?;
    if key.starts_with("--") {
        words.push(key)?;
        return Ok(words.push(value)?);
    }
    put_parameter(words, key, value.as_str())
}

/// The words of a command: its name, and those of a query.
pub(crate) fn words_of(alloc: Global, name: &str, query: &str) -> Result<Vec<String>, AllocError>
    ensures { IfOk result (λ words.
        map string_bytes words.items ≡ name.now ∷ model.words_in query.now) }
{
    let mut words = Vec::new(alloc);
    words.push(String::from_str(alloc, name)?)?;
    for (key, value) in raw_pairs(query.as_bytes()) {
        put_pair(alloc, &mut words, key, value)?;
    }
    Ok(words)
}
