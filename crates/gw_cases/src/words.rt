//! The words and numbers of a line.

use crate::stop::Stop;
use std::alloc::{AllocError, Global};
use std::str;

/// The words of a line, which blanks part.
pub fn words_of(alloc: Global, line: &[u8]) -> Result<Vec<&[u8]>, AllocError> {
    let mut words = Vec::new(alloc);
    for word in line.split(|byte| *byte == b' ') {
        if !word.is_empty() {
            words.push(word)?;
        }
    }
    Ok(words)
}

/// What a word stands for, if it is one of these spellings.
fn meaning_of<T: Copy>(spellings: &[(&[u8], T)], word: &[u8]) -> Option<T> {
    for (spelling, meaning) in spellings {
        if *spelling == word {
            return Some(*meaning);
        }
    }
    None
}

/// The first of some words, and those behind it.
pub fn first_of<'a, 'b>(words: &'b [&'a [u8]]) -> Result<(&'a [u8], &'b [&'a [u8]]), Stop> {
    match words {
        [first, rest @ ..] => Ok((first, rest)),
        [] => Err(Stop::Unknown),
    }
}

/// What the first of some words stands for, by these spellings, and the words behind it.
pub fn first_meaning<'a, 'b, T: Copy>(
    spellings: &[(&[u8], T)],
    words: &'b [&'a [u8]],
) -> Result<(T, &'b [&'a [u8]]), Stop> {
    let (first, rest) = first_of(words)?;
    match meaning_of(spellings, first) {
        Some(meaning) => Ok((meaning, rest)),
        None => Err(Stop::Unknown),
    }
}

/// The words behind this one, which has to be the first.
pub fn behind_word<'a, 'b>(word: &[u8], words: &'b [&'a [u8]]) -> Result<&'b [&'a [u8]], Stop> {
    let (first, rest) = first_of(words)?;
    if first == word {
        Ok(rest)
    } else {
        Err(Stop::Unknown)
    }
}

/// The only one of some words.
pub fn only_of<'a>(words: &[&'a [u8]]) -> Result<&'a [u8], Stop> {
    match words {
        [word] => Ok(word),
        _ => Err(Stop::Unknown),
    }
}

/// The number that a word spells in decimal digits.
pub fn number_in(word: &[u8]) -> Option<u64> {
    match str::from_utf8(word) {
        Ok(text) => text.parse().ok(),
        Err(_) => None,
    }
}

/// A number that a script has to give.
pub fn number(word: &[u8]) -> Result<u64, Stop> {
    number_in(word).ok_or(Stop::Unknown)
}

/// The same of 32 bits.
pub fn number_u32(word: &[u8]) -> Result<u32, Stop> {
    u32::try_from(number(word)?).map_err(|_| Stop::Unknown)
}

/// The same of 16 bits.
pub fn number_u16(word: &[u8]) -> Result<u16, Stop> {
    u16::try_from(number(word)?).map_err(|_| Stop::Unknown)
}

/// The same of 8 bits.
pub fn number_u8(word: &[u8]) -> Result<u8, Stop> {
    u8::try_from(number(word)?).map_err(|_| Stop::Unknown)
}

/// The same as a place.
pub fn place(word: &[u8]) -> Result<usize, Stop> {
    usize::try_from(number(word)?).map_err(|_| Stop::Unknown)
}
