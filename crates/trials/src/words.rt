//! The words of the command line: trials, each with its own words behind it.

use gw_load::Rounds;

/// A trial.
#[derive(Clone, Copy)]
pub enum Trial {
    /// Cases, by their subjects.
    Cases,
    /// Objects that are damaged, by their names.
    Damage,
    /// Texts whose calls are refused memory, by their names.
    Scarcity,
    /// Workers who are refused memory.
    Memory,
    /// Users who call services from several threads.
    Load,
}

/// The trial that a word begins, if it begins one.
pub fn trial_named(word: &str) -> Option<Trial> {
    match word {
        "cases" => Some(Trial::Cases),
        "damage" => Some(Trial::Damage),
        "scarcity" => Some(Trial::Scarcity),
        "memory" => Some(Trial::Memory),
        "load" => Some(Trial::Load),
        _ => None,
    }
}

/// Whether a trial begins with the first of these words.
pub fn begins_trial(words: &[String]) -> bool {
    match words.first() {
        Some(word) => trial_named(word.as_str()).is_some(),
        None => false,
    }
}

/// Those of the words behind a trial's that belong to it: the ones before the next trial.
pub fn own_words(words: &[String]) -> &[String] {
    for i in 0..words.len() {
        if begins_trial(&words[i..]) {
            return &words[..i];
        }
    }
    words
}

/// Which rounds the words behind `load` ask for, if they are such words.
pub fn rounds_of(words: &[String]) -> Option<Rounds> {
    let (rounds, seed, is_watched) = match words {
        [rounds, seed] => (rounds, seed, false),
        [rounds, seed, last] if last.as_str() == "-v" => (rounds, seed, true),
        _ => return None,
    };
    Some(Rounds {
        number: rounds.as_str().parse::<u32>().ok()?,
        seed: seed.as_str().parse::<u32>().ok()?,
        is_watched,
    })
}
