//! The options of `study` and `compare` on the command line.

ghost use Rattle.std.specs.Prelude.{◌≡◌, ◌^◌, map, option_map};
ghost use Rattle.std.specs.String.{string_bytes};
ghost use Rattle.std.specs.List.{list_any};
ghost use Rattle.gw_num.specs.Numerals.{number_below};
ghost use Rattle.gw_command_line.specs.Options as model;

use gw_num::{count_in, number_in};

/// Which option waits for its word.
#[derive(Clone, Copy, PartialEq, Eq)]
pub enum Waiting {
    /// None does.
    Nothing,
    /// `--from`.
    From,
    /// `--seeds`.
    Seeds,
    /// `--workers`.
    Workers,
    /// `--svg`.
    Figure,
}

/// The options, as far as their words were read.
#[derive(Clone, Copy)]
pub struct Options<'a> {
    /// How many transactions are counted before the figures begin.
    pub from: Option<u64>,
    /// Which study of so many runs it is, from 1.
    pub seeds: Option<u32>,
    /// How many workers there are.
    pub workers: Option<u32>,
    /// Whether all figures are told.
    pub all: bool,
    /// Whether CSV is written.
    pub csv: bool,
    /// The figure of which a picture is drawn.
    pub figure: Option<&'a str>,
    /// The first word as `NURSES=2,3`.
    pub first: Option<&'a str>,
    /// The second.
    pub second: Option<&'a str>,
    /// A third, which is refused.
    pub third: Option<&'a str>,
    /// Which option waits for its word.
    pub(crate) waiting: Waiting,
}

/// No option.
const NONE: Options<'static> = Options {
    from: None,
    seeds: None,
    workers: None,
    all: false,
    csv: false,
    figure: None,
    first: None,
    second: None,
    third: None,
    waiting: Waiting::Nothing,
};

/// Whether a word gives a name numbers.
fn is_parameter(word: &str) -> bool
    ensures { result ≡ model.is_parameter word.now }
{
    word.as_bytes().iter().any(|byte| *byte == b'=')
}

impl<'a> Options<'a> {
    /// The same, where an option waits for its word, unless it was there before.
    fn wait(self, waiting: Waiting, was_there: bool) -> Option<Options<'a>>
        ensures { option_map model.view result ≡ model.wait waiting was_there (model.view self.entry) }
    {
        if was_there {
            return None;
        }
        Some(Options { waiting, ..self })
    }

    /// The same with all figures, or with CSV.
    fn mark(self, all: bool, csv: bool) -> Option<Options<'a>>
        ensures { option_map model.view result ≡ model.mark all csv (model.view self.entry) }
    {
        if (all && self.all) || (csv && self.csv) {
            return None;
        }
        Some(Options {
            all: all || self.all,
            csv: csv || self.csv,
            ..self
        })
    }

    /// The same with a word as `NURSES=2,3`, of which there are at most three.
    fn with_parameter(self, word: &'a str) -> Option<Options<'a>>
        ensures { option_map model.view result ≡ model.with_parameter word.now (model.view self.entry) }
    {
        if !is_parameter(word) {
            return None;
        }
        match (self.first, self.second, self.third) {
            (None, _, _) => Some(Options {
                first: Some(word),
                ..self
            }),
            (Some(_), None, _) => Some(Options {
                second: Some(word),
                ..self
            }),
            (Some(_), Some(_), None) => Some(Options {
                third: Some(word),
                ..self
            }),
            (Some(_), Some(_), Some(_)) => None,
        }
    }

    /// The same with a word at which no option waits.
    fn with_key(self, word: &'a str) -> Option<Options<'a>>
        ensures { option_map model.view result ≡ model.with_key word.now (model.view self.entry) }
    {
        match word {
            "--from" => self.wait(Waiting::From, self.from.is_some()),
            "--seeds" => self.wait(Waiting::Seeds, self.seeds.is_some()),
            "--workers" => self.wait(Waiting::Workers, self.workers.is_some()),
            "--svg" => self.wait(Waiting::Figure, self.figure.is_some()),
            "--all" => self.mark(true, false),
            "--csv" => self.mark(false, true),
            _ => self.with_parameter(word),
        }
    }

    /// The same with a count for `--from`, if there is one.
    fn with_from(self, from: Option<u64>) -> Option<Options<'a>>
        ensures { option_map model.view result ≡ model.with_from from (model.view self.entry) }
    {
        match from {
            Some(count) => Some(Options {
                from: Some(count),
                waiting: Waiting::Nothing,
                ..self
            }),
            None => None,
        }
    }

    /// The same with a number for `--seeds`, if there is one.
    fn with_seeds(self, seeds: Option<u32>) -> Option<Options<'a>>
        ensures { option_map model.view result ≡ model.with_seeds seeds (model.view self.entry) }
    {
        match seeds {
            Some(number) => Some(Options {
                seeds: Some(number),
                waiting: Waiting::Nothing,
                ..self
            }),
            None => None,
        }
    }

    /// The same with a number for `--workers`, if there is one.
    fn with_workers(self, workers: Option<u32>) -> Option<Options<'a>>
        ensures { option_map model.view result ≡ model.with_workers workers (model.view self.entry) }
    {
        match workers {
            Some(number) => Some(Options {
                workers: Some(number),
                waiting: Waiting::Nothing,
                ..self
            }),
            None => None,
        }
    }

    /// The same with the word for which an option waits.
    fn with_value(self, word: &'a str) -> Option<Options<'a>>
        ensures { option_map model.view result ≡ model.with_value word.now (model.view self.entry) }
    {
        match self.waiting {
            Waiting::From => self.with_from(count_in(word)),
            Waiting::Seeds => self.with_seeds(number_in(word)),
            Waiting::Workers => self.with_workers(number_in(word)),
            Waiting::Figure | Waiting::Nothing => Some(Options {
                figure: Some(word),
                waiting: Waiting::Nothing,
                ..self
            }),
        }
    }

    /// The same with one more word.
    fn with_word(self, word: &'a str) -> Option<Options<'a>>
        ensures { option_map model.view result ≡ model.with_word word.now (model.view self.entry) }
    {
        match self.waiting {
            Waiting::Nothing => self.with_key(word),
            _ => self.with_value(word),
        }
    }

    /// The same, if no option waits.
    fn whole(self) -> Option<Options<'a>>
        ensures { option_map model.view result ≡ model.if_whole (model.view self.entry) }
    {
        match self.waiting {
            Waiting::Nothing => Some(self),
            _ => None,
        }
    }
}

/// The options that words name, in any order: `--from W`, `--seeds K`, `--workers N`, `--all`, `--csv`, `--svg FIGURE`, each at
/// most once, and up to three words as `NURSES=2,3`.
#[tactic(auto, unfolding(crate::specs::Options::options_from))]
pub fn options_of(words: &[String]) -> Option<Options<'_>>
    ensures { option_map model.view result ≡ model.options_in (map string_bytes words.now) }
{
    let mut options = NONE;
    for i in 0..words.len() {
        options = options.with_word(words[i].as_str())?;
    }
    options.whole()
}
