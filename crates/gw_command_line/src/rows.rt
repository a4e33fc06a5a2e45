//! The words of the commands for many machines: `runs`, `summary`, `object` and `shard`.

ghost use Rattle.std.specs.Prelude.{◌≡◌, ◌==◌, map, option_copied, option_map, IfSome};
ghost use Rattle.std.specs.List.{list_any};
ghost use Rattle.std.specs.String.{string_bytes};
ghost use Rattle.gw_command_line.specs.Options.{view};
ghost use Rattle.gw_command_line.specs.Rows as model;
ghost use Rattle.gw_command_line.specs.Rows.{lone_demand, runs_between_words, runs_demand};
ghost use Rattle.gw_command_line.specs.Asking.{AreRunsFit, IsRunFit, IsShardFit, IsSummingFit};

use crate::options::{Options, options_of};
use crate::words::{MOST_RUNS, MOST_WORKERS, behind_first, first_count};
use gw_num::number_in;

/// Which runs' rows are asked for.
#[derive(Clone, Copy)]
pub struct Runs<'a> {
    /// The first run.
    pub first: u32,
    /// The run behind the last one, at most 512.
    pub end: u32,
    /// The termination count; 0 means the model's own.
    pub count: u64,
    /// The options: where the window begins, how many workers there are, and words as `NURSES=2,3`.
    pub options: Options<'a>,
}

/// Which run's object is asked for.
#[derive(Clone, Copy)]
pub struct LoneRun<'a> {
    /// The run.
    pub run: u32,
    /// The termination count; 0 means the model's own.
    pub count: u64,
    /// The options: words as `NURSES=2`.
    pub options: Options<'a>,
}

/// Which share of an experiment is asked for.
#[derive(Clone, Copy, PartialEq, Eq)]
pub struct Shard {
    /// Its number, from 0.
    pub number: u32,
    /// How many shares there are.
    pub shares: u32,
    /// How many workers make its runs; 0 means as many as there are processors.
    pub workers: u32,
}

/// What a summary is asked for.
#[derive(Clone, Copy, PartialEq, Eq)]
pub struct Summing {
    /// Of which study of so many runs the rows have to be, from 1.
    pub seeds: u32,
    /// Whether all figures are told.
    pub all: bool,
}

/// Whether no option is there that tells of figures or of studies.
fn is_of_runs(options: &Options<'_>) -> bool
    ensures { result ≡ model.is_of_runs (view options.now) }
{
    options.seeds.is_none() && !options.all && !options.csv && options.figure.is_none()
}

/// Whether there may be as many workers as options say.
fn has_workers(options: &Options<'_>) -> bool
    ensures { result ≡ model.has_workers (view options.now) }
{
    let workers = options.workers.unwrap_or(1);
    workers >= 1 && workers <= MOST_WORKERS
}

/// The runs from one to another, with options, if there may be such.
fn runs_if_fit(first: u32, end: u32, count: u64, options: Options<'_>) -> Option<Runs<'_>>
    ensures runs { runs_demand result
        ≡ model.runs_if_fit first end count (view options.entry) }
    ensures fit { IfSome result AreRunsFit }
{
    if first <= end && end <= MOST_RUNS && is_of_runs(&options) && has_workers(&options) {
        Some(Runs {
            first,
            end,
            count,
            options,
        })
    } else {
        None
    }
}

/// The same with options in words.
fn runs_with<'a>(first: u32, end: u32, count: u64, words: &'a [String]) -> Option<Runs<'a>>
    ensures runs { runs_demand result
        ≡ model.runs_with first end count (map string_bytes words.now) }
    ensures fit { IfSome result AreRunsFit }
{
    match options_of(words) {
        Some(options) => runs_if_fit(first, end, count, options),
        None => None,
    }
}

/// The same, where a count may stand before the options.
fn runs_counted<'a>(first: u32, end: u32, words: &'a [String]) -> Option<Runs<'a>>
    ensures runs { runs_demand result
        ≡ model.runs_from_to first end (map string_bytes words.now) }
    ensures fit { IfSome result AreRunsFit }
{
    match first_count(words) {
        Some(count) => runs_with(first, end, count, behind_first(words)),
        None => runs_with(first, end, 0, words),
    }
}

/// The runs between two words.
fn runs_between<'a>(first: &str, end: &str, words: &'a [String]) -> Option<Runs<'a>>
    ensures runs { runs_demand result
        ≡ runs_between_words first.now end.now (map string_bytes words.now) }
    ensures fit { IfSome result AreRunsFit }
{
    match (number_in(first), number_in(end)) {
        (Some(first), Some(end)) => runs_counted(first, end, words),
        _ => None,
    }
}

/// The runs whose rows words ask for: the first, the one behind the last, perhaps a count, and options.
pub(crate) fn runs_of(words: &[String]) -> Option<Runs<'_>>
    ensures runs { runs_demand result ≡ model.runs_of (map string_bytes words.now) }
    ensures fit { IfSome result AreRunsFit }
{
    match words {
        [first, end, behind @ ..] => runs_between(first.as_str(), end.as_str(), behind),
        _ => None,
    }
}

/// Whether a word has a `,`.
fn has_comma(word: &str) -> bool
    ensures { result ≡ list_any (λ byte. byte == 44) word.now }
{
    word.as_bytes().iter().any(|byte| *byte == b',')
}

/// Whether a word gives a name one number, if there is a word.
fn is_single(word: Option<&str>) -> bool
    ensures { result ≡ model.is_single (option_copied word.entry) }
{
    match word {
        Some(word) => !has_comma(word),
        None => true,
    }
}

/// Whether options have nothing but words as `NURSES=2`.
fn is_of_point(options: &Options<'_>) -> bool
    ensures { result ≡ model.is_of_point (view options.now) }
{
    is_of_runs(options)
        && options.from.is_none()
        && options.workers.is_none()
        && is_single(options.first)
        && is_single(options.second)
        && is_single(options.third)
}

/// A run with options, if there may be such.
fn lone_if_fit(run: u32, count: u64, options: Options<'_>) -> Option<LoneRun<'_>>
    ensures run { lone_demand result ≡ model.lone_if_fit run count (view options.entry) }
    ensures fit { IfSome result IsRunFit }
{
    if run < MOST_RUNS && is_of_point(&options) {
        Some(LoneRun {
            run,
            count,
            options,
        })
    } else {
        None
    }
}

/// The same with options in words.
fn lone_with<'a>(run: u32, count: u64, words: &'a [String]) -> Option<LoneRun<'a>>
    ensures run { lone_demand result ≡ model.lone_with run count (map string_bytes words.now) }
    ensures fit { IfSome result IsRunFit }
{
    match options_of(words) {
        Some(options) => lone_if_fit(run, count, options),
        None => None,
    }
}

/// The same, where a count may stand before the options.
fn lone_counted<'a>(run: u32, words: &'a [String]) -> Option<LoneRun<'a>>
    ensures run { lone_demand result ≡ model.lone_of_run run (map string_bytes words.now) }
    ensures fit { IfSome result IsRunFit }
{
    match first_count(words) {
        Some(count) => lone_with(run, count, behind_first(words)),
        None => lone_with(run, 0, words),
    }
}

/// The same, where a word is the number of the run.
fn lone_numbered<'a>(run: &str, words: &'a [String]) -> Option<LoneRun<'a>>
    ensures run { lone_demand result
        ≡ model.lone_of_word run.now (map string_bytes words.now) }
    ensures fit { IfSome result IsRunFit }
{
    match number_in(run) {
        Some(run) => lone_counted(run, words),
        None => None,
    }
}

/// The run whose object words ask for: its number, perhaps a count, and words as `NURSES=2`.
pub(crate) fn lone_run_of(words: &[String]) -> Option<LoneRun<'_>>
    ensures run { lone_demand result ≡ model.lone_run_of (map string_bytes words.now) }
    ensures fit { IfSome result IsRunFit }
{
    match words {
        [run, behind @ ..] => lone_numbered(run.as_str(), behind),
        [] => None,
    }
}

/// Whether options have nothing but a number of workers.
fn is_of_shard(options: &Options<'_>) -> bool
    ensures { result ≡ model.is_of_shard (view options.now) }
{
    is_of_runs(options) && options.from.is_none() && options.first.is_none() && has_workers(options)
}

/// The share of a number, of so many.
fn shard_if_fit(number: u32, shares: u32, options: &Options<'_>) -> Option<Shard>
    ensures shard { result ≡ model.shard_if_fit number shares (view options.now) }
    ensures fit { IfSome result IsShardFit }
{
    if number < shares && is_of_shard(options) {
        Some(Shard {
            number,
            shares,
            workers: options.workers.unwrap_or(0),
        })
    } else {
        None
    }
}

/// The same of words.
fn shard_with(number: &str, shares: &str, words: &[String]) -> Option<Shard>
    ensures shard { result
        ≡ model.shard_of_words number.now shares.now (map string_bytes words.now) }
    ensures fit { IfSome result IsShardFit }
{
    match (number_in(number), number_in(shares), options_of(words)) {
        (Some(number), Some(shares), Some(options)) => shard_if_fit(number, shares, &options),
        _ => None,
    }
}

/// What stands before the first `/` of a word, and what follows it.
fn cut_at_slash(word: &str) -> Option<(&str, &str)>
    ensures { option_map (λ cut. (cut.0.now, cut.1.now)) result ≡ model.cut_at_slash word.now }
{
    word.split_once('/')
}

/// The share that a word as `3/20` and others ask for.
fn shard_cut(word: &str, words: &[String]) -> Option<Shard>
    ensures shard { result ≡ model.shard_cut (map string_bytes words.now) (model.cut_at_slash word.now) }
    ensures fit { IfSome result IsShardFit }
{
    match cut_at_slash(word) {
        Some((number, shares)) => shard_with(number, shares, words),
        None => None,
    }
}

/// The share that words ask for: as `3/20`, from 0, and perhaps a number of workers.
pub(crate) fn shard_of(words: &[String]) -> Option<Shard>
    ensures shard { result ≡ model.shard_of (map string_bytes words.now) }
    ensures fit { IfSome result IsShardFit }
{
    match words {
        [word, behind @ ..] => shard_cut(word.as_str(), behind),
        [] => None,
    }
}

/// Whether options have nothing but `--seeds` and `--all`.
fn is_of_summary(options: &Options<'_>) -> bool
    ensures { result ≡ model.is_of_summary (view options.now) }
{
    options.from.is_none()
        && options.workers.is_none()
        && !options.csv
        && options.figure.is_none()
        && options.first.is_none()
}

/// A summary with options, if there may be such.
fn summing_if_fit(options: &Options<'_>) -> Option<Summing>
    ensures summing { result ≡ model.summing_if_fit (view options.now) }
    ensures fit { IfSome result IsSummingFit }
{
    let seeds = options.seeds.unwrap_or(1);
    if seeds >= 1 && seeds <= MOST_RUNS && is_of_summary(options) {
        Some(Summing {
            seeds,
            all: options.all,
        })
    } else {
        None
    }
}

/// What words ask of a summary: `--seeds K` and `--all`.
pub(crate) fn summing_of(words: &[String]) -> Option<Summing>
    ensures summing { result ≡ model.summing_of (map string_bytes words.now) }
    ensures fit { IfSome result IsSummingFit }
{
    match options_of(words) {
        Some(options) => summing_if_fit(&options),
        None => None,
    }
}
