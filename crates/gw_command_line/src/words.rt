//! The words of the program's command line.

ghost use Rattle.std.specs.Prelude.{◌≡◌, ◌<◌, ◌≤◌, ◌∷◌, map, option_map, IfSome};
ghost use Rattle.std.specs.String.{string_bytes};
ghost use Rattle.gw_num.specs.Numerals.{number_below};
ghost use Rattle.gw_command_line.specs.Asking.{MayBeMade, MayBeCarriedOut};
ghost use Rattle.gw_command_line.specs.Words as model;
ghost use Rattle.gw_command_line.specs.Words.{act_by, study_demand};

use crate::options::{Options, options_of};
use crate::rows::{LoneRun, Runs, Shard, Summing, lone_run_of, runs_of, shard_of, summing_of};
use gw_explain::advice::advice_on;
use gw_num::{count_in, number_in};

/// At most so many runs are made.
pub const MOST_RUNS: u32 = 512;

/// At most so many workers make them.
pub const MOST_WORKERS: u32 = 16;

/// What is asked of a model and its one run.
#[derive(Clone, Copy, PartialEq, Eq)]
pub enum Question {
    /// What is wrong with it, where, and how to mend it; or what is in it.
    Explain,
    /// Its listed object code, or that of an object.
    List,
    /// The points of its chart, as records.
    Points(Span),
    /// A text of GPSS World in this language.
    Convert,
    /// The steps of its run, from one time of the clock to another.
    Trace {
        /// The first time, in clock units.
        from: i64,
        /// The last time, in clock units.
        to: i64,
    },
    /// What its run reports.
    Report {
        /// The one seed of the seed list; 0 means the model's own seeds.
        seed: u32,
        /// The termination count; 0 means the model's own.
        count: u64,
    },
}

/// From which clock to which a run is shown, both in clock units.
#[derive(Clone, Copy, PartialEq, Eq)]
pub struct Span {
    /// The first clock.
    pub from: u64,
    /// The last clock, which isn't less.
    pub to: u64,
}

/// The whole of any run: no clock is above this.
const WHOLE: Span = Span {
    from: 0,
    to: (1 << 63) - 1,
};

/// What is asked of a chart.
#[derive(Clone, Copy)]
pub struct Chart<'a> {
    /// From when to when the run is shown.
    pub span: Span,
    /// The name of what is run; it may be empty.
    pub name: &'a str,
}

/// What is asked of many runs.
#[derive(Clone, Copy)]
pub struct Study<'a> {
    /// How many runs, 1 to 512.
    pub runs: u32,
    /// The termination count; 0 means the model's own.
    pub count: u64,
    /// The options.
    pub options: Options<'a>,
}

/// A command of the program.
#[derive(Clone, Copy)]
pub enum Command<'a> {
    /// Something is asked of a model.
    Ask(Question),
    /// The contents of a model's run over time, as a picture.
    Chart(Chart<'a>),
    /// What the code of a refusal means.
    Code(u16),
    /// How the program is used.
    Help,
    /// Which version it is.
    Version,
    /// What many runs of a model say, or of the model with other numbers.
    Study(Study<'a>),
    /// What many runs of two models say, beside one another.
    Compare(Study<'a>),
    /// Runs as rows.
    Runs(Runs<'a>),
    /// What rows of runs say.
    Summary(Summing),
    /// The object of a run.
    Object(LoneRun<'a>),
    /// The rows of a share of an experiment.
    Shard(Shard),
}

/// A time of the clock.
fn clock_in(word: &str) -> Option<i64>
    ensures { result ≡ model.clock_in word.now }
{
    match count_in(word) {
        Some(time) if time < 1 << 63 => Some(time as i64),
        _ => None,
    }
}

/// How many runs there are.
fn runs_in(word: &str) -> Option<u32>
    ensures value { result ≡ model.runs_in word.now }
    ensures range { IfSome result (λ runs. (0 < runs) × (runs ≤ 512)) }
{
    match number_in(word) {
        Some(runs) if runs >= 1 && runs <= MOST_RUNS => Some(runs),
        _ => None,
    }
}

/// The command that explains a code, if this is one.
fn explanation_of(code: u16) -> Option<Command<'static>>
    ensures { act_by result ≡ model.explanation_of code }
{
    match advice_on(code) {
        Some(_) => Some(Command::Code(code)),
        None => None,
    }
}

/// The command that explains the code that a word says.
fn explanation_in(word: &str) -> Option<Command<'static>>
    ensures { act_by result ≡ model.explanation_in (number_below 1000 word.now) }
{
    match number_in(word) {
        Some(code) if code < 1000 => explanation_of(code as u16),
        _ => None,
    }
}

/// The command that one word names.
fn command_named(name: &str) -> Option<Command<'static>>
    ensures { act_by result ≡ model.command_named name.now }
{
    match name {
        "explain" => Some(Command::Ask(Question::Explain)),
        "list" => Some(Command::Ask(Question::List)),
        "chart" => Some(Command::Chart(Chart {
            span: WHOLE,
            name: "",
        })),
        "points" => Some(Command::Ask(Question::Points(WHOLE))),
        "convert" => Some(Command::Ask(Question::Convert)),
        "report" => Some(Command::Ask(Question::Report { seed: 0, count: 0 })),
        "help" | "--help" => Some(Command::Help),
        "--version" => Some(Command::Version),
        _ => None,
    }
}

/// The command that two words name: `explain` of a code.
fn command_of_two(name: &str, first: &str) -> Option<Command<'static>>
    ensures { act_by result ≡ model.command_of_two name.now first.now }
{
    match name {
        "explain" => explanation_in(first),
        _ => None,
    }
}

/// From when to when, where both words are times and the second isn't before the first.
fn span_of(from: &str, to: &str) -> Option<Span>
    ensures { result ≡ model.span_of from.now to.now }
{
    let from = count_in(from)?;
    let to = count_in(to)?;
    if from <= to && to < 1 << 63 {
        Some(Span { from, to })
    } else {
        None
    }
}

/// Whether a word may be a name in a title: it has no control characters, which XML hasn't.
fn is_name(word: &str) -> bool
    ensures { result ≡ model.is_name word.now }
{
    word.as_bytes().iter().all(|byte| *byte >= 32)
}

/// The command `chart` of a part of a run, under a name.
fn chart_named(span: Span, name: &str) -> Option<Command<'_>>
    ensures command { act_by result ≡ model.chart_named span name.now }
    ensures fit { IfSome result MayBeCarriedOut }
{
    if is_name(name) {
        Some(Command::Chart(Chart { span, name }))
    } else {
        None
    }
}

/// The command `points`, where both words are times.
fn points_of(from: &str, to: &str) -> Option<Command<'static>>
    ensures command { act_by result
        ≡ model.points_of (model.span_of from.now to.now) }
    ensures fit { IfSome result MayBeCarriedOut }
{
    let span = span_of(from, to)?;
    Some(Command::Ask(Question::Points(span)))
}

/// The command `chart`, where both words are times, under a name.
fn chart_of<'a>(from: &str, to: &str, name: &'a str) -> Option<Command<'a>>
    ensures command { act_by result
        ≡ model.chart_of (model.span_of from.now to.now) name.now }
    ensures fit { IfSome result MayBeCarriedOut }
{
    match span_of(from, to) {
        Some(span) => chart_named(span, name),
        None => None,
    }
}

/// The command `chart` of a whole run or from a time to another: two words are `--name` and a name, or times.
fn chart_of_two<'a>(first: &str, second: &'a str) -> Option<Command<'a>>
    ensures command { act_by result ≡ model.chart_of_two first.now second.now }
    ensures fit { IfSome result MayBeCarriedOut }
{
    if first == "--name" {
        return chart_named(WHOLE, second);
    }
    chart_of(first, second, "")
}

/// The command that five words name: `chart`, two times, `--name` and a name.
fn command_of_five<'a>(
    name: &str,
    first: &str,
    second: &str,
    key: &str,
    title: &'a str,
) -> Option<Command<'a>>
    ensures command { act_by result
        ≡ model.command_of_five name.now first.now second.now key.now title.now }
    ensures fit { IfSome result MayBeCarriedOut }
{
    if name == "chart" && key == "--name" {
        chart_of(first, second, title)
    } else {
        None
    }
}

/// The command `trace`, where both words are times.
fn trace_of(from: &str, to: &str) -> Option<Command<'static>>
    ensures command { act_by result
        ≡ model.trace_of_words from.now to.now }
    ensures fit { IfSome result MayBeCarriedOut }
{
    let from = clock_in(from)?;
    let to = clock_in(to)?;
    Some(Command::Ask(Question::Trace { from, to }))
}

/// The command `report`, where the words are a seed and a count.
fn report_of(seed: &str, count: &str) -> Option<Command<'static>>
    ensures command { act_by result
        ≡ model.report_of_words seed.now count.now }
    ensures fit { IfSome result MayBeCarriedOut }
{
    let seed = number_in(seed)?;
    let count = count_in(count)?;
    Some(Command::Ask(Question::Report { seed, count }))
}

/// The command that three words name: `chart`, `points`, `trace` or `report`.
fn command_of_three<'a>(name: &str, first: &str, second: &'a str) -> Option<Command<'a>>
    ensures command { act_by result
        ≡ model.command_of_three name.now first.now second.now }
    ensures fit { IfSome result MayBeCarriedOut }
{
    match name {
        "chart" => chart_of_two(first, second),
        "points" => points_of(first, second),
        "trace" => trace_of(first, second),
        "report" => report_of(first, second),
        _ => None,
    }
}

/// Whether so many runs may be made as options say.
fn is_fit(runs: u32, options: &Options<'_>) -> bool
    requires { runs ≤ 512 }
    ensures { result ≡ model.is_fit runs (model.view options.now) }
{
    let seeds = u64::from(options.seeds.unwrap_or(1));
    let workers = options.workers.unwrap_or(1);
    seeds >= 1
        && u64::from(runs) * seeds <= u64::from(MOST_RUNS)
        && workers >= 1
        && workers <= MOST_WORKERS
        && !(options.csv && options.figure.is_some())
}

/// A study of so many runs, if they may be made as options say.
fn study_if_fit(runs: u32, count: u64, options: Options<'_>) -> Option<Study<'_>>
    requires { (0 < runs) × (runs ≤ 512) }
    ensures study { study_demand result
        ≡ model.study_if_fit runs count (model.view options.entry) }
    ensures fit { IfSome result MayBeMade }
{
    if is_fit(runs, &options) {
        Some(Study {
            runs,
            count,
            options,
        })
    } else {
        None
    }
}

/// A study of so many runs, with the options that words name.
fn study_with<'a>(runs: u32, count: u64, words: &'a [String]) -> Option<Study<'a>>
    requires { (0 < runs) × (runs ≤ 512) }
    ensures study { study_demand result
        ≡ model.study_with runs count (map string_bytes words.now) }
    ensures fit { IfSome result MayBeMade }
{
    match options_of(words) {
        Some(options) => study_if_fit(runs, count, options),
        None => None,
    }
}

/// The count that the first of these words is, if it is one.
pub(crate) fn first_count(words: &[String]) -> Option<u64>
    ensures { result ≡ model.first_count (map string_bytes words.now) }
{
    match words {
        [word, ..] => count_in(word.as_str()),
        [] => None,
    }
}

/// Words but the first.
pub(crate) fn behind_first(words: &[String]) -> &[String]
    ensures { map string_bytes result.now ≡ model.behind_first (map string_bytes words.now) }
{
    match words {
        [_, rest @ ..] => rest,
        [] => &[],
    }
}

/// A study of so many runs: its count, if the first word is one, and its options.
fn study_of_runs(runs: u32, words: &[String]) -> Option<Study<'_>>
    requires { (0 < runs) × (runs ≤ 512) }
    ensures study { study_demand result
        ≡ model.study_of_runs runs (map string_bytes words.now) }
    ensures fit { IfSome result MayBeMade }
{
    match first_count(words) {
        Some(count) => study_with(runs, count, behind_first(words)),
        None => study_with(runs, 0, words),
    }
}

/// The study that words ask for: how many runs, perhaps a count, and options.
fn study_of(words: &[String]) -> Option<Study<'_>>
    ensures study { study_demand result ≡ model.study_of (map string_bytes words.now) }
    ensures fit { IfSome result MayBeMade }
{
    match words {
        [runs, rest @ ..] => match runs_in(runs.as_str()) {
            Some(runs) => study_of_runs(runs, rest),
            None => None,
        },
        [] => None,
    }
}

/// The command `study`.
fn studies(words: &[String]) -> Option<Command<'_>>
    ensures command { act_by result
        ≡ model.studies (model.study_of (map string_bytes words.now)) }
    ensures fit { IfSome result MayBeCarriedOut }
{
    match study_of(words) {
        Some(study) => Some(Command::Study(study)),
        None => None,
    }
}

/// The command `compare`, which has no words as `NURSES=2,3`.
fn compares(words: &[String]) -> Option<Command<'_>>
    ensures command { act_by result
        ≡ model.compares (model.study_of (map string_bytes words.now)) }
    ensures fit { IfSome result MayBeCarriedOut }
{
    match study_of(words) {
        Some(study) => {
            if study.options.first.is_none() {
                Some(Command::Compare(study))
            } else {
                None
            }
        }
        None => None,
    }
}

/// The command `runs`.
fn rows(words: &[String]) -> Option<Command<'_>>
    ensures command { act_by result
        ≡ option_map model.Rows (model.runs_of (map string_bytes words.now)) }
    ensures fit { IfSome result MayBeCarriedOut }
{
    match runs_of(words) {
        Some(runs) => Some(Command::Runs(runs)),
        None => None,
    }
}

/// The command `summary`.
fn sums(words: &[String]) -> Option<Command<'_>>
    ensures command { act_by result
        ≡ option_map model.Sums (model.summing_of (map string_bytes words.now)) }
    ensures fit { IfSome result MayBeCarriedOut }
{
    match summing_of(words) {
        Some(summing) => Some(Command::Summary(summing)),
        None => None,
    }
}

/// The command `object`.
fn object(words: &[String]) -> Option<Command<'_>>
    ensures command { act_by result
        ≡ option_map model.Object (model.lone_run_of (map string_bytes words.now)) }
    ensures fit { IfSome result MayBeCarriedOut }
{
    match lone_run_of(words) {
        Some(run) => Some(Command::Object(run)),
        None => None,
    }
}

/// The command `shard`.
fn shares(words: &[String]) -> Option<Command<'_>>
    ensures command { act_by result
        ≡ option_map model.Shares (model.shard_of (map string_bytes words.now)) }
    ensures fit { IfSome result MayBeCarriedOut }
{
    match shard_of(words) {
        Some(shard) => Some(Command::Shard(shard)),
        None => None,
    }
}

/// The command that more than three words name.
#[tactic(auto, using(crate::proofs::Fewness::none_of_more))]
fn command_of_more(words: &[String]) -> Option<Command<'_>>
    ensures command { act_by result
        ≡ model.command_of_more (map string_bytes words.now) }
    ensures fit { IfSome result MayBeCarriedOut }
{
    match words {
        [name, first, second, key, title] => command_of_five(name, first, second, key, title),
        _ => None,
    }
}

/// The command that a few words name.
fn command_of_few(words: &[String]) -> Option<Command<'_>>
    ensures command { act_by result
        ≡ model.command_of_few (map string_bytes words.now) }
    ensures fit { IfSome result MayBeCarriedOut }
{
    match words {
        [name] => command_named(name),
        [name, first] => command_of_two(name, first),
        [name, first, second] => command_of_three(name, first, second),
        _ => command_of_more(words),
    }
}

/// The command that a name and the words behind it are.
#[tactic(auto, using(crate::proofs::Fewness::by_few))]
fn command_with<'a>(name: &str, behind: &'a [String], words: &'a [String]) -> Option<Command<'a>>
    requires { map string_bytes words.now ≡ name.now ∷ map string_bytes behind.now }
    ensures command { act_by result ≡ model.command_in (map string_bytes words.now) }
    ensures fit { IfSome result MayBeCarriedOut }
{
    if name == "study" {
        studies(behind)
    } else if name == "compare" {
        compares(behind)
    } else if name == "runs" {
        rows(behind)
    } else if name == "summary" {
        sums(behind)
    } else if name == "object" {
        object(behind)
    } else if name == "shard" {
        shares(behind)
    } else {
        command_of_few(words)
    }
}

/// The command that these words name: `explain`, and perhaps the code of a refusal; `list`, `convert`; `trace` and two times below 2^63;
/// `points`, and perhaps two times of which the second isn't before the first; `chart`, and perhaps such times, and perhaps `--name`
/// and a name without control characters; `report`, and perhaps a seed below 2^32 and a count below 2^64; `study` or `compare`, a
/// number of runs, 1 to 512, perhaps a count below 2^64, and options ([`Options`]); `help`, `--help` or `--version`. Numbers are in
/// decimal digits alone. As many studies of so many runs may be asked for as 512 runs have; there may be 1 to 16 workers; CSV and a
/// picture aren't asked for at once.
pub fn command_of(words: &[String]) -> Option<Command<'_>>
    ensures command { act_by result ≡ model.command_in (map string_bytes words.now) }
    ensures fit { IfSome result MayBeCarriedOut }
{
    match words {
        [name, behind @ ..] => command_with(name.as_str(), behind, words),
        [] => None,
    }
}
