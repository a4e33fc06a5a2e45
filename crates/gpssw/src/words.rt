//! The words of the program's command line.

ghost use Rattle.std.specs.Prelude.{◌≡◌, ◌^◌, map};
ghost use Rattle.std.specs.String.{string_bytes};
ghost use Rattle.gpssw.specs.Words as words;
ghost use Rattle.gw_num.specs.Numerals.{number_below};
ghost use Rattle.gpssw.specs.Words.{run_of, pool_of, command_named as named_by, command_in};

use gw_answers::Request;
use gw_num::{count_in, number_in};

/// A command of the program.
#[derive(Clone, Copy, PartialEq, Eq)]
pub enum Command {
    /// Reads one input, a model text or an object, and writes what answers a request: `asm`, `check` or `run`.
    Single(Request),
    /// Reads a batch of objects, and writes the reports of their jobs, which workers run side by side.
    Pool {
        /// How many workers there are.
        workers: u32,
        /// How many steps a slice of a worker has.
        slice: u32,
        /// Whether the words ask for lines on standard error that tell how far it is.
        is_watched: bool,
    },
}

/// The command `run`, where both words spell numbers in range.
fn run_with(seed: &str, count: &str) -> Option<Command>
    ensures { result ≡ run_of (number_below (2 ^ 32) seed.now) (number_below (2 ^ 64) count.now) }
{
    let seed = number_in(seed)?;
    let count = count_in(count)?;
    Some(Command::Single(Request::Run { seed, count }))
}

/// The command that one word names: `asm` or `check`.
fn command_named(name: &str) -> Option<Command>
    ensures { result ≡ named_by name.now }
{
    match name {
        "asm" => Some(Command::Single(Request::Asm)),
        "check" => Some(Command::Single(Request::Check)),
        _ => None,
    }
}

/// The command `pool`, watched or not, where both words spell numbers below 2^32.
fn pool_with(workers: &str, slice: &str, is_watched: bool) -> Option<Command>
    ensures { result ≡ pool_of
        is_watched (number_below (2 ^ 32) workers.now) (number_below (2 ^ 32) slice.now) }
{
    let workers = number_in(workers)?;
    let slice = number_in(slice)?;
    Some(Command::Pool {
        workers,
        slice,
        is_watched,
    })
}

/// The command that a word names which two others follow: `run` or `pool`.
fn command_with(name: &str, first: &str, second: &str) -> Option<Command>
    ensures { result ≡ words.command_with name.now first.now second.now }
{
    match name {
        "run" => run_with(first, second),
        "pool" => pool_with(first, second, false),
        _ => None,
    }
}

/// The command that a word names which three others follow: `pool`, where the last is `-v`.
fn command_before(name: &str, first: &str, second: &str, last: &str) -> Option<Command>
    ensures { result ≡ words.command_before name.now first.now second.now last.now }
{
    match (name, last) {
        ("pool", "-v") => pool_with(first, second, true),
        _ => None,
    }
}

/// The command that these words name: `asm`; `check`; `run`, a seed below 2^32 and a count below 2^64; or `pool`, two numbers below
/// 2^32, and perhaps `-v`. Numbers are in decimal digits alone.
pub fn command_of(words: &[String]) -> Option<Command>
    ensures { result ≡ command_in (map string_bytes words.now) }
{
    match words {
        [name] => command_named(name),
        [name, first, second] => command_with(name, first, second),
        [name, first, second, last] => command_before(name, first, second, last),
        _ => None,
    }
}
