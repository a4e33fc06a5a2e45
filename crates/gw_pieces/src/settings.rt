//! What START and RMULT set.

ghost use Rattle.std.specs.Prelude.{◌≡◌, ◌++◌, ◌∷◌, [], OnOk, IfOk, slice_get};
ghost use Rattle.gw_pieces.specs.Settings as model;

use gw_text::{Operand, Statement, Word};
use std::alloc::{AllocError, Global};

/// How many seeds RMULT has.
pub(crate) const SEEDS: usize = 7;

/// The number that is written at a position; 0 where none is.
pub(crate) fn number_at(operands: &[Operand], position: usize) -> i64
    ensures { result ≡ model.number_in (slice_get operands.now position) }
{
    match operands.get(position) {
        Some(Operand::Whole(number)) => *number,
        _ => 0,
    }
}

/// A number that 64 bits hold without a sign; 0 in the place of another.
fn count_from(number: i64) -> u64
    ensures { result ≡ model.natural number }
{
    u64::try_from(number).unwrap_or(0)
}

/// The termination count: that of the first START, or 1.
pub(crate) fn count_of(statements: &[Statement]) -> u64
    ensures { result ≡ model.count_in statements.now }
{
    for statement in statements {
        if statement.word == Word::Start {
            return count_from(number_at(&statement.operands, 0));
        }
    }
    1
}

/// A number that 32 bits hold without a sign; 0 in the place of another.
fn seed_from(number: i64) -> u32
    ensures { result ≡ model.natural_32 number }
{
    u32::try_from(number).unwrap_or(0)
}

/// The seed that a statement gives to a stream, from 0; 0 for none.
fn seed_by(statement: &Statement, stream: usize) -> u32
    ensures { result ≡ model.seed_by statement.now stream }
{
    if statement.word == Word::Rmult {
        seed_from(number_at(&statement.operands, stream))
    } else {
        0
    }
}

/// The later of two seeds, where it is one.
fn later(earlier: u32, later: u32) -> u32
    ensures { result ≡ model.later earlier later }
{
    if later == 0 { earlier } else { later }
}

/// The seed that the statements give to a stream, from 0: that of the last RMULT that gives one, or 0.
fn seed_of(statements: &[Statement], stream: usize) -> u32
    ensures { result ≡ model.seed_from 0 statements.now stream }
{
    let mut seed = 0;
    for statement in statements {
        seed = later(seed, seed_by(statement, stream));
    }
    seed
}

/// The seed of a stream, from 0, behind others.
fn put_seed(seeds: &mut Vec<u32>, statements: &[Statement], stream: usize) -> Result<(), AllocError>
    ensures { OnOk result (model.AddsSeed statements.now stream seeds.old seeds.new) }
{
    seeds
        .push(seed_of(statements, stream))
        .map_err(|_| AllocError)
}

/// The seeds of all streams.
fn all_seeds(alloc: Global, statements: &[Statement]) -> Result<Vec<u32>, AllocError>
    ensures { IfOk result (λ seeds. seeds.items ≡ model.seeds_from statements.now 0 SEEDS) }
{
    let mut seeds = Vec::new(alloc);
    for stream in 0..SEEDS {
        put_seed(&mut seeds, statements, stream)?;
    }
    Ok(seeds)
}

/// How many seeds there are up to the last that isn't 0.
fn used(seeds: &[u32]) -> usize
    ensures used { result ≡ model.used_from 0 0 seeds.now }
{
    let mut used = 0;
    for i in 0..seeds.len() {
        if seeds[i] != 0 {
            used = i + 1;
        }
    }
    used
}

/// The seeds of the streams from the first on, without those of 0 at the end.
pub(crate) fn seeds_of(alloc: Global, statements: &[Statement]) -> Result<Vec<u32>, AllocError>
    ensures { IfOk result (λ seeds. seeds.items ≡ model.seeds_in statements.now) }
{
    let mut seeds = all_seeds(alloc, statements)?;
    let used = used(&seeds);
    seeds.truncate(used);
    Ok(seeds)
}
