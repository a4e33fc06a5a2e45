//! Leaps: many rounds at once, where each only lowers amounts, and as the one before it did.

ghost use Rattle.std.specs.Prelude.{◌≡◌, ◌≤◌, ◌<◌, IfOk, length, false};
ghost use Rattle.gw_settle.specs.Drafts.{rows_held, held_after, AreNoted, AreRounds, HeldAdvance, DraftAdvances, DraftJumps};
ghost use Rattle.gw_settle.specs.Keeps.{IsWell};
ghost use Rattle.gw_settle.specs.Rounds.{AreReached, change_in, round};
ghost use Rattle.gw_settle.specs.Jumps as model;

use crate::draft::{Draft, TableRows, draft_of, rows_shared};
use crate::falls::may_jump;
use crate::known::Known;
use crate::pace::Pace;
use crate::passing::are_same_params;
use crate::table::{Change, next_round};
use gw_flow::Amount;
use gw_object::{Memory, Parts};
use std::alloc::Global;

/// The fewest rounds that are worth a jump.
const FEWEST: u64 = 64;

/// The row of a place once its amounts have fallen so many times.
fn place_after(
    alloc: Global,
    place: &Option<Known>,
    next: &Option<Known>,
    times: u64,
) -> Result<Option<Known>, Memory>
    ensures { IfOk result (λ row. row ≡ model.place_after times place.now next.now) }
{
    let Some(row) = place else {
        return Ok(None);
    };
    match next {
        Some(next) => Ok(Some(row.after(alloc, next, times)?)),
        None => Ok(Some(row.share()?)),
    }
}

/// The rows of places once their amounts have fallen so many times.
fn places_after(
    alloc: Global,
    rows: &[Option<Known>],
    next: &[Option<Known>],
    times: u64,
) -> Result<Vec<Option<Known>>, Memory>
    requires { length next.now ≡ length rows.now }
    ensures { IfOk result (λ all. all.items ≡ model.places_after times rows.now next.now) }
{
    let mut all = Vec::with_capacity(alloc, rows.len())?;
    for i in 0..rows.len() {
        all.push(place_after(alloc, &rows[i], &next[i], times)?)?;
    }
    Ok(all)
}

/// The rows of a table once their amounts have fallen so many times.
fn rows_after(
    alloc: Global,
    rows: &TableRows,
    next: &TableRows,
    times: u64,
) -> Result<TableRows, Memory>
    requires blocks { length next.now.blocks.items ≡ length rows.now.blocks.items }
    requires chains { length next.now.chains.items ≡ length rows.now.chains.items }
    ensures { IfOk result (λ all. rows_held all ≡ held_after times rows.now next.now) }
{
    let blocks = places_after(alloc, &rows.blocks, &next.blocks, times)?;
    let chains = places_after(alloc, &rows.chains, &next.chains, times)?;
    Ok(TableRows { blocks, chains })
}

/// How many times an amount, which stands at a place, from 0, can fall by as much as to the next row, so that as much is left
/// after one more; no more than this, and none where it falls by less in the second.
fn times_of(amount: &Amount, place: usize, next: &Known, second: &Known, most: u64) -> u64
    ensures { result ≤ most }
{
    let after_one = next.units_near(place, amount.entity);
    let fall = amount.number.saturating_sub(after_one);
    if fall > after_one.saturating_sub(second.units_near(place, amount.entity)) {
        return 0;
    }
    if fall == 0 {
        return most;
    }
    most.min((amount.number / fall).saturating_sub(2))
}

/// How many times each amount of a row can fall so; none where more than amounts has changed.
fn times_in_row(row: &Known, next: &Known, second: &Known, most: u64) -> u64
    ensures { result ≤ most }
{
    if !are_same_params(next.params(), row.params()) {
        return 0;
    }
    let units = row.units();
    let mut times = most;
    for i in 0..units.len() {
        times = times_of(&units[i], i, next, second, times);
        if times == 0 {
            return 0;
        }
    }
    times
}

/// The same where there may be no row.
fn times_at(place: &Option<Known>, next: &Option<Known>, second: &Option<Known>, most: u64) -> u64
    ensures { result ≤ most }
{
    let Some(row) = place else {
        return most;
    };
    let Some(next) = next else {
        return 0;
    };
    match second {
        Some(second) => times_in_row(row, next, second, most),
        None => 0,
    }
}

/// The same of the rows of all places.
fn times_in(
    rows: &[Option<Known>],
    next: &[Option<Known>],
    second: &[Option<Known>],
    most: u64,
) -> u64
    ensures { result ≤ most }
{
    let count = rows.len().min(next.len()).min(second.len());
    let mut times = most;
    for i in 0..count {
        times = times_at(&rows[i], &next[i], &second[i], times);
        if times == 0 {
            return 0;
        }
    }
    times
}

/// Jumps over so many rounds, and makes one more, if these and the two that were made lower amounts alone and alike.
fn jump_over(
    alloc: Global,
    parts: &Parts,
    times: u64,
    near: &TableRows,
    next: &TableRows,
    draft: &mut Draft,
) -> Result<bool, Memory>
    requires times { 0 < times }
    requires well { IsWell parts.now }
    requires rounds { AreRounds parts.now near.now next.now draft.old }
    ensures rows { IfOk result (λ _. DraftJumps parts.now next.now draft.old draft.new) }
    ensures stays { IfOk result (λ jumped. jumped ≡ false → draft.new ≡ draft.old) }
    ensures noted { IfOk result (λ _. AreNoted parts.now draft.new) }
{
    let far = rows_after(alloc, near, next, times)?;
    let mut last = draft_of(alloc, parts, far)?;
    next_round(alloc, parts, &mut last)?;
    if !may_jump(parts, times, near, next, &draft.rows, &last.rows) {
        return Ok(false);
    }
    *draft = last;
    Ok(true)
}

/// Jumps over as many rounds as it may, or half as many, and so on, if there are enough.
fn jump(
    alloc: Global,
    parts: &Parts,
    near: &TableRows,
    next: &TableRows,
    draft: &mut Draft,
    pace: &mut Pace,
) -> Result<(), Memory>
    requires well { IsWell parts.now }
    requires rounds { AreRounds parts.now near.now next.now draft.old }
    ensures rows { IfOk result (λ _. DraftJumps parts.now next.now draft.old draft.new) }
    ensures noted { IfOk result (λ _. AreNoted parts.now draft.new) }
{
    let second = &draft.rows;
    let most = times_in(
        &near.blocks,
        &next.blocks,
        &second.blocks,
        u64::from(u32::MAX),
    );
    let mut times = times_in(&near.chains, &next.chains, &second.chains, most);
    while times >= FEWEST {
        if jump_over(alloc, parts, times, near, next, draft)? {
            pace.shorten();
            return Ok(());
        }
        times /= 2;
    }
    pace.lengthen();
    Ok(())
}

/// A second round, where the first one lowered these near rows to the next, and then a jump, if both lower amounts alone and
/// alike.
fn leap_on(
    alloc: Global,
    parts: &Parts,
    near: &TableRows,
    next: &TableRows,
    draft: &mut Draft,
    pace: &mut Pace,
) -> Result<Change, Memory>
    requires well { IsWell parts.now }
    requires reached { AreReached parts.now (rows_held near.now) }
    requires less { change_in parts.now (rows_held near.now) ≡ Change.Less }
    requires first { rows_held draft.old.rows ≡ round parts.now (rows_held near.now) }
    requires next { rows_held next.now ≡ rows_held draft.old.rows }
    requires noted { AreNoted parts.now draft.old }
    ensures rows { IfOk result (HeldAdvance parts.now near.now draft.new.rows) }
    ensures noted { IfOk result (λ _. AreNoted parts.now draft.new) }
{
    let second = next_round(alloc, parts, draft)?;
    if second == Change::More {
        return Ok(Change::More);
    }
    jump(alloc, parts, near, next, draft, pace)?;
    Ok(Change::Less)
}

/// Two rounds from these rows on, and then a jump, if they lower amounts alone and alike.
fn leap(
    alloc: Global,
    parts: &Parts,
    near: &TableRows,
    draft: &mut Draft,
    pace: &mut Pace,
) -> Result<Change, Memory>
    requires well { IsWell parts.now }
    requires reached { AreReached parts.now (rows_held near.now) }
    requires near { rows_held near.now ≡ rows_held draft.old.rows }
    requires noted { AreNoted parts.now draft.old }
    ensures rows { IfOk result (HeldAdvance parts.now near.now draft.new.rows) }
    ensures noted { IfOk result (λ _. AreNoted parts.now draft.new) }
{
    let first = next_round(alloc, parts, draft)?;
    if first != Change::Less {
        return Ok(first);
    }
    let next = rows_shared(alloc, &draft.rows)?;
    let change = leap_on(alloc, parts, near, &next, draft, pace);
    drop(next);
    change
}

/// One more round, or, where a leap is due, two rounds, and then a jump, if they lower amounts alone and alike.
pub(crate) fn advance(
    alloc: Global,
    parts: &Parts,
    draft: &mut Draft,
    pace: &mut Pace,
) -> Result<Change, Memory>
    requires well { IsWell parts.now }
    requires reached { AreReached parts.now (rows_held draft.old.rows) }
    requires noted { AreNoted parts.now draft.old }
    ensures rows { IfOk result (DraftAdvances parts.now draft.old draft.new) }
    ensures noted { IfOk result (λ _. AreNoted parts.now draft.new) }
{
    if !pace.is_due() {
        return next_round(alloc, parts, draft);
    }
    let near = rows_shared(alloc, &draft.rows)?;
    let change = leap(alloc, parts, &near, draft, pace);
    drop(near);
    change
}
