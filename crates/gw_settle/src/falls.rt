//! Whether the amounts of rows fall on: alike in two rounds, and in the one that follows a jump.

ghost use Rattle.std.specs.Prelude.{◌≡◌, ◌↔◌, IsTrue, All, length, true};
ghost use Rattle.gw_settle.specs.Drafts.{rows_held, HeldFallOn, AgreeButUnits, MayHeldJump};
ghost use Rattle.gw_settle.specs.Keeps.{HasShape};
ghost use Rattle.gw_settle.specs.Jumps as model;
ghost use Rattle.gw_settle.specs.Jumps.{AreDecided, PlaceFallsOn};

use crate::draft::TableRows;
use crate::known::{Known, number_after};
use crate::passing::are_same_params;
use gw_flow::Amount;
use gw_object::{Block, Parts, Units};

/// Whether a number falls by as much in a second round, if it falls leaves something so many rounds on, and then falls by no
/// more.
fn falls_alike(times: u64, number: u64, next: u64, second: u64, last: u64) -> bool
    ensures { IsTrue result ↔ model.FallsAlike times number next second last }
{
    let fall = number.saturating_sub(next);
    let left = number_after(number, next, times);
    fall <= next.saturating_sub(second)
        && (fall == 0 || left > 0)
        && left.saturating_sub(last) <= fall
}

/// Whether an amount does, of its entity, which stands at a place, from 0.
fn amount_falls_on(
    times: u64,
    place: usize,
    amount: &Amount,
    next: &Known,
    second: &Known,
    last: &Known,
) -> bool
    ensures { IsTrue result ↔ HeldFallOn times next.now second.now last.now amount.now }
{
    let entity = amount.entity;
    falls_alike(
        times,
        amount.number,
        next.units_near(place, entity),
        second.units_near(place, entity),
        last.units_near(place, entity),
    )
}

/// Whether amounts do.
fn units_fall_on(times: u64, units: &[Amount], next: &Known, second: &Known, last: &Known) -> bool
    ensures { IsTrue result ↔ All (HeldFallOn times next.now second.now last.now) units.now }
{
    for i in 0..units.len() {
        if !amount_falls_on(times, i, &units[i], next, second, last) {
            return false;
        }
    }
    true
}

/// Whether two rows say the same but for units.
fn is_same_but_units(row: &Known, other: &Known) -> bool
    ensures { result ≡ true → AgreeButUnits row.now other.now }
{
    are_same_params(row.params(), other.params()) && row.facilities() == other.facilities()
}

/// Whether a row changes in nothing but amounts, and each of them falls on.
fn row_falls_on(times: u64, row: &Known, next: &Known, second: &Known, last: &Known) -> bool
    ensures { result ≡ true → model.FallsOn times row.now next.now second.now last.now }
{
    if !is_same_but_units(next, row) {
        return false;
    }
    units_fall_on(times, row.units(), next, second, last)
}

/// Whether a row does, where there may be none.
fn place_falls_on(
    times: u64,
    place: &Option<Known>,
    next: &Option<Known>,
    second: &Option<Known>,
    last: &Option<Known>,
) -> bool
    ensures { result ≡ true → PlaceFallsOn times place.now next.now second.now last.now }
{
    let Some(row) = place else {
        return next.is_none();
    };
    let Some(next) = next else {
        return false;
    };
    let Some(second) = second else {
        return false;
    };
    let Some(last) = last else {
        return false;
    };
    row_falls_on(times, row, next, second, last)
}

/// Whether the rows of all places do.
fn places_fall_on(
    times: u64,
    rows: &[Option<Known>],
    next: &[Option<Known>],
    second: &[Option<Known>],
    last: &[Option<Known>],
) -> bool
    requires next { length next.now ≡ length rows.now }
    requires second { length second.now ≡ length rows.now }
    requires last { length last.now ≡ length rows.now }
    ensures { result ≡ true → model.PlacesFallOn times rows.now next.now second.now last.now }
{
    for i in 0..rows.len() {
        if !place_falls_on(times, &rows[i], &next[i], &second[i], &last[i]) {
            return false;
        }
    }
    true
}

/// The units that a block takes back.
fn units_asked(block: &Block) -> Option<Units>
    ensures { result ≡ model.units_asked block.now }
{
    match block {
        Block::Leave(units) => Some(*units),
        Block::Depart(units) => Some(*units),
        _ => None,
    }
}

/// Whether as many units are held in the last row, or are not in the near one.
fn is_decided(units: Units, near: &Option<Known>, last: &Known) -> bool
    ensures { result ≡ true → model.IsDecided units near.now last.now }
{
    if u64::from(units.number) <= last.units_of(units.entity) {
        return true;
    }
    match near {
        Some(row) => row.units_of(units.entity) < u64::from(units.number),
        None => false,
    }
}

/// Whether what a block asks of units is sure to be held in its last row, or isn't in its near one.
fn block_is_decided(block: &Block, near: &Option<Known>, last: &Option<Known>) -> bool
    ensures { result ≡ true → model.IsBlockDecided block.now near.now last.now }
{
    let Some(units) = units_asked(block) else {
        return true;
    };
    match last {
        Some(row) => is_decided(units, near, row),
        None => true,
    }
}

/// Whether the rule on units of each block holds in the last rows, or breaks in the near ones.
fn are_decided(parts: &Parts, near: &TableRows, last: &TableRows) -> bool
    requires near { length near.now.blocks.items ≡ length parts.now.blocks }
    requires last { length last.now.blocks.items ≡ length parts.now.blocks }
    ensures { result ≡ true → AreDecided parts.now (rows_held near.now) (rows_held last.now) }
{
    let blocks = parts.blocks.as_slice();
    for i in 0..blocks.len() {
        if !block_is_decided(&blocks[i], &near.blocks[i], &last.blocks[i]) {
            return false;
        }
    }
    true
}

/// Whether so many rounds may be jumped over from the near rows, where these are the rows of two rounds, and of the one after
/// the jump.
pub(crate) fn may_jump(
    parts: &Parts,
    times: u64,
    near: &TableRows,
    next: &TableRows,
    second: &TableRows,
    last: &TableRows,
) -> bool
    requires near { HasShape parts.now (rows_held near.now) }
    requires next { HasShape parts.now (rows_held next.now) }
    requires second { HasShape parts.now (rows_held second.now) }
    requires last { HasShape parts.now (rows_held last.now) }
    ensures { result ≡ true → MayHeldJump parts.now times near.now next.now second.now last.now }
{
    places_fall_on(
        times,
        &near.blocks,
        &next.blocks,
        &second.blocks,
        &last.blocks,
    ) && places_fall_on(
        times,
        &near.chains,
        &next.chains,
        &second.chains,
        &last.chains,
    ) && are_decided(parts, near, last)
}
