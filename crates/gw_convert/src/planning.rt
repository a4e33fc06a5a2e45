//! Getting to know a text before it is written.

use crate::draws::Draw;
use crate::functions::{function_at, function_of, named};
use crate::numbers::Number;
use crate::plan::{MOST, Plan, QueueTable};
use crate::statement::{Kind, Statement, span_of, statement_of};
use crate::times::{Time, draw_of, is_clock, is_time, number_in, sides, time_in};
use gw_forms::line::{pieces_of, place_of_word};
use gw_text_tokens::is_spelled;
use gw_text_tokens::lines::is_skipped;
use gw_text_tokens::tokens::Token;
use std::alloc::{AllocError, Global};

/// The most bytes of a line that is looked at.
pub(crate) const LONGEST: usize = 1000;

/// What is known of a text of these lines.
pub(crate) fn plan_of<'a>(alloc: Global, lines: &[&'a [u8]]) -> Result<Plan<'a>, AllocError> {
    let mut plan = Plan::new(alloc);
    for at in 0..lines.len() {
        plan_declarations(alloc, &mut plan, lines, at)?;
    }
    for at in 0..lines.len() {
        plan_uses(alloc, &mut plan, lines, at)?;
    }
    plan_functions(&mut plan);
    Ok(plan)
}

/// Whether a line is looked at.
pub(crate) fn is_read(line: &[u8]) -> bool {
    line.len() <= LONGEST && !is_skipped(line)
}

/// Gets to know what a line declares.
fn plan_declarations<'a>(
    alloc: Global,
    plan: &mut Plan<'a>,
    lines: &[&'a [u8]],
    at: usize,
) -> Result<(), AllocError> {
    let Some(line) = lines.get(at) else {
        return Ok(());
    };
    if !is_read(line) {
        return Ok(());
    }
    let pieces = pieces_of(alloc, line)?;
    let statement = statement_of(line, &pieces, place_of_word(&pieces));
    plan_names(plan, &statement);
    match statement.kind {
        Kind::Start => {
            plan.last_start = Some(at);
            Ok(())
        }
        Kind::Function => plan_function(alloc, plan, lines, &statement, at),
        Kind::QTable => plan_table(plan, lines, &statement, at),
        _ => Ok(()),
    }
}

/// How many `_` follow a word at the front of a name, if it stands there.
fn underscores_behind(name: &[u8], word: &[u8]) -> usize {
    if name.len() < word.len() {
        return 0;
    }
    let (front, rest) = name.split_at(word.len());
    if !is_spelled(front, word) {
        return 0;
    }
    rest.iter()
        .position(|byte| *byte != b'_')
        .unwrap_or(rest.len())
        .saturating_add(1)
}

/// Sees to it that new names differ from those of a line.
fn plan_names(plan: &mut Plan<'_>, statement: &Statement<'_>) {
    for piece in statement.line.pieces {
        if let Token::Name(name) = piece.token {
            let most = underscores_behind(name, b"TIMES").max(underscores_behind(name, b"SINCE"));
            if most > plan.underscores {
                plan.underscores = most;
            }
        }
    }
}

fn plan_function<'a>(
    alloc: Global,
    plan: &mut Plan<'a>,
    lines: &[&'a [u8]],
    statement: &Statement<'_>,
    at: usize,
) -> Result<(), AllocError> {
    if plan.functions.len() >= MOST {
        return Ok(());
    }
    if let Some(function) = function_of(alloc, &mut plan.points, lines, statement, at)? {
        plan.functions.push(function)?;
    }
    Ok(())
}

fn plan_table<'a>(
    plan: &mut Plan<'a>,
    lines: &[&'a [u8]],
    statement: &Statement<'_>,
    at: usize,
) -> Result<(), AllocError> {
    if plan.tables.len() >= MOST {
        return Ok(());
    }
    let Some(line) = lines.get(at) else {
        return Ok(());
    };
    if let Some(name) = named(lines, statement, at)
        && let Some((from, to)) = span_of(statement.operand(0))
        && let Some(queue) = line.get(from..to)
        && !plan
            .tables
            .iter()
            .any(|table| is_spelled(table.queue, queue))
    {
        plan.tables.push(QueueTable { name, queue, at })?;
    }
    Ok(())
}

/// Lets the times have as many places as a number needs.
fn plan_places(plan: &mut Plan<'_>, places: u32) {
    if places > plan.places {
        plan.places = places;
    }
}

/// Lets the times have so many places that a draw spreads over a hundred clock units or more.
fn plan_draw(plan: &mut Plan<'_>, draw: &Draw) {
    plan_places(plan, draw.places());
    plan_spread(plan, draw.spread());
}

/// Lets the times have so many places that a spread is of a hundred clock units or more.
fn plan_spread(plan: &mut Plan<'_>, spread: Number) {
    for places in 0..4u32 {
        if spread.millionths > 0 && spread.scaled(places) < 100 {
            plan_places(plan, places.saturating_add(1));
        }
    }
}

/// Notes how a function is used.
fn plan_function_use(plan: &mut Plan<'_>, place: usize, kind: Kind, operand: u8) {
    if let Some(function) = plan.functions.get_mut(place) {
        if operand == 1 && is_time(kind, operand) {
            function.is_spread = true;
        } else if is_time(kind, operand) {
            function.is_time = true;
        } else {
            function.is_value = true;
        }
    }
}

/// Gets to know the times of a GENERATE or ADVANCE.
fn plan_times(plan: &mut Plan<'_>, statement: &Statement<'_>) {
    let bytes = statement.line.bytes;
    let first = time_in(plan, bytes, statement.operand(0));
    let second = time_in(plan, bytes, statement.operand(1));
    if let Some(draw) = draw_of(plan, first, second) {
        plan_draw(plan, &draw);
    }
    for operand in 0..3u8 {
        if is_time(statement.kind, operand) {
            match time_in(plan, bytes, statement.operand(operand)) {
                Time::Constant(number) => plan_places(plan, number.places()),
                Time::Function(place) => plan_function_use(plan, place, statement.kind, operand),
                _ => {}
            }
        }
    }
}

/// Notes each function that stands on a line elsewhere than in the place of a time.
fn plan_values(plan: &mut Plan<'_>, statement: &Statement<'_>) {
    let line = &statement.line;
    for place in 0..line.pieces.len() {
        if let Some((name, length)) = function_at(line.bytes, line.pieces, place) {
            let is_alone = line.begins_operand(place)
                && statement.operand(line.operand(place)).len() == length
                && is_time(statement.kind, line.operand(place));
            if !is_alone && let Some(function) = plan.function(name) {
                plan_function_use(plan, function, Kind::Other, 0);
            }
        }
    }
}

/// Gets to know the limit and the width of a table of times.
fn plan_classes(plan: &mut Plan<'_>, statement: &Statement<'_>) {
    for operand in 1..3u8 {
        if let Some((number, _, _)) = number_in(statement.operand(operand)) {
            plan_places(plan, number.places());
        }
    }
}

/// Gets to know the number beside a time of the clock.
fn plan_test(plan: &mut Plan<'_>, statement: &Statement<'_>) {
    let (left, right) = sides(statement);
    if is_clock(left)
        && let Some((number, _, _)) = number_in(right)
    {
        plan_places(plan, number.places());
    }
    if is_clock(right)
        && let Some((number, _, _)) = number_in(left)
    {
        plan_places(plan, number.places());
    }
}

/// Gets to know what a line uses.
fn plan_uses(
    alloc: Global,
    plan: &mut Plan<'_>,
    lines: &[&[u8]],
    at: usize,
) -> Result<(), AllocError> {
    let Some(line) = lines.get(at) else {
        return Ok(());
    };
    if !is_read(line) {
        return Ok(());
    }
    let pieces = pieces_of(alloc, line)?;
    let statement = statement_of(line, &pieces, place_of_word(&pieces));
    plan_values(plan, &statement);
    match statement.kind {
        Kind::Generate | Kind::Advance => plan_times(plan, &statement),
        Kind::Table if is_clock(statement.operand(0)) => plan_classes(plan, &statement),
        Kind::QTable => plan_classes(plan, &statement),
        Kind::Test => plan_test(plan, &statement),
        _ => {}
    }
    Ok(())
}

/// How many places a value in millionths needs.
fn places_of_value(value: i64) -> u32 {
    let number = Number {
        millionths: value.unsigned_abs(),
    };
    number.places()
}

/// How many places the values of a function need that is a time.
fn places_of_values(plan: &Plan<'_>, at: usize) -> u32 {
    let mut most = 0;
    if let Some(function) = plan.functions.get(at)
        && function.is_time
        && function.letter == b'D'
    {
        for point in plan.points_of(function) {
            most = most.max(places_of_value(point.y));
        }
    }
    most
}

/// How far apart the first and the last value of a function of type C lie that is a time, in millionths; 0 where it is none.
fn spread_of_values(plan: &Plan<'_>, at: usize) -> u64 {
    let Some(function) = plan.functions.get(at) else {
        return 0;
    };
    match plan.points_of(function) {
        [first, .., last] if function.is_time && function.letter == b'C' => first
            .y
            .abs_diff(last.y),
        _ => 0,
    }
}

/// Lets the times have as many places as the values of the functions need that are times.
fn plan_functions(plan: &mut Plan<'_>) {
    for at in 0..plan.functions.len() {
        let places = places_of_values(plan, at);
        plan_places(plan, places);
        let millionths = spread_of_values(plan, at);
        plan_spread(plan, Number { millionths });
    }
}
