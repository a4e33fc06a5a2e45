//! GENERATE and ADVANCE, and numbers that are times.

use crate::changes::{Changes, Replacement};
use crate::declaring::put_draw;
use crate::draws::{Draw, Shape};
use crate::plan::{MOST, Plan};
use crate::rules::Rule;
use crate::statement::{Kind, Statement, span_of};
use crate::times::{Time, draw_of, is_clock, is_clock_name, is_time, number_in, sides, time_in};
use gw_forms::line::Piece;
use gw_text_tokens::tokens::Token;
use std::alloc::{AllocError, Global};

/// The rule by which a draw is written.
fn rule_of(shape: Shape) -> Rule {
    match shape {
        Shape::Exponential => Rule::Exponential,
        Shape::Normal => Rule::Normal,
        Shape::Triangular => Rule::Triangular,
        Shape::Multiple(_) => Rule::Multiple,
    }
}

/// The number of a draw among those that there are, from 1; the next number where it is new.
fn number_of_draw(draws: &[Draw], draw: Draw) -> usize {
    draws
        .iter()
        .position(|it| *it == draw)
        .unwrap_or(draws.len())
        .saturating_add(1)
}

/// Multiplies the number that pieces are by the factor of the model.
fn scale(changes: &mut Changes, plan: &Plan<'_>, pieces: &[Piece<'_>]) -> Result<(), AllocError> {
    if plan.places > 0
        && let Some((number, from, to)) = number_in(pieces)
        && number.millionths > 0
    {
        changes.replace(from, to, Replacement::Number(number.scaled(plan.places)))?;
        changes.note(Rule::Scale)?;
    }
    Ok(())
}

/// Writes a draw as a function of its own.
fn change_draw(
    alloc: Global,
    changes: &mut Changes,
    plan: &Plan<'_>,
    draws: &mut Vec<Draw>,
    statement: &Statement<'_>,
    draw: Draw,
) -> Result<(), AllocError> {
    let number = number_of_draw(draws, draw);
    if number > MOST {
        return Ok(());
    }
    if number > draws.len() {
        put_draw(alloc, &mut changes.before, plan, number, &draw)?;
        draws.push(draw)?;
    }
    changes.note(rule_of(draw.shape))?;
    if let Shape::Multiple(place) = draw.shape
        && let Some(function) = plan.functions.get(place)
        && function.letter == b'C'
    {
        changes.note(Rule::Steps)?;
    }
    let first = span_of(statement.operand(0));
    let second = span_of(statement.operand(1));
    match (first, second) {
        (Some((from, to)), None) | (Some((from, _)), Some((_, to))) => {
            changes.replace(from, to, Replacement::Drawn(number))
        }
        _ => Ok(()),
    }
}

/// Multiplies what is a number among the times of a GENERATE or ADVANCE by the factor of the model, and marks what can't be followed.
fn change_constants(
    changes: &mut Changes,
    plan: &Plan<'_>,
    statement: &Statement<'_>,
    from: u8,
) -> Result<(), AllocError> {
    for operand in from..3u8 {
        if is_time(statement.kind, operand) {
            let pieces = statement.operand(operand);
            scale(changes, plan, pieces)?;
            let time = time_in(plan, statement.line.bytes, pieces);
            if plan.places > 0 && matches!(time, Time::Other) {
                changes.note(Rule::Time)?;
            }
        }
    }
    Ok(())
}

/// Whether the times of a source may be 0, as far as it shows.
fn may_be_zero(first: Time, second: Time) -> bool {
    match (first, second) {
        (Time::Constant(mean), Time::Constant(spread)) => {
            spread.millionths >= mean.millionths && mean.millionths > 0
        }
        (Time::Drawn(_) | Time::Function(_), _) | (_, Time::Function(_)) => true,
        _ => false,
    }
}

/// The comma behind the limit of a source, if it stands there.
fn comma_behind_limit(statement: &Statement<'_>) -> Option<usize> {
    for place in 0..statement.line.pieces.len() {
        if matches!(statement.line.token(place), Some(Token::Comma))
            && statement.line.depth(place) == 0
            && statement.line.operand(place) == 3
            && let Some(piece) = statement.line.pieces.get(place)
        {
            return Some(piece.from);
        }
    }
    None
}

/// Which operand is the last, from 0, of those that are written once the second is left away.
fn last_operand(statement: &Statement<'_>, is_drawn: bool) -> u8 {
    let last = statement
        .line
        .pieces
        .last()
        .map_or(0, |piece| piece.operand);
    if is_drawn && last == 1 { 0 } else { last }
}

/// Gives a source without a limit one that is never met.
fn change_limit(
    changes: &mut Changes,
    statement: &Statement<'_>,
    is_drawn: bool,
) -> Result<(), AllocError> {
    if !statement.operand(3).is_empty() {
        return Ok(());
    }
    changes.note(Rule::Limit)?;
    if let Some(at) = comma_behind_limit(statement) {
        return changes.replace(at, at, Replacement::Words(b"1000000000"));
    }
    let words: &'static [u8] = match last_operand(statement, is_drawn) {
        0 => b",,,1000000000",
        1 => b",,1000000000",
        _ => b",1000000000",
    };
    let at = statement.line.end_of_pieces();
    changes.replace(at, at, Replacement::Words(words))
}

/// Changes a GENERATE or ADVANCE.
pub(crate) fn change_times(
    alloc: Global,
    changes: &mut Changes,
    plan: &Plan<'_>,
    draws: &mut Vec<Draw>,
    statement: &Statement<'_>,
) -> Result<(), AllocError> {
    let bytes = statement.line.bytes;
    let first = time_in(plan, bytes, statement.operand(0));
    let second = time_in(plan, bytes, statement.operand(1));
    let draw = draw_of(plan, first, second);
    match draw {
        Some(draw) => {
            change_draw(alloc, changes, plan, draws, statement, draw)?;
            change_constants(changes, plan, statement, 2)?;
        }
        None => change_constants(changes, plan, statement, 0)?,
    }
    if statement.kind == Kind::Generate && may_be_zero(first, second) {
        change_limit(changes, statement, draw.is_some())?;
    }
    Ok(())
}

/// Multiplies the limit and the width of a table of times by the factor of the model.
pub(crate) fn change_classes(
    changes: &mut Changes,
    plan: &Plan<'_>,
    statement: &Statement<'_>,
) -> Result<(), AllocError> {
    scale(changes, plan, statement.operand(1))?;
    scale(changes, plan, statement.operand(2))
}

/// Whether a time of the clock stands among pieces.
fn has_clock(pieces: &[Piece<'_>]) -> bool {
    pieces.iter().any(|piece| match piece.token {
        Token::Name(name) => is_clock_name(name),
        _ => false,
    })
}

/// Multiplies the number beside a time of the clock by the factor of the model, and marks a TEST of a time that can't be followed.
pub(crate) fn change_test(
    changes: &mut Changes,
    plan: &Plan<'_>,
    statement: &Statement<'_>,
) -> Result<(), AllocError> {
    let (left, right) = sides(statement);
    if is_clock(left) && number_in(right).is_some() {
        scale(changes, plan, right)
    } else if is_clock(right) && number_in(left).is_some() {
        scale(changes, plan, left)
    } else if plan.places > 0 && (has_clock(left) || has_clock(right)) {
        changes.note(Rule::Time)
    } else {
        Ok(())
    }
}
