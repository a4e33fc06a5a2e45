//! QTABLEs, and what else changes a statement but its times.

use crate::changes::{Changes, Replacement};
use crate::plan::Plan;
use crate::rules::Rule;
use crate::statement::{Kind, Statement};
use crate::writing::put_name;
use gw_forms::line::whole_word;
use gw_forms::testing::{class_of_numbered, is_among};
use gw_text_tokens::is_spelled;
use gw_text_tokens::tokens::Token;
use gw_writing::put;
use std::alloc::AllocError;

/// Writes a QTABLE as a TABLE of the time since the MARK of its number.
pub(crate) fn change_queue_table(
    changes: &mut Changes,
    plan: &Plan<'_>,
    statement: &Statement<'_>,
    at: usize,
) -> Result<(), AllocError> {
    let Some(number) = plan.tables.iter().position(|table| table.at == at) else {
        return Ok(());
    };
    let Some(word) = statement.line.pieces.get(statement.line.word) else {
        return Ok(());
    };
    changes.note(Rule::QueueTable)?;
    changes.replace(word.from, word.to, Replacement::Words(b"TABLE "))?;
    changes.replace_pieces(
        statement.operand(0),
        Replacement::Since(number.saturating_add(1)),
    )
}

/// Writes, behind a QUEUE or a DEPART, a MARK or a TABULATE for the QTABLE of its queue.
pub(crate) fn change_queue(
    changes: &mut Changes,
    plan: &Plan<'_>,
    statement: &Statement<'_>,
) -> Result<(), AllocError> {
    let queue = statement.text(0);
    let Some(number) = plan
        .tables
        .iter()
        .position(|table| is_spelled(table.queue, queue))
    else {
        return Ok(());
    };
    changes.note(Rule::QueueTable)?;
    if statement.kind == Kind::Queue {
        put(&mut changes.behind, "\n        MARK      ")?;
        return put_name(&mut changes.behind, plan, "SINCE", number.saturating_add(1));
    }
    put(&mut changes.behind, "\n        TABULATE  ")?;
    match plan.tables.get(number) {
        Some(table) => changes.behind.extend_from_slice(table.name),
        None => Ok(()),
    }
}

/// Gives each value of an INITIAL a line.
pub(crate) fn change_initial(
    changes: &mut Changes,
    statement: &Statement<'_>,
) -> Result<(), AllocError> {
    for piece in statement.line.pieces {
        if matches!(piece.token, Token::Slash) && piece.depth == 0 {
            changes.note(Rule::Initial)?;
            changes.replace(
                piece.from,
                piece.to,
                Replacement::Words(b"\n        INITIAL   "),
            )?;
        }
    }
    Ok(())
}

/// Leaves START its count alone.
pub(crate) fn change_start(
    changes: &mut Changes,
    statement: &Statement<'_>,
) -> Result<(), AllocError> {
    for piece in statement.line.pieces {
        if matches!(piece.token, Token::Comma) && piece.depth == 0 && piece.operand == 0 {
            changes.note(Rule::Start)?;
            return changes.replace(
                piece.from,
                statement.line.end_of_pieces(),
                Replacement::Words(b""),
            );
        }
    }
    Ok(())
}

/// Writes an abbreviated word whole.
pub(crate) fn change_word(
    changes: &mut Changes,
    statement: &Statement<'_>,
) -> Result<(), AllocError> {
    if let Some(piece) = statement.line.pieces.get(statement.line.word)
        && let Token::Name(name) = piece.token
        && let Some(word) = whole_word(name)
        && statement.kind != Kind::QTable
    {
        changes.note(Rule::Word)?;
        changes.replace(piece.from, piece.to, Replacement::Words(word))?;
    }
    Ok(())
}

/// Gives a comment its `;`.
pub(crate) fn change_comment(
    changes: &mut Changes,
    statement: &Statement<'_>,
) -> Result<(), AllocError> {
    if let Some(at) = statement.comment {
        changes.note(Rule::Comment)?;
        changes.replace(at, at, Replacement::Words(b"; "))?;
    }
    Ok(())
}

/// Whether values stand in an operand, from 0, of a statement.
fn has_values(statement: &Statement<'_>, operand: u8) -> bool {
    match statement.line.token(statement.line.word) {
        Some(Token::Name(word)) => {
            is_among(word, b"TEST TABLE ADVANCE VARIABLE BVARIABLE PRIORITY")
                || operand > 0 && is_among(word, b"ASSIGN SAVEVALUE")
        }
        _ => false,
    }
}

/// Writes MP as the clock less the parameter.
pub(crate) fn change_transits(
    changes: &mut Changes,
    statement: &Statement<'_>,
) -> Result<(), AllocError> {
    let line = &statement.line;
    for place in 0..line.pieces.len() {
        let piece = line.pieces[place];
        if let Token::Name(name) = piece.token
            && has_values(statement, piece.operand)
            && place > line.word
        {
            if is_spelled(name, b"MP") && matches!(line.next(place), Some(Token::Dollar)) {
                let end = line.end(place.saturating_add(2));
                changes.note(Rule::Transit)?;
                changes.replace(
                    piece.from,
                    line.end(place.saturating_add(1)),
                    Replacement::Words(b"(C1-P$"),
                )?;
                changes.replace(end, end, Replacement::Words(b")"))?;
            } else if matches!(class_of_numbered(name), Some(class) if is_spelled(class, b"MP")) {
                changes.note(Rule::Transit)?;
                changes.replace(
                    piece.from,
                    piece.from.saturating_add(2),
                    Replacement::Words(b"(C1-P"),
                )?;
                changes.replace(piece.to, piece.to, Replacement::Words(b")"))?;
            }
        }
    }
    Ok(())
}
