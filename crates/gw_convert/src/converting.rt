//! Converting a text, line by line.

ghost use Rattle.std.specs.Prelude.{◌≡◌, ◌++◌, [], true, map, IfOk, OnOk};
ghost use Rattle.gw_text_tokens.specs.Lines.{is_skipped as is_skipped_line};
ghost use Rattle.gw_convert.specs.Pieces.{with_line_end, AddsPiece, AddsPieces, IsConverted};

use crate::changes::{Change, Changes, Replacement};
use crate::declaring::put_steps;
use crate::draws::Draw;
use crate::functions::Function;
use crate::head::put_front;
use crate::left::{Told, faults_of, put_form};
use crate::numbers::number_of;
use crate::plan::Plan;
use crate::planning::{LONGEST, plan_of};
use crate::queues::{
    change_comment, change_initial, change_queue, change_queue_table, change_start,
    change_transits, change_word,
};
use crate::rules::{Rule, Uses};
use crate::statement::{Kind, Statement, statement_of};
use crate::timed::{change_classes, change_test, change_times};
use crate::times::is_clock;
use crate::writing::put_changed;
use gw_forms::line::{Piece, pieces_of, place_of_word};
use gw_text_tokens::is_spelled;
use gw_text_tokens::lines::{is_skipped, line_at, lines_of};
use gw_text_tokens::tokens::{Token, next_token};
use gw_writing::put;
use std::alloc::{AllocError, Global};

/// A text that was converted.
#[derive(Drop)]
pub struct Converted {
    /// The text in the language of this project.
    pub text: Vec<u8>,
    /// What of it is still refused.
    pub faults: Vec<Told>,
}

/// What is known of the lines that were written.
#[derive(Drop)]
struct Known {
    /// The rules that were used.
    uses: Uses,
    /// The draws that have a function of their own.
    draws: Vec<Draw>,
    /// Whether the form "ask, then release" was shown.
    has_asked: bool,
    /// How many lines are refused.
    refused: usize,
    /// Whether the line lies in a PROCEDURE.
    in_procedure: bool,
    /// How many BEGINs of it have no END yet.
    begins: u32,
}

/// The most refused lines of which is told what to do.
const MOST_REFUSED: usize = 1000;

/// What becomes of a FUNCTION of the text.
#[derive(Clone, Copy, PartialEq, Eq)]
enum Fate {
    /// It stays.
    Kept,
    /// Its values are multiplied.
    Scaled,
    /// It goes by steps, of values with so many places.
    Stepped(u32),
    /// Others stand in its place.
    Gone,
}

/// What becomes of a FUNCTION.
fn fate_of(plan: &Plan<'_>, function: &Function<'_>) -> Fate {
    let is_drawn = function.stream > 0 && function.count >= 2;
    let is_time_alone = function.is_time && !function.is_value;
    if is_drawn && function.is_spread && !function.is_time && !function.is_value {
        return Fate::Gone;
    }
    match function.letter {
        b'C' if is_drawn => Fate::Stepped(if is_time_alone { plan.places } else { 0 }),
        b'D' if is_time_alone && plan.places > 0 => Fate::Scaled,
        _ => Fate::Kept,
    }
}

/// Multiplies the values of points.
fn change_points(
    changes: &mut Changes,
    plan: &Plan<'_>,
    pieces: &[Piece<'_>],
) -> Result<(), AllocError> {
    let mut is_value = false;
    for piece in pieces {
        match piece.token {
            Token::Comma => is_value = true,
            Token::Slash => is_value = false,
            token => {
                if is_value && let Some(number) = number_of(token) {
                    changes.replace(
                        piece.from,
                        piece.to,
                        Replacement::Number(number.scaled(plan.places)),
                    )?;
                }
            }
        }
    }
    Ok(())
}

/// Changes a line of a FUNCTION.
fn change_function(
    alloc: Global,
    changes: &mut Changes,
    plan: &Plan<'_>,
    function: &Function<'_>,
    pieces: &[Piece<'_>],
    at: usize,
) -> Result<(), AllocError> {
    let fate = fate_of(plan, function);
    let is_first = at == function.first;
    if is_first && plan.places > 0 && function.is_time && function.is_value {
        changes.note(Rule::Time)?;
    }
    match fate {
        Fate::Kept => Ok(()),
        Fate::Scaled => {
            if is_first {
                changes.note(Rule::Scale)
            } else {
                change_points(changes, plan, pieces)
            }
        }
        Fate::Gone => {
            changes.is_left_out = true;
            Ok(())
        }
        Fate::Stepped(places) => {
            changes.is_left_out = true;
            if is_first {
                changes.note(Rule::Steps)?;
                put_steps(alloc, &mut changes.behind, plan, function, places)
            } else {
                Ok(())
            }
        }
    }
}

/// Changes a statement by the rules of its word.
fn change_statement(
    alloc: Global,
    changes: &mut Changes,
    plan: &Plan<'_>,
    draws: &mut Vec<Draw>,
    statement: &Statement<'_>,
    at: usize,
) -> Result<(), AllocError> {
    match statement.kind {
        Kind::Generate | Kind::Advance => change_times(alloc, changes, plan, draws, statement),
        Kind::Table if is_clock(statement.operand(0)) => change_classes(changes, plan, statement),
        Kind::QTable => {
            change_classes(changes, plan, statement)?;
            change_queue_table(changes, plan, statement, at)
        }
        Kind::Test => change_test(changes, plan, statement),
        Kind::Queue | Kind::Depart => change_queue(changes, plan, statement),
        Kind::Initial => change_initial(changes, statement),
        Kind::Start if plan.last_start == Some(at) => change_start(changes, statement),
        Kind::Start | Kind::Reset | Kind::Clear => {
            changes.is_left_out = true;
            changes.note(Rule::Run)
        }
        Kind::End => {
            changes.is_left_out = true;
            changes.note(Rule::End)
        }
        _ => Ok(()),
    }
}

/// The form of a loop that asks whether somebody more urgent waits.
const ASK: &str =
    ";   WORK    ADVANCE   1                     ; one unit of the work that P$LEFT counts
;           ASSIGN    LEFT-,1
;           TEST G    P$LEFT,0,DONE
;           TEST G    Q$URGENT,0,WORK       ; nobody urgent waits
;           RELEASE   DESK
;           SEIZE     DESK                  ; behind who is urgent
;           TRANSFER  ,WORK
;   DONE    RELEASE   DESK
";

/// The comment that a rule has before its line, if it has one: all that it costs or that is to be done the first time, and later its
/// name.
fn put_advice(out: &mut Vec<u8>, uses: &Uses, rule: Rule) -> Result<(), AllocError> {
    let mark = rule.mark();
    if mark.is_empty() || rule == Rule::Form {
        return Ok(());
    }
    put(out, mark)?;
    if uses.count(rule) == 0 {
        put(out, rule.advice())?;
    } else {
        put(out, rule.title())?;
    }
    put(out, "\n")
}

/// The comment on a form that is left as it is, before its line.
fn put_left(
    alloc: Global,
    out: &mut Vec<u8>,
    known: &mut Known,
    kind: Kind,
    main: &[u8],
) -> Result<(), AllocError> {
    let mut words = Vec::new(alloc);
    if known.refused >= MOST_REFUSED || !put_form(alloc, &mut words, main)? {
        return Ok(());
    }
    known.refused = known.refused.saturating_add(1);
    if words.is_empty() {
        return Ok(());
    }
    known.uses.note(Rule::Form);
    put(out, Rule::Form.mark())?;
    out.extend_from_slice(&words)?;
    put(out, " (docs/guide.md, \"From GPSS World to here\")\n")?;
    if kind == Kind::Preempt && !known.has_asked {
        known.has_asked = true;
        put(out, ASK)?;
    }
    Ok(())
}

/// The line itself, with its changes.
fn main_line(
    alloc: Global,
    plan: &Plan<'_>,
    line: &[u8],
    changes: &Changes,
) -> Result<Vec<u8>, AllocError> {
    let mut main = Vec::new(alloc);
    if changes.is_left_out {
        put(&mut main, "* ")?;
        let none: &[Change] = &[];
        put_changed(&mut main, plan, line, none)?;
    } else {
        put_changed(&mut main, plan, line, &changes.changes)?;
    }
    Ok(main)
}

/// What a line becomes, with its changes, but for the end of its last line.
fn piece_with(
    alloc: Global,
    known: &mut Known,
    plan: &Plan<'_>,
    line: &[u8],
    kind: Kind,
    changes: &Changes,
) -> Result<Vec<u8>, AllocError> {
    let main = main_line(alloc, plan, line, changes)?;
    let mut piece = Vec::new(alloc);
    for rule in &changes.rules {
        put_advice(&mut piece, &known.uses, *rule)?;
        known.uses.note(*rule);
    }
    if !matches!(kind, Kind::Function | Kind::Procedure) && !changes.is_left_out {
        put_left(alloc, &mut piece, known, kind, &main)?;
    }
    piece.extend_from_slice(&changes.before)?;
    piece.extend_from_slice(&main)?;
    piece.extend_from_slice(&changes.behind)?;
    Ok(piece)
}

/// Changes a statement.
fn change(
    alloc: Global,
    changes: &mut Changes,
    plan: &Plan<'_>,
    draws: &mut Vec<Draw>,
    statement: &Statement<'_>,
    at: usize,
) -> Result<(), AllocError> {
    if let Some(piece) = statement.line.pieces.first()
        && matches!(piece.token, Token::Star)
    {
        changes.note(Rule::Comment)?;
        return changes.replace(piece.from, piece.to, Replacement::Words(b";"));
    }
    change_word(changes, statement)?;
    change_comment(changes, statement)?;
    change_transits(changes, statement)?;
    change_statement(alloc, changes, plan, draws, statement, at)
}

/// Whether a line is the first of its statement: no line of points.
fn is_first_line(plan: &Plan<'_>, on: Option<usize>, at: usize) -> bool {
    match on {
        Some(place) => plan
            .functions
            .get(place)
            .is_some_and(|function| function.first == at),
        None => true,
    }
}

/// What a line becomes that holds a statement, or points, but for the end of its last line.
fn piece_of(
    alloc: Global,
    known: &mut Known,
    plan: &Plan<'_>,
    line: &[u8],
    at: usize,
) -> Result<Vec<u8>, AllocError> {
    let pieces = pieces_of(alloc, line)?;
    let mut changes = Changes::new(alloc);
    let mut kind = Kind::Function;
    let on = plan.function_on(at);
    if let Some(place) = on
        && let Some(function) = plan.functions.get(place)
    {
        change_function(alloc, &mut changes, plan, function, &pieces, at)?;
    }
    if is_first_line(plan, on, at) {
        let statement = statement_of(line, &pieces, place_of_word(&pieces));
        kind = statement.kind;
        change(alloc, &mut changes, plan, &mut known.draws, &statement, at)?;
    }
    piece_with(alloc, known, plan, line, kind, &changes)
}

/// Whether the word of a line is PROCEDURE.
fn begins_procedure(line: &[u8]) -> bool {
    match next_token(line) {
        Some((Token::Name(word), _)) => is_spelled(word, b"PROCEDURE"),
        _ => false,
    }
}

/// Follows a PROCEDURE through a line.
fn follow_procedure(known: &mut Known, line: &[u8]) {
    let mut left = line;
    for _token in 0..line.len() {
        let Some((token, rest)) = next_token(left) else {
            return;
        };
        left = rest;
        match token {
            Token::Name(name) if is_spelled(name, b"BEGIN") => {
                known.begins = known.begins.saturating_add(1);
            }
            Token::Name(name) if is_spelled(name, b"END") => {
                known.begins = known.begins.saturating_sub(1);
            }
            Token::Semicolon => known.in_procedure = known.begins > 0,
            _ => {}
        }
    }
}

/// A piece with the end of its last line, behind what there is.
fn put_piece(out: &mut Vec<u8>, piece: &[u8]) -> Result<(), AllocError>
    ensures { OnOk result (out.new.items ≡ out.old.items ++ with_line_end piece.now) }
{
    out.extend_from_slice(piece)?;
    out.push(b'\n')?;
    Ok(())
}

/// Whether a line stays as it is: it holds no statement, is too long, or lies in a PROCEDURE.
fn stays(known: &mut Known, line: &[u8]) -> bool
    ensures { is_skipped_line line.now ≡ true → result ≡ true }
{
    if is_skipped(line) || line.len() > LONGEST {
        return true;
    }
    if begins_procedure(line) {
        known.in_procedure = true;
        known.begins = 0;
    }
    if known.in_procedure {
        follow_procedure(known, line);
        return true;
    }
    false
}

/// What a line becomes, behind what there is.
fn put_line(
    alloc: Global,
    out: &mut Vec<u8>,
    known: &mut Known,
    plan: &Plan<'_>,
    line: &[u8],
    at: usize,
) -> Result<(), AllocError>
    ensures { OnOk result (AddsPiece line.now out.old.items out.new.items) }
{
    if stays(known, line) {
        return put_piece(out, line);
    }
    let piece = piece_of(alloc, known, plan, line, at)?;
    put_piece(out, &piece)
}

/// What lines become, behind what there is.
#[tactic(auto, using(crate::proofs::Joining::none, crate::proofs::Joining::one_more, crate::proofs::Joining::all))]
fn put_lines(
    alloc: Global,
    out: &mut Vec<u8>,
    known: &mut Known,
    plan: &Plan<'_>,
    lines: &[&[u8]],
) -> Result<(), AllocError>
    ensures { OnOk result (AddsPieces (map (λ l. l.now) lines.now) out.old.items out.new.items) }
{
    for at in 0..lines.len() {
        put_line(alloc, out, known, plan, line_at(lines, at), at)?;
    }
    Ok(())
}

/// The lines of a text, as they are converted.
#[tactic(auto, using(crate::proofs::Joining::none))]
fn body_of(
    alloc: Global,
    known: &mut Known,
    plan: &Plan<'_>,
    lines: &[&[u8]],
) -> Result<Vec<u8>, AllocError>
    ensures { IfOk result (λ body. AddsPieces (map (λ l. l.now) lines.now) [] body.items) }
{
    let mut body = Vec::new(alloc);
    put_lines(alloc, &mut body, known, plan, lines)?;
    Ok(body)
}

/// Converts a text of GPSS World into one of this language, as far as it goes, and tells what of it is still refused. `Err` where memory
/// runs out.
#[tactic(auto, using(crate::proofs::Joining::joined))]
pub fn convert(alloc: Global, text: &[u8]) -> Result<Converted, AllocError>
    ensures { IfOk result (λ c. IsConverted text.now c.text.items) }
{
    let lines = lines_of(alloc, text)?;
    let plan = plan_of(alloc, &lines)?;
    let mut known = Known {
        uses: Uses::new(),
        draws: Vec::new(alloc),
        has_asked: false,
        refused: 0,
        in_procedure: false,
        begins: 0,
    };
    let body = body_of(alloc, &mut known, &plan, &lines)?;
    let mut out = Vec::new(alloc);
    put_front(&mut out, &plan, &known.uses)?;
    out.extend_from_slice(&body)?;
    let faults = faults_of(alloc, &out)?;
    Ok(Converted { text: out, faults })
}
