//! A text, statement by statement.

ghost use Rattle.std.specs.Prelude.{◌≡◌, ◌<◌, ◌≤◌, ◌+◌, ◌^◌, ◌∷◌, ◌++◌, ℕ, [], map, length, IfOk, IfErr, OnOk};
ghost use Rattle.std.specs.Str.Lines.{lines as lines_of_text};
ghost use Rattle.gw_text.specs.Knowing.{Knows, KnowsMore};
ghost use Rattle.gw_text.specs.Reading.{IsFoundAt, with_found, last_with_found, StandOn, IsRefused, too_long};

use crate::model::{Model, Statement};
use crate::reader::{Read, Reader};
use gw_object::{Fault, Place};
use gw_text_statements::statements::head_of;
use gw_text_tokens::codes;
use gw_text_tokens::faults::{Stop, Where};
use gw_text_tokens::lines::{check_length, is_skipped, line_at, lines_of};
use gw_text_tokens::words::Word;
use std::alloc::{AllocError, Global};

/// The most bytes of a text.
const MOST_BYTES: usize = 1048576;

/// The statement on line `i`, if one stands there. Lines count from 0 here.
fn statement_at(reader: &mut Reader, lines: &[&[u8]], i: usize) -> Result<Option<Statement>, Where>
    requires within { i < length lines.now }
    requires few { length lines.now < 2 ^ 32 }
    requires blocks { reader.old.blocks ≤ 4096 }
    ensures found { IfOk result (λ found. IsFoundAt (map (λ l. l.now) lines.now) i found) }
    ensures known { IfOk result (KnowsMore reader.old reader.new) }
    ensures refused { IfErr result (λ place. place.0 < length lines.now) }
{
    let line = line_at(lines, i);
    if let Err(refusal) = check_length(line) {
        return Err((i, Stop::Refused(refusal)));
    }
    if is_skipped(line) {
        return Ok(None);
    }
    match head_of(line) {
        Ok(head) => {
            let read = reader.statement(&head, lines, i)?;
            Ok(Some(made(i, head.word, read)))
        }
        Err(refusal) => Err((i, Stop::Refused(refusal))),
    }
}

/// The statement of this word that was read from this line on. Lines count from 0 here.
fn made(line: usize, word: Word, read: Read) -> Statement
    requires line { line + 1 < 2 ^ 32 }
    requires last { read.last + 1 < 2 ^ 32 }
    ensures line { result.line ≡ line + 1 }
    ensures last { result.last_line ≡ read.last + 1 }
    ensures word { result.word ≡ word }
    ensures label { result.label ≡ read.first.label }
{
    Statement {
        line: (line + 1) as u32,
        last_line: (read.last + 1) as u32,
        label: read.first.label,
        word,
        modifier: read.first.modifier,
        operands: read.first.operands,
        body: read.body,
    }
}

/// What is told of a line that wasn't read. Lines count from 0 here.
fn fault_at(place: Where) -> Fault
    requires { place.0 + 1 < 2 ^ 32 }
    ensures { (count : ℕ) → place.0 < count → IsRefused count result }
{
    match place.1 {
        Stop::Refused(refusal) => Fault {
            code: refusal.code(),
            place: Place::Line((place.0 + 1) as u32),
        },
        Stop::Memory => OUT_OF_MEMORY,
    }
}

/// Memory ran out.
const OUT_OF_MEMORY: Fault = Fault {
    code: 8,
    place: Place::Nowhere,
};

/// The statement on line `i`, if one stands there; or the fault of the text. Lines count from 0 here.
fn found_at(reader: &mut Reader, lines: &[&[u8]], i: usize) -> Result<Option<Statement>, Fault>
    requires within { i < length lines.now }
    requires few { length lines.now < 2 ^ 32 }
    requires blocks { reader.old.blocks ≤ 4096 }
    ensures found { IfOk result (λ found. IsFoundAt (map (λ l. l.now) lines.now) i found) }
    ensures known { IfOk result (KnowsMore reader.old reader.new) }
    ensures refused { IfErr result (IsRefused (length lines.now)) }
{
    match statement_at(reader, lines, i) {
        Ok(found) => Ok(found),
        Err(place) => Err(fault_at(place)),
    }
}

/// Adds an item behind the others.
fn keep<T: Drop>(items: &mut Vec<T>, item: T) -> Result<(), AllocError>
    ensures { OnOk result (items.new.items ≡ items.old.items ++ item ∷ []) }
{
    items.push(item)?;
    Ok(())
}

/// How many lines there are up to the end of a statement.
fn lines_up_to(statement: &Statement) -> usize
    ensures { result ≡ statement.now.last_line }
{
    statement.last_line as usize
}

/// Adds the statement that was found, if there is one; the next one begins behind its last line.
fn add(
    statements: &mut Vec<Statement>,
    next: &mut usize,
    found: Option<Statement>,
) -> Result<(), Fault>
    ensures next { OnOk result (next.new ≡ last_with_found found next.old) }
    ensures added { OnOk result (statements.new.items ≡ with_found found statements.old.items) }
    ensures refused { IfErr result (λ fault. (count : ℕ) → IsRefused count fault) }
{
    let Some(statement) = found else {
        return Ok(());
    };
    *next = lines_up_to(&statement);
    match keep(statements, statement) {
        Ok(()) => Ok(()),
        Err(_) => Err(OUT_OF_MEMORY),
    }
}

/// Reads the statements on these lines, behind none.
fn read_lines(
    reader: &mut Reader,
    lines: &[&[u8]],
    statements: &mut Vec<Statement>,
) -> Result<(), Fault>
    requires few { length lines.now < 2 ^ 32 }
    requires known { Knows reader.old [] }
    requires none { statements.old.items ≡ [] }
    ensures read { OnOk result (StandOn (map (λ l. l.now) lines.now) statements.new.items) }
    ensures refused { IfErr result (IsRefused (length lines.now)) }
{
    let mut next: usize = 0;
    for i in 0..lines.len() {
        if i < next {
            continue;
        }
        let found = found_at(reader, lines, i)?;
        add(statements, &mut next, found)?;
    }
    Ok(())
}

/// The statements on these lines.
fn read_all(alloc: Global, lines: &[&[u8]]) -> Result<Vec<Statement>, Fault>
    requires { length lines.now < 2 ^ 32 }
    ensures read { IfOk result (λ read. StandOn (map (λ l. l.now) lines.now) read.items) }
    ensures refused { IfErr result (IsRefused (length lines.now)) }
{
    let mut reader = Reader::new(alloc);
    let mut statements = Vec::new(alloc);
    let read = read_lines(&mut reader, lines, &mut statements);
    drop(reader);
    match read {
        Ok(()) => Ok(statements),
        Err(fault) => {
            drop(statements);
            Err(fault)
        }
    }
}

/// Reads a model text of at most 1 MiB. It is refused with the first line at fault, and with the lowest code there: 70 Length,
/// 71 Word, 72 Operand, 73 Expression, 74 Label, 75 LeftOut, 76 Limit, 77 Order (ours: docs/refusals.md); a text that is too
/// long with 70 at line 1; or with 8 Memory at Nowhere where memory runs out.
pub fn parse(alloc: Global, text: &[u8]) -> Result<Model, Fault>
    ensures read { IfOk result (λ model. StandOn (lines_of_text text.now) model.statements.items) }
    ensures refused { IfErr result (IsRefused (length (lines_of_text text.now))) }
    ensures long { 2 ^ 20 < length text.now → result ≡ Err too_long }
{
    if text.len() > MOST_BYTES {
        return Err(Fault {
            code: codes::LENGTH,
            place: Place::Line(1),
        });
    }
    let Ok(lines) = lines_of(alloc, text) else {
        return Err(OUT_OF_MEMORY);
    };
    let statements = read_all(alloc, lines.as_slice())?;
    Ok(Model { statements })
}
