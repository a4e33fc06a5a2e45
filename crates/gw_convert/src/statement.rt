//! A line as a statement: its word, its operands, and a comment that has no `;`.

use gw_forms::line::{Line, Piece, whole_word};
use gw_forms::testing::{class_of_numbered, stands_behind};
use gw_text_tokens::is_spelled;
use gw_text_tokens::tokens::Token;

/// What a statement is, as far as converting tells them apart.
#[derive(Clone, Copy, PartialEq, Eq)]
pub(crate) enum Kind {
    Generate,
    Advance,
    Function,
    Table,
    QTable,
    Test,
    Queue,
    Depart,
    Start,
    Reset,
    Clear,
    End,
    Initial,
    Preempt,
    Return,
    Procedure,
    Bare,
    Other,
}

const KINDS: [(&[u8], Kind); 18] = [
    (b"GENERATE", Kind::Generate),
    (b"ADVANCE", Kind::Advance),
    (b"FUNCTION", Kind::Function),
    (b"TABLE", Kind::Table),
    (b"QTABLE", Kind::QTable),
    (b"TEST", Kind::Test),
    (b"QUEUE", Kind::Queue),
    (b"DEPART", Kind::Depart),
    (b"START", Kind::Start),
    (b"RESET", Kind::Reset),
    (b"CLEAR", Kind::Clear),
    (b"END", Kind::End),
    (b"INITIAL", Kind::Initial),
    (b"PREEMPT", Kind::Preempt),
    (b"RETURN", Kind::Return),
    (b"PROCEDURE", Kind::Procedure),
    (b"TERMINATE", Kind::Bare),
    (b"SIMULATE", Kind::Bare),
];

/// A statement of a line.
#[derive(Clone, Copy)]
pub(crate) struct Statement<'a> {
    /// The line, with the pieces before a comment alone.
    pub(crate) line: Line<'a>,
    /// What it is.
    pub(crate) kind: Kind,
    /// Where on the line a comment without `;` begins, if there is one.
    pub(crate) comment: Option<usize>,
}

/// What a statement of this word is.
fn kind_of(word: &[u8]) -> Kind {
    for row in &KINDS {
        if is_spelled(word, row.0) {
            return row.1;
        }
    }
    Kind::Other
}

/// What the statement of a line is.
fn kind_on(line: &Line<'_>) -> Kind {
    match line.token(line.word) {
        Some(Token::Name(name)) => kind_of(whole_word(name).unwrap_or(name)),
        _ => Kind::Other,
    }
}

/// Whether a piece is a name that is no attribute.
fn is_plain_name(line: &Line<'_>, place: usize) -> bool {
    match line.token(place) {
        Some(Token::Name(name)) => {
            class_of_numbered(name).is_none() && !matches!(line.next(place), Some(Token::Dollar))
        }
        _ => false,
    }
}

/// Which piece a comment without `;` begins with; the number of the pieces where there is none.
fn comment_at(line: &Line<'_>, kind: Kind) -> usize {
    for place in 0..line.pieces.len() {
        if let Some(token) = line.token(place)
            && stands_behind(line, place, token)
        {
            let before = place.saturating_sub(1);
            let is_bare = matches!(kind, Kind::Bare | Kind::End);
            return if is_bare
                && before == line.word.saturating_add(1)
                && is_plain_name(line, before)
            {
                before
            } else {
                place
            };
        }
    }
    line.pieces.len()
}

/// The statement of a line with these pieces, of which this is the place of the word.
pub(crate) fn statement_of<'a>(
    bytes: &'a [u8],
    pieces: &'a [Piece<'a>],
    word: usize,
) -> Statement<'a> {
    let whole = Line {
        bytes,
        pieces,
        word,
    };
    let kind = kind_on(&whole);
    let end = comment_at(&whole, kind);
    if end >= pieces.len() {
        return Statement {
            line: whole,
            kind,
            comment: None,
        };
    }
    let comment = pieces[end].from;
    Statement {
        line: Line {
            bytes,
            pieces: pieces.split_at(end).0,
            word,
        },
        kind,
        comment: Some(comment),
    }
}

/// Whether a piece is of an operand.
fn is_of(line: &Line<'_>, place: usize, operand: u8) -> bool {
    place > line.word
        && line.operand(place) == operand
        && !(matches!(line.token(place), Some(Token::Comma)) && line.depth(place) == 0)
}

/// The place of the first piece of an operand; the number of the pieces where it has none.
fn first_of(line: &Line<'_>, operand: u8) -> usize {
    for place in 0..line.pieces.len() {
        if is_of(line, place, operand) {
            return place;
        }
    }
    line.pieces.len()
}

/// The place behind the last piece of an operand; 0 where it has none.
fn end_of(line: &Line<'_>, operand: u8) -> usize {
    let mut end = 0;
    for place in 0..line.pieces.len() {
        if is_of(line, place, operand) {
            end = place.saturating_add(1);
        }
    }
    end
}

impl<'a> Statement<'a> {
    /// The pieces of an operand, from 0.
    pub(crate) fn operand(&self, operand: u8) -> &'a [Piece<'a>] {
        let from = first_of(&self.line, operand);
        let to = end_of(&self.line, operand);
        self.line.pieces.get(from..to).unwrap_or(&[])
    }

    /// Where the label or name before the word stands, if there is one.
    pub(crate) fn label(&self) -> Option<(usize, usize)> {
        if self.line.word == 0 {
            return None;
        }
        let piece = self.line.pieces.first()?;
        Some((piece.from, piece.to))
    }

    /// The bytes of an operand, from 0.
    pub(crate) fn text(&self, operand: u8) -> &'a [u8] {
        bytes_of(self.line.bytes, self.operand(operand)).unwrap_or(&[])
    }
}

/// Where pieces begin on their line, and where they end.
pub(crate) fn span_of(pieces: &[Piece<'_>]) -> Option<(usize, usize)> {
    match (pieces.first(), pieces.last()) {
        (Some(first), Some(last)) => Some((first.from, last.to)),
        _ => None,
    }
}

/// The bytes of pieces.
pub(crate) fn bytes_of<'a>(line: &'a [u8], pieces: &[Piece<'_>]) -> Option<&'a [u8]> {
    let (from, to) = span_of(pieces)?;
    line.get(from..to)
}
