//! A line in pieces, as the forms are looked for in it.

ghost use Rattle.std.specs.Prelude.{◌≤◌, length, IfOk};

use gw_text_tokens::is_spelled;
use gw_text_tokens::tokens::{Token, next_token};
use gw_text_tokens::words::{Known, known_word};
use std::alloc::{AllocError, Global};

/// A token of a line.
#[derive(Clone, Copy)]
pub struct Piece<'a> {
    /// The token.
    pub token: Token<'a>,
    /// The place of its first byte, from 0.
    pub from: usize,
    /// The place behind its last byte.
    pub to: usize,
    /// The operand in which it stands, from 0: before it are so many commas outside of parentheses.
    pub operand: u8,
    /// Within how many parentheses it stands.
    pub depth: u8,
}

/// A line up to its comment.
#[derive(Clone, Copy)]
pub struct Line<'a> {
    /// Its bytes.
    pub bytes: &'a [u8],
    /// Its pieces.
    pub pieces: &'a [Piece<'a>],
    /// The place of its word among the pieces.
    pub word: usize,
}

/// How many blanks stand at the front.
fn blanks(line: &[u8]) -> usize {
    line.iter()
        .position(|byte| *byte != b' ' && *byte != b'\t')
        .unwrap_or(line.len())
}

/// The parentheses round what follows a token, and the operand of that.
fn beyond(token: Token<'_>, depth: u8, operand: u8) -> (u8, u8) {
    match token {
        Token::Open => (depth.saturating_add(1), operand),
        Token::Close => (depth.saturating_sub(1), operand),
        Token::Comma if depth == 0 => (depth, operand.saturating_add(1)),
        _ => (depth, operand),
    }
}

/// The pieces of a line up to its comment.
pub fn pieces_of(alloc: Global, line: &[u8]) -> Result<Vec<Piece<'_>>, AllocError> {
    let mut pieces = Vec::new(alloc);
    let mut left = line;
    let (mut depth, mut operand) = (0, 0);
    for _piece in 0..line.len() {
        let from = line
            .len()
            .saturating_sub(left.len())
            .saturating_add(blanks(left));
        match next_token(left) {
            None | Some((Token::Semicolon, _)) => return Ok(pieces),
            Some((token, rest)) => {
                let to = line.len().saturating_sub(rest.len());
                pieces.push(Piece {
                    token,
                    from,
                    to,
                    operand,
                    depth,
                })?;
                (depth, operand) = beyond(token, depth, operand);
                left = rest;
            }
        }
    }
    Ok(pieces)
}

/// The words of which the first letters may be written in GPSS World.
const WORDS: &[u8] =
    b"GENERATE TERMINATE ADVANCE RELEASE SEIZE ENTER LEAVE QUEUE DEPART ASSIGN TRANSFER ASSEMBLE SPLIT UNLINK LOGIC SAVEVALUE PRIORITY BUFFER TABULATE STORAGE VARIABLE BVARIABLE FVARIABLE FUNCTION TABLE QTABLE INITIAL START SIMULATE PROCEDURE PREEMPT RETURN MATCH GATHER SELECT COUNT MATRIX MSAVEVALUE RESET CLEAR";

/// Whether a name is the first letters of a word, but not all.
fn begins(word: &[u8], name: &[u8]) -> bool {
    name.len() < word.len() && is_spelled(name, word.split_at(name.len()).0)
}

/// Whether a name is the first letters of a word, three or more of them.
pub fn is_abbreviation(name: &[u8]) -> bool {
    name.len() >= 3
        && matches!(known_word(name), Known::Other)
        && WORDS
            .split(|byte| *byte == b' ')
            .any(|word| begins(word, name))
}

/// The word of which a name is the first letters, three or more of them: the first of these words, if it is that of several.
pub fn whole_word(name: &[u8]) -> Option<&'static [u8]> {
    if !is_abbreviation(name) {
        return None;
    }
    WORDS
        .split(|byte| *byte == b' ')
        .find(|word| begins(word, name))
}

/// Whether a name is the word of a statement, of this language or of GPSS World, or its first letters.
fn is_word(name: &[u8]) -> bool {
    !matches!(known_word(name), Known::Other) || is_abbreviation(name)
}

/// Whether a name is the word of a statement of this language.
fn is_word_here(name: &[u8]) -> bool {
    matches!(known_word(name), Known::Word(_))
}

/// Whether the first of two names is a label, and the second the word. A word that GPSS World alone has may be a label of a
/// statement of this language, as JOIN in `JOIN ASSEMBLE 5`.
fn is_label_before(first: &[u8], second: &[u8]) -> bool {
    if is_word_here(second) {
        !is_word_here(first)
    } else {
        !is_word(first) && is_word(second)
    }
}

/// The place of the word among the pieces of a line: behind a label, where one stands before it.
pub fn place_of_word(pieces: &[Piece<'_>]) -> usize {
    match (token_at(pieces, 0), token_at(pieces, 1)) {
        (Some(Token::Name(first)), Some(Token::Name(second))) if is_label_before(first, second) => {
            1
        }
        (Some(Token::Whole(_)), Some(Token::Name(second))) if is_word(second) => 1,
        _ => 0,
    }
}

/// The token of a piece, if there is one at this place.
pub fn token_at<'a>(pieces: &[Piece<'a>], place: usize) -> Option<Token<'a>> {
    Some(pieces.get(place)?.token)
}

impl<'a> Line<'a> {
    /// The token at a place, if there is one.
    pub fn token(&self, place: usize) -> Option<Token<'a>> {
        token_at(self.pieces, place)
    }

    /// The token behind a place, if there is one.
    pub fn next(&self, place: usize) -> Option<Token<'a>> {
        self.token(place.saturating_add(1))
    }

    /// The token before a place, if there is one.
    pub fn before(&self, place: usize) -> Option<Token<'a>> {
        if place == 0 {
            None
        } else {
            self.token(place - 1)
        }
    }

    /// The place behind the last byte of a piece.
    pub fn end(&self, place: usize) -> usize {
        self.pieces.get(place).map_or(0, |piece| piece.to)
    }

    /// The place behind the last byte of the operand in which a piece stands.
    pub fn end_of_operand(&self, place: usize) -> usize {
        let operand = self.operand(place);
        let mut end = self.end(place);
        for piece in self.pieces {
            if piece.operand == operand && !matches!(piece.token, Token::Comma) && piece.to > end {
                end = piece.to;
            }
        }
        end
    }

    /// The operand in which a piece stands, from 0.
    pub fn operand(&self, place: usize) -> u8 {
        self.pieces.get(place).map_or(0, |piece| piece.operand)
    }

    /// Whether a piece is the first of its operand.
    pub fn begins_operand(&self, place: usize) -> bool {
        place == self.word.saturating_add(1)
            || place > self.word
                && matches!(self.before(place), Some(Token::Comma))
                && self.depth(place) == 0
    }

    /// Within how many parentheses a piece stands.
    pub fn depth(&self, place: usize) -> u8 {
        self.pieces.get(place).map_or(0, |piece| piece.depth)
    }

    /// Whether blanks stand before a piece.
    pub fn stands_apart(&self, place: usize) -> bool {
        place > 0 && self.pieces.get(place).map_or(0, |piece| piece.from) > self.end(place - 1)
    }

    /// The place behind the last byte of all pieces.
    pub fn end_of_pieces(&self) -> usize {
        self.pieces.last().map_or(0, |piece| piece.to)
    }
}
