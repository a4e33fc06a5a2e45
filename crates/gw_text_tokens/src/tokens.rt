//! The tokens of a line.

ghost use Rattle.std.specs.Prelude.{◌≡◌, ◌≢◌, ◌≤◌, ◌-◌, ◌^◌, ◌∷◌, [], length, take, drop, min, IfOk, IfSome, MatchOption};
ghost use Rattle.gw_text_tokens.specs.Heads.{name_length, digits_length};
ghost use Rattle.gw_text_tokens.specs.Tokens.{IsNoLabel, IsNumberAt, IsTokenAt};
ghost use Rattle.gw_text_tokens.specs.Lines.{after_blanks};
ghost use Rattle.gw_text_tokens.specs.Numbers.{spelled_number};

use crate::characters::{after_blanks, is_in_name, is_spelled};
use gw_num::Binary;
use std::alloc::{AllocError, Global};

/// A token.
#[derive(Clone, Copy)]
pub enum Token<'a> {
    /// A letter, then letters, digits and `_`, as they are written.
    Name(&'a [u8]),
    /// A whole number; one past 64 bits is the greatest of them.
    Whole(u64),
    /// A number with a point.
    Decimal(Decimal),
    /// A string, in double quotes.
    Text,
    /// An operator between operands, but for those below.
    Operator(Binary),
    /// `+`.
    Plus,
    /// `-`.
    Minus,
    /// `=`.
    Equals,
    /// `'NOT'`.
    Not,
    /// `/`.
    Slash,
    /// `*`.
    Star,
    /// `,`.
    Comma,
    /// `(`.
    Open,
    /// `)`.
    Close,
    /// `$`.
    Dollar,
    /// `;`.
    Semicolon,
    /// A byte that no token has.
    Unknown,
}

/// A number with a point.
#[derive(Clone, Copy)]
pub struct Decimal {
    /// What stands before the point, if something does.
    pub whole: Option<u64>,
    /// What stands behind it, in millionths; digits after the sixth are left away.
    pub millionths: u32,
    /// How many digits stand behind it.
    pub places: usize,
}

/// What a line has at its front: a token and what follows it, or nothing where it is blank.
pub fn next_token(line: &[u8]) -> Option<(Token<'_>, &[u8])>
    ensures blank { MatchOption result (after_blanks line.now ≡ []) (λ x. after_blanks line.now ≢ []) }
    ensures token { IfSome result (λ x. IsTokenAt (after_blanks line.now) x.0 x.1.now) }
{
    let left = after_blanks(line);
    match left {
        [byte, rest @ ..] => Some(token_at(*byte, left, rest)),
        [] => None,
    }
}

/// The token that begins with this byte, of what is left of the line; `rest` is what follows the byte.
fn token_at<'a>(byte: u8, left: &'a [u8], rest: &'a [u8]) -> (Token<'a>, &'a [u8])
    requires { left.now ≡ byte ∷ rest.now }
    ensures { IsTokenAt left.now result.0 result.1.now }
{
    if byte.is_ascii_alphabetic() {
        let (name, rest) = split_name(left);
        (Token::Name(name), rest)
    } else if byte.is_ascii_digit() {
        number(left)
    } else {
        match byte {
            b'.' => decimal_after(None, left, rest),
            b'\'' => quoted(rest),
            b'"' => (Token::Text, after_text(rest)),
            b'>' | b'<' | b'!' => comparison(byte, rest),
            _ => (symbol(byte), rest),
        }
    }
}

/// The token that is this byte alone.
fn symbol(byte: u8) -> Token<'static>
    ensures { IsNoLabel result }
{
    match byte {
        b'+' => Token::Plus,
        b'-' => Token::Minus,
        b'=' => Token::Equals,
        b'/' => Token::Slash,
        b'*' => Token::Star,
        b',' => Token::Comma,
        b'(' => Token::Open,
        b')' => Token::Close,
        b'$' => Token::Dollar,
        b';' => Token::Semicolon,
        b'^' => Token::Operator(Binary::Power),
        b'#' => Token::Operator(Binary::Multiply),
        b'\\' => Token::Operator(Binary::Divide),
        b'@' => Token::Operator(Binary::Remainder),
        b'&' => Token::Operator(Binary::And),
        b'|' => Token::Operator(Binary::Or),
        _ => Token::Unknown,
    }
}

/// A comparison that begins with `>`, `<` or `!`.
fn comparison(byte: u8, rest: &[u8]) -> (Token<'_>, &[u8])
    ensures { IsNoLabel result.0 }
{
    match (byte, rest) {
        (b'>', [b'=', rest @ ..]) => (Token::Operator(Binary::GreaterOrEqual), rest),
        (b'<', [b'=', rest @ ..]) => (Token::Operator(Binary::LessOrEqual), rest),
        (b'!', [b'=', rest @ ..]) => (Token::Operator(Binary::NotEqual), rest),
        (b'>', rest) => (Token::Operator(Binary::Greater), rest),
        (b'<', rest) => (Token::Operator(Binary::Less), rest),
        (_, rest) => (Token::Unknown, rest),
    }
}

/// An operator in single quotes, of what follows the first quote.
fn quoted(rest: &[u8]) -> (Token<'_>, &[u8])
    ensures { IsNoLabel result.0 }
{
    let (word, after) = split_name(rest);
    match (quoted_operator(word), after) {
        (Some(token), [b'\'', after @ ..]) => (token, after),
        _ => (Token::Unknown, rest),
    }
}

const QUOTED: [(&[u8], Binary); 8] = [
    (b"AND", Binary::And),
    (b"OR", Binary::Or),
    (b"E", Binary::Equal),
    (b"NE", Binary::NotEqual),
    (b"G", Binary::Greater),
    (b"GE", Binary::GreaterOrEqual),
    (b"L", Binary::Less),
    (b"LE", Binary::LessOrEqual),
];

/// The operator that is this word in quotes.
fn quoted_operator(word: &[u8]) -> Option<Token<'static>>
    ensures { IfSome result IsNoLabel }
{
    if is_spelled(word, b"NOT") {
        return Some(Token::Not);
    }
    for entry in &QUOTED {
        if is_spelled(word, entry.0) {
            return Some(Token::Operator(entry.1));
        }
    }
    None
}

/// A whole number, or a number with a point behind one.
fn number(left: &[u8]) -> (Token<'_>, &[u8])
    ensures { IsNumberAt (drop (digits_length left.now) left.now) result.0 result.1.now }
{
    let (digits, after) = split_digits(left);
    match after {
        [b'.', rest @ ..] => decimal_after(Some(value_of(digits)), after, rest),
        _ => (Token::Whole(value_of(digits)), after),
    }
}

/// A number with a point, from its point on; `rest` is what follows the point.
fn decimal_after<'a>(whole: Option<u64>, left: &'a [u8], rest: &'a [u8]) -> (Token<'a>, &'a [u8])
    ensures { IsNoLabel result.0 }
{
    let (digits, after) = split_digits(rest);
    if digits.is_empty() {
        match left {
            [_, rest @ ..] => (Token::Unknown, rest),
            [] => (Token::Unknown, left),
        }
    } else {
        let token = Decimal {
            whole,
            millionths: millionths_of(digits),
            places: digits.len(),
        };
        (Token::Decimal(token), after)
    }
}

/// The number that digits spell; one past 64 bits is the greatest of them.
pub fn value_of(digits: &[u8]) -> u64
    ensures { result ≡ min (2 ^ 64 - 1) (spelled_number 0 digits.now) }
{
    let mut value: u64 = 0;
    for digit in digits {
        value = value
            .saturating_mul(10)
            .saturating_add(u64::from(digit.saturating_sub(b'0')));
    }
    value
}

/// The first six of the digits behind a point, filled to six.
fn millionths_of(digits: &[u8]) -> u32 {
    let mut value: u32 = 0;
    for i in 0..6usize {
        let digit = digits.get(i).copied().unwrap_or(b'0');
        value = value
            .saturating_mul(10)
            .saturating_add(u32::from(digit.saturating_sub(b'0')));
    }
    value
}

/// The name at the front, and what follows it.
fn split_name(bytes: &[u8]) -> (&[u8], &[u8])
    ensures name { result.0.now ≡ take (name_length bytes.now) bytes.now }
    ensures rest { result.1.now ≡ drop (name_length bytes.now) bytes.now }
{
    bytes.split_at(name_length(bytes))
}

/// How many bytes at the front may be of a name.
fn name_length(bytes: &[u8]) -> usize
    ensures length { result ≡ name_length bytes.now }
    ensures within { result ≤ length bytes.now }
{
    for length in 0..bytes.len() {
        if !is_in_name(bytes[length]) {
            return length;
        }
    }
    bytes.len()
}

/// The digits at the front, and what follows them.
fn split_digits(bytes: &[u8]) -> (&[u8], &[u8])
    ensures digits { result.0.now ≡ take (digits_length bytes.now) bytes.now }
    ensures rest { result.1.now ≡ drop (digits_length bytes.now) bytes.now }
{
    bytes.split_at(digits_length(bytes))
}

/// How many digits stand at the front.
fn digits_length(bytes: &[u8]) -> usize
    ensures length { result ≡ digits_length bytes.now }
    ensures within { result ≤ length bytes.now }
{
    for length in 0..bytes.len() {
        if !bytes[length].is_ascii_digit() {
            return length;
        }
    }
    bytes.len()
}

/// What follows a string, of what follows its first quote.
fn after_text(rest: &[u8]) -> &[u8] {
    for (i, byte) in rest.iter().enumerate() {
        if *byte == b'"' {
            return &rest[i + 1..];
        }
    }
    &[]
}

/// The tokens of a line up to its comment.
pub fn tokens_of(alloc: Global, line: &[u8]) -> Result<Vec<Token<'_>>, AllocError>
    ensures { IfOk result (λ tokens. length tokens.items ≤ length line.now) }
{
    let mut tokens = Vec::new(alloc);
    let mut left = line;
    for _token in 0..line.len() {
        match next_token(left) {
            None | Some((Token::Semicolon, _)) => return Ok(tokens),
            Some((token, rest)) => {
                tokens.push(token)?;
                left = rest;
            }
        }
    }
    Ok(tokens)
}
