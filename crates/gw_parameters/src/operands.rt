//! Where the number of a name stands on a line.

ghost use Rattle.std.specs.Prelude.{◌≡◌, option_copied, option_map};
ghost use Rattle.gw_text_tokens.specs.Lines.{after_blanks as behind_blanks};
ghost use Rattle.gw_parameters.specs.Operands as model;

use gw_text_tokens::is_spelled;
use gw_text_tokens::lines::is_empty;
use gw_text_tokens::tokens::{Token, next_token};

/// What follows the blanks at the front.
#[tactic(auto, using(crate::proofs::Blanks::at_place))]
fn after_blanks(bytes: &[u8]) -> &[u8]
    ensures { result.now ≡ behind_blanks bytes.now }
{
    for i in 0..bytes.len() {
        if bytes[i] != b' ' && bytes[i] != b'\t' {
            return bytes.split_at(i).1;
        }
    }
    &[]
}

/// A rest where a name is this word.
fn if_word<'a>(name: &[u8], word: &[u8], rest: &'a [u8]) -> Option<&'a [u8]>
    ensures { option_copied result ≡ model.rest_if_word name.now word.now rest.now }
{
    if is_spelled(name, word) {
        Some(rest)
    } else {
        None
    }
}

/// What follows a word at the front, behind blanks, in upper or lower case.
fn after_word<'a>(bytes: &'a [u8], word: &[u8]) -> Option<&'a [u8]>
    ensures { option_copied result ≡ model.after_word word.now bytes.now }
{
    match next_token(bytes) {
        Some((Token::Name(name), rest)) => if_word(name, word, rest),
        _ => None,
    }
}

/// What follows a sign at the front, behind blanks.
fn after_sign(bytes: &[u8], sign: u8) -> Option<&[u8]>
    ensures { option_copied result ≡ model.after_sign sign bytes.now }
{
    match after_blanks(bytes) {
        [byte, rest @ ..] if *byte == sign => Some(rest),
        _ => None,
    }
}

/// What follows a name and a word behind it.
fn after_words<'a>(line: &'a [u8], name: &[u8], word: &[u8]) -> Option<&'a [u8]>
    ensures { option_copied result ≡ model.after_words name.now word.now line.now }
{
    match after_word(line, name) {
        Some(rest) => after_word(rest, word),
        None => None,
    }
}

/// What follows `INITIAL X$`.
fn after_savevalue(line: &[u8]) -> Option<&[u8]>
    ensures { option_copied result ≡ model.after_savevalue line.now }
{
    match after_words(line, b"INITIAL", b"X") {
        Some(rest) => after_sign(rest, b'$'),
        None => None,
    }
}

/// What follows a name and a comma.
fn after_name<'a>(rest: &'a [u8], name: &[u8]) -> Option<&'a [u8]>
    ensures { option_copied result ≡ model.after_name name.now rest.now }
{
    match after_word(rest, name) {
        Some(rest) => after_sign(rest, b','),
        None => None,
    }
}

/// What follows `INITIAL X$` and a name, and a comma behind it.
fn after_initial<'a>(line: &'a [u8], name: &[u8]) -> Option<&'a [u8]>
    ensures { option_copied result ≡ model.after_initial name.now line.now }
{
    match after_savevalue(line) {
        Some(rest) => after_name(rest, name),
        None => None,
    }
}

/// What follows the front of the line of a name, `NAME STORAGE`, `NAME EQU` or `INITIAL X$NAME,`, if it is one.
#[tactic(auto, unfolding(crate::specs::Operands::operand_of))]
pub(crate) fn operand_of<'a>(line: &'a [u8], name: &[u8]) -> Option<&'a [u8]>
    ensures { option_copied result ≡ model.operand_of name.now line.now }
{
    if let Some(rest) = after_words(line, name, b"STORAGE") {
        return Some(rest);
    }
    if let Some(rest) = after_words(line, name, b"EQU") {
        return Some(rest);
    }
    after_initial(line, name)
}

/// What follows digits at the front, behind blanks.
fn after_digits(bytes: &[u8]) -> Option<&[u8]>
    ensures { option_copied result ≡ model.after_digits bytes.now }
{
    match next_token(bytes) {
        Some((Token::Whole(_), rest)) => Some(rest),
        _ => None,
    }
}

/// What follows a whole number, with a `-` or none.
fn after_number(bytes: &[u8]) -> Option<&[u8]>
    ensures { option_copied result ≡ model.after_number bytes.now }
{
    match after_sign(bytes, b'-') {
        Some(rest) => after_digits(rest),
        None => after_digits(bytes),
    }
}

/// The rest of a line, where nothing but a comment is left.
fn if_last(rest: &[u8]) -> Option<&[u8]>
    ensures { option_copied result ≡ model.if_last rest.now }
{
    if is_empty(rest) { Some(rest) } else { None }
}

/// What follows the number that is all that an operand has.
#[tactic(auto, unfolding(crate::specs::Operands::after_plain_number))]
fn after_plain_number(operand: &[u8]) -> Option<&[u8]>
    ensures { option_copied result ≡ model.after_plain_number operand.now }
{
    match after_number(operand) {
        Some(rest) => if_last(rest),
        None => None,
    }
}

/// What stands before the number that an operand at the end of a line begins with, and what follows it.
fn cut_at<'a>(line: &'a [u8], operand: &[u8], rest: &'a [u8]) -> (&'a [u8], &'a [u8])
    ensures before { result.0.now ≡ model.front_of line.now operand.now }
    ensures rest { result.1.now ≡ rest.now }
{
    let number = after_blanks(operand);
    let (before, _) = line.split_at(line.len().saturating_sub(number.len()));
    (before, rest)
}

/// The same, if all that the operand has is a number.
fn cut_operand<'a>(line: &'a [u8], operand: &'a [u8]) -> Option<(&'a [u8], &'a [u8])>
    ensures { option_map (λ cut. (cut.0.now, cut.1.now)) result
        ≡ model.cut_operand line.now operand.now }
{
    match after_plain_number(operand) {
        Some(rest) => Some(cut_at(line, operand, rest)),
        None => None,
    }
}

/// What stands before the number on the line of a name, and what follows it.
#[tactic(auto, unfolding(crate::specs::Operands::cut_of))]
pub(crate) fn cut_of<'a>(line: &'a [u8], name: &[u8]) -> Option<(&'a [u8], &'a [u8])>
    ensures { option_map (λ cut. (cut.0.now, cut.1.now)) result ≡ model.cut_of name.now line.now }
{
    match operand_of(line, name) {
        Some(operand) => cut_operand(line, operand),
        None => None,
    }
}
