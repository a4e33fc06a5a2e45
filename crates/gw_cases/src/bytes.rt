//! Bytes in hexadecimal digits.

ghost use Rattle.std.specs.Prelude.{◌<◌, IfSome};

use crate::stop::Stop;
use crate::words::words_of;
use std::alloc::{AllocError, Global};

/// The sixteen digits.
const DIGITS: [u8; 16] = *b"0123456789abcdef";

/// The value of a hexadecimal digit.
fn digit(byte: u8) -> Option<u8>
    ensures { IfSome result (λ value. value < 16) }
{
    match byte {
        b'0'..=b'9' => Some(byte - b'0'),
        b'a'..=b'f' => Some(byte - b'a' + 10),
        _ => None,
    }
}

/// The byte that two hexadecimal digits spell.
fn byte_of(word: &[u8]) -> Result<u8, Stop> {
    match word {
        [high, low] => match (digit(*high), digit(*low)) {
            (Some(high), Some(low)) => Ok(high * 16 + low),
            _ => Err(Stop::Unknown),
        },
        _ => Err(Stop::Unknown),
    }
}

/// Appends the bytes that words spell.
pub fn put_words(out: &mut Vec<u8>, words: &[&[u8]]) -> Result<(), Stop> {
    for word in words {
        out.push(byte_of(word)?)?;
    }
    Ok(())
}

/// What stands before a `;` in a line.
fn before_comment(line: &[u8]) -> &[u8] {
    match line.iter().position(|byte| *byte == b';') {
        Some(end) => &line[..end],
        None => line,
    }
}

/// Appends the bytes that a line spells in front of its comment.
pub fn put_line(alloc: Global, out: &mut Vec<u8>, line: &[u8]) -> Result<(), Stop> {
    let words = words_of(alloc, before_comment(line))?;
    put_words(out, words.as_slice())
}

/// Appends bytes in hexadecimal digits, with a blank between two.
pub fn put_hex(out: &mut Vec<u8>, bytes: &[u8]) -> Result<(), AllocError> {
    for i in 0..bytes.len() {
        if i > 0 {
            out.push(b' ')?;
        }
        let byte = bytes[i];
        out.push(DIGITS[(byte / 16) as usize])?;
        out.push(DIGITS[(byte % 16) as usize])?;
    }
    Ok(())
}
