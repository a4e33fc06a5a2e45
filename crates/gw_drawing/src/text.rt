//! Pieces of text, and text of an SVG document.

ghost use Rattle.std.specs.Prelude.{◌≡◌, ◌++◌, OnOk};
ghost use Rattle.std.specs.Fmt.{decimal};
ghost use Rattle.gw_drawing.specs.Text as model;

use gw_object::Memory;
use gw_writing::{put, put_decimal, sign_of};
use itoa::Buffer;

/// A byte as it stands in XML.
fn put_escaped_byte(out: &mut Vec<u8>, byte: u8) -> Result<(), Memory>
    ensures { OnOk result (out.new.items ≡ out.old.items ++ model.escaped_byte byte) }
{
    match byte {
        b'&' => put(out, "&amp;"),
        b'<' => put(out, "&lt;"),
        b'>' => put(out, "&gt;"),
        b'"' => put(out, "&quot;"),
        _ => {
            out.push(byte)?;
            Ok(())
        }
    }
}

/// A text as it stands in XML.
#[tactic(auto, unfolding(crate::specs::Text::xml_text))]
pub fn put_escaped(out: &mut Vec<u8>, text: &[u8]) -> Result<(), Memory>
    ensures { OnOk result (out.new.items ≡ out.old.items ++ model.xml_text text.now) }
{
    for i in 0..text.len() {
        put_escaped_byte(out, text[i])?;
    }
    Ok(())
}

/// Tenths, with a point before the last digit.
pub fn put_tenths(out: &mut Vec<u8>, tenths: u64) -> Result<(), Memory>
    ensures { OnOk result (out.new.items ≡ out.old.items ++ model.tenths tenths) }
{
    put_decimal(out, 1, u128::from(tenths))
}

/// A digit that so many follow, with a comma before each three of them.
fn put_digit(out: &mut Vec<u8>, digit: u8, left: usize) -> Result<(), Memory>
    ensures { OnOk result (out.new.items ≡ out.old.items ++ model.digit digit left) }
{
    out.push(digit)?;
    if left > 0 && left % 3 == 0 {
        out.push(b',')?;
    }
    Ok(())
}

/// Digits, with a comma before each three of them.
#[tactic(auto, unfolding(crate::specs::Text::digits_in_threes))]
fn put_digits(out: &mut Vec<u8>, digits: &[u8]) -> Result<(), Memory>
    ensures { OnOk result (out.new.items ≡ out.old.items ++ model.digits_in_threes digits.now) }
{
    for i in 0..digits.len() {
        put_digit(out, digits[i], digits.len() - 1 - i)?;
    }
    Ok(())
}

/// A number, with a comma before each three of its digits.
pub fn put_grouped(out: &mut Vec<u8>, number: u128) -> Result<(), Memory>
    ensures { OnOk result (out.new.items ≡ out.old.items ++ model.digits_in_threes (decimal number)) }
{
    let mut buffer = Buffer::new();
    put_digits(out, buffer.format(number).as_bytes())
}

/// The same of a number that may lie below 0.
pub fn put_signed(out: &mut Vec<u8>, number: i128) -> Result<(), Memory>
    ensures { OnOk result (out.new.items ≡ out.old.items ++ model.signed_grouped number) }
{
    put(out, sign_of(number < 0))?;
    put_grouped(out, number.unsigned_abs())
}

/// Where a text begins, and how it lies there.
pub fn put_text_at(out: &mut Vec<u8>, x: u64, y: u64, how: &str) -> Result<(), Memory>
    ensures { OnOk result (out.new.items ≡ out.old.items ++ model.text_at x y how.now) }
{
    put(out, "<text x=\"")?;
    put_tenths(out, x)?;
    put(out, "\" y=\"")?;
    put_tenths(out, y)?;
    put(out, "\"")?;
    put(out, how)?;
    put(out, ">")
}

/// A level line from the left end of a plot to its right end.
pub fn put_level_line(out: &mut Vec<u8>, y: u64) -> Result<(), Memory>
    ensures { OnOk result (out.new.items ≡ out.old.items ++ model.level_line y) }
{
    put(out, "<path d=\"M80.0 ")?;
    put_tenths(out, y)?;
    put(out, "H700.0\" stroke=\"#ddd\"/>\n")
}

/// A number as a text.
pub fn put_label(out: &mut Vec<u8>, x: u64, y: u64, how: &str, number: u128) -> Result<(), Memory>
    ensures { OnOk result (out.new.items ≡ out.old.items ++ model.label x y how.now number) }
{
    put_text_at(out, x, y, how)?;
    put_grouped(out, number)?;
    put(out, "</text>\n")
}
