//! The form of GPSS World that a line has and this language hasn't: where it stands, and what stands in its place.

ghost use Rattle.std.specs.Prelude.{◌≡◌, ◌++◌, IfOk, IfSome, OnOk};
ghost use Rattle.std.specs.List.{flat_map};
ghost use Rattle.gw_writing.specs.Text.{Puts};
ghost use Rattle.gw_forms.specs.Places.{IsWithin};
ghost use Rattle.gw_explain.specs.Shown.{bytes_of};
ghost use Rattle.gw_explain.specs.Marks.{AddsMarks, blank_under, mark_under, front_of_line, marks_under, goes_on as goes_on_with};
ghost use Rattle.gw_explain.specs.Sitting.{IsSiteOf};

use crate::lines::text_line;
use gw_forms::{Form, Found, find_form};
use gw_object::{Fault, Memory, Place};
use gw_writing::{put, put_number};
use std::alloc::Global;

/// A form that is left out, on the line of a number.
#[derive(Clone, Copy)]
pub(crate) struct Site<'a> {
    /// The number of the line, from 1.
    pub(crate) number: u32,
    /// The line.
    pub(crate) line: &'a [u8],
    /// The form, and where it stands on the line.
    pub(crate) found: Found,
}

/// The form on a line of this number, if one is known there that leads to a refusal of this code.
fn site_on<'a>(
    alloc: Global,
    lines: &[&'a [u8]],
    number: u32,
    code: u16,
) -> Result<Option<Site<'a>>, Memory>
    ensures { IfOk result (λ site. IfSome site
        (λ s. IsSiteOf (bytes_of lines.now) (Place.Line number) s)) }
{
    let line = text_line(lines, number);
    match find_form(alloc, line, code)? {
        Some(found) => Ok(Some(Site {
            number,
            line,
            found,
        })),
        None => Ok(None),
    }
}

/// The form on the line of a refusal, if one is known there that leads to it.
pub(crate) fn site_of<'a>(
    alloc: Global,
    lines: &[&'a [u8]],
    fault: Fault,
) -> Result<Option<Site<'a>>, Memory>
    ensures { IfOk result (λ site. IfSome site
        (λ s. IsSiteOf (bytes_of lines.now) fault.place s)) }
{
    match fault.place {
        Place::Line(number) => site_on(alloc, lines, number, fault.code),
        _ => Ok(None),
    }
}

/// Whether a byte goes on with a letter of several bytes.
fn goes_on(byte: u8) -> bool
    ensures { result ≡ goes_on_with byte }
{
    (128..192).contains(&byte)
}

/// What stands under a byte that isn't at fault.
fn put_blank(out: &mut Vec<u8>, byte: u8) -> Result<(), Memory>
    ensures { Puts result out.old out.new (blank_under byte) }
{
    if goes_on(byte) {
        return Ok(());
    }
    put(out, if byte == 9 { "\t" } else { " " })
}

/// What stands under one that is.
fn put_caret(out: &mut Vec<u8>, byte: u8) -> Result<(), Memory>
    ensures { Puts result out.old out.new (mark_under byte) }
{
    if goes_on(byte) {
        return Ok(());
    }
    put(out, "^")
}

/// What stands under bytes that aren't at fault.
fn put_blanks(out: &mut Vec<u8>, bytes: &[u8]) -> Result<(), Memory>
    ensures { Puts result out.old out.new (flat_map blank_under bytes.now) }
{
    for byte in bytes {
        put_blank(out, *byte)?;
    }
    Ok(())
}

/// What stands under bytes that are.
fn put_carets(out: &mut Vec<u8>, bytes: &[u8]) -> Result<(), Memory>
    ensures { Puts result out.old out.new (flat_map mark_under bytes.now) }
{
    for byte in bytes {
        put_caret(out, *byte)?;
    }
    Ok(())
}

/// What stands before a line of this number where it is shown, and a front of the line.
fn front_with(alloc: Global, number: u32, front: &[u8]) -> Result<Vec<u8>, Memory>
    ensures { IfOk result (λ text. text.items ≡ front_of_line number ++ front.now) }
{
    let mut text = Vec::new(alloc);
    put_number(&mut text, "line ", number)?;
    put(&mut text, " | ")?;
    text.extend_from_slice(front)?;
    Ok(text)
}

/// The line of marks below a line, under the bytes from one place to another.
fn put_marks_under(
    alloc: Global,
    out: &mut Vec<u8>,
    number: u32,
    line: &[u8],
    from: usize,
    to: usize,
) -> Result<(), Memory>
    requires { IsWithin from to line.now }
    ensures { Puts result out.old out.new (marks_under number line.now from to) }
{
    let front = front_with(alloc, number, &line[..from])?;
    put_blanks(out, &front)?;
    put_carets(out, &line[from..to])?;
    put(out, "\n")
}

/// The marks below the line of a place, under the form that stands there, if one does.
pub(crate) fn put_marks(
    alloc: Global,
    out: &mut Vec<u8>,
    lines: &[&[u8]],
    place: Place,
    site: Option<Site<'_>>,
) -> Result<(), Memory>
    requires { IfSome site (λ s. IsSiteOf (bytes_of lines.now) place s) }
    ensures { OnOk result
        (AddsMarks (bytes_of lines.now) place out.old.items out.new.items) }
{
    match site {
        Some(s) => put_marks_under(alloc, out, s.number, s.line, s.found.from, s.found.to),
        None => Ok(()),
    }
}

/// What a form is in GPSS World, and what stands in its place here, each in a line, and below them lines that do so.
fn put_form(out: &mut Vec<u8>, form: Form) -> Result<(), Memory> {
    put(out, "known: ")?;
    put(out, form.name)?;
    put(out, ": in GPSS World ")?;
    put(out, form.gpss)?;
    put(out, "\nhere: ")?;
    put(out, form.here)?;
    if form.example.is_empty() {
        return put(out, "\n");
    }
    put(out, "; for example\n")?;
    put(out, form.example)?;
    put(out, "\n")
}

/// What is known of a refusal, and behind it the words on the form at its site, if one stands there.
pub(crate) fn put_words_on_site(
    out: &mut Vec<u8>,
    known: &[u8],
    site: Option<Site<'_>>,
) -> Result<(), Memory> {
    out.extend_from_slice(known)?;
    match site {
        Some(site) => put_form(out, site.found.form),
        None => Ok(()),
    }
}
