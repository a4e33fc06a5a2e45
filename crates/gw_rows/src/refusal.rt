//! A refusal as a row.

ghost use Rattle.std.specs.Prelude.{◌≡◌, ◌++◌, IfOk, IfSome, OnOk, IsTrue};
ghost use Rattle.gw_rows.specs.Reading.{IsLine};
ghost use Rattle.gw_rows.specs.Refusals as model;

use crate::header::is_line;
use crate::record::copy_of;
use csv::{ByteRecord, ReaderBuilder};
use gw_object::Memory;
use gw_records::put_line;
use std::alloc::Global;

/// What a model is refused with.
#[derive(Drop)]
pub struct Refused {
    /// The digest of the model text.
    pub model: Vec<u8>,
    /// What is told of the refusal.
    pub text: Vec<u8>,
}

/// A byte as it stands in a field of one line.
fn put_byte(out: &mut Vec<u8>, byte: u8) -> Result<(), Memory>
    ensures { OnOk result (out.new.items ≡ out.old.items ++ model.byte_in_line byte) }
{
    match byte {
        b'\n' => out.extend_from_slice(b"\\n"),
        b'\r' => out.extend_from_slice(b"\\r"),
        b'\\' => out.extend_from_slice(b"\\\\"),
        _ => {
            out.push(byte)?;
            Ok(())
        }
    }
}

/// A text in a field of one line: `\n` stands for a line feed, `\r` for a carriage return, `\\` for a `\`.
#[tactic(auto, unfolding(crate::specs::Refusals::in_one_line))]
fn in_one_line(alloc: Global, text: &[u8]) -> Result<Vec<u8>, Memory>
    ensures { IfOk result (λ out. out.items ≡ model.in_one_line text.now) }
{
    let mut out = Vec::new(alloc);
    for i in 0..text.len() {
        put_byte(&mut out, text[i])?;
    }
    Ok(out)
}

/// The byte that stands behind a `\` in such a field.
fn meant(byte: u8) -> u8 {
    match byte {
        b'n' => b'\n',
        b'r' => b'\r',
        _ => byte,
    }
}

/// The text of such a field.
fn of_one_line(alloc: Global, field: &[u8]) -> Result<Vec<u8>, Memory> {
    let mut text = Vec::new(alloc);
    let mut is_meant = false;
    for byte in field {
        if is_meant {
            text.push(meant(*byte))?;
            is_meant = false;
        } else if *byte == b'\\' {
            is_meant = true;
        } else {
            text.push(*byte)?;
        }
    }
    Ok(text)
}

/// The row of a refusal, behind others.
fn put_row(alloc: Global, out: &mut Vec<u8>, digest: &[u8], text: &[u8]) -> Result<(), Memory>
    ensures { OnOk result (out.new.items ≡ out.old.items ++ model.refusal_row digest.now text.now) }
{
    let field = in_one_line(alloc, text)?;
    put_line(alloc, out, &[digest, &field])
}

/// What a model of this digest is refused with as two lines, behind others: the names of the fields, and the row.
pub fn put_refusal(
    alloc: Global,
    out: &mut Vec<u8>,
    digest: &[u8],
    text: &[u8],
) -> Result<(), Memory>
    ensures { OnOk result (out.new.items ≡ out.old.items ++ model.refusal_rows digest.now text.now) }
{
    out.extend_from_slice(b"model,refusal\n")?;
    put_row(alloc, out, digest, text)
}

/// Whether a line without its line feed is the one before a refusal's row.
pub fn is_refusal_header(line: &[u8]) -> bool
    ensures { IsTrue result → IsLine line.now model.refusal_header }
{
    is_line(line, b"model,refusal\n")
}

/// The first record of a line.
fn record_in(alloc: Global, line: &[u8]) -> Result<ByteRecord, Memory> {
    let mut reader = ReaderBuilder::new()
        .has_headers(false)
        .from_reader(alloc, line);
    let mut record = ByteRecord::new(alloc);
    match reader.read_byte_record(&mut record) {
        Ok(_) => Ok(record),
        Err(_) => Err(Memory),
    }
}

/// The two fields of a record, where the second is a text in one line.
fn fields_in(alloc: Global, record: &ByteRecord) -> Result<Refused, Memory> {
    Ok(Refused {
        model: copy_of(alloc, record.get(0).unwrap_or(b""))?,
        text: of_one_line(alloc, record.get(1).unwrap_or(b""))?,
    })
}

/// Whether a line is that of a refusal's row.
fn is_line_of(alloc: Global, line: &[u8], refused: &Refused) -> Result<bool, Memory>
    ensures { IfOk result (λ is.
        IsTrue is → IsLine line.now (model.row_of_refusal refused.now)) }
{
    let mut again = Vec::new(alloc);
    put_row(alloc, &mut again, &refused.model, &refused.text)?;
    Ok(is_line(line, &again))
}

/// The refusal of a line without its line feed, if it is the row of one.
pub fn refused_in(alloc: Global, line: &[u8]) -> Result<Option<Refused>, Memory>
    ensures { IfOk result (λ found.
        IfSome found (λ refused. IsLine line.now (model.row_of_refusal refused))) }
{
    let record = record_in(alloc, line)?;
    let refused = fields_in(alloc, &record)?;
    if is_line_of(alloc, line, &refused)? {
        Ok(Some(refused))
    } else {
        Ok(None)
    }
}
