//! Records behind text. Each call fails for want of memory alone.

ghost use Rattle.std.specs.Prelude.{◌≡◌, map, IfOk};
ghost use Rattle.csv.specs.Writing.{default_writer, row_text, with_terminator};
ghost use Rattle.gw_records.specs.Records as model;
ghost use Rattle.gw_writing.specs.Text.{Puts};

use csv::{Terminator, WriterBuilder};
use std::alloc::{AllocError, Global};

/// A record of fields, with its end.
fn record_of(alloc: Global, terminator: Terminator, fields: &[&[u8]]) -> Result<Vec<u8>, AllocError>
    ensures { IfOk result (λ made.
        made.items ≡ row_text (with_terminator default_writer terminator) (map (λ f. f.now) fields.now)) }
{
    let mut writer = WriterBuilder::new()
        .terminator(terminator)
        .from_writer(Vec::new(alloc));
    if writer.write_fields(fields).is_err() {
        return Err(AllocError);
    }
    match writer.into_inner() {
        Ok(record) => Ok(record),
        Err(_) => Err(AllocError),
    }
}

/// A record of fields, with a carriage return and a line feed at its end (RFC 4180).
#[tactic(auto, unfolding(crate::specs::Records::record_text))]
pub fn put_record(alloc: Global, out: &mut Vec<u8>, fields: &[&[u8]]) -> Result<(), AllocError>
    ensures { Puts result out.old out.new (model.record_text (map (λ f. f.now) fields.now)) }
{
    let record = record_of(alloc, Terminator::CRLF, fields)?;
    out.extend_from_slice(&record)
}

/// The same with a line feed alone.
pub fn put_line(alloc: Global, out: &mut Vec<u8>, fields: &[&[u8]]) -> Result<(), AllocError>
    ensures { Puts result out.old out.new (row_text default_writer (map (λ f. f.now) fields.now)) }
{
    let record = record_of(alloc, Terminator::Any(b'\n'), fields)?;
    out.extend_from_slice(&record)
}
