//! Records of CSV.

ghost use Rattle.std.specs.Prelude.{◌≡◌, ◌++◌, map, IfOk, OnOk};
ghost use Rattle.csv.specs.Writing.{default_writer, row_text};
ghost use Rattle.gw_rows.specs.Rows.{texts};

use gw_object::Memory;
use gw_records::put_line;
use std::alloc::Global;

/// Fields, lent.
fn lent<'a>(alloc: Global, fields: &'a [Vec<u8>]) -> Result<Vec<&'a [u8]>, Memory>
    ensures { IfOk result (λ lent. map (λ f. f.now) lent.items ≡ texts fields.now) }
{
    let mut lent = Vec::new(alloc);
    for i in 0..fields.len() {
        lent.push(fields[i].as_slice())?;
    }
    Ok(lent)
}

/// A record of fields that have memory of their own, behind others.
pub(crate) fn put_owned(alloc: Global, out: &mut Vec<u8>, fields: &[Vec<u8>]) -> Result<(), Memory>
    ensures { OnOk result (out.new.items
        ≡ out.old.items ++ row_text default_writer (texts fields.now)) }
{
    let lent = lent(alloc, fields)?;
    put_line(alloc, out, &lent)
}

/// A copy of a field.
pub(crate) fn copy_of(alloc: Global, field: &[u8]) -> Result<Vec<u8>, Memory>
    ensures { IfOk result (λ copy. copy.items ≡ field.now) }
{
    let mut copy = Vec::with_capacity(alloc, field.len())?;
    copy.extend_from_slice(field)?;
    Ok(copy)
}
