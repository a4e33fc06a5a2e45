//! The columns of a trace.

ghost use Rattle.gw_writing.specs.Columns.{padded};
ghost use Rattle.gw_writing.specs.Text.{Puts};
ghost use Rattle.gw_trace.specs.Columns.{number_or_dash};

use gw_object::Memory;
use gw_writing::put_padded;
use itoa::{Buffer, Integer};

/// A number, with blanks before it up to a width.
pub(crate) fn put_column<I: Integer>(
    out: &mut Vec<u8>,
    width: usize,
    number: I,
) -> Result<(), Memory>
    ensures { Puts result out.old out.new (padded width (I.text number)) }
{
    let mut buffer = Buffer::new();
    put_padded(out, width, buffer.format(number).as_bytes())
}

/// A number from 1, or a dash for 0, which stands for none.
pub(crate) fn put_number_or_dash(out: &mut Vec<u8>, width: usize, number: u64) -> Result<(), Memory>
    ensures { Puts result out.old out.new (padded width (number_or_dash number)) }
{
    if number == 0 {
        put_padded(out, width, b"-")
    } else {
        put_column(out, width, number)
    }
}
