//! Text behind text. Each call fails for want of memory alone; a front of its text may stand then.

ghost use Rattle.std.specs.Prelude.{◌++◌};
ghost use Rattle.gw_writing.specs.Text.{Puts};

use itoa::{Buffer, Integer};
use std::alloc::AllocError;

/// A text.
pub fn put(out: &mut Vec<u8>, text: &str) -> Result<(), AllocError>
    ensures { Puts result out.old out.new text.now }
{
    out.extend_from_slice(text.as_bytes())
}

/// A text, and a number after it.
pub fn put_number<I: Integer>(out: &mut Vec<u8>, text: &str, number: I) -> Result<(), AllocError>
    ensures { Puts result out.old out.new (text.now ++ I.text number) }
{
    let mut buffer = Buffer::new();
    put(out, text)?;
    put(out, buffer.format(number))
}
