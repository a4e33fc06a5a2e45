//! Names in a line.

ghost use Rattle.std.specs.Prelude.{◌++◌};
ghost use Rattle.gw_writing.specs.Text.{Puts};

use gw_object::Memory;
use gw_writing::put;

/// A text, and the name of an entity after it.
pub(crate) fn put_name(out: &mut Vec<u8>, text: &str, name: &[u8]) -> Result<(), Memory>
    ensures { Puts result out.old out.new (text.now ++ name.now) }
{
    put(out, text)?;
    out.extend_from_slice(name)
}
