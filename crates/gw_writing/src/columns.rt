//! Columns of a table. Each call fails for want of memory alone.

ghost use Rattle.std.specs.Prelude.{replicate};
ghost use Rattle.gw_writing.specs.Columns as model;
ghost use Rattle.gw_writing.specs.Text.{Puts};

use std::alloc::AllocError;

/// So many blanks.
fn put_blanks(out: &mut Vec<u8>, blanks: usize) -> Result<(), AllocError>
    ensures { Puts result out.old out.new (replicate blanks 32) }
{
    for _ in 0..blanks {
        out.push(b' ')?;
    }
    Ok(())
}

/// A text with blanks behind it, so many bytes wide or as wide as it is.
#[tactic(auto, unfolding(crate::specs::Columns::left))]
pub fn put_left(out: &mut Vec<u8>, width: usize, text: &[u8]) -> Result<(), AllocError>
    ensures { Puts result out.old out.new (model.left width text.now) }
{
    out.extend_from_slice(text)?;
    put_blanks(out, width.saturating_sub(text.len()))
}

/// A text with blanks before it, so many bytes wide or as wide as it is.
#[tactic(auto, unfolding(crate::specs::Columns::padded))]
pub fn put_padded(out: &mut Vec<u8>, width: usize, text: &[u8]) -> Result<(), AllocError>
    ensures { Puts result out.old out.new (model.padded width text.now) }
{
    put_blanks(out, width.saturating_sub(text.len()))?;
    out.extend_from_slice(text)
}

/// A blank, and the same.
#[tactic(auto, unfolding(crate::specs::Columns::right))]
pub fn put_right(out: &mut Vec<u8>, width: usize, text: &[u8]) -> Result<(), AllocError>
    ensures { Puts result out.old out.new (model.right width text.now) }
{
    out.push(b' ')?;
    put_padded(out, width, text)
}
