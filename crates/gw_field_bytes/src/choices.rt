//! Values of which there are few, so that a byte stands for each.

ghost use Rattle.std.specs.Prelude.{◌≡◌, ℕ, List, [], ◌∷◌};
ghost use Rattle.gw_fields.specs.Fields.{value_of, one_of};

use crate::receivers::Receiver;
use crate::spelled::Spelled;
use gw_fields::codes::TAG;
use gw_fields::{ReadError, fault};
use std::alloc::Global;
use std::marker::PhantomData;

/// A value for which a byte stands, in a format.
pub trait OneByte<Format>: Copy + Drop + 'static {
    /// The byte that stands for a value.
    ghost byte_of: { Self → ℕ };

    /// All values.
    ghost values: { List Self };

    /// All values, in order.
    fn all() -> &'static [Self]
        ensures { result.now ≡ values };

    /// The byte that stands for it.
    fn byte(self) -> u8
        ensures { result ≡ byte_of self };
}

/// The value for which a byte stands, if there is one.
fn value_at<Format, T: OneByte<Format>>(byte: u8) -> Option<T>
    ensures { result ≡ value_of T.byte_of T.values byte }
{
    let values = T::all();
    for i in 0..values.len() {
        if values[i].byte() == byte {
            return Some(values[i]);
        }
    }
    None
}

/// The format of values for each of which a byte stands in a format.
pub struct ByByte<Format>(PhantomData<Format>);

impl<Format, T: OneByte<Format>> Spelled<ByByte<Format>> for T {
    ghost spelling = { λ x. T.byte_of x ∷ [] };

    ghost reading = { (one_of T.byte_of T.values).read };

    fn put<R: Receiver>(&self, to: &mut R) -> Result<(), R::Refusal> {
        to.put_bytes(&[self.byte()])
    }

    fn read(alloc: Global, bytes: &[u8]) -> Result<(T, &[u8]), ReadError> {
        let (byte, rest) = u8::read(alloc, bytes)?;
        match value_at::<Format, T>(byte) {
            Some(value) => Ok((value, rest)),
            None => Err(fault(TAG, bytes)),
        }
    }
}
