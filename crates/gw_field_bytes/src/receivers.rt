//! Where bytes are put: at the end of a vector, or into a room, which only counts them.

ghost use Rattle.std.specs.Prelude.{◌≡◌};
ghost use Rattle.gw_field_bytes.specs.Receivers.{Content, of_bytes, of_room, room_behind, Puts};

use crate::Memory;
use std::convert::Infallible;

/// What takes bytes, one behind the other.
pub trait Receiver {
    /// Why bytes aren't taken.
    type Refusal: Drop;

    /// What a receiver holds.
    ghost content: { Self → Content };

    /// Puts bytes behind those in the receiver.
    fn put_bytes(&mut self, bytes: &[u8]) -> Result<(), Self::Refusal>
        ensures { Puts content self.old self.new bytes.now result };
}

impl Receiver for Vec<u8> {
    type Refusal = Memory;

    ghost content = { λ v. of_bytes v.items };

    #[tactic(auto, unfolding(crate::specs::Receivers::with_bytes))]
    fn put_bytes(&mut self, bytes: &[u8]) -> Result<(), Memory> {
        self.extend_from_slice(bytes)
    }
}

/// A room for bytes, of which only the number is kept: how many more it takes; `None` once it took too many.
#[derive(Clone, Copy, PartialEq, Eq)]
pub struct Room {
    pub left: Option<usize>,
}

/// How many bytes a room takes behind so many, if it takes those.
fn left_behind(room: Option<usize>, count: usize) -> Option<usize>
    ensures { result ≡ room_behind count room }
{
    match room {
        None => None,
        Some(left) => left.checked_sub(count),
    }
}

impl Receiver for Room {
    type Refusal = Infallible;

    ghost content = { λ r. of_room r.left };

    #[tactic(auto, unfolding(crate::specs::Receivers::with_bytes))]
    fn put_bytes(&mut self, bytes: &[u8]) -> Result<(), Infallible> {
        self.left = left_behind(self.left, bytes.len());
        Ok(())
    }
}
