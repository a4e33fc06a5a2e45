//! Buckets, and the links in them.

ghost use Rattle.std.specs.Prelude.{ℤ, ◌≡◌, neg_ℤ};

use crate::chunks::Placed;
use gw_members::{Event, Member};

/// What is kept in buckets: all of one rank in one, in the order in which they came.
pub(crate) trait Ranked: Copy + Drop {
    ghost rank: { Self → ℤ };

    /// Its rank; a lower one goes first.
    fn rank(self) -> i64
        ensures { result ≡ rank self };
}

impl Ranked for Event {
    ghost rank = { λ e. e.time };

    fn rank(self) -> i64 {
        self.time
    }
}

impl Ranked for Member {
    ghost rank = { λ m. neg_ℤ m.priority };

    fn rank(self) -> i64 {
        -(self.priority as i64)
    }
}

/// A bucket: all of one rank.
#[derive(Clone, Copy)]
pub struct Bucket {
    /// Their rank.
    pub rank: i64,
    /// The link of the first.
    pub first: usize,
    /// The link of the last.
    pub last: usize,
    /// How many they are.
    pub count: usize,
}

/// The link of a member in its bucket.
#[derive(Clone, Copy)]
pub struct Link<T> {
    /// The member.
    pub member: T,
    /// The link of the next in its bucket; that of the last means nothing.
    pub next: usize,
}

impl Placed for Bucket {
    ghost use Rattle.std.specs.Prelude.{int_le, min, ◌+◌, ◌-◌, ◌^◌};

    ghost goes_first = { λ one other. int_le one.rank other.rank };

    ghost with_guest = { λ one newcomer. record one { last = newcomer.last; count = min (one.count + newcomer.count) (2 ^ 64 - 1) } };

    fn goes_first(self, other: Bucket) -> bool {
        self.rank <= other.rank
    }

    fn take_in(self, newcomer: Bucket) -> Bucket {
        Bucket {
            last: newcomer.last,
            count: self.count.saturating_add(newcomer.count),
            ..self
        }
    }

    fn key(self) -> i64 {
        self.rank
    }
}
