//! What is inside a storage or a queue.

ghost use Rattle.std.specs.Prelude.{◌≡◌, ◌≤◌, ◌<◌, ◌+◌, ◌^◌, ℕ};
ghost use Rattle.gw_entities.specs.Contents as model;
ghost use Rattle.gw_entities.specs.Fits.{ContentsFit, FitsLater, StaysFit, FitsWithMore};

/// What is inside a storage or a queue, in units, and what the report says of it.
#[derive(Clone, Copy, PartialEq, Eq)]
pub struct Contents {
    /// The units inside.
    pub content: u64,
    /// The most units that were inside at one moment.
    pub maximum: u64,
    /// The units that came in so far.
    pub entries: u64,
    /// The sum of content times time so far: of the clock units that each unit was inside.
    pub time_sum: u128,
}

impl Contents {
    /// Nothing inside, and nothing was yet.
    pub(crate) fn empty() -> Contents
        ensures { result ≡ model.empty }
    {
        Contents {
            content: 0,
            maximum: 0,
            entries: 0,
            time_sum: 0,
        }
    }

    /// Puts `n` units in.
    pub(crate) fn add(&mut self, n: u32)
        requires content { self.old.content + n ≤ 2 ^ 62 }
        requires entries { self.old.entries + n ≤ 2 ^ 62 }
        ensures value { self.new ≡ model.add_units n self.old }
        ensures fits { FitsWithMore n self.old self.new }
    {
        let n = u64::from(n);
        self.content += n;
        self.maximum = self.maximum.max(self.content);
        self.entries += n;
    }

    /// Takes `n` units out.
    pub(crate) fn take(&mut self, n: u32)
        requires { n ≤ self.old.content }
        ensures value { self.new ≡ model.take_units n self.old }
        ensures fits { (most : ℕ) → StaysFit (ContentsFit most) self.old self.new }
    {
        self.content -= u64::from(n);
    }

    /// Lets `dt` clock units pass.
    pub(crate) fn accrue(&mut self, dt: u64)
        requires { (most passed : ℕ) × ContentsFit most passed self.old
            × (most ≤ 2 ^ 62) × (passed + dt < 2 ^ 63) }
        ensures value { self.new ≡ model.contents_after dt self.old }
        ensures fits { (most : ℕ) → FitsLater (ContentsFit most) dt self.old self.new }
    {
        self.time_sum += u128::from(self.content) * u128::from(dt);
    }
}
