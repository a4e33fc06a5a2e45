//! How often a leap over rounds is tried: seldom, where leaps fail.

ghost use Rattle.std.specs.Prelude.{◌≡◌, ◌==◌};

/// The most rounds that are made one by one between a leap that succeeds and the next.
const SHORTEST: u64 = 4;

/// How many rounds are made one by one before the first leap.
const FIRST: u64 = 4;

/// How many rounds are made one by one until a leap is tried.
#[derive(Clone, Copy)]
pub(crate) struct Pace {
    /// How many are left.
    pub left: u64,
    /// How many there are from one leap to the next.
    pub span: u64,
}

impl Pace {
    /// The pace at the start.
    pub(crate) fn new() -> Pace
        ensures { result.left ≡ result.span }
    {
        Pace {
            left: FIRST,
            span: FIRST,
        }
    }

    /// Whether a leap is tried in place of the next round.
    pub(crate) fn is_due(&mut self) -> bool
        ensures due { result ≡ (self.old.left == 0) }
        ensures span { self.new.span ≡ self.old.span }
    {
        if self.left == 0 {
            self.left = self.span;
            return true;
        }
        self.left -= 1;
        false
    }

    /// A leap has failed: the next one comes later.
    pub(crate) fn lengthen(&mut self)
        ensures { self.new.left ≡ self.new.span }
    {
        self.span = self.span.saturating_mul(4);
        self.left = self.span;
    }

    /// A leap has succeeded: the next one comes sooner.
    pub(crate) fn shorten(&mut self)
        ensures { self.new.left ≡ self.new.span }
    {
        self.span = (self.span / 4).max(SHORTEST);
        self.left = self.span;
    }
}
