//! Elements that have a key.

ghost use Rattle.std.specs.Prelude.{◌≡◌, ℕ};

/// An element with a key.
pub trait Keyed {
    /// The key of an element.
    ghost key_of: { Self → ℕ };

    /// Its key.
    fn key(&self) -> u16
        ensures { result ≡ key_of self.now };
}

impl Keyed for u8 {
    ghost key_of = { λ n. n };

    fn key(&self) -> u16 {
        u16::from(*self)
    }
}

impl Keyed for u16 {
    ghost key_of = { λ n. n };

    fn key(&self) -> u16 {
        *self
    }
}
