//! What a test compares of many answers at once.

ghost use Rattle.std.specs.Prelude.{◌≡◌, not};
ghost use Rattle.std.specs.List.{position};

/// The place, from 0, of the first that does not hold.
pub fn first_wrong(holds: &[bool]) -> Option<usize>
    ensures { result ≡ position not holds.now }
{
    holds.iter().position(|it| !*it)
}
