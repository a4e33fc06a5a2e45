//! What an input is: the bytes of an object, or a model text.

ghost use Rattle.std.specs.Prelude.{◌≡◌};
ghost use Rattle.gw_answers.specs.Inputs as model;

/// The bytes with which each object begins.
const LETTERS: &[u8] = b"GPSO";

/// Whether these are taken for the bytes of an object: they begin so. So does a model text with such a first label.
pub fn is_object(input: &[u8]) -> bool
    ensures { result ≡ model.is_object input.now }
{
    input.starts_with(LETTERS)
}
