//! The bytes of a text.

ghost use Rattle.std.specs.Prelude.{◌≡◌};
ghost use Rattle.std.specs.Str.{str_eq_ignore_ascii_case};
ghost use Rattle.gw_text_tokens.specs.Heads.{is_in_name};
ghost use Rattle.gw_text_tokens.specs.Lines.{after_blanks, is_blank};

/// Whether it is a space or a tab.
pub(crate) fn is_blank(byte: u8) -> bool
    ensures { result ≡ is_blank byte }
{
    byte == b' ' || byte == b'\t'
}

/// What follows the blanks at the front.
#[tactic(auto, using(crate::proofs::Blanks::at_place))]
pub(crate) fn after_blanks(line: &[u8]) -> &[u8]
    ensures { result.now ≡ after_blanks line.now }
{
    for (i, byte) in line.iter().enumerate() {
        if !is_blank(*byte) {
            return line.split_at(i).1;
        }
    }
    &[]
}

/// Whether a name may go on with it.
pub(crate) fn is_in_name(byte: u8) -> bool
    ensures { result ≡ is_in_name byte }
{
    byte.is_ascii_alphanumeric() || byte == b'_'
}

/// Whether it is this spelling, in upper or lower case.
pub fn is_spelled(bytes: &[u8], spelling: &[u8]) -> bool
    ensures { result ≡ str_eq_ignore_ascii_case bytes.now spelling.now }
{
    bytes.eq_ignore_ascii_case(spelling)
}
