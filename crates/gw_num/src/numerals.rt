//! Decimal numerals: the numbers that words of a command line spell.

ghost use Rattle.std.specs.Prelude.{◌≡◌, ◌^◌};
ghost use Rattle.std.specs.List.{list_all};
ghost use Rattle.std.specs.Char.{is_ascii_digit};
ghost use Rattle.gw_num.specs.Numerals.{is_number as spells_number, number_below};

fn are_digits(bytes: &[u8]) -> bool
    ensures { result ≡ list_all is_ascii_digit bytes.now }
{
    bytes.iter().all(|byte| byte.is_ascii_digit())
}

/// Decimal digits alone, one or more.
fn is_number(word: &str) -> bool
    ensures { result ≡ spells_number word.now }
{
    !word.is_empty() && are_digits(word.as_bytes())
}

/// The number that a word of decimal digits alone spells, if it is below 2^64.
pub fn count_in(word: &str) -> Option<u64>
    ensures { result ≡ number_below (2 ^ 64) word.now }
{
    if is_number(word) {
        word.parse().ok()
    } else {
        None
    }
}

/// The number that a word of decimal digits alone spells, if it is below 2^32.
pub fn number_in(word: &str) -> Option<u32>
    ensures { result ≡ number_below (2 ^ 32) word.now }
{
    if is_number(word) {
        word.parse().ok()
    } else {
        None
    }
}
