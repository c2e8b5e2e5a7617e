//! Decimal numbers in lines and arguments.

ghost use Rattle.std.specs.Prelude.{◌↔◌, IsTrue};
ghost use Rattle.simplex_program.specs.Decimal.{ReadsDecimal, ReadsBetween, IsUnpadded};

/// Returns the number that a word writes in decimal, without a sign or leading zeros.
pub(crate) fn decimal(word: &str) -> Option<u64>
    ensures { ReadsDecimal word.now result }
{
    if !is_unpadded(word.as_bytes()) {
        return None;
    }
    word.parse().ok()
}

/// Returns the number from `least` to `most` that a word writes in decimal.
pub(crate) fn decimal_between(word: &str, least: u64, most: u64) -> Option<u64>
    ensures { ReadsBetween least most word.now result }
{
    let number = decimal(word)?;
    if number < least || most < number {
        return None;
    }
    Some(number)
}

/// Returns whether the word has no plus sign in front, and no leading zero unless it is `0`.
fn is_unpadded(word: &[u8]) -> bool
    ensures { IsTrue result ↔ IsUnpadded word.now }
{
    word.first() != Some(&b'+') && (word.first() != Some(&b'0') || word.len() == 1)
}
