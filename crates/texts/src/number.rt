//! Decimal numbers.

ghost use Rattle.std.specs.Prelude.{◌≡◌};
ghost use Rattle.texts.specs.Text as text;

use crate::Amount;
use crate::byte::is_digit;

/// Reads a word as a decimal number of any length, against the greatest value
/// that is in range. Leading zeros are accepted. It is kept out of line, so that its loop has the
/// registers.
#[inline(never)]
pub fn read_amount(word: &[u8], limit: u32) -> Amount
    ensures { result ≡ text.amount limit word.now }
{
    if word.is_empty() {
        return Amount::NoNumber;
    }
    let above = limit as u64 + 1;
    let mut value: u64 = 0;
    for digit in word {
        if !is_digit(*digit) {
            return Amount::NoNumber;
        }
        value = (value * 10 + (*digit - b'0') as u64).min(above);
    }
    if value == above {
        return Amount::Above;
    }
    Amount::Within(value as u32)
}
