//! The words of a line, and names.

ghost use Rattle.std.specs.Prelude.{◌≡◌, ◌<◌, [], ◌∷◌, length, false, slice_index, MatchOption};
ghost use Rattle.std.specs.List.{list_all};
ghost use Rattle.texts.specs.Text as text;

use crate::byte::{blank_at, filled_at, is_name_byte};

fn first_word(bytes: &[u8]) -> (&[u8], &[u8])
    requires some { 0 < length bytes.now }
    requires filled { text.is_blank (slice_index bytes.now 0) ≡ false }
    ensures { text.words bytes.now ≡ result.0.now ∷ text.words result.1.now }
{
    match blank_at(bytes) {
        Some(end) => (bytes.split_at(end).0, bytes.split_at(end + 1).1),
        None => (bytes, &[]),
    }
}

/// The first word, and what comes after it; `None` where there is no word.
pub fn next_word(bytes: &[u8]) -> Option<(&[u8], &[u8])>
    ensures { MatchOption result
        (text.words bytes.now ≡ [])
        (λ p. text.words bytes.now ≡ p.0.now ∷ text.words p.1.now) }
{
    match filled_at(bytes) {
        Some(start) => Some(first_word(bytes.split_at(start).1)),
        None => None,
    }
}

fn all_name_bytes(word: &[u8]) -> bool
    ensures { result ≡ list_all text.is_name_byte word.now }
{
    word.iter().all(|byte| is_name_byte(*byte))
}

/// Whether a word or token is a name.
pub fn is_name(word: &[u8]) -> bool
    ensures { result ≡ text.is_name word.now }
{
    !word.is_empty() && all_name_bytes(word)
}
