//! The tokens of a line, less its comment. No `#` stands in a name, so a walk over tokens meets the
//! comment, and no line is searched for it.

ghost use Rattle.std.specs.Prelude.{◌≡◌, ◌<◌, ◌≤◌, [], ◌∷◌, length, true, false, slice_index, MatchOption, ◌==◌};
ghost use Rattle.texts.specs.Text as text;

use crate::byte::{filled_at, is_mark, is_token_end, name_len};

/// What comes after the blanks at the front.
#[inline(always)]
fn after_blanks(line: &[u8]) -> &[u8]
    ensures tokens { text.line_tokens result.now ≡ text.line_tokens line.now }
    ensures filled { 0 < length result.now → text.is_blank (slice_index result.now 0) ≡ false }
{
    match filled_at(line) {
        None => &[],
        Some(start) => line.split_at(start).1,
    }
}

/// Whether the token that stands in front of this place ends there.
#[inline(always)]
fn is_over(bytes: &[u8], at: usize) -> bool
    requires { at ≤ length bytes.now }
    ensures end { length bytes.now ≤ at → result ≡ true }
    ensures before { at < length bytes.now → result ≡ text.ends_token (slice_index bytes.now at) }
{
    if at == bytes.len() {
        return true;
    }
    is_token_end(bytes[at])
}

/// The first token and what comes after it, where that token is a name.
#[inline(always)]
pub fn next_name(line: &[u8]) -> Option<(&[u8], &[u8])>
    ensures { MatchOption result
        (text.starts_with_name (text.line_tokens line.now) ≡ false)
        (λ p. (text.line_tokens line.now ≡ p.0.now ∷ text.line_tokens p.1.now)
        × (text.is_name p.0.now ≡ true)) }
{
    let bytes = after_blanks(line);
    let len = name_len(bytes);
    if len == 0 {
        return None;
    }
    if !is_over(bytes, len) {
        return None;
    }
    Some(bytes.split_at(len))
}

/// The first token and what comes after it, where that token is a mark.
#[inline(always)]
pub fn next_mark(line: &[u8]) -> Option<(u8, &[u8])>
    ensures { MatchOption result
        (text.starts_with_mark (text.line_tokens line.now) ≡ false)
        (λ p. (text.line_tokens line.now ≡ (p.0 ∷ []) ∷ text.line_tokens p.1.now)
        × (text.is_mark p.0 ≡ true)) }
{
    let bytes = after_blanks(line);
    if bytes.is_empty() {
        return None;
    }
    let mark = bytes[0];
    if !is_mark(mark) {
        return None;
    }
    Some((mark, bytes.split_at(1).1))
}

/// Whether no token is left.
#[inline(always)]
pub fn has_no_token(line: &[u8]) -> bool
    ensures { result ≡ (length (text.line_tokens line.now) == 0) }
{
    let bytes = after_blanks(line);
    if bytes.is_empty() {
        return true;
    }
    bytes[0] == b'#'
}
