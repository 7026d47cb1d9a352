//! The lines of a text, and what counts of a line.

ghost use Rattle.std.specs.Prelude.{◌≡◌, ◌<◌, ◌∷◌, length};
ghost use Rattle.texts.specs.Text as text;

use crate::byte::{feed_at, hash_at};

/// The first line without its line feed, and what comes after that.
pub fn next_line(bytes: &[u8]) -> (&[u8], &[u8])
    requires { 0 < length bytes.now }
    ensures cut { text.lines bytes.now ≡ result.0.now ∷ text.lines result.1.now }
    ensures shorter { length result.1.now < length bytes.now }
{
    match feed_at(bytes) {
        Some(end) => (bytes.split_at(end).0, bytes.split_at(end + 1).1),
        None => (bytes, &[]),
    }
}

/// What counts of a line: what stands before its comment.
pub fn content(line: &[u8]) -> &[u8]
    ensures { result.now ≡ text.content line.now }
{
    match hash_at(line) {
        Some(end) => &line[..end],
        None => line,
    }
}
