//! The kinds of byte, and where the next one of a kind stands.

ghost use Rattle.std.specs.Prelude.{◌≡◌, ◌≤◌, length, not, position};
ghost use Rattle.std.specs.List.{position_or_len};
ghost use Rattle.texts.specs.Text as text;

use memchr::memchr;

/// Each byte of a name stands at its own place, and a comma at every other place.
static NAME_BYTES: [u8; 256] = *b"\
    ,,,,,,,,,,,,,,,,,,,,,,,,,,,,,,,,\
    ,!\",$%&',,*+,-./0123456789:;<,>?\
    @ABCDEFGHIJKLMNOPQRSTUVWXYZ[\\]^_\
    `abcdefghijklmnopqrstuvwxyz{|}~,\
    ,,,,,,,,,,,,,,,,,,,,,,,,,,,,,,,,\
    ,,,,,,,,,,,,,,,,,,,,,,,,,,,,,,,,\
    ,,,,,,,,,,,,,,,,,,,,,,,,,,,,,,,,\
    ,,,,,,,,,,,,,,,,,,,,,,,,,,,,,,,,";

pub fn is_blank(byte: u8) -> bool
    ensures { result ≡ text.is_blank byte }
{
    byte == b' ' || byte == b'\t' || byte == b'\r'
}

pub fn is_mark(byte: u8) -> bool
    ensures { result ≡ text.is_mark byte }
{
    byte == b'(' || byte == b')' || byte == b',' || byte == b'='
}

pub fn is_name_byte(byte: u8) -> bool
    ensures { result ≡ text.is_name_byte byte }
{
    NAME_BYTES[byte as usize] != b','
}

pub fn is_digit(byte: u8) -> bool
    ensures { result ≡ text.is_digit byte }
{
    byte >= b'0' && byte <= b'9'
}

pub fn feed_at(bytes: &[u8]) -> Option<usize>
    ensures { result ≡ position text.is_feed bytes.now }
{
    memchr(b'\n', bytes)
}

pub fn hash_at(bytes: &[u8]) -> Option<usize>
    ensures { result ≡ position text.is_hash bytes.now }
{
    memchr(b'#', bytes)
}

/// Mostly it is the first byte.
pub fn filled_at(bytes: &[u8]) -> Option<usize>
    ensures { result ≡ position (λ b. not (text.is_blank b)) bytes.now }
{
    match bytes {
        [] => None,
        [first, ..] if !is_blank(*first) => Some(0),
        _ => later_filled_at(bytes),
    }
}

#[cold]
#[inline(never)]
fn later_filled_at(bytes: &[u8]) -> Option<usize>
    ensures { result ≡ position (λ b. not (text.is_blank b)) bytes.now }
{
    bytes.iter().position(|byte| !is_blank(*byte))
}

/// It is kept out of line, so that its loop has the registers.
#[inline(never)]
pub fn blank_at(bytes: &[u8]) -> Option<usize>
    ensures { result ≡ position text.is_blank bytes.now }
{
    bytes.iter().position(|byte| is_blank(*byte))
}

/// Whether a token ends in front of this byte.
pub fn is_token_end(byte: u8) -> bool
    ensures { result ≡ text.ends_token byte }
{
    is_blank(byte) || is_mark(byte) || byte == b'#'
}

/// How many bytes stand in a name, up to the first that stands in none. Four are read at each turn.
///
/// It is kept out of line, so that its loop has the registers.
#[inline(never)]
pub fn name_len(bytes: &[u8]) -> usize
    ensures count { result ≡ position_or_len (λ b. not (text.is_name_byte b)) bytes.now }
    ensures within { result ≤ length bytes.now }
{
    let mut len = 0;
    while bytes.len() - len >= 4 {
        if !is_name_byte(bytes[len]) {
            return len;
        }
        if !is_name_byte(bytes[len + 1]) {
            return len + 1;
        }
        if !is_name_byte(bytes[len + 2]) {
            return len + 2;
        }
        if !is_name_byte(bytes[len + 3]) {
            return len + 3;
        }
        len += 4;
    }
    while len < bytes.len() && is_name_byte(bytes[len]) {
        len += 1;
    }
    len
}
