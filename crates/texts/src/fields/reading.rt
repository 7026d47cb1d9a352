//! Reading. Each function reads what stands at the front of the bytes, and gives the bytes after it.

ghost use Rattle.std.specs.Prelude.{◌≡◌, ◌≤◌, ◌^◌, IfSome, IfNone};
ghost use Rattle.texts.specs.fields.Reading.{behind_is, read_is, after_word, digits_at, number_at, field_at, value_at};
ghost use Rattle.texts.specs.fields.inner.Reading.{digit_at};

use gate_values::Value;

/// The value at the front.
pub fn value_of(text: &[u8]) -> Option<(Value, &[u8])>
    ensures { read_is result ≡ value_at text.now }
{
    match text {
        [b'0', rest @ ..] => Some((Value::Zero, rest)),
        [b'1', rest @ ..] => Some((Value::One, rest)),
        [b'x', rest @ ..] => Some((Value::X, rest)),
        [b'z', rest @ ..] => Some((Value::Z, rest)),
        _ => None,
    }
}

/// A blank, and a number after it.
#[tactic(auto, unfolding(crate::specs::fields::Reading::field_at))]
pub fn field_of(text: &[u8]) -> Option<(u32, &[u8])>
    ensures { read_is result ≡ field_at text.now }
{
    let rest = after(text, b" ")?;
    number_of(rest)
}

/// A number in decimal digits, with no leading zero.
fn number_of(text: &[u8]) -> Option<(u32, &[u8])>
    ensures { read_is result ≡ number_at text.now }
{
    let Some((number, rest)) = digits_of(text) else {
        return None;
    };
    let len = text.len() - rest.len();
    if len == 0 {
        return None;
    }
    if len > 1 && text[0] == b'0' {
        return None;
    }
    Some((number, rest))
}

/// The value of the digits at the front, where it is at most 4,294,967,295.
fn digits_of(text: &[u8]) -> Option<(u32, &[u8])>
    ensures some { IfSome result (λ read. (read.0, read.1.now) ≡ digits_at 0 text.now) }
    ensures none { IfNone result (2 ^ 32 ≤ (digits_at 0 text.now).0) }
{
    let mut number = 0u32;
    let mut rest = text;
    while let Some((digit, more)) = digit_of(rest) {
        let Some(tens) = number.checked_mul(10) else {
            return None;
        };
        let Some(next) = tens.checked_add(digit) else {
            return None;
        };
        number = next;
        rest = more;
    }
    Some((number, rest))
}

fn digit_of(text: &[u8]) -> Option<(u32, &[u8])>
    ensures { read_is result ≡ digit_at text.now }
{
    match text {
        [digit @ b'0'..=b'9', rest @ ..] => Some((u32::from(*digit - b'0'), rest)),
        _ => None,
    }
}

/// The bytes after a word.
pub fn after<'a>(text: &'a [u8], word: &[u8]) -> Option<&'a [u8]>
    ensures { behind_is result ≡ after_word word.now text.now }
{
    text.strip_prefix(word)
}
