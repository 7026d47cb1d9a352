//! Writing. Digits are found from the last to the first, so a field is written in front of what follows it.

ghost use Rattle.std.specs.Prelude.{◌≡◌, ◌+◌, ◌≤◌, ◌∷◌, ◌++◌, length, take, drop, decimal, OnOk};
ghost use Rattle.texts.specs.fields.Spelling.{field};

use std::alloc::AllocError;

/// The length of the longest field.
const LONGEST_FIELD: usize = 11;

/// Writes a number after a blank at the end of the text.
pub fn push_field(text: &mut Vec<u8>, n: u32) -> Result<(), AllocError>
    ensures { OnOk result (text.new.items ≡ text.old.items ++ field n) }
{
    let mut bytes = [0; LONGEST_FIELD];
    let start = write_field(n, &mut bytes, LONGEST_FIELD);
    text.extend_from_slice(&bytes[start..])
}

/// Writes a number after a blank so that it ends at `end`, and returns where it starts.
#[inline]
pub fn write_field(n: u32, bytes: &mut [u8], end: usize) -> usize
    requires { (11 ≤ end) × (end ≤ length bytes.old) }
    ensures start { result + length (field n) ≡ end }
    ensures room { end ≤ result + 11 }
    ensures written { drop result bytes.new ≡ field n ++ drop end bytes.old }
    ensures before { take result bytes.new ≡ take result bytes.old }
{
    write_number(b' ', n, bytes, end)
}

/// Writes a number after this byte so that it ends at `end`, and returns where the byte stands.
#[tactic(auto, using(crate::proofs::Numbers::number_len))]
#[inline]
pub fn write_number(first: u8, n: u32, bytes: &mut [u8], end: usize) -> usize
    requires { (11 ≤ end) × (end ≤ length bytes.old) }
    ensures start { result + length (first ∷ decimal n) ≡ end }
    ensures room { end ≤ result + 11 }
    ensures written { drop result bytes.new ≡ first ∷ decimal n ++ drop end bytes.old }
    ensures before { take result bytes.new ≡ take result bytes.old }
{
    let start = itoa::write_digits(u64::from(n), bytes, end) - 1;
    bytes[start] = first;
    start
}
