//! The lines that are written.

ghost use Rattle.std.specs.Prelude.{◌≡◌, ◌++◌, IfOk, codes, decimal};
ghost use Rattle.backsim_check.specs.Texts as texts;

use gate_values::Value;
use itoa::Buffer;
use std::alloc::Global;
use texts::OutOfMemory;

pub const USAGE: &[u8] = b"usage: backsim_check NETLIST TIMING STIMULUS PROOF\n";

pub const TOO_LONG: &[u8] = b"refused proof too long\n";

/// The claim of a justified proof: the signal of this name has this value at this time.
pub fn yes_line(alloc: Global, name: &[u8], time: u32, value: Value) -> Result<Vec<u8>, OutOfMemory>
    ensures { IfOk result (λ line. line.items ≡ texts.yes_line name.now time value) }
{
    let mut buffer = Buffer::new();
    let mut line = Vec::from_slice(alloc, b"yes ")?;
    line.extend_from_slice(name)?;
    line.push(b' ')?;
    line.extend_from_slice(buffer.format(time).as_bytes())?;
    line.push(b' ')?;
    line.push(value.byte())?;
    line.push(b'\n')?;
    Ok(line)
}

/// A line of the proof is not justified.
pub fn no_line(alloc: Global, line: u32) -> Result<Vec<u8>, OutOfMemory>
    ensures { IfOk result (λ text. text.items ≡ texts.no_line line) }
{
    numbered_line(alloc, b"no line ", line)
}

/// At this line the text stops being a proof.
pub fn bad_line(alloc: Global, line: u32) -> Result<Vec<u8>, OutOfMemory>
    ensures { IfOk result (λ text. text.items ≡ texts.bad_line line) }
{
    numbered_line(alloc, b"bad line ", line)
}

fn numbered_line(alloc: Global, words: &[u8], number: u32) -> Result<Vec<u8>, OutOfMemory>
    ensures { IfOk result (λ text. text.items ≡ words.now ++ (decimal number ++ codes "\n")) }
{
    let mut buffer = Buffer::new();
    let mut text = Vec::from_slice(alloc, words)?;
    text.extend_from_slice(buffer.format(number).as_bytes())?;
    text.push(b'\n')?;
    Ok(text)
}
