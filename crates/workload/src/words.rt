//! Writing words and the names of signals. A line is written from its end to its front:
//! each part is written so that it ends at `end`, where the next part starts, and its own start is
//! returned.

ghost use Rattle.std.specs.Prelude.{◌≡◌, ◌+◌, ◌<◌, ◌≤◌, ◌++◌, length, drop};
ghost use Rattle.workload.specs.Texts.{input_name, gate, below, kind};

use texts::fields::write_number;

/// Writes a word. Where it is a constant, this is one store or two.
#[inline(always)]
pub fn write_word(word: &[u8], line: &mut [u8], end: usize) -> usize
    requires { (length word.now ≤ end) × (end ≤ length line.old) }
    ensures start { result + length word.now ≡ end }
    ensures written { drop result line.new ≡ word.now ++ drop end line.old }
{
    let start = end - word.len();
    line[start..end].copy_from_slice(word);
    start
}

/// Writes the name of an input.
pub fn write_input(number: u32, line: &mut [u8], end: usize) -> usize
    requires { (11 ≤ end) × (end ≤ length line.old) }
    ensures room { (result ≤ end) × (end ≤ result + 11) }
    ensures written { drop result line.new ≡ input_name number ++ drop end line.old }
{
    write_number(b'i', number, line, end)
}

/// Writes the name of the gate at this place of this layer.
pub fn write_gate(layer: u32, place: u32, line: &mut [u8], end: usize) -> usize
    requires { (22 ≤ end) × (end ≤ length line.old) }
    ensures room { (result ≤ end) × (end ≤ result + 22) }
    ensures written { drop result line.new ≡ gate layer place ++ drop end line.old }
{
    let end = write_number(b'_', place, line, end);
    write_number(b'g', layer, line, end)
}

/// Writes the name of a signal in the layer below this one.
pub fn write_below(layer: u32, place: u32, line: &mut [u8], end: usize) -> usize
    requires { (22 ≤ end) × (end ≤ length line.old) }
    ensures room { (result ≤ end) × (end ≤ result + 22) }
    ensures written { drop result line.new ≡ below layer place ++ drop end line.old }
{
    if layer == 0 {
        write_input(place % 16, line, end)
    } else {
        write_gate(layer - 1, place % 2000, line, end)
    }
}

/// Writes the word of the kind with this number.
pub fn write_kind(number: u32, line: &mut [u8], end: usize) -> usize
    requires number { number < 6 }
    requires end { (4 ≤ end) × (end ≤ length line.old) }
    ensures room { (result ≤ end) × (end ≤ result + 4) }
    ensures written { drop result line.new ≡ kind number ++ drop end line.old }
{
    match number {
        0 => write_word(b"AND", line, end),
        1 => write_word(b"NAND", line, end),
        2 => write_word(b"OR", line, end),
        3 => write_word(b"NOR", line, end),
        4 => write_word(b"XOR", line, end),
        _ => write_word(b"XNOR", line, end),
    }
}
