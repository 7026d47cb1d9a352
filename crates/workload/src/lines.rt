//! Writing the lines of the texts from their draws. A line is written from its end into a buffer,
//! and appended to the text at once.

ghost use Rattle.std.specs.Prelude.{◌≡◌, ◌++◌, ◌+◌, ◌<◌, OnOk};
ghost use Rattle.workload.specs.Texts as texts;

use crate::words::{write_below, write_gate, write_input, write_kind, write_word};
use texts::OutOfMemory;
use texts::fields::write_number;

/// Room for the line of a gate whose numbers have ten digits each.
const LONGEST_LINE: usize = 78;

pub fn put_input_line(text: &mut Vec<u8>, number: u32) -> Result<(), OutOfMemory>
    ensures { OnOk result (text.new.items ≡ text.old.items ++ texts.input_line number) }
{
    let mut line = [0; LONGEST_LINE];
    let end = write_word(b")\n", &mut line, LONGEST_LINE);
    let end = write_input(number, &mut line, end);
    let start = write_word(b"INPUT(", &mut line, end);
    put(text, &line[start..])
}

pub fn put_output_line(text: &mut Vec<u8>, place: u32) -> Result<(), OutOfMemory>
    ensures { OnOk result (text.new.items ≡ text.old.items ++ texts.output_line place) }
{
    let mut line = [0; LONGEST_LINE];
    let end = write_word(b")\n", &mut line, LONGEST_LINE);
    let end = write_gate(99, place, &mut line, end);
    let start = write_word(b"OUTPUT(", &mut line, end);
    put(text, &line[start..])
}

/// Writes the line of a gate of the kind with this number.
pub fn put_gate_line(
    text: &mut Vec<u8>,
    layer: u32,
    place: u32,
    kind: u32,
) -> Result<(), OutOfMemory>
    requires kind { kind < 6 }
    requires place { place < 2000 }
    ensures { OnOk result (text.new.items ≡ text.old.items ++ texts.gate_text layer place kind) }
{
    let mut line = [0; LONGEST_LINE];
    let end = write_word(b")\n", &mut line, LONGEST_LINE);
    let end = write_below(layer, place + 1, &mut line, end);
    let end = write_word(b", ", &mut line, end);
    let end = write_below(layer, place, &mut line, end);
    let end = write_word(b"(", &mut line, end);
    let end = write_kind(kind, &mut line, end);
    let end = write_word(b" = ", &mut line, end);
    let start = write_gate(layer, place, &mut line, end);
    put(text, &line[start..])
}

pub fn put_setting_line(
    text: &mut Vec<u8>,
    input: u32,
    time: u32,
    value: u32,
) -> Result<(), OutOfMemory>
    ensures { OnOk result (text.new.items ≡ text.old.items ++ texts.setting_text input time value) }
{
    let mut line = [0; LONGEST_LINE];
    let end = write_word(b"\n", &mut line, LONGEST_LINE);
    let end = write_number(b' ', value, &mut line, end);
    let end = write_number(b' ', time, &mut line, end);
    let end = write_input(input, &mut line, end);
    let start = write_word(b"set ", &mut line, end);
    put(text, &line[start..])
}

/// Writes the line of the query with this number.
pub fn put_query_line(
    text: &mut Vec<u8>,
    number: u32,
    place: u32,
    time: u32,
) -> Result<(), OutOfMemory>
    requires { time < 100000 }
    ensures { OnOk result (text.new.items ≡ text.old.items ++ texts.query_text number place time) }
{
    if number % 4 == 0 {
        put_wave_line(text, place, time)
    } else {
        put_at_line(text, place, time)
    }
}

fn put_wave_line(text: &mut Vec<u8>, place: u32, time: u32) -> Result<(), OutOfMemory>
    requires { time < 100000 }
    ensures { OnOk result (text.new.items ≡ text.old.items ++ texts.wave_text place time) }
{
    let mut line = [0; LONGEST_LINE];
    let end = write_word(b" 20000\n", &mut line, LONGEST_LINE);
    let end = write_number(b' ', time + 20, &mut line, end);
    let end = write_number(b' ', time, &mut line, end);
    let end = write_gate(99, place, &mut line, end);
    let start = write_word(b"wave ", &mut line, end);
    put(text, &line[start..])
}

fn put_at_line(text: &mut Vec<u8>, place: u32, time: u32) -> Result<(), OutOfMemory>
    ensures { OnOk result (text.new.items ≡ text.old.items ++ texts.at_text place time) }
{
    let mut line = [0; LONGEST_LINE];
    let end = write_word(b" 20000\n", &mut line, LONGEST_LINE);
    let end = write_number(b' ', time, &mut line, end);
    let end = write_gate(99, place, &mut line, end);
    let start = write_word(b"at ", &mut line, end);
    put(text, &line[start..])
}

/// Appends a line to the text.
pub fn put(text: &mut Vec<u8>, line: &[u8]) -> Result<(), OutOfMemory>
    ensures { OnOk result (text.new.items ≡ text.old.items ++ line.now) }
{
    text.extend_from_slice(line)?;
    Ok(())
}
