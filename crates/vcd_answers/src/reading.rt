//! Reading a dump: the text is read leniently, the dump of what was read is written, and the bytes are compared.
ghost use Rattle.std.specs.Prelude.{◌≡◌, ◌≢◌, ℕ, ◌<◌, ◌≤◌, ◌∷◌, [], List, length, drop, Some, IfOk, IfSome, IfNone};
ghost use Rattle.texts.specs.Text.{lines, amount};
ghost use Rattle.vcd_answers.specs.Dumps.{vcd_of};
ghost use Rattle.vcd_answers.specs.Wires.{AreWires, Wire as WireRecord};
ghost use Rattle.vcd_answers.specs.inner.Reading.{line_at, time_in, change_in, is_var, name_in, with_names, with_changes, read_of};

use crate::wire::{Wire, WireList};
use crate::writing::vcd_text;
use circuit_meaning::Run;
use gate_values::Value;
use std::alloc::Global;
use texts::{Amount, OutOfMemory, next_line, read_amount};

/// The line of a time, or of a change of the wire at a place.
#[derive(Clone, Copy)]
enum Line {
    Time(u32),
    Change(u8, Value),
}

/// The wires whose dump is the whole text; `None` if there are none.
pub fn read_vcd(alloc: Global, text: &[u8]) -> Result<Option<WireList>, OutOfMemory>
    // If wires are returned, the text is their dump.
    ensures wires { IfOk result (λ read. IfSome read (λ wires. AreWires wires)) }
    ensures found { IfOk result (λ read. IfSome read (λ wires. text.now ≡ vcd_of wires)) }
    // If the text is the dump of wires, these are returned.
    ensures only { (wires : List WireRecord) → AreWires wires → text.now ≡ vcd_of wires
        → IfOk result (λ read. read ≡ Some wires) }
    // None are returned only if the text is no dump.
    ensures none { IfOk result (λ read. IfNone read
        ((wires : List WireRecord) → AreWires wires → text.now ≢ vcd_of wires)) }
{
    let Some(wires) = wires_in(alloc, text)? else {
        return Ok(None);
    };
    if !wires.are_wires() {
        return Ok(None);
    }
    let written = vcd_text(alloc, &wires)?;
    if written.as_slice() != text {
        return Ok(None);
    }
    Ok(Some(wires))
}

#[tactic(auto, unfolding(crate::specs::inner::Reading::read_of))]
fn wires_in(alloc: Global, text: &[u8]) -> Result<Option<WireList>, OutOfMemory>
    ensures { IfOk result (λ read. read ≡ read_of (lines text.now)) }
{
    let (wires, rest) = names_in(alloc, after_line(after_line(text)))?;
    changes_in(wires, after_line(after_line(rest)))
}

/// What comes after the first line.
fn after_line(text: &[u8]) -> &[u8]
    ensures { lines result.now ≡ drop 1 (lines text.now) }
{
    if text.is_empty() {
        return text;
    }
    next_line(text).1
}

/// The wires of the leading lines that declare one, and the rest of the text.
fn names_in(alloc: Global, text: &[u8]) -> Result<(WireList, &[u8]), OutOfMemory>
    ensures { IfOk result (λ read. (read.0, lines read.1.now) ≡ with_names [] (lines text.now)) }
{
    let mut wires = Vec::new(alloc);
    let mut rest = text;
    'names: while !rest.is_empty() {
        let (line, later) = next_line(rest);
        if !is_var(line) {
            break;
        }
        wires.push(Wire::blank(alloc, name_in(line))?)?;
        rest = later;
    }
    Ok((WireList::from_vec(wires), rest))
}

fn is_var(line: &[u8]) -> bool
    ensures { result ≡ is_var line.now }
{
    line.len() >= 19 && line[1] == b'v'
}

fn name_in(line: &[u8]) -> &[u8]
    requires { 19 ≤ length line.now }
    ensures { result.now ≡ name_in line.now }
{
    let len = line.len() - 19;
    &line[14..][..len]
}

/// The wires with the changes in these lines.
fn changes_in(wires: WireList, text: &[u8]) -> Result<Option<WireList>, OutOfMemory>
    ensures { IfOk result (λ read. read ≡ with_changes wires 0 (lines text.now)) }
{
    let mut wires = wires;
    let mut time = 0;
    let mut rest = text;
    'lines: while !rest.is_empty() {
        let (line, later) = next_line(rest);
        match line_of(line) {
            None => return Ok(None),
            Some(Line::Time(next)) => time = next,
            Some(Line::Change(place, value)) => {
                let place = place as usize;
                if place >= wires.as_slice().len() {
                    return Ok(None);
                }
                wires.push_change(place, Run { time, value })?;
            }
        }
        rest = later;
    }
    Ok(Some(wires))
}

fn line_of(line: &[u8]) -> Option<Line>
    ensures { result ≡ line_at line.now }
{
    match line {
        [b'#', digits @ ..] => time_of(digits),
        [value, code] => change_of(*value, *code),
        _ => None,
    }
}

fn time_of(digits: &[u8]) -> Option<Line>
    ensures { result ≡ time_in (amount 1000001 digits.now) }
{
    match read_amount(digits, 1_000_001) {
        Amount::Within(time) => Some(Line::Time(time)),
        _ => None,
    }
}

fn change_of(value: u8, code: u8) -> Option<Line>
    ensures { result ≡ change_in value (code ∷ []) }
{
    if code < 33 {
        return None;
    }
    match Value::from_byte(value) {
        Some(value) => Some(Line::Change(code - 33, value)),
        None => None,
    }
}
