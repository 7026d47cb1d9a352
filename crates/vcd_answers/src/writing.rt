//! Writing a dump.
ghost use Rattle.std.specs.Prelude.{◌≡◌, ℕ, ◌+◌, ◌≤◌, ◌++◌, ◌∷◌, [], List, length, map, flat_map, IsTrue, OnOk, IfOk};
ghost use Rattle.std.specs.List.{list_all};
ghost use Rattle.std.specs.Fmt.{decimal};
ghost use Rattle.vcd_answers.specs.Dumps.{first_code, var_line, var_lines, time_line, change_line, with_line_feed, vcd_of};
ghost use Rattle.vcd_answers.specs.Wires.{AreWires, is_wire};
ghost use Rattle.vcd_answers.specs.inner.Events.{event, run_of, by_wire, by_time, event_line, event_text};

use crate::wire::{Wire, WireList};
use circuit_meaning::Run;
use gate_values::Value;
use itoa::Buffer;
use std::alloc::Global;
use texts::OutOfMemory;

/// A change of the wire with this code.
#[derive(Clone, Copy)]
struct Event {
    time: u32,
    code: u8,
    value: Value,
}

/// The text of the dump of these wires. Without wires it is the head and the line of time 0.
pub fn vcd_text(alloc: Global, wires: &WireList) -> Result<Vec<u8>, OutOfMemory>
    requires { AreWires wires.now }
    ensures { IfOk result (λ text. text.items ≡ vcd_of wires.now) }
{
    let wires = wires.as_slice();
    let events = events_by_time(alloc, wires)?;
    let mut text = Vec::from_slice(alloc, b"$timescale 1 ns $end\n$scope module top $end\n")?;
    push_vars(&mut text, wires)?;
    text.extend_from_slice(b"$upscope $end\n$enddefinitions $end\n#0\n")?;
    push_events(&mut text, &events)?;
    Ok(text)
}

/// The changes of all wires in the order of time, and at each time in the order of the wires.
fn events_by_time(alloc: Global, wires: &[Wire]) -> Result<Vec<Event>, OutOfMemory>
    requires few { length wires.now ≤ 64 }
    requires each { IsTrue (list_all is_wire wires.now) }
    ensures { IfOk result (λ events. events.items ≡ by_time wires.now) }
{
    let mut events = events_by_wire(alloc, wires)?;
    events.sort_by_key(|event| event.time)?;
    Ok(events)
}

fn events_by_wire(alloc: Global, wires: &[Wire]) -> Result<Vec<Event>, OutOfMemory>
    requires { length wires.now ≤ 64 }
    ensures { IfOk result (λ events. events.items ≡ by_wire first_code wires.now) }
{
    let mut events = Vec::new(alloc);
    let mut code = b'!';
    for wire in wires {
        push_changes(&mut events, code, wire.changes())?;
        code += 1;
    }
    Ok(events)
}

fn push_changes(events: &mut Vec<Event>, code: u8, changes: &[Run]) -> Result<(), OutOfMemory>
    ensures { OnOk result (events.new.items ≡ events.old.items ++ map (event code) changes.now) }
{
    for run in changes {
        events.push(Event {
            time: run.time,
            code,
            value: run.value,
        })?;
    }
    Ok(())
}

fn push_vars(text: &mut Vec<u8>, wires: &[Wire]) -> Result<(), OutOfMemory>
    requires { length wires.now ≤ 64 }
    ensures { OnOk result (text.new.items ≡ text.old.items ++ flat_map with_line_feed
        (var_lines first_code wires.now)) }
{
    let mut code = b'!';
    for wire in wires {
        push_var(text, code, wire.name())?;
        code += 1;
    }
    Ok(())
}

fn push_var(text: &mut Vec<u8>, code: u8, name: &[u8]) -> Result<(), OutOfMemory>
    ensures { OnOk result (text.new.items ≡ text.old.items ++ with_line_feed (var_line code
        name.now)) }
{
    text.extend_from_slice(b"$var wire 1 ")?;
    text.push(code)?;
    text.push(b' ')?;
    text.extend_from_slice(name)?;
    text.extend_from_slice(b" $end\n")?;
    Ok(())
}

fn push_events(text: &mut Vec<u8>, events: &[Event]) -> Result<(), OutOfMemory>
    ensures { OnOk result (text.new.items ≡ text.old.items ++ event_text 0 events.now) }
{
    let mut last = 0;
    for event in events {
        push_event(text, last, *event)?;
        last = event.time;
    }
    Ok(())
}

fn push_event(text: &mut Vec<u8>, last: u32, event: Event) -> Result<(), OutOfMemory>
    ensures { OnOk result (text.new.items ≡ text.old.items ++ event_line last event) }
{
    if event.time != last {
        push_time(text, event.time)?;
    }
    text.push(event.value.byte())?;
    text.push(event.code)?;
    text.push(b'\n')?;
    Ok(())
}

fn push_time(text: &mut Vec<u8>, time: u32) -> Result<(), OutOfMemory>
    ensures { OnOk result (text.new.items ≡ text.old.items ++ with_line_feed (time_line time)) }
{
    let mut buffer = Buffer::new();
    text.push(b'#')?;
    text.extend_from_slice(buffer.format(time).as_bytes())?;
    text.push(b'\n')?;
    Ok(())
}
