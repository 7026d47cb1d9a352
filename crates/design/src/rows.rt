//! What is kept of a signal.

ghost use Rattle.std.specs.Prelude.{◌≡◌, ◌<◌, length, slice_index_or};
ghost use Rattle.bench_reader.specs.Netlists as netlists;
ghost use Rattle.bench_reader.specs.Netlists.{pins_of};

use bench_reader::{Netlist, Row as NetlistRow};
use circuit_meaning::{FlipFlop, Setting};
use gate_values::Kind;

/// What a signal is. The signals that it reads stand in the netlist; settings, delays and flip-flops have their own lists.
#[derive(Clone, Copy)]
pub enum Row {
    /// An input, and how many inputs stand before it: the place of its settings.
    Input { place: u32 },
    /// A gate, the least delay of its pins, and where the delays of its pins start.
    Gate { kind: Kind, least: u32, start: u32 },
    /// A flip-flop, and how many flip-flops stand before it: its place among them.
    Flop { place: u32 },
}

/// All that is kept of a signal.
#[derive(Clone, Copy)]
pub enum SignalView<'a> {
    /// Its settings in the order of time.
    Input(&'a [Setting]),
    Gate {
        kind: Kind,
        signals: &'a [u32],
        delays: &'a [u32],
        least: u32,
    },
    Flop {
        flop: FlipFlop,
        signals: &'a [u32],
    },
}

/// The signals that a signal reads.
pub fn signals_of(netlist: &Netlist, signal: u32) -> &[u32]
    requires { signal < length netlist.now.names }
    ensures { result.now ≡ pins_of (slice_index_or netlist.now.rows signal netlists.Primary) }
{
    match netlist.row(signal) {
        NetlistRow::Input => &[],
        NetlistRow::Gate { pins, .. } => pins,
    }
}
