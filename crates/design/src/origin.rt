//! What is kept of a netlist and of the rows that it was joined with.

ghost use Rattle.std.specs.Prelude.{◌≡◌, ◌<◌, length, All};
ghost use Rattle.circuit_meaning.specs.Circuit.{driver, read_by};
ghost use Rattle.design.specs.Joined.{IsDesign};
ghost use Rattle.design.specs.inner.KeptDesigns.{IsViewOf, FitsFrom, driver_seen};

use crate::rows::{Row, SignalView, signals_of};
use bench_reader::Netlist;
use circuit_meaning::{FlipFlop, Setting};
use std::marker::Model;

/// A design without held signals, as it was joined. What a row names by a place stands in one of the lists.
#[derive(Drop)]
pub struct Origin {
    pub netlist: Netlist,
    pub horizon: u32,
    pub rows: Vec<Row>,
    /// The delays of the pins of all gates, one gate after another.
    pub delays: Vec<u32>,
    /// The flip-flops in the order of the signals.
    pub flops: Vec<FlipFlop>,
    /// The settings of each input in the order of time, and the inputs in the order of the signals.
    pub settings: Vec<Vec<Setting>>,
}

impl Model for Origin {
    ghost use Rattle.std.specs.Prelude.{map};
    ghost use Rattle.design.specs.Joined.{Joined};

    ghost Value = { Joined };

    ghost use Rattle.design.specs.inner.KeptDesigns.{joined_of, IsKeptDesign};

    ghost view = { λ d. joined_of (record { horizon = d.horizon; netlist = d.netlist; rows = d.rows.items; delays = d.delays.items; flops = d.flops.items; settings = map (λ list. list.items) d.settings.items }) };

    ghost invariant = { λ d. IsKeptDesign (record { horizon = d.horizon; netlist = d.netlist; rows = d.rows.items; delays = d.delays.items; flops = d.flops.items; settings = map (λ list. list.items) d.settings.items }) };
}

/// The signals that a signal with this view reads.
fn reads_of(view: SignalView<'_>) -> &[u32]
    requires { FitsFrom view }
    ensures { result.now ≡ read_by (driver_seen view.entry) }
{
    match view {
        SignalView::Input(_) => &[],
        SignalView::Gate { signals, .. } => signals,
        SignalView::Flop { signals, .. } => signals,
    }
}

impl Origin {
    /// What holds of it, so that the design made of it begins by its law.
    pub fn facts(&self)
        ensures { IsDesign self.now }
    {
        let _horizon = self.horizon;
    }

    pub fn netlist(&self) -> &Netlist
        ensures { result.now ≡ self.now.netlist }
    {
        &self.netlist
    }

    /// The last time.
    pub fn horizon(&self) -> u32
        ensures { result ≡ self.now.circuit.horizon }
    {
        self.horizon
    }

    /// The number of signals.
    pub fn signals(&self) -> u32
        ensures { result ≡ length self.now.circuit.drivers }
    {
        self.rows.len() as u32
    }

    /// What is kept of a signal.
    #[inline(always)]
    pub fn view(&self, signal: u32) -> SignalView<'_>
        requires { signal < length self.now.circuit.drivers }
        ensures { IsViewOf self.now.circuit signal result }
    {
        match self.rows[signal as usize] {
            Row::Input { place } => SignalView::Input(&self.settings[place as usize]),
            Row::Gate { kind, least, start } => {
                let signals = signals_of(&self.netlist, signal);
                let start = start as usize;
                SignalView::Gate {
                    kind,
                    signals,
                    delays: &self.delays[start..start + signals.len()],
                    least,
                }
            }
            Row::Flop { place } => SignalView::Flop {
                flop: self.flops[place as usize],
                signals: signals_of(&self.netlist, signal),
            },
        }
    }

    /// The signals that a signal reads.
    pub fn reads(&self, signal: u32) -> &[u32]
        requires { signal < length self.now.circuit.drivers }
        ensures reads { result.now ≡ read_by (driver self.now.circuit signal) }
        ensures signals { All (λ read. read < length self.now.circuit.drivers) result.now }
    {
        reads_of(self.view(signal))
    }
}
