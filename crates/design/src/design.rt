//! A design, and what it says of its points.

ghost use Rattle.std.specs.Prelude.{◌≡◌, ◌+◌, ◌<◌, ◌≤◌, length, slice_get, Some, IfSome, OnSome, IfNone, IfOk, option_map};
ghost use Rattle.std.specs.Arc.{arc_value};
ghost use Rattle.circuit_meaning.specs.Circuit.{driver, read_by};
ghost use Rattle.circuit_meaning.specs.Cells.{span};
ghost use Rattle.circuit_meaning.specs.Need.{IsEvaluable};
ghost use Rattle.circuit_meaning.specs.Forced.{forced_circuit};
ghost use Rattle.circuit_meaning.specs.Looks.{kind_of, pin_points, looked_points, pin_interval, met_interval};
ghost use Rattle.design.specs.Join.{AnswersDesign, design_of};
ghost use Rattle.design.specs.Joined.{IsDesign};
ghost use Rattle.circuit_meaning.specs.Cells.{cell_at, point_at};
ghost use Rattle.design.specs.Pins.{pin_at, heard_of};
ghost use Rattle.design.specs.inner.KeptDesigns.{IsViewOf};
ghost use Rattle.design.specs.inner.HeldSignals.{AreOpenReaders};

use crate::cells::{early_gate, flop_span, idle_flop, input_cell, later_span, shown_edge, span_of};
use crate::fault::JoinFault;
use crate::held::{HeldSignal, held_settings, value_of, with_first};
use crate::origin::Origin;
use crate::readers::{OpenReaders, Readers, shared_readers};
use crate::rows::SignalView;
use crate::settings;
use crate::signal_timing::SignalTiming;
use bench_reader::Netlist;
use gate_values::{Kind, Value};
use std::alloc::{AllocError, Global};
use std::marker::Model;
use std::sync::Arc;
use stimulus_file::Stimulus;
use texts::OutOfMemory;
use timing_file::Timing;
use valid_intervals::{Cell, Span};

/// A netlist joined with delays, clocks and settings. What it is made of it shares with the designs that are made of it.
#[derive(Drop)]
pub struct Design {
    origin: Arc<Origin>,
    /// The readers of each signal, as long as none is held; `None` if they were not made yet.
    readers: Option<Arc<Readers>>,
    /// The held signals, the last one first.
    held: Vec<HeldSignal>,
}

impl Model for Design {
    ghost use Rattle.design.specs.Joined.{Joined};

    ghost Value = { Joined };

    ghost use Rattle.std.specs.Prelude.{option_map};
    ghost use Rattle.std.specs.Arc.{arc_value};
    ghost use Rattle.design.specs.inner.HeldSignals.{held_design, IsHeldDesign};

    ghost view = { λ d. held_design (arc_value d.origin) d.held.items };

    ghost invariant = { λ d. IsHeldDesign (arc_value d.origin) (option_map arc_value d.readers)
        d.held.items };
}

impl Design {
    /// The design of a netlist with the rows of a timing file and of a stimulus file, or the first row at fault. The rows of the
    /// timing file come first.
    pub fn join(
        alloc: Global,
        netlist: Netlist,
        timing: &Timing,
        stimulus: &Stimulus,
    ) -> Result<Design, JoinFault>
        ensures { AnswersDesign result (design_of netlist timing.now stimulus.now) }
    {
        netlist.facts();
        timing.facts();
        stimulus.facts();
        let stated = SignalTiming::read(alloc, &netlist, timing)?;
        let kept = stated.rows(alloc, &netlist, timing)?;
        let horizon = stimulus.horizon();
        let settings = settings::read(alloc, &netlist, &kept, horizon, stimulus.sets())?;
        let settings = settings::in_order(alloc, settings)?;
        let origin = Origin {
            netlist,
            horizon,
            rows: kept.rows,
            delays: kept.delays,
            flops: kept.flops,
            settings,
        };
        Ok(Design::of(alloc, origin)?)
    }

    /// The design in which no signal is held.
    fn of(alloc: Global, origin: Origin) -> Result<Design, OutOfMemory>
        ensures { IfOk result (λ design. design ≡ origin) }
    {
        origin.facts();
        Ok(Design {
            origin: Arc::new(alloc, origin)?,
            readers: None,
            held: Vec::new(alloc),
        })
    }

    /// The design with one signal forced: the signal is an input with this value from time 0 on, whatever drove it, and all else is
    /// unchanged. The netlist stays as it is, including the names of the signals and the row of the forced one.
    ///
    /// Only the list of the signals held before is copied. The two designs share the rest.
    pub fn hold(&self, alloc: Global, site: u32, value: Value) -> Result<Design, OutOfMemory>
        requires { site < length self.now.circuit.drivers }
        ensures circuit { IfOk result (λ held. held.circuit ≡ forced_circuit self.now.circuit site
            value) }
        ensures netlist { IfOk result (λ held. held.netlist ≡ self.now.netlist) }
    {
        Ok(Design {
            origin: Arc::try_clone(&self.origin)?,
            readers: self.readers.clone()?,
            held: with_first(alloc, HeldSignal { site, value }, &self.held)?,
        })
    }

    /// The same design, with the links from its signals to their readers. Without them, `reached` makes them at each call.
    ///
    /// Links that this design has are not made again. Only the list of the held signals is copied. The two designs share the rest.
    pub fn with_readers(&self, alloc: Global) -> Result<Design, OutOfMemory>
        ensures { IfOk result (λ design. design ≡ self.now) }
    {
        Ok(Design {
            origin: Arc::try_clone(&self.origin)?,
            readers: Some(shared_readers(alloc, &self.origin, &self.readers)?),
            held: self.held.to_vec(alloc)?,
        })
    }

    /// The law of every design: its circuit is one, within the limits. Whoever reasons about the circuit needs it: walks, strands, the checker
    /// of proofs, and answers.
    pub fn facts(&self)
        ensures { IsDesign self.now }
    {
        let _ = &self.held;
    }

    /// The netlist, with the names of the signals.
    pub fn netlist(&self) -> &Netlist
        ensures { result.now ≡ self.now.netlist }
    {
        self.origin.netlist()
    }

    /// The last time.
    pub fn horizon(&self) -> u32
        ensures horizon { result ≡ self.now.circuit.horizon }
        ensures limit { result ≤ 1000000 }
    {
        self.origin.horizon()
    }

    /// The first time after the last.
    fn limit(&self) -> u32
        ensures limit { result ≡ self.now.circuit.horizon + 1 }
        ensures small { result ≤ 1000001 }
    {
        self.horizon() + 1
    }

    /// What is kept of a signal. Each caller needs a part of it.
    #[inline(always)]
    fn view(&self, signal: u32) -> SignalView<'_>
        requires { signal < length self.now.circuit.drivers }
        ensures view { IsViewOf self.now.circuit signal result }
        ensures design { IsDesign self.now }
    {
        match value_of(&self.held, signal) {
            None => self.origin.view(signal),
            Some(value) => SignalView::Input(held_settings(value)),
        }
    }

    /// The number of signals.
    pub(crate) fn signals(&self) -> u32
        ensures { result ≡ length self.now.circuit.drivers }
    {
        self.origin.signals()
    }

    /// The readers of each signal: those that were made before, or else new ones.
    pub(crate) fn readers(&self, alloc: Global) -> Result<OpenReaders<'_>, OutOfMemory>
        ensures { IfOk result (λ readers. AreOpenReaders self.now.circuit (arc_value readers.all)
            readers.held.now) }
    {
        Ok(OpenReaders {
            all: shared_readers(alloc, &self.origin, &self.readers)?,
            held: &self.held,
        })
    }

    /// The cell at a point, if it needs no evaluation.
    pub fn base(&self, signal: u32, time: u32) -> Option<Cell>
        requires signal { signal < length self.now.circuit.drivers }
        requires time { time ≤ self.now.circuit.horizon }
        ensures cell { IfSome result (λ cell. cell ≡ cell_at self.now.circuit
            (point_at signal time)) }
        ensures some { OnSome result (IsEvaluable self.now.circuit signal time → ⊥) }
        ensures none { IfNone result (IsEvaluable self.now.circuit signal time) }
    {
        let limit = self.limit();
        match self.view(signal) {
            SignalView::Input(settings) => Some(input_cell(settings, time, limit)),
            SignalView::Gate { least, .. } => early_gate(least, time, limit),
            SignalView::Flop { flop, .. } => idle_flop(&flop, time, limit),
        }
    }

    /// The kind and the pins of a gate; a flip-flop has the kind DFF and one pin.
    pub fn gate_of(&self, signal: u32) -> (Kind, &[u32])
        requires signal { signal < length self.now.circuit.drivers }
        requires driven { 1 ≤ length (read_by (driver self.now.circuit signal)) }
        ensures kind { result.0 ≡ kind_of (driver self.now.circuit signal) }
        ensures pins { result.1.now ≡ read_by (driver self.now.circuit signal) }
    {
        match self.view(signal) {
            SignalView::Input(_) => unreachable!(),
            SignalView::Gate { kind, signals, .. } => (kind, signals),
            SignalView::Flop { signals, .. } => (Kind::Dff, signals),
        }
    }

    /// The time at which a point looks at one of its pins; `None` before time 0.
    pub fn child_time(&self, signal: u32, time: u32, pin: u32) -> Option<u32>
        requires signal { signal < length self.now.circuit.drivers }
        requires time { time ≤ self.now.circuit.horizon }
        requires evaluable { IsEvaluable self.now.circuit signal time }
        requires pin { pin < length (read_by (driver self.now.circuit signal)) }
        ensures source { slice_get (pin_points self.now.circuit signal time) pin ≡ Some
            (option_map (pin_at self.now.circuit signal pin) result) }
        ensures earlier { IfSome result (λ child. child < time) }
    {
        match self.view(signal) {
            SignalView::Input(_) => unreachable!(),
            SignalView::Gate { delays, .. } => time.checked_sub(delays[pin as usize]),
            SignalView::Flop { flop, .. } => shown_edge(&flop, time),
        }
    }

    /// The times around `time` at which a pin of a point sees what it sees at `time`, from the interval of the pin's cell at the
    /// child time, if there is one.
    pub fn pin_span(&self, signal: u32, time: u32, pin: u32, heard: Option<Span>) -> Span
        requires signal { signal < length self.now.circuit.drivers }
        requires time { time ≤ self.now.circuit.horizon }
        requires evaluable { IsEvaluable self.now.circuit signal time }
        requires pin { pin < length (read_by (driver self.now.circuit signal)) }
        requires heard { heard ≡ heard_of self.now.circuit signal time pin }
        ensures { result ≡ pin_interval self.now.circuit signal time pin }
    {
        let limit = self.limit();
        match self.view(signal) {
            SignalView::Input(_) => unreachable!(),
            SignalView::Gate { delays, .. } => later_span(delays[pin as usize], heard, time, limit),
            SignalView::Flop { flop, .. } => flop_span(&flop, time, limit),
        }
    }

    /// The interval of the cell at a point, from the times common to its looked pins.
    pub fn span_over(&self, signal: u32, time: u32, looked: Span) -> Span
        requires signal { signal < length self.now.circuit.drivers }
        requires time { time ≤ self.now.circuit.horizon }
        requires evaluable { IsEvaluable self.now.circuit signal time }
        requires looked { looked ≡ met_interval self.now.circuit signal time
            (length (looked_points self.now.circuit signal time)) }
        ensures { result ≡ span self.now.circuit signal time }
    {
        let limit = self.limit();
        match self.view(signal) {
            SignalView::Input(_) => unreachable!(),
            SignalView::Gate { least, .. } => looked.meet(span_of(least, limit)).unwrap(),
            SignalView::Flop { .. } => looked,
        }
    }
}
